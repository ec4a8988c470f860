//! Entries of a document that are the same, or have the same address.
ghost use Rattle.std.specs.Prelude.{◌≡◌, ◌<◌, IfSome, IsSome, IsTrue, length};
ghost use Rattle.rad_check.specs.Details.{is_distinct, is_own_address, share};

use rad_config_fault::{Key, Part, Spot};
use rad_text::decimal;
use toml::{Table, Value};

/// What ends the text of a network that is one address.
const ONE_ADDRESS: &str = "/32";

/// The addresses of a pool.
#[derive(Clone, Copy)]
pub struct Range {
    pub first: u32,
    pub last: u32,
}

/// The earlier entry, from 1, that has the same name, network or address as a spot has.
pub fn same_as(document: &Table, spot: Spot) -> Option<usize>
    ensures distinct { IsSome result → IsTrue (is_distinct spot.key) }
    ensures earlier { IfSome result (λ index. index < spot.index) }
{
    if !is_distinct(spot.key) {
        return None;
    }
    let items = items_of(document, spot.part)?;
    let place = spot.index.checked_sub(1)? as usize;
    let (earlier, others) = items.split_at_checked(place)?;
    let text = text_at(others.first()?, spot.key)?;
    let found = earlier
        .iter()
        .position(|item| is_same(spot.part, text, text_at(item, spot.key)))?;
    Some(found + 1)
}

/// The first pool, from 1, that has the address of a spot, if that is a user's own.
pub fn pool_with(document: &Table, spot: Spot) -> Option<usize>
    ensures { IsSome result → IsTrue (is_own_address spot) }
{
    if !is_own_address(spot) {
        return None;
    }
    let place = spot.index.checked_sub(1)? as usize;
    let entry = items_of(document, spot.part)?.get(place)?;
    let address = decimal::address(text_at(entry, spot.key)?.as_bytes())?;
    let own = Range {
        first: address,
        last: address,
    };
    let pool = sharing(items_of(document, Part::Pool)?, own)?;
    Some(pool + 1)
}

/// The first two pools, from 1, that share an address: of those that share one with an earlier pool the first, and that pool.
pub fn shared_pools(document: &Table) -> Option<(usize, usize)>
    ensures earlier { IfSome result (λ pools. pools.0 < pools.1) }
{
    let items = items_of(document, Part::Pool)?;
    for (place, item) in items.iter().enumerate() {
        if let Some(earlier) = sharing(&items[..place], range_of(item)?) {
            return Some((earlier + 1, place + 1));
        }
    }
    None
}

// The place of the first pool that shares an address with a range.
fn sharing(pools: &[Value], range: Range) -> Option<usize>
    ensures within { IfSome result (λ place. place < length pools.now) }
{
    pools.iter().position(|pool| range_of(pool).is_some_and(|other| share(range, other)))
}

// Whether no two entries of a list may have the same value at a key.
fn is_distinct(key: Key) -> bool
    ensures { result ≡ is_distinct key }
{
    matches!(key, Key::Address | Key::Name)
}

// Whether a spot is that of an address of a user's own.
fn is_own_address(spot: Spot) -> bool
    ensures { result ≡ is_own_address spot }
{
    matches!((spot.part, spot.key), (Part::User, Key::Address))
}

// Whether an address is in both ranges.
fn share(one: Range, other: Range) -> bool
    ensures { result ≡ share one other }
{
    one.first <= other.last && other.first <= one.last
}

// Whether two texts say the same of a part: of clients the same network.
fn is_same(part: Part, text: &str, other: Option<&str>) -> bool {
    match (part, other) {
        (_, None) => false,
        (Part::Client, Some(other)) => network(text) == network(other),
        (_, Some(other)) => text == other,
    }
}

// A network's text, without the end that means what no end means.
fn network(text: &str) -> &str {
    text.strip_suffix(ONE_ADDRESS).unwrap_or(text)
}

fn range_of(pool: &Value) -> Option<Range> {
    let first = decimal::address(text_at(pool, Key::First)?.as_bytes())?;
    let last = decimal::address(text_at(pool, Key::Last)?.as_bytes())?;
    Some(Range { first, last })
}

fn text_at(entry: &Value, key: Key) -> Option<&str> {
    entry.as_table()?.get(key.name())?.as_str()
}

fn items_of(document: &Table, part: Part) -> Option<&[Value]> {
    Some(document.get(part.name())?.as_array()?.as_slice())
}
