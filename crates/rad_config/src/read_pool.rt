//! Reading pools.
ghost use Rattle.std.specs.Prelude.{◌≡◌, ◌<◌, ◌≤◌, IfOk, IfSome, length};
ghost use Rattle.std.specs.List.{list_any};
ghost use Rattle.rad_config.specs.Configurations.{is_within, overlap, pool_in, pools_max, share};
ghost use Rattle.rad_config_fault.specs.Faults.{Gives};
ghost use Rattle.rad_config.specs.Keys.{pool_place, user_pool};
ghost use Rattle.rad_config.specs.Ranges.{IsPool};
ghost use Rattle.rad_config.specs.Readers.{GivesValue};
ghost use Rattle.rad_config.specs.Views.{entry_data};

use crate::entry::Entry;
use crate::keys::{POOL_FIRST, POOL_NAME, pool_last};
use crate::pool::Pool;
use crate::text::Text;
use rad_config_fault::{ConfigFault, Key};
use std::alloc::Global;

/// The pool that an entry says, whose name no earlier one has.
#[tactic(auto, unfolding(crate::specs::Configurations::pool_in))]
pub fn read_pool(alloc: Global, earlier: &[Pool], entry: &Entry<'_>) -> Result<Pool, ConfigFault>
    ensures read { Gives (λ pool. pool) result (pool_in earlier.now (entry_data entry.now)) }
    ensures range { IfOk result IsPool }
{
    let name = entry.required_text(&POOL_NAME)?;
    if place_of(earlier, name).is_some() {
        return Err(ConfigFault::BadValue(entry.spot(Key::Name)));
    }
    let first = entry.address(&POOL_FIRST)?;
    let last = entry.address(&pool_last(first))?;
    let name = Text::copy_of(alloc, name).map_err(|_| ConfigFault::NoMemory)?;
    Ok(Pool { name, first, last })
}

// The place of the pool with this name.
fn place_of(pools: &[Pool], name: &[u8]) -> Option<usize>
    ensures value { result ≡ pool_place pools.now name.now }
    ensures within { IfSome result (λ place. place < length pools.now) }
{
    pools.iter().position(|pool| name == pool.name.octets())
}

/// The place of the pool that a user's entry names.
#[tactic(auto, unfolding(crate::specs::Entries::value))]
pub fn read_pool_place(pools: &[Pool], entry: &Entry<'_>) -> Result<Option<u32>, ConfigFault>
    requires { length pools.now ≤ pools_max }
    ensures read { GivesValue (λ place. place) result entry.now (user_pool pools.now) }
    ensures within { IfOk result (λ found. IfSome found (λ place. place < length pools.now)) }
{
    let Some(value) = entry.get(Key::Pool) else {
        return Ok(None);
    };
    let bad = ConfigFault::BadValue(entry.spot(Key::Pool));
    let name = value.as_str().ok_or(bad)?;
    let place = place_of(pools, name.as_bytes()).ok_or(bad)?;
    Ok(Some(place as u32))
}

/// Whether one of the pools has this address.
pub fn some_has(pools: &[Pool], address: u32) -> bool
    ensures { result ≡ list_any (is_within address) pools.now }
{
    pools
        .iter()
        .any(|pool| pool.first <= address && address <= pool.last)
}

// Whether two pools share an address.
fn share_address(one: &Pool, other: &Pool) -> bool
    ensures { result ≡ share one.now other.now }
{
    one.first <= other.last && other.first <= one.last
}

// Whether a pool shares an address with one of the others.
fn shares_with(pool: &Pool, others: &[Pool]) -> bool
    ensures { result ≡ list_any (share pool.now) others.now }
{
    others.iter().any(|other| share_address(pool, other))
}

/// Whether two of the pools share an address.
pub fn some_overlap(pools: &[Pool]) -> bool
    ensures { result ≡ overlap pools.now }
{
    let mut rest = pools;
    while let Some((pool, others)) = rest.split_first() {
        if shares_with(pool, others) {
            return true;
        }
        rest = others;
    }
    false
}
