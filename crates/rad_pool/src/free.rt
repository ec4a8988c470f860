//! The address of a new session: a user's own, or the least of a pool, that no live session has.
ghost use Rattle.std.specs.Prelude.{◌≡◌, ◌+◌, ◌<◌, ◌≤◌, ℕ, IfOk, Some, is_some, length, nat_lt, option_and_then, slice_get, true};
ghost use Rattle.std.specs.Option.{option_or};
ghost use Rattle.rad_config.specs.Ranges.{IsPool};
ghost use Rattle.rad_config.specs.Spans.{moment_max};
ghost use Rattle.rad_places.specs.Places.{uses_at};
ghost use Rattle.rad_pool.specs.Counts.{HoldsCounts, IsCounted};
ghost use Rattle.rad_pool.specs.Dead.{IsLeastFreed, TakesLesser, dead_sessions};
ghost use Rattle.rad_pool.specs.Grants.{address_from, is_held, least_free, own_pool, pool_of};
ghost use Rattle.rad_pool.specs.Sessions.{live_sessions};

use crate::counts::Counts;
use crate::grant::Refusal;
use crate::holder::{Holder, holder_of};
use crate::session::Session;
use crate::walk;
use rad_config::{Config, Pool, Spans};
use rad_places::Places;
use rad_rows::{Rows, Tally};

/// The least place of a pool that a session with its address leaves, or the place that was known before if that is less.
#[derive(Clone, Copy)]
pub(crate) struct LeastFreed {
    pub(crate) first: u32,
    pub(crate) place: usize,
}

impl Tally<Session> for LeastFreed {
    ghost told = { λ old session new. TakesLesser old session new };

    fn leave(&mut self, session: &Session) {
        let Some(address) = session.address else {
            return;
        };
        if self.first <= address {
            self.place = self.place.min((address - self.first) as usize);
        }
    }
}

/// The address of a new session of the user at a place: the user's own, or else the least one of the user's pool; none without
/// either.
///
/// `NoAddress` if a live session has it, or each one of the pool.
#[tactic(auto, unfolding(crate::specs::Grants::address_from))]
pub(crate) fn address_for(
    rows: &Rows<Session, Spans>,
    counts: &Counts,
    config: &Config,
    user: u32,
    now: u64,
) -> Result<Option<u32>, Refusal>
    requires user { user < length config.now.users }
    requires moment { now ≤ moment_max }
    requires counts { HoldsCounts rows.now.rows counts.now }
    ensures rule { result ≡ address_from (live_sessions rows.now.spans now rows.now.rows)
        (pool_of config.now user) }
    ensures pooled { IfOk result (λ address. is_some address ≡ true →
        is_some (option_and_then (λ row. option_or row.address row.pool)
        (slice_get config.now.users user)) ≡ true) }
{
    let asking = config.user_at(user);
    if let Some(address) = asking.address {
        return own_address(rows, counts, address, now);
    }
    let Some(place) = asking.pool else {
        return Ok(None);
    };
    match least_free(rows, counts, now, place, config.pool_at(place)) {
        Some(address) => Ok(Some(address)),
        None => Err(Refusal::NoAddress),
    }
}

// A user's own address, unless a live session has it.
fn own_address(
    rows: &Rows<Session, Spans>,
    counts: &Counts,
    address: u32,
    now: u64,
) -> Result<Option<u32>, Refusal>
    requires moment { now ≤ moment_max }
    requires counts { HoldsCounts rows.now.rows counts.now }
    ensures { result ≡ address_from (live_sessions rows.now.spans now rows.now.rows)
        (Some (own_pool address)) }
{
    if is_held(rows, counts, address, now) {
        return Err(Refusal::NoAddress);
    }
    Ok(Some(address))
}

// Whether a live session has an address.
fn is_held(rows: &Rows<Session, Spans>, counts: &Counts, address: u32, now: u64) -> bool
    requires moment { now ≤ moment_max }
    requires counts { HoldsCounts rows.now.rows counts.now }
    ensures { result ≡ is_held (live_sessions rows.now.spans now rows.now.rows) address }
{
    match holder_of(rows, counts, address) {
        Holder::Nobody => false,
        Holder::One(session) => walk::is_live(session, rows.spans(), now),
        Holder::Unknown => walk::is_held(rows, now, address),
    }
}

// The least address of a pool that no live session has. `number` is the place of the pool in the configuration.
fn least_free(
    rows: &Rows<Session, Spans>,
    counts: &Counts,
    now: u64,
    number: u32,
    pool: &Pool,
) -> Option<u32>
    requires moment { now ≤ moment_max }
    requires pool { IsPool pool.now }
    requires counts { HoldsCounts rows.now.rows counts.now }
    ensures { result ≡ least_free (live_sessions rows.now.spans now rows.now.rows) pool.now }
{
    let number = number as usize;
    if counts.pools.len() <= number {
        return walk::least_free(rows, now, pool);
    }
    let places = &counts.pools[number];
    if places.first() != pool.first || places.len() != (pool.last - pool.first) as usize + 1 {
        return walk::least_free(rows, now, pool);
    }
    least_counted(rows, places, now, pool)
}

// The same for the pool whose uses are counted.
fn least_counted(rows: &Rows<Session, Spans>, places: &Places, now: u64, pool: &Pool) -> Option<u32>
    requires moment { now ≤ moment_max }
    requires pool { IsPool pool.now }
    requires first { places.now.first ≡ pool.now.first }
    requires len { length places.now.uses + pool.now.first ≡ pool.now.last + 1 }
    requires counted { IsCounted rows.now.rows places.now }
    ensures { result ≡ least_free (live_sessions rows.now.spans now rows.now.rows) pool.now }
{
    let place = least_freed(rows, places, now);
    if places.len() <= place {
        return None;
    }
    if is_shared(places, place) {
        return walk::least_free(rows, now, pool);
    }
    Some(pool.first + place as u32)
}

// Whether more than one session has the address at a place, of which one may be live.
fn is_shared(places: &Places, place: usize) -> bool
    requires { place < length places.now.uses }
    ensures { result ≡ nat_lt 1 (uses_at place places.now) }
{
    1 < places.uses(place)
}

// The least place that isn't in use, or whose address a session has that isn't live; as many as there are if there is none.
fn least_freed(rows: &Rows<Session, Spans>, places: &Places, now: u64) -> usize
    requires { now ≤ moment_max }
    ensures { IsLeastFreed (dead_sessions rows.now.spans now rows.now.rows) places.now result }
{
    let mut freed = LeastFreed {
        first: places.first(),
        place: least_unused(places),
    };
    rows.tell_dead(&mut freed, now);
    freed.place
}

// The least place that isn't in use; as many as there are if there is none.
fn least_unused(places: &Places) -> usize
    ensures unused { result < length places.now.uses → uses_at result places.now ≡ 0 }
    ensures used { (place : ℕ) → place < result → place < length places.now.uses →
        0 < uses_at place places.now }
{
    match places.least_free() {
        Some(place) => place,
        None => places.len(),
    }
}
