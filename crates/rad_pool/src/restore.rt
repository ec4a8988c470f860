//! Rows that are put back: which rule of the law each would break, and what is counted of it.
ghost use Rattle.std.specs.Prelude.{◌≡◌, ◌<◌, ◌+◌, ◌++◌, ◌∷◌, ◌&&◌, ◌||◌, [], OnErr, OnOk, length, nat_le};
ghost use Rattle.rad_config.specs.Configurations.{is_reached};
ghost use Rattle.rad_pool.specs.Counts.{CountsRows, HoldsCounts};
ghost use Rattle.rad_pool.specs.Grants.{is_held, pool_of};
ghost use Rattle.rad_pool.specs.Restored.{is_astray, is_taken, restorable};
ghost use Rattle.rad_pool.specs.Sessions.{is_open};
ghost use Rattle.rad_pool.specs.declared.session.Phase.TheVariants.{Active};

use crate::counts::Counts;
use crate::holder::{Holder, holder_of};
use crate::session::{Phase, Session};
use crate::sessions::SESSIONS_MAX;
use crate::users::UserCounts;
use crate::{users, walk};
use rad_config::{Config, Spans, User};
use rad_row_fault::RowFault;
use rad_rows::Rows;
use std::alloc::AllocError;

/// The first rule that a row breaks when the clock shows a moment.
#[tactic(auto, unfolding(crate::specs::Restored::restorable))]
pub(crate) fn check(
    rows: &Rows<Session, Spans>,
    counts: &Counts,
    config: &Config,
    row: Session,
    clock: u64,
) -> Result<(), RowFault>
    requires { HoldsCounts rows.now.rows counts.now }
    ensures rules { result ≡ restorable config.now clock row
        (record { sessions = rows.now.rows; next = rows.now.last + 1; spans = rows.now.spans }) }
    ensures number { OnOk result (rows.now.last < row.number) }
{
    if row.number <= rows.last() {
        return Err(RowFault::Number);
    }
    if config.clients().len() <= row.client as usize {
        return Err(RowFault::Client);
    }
    if config.users().len() <= row.user as usize {
        return Err(RowFault::User);
    }
    if row.seen < row.made || clock < row.seen {
        return Err(RowFault::Moments);
    }
    if is_astray(config, row.user, row.address) {
        return Err(RowFault::AddressOutside);
    }
    if is_taken(rows, counts, row.address) {
        return Err(RowFault::AddressHeld);
    }
    let held = users::count(rows, counts, row.user);
    if exceeds_limits(config.user_at(row.user), row.phase, held) {
        return Err(RowFault::SessionLimit);
    }
    if SESSIONS_MAX <= rows.len() {
        return Err(RowFault::Full);
    }
    Ok(())
}

// Whether an address, if there is one, isn't the own one of the user at a place, or in the user's pool.
fn is_astray(config: &Config, user: u32, address: Option<u32>) -> bool
    requires { user < length config.now.users }
    ensures { result ≡ is_astray (pool_of config.now user) address }
{
    let Some(address) = address else {
        return false;
    };
    let user = config.user_at(user);
    if let Some(own) = user.address {
        return address != own;
    }
    let Some(place) = user.pool else {
        return true;
    };
    let pool = config.pool_at(place);
    !(pool.first <= address && address <= pool.last)
}

// Whether an address, if there is one, is some session's.
fn is_taken(rows: &Rows<Session, Spans>, counts: &Counts, address: Option<u32>) -> bool
    requires { HoldsCounts rows.now.rows counts.now }
    ensures { result ≡ is_taken rows.now.rows address }
{
    match address {
        Some(address) => is_held(rows, counts, address),
        None => false,
    }
}

fn is_held(rows: &Rows<Session, Spans>, counts: &Counts, address: u32) -> bool
    requires { HoldsCounts rows.now.rows counts.now }
    ensures { result ≡ is_held rows.now.rows address }
{
    match holder_of(rows, counts, address) {
        Holder::Nobody => false,
        Holder::One(_) => true,
        Holder::Unknown => walk::is_any_ones(rows, address),
    }
}

// Whether a user who has so many sessions may have no more like one in this phase.
fn exceeds_limits(user: &User, phase: Phase, held: UserCounts) -> bool
    ensures { result ≡ ((is_open phase && nat_le user.now.sessions held.open_count)
        || is_reached user.now.grants held.total) }
{
    walk::is_open(phase) && u64::from(user.sessions) <= held.open_count
        || users::has_all_grants(user, held.total)
}

/// Puts a session last, whose number is above the last that was given. After an error the sessions and the last number are as
/// before.
pub(crate) fn restore(
    rows: &mut Rows<Session, Spans>,
    counts: &mut Counts,
    session: Session,
) -> Result<(), AllocError>
    requires counts { CountsRows rows.old counts.old }
    requires number { rows.old.last < session.number }
    ensures counts { CountsRows rows.new counts.new }
    ensures rows { OnOk result (rows.new.rows ≡ rows.old.rows ++ session ∷ []) }
    ensures last { OnOk result (rows.new.last ≡ session.number) }
    ensures same_rows { OnErr result (rows.new.rows ≡ rows.old.rows) }
    ensures same_last { OnErr result (rows.new.last ≡ rows.old.last) }
    ensures spans { rows.new.spans ≡ rows.old.spans }
{
    rows.numbers_rise();
    counts.room()?;
    rows.restore(session)?;
    counts.come(&session);
    if session.phase == Phase::Ended {
        counts.end(Some(opened(session)));
    }
    Ok(())
}

// The session, not ended: one that has ended is counted as one that comes, and then as one that ends.
fn opened(session: Session) -> Session
    ensures { result ≡ record session { phase = Active } }
{
    Session {
        phase: Phase::Active,
        ..session
    }
}
