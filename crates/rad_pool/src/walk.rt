//! Plain walks over all sessions. They run where the counts don't tell: for a user or a pool that the table wasn't opened with, and
//! for an address that has two uses, or whose note is of another session.
ghost use Rattle.std.specs.Prelude.{◌≡◌, ◌≤◌, ◌==◌, ◌&&◌, None, Some};
ghost use Rattle.rad_config.specs.Ranges.{IsPool};
ghost use Rattle.rad_config.specs.Spans.{moment_max};
ghost use Rattle.rad_pool.specs.Dead.{CountsUser};
ghost use Rattle.rad_pool.specs.Grants.{has_address, is_held, least_free};
ghost use Rattle.rad_pool.specs.Meant.{is_meant, meant, name_agrees};
ghost use Rattle.rad_pool.specs.Sessions.{is_live, is_open, live_sessions};

use crate::session::{Phase, Session};
use crate::users::UserCounts;
use rad_config::{Pool, Spans};
use rad_rows::{Row, Rows};

/// Whether a session is live at a moment.
pub(crate) fn is_live(session: &Session, spans: Spans, now: u64) -> bool
    requires { now ≤ moment_max }
    ensures { result ≡ is_live spans now session.now }
{
    now < session.ends(&spans)
}

pub(crate) fn is_open(phase: Phase) -> bool
    ensures { result ≡ is_open phase }
{
    phase != Phase::Ended
}

pub(crate) fn has_address(session: &Session, address: u32) -> bool
    ensures { result ≡ has_address address session.now }
{
    match session.address {
        Some(held) => held == address,
        None => false,
    }
}

/// How many sessions a user has.
pub(crate) fn count(rows: &Rows<Session, Spans>, user: u32) -> UserCounts
    ensures counts { CountsUser user rows.now.rows result }
    ensures user { result.user ≡ user }
{
    rows.numbers_rise();
    let (mut open_count, mut total): (u64, u64) = (0, 0);
    for row in rows.iter() {
        if row.user == user {
            total += 1;
            open_count += u64::from(is_open(row.phase));
        }
    }
    UserCounts {
        user,
        open_count,
        total,
    }
}

/// The least address of a pool that no live session has.
pub(crate) fn least_free(rows: &Rows<Session, Spans>, now: u64, pool: &Pool) -> Option<u32>
    requires moment { now ≤ moment_max }
    requires pool { IsPool pool.now }
    ensures { result ≡ least_free (live_sessions rows.now.spans now rows.now.rows) pool.now }
{
    for step in 0..pool.last - pool.first + 1 {
        let address = pool.first + step;
        if !is_held(rows, now, address) {
            return Some(address);
        }
    }
    None
}

/// Whether a live session has this address.
pub(crate) fn is_held(rows: &Rows<Session, Spans>, now: u64, address: u32) -> bool
    requires { now ≤ moment_max }
    ensures { result ≡ is_held (live_sessions rows.now.spans now rows.now.rows) address }
{
    for row in rows.iter() {
        if is_live(row, rows.spans(), now) && has_address(row, address) {
            return true;
        }
    }
    false
}

/// Whether any session has this address, also one that isn't live.
pub(crate) fn is_any_ones(rows: &Rows<Session, Spans>, address: u32) -> bool
    ensures { result ≡ is_held rows.now.rows address }
{
    for row in rows.iter() {
        if has_address(row, address) {
            return true;
        }
    }
    false
}

/// The number of the session that a client means by an address.
pub(crate) fn find(
    rows: &Rows<Session, Spans>,
    client: u32,
    address: u32,
    name: Option<Option<u32>>,
) -> Option<u64>
    ensures { result ≡ meant client None (Some address) name rows.now.rows }
{
    for row in rows.iter() {
        if is_wanted(row, client, address, name) {
            return Some(row.number);
        }
    }
    None
}

/// Whether a client means a session by an address.
pub(crate) fn is_wanted(
    session: &Session,
    client: u32,
    address: u32,
    name: Option<Option<u32>>,
) -> bool
    ensures { result ≡ ((session.now.client == client)
        && is_meant None (Some address) name session.now) }
{
    session.client == client
        && is_open(session.phase)
        && has_address(session, address)
        && name_agrees(name, session.user)
}

// Whether a User-Name that was sent, if one was, may go with a session of this user.
fn name_agrees(name: Option<Option<u32>>, user: u32) -> bool
    ensures { result ≡ name_agrees name user }
{
    match name {
        None => true,
        Some(None) => false,
        Some(Some(named)) => named == user,
    }
}
