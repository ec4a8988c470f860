//! Rows of an old server are put into a new one, at their new places.
ghost use Rattle.std.specs.Prelude.{◌≡◌, OnOk, map};
ghost use Rattle.rad_server.specs.declared.state_row.StateRow.TheVariants as rows;
ghost use Rattle.rad_carry.specs.Carried.{and_row, and_rows, gives_lost, is_lost, session_given};

use crate::places::Places;
use rad_packet::attribute::CLASS;
use rad_packet::code::ACCESS_ACCEPT;
use rad_pool::Sessions;
use rad_recent::{Challenges, Kept, Recent};
use rad_server::{RowFault, Server, StateRow, class_number_of};
use std::alloc::AllocError;

/// Puts the sessions into a server.
pub(crate) fn put_sessions(
    server: &mut Server,
    places: &Places,
    old: &Sessions,
) -> Result<(), AllocError>
    ensures put { OnOk result (server.new.state ≡ and_rows places.now server.old.configuration
        old.now.table (map rows.Session old.now.table.sessions) server.old.state) }
    ensures configuration { server.new.configuration ≡ server.old.configuration }
{
    for session in old.rows() {
        if let Some(row) = places.session(&session) {
            put(server, old, StateRow::Session(row))?;
        }
    }
    Ok(())
}

/// Puts the kept replies into a server that has the sessions.
pub(crate) fn put_replies(
    server: &mut Server,
    places: &Places,
    old: &Sessions,
    replies: &Recent,
) -> Result<(), AllocError>
    ensures put { OnOk result (server.new.state ≡ and_rows places.now server.old.configuration
        old.now.table (map rows.Reply replies.now.table.kept) server.old.state) }
    ensures configuration { server.new.configuration ≡ server.old.configuration }
{
    for reply in replies.rows() {
        if let Some(row) = places.reply(reply)? {
            put(server, old, StateRow::Reply(row))?;
        }
    }
    Ok(())
}

/// Puts the challenges into a server.
pub(crate) fn put_challenges(
    server: &mut Server,
    places: &Places,
    old: &Sessions,
    challenges: &Challenges,
) -> Result<(), AllocError>
    ensures put { OnOk result (server.new.state ≡ and_rows places.now server.old.configuration
        old.now.table (map rows.Challenge challenges.now.table.challenges) server.old.state) }
    ensures configuration { server.new.configuration ≡ server.old.configuration }
{
    for challenge in challenges.rows() {
        if let Some(row) = places.challenge(&challenge) {
            put(server, old, StateRow::Challenge(row))?;
        }
    }
    Ok(())
}

/// Puts a row at its new places into a server, if the server's configuration allows it; otherwise nothing changes.
pub(crate) fn put(server: &mut Server, old: &Sessions, row: StateRow) -> Result<(), AllocError>
    ensures put { OnOk result (server.new.state
        ≡ and_row server.old.configuration old.now.table row server.old.state) }
    ensures configuration { server.new.configuration ≡ server.old.configuration }
{
    if gives_lost(old, server.sessions(), &row) {
        return Ok(());
    }
    match server.restore(row) {
        Err(RowFault::NoMemory) => Err(AllocError),
        _ => Ok(()),
    }
}

// Whether a row is an Access-Accept that gives a session which was left out.
fn gives_lost(old: &Sessions, new: &Sessions, row: &StateRow) -> bool
    ensures { result ≡ gives_lost old.now.table new.now.table row.now }
{
    match row {
        StateRow::Reply(reply) => is_lost(old, new, session_given(reply)),
        _ => false,
    }
}

// Whether there is a number, and it is of a session that the old table has and the new one hasn't.
fn is_lost(old: &Sessions, new: &Sessions, number: Option<u64>) -> bool
    ensures { result ≡ is_lost old.now.table new.now.table number }
{
    match number {
        None => false,
        Some(number) => old.get(number).is_some() && new.get(number).is_none(),
    }
}

// The number in the Class of an Access-Accept, if it has the Class of a session.
fn session_given(reply: &Kept) -> Option<u64>
    ensures { result ≡ session_given reply.now }
{
    if reply.body.code() != ACCESS_ACCEPT {
        return None;
    }
    class_number_of(reply.body.attributes().first(CLASS)?)
}
