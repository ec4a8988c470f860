//! Rows that are read.
ghost use Rattle.std.specs.Prelude.{◌≡◌, ℕ, IfErr, IfOk, OnErr};
ghost use Rattle.rad_journal.specs.declared.journal.JournalFault.TheVariants.{Damaged};
ghost use Rattle.rad_snapshot.specs.Restoring.{IsChallengeRow, IsOf, IsReplyRow, IsRowAt, IsSessionRow, item_of};
ghost use Rattle.rad_snapshot.specs.Rows.{challenge_of, reply_of, row_of, session_of};

use crate::body::body_of;
use crate::columns::{
    door, draw, number, number_if_any, number_of_8, number_of_16, number_of_32, octets, phase,
};
use crate::filling::fill;
use crate::snapshot_table::SnapshotTable;
use rad_journal::JournalFault;
use rad_packet::{Body, Octets};
use rad_pool::Session;
use rad_recent::{Challenge, Kept, Key};
use rad_server::StateRow;
use sqlite_value::row::Row;
use std::alloc::Global;

/// What the row of a table at a place stands for.
///
/// `Damaged`: it is none of this table's, or not the one of this place.
pub(crate) fn row_in(
    alloc: Global,
    table: SnapshotTable,
    place: u32,
    row: &Row,
    wanted: &mut Row,
) -> Result<StateRow, JournalFault>
    ensures kind { IfOk result (IsOf table) }
    ensures is { IfOk result (λ item. row.now ≡ row_of place item) }
    ensures damaged { IfErr result (λ fault. fault ≡ Damaged → ¬ IsRowAt table place row.now) }
{
    let item = item_in(alloc, table, row)?;
    if fill(wanted, place, &item).is_err() {
        return Err(JournalFault::NoMemory);
    }
    if !row.is_same(wanted) {
        return Err(JournalFault::Damaged);
    }
    Ok(item)
}

// What the columns of a row stand for in a table, if they have its kinds and ranges.
fn item_in(alloc: Global, table: SnapshotTable, row: &Row) -> Result<StateRow, JournalFault>
    ensures kind { IfOk result (IsOf table) }
    ensures is { IfOk result (λ item. item ≡ item_of table row.now) }
    ensures damaged { IfErr result (λ fault. fault ≡ Damaged
        → (place : ℕ) → ¬ IsRowAt table place row.now) }
{
    match table {
        SnapshotTable::Sessions => Ok(StateRow::Session(session_in(row)?)),
        SnapshotTable::Replies => Ok(StateRow::Reply(reply_in(alloc, row)?)),
        SnapshotTable::Challenges => Ok(StateRow::Challenge(challenge_in(row)?)),
        SnapshotTable::Numbers => Err(JournalFault::Damaged),
    }
}

// The session of a row.
fn session_in(row: &Row) -> Result<Session, JournalFault>
    ensures session { IfOk result (λ session. session ≡ session_of row.now) }
    ensures damaged { OnErr result (¬ IsSessionRow row.now) }
{
    Ok(Session {
        number: number(row, 1)?,
        client: number_of_32(row, 2)?,
        source: number_of_32(row, 3)?,
        user: number_of_32(row, 4)?,
        address: number_if_any(row, 5)?,
        phase: phase(row, 6)?,
        made: number(row, 7)?,
        seen: number(row, 8)?,
    })
}

// The kept reply of a row.
fn reply_in(alloc: Global, row: &Row) -> Result<Kept, JournalFault>
    ensures reply { IfOk result (λ reply. reply ≡ reply_of row.now) }
    ensures damaged { IfErr result (λ fault. fault ≡ Damaged → ¬ IsReplyRow row.now) }
{
    let client = number_if_any(row, 1)?;
    let key = key_in(row)?;
    let made = number(row, 9)?;
    let octets = octets(row, 6)?;
    let body = body_in(alloc, row)?;
    Ok(Kept {
        client,
        key,
        octets: Octets::of(alloc, octets)?,
        body,
        made,
    })
}

// The key of a kept reply's row.
fn key_in(row: &Row) -> Result<Key, JournalFault>
    ensures key { IfOk result (λ key. key ≡ (reply_of row.now).key) }
    ensures damaged { OnErr result (¬ IsReplyRow row.now) }
{
    Ok(Key {
        source: number_of_32(row, 2)?,
        port: number_of_16(row, 3)?,
        door: door(row, 4)?,
        id: number_of_8(row, 5)?,
    })
}

// The body of a kept reply's row.
fn body_in(alloc: Global, row: &Row) -> Result<Body, JournalFault>
    ensures body { IfOk result (λ body. body ≡ (reply_of row.now).body) }
    ensures damaged { IfErr result (λ fault. fault ≡ Damaged → ¬ IsReplyRow row.now) }
{
    let code = number_of_8(row, 7)?;
    let octets = octets(row, 8)?;
    match body_of(alloc, code, octets)? {
        Some(body) => Ok(body),
        None => Err(JournalFault::Damaged),
    }
}

// The challenge of a row.
fn challenge_in(row: &Row) -> Result<Challenge, JournalFault>
    ensures challenge { IfOk result (λ challenge. challenge ≡ challenge_of row.now) }
    ensures damaged { OnErr result (¬ IsChallengeRow row.now) }
{
    Ok(Challenge {
        number: number(row, 1)?,
        draw: draw(row, 2)?,
        client: number_of_32(row, 3)?,
        user: number_of_32(row, 4)?,
        made: number(row, 5)?,
    })
}
