//! Reading entries back from a store's table.
ghost use Rattle.std.specs.Prelude.{◌≡◌, ◌≢◌, ℕ, ◌+◌, ◌≤◌, ◌<◌, ◌^◌, List, length, Option, pos, IfErr, IfOk, IfSome, OnErr, OnOk};
ghost use Rattle.std.specs.Prelude.{slice_get};
ghost use Rattle.rad_auth.specs.declared.arrival.Door.{Door};
ghost use Rattle.sqlite_disk.specs.Disk.{MoreFaults};
ghost use Rattle.sqlite_value.specs.Order.{column};
ghost use Rattle.sqlite_value.specs.declared.value.Value.TheVariants.{Blob, Int};
ghost use Rattle.sqlite_trees.specs.Tree.{Trees};
ghost use Rattle.sqlite_trees.specs.View.{IsClean, KeepsSchema, StayLive, doubt};
ghost use Rattle.sqlite_trees.specs.declared.store.Shape.TheVariants.{Table};
ghost use Rattle.rad_journal.specs.Rows.{IsLog, IsRow, IsWithin, at_door, at_draw, at_port, at_session, door_number, entries_of};
ghost use Rattle.rad_journal.specs.Rows.{entry_of, session_value, table};

use crate::append::{ACCT, AUTH, TABLE};
use crate::journal::JournalFault;
use crate::kept::Kept;
use rad_auth::Door;
use rad_packet::Octets;
use sqlite_trees::store::Store;
use sqlite_value::row::Row;
use sqlite_value::value::ValueRef;
use std::alloc::Global;

// The columns of a row, after its rowid.
const WALL: usize = 1;

const MOMENT: usize = 2;

const CLIENT: usize = 3;

const SOURCE: usize = 4;

const PORT: usize = 5;

const DOOR: usize = 6;

const SESSION: usize = 7;

const DRAW: usize = 8;

const OCTETS: usize = 9;

const ANSWER: usize = 10;

/// How many entries there are.
pub(crate) fn count<S: Store>(
    alloc: Global,
    store: &mut S,
    row: &mut Row,
) -> Result<u32, JournalFault>
    requires shape { IsClean (S.view store.old) → (S.view store.old).shape table ≡ Table }
    requires log { IsClean (S.view store.old) → IsLog ((S.view store.old).trees table) }
    ensures count { IfOk result (λ n. IsClean (S.view store.new)
        → length (entries_of ((S.view store.old).trees table)) ≡ n) }
    ensures same { OnOk result (IsClean (S.view store.new)
        → S.view store.new ≡ S.view store.old) }
    ensures schema { KeepsSchema (S.view store.old) (S.view store.new) }
    ensures clean { doubt (S.view store.old).is_clean ≤ doubt (S.view store.new).is_clean }
    ensures outcomes { (db : Trees) → S.recovers store.new db → S.recovers store.old db }
{
    for place in 0..u32::MAX {
        if read(alloc, store, row, place)?.is_none() {
            return Ok(place);
        }
    }
    Err(JournalFault::Full)
}

/// The entry at a place, if there is one.
pub(crate) fn read<S: Store>(
    alloc: Global,
    store: &mut S,
    row: &mut Row,
    place: u32,
) -> Result<Option<Kept>, JournalFault>
    requires shape { IsClean (S.view store.old) → (S.view store.old).shape table ≡ Table }
    requires log { IsClean (S.view store.old) → IsLog ((S.view store.old).trees table) }
    ensures found { IfOk result (λ entry. IsClean (S.view store.new)
        → entry ≡ slice_get (entries_of ((S.view store.old).trees table)) place) }
    ensures damaged { IfErr result (λ fault.
        fault ≡ JournalFault.Damaged → IsClean (S.view store.new)
        → IfSome (slice_get (entries_of ((S.view store.old).trees table)) place) IsWithin
        → MoreFaults (S.faults store.old) (S.faults store.new)) }
    ensures same { OnOk result (IsClean (S.view store.new)
        → S.view store.new ≡ S.view store.old) }
    ensures stay { OnOk result (StayLive (S.view store.old) (S.view store.new)) }
    ensures schema { KeepsSchema (S.view store.old) (S.view store.new) }
    ensures clean { doubt (S.view store.old).is_clean ≤ doubt (S.view store.new).is_clean }
    ensures outcomes { (db : Trees) → S.recovers store.new db → S.recovers store.old db }
{
    if !store.get(TABLE, rowid(place), row)? {
        return Ok(None);
    }
    Ok(Some(entry(alloc, row)?))
}

// The rowid of the entry at a place.
fn rowid(place: u32) -> i64
    ensures { result ≡ pos (1 + place) }
{
    i64::from(place) + 1
}

/// The entry of a row, if its columns are numbers that fit and blobs.
pub(crate) fn entry(alloc: Global, row: &Row) -> Result<Kept, JournalFault>
    ensures entry { IfOk result (λ entry. entry ≡ entry_of row.now) }
    ensures damaged { IfErr result (λ fault.
        fault ≡ JournalFault.Damaged → ¬ IsRow row.now) }
{
    let wall = number(row, WALL)?;
    let moment = number(row, MOMENT)?;
    let client = word(row, CLIENT)?;
    let source = word(row, SOURCE)?;
    let port = port(row)?;
    let door = door(row)?;
    let session = session(row)?;
    let draw = draw(row)?;
    let octets = blob(alloc, row, OCTETS)?;
    let answer = blob(alloc, row, ANSWER)?;
    Ok(Kept {
        wall,
        moment,
        client,
        source,
        port,
        door,
        session,
        draw,
        octets,
        answer,
    })
}

// The number below 2 ^ 32 in a column.
fn word(row: &Row, at: usize) -> Result<u32, JournalFault>
    ensures value { IfOk result (λ n. column row.now at ≡ Int (pos n)) }
    ensures other { OnErr result ((n : ℕ) → n < 2 ^ 32 → column row.now at ≢ Int (pos n)) }
{
    match u32::try_from(number(row, at)?) {
        Ok(number) => Ok(number),
        Err(_) => Err(JournalFault::Damaged),
    }
}

// The source port of a row.
fn port(row: &Row) -> Result<u16, JournalFault>
    ensures value { IfOk result (λ n. column row.now at_port ≡ Int (pos n)) }
    ensures other { OnErr result ((n : ℕ) → n < 2 ^ 16
        → column row.now at_port ≢ Int (pos n)) }
{
    match u16::try_from(number(row, PORT)?) {
        Ok(port) => Ok(port),
        Err(_) => Err(JournalFault::Damaged),
    }
}

// The door of a row.
fn door(row: &Row) -> Result<Door, JournalFault>
    ensures value { IfOk result (λ door.
        column row.now at_door ≡ Int (pos (door_number door))) }
    ensures other { OnErr result ((door : Door)
        → column row.now at_door ≢ Int (pos (door_number door))) }
{
    match number(row, DOOR)? {
        AUTH => Ok(Door::Auth),
        ACCT => Ok(Door::Acct),
        _ => Err(JournalFault::Damaged),
    }
}

// The number of the session of a row, if it has one.
fn session(row: &Row) -> Result<Option<u64>, JournalFault>
    ensures value { IfOk result (λ number.
        column row.now at_session ≡ session_value number) }
    ensures other { OnErr result ((number : Option ℕ)
        → column row.now at_session ≢ session_value number) }
{
    if let ValueRef::Null = row.get(SESSION) {
        return Ok(None);
    }
    Ok(Some(number(row, SESSION)?))
}

// The number in a column, from 0 up.
fn number(row: &Row, at: usize) -> Result<u64, JournalFault>
    ensures value { IfOk result (λ n. column row.now at ≡ Int (pos n)) }
    ensures other { OnErr result ((n : ℕ) → column row.now at ≢ Int (pos n)) }
{
    let ValueRef::Int(number) = row.get(at) else {
        return Err(JournalFault::Damaged);
    };
    match u64::try_from(number) {
        Ok(number) => Ok(number),
        Err(_) => Err(JournalFault::Damaged),
    }
}

// The draw of a row.
fn draw(row: &Row) -> Result<[u8; 16], JournalFault>
    ensures value { IfOk result (λ draw. column row.now at_draw ≡ Blob draw) }
    ensures other { OnErr result ((draw : List ℕ) → length draw ≡ 16
        → column row.now at_draw ≢ Blob draw) }
{
    let ValueRef::Blob(octets) = row.get(DRAW) else {
        return Err(JournalFault::Damaged);
    };
    match <[u8; 16]>::try_from(octets) {
        Ok(draw) => Ok(draw),
        Err(_) => Err(JournalFault::Damaged),
    }
}

// The octets in a column.
fn blob(alloc: Global, row: &Row, at: usize) -> Result<Octets, JournalFault>
    ensures value { IfOk result (λ octets. column row.now at ≡ Blob octets) }
    ensures other { IfErr result (λ fault. fault ≡ JournalFault.Damaged
        → (octets : List ℕ) → column row.now at ≢ Blob octets) }
{
    match row.get(at) {
        ValueRef::Blob(octets) => Ok(Octets::of(alloc, octets)?),
        _ => Err(JournalFault::Damaged),
    }
}
