//! Adding entries and their records to a store's tables, and committing them.
ghost use Rattle.std.specs.Prelude.{◌≡◌, ◌+◌, ◌-◌, ◌++◌, ◌≤◌, ◌<◌, ◌^◌, List, length, pos, true, None, Some, IfOk, OnErr, OnOk};
ghost use Rattle.sqlite_value.specs.Value.{owned};
ghost use Rattle.sqlite_trees.specs.Tree.{Trees, put_row};
ghost use Rattle.sqlite_trees.specs.View.{IsClean, IsQuiet, KeepsSchema, OnlyWrites, SetsTree, doubt};
ghost use Rattle.sqlite_trees.specs.declared.store.Shape.TheVariants.{Table};
ghost use Rattle.rad_journal.specs.Records.{records_of, register_tree};
ghost use Rattle.rad_journal.specs.Rows.{IsCounted, door_number, entries_of, row_of, rows_from, session_value, table};
ghost use Rattle.rad_journal.specs.declared.kept.Kept.{Kept};
ghost use Rattle.rad_journal.specs.Stores.{HasTables, IsAdded, IsSound, KeepsOthers, LeavesAdded, LeavesRest, others};
ghost use Rattle.rad_journal.specs.declared.register.Register.{Register};

use crate::journal::JournalFault;
use crate::kept::Kept;
use crate::recording::record_all;
use crate::register::Register;
use rad_auth::Door;
use sqlite_trees::store::Store;
use sqlite_value::row::Row;
use sqlite_value::value::ValueRef;

/// The number of the entries' tree.
pub(crate) const TABLE: u32 = 0;

/// The number of the authentication port in a row.
pub(crate) const AUTH: u64 = 0;

/// The number of the accounting port in a row.
pub(crate) const ACCT: u64 = 1;

/// Adds entries after so many, and commits them. Returns how many there are then.
///
/// After an error the store has to be opened again.
pub(crate) fn add<S: Store>(
    store: &mut S,
    row: &mut Row,
    count: u32,
    entries: &[Kept],
) -> Result<u32, JournalFault>
    requires sound { IsClean (S.view store.old)
        → IsSound (S.view store.old) (S.recovers store.old) true (Some count) }
    ensures clean { doubt (S.view store.old).is_clean ≤ doubt (S.view store.new).is_clean }
    ensures sound { IfOk result (λ n. IsClean (S.view store.new)
        → IsSound (S.view store.new) (S.recovers store.new) true (Some n)) }
    ensures broken { OnErr result (IsClean (S.view store.new)
        → IsSound (S.view store.new) (S.recovers store.new) true None) }
    ensures added { OnOk result (IsClean (S.view store.new)
        → IsAdded (S.view store.old) (S.view store.new) entries.now) }
    ensures crash { IsClean (S.view store.new) → LeavesAdded (S.view store.old)
        (S.recovers store.old) (S.recovers store.new) entries.now }
    ensures others { IsClean (S.view store.new)
        → KeepsOthers (S.recovers store.old) (S.recovers store.new) }
{
    if entries.len() >= (u32::MAX - count) as usize {
        return Err(JournalFault::Full);
    }
    append(store, row, count, entries)
}

// Adds entries after so many, and commits them, where there is room.
fn append<S: Store>(
    store: &mut S,
    row: &mut Row,
    count: u32,
    entries: &[Kept],
) -> Result<u32, JournalFault>
    requires sound { IsClean (S.view store.old)
        → IsSound (S.view store.old) (S.recovers store.old) true (Some count) }
    requires few { count + length entries.now < 2 ^ 32 - 1 }
    ensures clean { doubt (S.view store.old).is_clean ≤ doubt (S.view store.new).is_clean }
    ensures sound { IfOk result (λ n. IsClean (S.view store.new)
        → IsSound (S.view store.new) (S.recovers store.new) true (Some n)) }
    ensures broken { OnErr result (IsClean (S.view store.new)
        → IsSound (S.view store.new) (S.recovers store.new) true None) }
    ensures added { OnOk result (IsClean (S.view store.new)
        → IsAdded (S.view store.old) (S.view store.new) entries.now) }
    ensures crash { IsClean (S.view store.new) → LeavesAdded (S.view store.old)
        (S.recovers store.old) (S.recovers store.new) entries.now }
    ensures others { IsClean (S.view store.new)
        → KeepsOthers (S.recovers store.old) (S.recovers store.new) }
{
    let number = write(store, row, count, entries)?;
    store.commit()?;
    Ok(number)
}

// Puts entries after so many, and their records, with no commit. Returns how many entries there are then.
fn write<S: Store>(
    store: &mut S,
    row: &mut Row,
    count: u32,
    entries: &[Kept],
) -> Result<u32, JournalFault>
    requires shapes { IsClean (S.view store.old) → HasTables (S.view store.old) }
    requires counted { IsClean (S.view store.old)
        → IsCounted ((S.view store.old).trees table) count }
    requires few { count + length entries.now < 2 ^ 32 - 1 }
    ensures schema { KeepsSchema (S.view store.old) (S.view store.new) }
    ensures clean { doubt (S.view store.old).is_clean ≤ doubt (S.view store.new).is_clean }
    ensures outcomes { (db : Trees) → S.recovers store.new db → S.recovers store.old db }
    ensures frame { OnOk result (IsClean (S.view store.new)
        → OnlyWrites (S.view store.old) (S.view store.new)) }
    ensures put { OnOk result (IsClean (S.view store.new) → (S.view store.new).trees table
        ≡ rows_from 1 (entries_of ((S.view store.old).trees table) ++ entries.now)) }
    ensures recorded { OnOk result (IsClean (S.view store.new)
        → (register : Register) (before : List Kept) → length before ≡ count
        → (S.view store.old).trees (register_tree register) ≡ records_of register before
        → (S.view store.new).trees (register_tree register)
        ≡ records_of register (before ++ entries.now)) }
    ensures others { OnOk result (IsClean (S.view store.new)
        → others (S.view store.new).trees ≡ others (S.view store.old).trees) }
    ensures number { IfOk result (λ n. n ≡ count + length entries.now) }
{
    let number = put_all(store, row, count, entries)?;
    record_all(store, row, Register::Accounting, count, entries)?;
    record_all(store, row, Register::Grants, count, entries)?;
    Ok(number)
}

// Puts entries after so many, with no commit. Returns how many there are then.
fn put_all<S: Store>(
    store: &mut S,
    row: &mut Row,
    count: u32,
    entries: &[Kept],
) -> Result<u32, JournalFault>
    requires shape { IsClean (S.view store.old) → (S.view store.old).shape table ≡ Table }
    requires counted { IsClean (S.view store.old)
        → IsCounted ((S.view store.old).trees table) count }
    requires few { count + length entries.now < 2 ^ 32 - 1 }
    ensures schema { KeepsSchema (S.view store.old) (S.view store.new) }
    ensures clean { doubt (S.view store.old).is_clean ≤ doubt (S.view store.new).is_clean }
    ensures outcomes { (db : Trees) → S.recovers store.new db → S.recovers store.old db }
    ensures frame { OnOk result (IsClean (S.view store.new)
        → OnlyWrites (S.view store.old) (S.view store.new)) }
    ensures put { OnOk result (IsClean (S.view store.new) → (S.view store.new).trees table
        ≡ rows_from 1 (entries_of ((S.view store.old).trees table) ++ entries.now)) }
    ensures rest { OnOk result (IsClean (S.view store.new)
        → LeavesRest (S.view store.old) (S.view store.new) table) }
    ensures number { IfOk result (λ n. n ≡ count + length entries.now) }
{
    let mut number = count;
    for i in 0..entries.len() {
        number += 1;
        put(store, row, number, &entries[i])?;
    }
    Ok(number)
}

// Puts an entry under a rowid.
fn put<S: Store>(
    store: &mut S,
    row: &mut Row,
    number: u32,
    entry: &Kept,
) -> Result<(), JournalFault>
    requires { IsClean (S.view store.old) → (S.view store.old).shape table ≡ Table }
    ensures ok { OnOk result (IsClean (S.view store.new) → SetsTree (S.view store.old)
        (S.view store.new) table (put_row (row_of number entry.now))) }
    ensures frame { OnOk result (IsClean (S.view store.new)
        → OnlyWrites (S.view store.old) (S.view store.new)) }
    ensures schema { KeepsSchema (S.view store.old) (S.view store.new) }
    ensures quiet { IsQuiet S.view S.faults S.recovers S.is_shielded store.old store.new }
{
    fill(row, number, entry)?;
    store.put(TABLE, row)?;
    Ok(())
}

/// Makes the row of an entry, if its times and its session are below 2 ^ 63.
pub(crate) fn fill(row: &mut Row, number: u32, entry: &Kept) -> Result<(), JournalFault>
    ensures { OnOk result (row.new ≡ row_of number entry.now) }
{
    let wall = small(entry.wall)?;
    let moment = small(entry.moment)?;
    let session = session(entry.session)?;
    row.clear();
    row.push(ValueRef::Int(i64::from(number)))?;
    row.push(ValueRef::Int(wall))?;
    row.push(ValueRef::Int(moment))?;
    row.push(ValueRef::Int(i64::from(entry.client)))?;
    row.push(ValueRef::Int(i64::from(entry.source)))?;
    row.push(ValueRef::Int(i64::from(entry.port)))?;
    row.push(ValueRef::Int(number_of_door(entry.door)))?;
    row.push(session)?;
    row.push(ValueRef::Blob(&entry.draw))?;
    row.push(ValueRef::Blob(entry.octets.octets()))?;
    row.push(ValueRef::Blob(entry.answer.octets()))?;
    Ok(())
}

/// A number, if it is below 2 ^ 63.
pub(crate) fn small(number: u64) -> Result<i64, JournalFault>
    ensures { IfOk result (λ small. small ≡ pos number) }
{
    match i64::try_from(number) {
        Ok(small) => Ok(small),
        Err(_) => Err(JournalFault::Full),
    }
}

// The number of a session in a row.
fn session(number: Option<u64>) -> Result<ValueRef<'static>, JournalFault>
    ensures { IfOk result (λ value. owned value ≡ session_value number) }
{
    match number {
        Some(number) => Ok(ValueRef::Int(small(number)?)),
        None => Ok(ValueRef::Null),
    }
}

// The number of a door in a row.
fn number_of_door(door: Door) -> i64
    ensures { result ≡ pos (door_number door) }
{
    match door {
        Door::Auth => AUTH as i64,
        Door::Acct => ACCT as i64,
    }
}
