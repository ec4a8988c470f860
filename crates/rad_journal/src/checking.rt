//! Checking the rows of a store's tables that were just opened.
ghost use Rattle.std.specs.Prelude.{◌≡◌, ◌+◌, ◌-◌, ◌≤◌, ◌<◌, ◌^◌, length, slice_get, Some, IsSome, IsTrue, IfOk, OnOk};
ghost use Rattle.sqlite_trees.specs.Tree.{Trees};
ghost use Rattle.sqlite_trees.specs.View.{IsClean, doubt};
ghost use Rattle.sqlite_trees.specs.declared.store.Shape.TheVariants.{Table};
ghost use Rattle.rad_journal.specs.Records.{IsJournal, record_of, records_of, register_tree};
ghost use Rattle.rad_journal.specs.Rows.{IsLog, entries_of, entry_of, row_of, table};
ghost use Rattle.rad_journal.specs.Stores.{HasTables, OnlyReads, TakesRecord};
ghost use Rattle.rad_journal.specs.declared.kept.Kept.{Kept};

use crate::append::{TABLE, fill};
use crate::journal::JournalFault;
use crate::reading::{entry, read};
use crate::recording;
use crate::register::Register;
use sqlite_trees::store::{Direction, Store};
use sqlite_value::row::Row;
use std::alloc::Global;

/// How many entries there are, if the rows are those of entries, numbered from 1, and of their records.
pub(crate) fn check<S: Store>(alloc: Global, store: &mut S) -> Result<u32, JournalFault>
    requires shapes { IsClean (S.view store.old) → HasTables (S.view store.old) }
    ensures journal { OnOk result (IsClean (S.view store.new)
        → IsJournal (S.view store.old).trees) }
    ensures count { IfOk result (λ n. IsClean (S.view store.new)
        → length (entries_of ((S.view store.old).trees table)) ≡ n) }
    ensures same { OnOk result (IsClean (S.view store.new)
        → OnlyReads (S.view store.old) (S.view store.new)) }
    ensures clean { doubt (S.view store.old).is_clean ≤ doubt (S.view store.new).is_clean }
    ensures outcomes { (db : Trees) → S.recovers store.new db → S.recovers store.old db }
{
    let count = check_entries(alloc, store)?;
    check_records(alloc, store, Register::Accounting, count)?;
    check_records(alloc, store, Register::Grants, count)?;
    Ok(count)
}

// How many entries there are, if the rows are those of entries, numbered from 1.
fn check_entries<S: Store>(alloc: Global, store: &mut S) -> Result<u32, JournalFault>
    requires shape { IsClean (S.view store.old) → (S.view store.old).shape table ≡ Table }
    ensures log { OnOk result (IsClean (S.view store.new)
        → IsLog ((S.view store.old).trees table)) }
    ensures count { IfOk result (λ n. IsClean (S.view store.new)
        → length (entries_of ((S.view store.old).trees table)) ≡ n) }
    ensures same { OnOk result (IsClean (S.view store.new)
        → OnlyReads (S.view store.old) (S.view store.new)) }
    ensures clean { doubt (S.view store.old).is_clean ≤ doubt (S.view store.new).is_clean }
    ensures outcomes { (db : Trees) → S.recovers store.new db → S.recovers store.old db }
{
    let mut row = Row::new(alloc);
    let mut wanted = Row::new(alloc);
    let key = Row::new(alloc);
    store.seek(0, TABLE, &key, Direction::Forward)?;
    for place in 0..u32::MAX {
        if !store.next(0, &mut row)? {
            return Ok(place);
        }
        if !is_next(alloc, &row, &mut wanted, place)? {
            return Err(JournalFault::Damaged);
        }
    }
    Err(JournalFault::Full)
}

// Whether a row is that of an entry at a place.
fn is_next(alloc: Global, row: &Row, wanted: &mut Row, place: u32) -> Result<bool, JournalFault>
    requires { place < 2 ^ 32 - 1 }
    ensures { IfOk result (λ yes. IsTrue yes
        → row.now ≡ row_of (1 + place) (entry_of row.now)) }
{
    let entry = entry(alloc, row)?;
    fill(wanted, place + 1, &entry)?;
    Ok(row.is_same(wanted))
}

// Checks that a register has the records of so many entries, and no others.
fn check_records<S: Store>(
    alloc: Global,
    store: &mut S,
    register: Register,
    count: u32,
) -> Result<(), JournalFault>
    requires shapes { IsClean (S.view store.old) → HasTables (S.view store.old) }
    requires log { IsClean (S.view store.old) → IsLog ((S.view store.old).trees table) }
    requires count { IsClean (S.view store.old)
        → length (entries_of ((S.view store.old).trees table)) ≡ count }
    ensures records { OnOk result (IsClean (S.view store.new)
        → (S.view store.old).trees (register_tree register)
        ≡ records_of register (entries_of ((S.view store.old).trees table))) }
    ensures same { OnOk result (IsClean (S.view store.new)
        → OnlyReads (S.view store.old) (S.view store.new)) }
    ensures clean { doubt (S.view store.old).is_clean ≤ doubt (S.view store.new).is_clean }
    ensures outcomes { (db : Trees) → S.recovers store.new db → S.recovers store.old db }
{
    let mut row = Row::new(alloc);
    let mut wanted = Row::new(alloc);
    let key = Row::new(alloc);
    store.seek(0, register.tree(), &key, Direction::Forward)?;
    for place in 0..count {
        check_record(alloc, store, register, &mut row, &mut wanted, place)?;
    }
    if store.next(0, &mut row)? {
        return Err(JournalFault::Damaged);
    }
    Ok(())
}

// Checks that the next record of a register is that of the entry at a place, if that has one there.
fn check_record<S: Store>(
    alloc: Global,
    store: &mut S,
    register: Register,
    row: &mut Row,
    wanted: &mut Row,
    place: u32,
) -> Result<(), JournalFault>
    requires live { IsSome ((S.view store.old).cursors 0) }
    requires shape { IsClean (S.view store.old) → (S.view store.old).shape table ≡ Table }
    requires log { IsClean (S.view store.old) → IsLog ((S.view store.old).trees table) }
    requires place { place < 2 ^ 32 - 1 }
    ensures live { OnOk result (IsSome ((S.view store.new).cursors 0)) }
    ensures taken { OnOk result (IsClean (S.view store.new) → (entry : Kept)
        × (slice_get (entries_of ((S.view store.old).trees table)) place ≡ Some entry)
        × TakesRecord (S.view store.old) (S.view store.new)
        (record_of register (1 + place) entry)) }
    ensures clean { doubt (S.view store.old).is_clean ≤ doubt (S.view store.new).is_clean }
    ensures outcomes { (db : Trees) → S.recovers store.new db → S.recovers store.old db }
{
    let Some(entry) = read(alloc, store, row, place)? else {
        return Err(JournalFault::Damaged);
    };
    if !recording::fill(wanted, register, place + 1, &entry)? {
        return Ok(());
    }
    if !store.next(0, row)? || !row.is_same(wanted) {
        return Err(JournalFault::Damaged);
    }
    Ok(())
}
