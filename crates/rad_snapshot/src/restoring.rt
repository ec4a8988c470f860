//! Putting the rows of tables back into a server.
ghost use Rattle.std.specs.Prelude.{◌≡◌, ◌≢◌, ◌⊎◌, ◌≤◌, [], ◌∷◌, Ok, IfErr, OnOk};
ghost use Rattle.sqlite_disk.specs.Disk.{MoreFaults};
ghost use Rattle.sqlite_trees.specs.Tree.{Trees};
ghost use Rattle.sqlite_trees.specs.View.{IsClean, doubt};
ghost use Rattle.sqlite_trees.specs.declared.store.Shape.TheVariants.{Table};
ghost use Rattle.rad_journal.specs.Stores.{OnlyReads};
ghost use Rattle.rad_server.specs.Restored.{restored};
ghost use Rattle.rad_server.specs.States.{State};
ghost use Rattle.rad_snapshot.specs.Faults.{IsOfRows};
ghost use Rattle.rad_snapshot.specs.Restoring.{AreAllPutBack, ArePutBack, CannotAllPutBack, CannotPutBack};
ghost use Rattle.rad_snapshot.specs.Snapshots.{HasTables, tree_of};

use crate::numbers::Numbers;
use crate::rows::row_in;
use crate::snapshot_fault::SnapshotFault;
use crate::snapshot_table::SnapshotTable;
use rad_journal::JournalFault;
use rad_server::{Server, StateRow};
use sqlite_trees::store::{Direction, Store};
use sqlite_value::row::Row;
use std::alloc::Global;

/// Puts the rows of the tables back into a server: sessions and their last number, kept replies, challenges and their last number.
pub(crate) fn restore_all<S: Store>(
    alloc: Global,
    store: &mut S,
    server: &mut Server,
    numbers: &Numbers,
) -> Result<(), SnapshotFault>
    requires tables { IsClean (S.view store.old) → HasTables (S.view store.old) }
    ensures restored { OnOk result (IsClean (S.view store.new)
        → AreAllPutBack server.old.configuration (S.view store.old).trees numbers.now
        server.old.state server.new.state) }
    ensures refused { IfErr result (λ fault. IsOfRows fault → IsClean (S.view store.new)
        → MoreFaults (S.faults store.old) (S.faults store.new)
        ⊎ CannotAllPutBack server.old.configuration (S.view store.old).trees numbers.now
        server.old.state) }
    ensures configuration { server.new.configuration ≡ server.old.configuration }
    ensures same { OnOk result (IsClean (S.view store.new)
        → OnlyReads (S.view store.old) (S.view store.new)) }
    ensures counts { S.faults store.old ≤ S.faults store.new }
    ensures clean { doubt (S.view store.old).is_clean ≤ doubt (S.view store.new).is_clean }
    ensures outcomes { (db : Trees) → S.recovers store.new db → S.recovers store.old db }
{
    restore_table(alloc, store, server, SnapshotTable::Sessions)?;
    let last = StateRow::LastSession(numbers.last_session);
    restore_row(server, SnapshotTable::Numbers, 1, last)?;
    restore_table(alloc, store, server, SnapshotTable::Replies)?;
    restore_table(alloc, store, server, SnapshotTable::Challenges)?;
    let last = StateRow::LastChallenge(numbers.last_challenge);
    restore_row(server, SnapshotTable::Numbers, 1, last)?;
    Ok(())
}

// Puts the rows of a table back in their order.
fn restore_table<S: Store>(
    alloc: Global,
    store: &mut S,
    server: &mut Server,
    table: SnapshotTable,
) -> Result<(), SnapshotFault>
    requires shape { IsClean (S.view store.old)
        → (S.view store.old).shape (tree_of table) ≡ Table }
    ensures restored { OnOk result (IsClean (S.view store.new)
        → ArePutBack server.old.configuration table ((S.view store.old).trees (tree_of table))
        server.old.state server.new.state) }
    ensures refused { IfErr result (λ fault. IsOfRows fault → IsClean (S.view store.new)
        → MoreFaults (S.faults store.old) (S.faults store.new)
        ⊎ CannotPutBack server.old.configuration table
        ((S.view store.old).trees (tree_of table)) server.old.state) }
    ensures configuration { server.new.configuration ≡ server.old.configuration }
    ensures same { OnOk result (IsClean (S.view store.new)
        → OnlyReads (S.view store.old) (S.view store.new)) }
    ensures counts { S.faults store.old ≤ S.faults store.new }
    ensures clean { doubt (S.view store.old).is_clean ≤ doubt (S.view store.new).is_clean }
    ensures outcomes { (db : Trees) → S.recovers store.new db → S.recovers store.old db }
{
    let key = Row::new(alloc);
    let mut row = Row::new(alloc);
    let mut wanted = Row::new(alloc);
    store.seek(0, table.tree(), &key, Direction::Forward)?;
    for place in 1..u32::MAX {
        if !store.next(0, &mut row)? {
            return Ok(());
        }
        let item = row_in(alloc, table, place, &row, &mut wanted)?;
        restore_row(server, table, place, item)?;
    }
    Err(SnapshotFault::Journal(JournalFault::Full))
}

// Puts a row back, which is at this place of this table.
fn restore_row(
    server: &mut Server,
    table: SnapshotTable,
    place: u32,
    row: StateRow,
) -> Result<(), SnapshotFault>
    ensures restored { OnOk result (restored server.old.configuration (row ∷ [])
        server.old.state ≡ Ok server.new.state) }
    ensures refused { IfErr result (λ fault. IsOfRows fault
        → (after : State) → restored server.old.configuration (row ∷ [])
        server.old.state ≢ Ok after) }
    ensures configuration { server.new.configuration ≡ server.old.configuration }
{
    match server.restore(row) {
        Ok(()) => Ok(()),
        Err(fault) => Err(SnapshotFault::of_row(table, place, fault)),
    }
}
