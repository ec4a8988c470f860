//! Writing a snapshot.
ghost use Rattle.std.specs.Prelude.{◌≡◌, ◌≤◌, [], IfOk, OnOk};
ghost use Rattle.std.specs.List.{AllByRecursion};
ghost use Rattle.sqlite_trees.specs.Tree.{Trees};
ghost use Rattle.sqlite_trees.specs.View.{IsClean, KeepsSchema, OnlyWrites, doubt};
ghost use Rattle.sqlite_trees.specs.declared.store.Shape.TheVariants.{Table};
ghost use Rattle.rad_snapshot.specs.Restoring.{IsPut, left, numbers_rows};
ghost use Rattle.rad_snapshot.specs.Rows.{IsWithin, rows_from};
ghost use Rattle.rad_snapshot.specs.Snapshots.{AreEmpty, AreWithin, HasTables, IsSnapshotOf, KeepsOthers, tree_of};
ghost use Rattle.rad_snapshot.specs.declared.snapshot_table.SnapshotTable.TheVariants.{Numbers as of_numbers};

use crate::filling::fill_numbers;
use crate::numbers::Numbers;
use crate::rest::Rest;
use crate::snapshot_table::SnapshotTable;
use rad_journal::JournalFault;
use rad_server::Server;
use sqlite_trees::store::Store;
use sqlite_value::row::Row;
use std::alloc::Global;

/// Puts the rows of what a server remembers into the four tables, which are empty, and commits nothing.
///
/// Other tables stay as they were. `Full`: a number or a moment is 2 ^ 63 or more. After an error the store's transaction has some
/// of the rows, and must be rolled back.
pub fn write<S: Store>(alloc: Global, store: &mut S, server: &Server) -> Result<(), JournalFault>
    requires tables { IsClean (S.view store.old) → HasTables (S.view store.old) }
    requires empty { IsClean (S.view store.old) → AreEmpty (S.view store.old).trees }
    ensures snapshot { OnOk result (IsClean (S.view store.new)
        → IsSnapshotOf (S.view store.new).trees server.now.state) }
    ensures within { OnOk result (AreWithin server.now.state) }
    ensures others { OnOk result (IsClean (S.view store.new)
        → KeepsOthers (S.view store.old).trees (S.view store.new).trees) }
    ensures frame { OnOk result (IsClean (S.view store.new)
        → OnlyWrites (S.view store.old) (S.view store.new)) }
    ensures schema { KeepsSchema (S.view store.old) (S.view store.new) }
    ensures clean { doubt (S.view store.old).is_clean ≤ doubt (S.view store.new).is_clean }
    ensures outcomes { (db : Trees) → S.recovers store.new db → S.recovers store.old db }
{
    let mut row = Row::new(alloc);
    let mut sessions = Rest::Sessions(server.sessions().rows());
    put_rows(store, &mut row, SnapshotTable::Sessions, &mut sessions)?;
    let mut replies = Rest::Replies(server.recent().rows());
    put_rows(store, &mut row, SnapshotTable::Replies, &mut replies)?;
    let mut challenges = Rest::Challenges(server.challenges().rows());
    put_rows(store, &mut row, SnapshotTable::Challenges, &mut challenges)?;
    let numbers = Numbers {
        clock: server.clock(),
        last_session: server.sessions().last(),
        last_challenge: server.challenges().last(),
    };
    put_numbers(store, &mut row, &numbers)?;
    Ok(())
}

// Puts what is left of a table into it, which is empty.
fn put_rows<S: Store>(
    store: &mut S,
    row: &mut Row,
    table: SnapshotTable,
    rest: &mut Rest,
) -> Result<(), JournalFault>
    requires shape { IsClean (S.view store.old)
        → (S.view store.old).shape (tree_of table) ≡ Table }
    requires empty { IsClean (S.view store.old)
        → (S.view store.old).trees (tree_of table) ≡ [] }
    ensures put { OnOk result (IsClean (S.view store.new) → IsPut (S.view store.old).trees
        (S.view store.new).trees table (rows_from 1 (left rest.old))) }
    ensures within { OnOk result (AllByRecursion IsWithin (left rest.old)) }
    ensures frame { OnOk result (IsClean (S.view store.new)
        → OnlyWrites (S.view store.old) (S.view store.new)) }
    ensures schema { KeepsSchema (S.view store.old) (S.view store.new) }
    ensures clean { doubt (S.view store.old).is_clean ≤ doubt (S.view store.new).is_clean }
    ensures outcomes { (db : Trees) → S.recovers store.new db → S.recovers store.old db }
{
    for place in 1..u32::MAX {
        if !rest.fill_next(row, place)? {
            return Ok(());
        }
        store.put(table.tree(), row)?;
    }
    Err(JournalFault::Full)
}

// Puts the one row of the clock and the last numbers into their table, which is empty.
fn put_numbers<S: Store>(
    store: &mut S,
    row: &mut Row,
    numbers: &Numbers,
) -> Result<(), JournalFault>
    requires shape { IsClean (S.view store.old)
        → (S.view store.old).shape (tree_of of_numbers) ≡ Table }
    requires empty { IsClean (S.view store.old)
        → (S.view store.old).trees (tree_of of_numbers) ≡ [] }
    ensures put { OnOk result (IsClean (S.view store.new) → IsPut (S.view store.old).trees
        (S.view store.new).trees of_numbers (numbers_rows numbers.now)) }
    ensures frame { OnOk result (IsClean (S.view store.new)
        → OnlyWrites (S.view store.old) (S.view store.new)) }
    ensures schema { KeepsSchema (S.view store.old) (S.view store.new) }
    ensures clean { doubt (S.view store.old).is_clean ≤ doubt (S.view store.new).is_clean }
    ensures outcomes { (db : Trees) → S.recovers store.new db → S.recovers store.old db }
{
    fill_numbers(row, numbers)?;
    store.put(SnapshotTable::Numbers.tree(), row)?;
    Ok(())
}
