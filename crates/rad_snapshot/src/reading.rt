//! Reading a snapshot.
ghost use Rattle.std.specs.Prelude.{◌≡◌, ◌≢◌, ◌⊎◌, ◌≤◌, ◌<◌, [], ◌∷◌, IfErr, IfOk, OnOk};
ghost use Rattle.sqlite_disk.specs.Disk.{MoreFaults};
ghost use Rattle.sqlite_trees.specs.Tree.{Trees};
ghost use Rattle.sqlite_trees.specs.View.{IsClean, doubt};
ghost use Rattle.sqlite_trees.specs.declared.store.Shape.TheVariants.{Table};
ghost use Rattle.rad_config.specs.Spans.{moment_max};
ghost use Rattle.rad_journal.specs.declared.journal.JournalFault.TheVariants.{Damaged};
ghost use Rattle.rad_journal.specs.Stores.{OnlyReads};
ghost use Rattle.rad_server.specs.States.{at_moment, opening};
ghost use Rattle.rad_snapshot.specs.Faults.{IsOfRows};
ghost use Rattle.rad_snapshot.specs.Restoring.{numbers_rows};
ghost use Rattle.rad_snapshot.specs.Snapshots.{HasTables, IsNoSnapshot, IsSnapshotOf, tree_of};
ghost use Rattle.rad_snapshot.specs.declared.numbers.Numbers.{Numbers};
ghost use Rattle.rad_snapshot.specs.declared.snapshot_table.SnapshotTable.TheVariants.{Numbers as of_numbers};

use crate::columns::number;
use crate::filling::fill_numbers;
use crate::numbers::Numbers;
use crate::restoring::restore_all;
use crate::snapshot_fault::SnapshotFault;
use crate::snapshot_table::SnapshotTable;
use rad_config::{Config, MOMENT_MAX};
use rad_journal::JournalFault;
use rad_row_fault::RowFault;
use rad_server::{HashKey, Server, rows_rebuild};
use sqlite_trees::store::{Direction, Store};
use sqlite_value::row::Row;
use std::alloc::Global;

/// Reads a snapshot into a server of a configuration.
///
/// The key is for the hashes of its tables, as `Server::open_keyed` says. `Damaged`: what was read is not what was written, or a
/// row is none of its table or not the next one's. `Row`: the server refuses a row; for a clock beyond `MOMENT_MAX` its moments.
pub fn read<'c, S: Store>(
    alloc: Global,
    store: &mut S,
    config: &'c Config,
    key: HashKey,
) -> Result<Server<'c>, SnapshotFault>
    requires tables { IsClean (S.view store.old) → HasTables (S.view store.old) }
    ensures configuration { IfOk result (λ server. server.configuration ≡ config.now) }
    ensures snapshot { IfOk result (λ server. IsClean (S.view store.new)
        → IsSnapshotOf (S.view store.old).trees server.state) }
    ensures refused { IfErr result (λ fault. IsOfRows fault → IsClean (S.view store.new)
        → MoreFaults (S.faults store.old) (S.faults store.new)
        ⊎ IsNoSnapshot config.now (S.view store.old).trees) }
    ensures same { OnOk result (IsClean (S.view store.new)
        → OnlyReads (S.view store.old) (S.view store.new)) }
    ensures clean { doubt (S.view store.old).is_clean ≤ doubt (S.view store.new).is_clean }
    ensures outcomes { (db : Trees) → S.recovers store.new db → S.recovers store.old db }
{
    rows_rebuild();
    let numbers = read_numbers(alloc, store)?;
    let mut server = open_at(alloc, config, key, numbers.clock)?;
    restore_all(alloc, store, &mut server, &numbers)?;
    Ok(server)
}

// A server that remembers nothing, when its clock shows this.
fn open_at<'c>(
    alloc: Global,
    config: &'c Config,
    key: HashKey,
    clock: u64,
) -> Result<Server<'c>, SnapshotFault>
    ensures configuration { IfOk result (λ server. server.configuration ≡ config.now) }
    ensures state { IfOk result (λ server.
        server.state ≡ at_moment clock (opening config.now)) }
    ensures refused { IfErr result (λ fault. IsOfRows fault → moment_max < clock) }
{
    if MOMENT_MAX < clock {
        return Err(SnapshotFault::of_row(SnapshotTable::Numbers, 1, RowFault::Moments));
    }
    let mut server = Server::open_keyed(alloc, config, key)?;
    server.pass(clock);
    Ok(server)
}

// The clock and the last numbers.
fn read_numbers<S: Store>(alloc: Global, store: &mut S) -> Result<Numbers, SnapshotFault>
    requires shape { IsClean (S.view store.old)
        → (S.view store.old).shape (tree_of of_numbers) ≡ Table }
    ensures found { IfOk result (λ numbers. IsClean (S.view store.new)
        → (S.view store.old).trees (tree_of of_numbers) ≡ numbers_rows numbers) }
    ensures refused { IfErr result (λ fault. IsOfRows fault → IsClean (S.view store.new)
        → MoreFaults (S.faults store.old) (S.faults store.new)
        ⊎ ((numbers : Numbers)
        → (S.view store.old).trees (tree_of of_numbers) ≢ numbers_rows numbers)) }
    ensures same { OnOk result (IsClean (S.view store.new)
        → OnlyReads (S.view store.old) (S.view store.new)) }
    ensures counts { S.faults store.old ≤ S.faults store.new }
    ensures clean { doubt (S.view store.old).is_clean ≤ doubt (S.view store.new).is_clean }
    ensures outcomes { (db : Trees) → S.recovers store.new db → S.recovers store.old db }
{
    let key = Row::new(alloc);
    let mut row = Row::new(alloc);
    store.seek(0, SnapshotTable::Numbers.tree(), &key, Direction::Forward)?;
    if !store.next(0, &mut row)? {
        return Err(SnapshotFault::Journal(JournalFault::Damaged));
    }
    let numbers = numbers_in(alloc, &row)?;
    if store.next(0, &mut row)? {
        return Err(SnapshotFault::Journal(JournalFault::Damaged));
    }
    Ok(numbers)
}

// The clock and the last numbers of their row.
fn numbers_in(alloc: Global, row: &Row) -> Result<Numbers, JournalFault>
    ensures found { IfOk result (λ numbers. row.now ∷ [] ≡ numbers_rows numbers) }
    ensures damaged { IfErr result (λ fault. fault ≡ Damaged
        → (numbers : Numbers) → row.now ∷ [] ≢ numbers_rows numbers) }
{
    let numbers = Numbers {
        clock: number(row, 1)?,
        last_session: number(row, 2)?,
        last_challenge: number(row, 3)?,
    };
    let mut wanted = Row::new(alloc);
    if fill_numbers(&mut wanted, &numbers).is_err() {
        return Err(JournalFault::NoMemory);
    }
    if !row.is_same(&wanted) {
        return Err(JournalFault::Damaged);
    }
    Ok(numbers)
}
