//! Stores in memory, with the tables of a snapshot.
ghost use Rattle.std.specs.Prelude.{IfOk, IsTrue};
ghost use Rattle.sqlite_trees.specs.Memory.{memory_view};
ghost use Rattle.rad_snapshot.specs.Snapshots.{AreEmpty, HasTables};

use rad_config::Config;
use rad_journal::JournalFault;
use rad_server::{HashKey, Server};
use rad_snapshot::{SnapshotFault, read, write};
use sqlite_trees::memory::MemStore;
use sqlite_trees::store::{Shape, Store};
use sqlite_value::row::Row;
use sqlite_value::value::ValueRef;
use std::alloc::{AllocError, Global};
use test_common::table;

/// A store that was just made: four tables of others, and the four of a snapshot.
pub(crate) fn blank(alloc: Global) -> Result<MemStore, AllocError>
    ensures { IfOk result (λ store. AreEmpty (memory_view store).trees) }
{
    let tables = [
        table("exchange"),
        table("accounting"),
        table("grants"),
        table("meta"),
        table("session"),
        table("reply"),
        table("challenge"),
        table("snapshot"),
    ];
    let store = MemStore::new(alloc, &tables)?;
    Ok(store)
}

/// Whether a store has the four tables.
pub(crate) fn has_tables<S: Store>(store: &S) -> bool
    ensures { IsTrue result → HasTables (S.view store.now) }
{
    store.shape(4) == Shape::Table
        && store.shape(5) == Shape::Table
        && store.shape(6) == Shape::Table
        && store.shape(7) == Shape::Table
}

/// A store with the snapshot of a server, which is committed.
pub(crate) fn written(alloc: Global, server: &Server) -> Result<MemStore, JournalFault> {
    let mut store = blank(alloc)?;
    if !has_tables(&store) {
        return Err(JournalFault::Damaged);
    }
    write(alloc, &mut store, server)?;
    store.commit()?;
    Ok(store)
}

/// The server of a store's snapshot.
pub(crate) fn read_back<'c, S: Store>(
    alloc: Global,
    store: &mut S,
    config: &'c Config,
) -> Result<Server<'c>, SnapshotFault> {
    if !has_tables(store) {
        return Err(SnapshotFault::Journal(JournalFault::Damaged));
    }
    read(alloc, store, config, HashKey::KNOWN)
}

/// Puts a row into a tree in place of the one that has its rowid; whether it is done.
pub(crate) fn puts<S: Store>(store: &mut S, tree: u32, row: &Row) -> bool {
    if store.shape(tree) != Shape::Table || !matches!(row.get(0), ValueRef::Int(_)) {
        return false;
    }
    store.put(tree, row).is_ok()
}

/// Takes the row with a rowid out of a tree; whether it is done.
pub(crate) fn takes<S: Store>(store: &mut S, tree: u32, rowid: i64) -> bool {
    store.shape(tree) == Shape::Table && store.delete(tree, rowid).is_ok()
}

/// Writes the row with a rowid of a tree over another; whether there is one.
pub(crate) fn gets<S: Store>(store: &mut S, tree: u32, rowid: i64, row: &mut Row) -> bool {
    if store.shape(tree) != Shape::Table {
        return false;
    }
    matches!(store.get(tree, rowid, row), Ok(true))
}
