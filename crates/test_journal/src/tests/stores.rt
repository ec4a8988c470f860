//! Stores in memory, with the tables of a journal.
ghost use Rattle.std.specs.Prelude.{IfOk};
ghost use Rattle.sqlite_trees.specs.Memory.{memory_view};
ghost use Rattle.sqlite_trees.specs.View.{IsClean};
ghost use Rattle.rad_journal.specs.Stores.{IsFresh};

use rad_journal::{JournalFault, StoreJournal};
use sqlite_trees::error::StoreError;
use sqlite_trees::memory::MemStore;
use sqlite_trees::store::{Shape, Store};
use sqlite_value::row::Row;
use sqlite_value::value::ValueRef;
use std::alloc::{AllocError, Global};
use test_common::JOURNAL_TABLES;

/// A store that was just made.
pub(crate) fn blank(alloc: Global) -> Result<MemStore, AllocError>
    ensures { IfOk result (λ store. IsFresh (memory_view store)) }
{
    let store = MemStore::new(alloc, &JOURNAL_TABLES)?;
    Ok(store)
}

/// The journal of a store that was just opened.
pub(crate) fn journal_of<S: Store + Drop>(
    alloc: Global,
    store: S,
) -> Result<StoreJournal<S>, JournalFault>
    requires { IsClean (S.view store) → IsFresh (S.view store) }
{
    StoreJournal::open(alloc, store)
}

/// The journal of a store that was just made.
pub(crate) fn opened(alloc: Global) -> Result<StoreJournal<MemStore>, JournalFault> {
    journal_of(alloc, blank(alloc)?)
}

/// A store with one more row in a table, which is committed.
pub(crate) fn with_row<S: Store + Drop>(store: S, tree: u32, row: &Row) -> Result<S, StoreError>
    requires { IsClean (S.view store) → IsFresh (S.view store) }
    ensures { IfOk result (λ it. IsClean (S.view it) → IsFresh (S.view it)) }
{
    let mut store = store;
    if store.shape(tree) != Shape::Table || !matches!(row.get(0), ValueRef::Int(_)) {
        return Err(StoreError::Unstorable);
    }
    store.put(tree, row)?;
    store.commit()?;
    Ok(store)
}
