//! Journals in files, on disks in memory that fail or have a rotten octet.
ghost use Rattle.std.specs.Prelude.{◌≡◌, IfOk, IsTrue, OnOk};
ghost use Rattle.sqlite_store.specs.FileStore.{IsReady, view};
ghost use Rattle.sqlite_store.specs.Unopened.{AreUsable};
ghost use Rattle.sqlite_trees.specs.View.{IsClean};
ghost use Rattle.sqlite_trees.specs.declared.store.Shape.TheVariants.{Table};
ghost use Rattle.rad_journal.specs.Rows.{table};
ghost use Rattle.rad_journal.specs.Stores.{HasTables, IsFresh};

use super::stores::journal_of;
use rad_journal::{JournalFault, StoreJournal};
use sqlite_disk::{Disk, Files, Fuse, Memory, Rot};
use sqlite_pager::{Options, Pager};
use sqlite_store::{FileStore, Unopened, name_fault};
use sqlite_trees::store::{Shape, Store};
use sqlite_wal::PageSize;
use std::alloc::Global;
use test_common::JOURNAL_TABLES;

/// A journal in files.
pub(crate) type FileJournal<D> = StoreJournal<FileStore<D>>;

/// Which of the two files.
#[derive(Clone, Copy, PartialEq, Eq)]
pub(crate) enum File {
    Log,
    Db,
}

// The octets of a page: so few that an entry takes two.
const PAGE: usize = 512;

// Other pages than one are read from the disk, and a commit that finds 8 in the log copies them into the database's file.
const OPTIONS: Options = Options {
    cache_pages: 1,
    spill_pages: 2000,
    checkpoint_frames: 8,
    seed: 7,
};

// Two files that hold nothing, and the table that they are to have.
fn unopened<D: Disk + Drop>(alloc: Global, files: Files<D>) -> Result<Unopened<D>, JournalFault>
    requires log { IsTrue (D.Disk.is_usable files.log) }
    requires db { IsTrue (D.Disk.is_usable files.db) }
    ensures usable { IfOk result AreUsable }
{
    let size = PageSize::new(PAGE).unwrap();
    let Ok(pager) = Pager::new(alloc, files, size, OPTIONS) else {
        return Err(JournalFault::NoMemory);
    };
    match Unopened::with_sums(alloc, pager, &JOURNAL_TABLES, true) {
        Ok(unopened) => Ok(unopened),
        Err(_) => Err(JournalFault::NoMemory),
    }
}

// The store, if its first three trees are tables.
fn with_tables<S: Store + Drop>(store: S) -> Result<S, JournalFault>
    ensures same { IfOk result (λ it. it ≡ store) }
    ensures tables { OnOk result (HasTables (S.view store)) }
{
    if store.shape(0) != Shape::Table
        || store.shape(1) != Shape::Table
        || store.shape(2) != Shape::Table
    {
        return Err(JournalFault::Damaged);
    }
    Ok(store)
}

// The database that is made in the files.
fn ready<D: Disk + Drop>(alloc: Global, files: Files<D>) -> Result<FileStore<D>, JournalFault>
    ensures { IfOk result IsReady }
{
    if !files.may_be_used() {
        return Err(JournalFault::Disk);
    }
    let before = files.tally();
    match unopened(alloc, files)?.create() {
        Ok(store) => Ok(store),
        Err((_, left)) => Err(JournalFault::from(name_fault(before, left.tally()))),
    }
}

// The store that is made in the files.
fn create<D: Disk + Drop>(alloc: Global, files: Files<D>) -> Result<FileStore<D>, JournalFault>
    ensures { IfOk result (λ store. IsClean (view store) → IsFresh (view store)) }
{
    let store = with_tables(ready(alloc, files)?)?;
    Ok(store)
}

// The journal that is made in the files.
fn begin<D: Disk + Drop>(alloc: Global, files: Files<D>) -> Result<FileJournal<D>, JournalFault> {
    journal_of(alloc, create(alloc, files)?)
}

/// A journal that is made in files, one of which passes so many calls on, and none after.
pub(crate) fn failing(
    alloc: Global,
    file: File,
    calls: u64,
) -> Result<FileJournal<Fuse<Memory>>, JournalFault> {
    let calls_of = |one| if one == file { calls } else { u64::MAX };
    let files = Files {
        log: Fuse::new(Memory::new(alloc), calls_of(File::Log)),
        db: Fuse::new(Memory::new(alloc), calls_of(File::Db)),
    };
    begin(alloc, files)
}

/// A journal that is made in files, one of which has a rotten octet.
pub(crate) fn rotten(
    alloc: Global,
    file: File,
    at: usize,
) -> Result<FileJournal<Rot<Memory>>, JournalFault> {
    let at_of = |one| if one == file { at } else { usize::MAX };
    let files = Files {
        log: Rot::new(Memory::new(alloc), at_of(File::Log)),
        db: Rot::new(Memory::new(alloc), at_of(File::Db)),
    };
    begin(alloc, files)
}
