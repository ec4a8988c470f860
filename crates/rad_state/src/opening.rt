//! Opening a state's files.
ghost use Rattle.std.specs.Prelude.{◌≡◌, ◌<◌, ◌-◌, ◌^◌, ℕ, [], IsTrue, IfOk, OnOk};
ghost use Rattle.sqlite_trees.specs.View.{IsClean};
ghost use Rattle.sqlite_store.specs.FileStore.{IsReady, state, view};
ghost use Rattle.sqlite_store.specs.Unopened.{AreUsable, state_of};
ghost use Rattle.rad_state.specs.Stores.{AreTables, IsBlank, IsOpened};

use crate::open_fault::OpenFault;
use sqlite_disk::{Disk, Files, Tally};
use sqlite_pager::{Options, Pager};
use sqlite_store::{FileStore, OpenError, Unopened, name_fault};
use sqlite_trees::schema::Object;
use sqlite_trees::store::{Shape, Store};
use sqlite_wal::PageSize;
use std::alloc::Global;

// How many tables there are.
const TABLES: u32 = 8;

// The octets of a page.
const PAGE: usize = 4096;

// The tables of the journal.
const EXCHANGE: &str =
    "CREATE TABLE exchange (wall INTEGER NOT NULL, moment INTEGER NOT NULL, client INTEGER NOT NULL, \
    source INTEGER NOT NULL, port INTEGER NOT NULL, door INTEGER NOT NULL, session INTEGER, draw BLOB NOT NULL, \
    request BLOB NOT NULL, answer BLOB NOT NULL) STRICT";

// What is no UTF-8 is a blob.
const ACCOUNTING: &str =
    "CREATE TABLE accounting (entry INTEGER PRIMARY KEY, time INTEGER NOT NULL, client INTEGER NOT NULL, \
    source INTEGER NOT NULL, user ANY, session INTEGER, status INTEGER, acct_session_id ANY, acct_multi_session_id ANY, address INTEGER, \
    nas_address INTEGER, nas_identifier ANY, nas_port INTEGER, nas_port_id ANY, calling_station_id ANY, \
    called_station_id ANY, session_time INTEGER, octets_in INTEGER, octets_out INTEGER, packets_in INTEGER, \
    packets_out INTEGER, terminate_cause INTEGER, delay INTEGER) STRICT";

const GRANTS: &str =
    "CREATE TABLE grants (entry INTEGER PRIMARY KEY, time INTEGER NOT NULL, client INTEGER NOT NULL, \
    source INTEGER NOT NULL, user ANY, session INTEGER NOT NULL, address INTEGER, calling_station_id ANY) STRICT";

// The table of the meta.
const META: &str =
    "CREATE TABLE meta (format INTEGER NOT NULL, rules INTEGER NOT NULL, configuration TEXT NOT NULL, \
    boot BLOB NOT NULL, zero INTEGER NOT NULL, wall INTEGER NOT NULL) STRICT";

// The tables of the snapshot.
const SESSION: &str =
    "CREATE TABLE session (number INTEGER NOT NULL, client INTEGER NOT NULL, source INTEGER NOT NULL, \
    user INTEGER NOT NULL, address INTEGER, phase INTEGER NOT NULL, made INTEGER NOT NULL, seen INTEGER NOT NULL) STRICT";

const REPLY: &str =
    "CREATE TABLE reply (client INTEGER, source INTEGER NOT NULL, port INTEGER NOT NULL, door INTEGER NOT NULL, \
    id INTEGER NOT NULL, request BLOB NOT NULL, code INTEGER NOT NULL, attributes BLOB NOT NULL, made INTEGER NOT NULL) STRICT";

const CHALLENGE: &str =
    "CREATE TABLE challenge (number INTEGER NOT NULL, draw BLOB NOT NULL, client INTEGER NOT NULL, user INTEGER NOT NULL, \
    made INTEGER NOT NULL) STRICT";

const SNAPSHOT: &str =
    "CREATE TABLE snapshot (clock INTEGER NOT NULL, session INTEGER NOT NULL, challenge INTEGER NOT NULL) STRICT";

/// Opens the database in the files.
///
/// It has the tables of the journal, of the meta and of the snapshot, in this order, and each page has a sum. `seed` is a random
/// number, for the log's salts. `Unfinished`: the database has no table; nothing is written then. `Damaged`: the files hold
/// something else, or a sum is wrong.
pub fn open_files<D: Disk + Drop>(
    alloc: Global,
    files: Files<D>,
    seed: u64,
) -> Result<FileStore<D>, OpenFault>
    requires log { IsTrue (D.Disk.is_usable files.log) }
    requires db { IsTrue (D.Disk.is_usable files.db) }
    ensures opened { IfOk result (λ store. IsClean (view store) → IsOpened (view store)) }
    ensures sums { IfOk result (λ store. IsClean (view store) → IsTrue (view store).has_sums) }
{
    let store = with_tables(ready(alloc, files, seed)?)?;
    Ok(store)
}

/// Makes the database in files that hold none.
///
/// It is as `open_files` says, and blank. `Damaged`: the files hold something.
pub fn make_files<D: Disk + Drop>(
    alloc: Global,
    files: Files<D>,
    seed: u64,
) -> Result<FileStore<D>, OpenFault>
    requires log { IsTrue (D.Disk.is_usable files.log) }
    requires db { IsTrue (D.Disk.is_usable files.db) }
    ensures blank { IfOk result (λ store. IsClean (view store) → IsBlank (view store)) }
    ensures sums { IfOk result (λ store. IsClean (view store) → IsTrue (view store).has_sums) }
{
    let store = with_tables(make(alloc, files, seed)?)?;
    Ok(store)
}

// The database, opened.
fn ready<D: Disk + Drop>(
    alloc: Global,
    files: Files<D>,
    seed: u64,
) -> Result<FileStore<D>, OpenFault>
    requires log { IsTrue (D.Disk.is_usable files.log) }
    requires db { IsTrue (D.Disk.is_usable files.db) }
    ensures ready { IfOk result IsReady }
    ensures size { IfOk result (λ store. IsTrue (state store).is_clean
        → (state store).page_size ≡ PAGE - 8) }
{
    let before = files.tally();
    match unopened(alloc, files, seed, &tables())?.open() {
        Ok(store) => Ok(store),
        Err((OpenError::Refused, left)) => Err(refused(alloc, left.close(), seed)),
        Err((error, left)) => Err(fault(error, before, left.tally())),
    }
}

// Why files are refused that hold no database with the tables.
fn refused<D: Disk + Drop>(alloc: Global, files: Files<D>, seed: u64) -> OpenFault {
    if !files.may_be_used() {
        return OpenFault::Disk;
    }
    let before = files.tally();
    let without_tables = match unopened(alloc, files, seed, &[]) {
        Ok(unopened) => unopened,
        Err(fault) => return fault,
    };
    match without_tables.open() {
        Ok(store) => {
            drop(store.close());
            OpenFault::Unfinished
        }
        Err((error, left)) => fault(error, before, left.tally()),
    }
}

// Makes the database, if the files hold none.
fn make<D: Disk + Drop>(
    alloc: Global,
    files: Files<D>,
    seed: u64,
) -> Result<FileStore<D>, OpenFault>
    ensures ready { IfOk result IsReady }
    ensures size { IfOk result (λ store. IsTrue (state store).is_clean
        → (state store).page_size ≡ PAGE - 8) }
    ensures empty { IfOk result (λ store. IsTrue (state store).is_clean
        → (tree : ℕ) → tree < 2 ^ 32 → (view store).committed tree ≡ []) }
{
    if !files.may_be_used() {
        return Err(OpenFault::Disk);
    }
    let before = files.tally();
    match unopened(alloc, files, seed, &tables())?.create() {
        Ok(store) => Ok(store),
        Err((error, left)) => Err(fault(error, before, left.tally())),
    }
}

// The tables that a database is to have.
fn tables() -> [Object<'static>; TABLES as usize] {
    [
        object("exchange", EXCHANGE),
        object("accounting", ACCOUNTING),
        object("grants", GRANTS),
        object("meta", META),
        object("session", SESSION),
        object("reply", REPLY),
        object("challenge", CHALLENGE),
        object("snapshot", SNAPSHOT),
    ]
}

// The files, and the tables that they are to have.
fn unopened<D: Disk + Drop>(
    alloc: Global,
    files: Files<D>,
    seed: u64,
    tables: &[Object],
) -> Result<Unopened<D>, OpenFault>
    requires log { IsTrue (D.Disk.is_usable files.log) }
    requires db { IsTrue (D.Disk.is_usable files.db) }
    ensures usable { IfOk result AreUsable }
    ensures size { IfOk result (λ it. (state_of it).page_size ≡ PAGE - 8) }
{
    let size = PageSize::new(PAGE).unwrap();
    let Ok(pager) = Pager::new(alloc, files, size, Options::new(seed)) else {
        return Err(OpenFault::NoMemory);
    };
    match Unopened::with_sums(alloc, pager, tables, true) {
        Ok(unopened) => Ok(unopened),
        Err(_) => Err(OpenFault::NoMemory),
    }
}

// A table as the database lists it.
fn object<'a>(name: &'a str, sql: &'a str) -> Object<'a> {
    Object {
        shape: Shape::Table,
        kind: "table",
        name,
        table: name,
        reals: 0,
        sql: Some(sql),
    }
}

// The store, if its trees are tables.
fn with_tables<S: Store + Drop>(store: S) -> Result<S, OpenFault>
    ensures same { IfOk result (λ it. it ≡ store) }
    ensures tables { OnOk result (AreTables (S.view store)) }
{
    for tree in 0..TABLES {
        if store.shape(tree) != Shape::Table {
            return Err(OpenFault::Damaged);
        }
    }
    Ok(store)
}

// What an open or a create reports, by what the files' failed calls met before and after.
fn fault(error: OpenError, before: Tally, now: Tally) -> OpenFault {
    match error {
        OpenError::OutOfMemory => OpenFault::NoMemory,
        OpenError::Io => OpenFault::from(name_fault(before, now)),
        OpenError::Full => OpenFault::NoRoom,
        OpenError::Refused => OpenFault::Damaged,
    }
}
