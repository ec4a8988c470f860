//! Databases of which an octet was changed, and files that are no state.
ghost use Rattle.std.specs.Prelude.{IfOk, IfSome, IsTrue};
ghost use Rattle.sqlite_disk.specs.Memory.{memory_is_usable};
ghost use Rattle.sqlite_store.specs.Unopened.{AreUsable};

use super::files::{SALT, begun_in, blank, found_in};
use super::generations::{Found, TEXT, server};
use super::holds;
use rad_config::Config;
use rad_server::Server;
use rad_state::{OpenFault, open_files};
use sqlite_disk::{Disk, Files, Memory};
use sqlite_pager::{Options, Pager};
use sqlite_store::Unopened;
use sqlite_trees::schema::Object;
use sqlite_trees::store::Shape;
use sqlite_wal::PageSize;
use std::alloc::Global;
use std::process::Abort;
use std::test::Fail;

// The files of a generation that was begun at a server.
fn begun(alloc: Global, server: &Server) -> Option<Files<Memory>> {
    match begun_in(alloc, blank(alloc), server) {
        Ok((true, files)) => Some(files),
        _ => None,
    }
}

// What files have after an octet of the database has changed.
fn found_after_change(
    alloc: Global,
    at: usize,
    server: &Server,
) -> Option<Result<Found, OpenFault>> {
    let mut files = begun(alloc, server)?;
    if !files.db.may_be_used() || files.db.write_at(at, &[0x5a]).is_err() {
        return None;
    }
    Some(found_in(alloc, files, server))
}

#[test]
fn a_changed_octet_is_refused(rt: HostRuntime) -> Result<(), Fail> {
    let alloc = rt.alloc();
    let config = Config::read(alloc, TEXT)?;
    for (at, what) in CHANGES.iter() {
        holds(&rt, refuses_change(alloc, *at, &config), *what);
    }
    Ok(())
}

/// Octets of the database, each in another page.
const CHANGES: &[(usize, &str)] = &[
    (30, "an octet of the list of tables"),
    (5000, "an octet of the journal"),
    (9000, "an octet of the meta"),
    (13_000, "an octet of the sessions"),
    (25_000, "an octet of the numbers"),
];

// Whether a generation is refused in which an octet has changed.
fn refuses_change(alloc: Global, at: usize, config: &Config) -> bool {
    let Some(server) = server(alloc, config) else {
        return false;
    };
    match found_after_change(alloc, at, &server) {
        Some(found) => found == Err(OpenFault::Damaged),
        None => false,
    }
}

// The files of a database with these tables.
fn database(alloc: Global, tables: &[Object<'_>], has_sums: bool) -> Option<Files<Memory>> {
    match unopened(alloc, tables, has_sums)?.create() {
        Ok(store) => Some(store.close()),
        Err(_) => None,
    }
}

fn unopened(alloc: Global, tables: &[Object<'_>], has_sums: bool) -> Option<Unopened<Memory>>
    ensures { IfSome result AreUsable }
{
    let size = PageSize::new(4096)?;
    let pager = Pager::new(alloc, blank(alloc), size, Options::new(SALT)).ok()?;
    Unopened::with_sums(alloc, pager, tables, has_sums).ok()
}

// A table that no state has.
fn other() -> Object<'static> {
    Object {
        shape: Shape::Table,
        kind: "table",
        name: "t",
        table: "t",
        reals: 0,
        sql: Some("CREATE TABLE t(a)"),
    }
}

// Whether files with these tables are refused with this fault.
fn refuses(alloc: Global, tables: &[Object<'_>], has_sums: bool, fault: OpenFault) -> bool {
    match database(alloc, tables, has_sums) {
        Some(files) => fault_of(alloc, files) == Some(fault),
        None => false,
    }
}

// Why files aren't opened.
fn fault_of(alloc: Global, files: Files<Memory>) -> Option<OpenFault> {
    if !files.may_be_used() {
        return None;
    }
    match open_files(alloc, files, SALT) {
        Ok(store) => {
            drop(store.close());
            None
        }
        Err(fault) => Some(fault),
    }
}

#[test]
fn other_files_are_refused(rt: HostRuntime) {
    let alloc = rt.alloc();
    let tables = [other()];
    let damaged = OpenFault::Damaged;
    holds(&rt, refuses(alloc, &tables, true, damaged), "another table");
    holds(&rt, refuses(alloc, &tables, false, damaged), "no sums");
    holds(
        &rt,
        refuses(alloc, &[], true, OpenFault::Unfinished),
        "no table",
    );
    holds(
        &rt,
        fault_of(alloc, blank(alloc)) == Some(damaged),
        "no database",
    );
}
