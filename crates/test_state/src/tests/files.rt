//! Files in memory: what they have after a generation was begun in them.
ghost use Rattle.std.specs.Prelude.{IsTrue};
ghost use Rattle.sqlite_disk.specs.Memory.{memory_is_usable};

use super::generations::{Found, begins, read_back};
use rad_server::Server;
use rad_state::{OpenFault, make_files, open_files};
use sqlite_disk::{Disk, Files, Memory};
use std::alloc::Global;

/// A random number for the salts of a log.
pub(crate) const SALT: u64 = 7;

/// Two files that hold nothing.
pub(crate) fn blank(alloc: Global) -> Files<Memory>
    ensures log { IsTrue (memory_is_usable result.log) }
    ensures db { IsTrue (memory_is_usable result.db) }
{
    Files {
        log: Memory::new(alloc),
        db: Memory::new(alloc),
    }
}

/// Files in which a generation was to begin at a server, and whether it did; or why no database was made. They were closed after
/// the log was copied into the database, as far as it could be.
pub(crate) fn begun_in<D: Disk + Drop>(
    alloc: Global,
    files: Files<D>,
    server: &Server,
) -> Result<(bool, Files<D>), OpenFault>
    requires log { IsTrue (D.Disk.is_usable files.log) }
    requires db { IsTrue (D.Disk.is_usable files.db) }
{
    match make_files(alloc, files, SALT) {
        Ok(store) => {
            let mut store = store;
            let is_begun = begins(alloc, &mut store, server);
            // Where this fails, nothing is lost.
            let _ = store.checkpoint();
            Ok((is_begun, store.close()))
        }
        Err(fault) => Err(fault),
    }
}

/// What files have that were closed.
pub(crate) fn found_in<D: Disk + Drop>(
    alloc: Global,
    files: Files<D>,
    server: &Server,
) -> Result<Found, OpenFault> {
    if !files.may_be_used() {
        return Err(OpenFault::Disk);
    }
    match open_files(alloc, files, SALT) {
        Ok(store) => read_back(alloc, store, server),
        Err(fault) => Err(fault),
    }
}
