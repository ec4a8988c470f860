//! A crash at each call of the disk.
ghost use Rattle.std.specs.Prelude.{IsTrue};

use super::files::{begun_in, found_in};
use super::generations::{Found, TEXT, server};
use super::holds;
use rad_config::Config;
use rad_server::Server;
use rad_state::OpenFault;
use sqlite_disk::{Crash, Files, Fuse, Memory};
use std::alloc::Global;
use std::test::Fail;

/// How many calls of each file are tried. A generation takes fewer.
const CALLS: u64 = 32;

/// What a crash leaves while a generation begins, or after that.
#[derive(Clone, Copy, PartialEq, Eq)]
enum Left {
    /// No database was made, because the disk failed.
    Unmade,
    /// It was not begun, and isn't there.
    Nothing,
    /// It was not begun as far as the call could tell, and it is there.
    Whole,
    /// It was begun, and it is there.
    Begun,
    /// Anything else.
    Wrong,
}

// What a crash leaves of files that hold nothing, after a generation was to begin in them.
fn remains<D: Crash + Drop>(alloc: Global, files: Files<D>, server: &Server) -> Left
    requires log { IsTrue (D.Disk.is_usable files.log) }
    requires db { IsTrue (D.Disk.is_usable files.db) }
{
    match begun_in(alloc, files, server) {
        Ok((is_begun, files)) => {
            let mut files = files;
            files.log.crash();
            files.db.crash();
            judge(is_begun, found_in(alloc, files, server))
        }
        Err(OpenFault::Disk) => Left::Unmade,
        Err(_) => Left::Wrong,
    }
}

fn judge(is_begun: bool, found: Result<Found, OpenFault>) -> Left {
    match found {
        Ok(Found::Whole) if is_begun => Left::Begun,
        Ok(Found::Whole) => Left::Whole,
        Ok(Found::Nothing) if !is_begun => Left::Nothing,
        _ => Left::Wrong,
    }
}

// What a crash leaves where each of the two files fails after so many calls.
fn left_after(alloc: Global, calls: u64, server: &Server) -> Left {
    let files = Files {
        log: Fuse::new(Memory::new(alloc), calls),
        db: Fuse::new(Memory::new(alloc), calls),
    };
    remains(alloc, files, server)
}

// Whether each number of calls leaves all or nothing, and the last all.
fn leave_all_or_nothing(alloc: Global, server: &Server) -> bool {
    let mut has_begun = false;
    let mut had_nothing = false;
    for calls in 0..CALLS {
        let left = left_after(alloc, calls, server);
        has_begun = left == Left::Begun;
        had_nothing |= left == Left::Nothing;
        if left == Left::Wrong {
            return false;
        }
    }
    has_begun && had_nothing
}

#[test]
fn a_crash_leaves_all_or_nothing(rt: HostRuntime) -> Result<(), Fail> {
    let alloc = rt.alloc();
    let config = Config::read(alloc, TEXT)?;
    match server(alloc, &config) {
        Some(server) => holds(&rt, leave_all_or_nothing(alloc, &server), "all or nothing"),
        None => holds(&rt, false, "a server"),
    }
    Ok(())
}
