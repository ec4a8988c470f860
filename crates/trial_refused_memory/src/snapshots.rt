//! Calls of `rad_snapshot` on a store in memory.
use crate::servers::busy;
use crate::stores::{blank, has_tables, state_with};
use crate::trial::{HASH_KEY, Time, Verdict, judge_anew};
use rad_config::Config;
use rad_journal::JournalFault;
use rad_server::Server;
use rad_snapshot::{SnapshotFault, read, write};
use sqlite_trees::store::Store;
use std::alloc::Global;
use test_common::CAMPUS;

#[derive(Clone, Copy)]
pub(crate) enum Call {
    Write,
    Read,
}

pub(crate) fn judge_call(alloc: Global, call: Call) -> Verdict {
    match Config::read(alloc, CAMPUS) {
        Ok(config) => judge_over(alloc, &config, call),
        Err(_) => Verdict::Unready,
    }
}

fn judge_over(alloc: Global, config: &Config, call: Call) -> Verdict {
    match busy(alloc, config) {
        Some(server) => judge_anew(|time| try_call(alloc, &server, call, time)),
        None => Verdict::Unready,
    }
}

// A call on a new store, which it uses up.
fn try_call(alloc: Global, server: &Server, call: Call, time: Time) -> Verdict {
    match call {
        Call::Write => try_write(alloc, server, time),
        Call::Read => try_read(alloc, server, time),
    }
}

// The snapshot that is written must be that of the server.
fn try_write(alloc: Global, server: &Server, time: Time) -> Verdict {
    let Ok(mut store) = blank(alloc) else {
        return Verdict::Unready;
    };
    if !has_tables(&store) {
        return Verdict::Unready;
    }
    time.begin(alloc);
    let written = write(alloc, &mut store, server);
    time.end(alloc);
    match written {
        Ok(()) => judge_read(alloc, &mut store, server, Time::Again),
        Err(JournalFault::NoMemory) => Verdict::Refused,
        Err(_) => Verdict::Fault,
    }
}

fn try_read(alloc: Global, server: &Server, time: Time) -> Verdict {
    match state_with(alloc, server, &[]) {
        Some(mut store) => judge_read(alloc, &mut store, server, time),
        None => Verdict::Unready,
    }
}

// What is read of the snapshot must be the server.
fn judge_read<S: Store>(alloc: Global, store: &mut S, server: &Server, time: Time) -> Verdict {
    if !has_tables(store) {
        return Verdict::Unready;
    }
    time.begin(alloc);
    let found = read(alloc, store, server.config(), HASH_KEY);
    time.end(alloc);
    match found {
        Ok(found) => Verdict::of(found.same(server)),
        Err(SnapshotFault::NoMemory) => Verdict::Refused,
        Err(_) => Verdict::Fault,
    }
}
