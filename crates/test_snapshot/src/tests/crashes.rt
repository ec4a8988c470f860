//! A crash before a snapshot is committed, and after.
use super::holds;
use super::servers::{TEXT, busy};
use super::stores::{blank, has_tables, read_back, written};
use rad_config::Config;
use rad_journal::JournalFault;
use rad_snapshot::{SnapshotFault, write};
use sqlite_trees::store::{Reopen, Store};
use std::alloc::Global;
use std::test::Fail;

// Whether a crash after the rows were put, and not committed, leaves no snapshot.
fn leaves_none(alloc: Global, config: &Config) -> bool {
    let Some(server) = busy(alloc, config) else {
        return false;
    };
    let Ok(mut store) = blank(alloc) else {
        return false;
    };
    if !has_tables(&store) || write(alloc, &mut store, &server).is_err() {
        return false;
    }
    if store.crash_and_reopen().is_err() {
        return false;
    }
    let fault = read_back(alloc, &mut store, config).err();
    fault == Some(SnapshotFault::Journal(JournalFault::Damaged))
}

// Whether a crash after the commit leaves the snapshot.
fn leaves_all(alloc: Global, config: &Config) -> bool {
    let Some(server) = busy(alloc, config) else {
        return false;
    };
    let Ok(mut store) = written(alloc, &server) else {
        return false;
    };
    if store.crash_and_reopen().is_err() {
        return false;
    }
    match read_back(alloc, &mut store, config) {
        Ok(back) => back.same(&server),
        Err(_) => false,
    }
}

#[test]
fn a_crash_leaves_all_or_none(rt: HostRuntime) -> Result<(), Fail> {
    let alloc = rt.alloc();
    let config = Config::read(alloc, TEXT)?;
    holds(
        &rt,
        leaves_none(alloc, &config),
        "a crash before the commit",
    );
    holds(&rt, leaves_all(alloc, &config), "a crash after the commit");
    Ok(())
}
