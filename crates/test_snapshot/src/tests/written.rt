//! Servers that are written and read back.
use super::holds;
use super::servers::{SESSIONS, TEXT, WITHOUT_KAY, busy};
use super::stores::{read_back, written};
use rad_config::Config;
use rad_server::{RowFault, Server};
use rad_snapshot::{SnapshotFault, SnapshotTable};
use std::alloc::{AllocError, Global};
use std::test::Fail;

// Whether a server is written and read back equal.
fn comes_back(alloc: Global, config: &Config, server: &Server) -> bool {
    let Ok(mut store) = written(alloc, server) else {
        return false;
    };
    match read_back(alloc, &mut store, config) {
        Ok(back) => back.same(server),
        Err(_) => false,
    }
}

// What reading the snapshot of a server that is busy reports, under another configuration.
fn fault_under(alloc: Global, config: &Config, other: &Config) -> Option<SnapshotFault> {
    let server = busy(alloc, config)?;
    let mut store = written(alloc, &server).ok()?;
    read_back(alloc, &mut store, other).err()
}

#[test]
fn an_empty_server_comes_back(rt: HostRuntime) -> Result<(), Fail> {
    let alloc = rt.alloc();
    let config = Config::read(alloc, TEXT)?;
    let comes_back = empty_comes_back(alloc, &config);
    holds(&rt, comes_back == Ok(true), "an empty server");
    Ok(())
}

fn empty_comes_back(alloc: Global, config: &Config) -> Result<bool, AllocError> {
    let server = Server::open(alloc, config)?;
    Ok(comes_back(alloc, config, &server))
}

// Whether a server that remembers rows of each kind does.
fn busy_comes_back(alloc: Global, config: &Config) -> bool {
    let Some(server) = busy(alloc, config) else {
        return false;
    };
    server.sessions().rows().count() as u64 == SESSIONS && comes_back(alloc, config, &server)
}

#[test]
fn rows_of_each_kind_come_back(rt: HostRuntime) -> Result<(), Fail> {
    let config = Config::read(rt.alloc(), TEXT)?;
    holds(
        &rt,
        busy_comes_back(rt.alloc(), &config),
        "rows of each kind",
    );
    Ok(())
}

#[test]
fn another_configuration_refuses_a_row(rt: HostRuntime) -> Result<(), Fail> {
    let alloc = rt.alloc();
    let config = Config::read(alloc, TEXT)?;
    let fault = fault_without_kay(alloc, &config);
    let wanted = SnapshotFault::Row {
        table: SnapshotTable::Challenges,
        place: 1,
        fault: RowFault::User,
    };
    holds(
        &rt,
        fault == Some(wanted),
        "a configuration without a challenge's user",
    );
    Ok(())
}

fn fault_without_kay(alloc: Global, config: &Config) -> Option<SnapshotFault> {
    let other = Config::read(alloc, WITHOUT_KAY).ok()?;
    fault_under(alloc, config, &other)
}
