//! How serving ends, and in which order its faults come.
use super::LOOPBACK;
use super::client::CONFIGURATION;
use super::shelf::Shelf;
use crate::tests::holds;
use rad_auth::Door;
use rad_config::{ConfigFault, Part};
use rad_journal::RestoreFault;
use rad_serve::{
    Excess, FailedPort, Given, GivenFault, HeldFault, Options, Reports, ServeError, Sockets,
    UdpPorts, Workers, excess_of, serve, serve_with_state,
};
use rad_shell::{FailedCall, JournalFault, PortCall, ServeFault};
use rad_state::OpenFault;
use std::alloc::{AllocGlobal, Global};
use std::net::Net;
use std::process::Abort;
use std::rt::Files;
use std::sync::Wait;
use std::test::Fail;
use std::thread::Threads;
use std::time::Clock;
use std::{fs, io};

/// Authentication ports, each with the accounting port after it. The first pair is taken while serving is tried.
const TAKEN: u16 = 18136;

const FREE: u16 = 18138;

const STATE_FREE: u16 = 18140;

/// Files that the tests write.
const SEED: &str = "/tmp/test_serve.seed";

const SHORT_SEED: &str = "/tmp/test_serve.short";

const LONG_SEED: &str = "/tmp/test_serve.long";

const CONFIG: &str = "/tmp/test_serve.toml";

const STATE_CONFIG: &str = "/tmp/test_serve.state.toml";

const STATE_SEED: &str = "/tmp/test_serve.state.seed";

/// Files that are wherever the tests run: none, one without end, one that isn't TOML.
const MISSING: &str = "/dev/null/missing";

const ENDLESS: &str = "/dev/zero";

const NO_TOML: &str = "/proc/version";

pub(crate) fn options(alloc: Global, config: &str, seed: &str, auth: u16) -> Option<Options> {
    Some(Options {
        config: config.to_string(alloc).ok()?,
        seed: seed.to_string(alloc).ok()?,
        state: None,
        sockets: Sockets::Bind {
            address: LOOPBACK,
            auth,
            acct: auth.saturating_add(1),
        },
        workers: Workers::nearest(1),
        rounds: Some(1),
        reports: UNREPORTED,
    })
}

/// Nothing is told.
const UNREPORTED: Reports = Reports {
    log: None,
    metrics: None,
    sessions: None,
    record: None,
};

// How one turn of serving ends with these files, on these ports: the lines of its fault, or none.
fn ended<R: Files + Net + Clock + Print + Eprint + Threads + Wait + Sync + AllocGlobal>(
    rt: &R,
    config: &str,
    seed: &str,
    auth: u16,
) -> Option<String> {
    let options = options(rt.alloc(), config, seed, auth)?;
    match Given::read(rt, &options) {
        Ok(given) => match serve(rt, &options, given) {
            Ok(()) => Some(String::new(rt.alloc())),
            Err(error) => lines_of_error(rt.alloc(), error),
        },
        Err(fault) => lines_of_given(rt.alloc(), &fault),
    }
}

fn lines_of_given(alloc: Global, fault: &GivenFault) -> Option<String> {
    match fault {
        GivenFault::Unreadable(file) => {
            format!(in alloc; "{file}\n{}: {}", file.path, file.why).ok()
        }
        GivenFault::Config(fault, None) => fault.to_string(alloc).ok(),
        _ => None,
    }
}

fn lines_of_error(alloc: Global, error: ServeError) -> Option<String> {
    match error {
        ServeError::Bind(unbound) => format!(in alloc; "{error}\n{unbound}").ok(),
        ServeError::Rounds(fault, Some(broken)) => format!(in alloc; "{fault}\n{broken}").ok(),
        _ => error.to_string(alloc).ok(),
    }
}

/// Files, ports, and the lines with which serving ends: the configuration's fault comes first, then the seed's, and then that of
/// the ports.
type Row = (&'static str, &'static str, u16, &'static str);

const ROWS: &[Row] = &[
    (
        MISSING,
        MISSING,
        TAKEN,
        "config unreadable\n/dev/null/missing: Not a directory (os error 20)",
    ),
    (
        "/",
        MISSING,
        TAKEN,
        "config unreadable\n/: Is a directory (os error 21)",
    ),
    (
        ENDLESS,
        MISSING,
        TAKEN,
        "config unreadable\n/dev/zero: it has more than 16777216 octets",
    ),
    (NO_TOML, MISSING, TAKEN, "config fault 1 Syntax"),
    (
        CONFIG,
        MISSING,
        TAKEN,
        "seed unreadable\n/dev/null/missing: Not a directory (os error 20)",
    ),
    (
        CONFIG,
        "/",
        TAKEN,
        "seed unreadable\n/: Is a directory (os error 21)",
    ),
    (
        CONFIG,
        ENDLESS,
        TAKEN,
        "seed unreadable\n/dev/zero: its size is not 32 octets but more",
    ),
    (
        CONFIG,
        "/dev/null",
        TAKEN,
        "seed unreadable\n/dev/null: its size is not 32 octets but 0",
    ),
    (
        CONFIG,
        SHORT_SEED,
        TAKEN,
        "seed unreadable\n/tmp/test_serve.short: its size is not 32 octets but 31",
    ),
    (
        CONFIG,
        LONG_SEED,
        TAKEN,
        "seed unreadable\n/tmp/test_serve.long: its size is not 32 octets but 99",
    ),
    (
        CONFIG,
        SEED,
        TAKEN,
        "bind failed\n127.0.0.1:18136: Address already in use (os error 98)",
    ),
    (CONFIG, SEED, FREE, ""),
];

fn write_files<R: Files>(rt: &R) -> io::Result<()> {
    fs::write(rt, CONFIG, CONFIGURATION)?;
    fs::write(rt, SEED, &[1u8; 32])?;
    fs::write(rt, SHORT_SEED, &[1u8; 31])?;
    fs::write(rt, LONG_SEED, &[1u8; 99])
}

fn remove_files<R: Files>(rt: &R) -> io::Result<()> {
    fs::remove_file(rt, CONFIG)?;
    fs::remove_file(rt, SEED)?;
    fs::remove_file(rt, SHORT_SEED)?;
    fs::remove_file(rt, LONG_SEED)
}

fn ends_so<R: Files + Net + Clock + Print + Eprint + Threads + Wait + Sync + AllocGlobal>(
    rt: &R,
    row: &Row,
) -> bool {
    let (config, seed, auth, wanted) = *row;
    match ended(rt, config, seed, auth) {
        Some(lines) => lines.as_str() == wanted,
        None => false,
    }
}

#[test]
fn faults_in_their_order(rt: HostRuntime) -> Result<(), Fail> {
    write_files(&rt)?;
    let _taken = UdpPorts::bind(&rt, LOOPBACK, TAKEN, TAKEN + 1)?;
    for row in ROWS.iter() {
        holds(&rt, ends_so(&rt, row), row.3);
    }
    remove_files(&rt)?;
    Ok(())
}

// How one turn of serving ends over a new folder whose files fail after so many calls each: the lines of its fault, or none.
fn ended_over<R: Files + Net + Clock + Print + Eprint + Threads + Wait + Sync + AllocGlobal>(
    rt: &R,
    calls: u64,
) -> Option<String> {
    let options = options(rt.alloc(), STATE_CONFIG, STATE_SEED, STATE_FREE)?;
    let given = Given::read(rt, &options).ok()?;
    match serve_with_state(rt, &options, given, Shelf::new(calls), 2) {
        Ok(()) => Some(String::new(rt.alloc())),
        Err(error) => lines_of_error(rt.alloc(), error),
    }
}

/// After how many calls its files fail, and the lines with which serving ends.
const OVER: &[(u64, &str)] = &[(0, "the disk failed"), (9, "the disk failed"), (1000, "")];

fn ends_so_over<R: Files + Net + Clock + Print + Eprint + Threads + Wait + Sync + AllocGlobal>(
    rt: &R,
    calls: u64,
    wanted: &str,
) -> bool {
    match ended_over(rt, calls) {
        Some(lines) => lines.as_str() == wanted,
        None => false,
    }
}

#[test]
fn a_state_is_begun_or_its_disk_fails(rt: HostRuntime) -> Result<(), Fail> {
    fs::write(&rt, STATE_CONFIG, CONFIGURATION)?;
    fs::write(&rt, STATE_SEED, &[1u8; 32])?;
    for (calls, wanted) in OVER.iter() {
        holds(&rt, ends_so_over(&rt, *calls, wanted), "begun, or failed");
    }
    fs::remove_file(&rt, STATE_CONFIG)?;
    fs::remove_file(&rt, STATE_SEED)?;
    Ok(())
}

fn says(rt: &impl Abort, alloc: Global, error: ServeError, text: &str) {
    let said = lines_of_error(alloc, error).unwrap_or(String::new(alloc));
    holds(rt, said.as_str() == text, text);
}

const TEXTS: &[(ServeError, &str)] = &[
    (ServeError::NoMemory, "out of memory"),
    (
        ServeError::State(OpenFault::InUse),
        "another process uses the state",
    ),
    (
        ServeError::OtherConfig(ConfigFault::Syntax),
        "the state's own configuration: config fault 1 Syntax",
    ),
    (
        ServeError::Restore(RestoreFault::OtherAnswer { entry: 7 }),
        "the answer of entry 7 is another",
    ),
    (
        ServeError::Clocks,
        "the boot's id or its clock can't be read",
    ),
    (
        ServeError::Held(HeldFault::NoUdp(3)),
        "descriptor 3 is no UDP socket with an IPv4 address and a port",
    ),
    (
        ServeError::Rounds(ServeFault::Receive, Some(FailedPort(RECEIVE))),
        "receive failed\nauthentication port: Operation not permitted (os error 1)",
    ),
    (
        ServeError::Rounds(ServeFault::Send, Some(FailedPort(SEND))),
        "send failed\naccounting port to 192.0.2.1:3799: Bad file descriptor (os error 9)",
    ),
    (
        ServeError::Rounds(ServeFault::Send, Some(FailedPort(STRANGE))),
        "send failed\nauthentication port to 127.0.0.1:1024: the system gives no reason",
    ),
    (ServeError::Rounds(ServeFault::Mismatch, None), "mismatch"),
    (
        ServeError::Rounds(ServeFault::Journal(JournalFault::Disk), None),
        "the disk failed",
    ),
];

const RECEIVE: FailedCall = FailedCall {
    call: PortCall::Receive(Door::Auth),
    destination: None,
    number: Some(1),
};

const SEND: FailedCall = FailedCall {
    call: PortCall::Send(Door::Acct),
    destination: Some((0xC000_0201, 3799)),
    number: Some(9),
};

const STRANGE: FailedCall = FailedCall {
    call: PortCall::Send(Door::Auth),
    destination: Some((LOOPBACK, 1024)),
    number: None,
};

#[test]
fn texts(rt: HostRuntime) {
    for (error, text) in TEXTS.iter() {
        says(&rt, rt.alloc(), *error, text);
    }
}

/// 17 pools.
const POOLS: &[u8] = b"pool = [{},{},{},{},{},{},{},{},{},{},{},{},{},{},{},{},{}]";

#[test]
fn entries_that_are_too_many(rt: HostRuntime) {
    let alloc = rt.alloc();
    let excess = Excess {
        part: Part::Pool,
        count: 17,
        most: 16,
    };
    let found = excess_of(alloc, POOLS, ConfigFault::TooMany(Part::Pool));
    holds(&rt, found == Some(excess), "17 pools");
    let other = excess_of(alloc, POOLS, ConfigFault::Syntax);
    holds(&rt, other.is_none(), "another fault");
    let said = excess.to_string(alloc).unwrap_or(String::new(alloc));
    holds(
        &rt,
        said.as_str() == "17 pools, and at most 16 are allowed",
        "its text",
    );
}
