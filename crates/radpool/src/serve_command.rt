//! The command `serve`: its options, and its run.

use crate::fault::{Fault, report, unfit};
use crate::options::{Absent, PORT, TEXT, Valued, text_of, with_options};
use crate::state_folder::StateFolder;
use clap::builder::ValueParser;
use clap::{ArgMatches, Command};
use rad_serve::{
    Expected, Given, Level, Options, Reports, Sockets, Workers, serve, serve_with_state,
};
use rad_text::decimal;
use std::alloc::{AllocError, AllocGlobal, Global};
use std::net::{Ipv4Addr, Net};
use std::process::ExitCode;
use std::rt::Files;
use std::sync::Wait;
use std::thread::Threads;
use std::time::Clock;

const SERVE_EXAMPLE: &str = "\
It prints 'listening ADDRESS AUTH ACCT' and, after its last turn, a line of totals.

Example:
  head -c 32 /dev/urandom > radpool.seed
  radpool serve --config radpool.toml --seed radpool.seed";

const NAME: &str = "radpool serve";

const BAD_ADDRESS: &str =
    "invalid value for '--bind <ADDRESS>': expected a unicast IPv4 address, such as 192.0.2.1";

/// Where it listens unless an option says otherwise: 127.0.0.1, and the ports of RFC 2865 and RFC 2866.
const LOOPBACK: u32 = 0x7F00_0001;

const AUTH: u16 = 1812;

const ACCT: u16 = 1813;

/// How many generations are kept unless an option says otherwise.
const GENERATIONS: u32 = 24;

/// The options of `serve`: the files, where to listen, and how turns are made.
const SERVE_OPTIONS: &[Valued] = &[
    Valued {
        name: "config",
        value: "PATH",
        help: "The configuration",
        absent: Absent::Fault,
        parser: TEXT,
    },
    Valued {
        name: "seed",
        value: "PATH",
        help: "A file of exactly 32 random octets, the seed for all that must not be guessed",
        absent: Absent::Fault,
        parser: TEXT,
    },
    Valued {
        name: "state",
        value: "DIR",
        help: "Keeps sessions, replies and challenges over restarts, in this folder of its own [default: nothing is kept]",
        absent: Absent::Nothing,
        parser: TEXT,
    },
    Valued {
        name: "generations",
        value: "N",
        help: "How many generations of the state are kept, 2 to 4294967295 [default: 24, or all with --keep-generations]",
        absent: Absent::Nothing,
        parser: ValueParser::Unsigned(2, 4_294_967_295),
    },
    Valued {
        name: "keep-generations",
        value: "DAYS",
        help: "For how many days a generation is kept that isn't written any more, 1 to 36500 [default: as --generations says]",
        absent: Absent::Nothing,
        parser: ValueParser::Unsigned(1, 36_500),
    },
    Valued {
        name: "bind",
        value: "ADDRESS",
        help: "The IPv4 address to listen on [default: 127.0.0.1]",
        absent: Absent::Nothing,
        parser: TEXT,
    },
    Valued {
        name: "auth",
        value: "PORT",
        help: "The authentication port [default: 1812]",
        absent: Absent::Nothing,
        parser: PORT,
    },
    Valued {
        name: "acct",
        value: "PORT",
        help: "The accounting port [default: 1813]",
        absent: Absent::Nothing,
        parser: PORT,
    },
    Valued {
        name: "workers",
        value: "N",
        help: "The maximum number of threads that answer a turn, 1 to 8",
        absent: Absent::Value("2"),
        parser: ValueParser::Unsigned(1, 8),
    },
    Valued {
        name: "rounds",
        value: "N",
        help: "Exits after this many turns, 1 to 4294967295, each of which waits for at most a second [default: no end]",
        absent: Absent::Nothing,
        parser: ValueParser::Unsigned(1, 4_294_967_295),
    },
    Valued {
        name: "log",
        value: "LEVEL",
        help: "Logs to standard error what is refused, or everything [default: none]",
        absent: Absent::Nothing,
        parser: ValueParser::Names(LEVELS),
    },
    Valued {
        name: "metrics",
        value: "PATH",
        help: "Writes metrics to this file every 10 seconds, in the Prometheus text format [default: none]",
        absent: Absent::Nothing,
        parser: TEXT,
    },
    Valued {
        name: "sessions",
        value: "PATH",
        help: "Writes a table of sessions to this file every 10 seconds [default: none]",
        absent: Absent::Nothing,
        parser: TEXT,
    },
    Valued {
        name: "record",
        value: "PATH",
        help: "Records datagrams in this new file, as a transcript for 'replay' [default: none]",
        absent: Absent::Nothing,
        parser: TEXT,
    },
];

/// The names of the levels of a log.
const LEVELS: &[&str] = &["refused", "all"];

fn level_named(name: &str) -> Option<Level> {
    match name {
        "refused" => Some(Level::Refused),
        "all" => Some(Level::All),
        _ => None,
    }
}

/// The options of `serve`, as they are given.
#[derive(Clone, Copy)]
pub struct Serve<'a> {
    config: &'a str,
    seed: &'a str,
    state: Option<&'a str>,
    generations: Option<u32>,
    days: Option<u32>,
    bind: Option<&'a str>,
    auth: Option<u16>,
    acct: Option<u16>,
    workers: u64,
    rounds: Option<u32>,
    log: Option<&'a str>,
    metrics: Option<&'a str>,
    sessions: Option<&'a str>,
    record: Option<&'a str>,
}

/// What is to be served, how many files of its state are kept, and for how many days.
#[derive(Drop)]
pub struct Serving {
    options: Options,
    generations: u32,
    days: Option<u32>,
}

impl<'a> Serve<'a> {
    /// What the matches of the command give.
    pub fn given(found: &ArgMatches<'a>) -> Option<Serve<'a>> {
        Some(Serve {
            config: found.get_str("config")?,
            seed: found.get_str("seed")?,
            state: found.get_str("state"),
            generations: found.get_one::<u32>("generations"),
            days: found.get_one::<u32>("keep-generations"),
            bind: found.get_str("bind"),
            auth: found.get_one::<u16>("auth"),
            acct: found.get_one::<u16>("acct"),
            workers: found.get_one::<u64>("workers")?,
            rounds: found.get_one::<u32>("rounds"),
            log: found.get_str("log"),
            metrics: found.get_str("metrics"),
            sessions: found.get_str("sessions"),
            record: found.get_str("record"),
        })
    }

    /// What is to be served, on sockets that the process was given, or others.
    pub fn serving(&self, alloc: Global, are_held: bool) -> Result<Serving, Fault> {
        Ok(Serving {
            options: self.options(alloc, are_held)?,
            generations: self.generations.unwrap_or(match self.days {
                Some(_) => u32::MAX,
                None => GENERATIONS,
            }),
            days: self.days,
        })
    }

    fn options(&self, alloc: Global, are_held: bool) -> Result<Options, Fault> {
        let Some(sockets) = self.sockets(are_held) else {
            return Err(unfit(serve_command(alloc)?, NAME, BAD_ADDRESS)?);
        };
        Ok(Options {
            config: self.config.to_string(alloc)?,
            seed: self.seed.to_string(alloc)?,
            state: text_of(alloc, self.state)?,
            sockets,
            workers: Workers::nearest(self.workers),
            rounds: self.rounds,
            reports: self.reports(alloc)?,
        })
    }

    // The sockets, unless the address doesn't fit. Those that the process was given are as these options say, as far as they are
    // there; any port will do where port 0 is asked for.
    fn sockets(&self, are_held: bool) -> Option<Sockets> {
        let address = match self.bind {
            Some(text) => Some(address_to_bind(text)?),
            None => None,
        };
        Some(if are_held {
            Sockets::Held(Expected {
                address,
                auth: self.auth.filter(|port| *port != 0),
                acct: self.acct.filter(|port| *port != 0),
            })
        } else {
            Sockets::Bind {
                address: address.unwrap_or(LOOPBACK),
                auth: self.auth.unwrap_or(AUTH),
                acct: self.acct.unwrap_or(ACCT),
            }
        })
    }

    fn reports(&self, alloc: Global) -> Result<Reports, AllocError> {
        Ok(Reports {
            log: self.log.and_then(level_named),
            metrics: text_of(alloc, self.metrics)?,
            sessions: text_of(alloc, self.sessions)?,
            record: text_of(alloc, self.record)?,
        })
    }
}

// The address that a text spells, unless datagrams to it go to several hosts, which a server would then all answer.
fn address_to_bind(text: &str) -> Option<u32> {
    let bits = decimal::address(text.as_bytes())?;
    let address = Ipv4Addr::from_bits(bits);
    if address.is_multicast() || address.is_broadcast() {
        return None;
    }
    Some(bits)
}

/// Serves, and returns the exit status. Only the host opens the files of a state.
pub fn run_server<R: Files + Net + Clock + Print + Eprint + Threads + Wait + Sync + AllocGlobal>(
    rt: &R,
    host: &HostRuntime,
    serving: &Serving,
) -> ExitCode {
    match try_serve(rt, host, serving) {
        Ok(()) => ExitCode::SUCCESS,
        Err(fault) => report(rt, fault),
    }
}

fn try_serve<R: Files + Net + Clock + Print + Eprint + Threads + Wait + Sync + AllocGlobal>(
    rt: &R,
    host: &HostRuntime,
    serving: &Serving,
) -> Result<(), Fault> {
    let options = &serving.options;
    let given = Given::read(rt, options)?;
    let Some(path) = &options.state else {
        return Ok(serve(rt, options, given)?);
    };
    let mut folder = StateFolder::open(host, path, serving.days)?;
    match serve_with_state(rt, options, given, &mut folder, serving.generations) {
        Ok(()) => Ok(()),
        Err(error) => Err(folder.fault_of(error)),
    }
}

/// The command, with its options.
pub fn serve_command<'a>(alloc: Global) -> Result<Command<'a>, AllocError> {
    let command = Command::new(alloc, "serve")
        .about("Answers requests on two UDP ports")
        .after_help(SERVE_EXAMPLE);
    with_options(alloc, command, SERVE_OPTIONS)
}
