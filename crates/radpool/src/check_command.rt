//! The command `check`: whether a configuration can be served, and what may be wrong with it.

use crate::fault::{Fault, report, written};
use crate::options::{Absent, TEXT, Valued, text_of, with_options};
use crate::state_copies::StateCopies;
use crate::state_files::seed;
use clap::{Arg, ArgMatches, Command};
use rad_check::{Source, SourceFault, warn};
use rad_config::{Config, ConfigFault, read_configuration};
use rad_serve::{excess_of, open_source, preview};
use std::alloc::{AllocError, AllocGlobal, Global};
use std::fmt;
use std::process::ExitCode;
use std::rt::Files;

const CHECK_EXAMPLES: &str = "\
It prints 'PATH: good: ..', with warnings on standard error, or the first fault.
With a state, which stays as it is, it then prints a line for each session that a restart would leave out, and how much it would restore.

Examples:
  radpool check radpool.toml
  radpool check --state /var/lib/radpool radpool.toml";

/// The options of `check`.
const CHECK_OPTIONS: &[Valued] = &[Valued {
    name: "state",
    value: "DIR",
    help: "Also says what a server would leave out that goes on from this state [default: nothing]",
    absent: Absent::Nothing,
    parser: TEXT,
}];

/// How often a state is copied at most, where a server writes to it meanwhile.
const COPIES: u32 = 3;

/// What is to be checked, as it is given.
#[derive(Clone, Copy)]
pub struct Check<'a> {
    path: &'a str,
    state: Option<&'a str>,
}

/// What is to be checked: the path of a configuration, and perhaps the folder of a state.
#[derive(Drop)]
pub struct Checking {
    path: String,
    state: Option<String>,
}

impl<'a> Check<'a> {
    /// What the matches of the command give.
    pub fn given(found: &ArgMatches<'a>) -> Option<Check<'a>> {
        Some(Check {
            path: found.get_str("path")?,
            state: found.get_str("state"),
        })
    }

    /// What is to be checked.
    pub fn checking(&self, alloc: Global) -> Result<Checking, AllocError> {
        Ok(Checking {
            path: self.path.to_string(alloc)?,
            state: text_of(alloc, self.state)?,
        })
    }
}

/// Checks a configuration, and returns the exit status.
pub fn run_check<R: Files + Print + Eprint + AllocGlobal>(
    rt: &R,
    host: &HostRuntime,
    checking: &Checking,
) -> ExitCode {
    match try_check(rt, host, checking) {
        Ok(()) => ExitCode::SUCCESS,
        Err(fault) => report(rt, fault),
    }
}

fn try_check<R: Files + Print + Eprint + AllocGlobal>(
    rt: &R,
    host: &HostRuntime,
    checking: &Checking,
) -> Result<(), Fault> {
    let path = checking.path.as_str();
    let source = open_source(rt, path)?;
    let config = match read_configuration(rt.alloc(), &source.text) {
        Ok(config) => config,
        Err(fault) => return Err(fault_of(rt.alloc(), source, fault)),
    };
    let mut warnings = String::new(rt.alloc());
    warn(&mut warnings, rt, path, &source, &config);
    let _ = eprint!(rt; "{warnings}");
    print_good(rt, path, &config)?;
    match &checking.state {
        Some(folder) => print_preview(rt, host, folder, &config),
        None => Ok(()),
    }
}

// The fault of a configuration, in one of its files, with what more there is to say.
fn fault_of(alloc: Global, source: Source, fault: ConfigFault) -> Fault {
    let excess = excess_of(alloc, &source.text, fault);
    match source.into_fault(alloc, fault) {
        SourceFault::Own(fault, detail) => Fault::Config {
            fault,
            detail,
            excess,
        },
        SourceFault::Users { name, fault } => Fault::Users { path: name, fault },
    }
}

fn print_good<R: Print>(rt: &R, path: &str, config: &Config) -> Result<(), Fault> {
    let (clients, pools, users) = (
        Counted(config.clients().len(), "client"),
        Counted(config.pools().len(), "pool"),
        Counted(config.users().len(), "user"),
    );
    written(println!(rt; "{path}: good: {clients}, {pools}, {users}"))
}

// Prints what a server would leave out and restore that goes on from the state in a folder.
fn print_preview<R: Print>(
    rt: &R,
    host: &HostRuntime,
    folder: &str,
    config: &Config,
) -> Result<(), Fault> {
    match preview_of(host, folder, config)? {
        Some(lines) => written(print!(rt; "{lines}")),
        None => written(println!(rt; "no generation")),
    }
}

// What there is to print. A copy may be none of a state where a server wrote to its files meanwhile: then another is taken.
fn preview_of(host: &HostRuntime, folder: &str, config: &Config) -> Result<Option<String>, Fault> {
    for _ in 1..COPIES {
        match preview_once(host, folder, config) {
            Err(Fault::State { .. }) => {}
            other => return other,
        }
    }
    preview_once(host, folder, config)
}

fn preview_once(
    host: &HostRuntime,
    folder: &str,
    config: &Config,
) -> Result<Option<String>, Fault> {
    let mut copies = StateCopies::of(host, folder)?;
    match preview(host, &mut copies, config, seed(host, folder)?) {
        Ok(lines) => Ok(lines),
        Err(error) => Err(copies.fault_of(error)),
    }
}

/// So many of what has this name.
#[derive(Clone, Copy)]
struct Counted(usize, &'static str);

impl fmt::Display for Counted {
    fn fmt<W: fmt::Write>(&self, f: &mut fmt::Formatter<W>) -> fmt::Result {
        let Counted(count, name) = self;
        let ending = if *count == 1 { "" } else { "s" };
        write!(f, "{count} {name}{ending}")
    }
}

/// The command, with the file that it checks.
pub fn check_command<'a>(alloc: Global) -> Result<Command<'a>, AllocError> {
    let command = Command::new(alloc, "check")
        .about("Checks a configuration, and warns of likely mistakes")
        .after_help(CHECK_EXAMPLES);
    with_options(alloc, command, CHECK_OPTIONS)?.arg(
        Arg::new(alloc, "path")
            .value_name("PATH")
            .required(true)
            .help("The configuration"),
    )
}
