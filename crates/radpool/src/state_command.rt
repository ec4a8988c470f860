//! The command `state close`: a state whose entries end, so that a program with other rules can go on from it.

use crate::fault::{Fault, report, written};
use crate::state_files::seed;
use crate::state_folder::StateFolder;
use clap::{Arg, ArgMatches, Command};
use rad_serve::close_state;
use std::alloc::{AllocError, Global};
use std::process::ExitCode;

const STATE_EXAMPLE: &str = "\
Example:
  radpool state close /var/lib/radpool";

const CLOSE_EXAMPLE: &str = "\
It prints 'closed generation N' with the number of the new generation, or 'no generation'.

Example:
  radpool state close /var/lib/radpool";

/// The folder that the matches of the command give.
pub fn folder_in<'a>(found: &ArgMatches<'a>) -> Option<&'a str> {
    match found.subcommand()? {
        ("close", found) => found.get_str("dir"),
        _ => None,
    }
}

/// Closes the state in a folder from which nobody serves, and returns the exit status.
pub fn run_close<R: Print + Eprint>(rt: &R, host: &HostRuntime, path: &str) -> ExitCode {
    match try_close(rt, host, path) {
        Ok(()) => ExitCode::SUCCESS,
        Err(fault) => report(rt, fault),
    }
}

fn try_close<R: Print>(rt: &R, host: &HostRuntime, path: &str) -> Result<(), Fault> {
    match close(host, path)? {
        Some(number) => written(println!(rt; "closed generation {number}")),
        None => written(println!(rt; "no generation")),
    }
}

// Closes a state. The number of the new generation, if there was one.
fn close(host: &HostRuntime, path: &str) -> Result<Option<u32>, Fault> {
    let mut folder = StateFolder::open(host, path, None)?;
    match close_state(host, &mut folder, seed(host, path)?) {
        Ok(number) => Ok(number),
        Err(error) => Err(folder.fault_of(error)),
    }
}

/// The command, with its own command.
pub fn state_command<'a>(alloc: Global) -> Result<Command<'a>, AllocError> {
    Command::new(alloc, "state")
        .about("Prepares a state for another version of radpool")
        .after_help(STATE_EXAMPLE)
        .subcommand_required(true)
        .arg_required_else_help(true)
        .disable_help_subcommand(true)
        .subcommand(close_command(alloc)?)
}

fn close_command<'a>(alloc: Global) -> Result<Command<'a>, AllocError> {
    Command::new(alloc, "close")
        .about(
            "Begins a generation without entries, which a version with other rules can go on from",
        )
        .after_help(CLOSE_EXAMPLE)
        .arg(
            Arg::new(alloc, "dir")
                .value_name("DIR")
                .required(true)
                .help("The folder of the state, from which no server may serve"),
        )
}
