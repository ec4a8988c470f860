//! The command line: what it may say, and what is then done.

use crate::accounting_command::{Accounting, Printing, accounting_command};
use crate::check_command::{Check, Checking, check_command};
use crate::fault::{Fault, error_of, report, unfit, written};
use crate::held::are_held;
use crate::options::{Absent, OCTET, TEXT, Valued, WORD, with_options};
use crate::serve_command::{Serve, Serving, serve_command};
use crate::state_command::{folder_in, state_command};
use clap::builder::ValueParser;
use clap::error::ErrorKind;
use clap::{Arg, ArgAction, ArgMatches, Command};
use rad_replay::{KINDS, Kind, Make, MakeFault, RunFault, run_replay};
use std::alloc::{AllocError, Global};
use std::convert::AsStr;
use std::process::{ExitCode, Process};
use std::rt::Env;
use std::{env, io};

const VERSION: &str = "1.1.0";

const PROGRAM_EXAMPLES: &str = "\
Examples:
  radpool make --kind account --secret xyzzy5461 --id 7
  radpool replay < examples/requests.txt
  radpool check radpool.toml
  radpool serve --config radpool.toml --seed radpool.seed

'radpool COMMAND --help' describes a command and its options.";

const REPLAY_EXAMPLE: &str = "\
A transcript is a configuration, the line '---', and one line per datagram:
MOMENT DOOR ADDRESS:PORT OCTETS [DRAW]

Examples:
  radpool replay < examples/requests.txt
  radpool replay --state /var/lib/radpool/generation-7.db > state.txt";

/// The options of `replay`.
const REPLAY_OPTIONS: &[Valued] = &[Valued {
    name: "state",
    value: "FILE",
    help: "Prints the entries of this generation of a state, which no server may have open, as a transcript in place of answering one",
    absent: Absent::Nothing,
    parser: TEXT,
}];

const MAKE_EXAMPLES: &str = "\
Examples:
  radpool make --kind account --secret xyzzy5461 --id 7
  radpool make --kind access --secret xyzzy5461 --user nemo --password arctangent";

/// The options of `make` that have a value: how a request begins and is signed, and then its attributes.
const MAKE_OPTIONS: &[Valued] = &[
    Valued {
        name: "kind",
        value: "KIND",
        help: "Access-Request, Accounting-Request or Status-Server",
        absent: Absent::Fault,
        parser: ValueParser::Names(&KINDS),
    },
    Valued {
        name: "secret",
        value: "TEXT",
        help: "The secret shared with the server, 1 to 128 octets",
        absent: Absent::Fault,
        parser: TEXT,
    },
    Valued {
        name: "id",
        value: "N",
        help: "The Identifier, 0 to 255",
        absent: Absent::Value("0"),
        parser: OCTET,
    },
    Valued {
        name: "random",
        value: "HEX",
        help: "The Request Authenticator of kinds access and status, 32 hexadecimal digits",
        absent: Absent::Value("00000000000000000000000000000000"),
        parser: TEXT,
    },
    Valued {
        name: "user",
        value: "TEXT",
        help: "The User-Name, 1 to 253 octets",
        absent: Absent::Nothing,
        parser: TEXT,
    },
    Valued {
        name: "password",
        value: "TEXT",
        help: "The password of kind access, at most 128 octets",
        absent: Absent::Nothing,
        parser: TEXT,
    },
    Valued {
        name: "chap",
        value: "N",
        help: "Sends the password in a CHAP-Password with this identifier, 0 to 255, instead of a User-Password",
        absent: Absent::Nothing,
        parser: OCTET,
    },
    Valued {
        name: "status",
        value: "N",
        help: "The Acct-Status-Type of kind account, 0 to 4294967295",
        absent: Absent::Value("1"),
        parser: WORD,
    },
    Valued {
        name: "extra",
        value: "HEX",
        help: "Attributes to append, each as Type, Length and Value in hexadecimal [default: none]",
        absent: Absent::Value(""),
        parser: TEXT,
    },
];

/// What the command line asks for.
#[derive(Clone, Copy)]
enum Task<'a> {
    Replay,
    Transcript(&'a str),
    Make(Make<'a>),
    Check(Check<'a>),
    Serve(Serve<'a>),
    Print(Accounting<'a>),
    Close(&'a str),
}

/// What comes after the reading of the command line, and after a command that is done at once.
#[derive(Drop)]
pub enum Next {
    /// To end with this status.
    End(ExitCode),
    /// To check a configuration.
    Check(Checking),
    /// To serve.
    Serve(Serving),
    /// To write the entries of the generation in this file as a transcript.
    Transcript(String),
    /// To print what a state has recorded.
    Print(Printing),
    /// To close the state in this folder.
    Close(String),
}

/// Does what the words after the program's name ask for, except what takes files, which is left to the caller.
pub fn run<R: Env + Input + Print + Eprint + AllocGlobal>(rt: &R, process: Process) -> Next {
    match try_run(rt, process) {
        Ok(next) => next,
        Err(fault) => Next::End(report(rt, fault)),
    }
}

fn try_run<R: Env + Input + Print + AllocGlobal>(rt: &R, process: Process) -> Result<Next, Fault> {
    let words = words(rt)?;
    do_task(rt, process, task_of(rt.alloc(), words.as_slice())?)
}

fn do_task<R: Env + Input + Print + AllocGlobal>(
    rt: &R,
    process: Process,
    task: Task,
) -> Result<Next, Fault> {
    match task {
        Task::Replay => run_replay(rt.alloc(), &mut rt.reader(), &mut io::writer(rt))?,
        Task::Make(make) => print_request(rt, make)?,
        Task::Transcript(path) => return Ok(Next::Transcript(path.to_string(rt.alloc())?)),
        Task::Check(check) => return Ok(Next::Check(check.checking(rt.alloc())?)),
        Task::Serve(serve) => {
            let are_held = are_held(rt, process)?;
            return Ok(Next::Serve(serve.serving(rt.alloc(), are_held)?));
        }
        Task::Print(accounting) => return Ok(Next::Print(accounting.printing(rt.alloc())?)),
        Task::Close(folder) => return Ok(Next::Close(folder.to_string(rt.alloc())?)),
    }
    Ok(Next::End(ExitCode::SUCCESS))
}

// The words of the command line, the program's name first.
fn words<R: Env + AllocGlobal>(rt: &R) -> Result<Vec<String>, Fault> {
    match env::args(rt) {
        Ok(words) => Ok(words.collect(rt.alloc())?),
        Err(error) if error.kind() == io::ErrorKind::OutOfMemory => {
            Err(Fault::Run(RunFault::NoMemory))
        }
        Err(_) => {
            let text = "an argument is not valid UTF-8";
            let error = error_of(program(rt.alloc())?, ErrorKind::InvalidValue, text);
            Err(Fault::from(error?))
        }
    }
}

// Makes a request, and prints it as a line.
fn print_request<R: Print + AllocGlobal>(rt: &R, make: Make) -> Result<(), Fault> {
    let line = line_of(rt.alloc(), make)?;
    written(println!(rt; "{line}"))
}

// The octets of a request in hexadecimal.
fn line_of(alloc: Global, make: Make) -> Result<String, Fault> {
    match make.request(alloc) {
        Ok(request) => Ok(hex::encode(alloc, request.octets())?),
        Err(MakeFault::NoMemory) => Err(Fault::Run(RunFault::NoMemory)),
        Err(fault) => {
            let text = fault.to_string(alloc)?;
            Err(unfit(make_command(alloc)?, "radpool make", &text)?)
        }
    }
}

// What the words ask for.
fn task_of<'a, S: AsStr>(alloc: Global, words: &'a [S]) -> Result<Task<'a>, clap::Error> {
    match task_in(&matches_of(alloc, words)?) {
        Some(task) => Ok(task),
        // Not reached: clap requires a command, and gives each option that is required or has a default its value.
        None => {
            let kind = ErrorKind::MissingSubcommand;
            Err(error_of(program(alloc)?, kind, "expected a command")?)
        }
    }
}

fn matches_of<'a, S: AsStr>(alloc: Global, words: &'a [S]) -> Result<ArgMatches<'a>, clap::Error> {
    let mut program = program(alloc)?;
    program.try_get_matches_from_mut(words)
}

fn task_in<'a>(matches: &ArgMatches<'a>) -> Option<Task<'a>> {
    match matches.subcommand()? {
        ("replay", found) => Some(match found.get_str("state") {
            Some(path) => Task::Transcript(path),
            None => Task::Replay,
        }),
        ("make", found) => Some(Task::Make(make_in(found)?)),
        ("check", found) => Some(Task::Check(Check::given(found)?)),
        ("serve", found) => Some(Task::Serve(Serve::given(found)?)),
        ("accounting", found) => Some(Task::Print(Accounting::given(found)?)),
        ("state", found) => Some(Task::Close(folder_in(found)?)),
        _ => None,
    }
}

fn make_in<'a>(found: &ArgMatches<'a>) -> Option<Make<'a>> {
    Some(Make {
        kind: Kind::named(found.get_str("kind")?)?,
        secret: found.get_str("secret")?,
        id: found.get_one::<u8>("id")?,
        user: found.get_str("user"),
        password: found.get_str("password"),
        chap: found.get_one::<u8>("chap"),
        status: found.get_one::<u32>("status")?,
        random: found.get_str("random")?,
        extra: found.get_str("extra")?,
        mac: found.get_flag("mac"),
    })
}

// The whole command line.
fn program<'a>(alloc: Global) -> Result<Command<'a>, AllocError> {
    Command::new(alloc, "radpool")
        .about("A RADIUS server that answers over UDP or replays a transcript of datagrams")
        .version(VERSION)
        .after_help(PROGRAM_EXAMPLES)
        .subcommand_required(true)
        .arg_required_else_help(true)
        .disable_help_subcommand(true)
        .subcommand(replay_command(alloc)?)?
        .subcommand(make_command(alloc)?)?
        .subcommand(check_command(alloc)?)?
        .subcommand(serve_command(alloc)?)?
        .subcommand(accounting_command(alloc)?)?
        .subcommand(state_command(alloc)?)
}

fn replay_command<'a>(alloc: Global) -> Result<Command<'a>, AllocError> {
    let command = Command::new(alloc, "replay")
        .about(
            "Answers the datagrams of a transcript on standard input, and prints one line for each",
        )
        .after_help(REPLAY_EXAMPLE);
    with_options(alloc, command, REPLAY_OPTIONS)
}

fn make_command<'a>(alloc: Global) -> Result<Command<'a>, AllocError> {
    let command = Command::new(alloc, "make")
        .about("Prints a request as one line of hexadecimal")
        .after_help(MAKE_EXAMPLES);
    with_options(alloc, command, MAKE_OPTIONS)?.arg(
        Arg::new(alloc, "mac")
            .long("mac")
            .action(ArgAction::SetTrue)
            .help(
                "Begins an Access-Request with a Message-Authenticator; a Status-Server always has one",
            ),
    )
}
