//! Why a run ended early, and how that is reported.

use clap::Command;
use clap::error::ErrorKind;
use rad_check::{Detail, UsersFault};
use rad_config::ConfigFault;
use rad_journal::{JournalFault, RestoreFault};
use rad_replay::RunFault;
use rad_serve::{Excess, GivenFault, HeldFault, ServeError, Unreadable};
use rad_shell::ServeFault;
use rad_state::OpenFault;
use sqlite_disk::is_no_room;
use sqlite_std_file::OpenError;
use std::alloc::AllocError;
use std::fmt::Display;
use std::fs::TryLockError;
use std::process::ExitCode;
use std::{fmt, io};

/// The status after a fault of the input, of a read or a write, or of memory.
const RUN_FAULT: u8 = 1;

/// The status after a fault of the command line.
const COMMAND_FAULT: u8 = 2;

/// Why a run ended without having done what was asked.
#[derive(Drop)]
pub enum Fault {
    /// The words are no command, or ask for help or the version.
    CommandLine(clap::Error),
    /// A command came to its fault, or memory was refused.
    Run(RunFault),
    /// Serving came to its fault.
    Serve(ServeError),
    /// A file that is to be served or checked can't be read. Why is a line of its own.
    Unreadable(Unreadable),
    /// A command came to its fault at this file or folder of a state. What may be done is a line of its own.
    State {
        path: String,
        fault: StateFault,
        advice: Option<String>,
    },
    /// The configuration has a fault. How many entries there are where there are too many is a line of its own.
    Config {
        fault: ConfigFault,
        detail: Detail,
        excess: Option<Excess>,
    },
    /// The file of users at this path has a fault.
    Users {
        path: String,
        fault: UsersFault,
    },
}

/// Why a state isn't served from, or no longer.
#[derive(Clone, Copy, Debug)]
pub enum StateFault {
    /// Its folder or its files can't be opened.
    Files(OpenError),
    /// A log is there that belongs to another file of this name.
    StrayLog,
    /// Serving came to its fault, or what was kept isn't answered as it was.
    Serve(ServeError),
    /// A transcript of it couldn't be read.
    Divided,
    /// What was asked for can't be written.
    Write,
    /// No server began a generation that was asked for.
    Unanswered,
}

impl StateFault {
    /// The fault, which names this file or folder of the state where it is about that.
    pub fn at(self, path: String) -> Fault {
        match self {
            StateFault::Files(OpenError::OutOfMemory)
            | StateFault::Serve(ServeError::OtherConfig(ConfigFault::NoMemory)) => {
                Fault::Run(RunFault::NoMemory)
            }
            StateFault::Write => Fault::Run(RunFault::Write),
            StateFault::Serve(
                ServeError::State(_)
                | ServeError::OtherConfig(_)
                | ServeError::Restore(_)
                | ServeError::Rounds(ServeFault::Journal(_), _),
            )
            | StateFault::Files(_)
            | StateFault::StrayLog
            | StateFault::Unanswered
            | StateFault::Divided => Fault::State {
                path,
                fault: self,
                advice: None,
            },
            StateFault::Serve(error) => Fault::Serve(error),
        }
    }

    /// Whether a start found that the generation is damaged, or leads nowhere in this program.
    pub fn is_of_generation(self) -> bool {
        let StateFault::Serve(error) = self else {
            return false;
        };
        match error {
            ServeError::State(fault) => matches!(
                fault,
                OpenFault::Damaged | OpenFault::OtherFormat | OpenFault::Snapshot(_)
            ),
            ServeError::OtherConfig(fault) => fault != ConfigFault::NoMemory,
            ServeError::Restore(RestoreFault::NoMemory) => false,
            ServeError::Restore(RestoreFault::Journal(fault)) => fault == JournalFault::Damaged,
            ServeError::Restore(_) => true,
            _ => false,
        }
    }
}

impl fmt::Display for StateFault {
    fn fmt<W: fmt::Write>(&self, f: &mut fmt::Formatter<W>) -> fmt::Result {
        match self {
            StateFault::Files(OpenError::Busy) => {
                let fault = OpenFault::InUse;
                write!(f, "{fault}")
            }
            StateFault::Files(error) => write!(f, "{error}"),
            StateFault::StrayLog => {
                f.write_str("a file with the name of its log is there: move that away")
            }
            StateFault::Serve(error) => write!(f, "{error}"),
            StateFault::Divided => {
                f.write_str("its configuration has a line ---, so it has no transcript")
            }
            StateFault::Write => f.write_str("write failed"),
            StateFault::Unanswered => f.write_str("no server has begun a generation for a minute"),
        }
    }
}

impl From<OpenError> for StateFault {
    fn from(error: OpenError) -> StateFault {
        StateFault::Files(error)
    }
}

impl From<io::Error> for StateFault {
    fn from(error: io::Error) -> StateFault {
        match error.kind() {
            io::ErrorKind::OutOfMemory => StateFault::Files(OpenError::OutOfMemory),
            _ => StateFault::Files(OpenError::Io(error)),
        }
    }
}

impl From<AllocError> for StateFault {
    fn from(_error: AllocError) -> StateFault {
        StateFault::Files(OpenError::OutOfMemory)
    }
}

impl From<TryLockError> for StateFault {
    fn from(error: TryLockError) -> StateFault {
        match error {
            TryLockError::Error(error) => StateFault::from(error),
            TryLockError::WouldBlock => StateFault::Files(OpenError::Busy),
        }
    }
}

impl From<ServeError> for StateFault {
    fn from(error: ServeError) -> StateFault {
        StateFault::Serve(error)
    }
}

impl From<OpenFault> for StateFault {
    fn from(fault: OpenFault) -> StateFault {
        StateFault::Serve(ServeError::State(fault))
    }
}

impl From<StateFault> for OpenFault {
    fn from(fault: StateFault) -> OpenFault {
        match fault {
            StateFault::Serve(ServeError::State(fault)) => fault,
            StateFault::Files(OpenError::Busy) => OpenFault::InUse,
            StateFault::Files(OpenError::OutOfMemory) => OpenFault::NoMemory,
            StateFault::Files(OpenError::Io(error)) if is_no_room(&error) => OpenFault::NoRoom,
            _ => OpenFault::Disk,
        }
    }
}

impl From<HeldFault> for Fault {
    fn from(fault: HeldFault) -> Fault {
        Fault::Serve(ServeError::Held(fault))
    }
}

impl From<ServeError> for Fault {
    fn from(error: ServeError) -> Fault {
        Fault::Serve(error)
    }
}

impl From<GivenFault> for Fault {
    fn from(fault: GivenFault) -> Fault {
        match fault {
            GivenFault::NoMemory => Fault::Run(RunFault::NoMemory),
            GivenFault::Unreadable(unreadable) => Fault::Unreadable(unreadable),
            GivenFault::Config(fault, excess) => Fault::Config {
                fault,
                detail: Detail::Nothing,
                excess,
            },
            GivenFault::Users { path, fault } => Fault::Users { path, fault },
        }
    }
}

impl From<clap::Error> for Fault {
    fn from(error: clap::Error) -> Fault {
        if error.kind() == ErrorKind::OutOfMemory {
            Fault::Run(RunFault::NoMemory)
        } else {
            Fault::CommandLine(error)
        }
    }
}

impl From<AllocError> for Fault {
    fn from(_error: AllocError) -> Fault {
        Fault::Run(RunFault::NoMemory)
    }
}

impl From<RunFault> for Fault {
    fn from(fault: RunFault) -> Fault {
        Fault::Run(fault)
    }
}

/// What became of a write to standard output.
pub fn written(outcome: io::Result<()>) -> Result<(), Fault> {
    match outcome {
        Ok(()) => Ok(()),
        Err(_) => Err(Fault::Run(RunFault::Write)),
    }
}

/// Prints a fault on standard error, and returns the exit status.
pub fn report<R: Eprint>(rt: &R, fault: Fault) -> ExitCode {
    match fault {
        Fault::CommandLine(error) => {
            let _ = rt.eprint(&error);
            return ExitCode::from(COMMAND_FAULT);
        }
        Fault::Run(fault) => say(rt, fault),
        Fault::Serve(fault) => report_serving(rt, fault),
        Fault::Unreadable(unreadable) => {
            say(rt, &unreadable);
            say(rt, format_args!("{}: {}", unreadable.path, unreadable.why));
        }
        Fault::State {
            path,
            fault,
            advice,
        } => {
            say(rt, format_args!("{path}: {fault}"));
            say_if(rt, advice);
        }
        Fault::Config {
            fault,
            detail,
            excess,
        } => {
            say(rt, format_args!("{fault}{detail}"));
            say_if(rt, excess);
        }
        Fault::Users { path, fault } => say(rt, format_args!("{path}: {fault}")),
    }
    ExitCode::from(RUN_FAULT)
}

// Prints why serving ended, and on a line of its own what the system said.
fn report_serving<R: Eprint>(rt: &R, error: ServeError) {
    say(rt, error);
    match error {
        ServeError::Bind(unbound) => say(rt, unbound),
        ServeError::Rounds(_, broken) => say_if(rt, broken),
        _ => {}
    }
}

// Prints a line, if there is one.
fn say_if<R: Eprint, D: Display + Drop>(rt: &R, line: Option<D>) {
    if let Some(line) = line {
        say(rt, line);
    }
}

// Prints a line on standard error. Nobody has to read it.
fn say<R: Eprint, D: Display + Drop>(rt: &R, line: D) {
    let _ = eprintln!(rt; "radpool: {line}");
}

/// A fault of an option that doesn't fit, reported as clap reports those that it finds. The report has this name for the command.
pub fn unfit<'a>(command: Command<'a>, name: &'a str, text: &str) -> Result<Fault, AllocError> {
    let command = command.bin_name(name)?;
    Ok(Fault::from(error_of(command, ErrorKind::ValueValidation, text)?))
}

/// An error of a command, with this text.
pub fn error_of(command: Command, kind: ErrorKind, text: &str) -> Result<clap::Error, AllocError> {
    let mut command = command;
    command.error(kind, text)
}
