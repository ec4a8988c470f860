//! The command `accounting`: what the closed generations of a state have recorded, as lines for other programs.
use crate::fault::{Fault, StateFault, report, unfit};
use crate::generation_names::asking_of;
use crate::listed::Listed;
use crate::options::{Absent, TEXT, Valued, text_of, with_options};
use crate::state_files::{CopiedStore, copy_store};
use crate::state_folder::{is_there, remove_if_there};
use crate::transcript_command::write;
use clap::builder::ValueParser;
use clap::{Arg, ArgAction, ArgMatches, Command};
use rad_export::{Format, Wanted, moment_of};
use rad_journal::Register;
use rad_serve::ServeError;
use rad_state::OpenFault;
use rad_text::decimal;
use sqlite_trees::error::StoreError;
use sqlite_trees::store::{Direction, Store};
use sqlite_value::row::Row;
use std::alloc::{AllocError, AllocGlobal, Global};
use std::fs::OpenOptions;
use std::io::{self, Write};
use std::os::unix::fs::OpenOptionsExt;
use std::process::ExitCode;
use std::time::{Clock, Duration};

const ACCOUNTING_EXAMPLES: &str = "\
It reads each generation but the newest, to which a server may still write; with --close the server begins another one first.

Examples:
  radpool accounting /var/lib/radpool --since 2026-11-01 --until 2026-12-01
  radpool accounting /var/lib/radpool --close --address 10.20.0.7 --format csv";

/// So many octets are written at once, or a few more.
const CHUNK: usize = 65_536;

/// How often it is looked whether a server has begun a generation, and after how many milliseconds.
const LOOKS: u32 = 600;

const LOOK: u64 = 100;

/// How often a generation is copied at most, whose log the server copies into it meanwhile.
const COPIES: u32 = 5;

const NAME: &str = "radpool accounting";

const BAD_TIME: &str =
    "invalid value for '--since <TIME>' or '--until <TIME>': expected a time as 2026-11-29T08:15:00Z, or a date";

const BAD_ADDRESS: &str = "invalid value for '--address <ADDRESS>': expected an IPv4 address";

const ACCOUNTING_OPTIONS: &[Valued] = &[
    Valued {
        name: "since",
        value: "TIME",
        help: "The first time, as 2026-11-29T08:15:00Z, or the beginning of a date in UTC [default: the first]",
        absent: Absent::Nothing,
        parser: TEXT,
    },
    Valued {
        name: "until",
        value: "TIME",
        help: "The time before which it ends [default: none]",
        absent: Absent::Nothing,
        parser: TEXT,
    },
    Valued {
        name: "user",
        value: "NAME",
        help: "Of this User-Name alone",
        absent: Absent::Nothing,
        parser: TEXT,
    },
    Valued {
        name: "address",
        value: "ADDRESS",
        help: "Of this Framed-IP-Address alone",
        absent: Absent::Nothing,
        parser: TEXT,
    },
    Valued {
        name: "format",
        value: "FORMAT",
        help: "JSON or CSV",
        absent: Absent::Value("json"),
        parser: ValueParser::Names(&["json", "csv"]),
    },
];

/// What is to be printed, as it is given.
#[derive(Clone, Copy)]
pub struct Accounting<'a> {
    folder: &'a str,
    since: Option<&'a str>,
    until: Option<&'a str>,
    user: Option<&'a str>,
    address: Option<&'a str>,
    format: &'a str,
    closes: bool,
}

/// What is to be printed: the records of a state, those that are wanted, in a format.
#[derive(Drop)]
pub struct Printing {
    folder: String,
    since: Option<i64>,
    until: Option<i64>,
    user: Option<String>,
    address: Option<u32>,
    format: Format,
    closes: bool,
}

impl<'a> Accounting<'a> {
    /// What the matches of the command give.
    pub fn given(found: &ArgMatches<'a>) -> Option<Accounting<'a>> {
        Some(Accounting {
            folder: found.get_str("dir")?,
            since: found.get_str("since"),
            until: found.get_str("until"),
            user: found.get_str("user"),
            address: found.get_str("address"),
            format: found.get_str("format")?,
            closes: found.get_flag("close"),
        })
    }

    /// What is to be printed.
    pub fn printing(&self, alloc: Global) -> Result<Printing, Fault> {
        Ok(Printing {
            folder: self.folder.to_string(alloc)?,
            since: moment(alloc, self.since)?,
            until: moment(alloc, self.until)?,
            user: text_of(alloc, self.user)?,
            address: address(alloc, self.address)?,
            // `clap` has checked the name already.
            format: Format::named(self.format).unwrap_or(Format::Json),
            closes: self.closes,
        })
    }
}

// A time that was given, if one was.
fn moment(alloc: Global, text: Option<&str>) -> Result<Option<i64>, Fault> {
    let Some(text) = text else {
        return Ok(None);
    };
    match moment_of(text) {
        Some(moment) => Ok(Some(moment)),
        None => Err(unfit(accounting_command(alloc)?, NAME, BAD_TIME)?),
    }
}

// An address that was given, if one was.
fn address(alloc: Global, text: Option<&str>) -> Result<Option<u32>, Fault> {
    let Some(text) = text else {
        return Ok(None);
    };
    match decimal::address(text.as_bytes()) {
        Some(address) => Ok(Some(address)),
        None => Err(unfit(accounting_command(alloc)?, NAME, BAD_ADDRESS)?),
    }
}

/// Prints what the closed generations of a state have recorded, and returns the exit status.
pub fn run_accounting<R: Print + Eprint + AllocGlobal>(
    rt: &R,
    host: &HostRuntime,
    printing: &Printing,
) -> ExitCode {
    match try_print(rt, host, printing) {
        Ok(()) => ExitCode::SUCCESS,
        Err(fault) => report(rt, fault),
    }
}

fn try_print<R: Print + AllocGlobal>(
    rt: &R,
    host: &HostRuntime,
    printing: &Printing,
) -> Result<(), Fault> {
    if printing.closes {
        close(host, &printing.folder)?;
    }
    let mut listed = Listed::of(host, &printing.folder)?;
    let writer = &mut io::writer(rt);
    let mut head = Vec::new(rt.alloc());
    printing.format.push_head(&mut head)?;
    if let Err(fault) = write(writer, &head) {
        return Err(listed.fault_at(rt.alloc(), None, fault));
    }
    for _ in 1..listed.numbers.count() {
        let Some(number) = listed.numbers.oldest() else {
            break;
        };
        let path = listed.file(rt.alloc(), number)?;
        if let Err(fault) = print_generation(rt.alloc(), host, printing, (number, &path), writer) {
            return Err(listed.fault_at(rt.alloc(), Some(number), fault));
        }
        listed.forget(number);
    }
    Ok(())
}

// Asks the server that uses a folder for another generation, and waits until it has made one: then the file that asks is gone.
fn close(host: &HostRuntime, folder: &str) -> Result<(), Fault> {
    match try_close(host, folder) {
        Ok(()) => Ok(()),
        Err(fault) => Err(fault.at(folder.to_string(host.alloc())?)),
    }
}

fn try_close(host: &HostRuntime, folder: &str) -> Result<(), StateFault> {
    let asking = asking_of(host.alloc(), folder)?;
    OpenOptions::new()
        .write(true)
        .create(true)
        .mode(0o600)
        .open(host, &asking)?;
    for _ in 0..LOOKS {
        host.sleep(Duration::from_millis(LOOK));
        if !is_there(host, &asking)? {
            return Ok(());
        }
    }
    remove_if_there(host, &asking)?;
    Err(StateFault::Unanswered)
}

// A copy of a generation that is closed, unless it is removed meanwhile. Its log may be copied into its file just then.
fn copied(host: &HostRuntime, path: &str) -> Result<Option<CopiedStore>, StateFault> {
    let mut copied = copy_store(host, path);
    for _ in 1..COPIES {
        let Err(StateFault::Serve(ServeError::State(OpenFault::Damaged))) = &copied else {
            break;
        };
        host.sleep(Duration::from_millis(LOOK));
        copied = copy_store(host, path);
    }
    match copied {
        Ok(store) => Ok(Some(store)),
        Err(fault) if is_there(host, path)? => Err(fault),
        Err(_) => Ok(None),
    }
}

// Prints the records of the generation with this number, whose file has this path. One that a server removes meanwhile is passed
// over.
fn print_generation<W: Write>(
    alloc: Global,
    host: &HostRuntime,
    printing: &Printing,
    (number, path): (u32, &str),
    writer: &mut W,
) -> Result<(), StateFault> {
    match copied(host, path)? {
        Some(mut store) => printing.write_records(alloc, &mut store, number, writer),
        None => Ok(()),
    }
}

impl Printing {
    // Writes the lines of a generation's records that are wanted.
    fn write_records<S: Store, W: Write>(
        &self,
        alloc: Global,
        store: &mut S,
        generation: u32,
        writer: &mut W,
    ) -> Result<(), StateFault> {
        let wanted = Wanted {
            since: self.since,
            until: self.until,
            user: self.user.as_ref().map(|user| user.as_bytes()),
            address: self.address,
        };
        let mut row = Row::new(alloc);
        let mut text = Vec::new(alloc);
        let key = Row::new(alloc);
        store
            .seek(0, Register::Accounting.tree(), &key, Direction::Forward)
            .map_err(unread)?;
        for _ in 0..u32::MAX {
            if !store.next(0, &mut row).map_err(unread)? {
                break;
            }
            if wanted.takes(&row) {
                self.format.push_line(&mut text, generation, &row)?;
            }
            if text.len() >= CHUNK {
                write(writer, &text)?;
                text.clear();
            }
        }
        write(writer, &text)
    }
}

// Why a store couldn't be read.
fn unread(error: StoreError) -> StateFault {
    StateFault::from(OpenFault::from(error))
}

/// The command, with its options and the folder that it reads.
pub fn accounting_command<'a>(alloc: Global) -> Result<Command<'a>, AllocError> {
    let command = Command::new(alloc, "accounting")
        .about("Prints what the closed generations of a state have recorded, for other programs")
        .after_help(ACCOUNTING_EXAMPLES);
    let command = with_options(alloc, command, ACCOUNTING_OPTIONS)?.arg(
        Arg::new(alloc, "close")
            .long("close")
            .action(ArgAction::SetTrue)
            .help("Has the server begin another generation first, so that nothing is missing"),
    )?;
    command.arg(
        Arg::new(alloc, "dir")
            .value_name("DIR")
            .required(true)
            .help("The folder of the state, also while a server uses it"),
    )
}
