//! The command `serve`.
ghost use Rattle.std.specs.Prelude.{◌<◌, ℕ};

use crate::calls::make_calls;
use crate::given::Given;
use crate::life::{Configured, Life, Numbered, first, in_memory, newest_whole, over};
use crate::listening::{listen, try_ports};
use crate::options::Options;
use crate::progress::Progress;
use crate::reporter::{Reporter, now};
use crate::serve_error::ServeError;
use crate::udp_ports::UdpPorts;
use crate::warner::Warner;
use crate::watched_generations::WatchedGenerations;
use crate::writer::{Text, Writing, write_files, write_lines};
use crossbeam_channel::{Receiver, Sender, bounded};
use rad_check::push_warning;
use rad_journal::Journal;
use rad_shell::{Gate, OpenGate, Ports, ServeFault, Service, Turns, Unwatched, Watch};
use rad_state::{Folder, Generations, Keeping, State};
use rad_text::lines::divide;
use rad_watch::{FailedPort, Watcher};
use rand_chacha::ChaCha20Rng;
use rand_core::Rng;
use sqlite_trees::store::Store;
use std::alloc::{AllocGlobal, Global};
use std::net::Net;
use std::rt::Files;
use std::sync::Wait;
use std::thread::{JoinHandle, Scope, Threads};
use std::time::Clock;
use std::{mem, thread};

/// How many texts may wait for a thread that writes them.
const TEXTS_MAX: usize = 4;

/// Answers what comes to two UDP ports, in so many turns or on and on, and prints what they came to. Nothing outlives the process.
///
/// It prints a line when it listens, and another at the end. Nobody has to read them: a line that can't be written is left out. All
/// memory that turns can't do without is taken before the ports are bound or taken over.
pub fn serve<R: Files + Net + Clock + Print + Eprint + Threads + Wait + Sync + AllocGlobal>(
    rt: &R,
    options: &Options,
    given: Given,
) -> Result<(), ServeError> {
    let mut given = given;
    let served = serve_in_memory(rt, options, &mut given);
    print_warnings(rt, &given.warnings);
    served
}

/// The same, and what a later reply may rest on is kept in the files of a folder before a reply leaves.
///
/// The server goes on as the last one left it, as far as its configuration allows: with its sessions, kept replies and challenges,
/// at no earlier moment. At most `files_max` files are kept, but at least 2. `State`: a file holds nothing that this program can go
/// on from, or a call of the disk failed. `OtherConfig`, `Restore`: the newest generation doesn't lead to a server. `Clocks`: a
/// clock can't be read. At each of these what was kept is as it was.
pub fn serve_with_state<
    R: Files + Net + Clock + Print + Eprint + Threads + Wait + Sync + AllocGlobal,
    S: Store + Drop + Send,
    F: Folder<S> + Drop + Send,
>(rt: &R, options: &Options, given: Given, folder: F, files_max: u32) -> Result<(), ServeError> {
    let Given {
        text,
        config,
        seed,
        mut warnings,
    } = given;
    let configured = Configured {
        text: &text,
        config: &config,
        seed,
    };
    let served = serve_over(rt, options, configured, &mut warnings, folder, files_max);
    print_warnings(rt, &warnings);
    served
}

// They are still here if a fault came before it listens.
fn print_warnings<R: Eprint>(rt: &R, warnings: &str) {
    let _ = eprint!(rt; "{warnings}");
}

// What is alive at a `?` is dropped there, and each such drop is proved. So each function from here on opens one thing and lends it
// to the next: this one the server, which remembers nothing.
fn serve_in_memory<R: Files + Net + Clock + Print + Eprint + Threads + Wait + Sync + AllocGlobal>(
    rt: &R,
    options: &Options,
    given: &mut Given,
) -> Result<(), ServeError> {
    let Given {
        text,
        config,
        seed,
        warnings,
    } = given;
    let life = in_memory(rt.alloc(), config, *seed)?;
    serve_life(rt, options, life, text, warnings)
}

// Opens the newest generation of a folder, if there is one, and tries the ports before its entries are restored.
fn serve_over<
    R: Files + Net + Clock + Print + Eprint + Threads + Wait + Sync + AllocGlobal,
    S: Store + Drop + Send,
    F: Folder<S> + Drop + Send,
>(
    rt: &R,
    options: &Options,
    configured: Configured,
    warnings: &mut String,
    folder: F,
    files_max: u32,
) -> Result<(), ServeError> {
    let mut folder = folder;
    let newest = newest_whole(rt.alloc(), &mut folder)?;
    try_ports(rt, options)?;
    match newest {
        None => {
            let numbered = Numbered {
                folder,
                files_max,
                number: 0,
            };
            serve_first(rt, options, configured, warnings, numbered)
        }
        Some((number, newest)) => {
            let numbered = Numbered {
                folder,
                files_max,
                number,
            };
            serve_next(rt, options, configured, warnings, numbered, newest)
        }
    }
}

// Opens the server over a folder without a generation, and begins the first.
fn serve_first<
    R: Files + Net + Clock + Print + Eprint + Threads + Wait + Sync + AllocGlobal,
    S: Store + Drop + Send,
    F: Folder<S> + Drop + Send,
>(
    rt: &R,
    options: &Options,
    configured: Configured,
    warnings: &mut String,
    numbered: Numbered<F>,
) -> Result<(), ServeError>
    requires newest { (later : ℕ) → numbered.number < later → ¬ F.has numbered.folder later }
{
    let life = first(rt, numbered, configured)?;
    serve_life(rt, options, life, configured.text, warnings)
}

// Opens the server that the newest generation of a folder leads to, and begins the next.
fn serve_next<
    R: Files + Net + Clock + Print + Eprint + Threads + Wait + Sync + AllocGlobal,
    S: Store + Drop + Send,
    F: Folder<S> + Drop + Send,
>(
    rt: &R,
    options: &Options,
    configured: Configured,
    warnings: &mut String,
    numbered: Numbered<F>,
    newest: State<S>,
) -> Result<(), ServeError>
    requires newest { (later : ℕ) → numbered.number < later → ¬ F.has numbered.folder later }
{
    let (life, ended) = over(rt, numbered, newest, configured, warnings)?;
    // Its file is closed: others may read it now.
    drop(ended);
    serve_life(rt, options, life, configured.text, warnings)
}

// Opens what a recording begins with, if there are reports.
fn serve_life<
    R: Files + Net + Clock + Print + Eprint + Threads + Wait + Sync + AllocGlobal,
    J: Journal + Drop + Send,
    K: Generations<J> + Drop + Send,
>(
    rt: &R,
    options: &Options,
    life: Life<K, J>,
    text: &[u8],
    warnings: &mut String,
) -> Result<(), ServeError> {
    if options.reports.are_none() {
        print_warnings(rt, warnings);
        warnings.clear();
        return serve_unwatched(rt, options, life);
    }
    let head = head_of(rt.alloc(), options, text, warnings)?;
    serve_reporting(rt, options, life, head, warnings)
}

// With what a recording begins, if there is to be one: the text of the configuration, and the line that ends it. A text that has
// such a line can't be told from what follows it.
fn head_of(
    alloc: Global,
    options: &Options,
    text: &[u8],
    warnings: &mut String,
) -> Result<Option<Vec<u8>>, ServeError> {
    let Some(path) = &options.reports.record else {
        return Ok(None);
    };
    if divide(text).is_some() {
        push_warning(
            warnings,
            format_args!("cannot record to {path}: the configuration has a line ---"),
        );
        return Ok(None);
    }
    let mut head = Vec::from_slice(alloc, text)?;
    head.extend_from_slice(b"\n---\n")?;
    Ok(Some(head))
}

// Opens turns and ports without reports, and serves on this thread.
fn serve_unwatched<
    R: Net + Clock + Print + Threads + Wait + Sync + AllocGlobal,
    J: Journal + Drop,
    K: Generations<J> + Drop,
>(rt: &R, options: &Options, life: Life<K, J>) -> Result<(), ServeError> {
    let Life {
        mut service,
        mut random,
        moments,
        mut keeping,
    } = life;
    let mut turns = Turns::open(rt.alloc(), &mut random, &OpenGate, Unwatched)?;
    let mut ports = listen(rt, options, moments)?;
    serve_turns(
        rt,
        options,
        &mut service,
        &mut turns,
        &mut ports,
        &mut keeping,
    )
}

// Opens the watcher, and the channels to those who write.
fn serve_reporting<
    R: Files + Net + Clock + Print + Eprint + Threads + Wait + Sync + AllocGlobal,
    J: Journal + Drop + Send,
    K: Generations<J> + Drop + Send,
>(
    rt: &R,
    options: &Options,
    life: Life<K, J>,
    head: Option<Vec<u8>>,
    warnings: &mut String,
) -> Result<(), ServeError> {
    let reports = &options.reports;
    let moments = life.moments;
    let config = life.service.server().config();
    let watcher = Watcher::open(rt.alloc(), config, reports.log, now(rt, moments))?;
    let (lines, lines_end) = bounded(rt.alloc(), TEXTS_MAX)?;
    let (files, files_end) = bounded(rt.alloc(), TEXTS_MAX)?;
    let progress = Progress::new();
    let warned = lines.clone()?;
    let beginnings = lines.clone()?;
    let mut reporter = Reporter::new(rt, moments, watcher, (lines, files), &progress, reports);
    if let Some(head) = head {
        reporter.record_after(head);
    }
    let writing = Writing {
        lines: lines_end,
        files: files_end,
        warned,
        options,
        config,
        progress: &progress,
    };
    serve_reported(rt, life, reporter, writing, beginnings, warnings)
}

// Opens turns and ports with reports, and hands the warnings to those who write.
fn serve_reported<
    R: Files + Net + Clock + Print + Eprint + Threads + Wait + Sync + AllocGlobal,
    J: Journal + Drop + Send,
    K: Generations<J> + Drop + Send,
>(
    rt: &R,
    life: Life<K, J>,
    reporter: Reporter<R>,
    writing: Writing,
    beginnings: Sender<Vec<u8>>,
    warnings: &mut String,
) -> Result<(), ServeError> {
    let Life {
        mut service,
        mut random,
        moments,
        keeping,
    } = life;
    let options = writing.options;
    let turns = Turns::open(rt.alloc(), &mut random, &OpenGate, reporter)?;
    let ports = listen(rt, options, moments)?;
    if !warnings.is_empty() {
        let warnings = mem::replace(warnings, String::new(rt.alloc()));
        let warner = Warner {
            lines: &writing.warned,
            progress: writing.progress,
        };
        warner.hand_over(rt, warnings);
    }
    let serving = Serving {
        options,
        service: &mut service,
        turns,
        ports,
        lines: beginnings,
        progress: writing.progress,
    };
    serve_beside(rt, rt, serving, keeping, writing)
}

// What serves, on a thread of its own. At its end the reporter is dropped, which ends those who write.
#[derive(Drop)]
struct Serving<'s, 'c, R> {
    options: &'s Options,
    service: &'s mut Service<'c>,
    turns: Turns<'s, ChaCha20Rng, OpenGate, Reporter<'s, R>>,
    ports: UdpPorts<'s, R>,
    // For what is told of generations that begin.
    lines: Sender<Vec<u8>>,
    progress: &'s Progress,
}

impl<'s, 'c, R: Clock + Print + Threads + Wait + Sync + AllocGlobal> Serving<'s, 'c, R> {
    fn run<J: Journal + Drop, K: Generations<J> + Drop>(
        self,
        rt: &'s R,
        keeping: Keeping<K, J>,
    ) -> Result<(), ServeError> {
        let Serving {
            options,
            service,
            mut turns,
            mut ports,
            lines,
            progress,
        } = self;
        let mut keeping = Keeping {
            generations: WatchedGenerations {
                generations: keeping.generations,
                rt,
                lines,
                progress,
            },
            journal: keeping.journal,
        };
        let served = serve_turns(rt, options, service, &mut turns, &mut ports, &mut keeping);
        turns.watch().finish(service.server());
        served
    }
}

// Serves on one thread, writes lines on another, and files on this one: only here there is a handle for files. Only the thread that
// writes lines ever waits for standard error; if there is none, each of its texts is counted as unwritten.
fn serve_beside<
    R: Clock + Print + Eprint + Threads + Wait + Sync + AllocGlobal,
    F: Files + Wait + AllocGlobal,
    J: Journal + Drop + Send,
    K: Generations<J> + Drop + Send,
>(
    rt: &R,
    system: &F,
    serving: Serving<R>,
    keeping: Keeping<K, J>,
    writing: Writing,
) -> Result<(), ServeError> {
    let Writing {
        lines,
        files,
        warned,
        options,
        config,
        progress,
    } = writing;
    thread::scope(thread::scope_env(), rt, |scope| {
        // If there is no thread, the end that receives lines goes here, and nobody waits for it.
        if scope
            .spawn(move || write_lines(rt, &lines, progress))
            .is_err()
        {
            progress.count_unwritten();
        }
        let mut files = Some(files);
        let warner = Warner {
            lines: &warned,
            progress,
        };
        match start(scope, rt, serving, keeping, &mut files, warner) {
            Started::Beside(server) => {
                if let Some(files) = &files {
                    write_files(system, files, &options.reports, config, warner);
                }
                drop(warned);
                server.join(rt)
            }
            Started::Ended(served) => {
                drop(warned);
                served
            }
        }
    })
}

// What becomes of serving: it goes on on a thread of its own, or has ended on this one.
#[derive(Drop)]
enum Started {
    Beside(JoinHandle<Result<(), ServeError>>),
    Ended(Result<(), ServeError>),
}

// Serves on a thread of its own. If there is none, it serves on this one, and no files are written.
fn start<
    's,
    'c: 's,
    E,
    R: Clock + Print + Threads + Wait + Sync + AllocGlobal + 's,
    J: Journal + Drop + Send + 's,
    K: Generations<J> + Drop + Send + 's,
>(
    scope: &Scope<'s, E>,
    rt: &'s R,
    serving: Serving<'s, 'c, R>,
    keeping: Keeping<K, J>,
    files: &mut Option<Receiver<Text>>,
    warner: Warner,
) -> Started {
    match scope.spawn(move || serving.run(rt, keeping)) {
        Ok(server) => Started::Beside(server),
        Err(error) => {
            drop(files.take());
            warner.warn(
                rt,
                "cannot start a thread to serve on: no files are written",
            );
            Started::Ended((error.value)())
        }
    }
}

// Makes the calls, and prints what they came to.
fn serve_turns<
    R: Print + Threads + Wait + Sync,
    P: Ports,
    J: Journal,
    K: Generations<J>,
    D: Rng,
    G: Gate + Sync,
    W: Watch + Drop,
>(
    rt: &R,
    options: &Options,
    service: &mut Service,
    turns: &mut Turns<D, G, W>,
    ports: &mut P,
    keeping: &mut Keeping<K, J>,
) -> Result<(), ServeError> {
    match make_calls(rt, options, service, turns, ports, keeping) {
        Ok(served) => {
            let _ = println!(rt; "{served}");
            Ok(())
        }
        Err(fault) => Err(ServeError::Rounds(fault, failed_port(fault, ports))),
    }
}

// The port that failed, if that is the fault.
fn failed_port<P: Ports>(fault: ServeFault, ports: &P) -> Option<FailedPort> {
    match fault {
        ServeFault::Receive | ServeFault::Send => ports.last_failure().map(FailedPort),
        ServeFault::Mismatch | ServeFault::Journal(_) => None,
    }
}
