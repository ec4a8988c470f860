//! The entries of a state as a transcript: the command `replay --state`.
ghost use Rattle.sqlite_trees.specs.View.{IsClean};
ghost use Rattle.rad_state.specs.Stores.{IsOpened};

use crate::fault::{Fault, StateFault, report};
use crate::state_files::open_store;
use rad_auth::Arrival;
use rad_config::read_configuration;
use rad_journal::{Journal, Kept, restore};
use rad_replay::{draw_needed, push_datagram_text};
use rad_serve::ServeError;
use rad_server::{HashKey, Server};
use rad_state::{OpenFault, State};
use rad_text::lines::divide;
use sqlite_trees::store::Store;
use std::alloc::{AllocError, AllocGlobal, Global};
use std::io::{self, Write};
use std::process::ExitCode;

/// What a transcript says of a generation that begins with sessions, replies or challenges, or after some.
const SNAPSHOT: &[u8] =
    b"# This generation begins with a snapshot, which no transcript has: a replay may answer otherwise.\n";

/// Writes the entries of a generation that nobody has open as a transcript, and returns the exit status.
///
/// Each is answered again first, and its answer compared with the one that was kept.
pub fn run_transcript<R: Print + Eprint + AllocGlobal>(
    rt: &R,
    host: &HostRuntime,
    path: String,
) -> ExitCode {
    match write_file(rt, host, &path) {
        Ok(()) => ExitCode::SUCCESS,
        Err(fault) => report(rt, fault.at(path)),
    }
}

fn write_file<R: Print + AllocGlobal>(
    rt: &R,
    host: &HostRuntime,
    path: &str,
) -> Result<(), StateFault> {
    let store = open_store(host, path)?;
    write_transcript(rt.alloc(), store, &mut io::writer(rt))
}

fn write_transcript<S: Store + Drop, W: Write>(
    alloc: Global,
    store: S,
    writer: &mut W,
) -> Result<(), StateFault>
    requires { IsClean (S.view store) → IsOpened (S.view store) }
{
    let state = State::open(alloc, store)?;
    let text = text_of(alloc, &state)?;
    if divide(&text).is_some() {
        return Err(StateFault::Divided);
    }
    let config = read_configuration(alloc, &text).map_err(ServeError::OtherConfig)?;
    let (mut server, mut journal) = state.into_parts(alloc, &config, HashKey::KNOWN)?;
    let is_first = has_nothing(&server);
    restore(alloc, &mut journal, &mut server).map_err(ServeError::Restore)?;
    write(writer, &text)?;
    write(writer, b"\n---\n")?;
    if !is_first {
        write(writer, SNAPSHOT)?;
    }
    write_entries(alloc, &mut journal, writer)
}

// The text of the configuration of a state.
fn text_of<S: Store + Drop>(alloc: Global, state: &State<S>) -> Result<Vec<u8>, StateFault> {
    match state.found() {
        Some(meta) => Ok(Vec::from_slice(alloc, meta.configuration.octets())?),
        None => Err(StateFault::from(OpenFault::Damaged)),
    }
}

// Whether a server answers as one that has just opened.
fn has_nothing(server: &Server) -> bool {
    let mut replies = server.recent().rows();
    server.sessions().last() == 0 && server.challenges().last() == 0 && replies.next().is_none()
}

fn write_entries<J: Journal, W: Write>(
    alloc: Global,
    journal: &mut J,
    writer: &mut W,
) -> Result<(), StateFault> {
    for place in 0..u32::MAX {
        let Some(kept) = journal.entry(alloc, place).map_err(OpenFault::from)? else {
            return Ok(());
        };
        let line = line_of(alloc, &kept).map_err(OpenFault::from)?;
        write(writer, &line)?;
    }
    Ok(())
}

// The line of an entry.
fn line_of(alloc: Global, kept: &Kept) -> Result<Vec<u8>, AllocError> {
    let arrival = Arrival {
        source: kept.source,
        port: kept.port,
        door: kept.door,
        octets: kept.octets.octets(),
    };
    let mut line = Vec::new(alloc);
    push_datagram_text(&mut line, kept.moment, draw_of(kept), &arrival)?;
    line.push(b'\n')?;
    Ok(line)
}

// The draw that its line needs. The Code of the reply is its first octet.
fn draw_of(kept: &Kept) -> Option<[u8; 16]> {
    let code = kept.answer.octets().first()?;
    draw_needed(*code, kept.draw)
}

/// Writes octets.
pub fn write<W: Write>(writer: &mut W, octets: &[u8]) -> Result<(), StateFault> {
    match writer.write_all(octets) {
        Ok(()) => Ok(()),
        Err(_) => Err(StateFault::Write),
    }
}
