//! A generation, written into a store and read back.
ghost use Rattle.sqlite_trees.specs.View.{IsClean};
ghost use Rattle.rad_state.specs.Stores.{IsBlank, IsOpened};

use rad_config::Config;
use rad_packet::Octets;
use rad_server::{HashKey, Server, StateRow};
use rad_state::{FORMAT, Meta, OpenFault, RULES, State, write_generation};
use sqlite_trees::store::Store;
use std::alloc::{AllocError, Global};

/// The text of its configuration.
pub(crate) const TEXT: &str = "window = 30\n";

/// The moment at which it begins, and the number of the last session then.
const CLOCK: u64 = 5000;

const LAST_SESSION: u64 = 7;

/// A server at which a generation begins.
pub(crate) fn server<'c>(alloc: Global, config: &'c Config) -> Option<Server<'c>> {
    let mut server = Server::open(alloc, config).ok()?;
    server.pass(CLOCK);
    server.restore(StateRow::LastSession(LAST_SESSION)).ok()?;
    Some(server)
}

/// A meta of the program's numbers.
pub(crate) fn meta(alloc: Global) -> Result<Meta, AllocError> {
    Ok(Meta {
        format: FORMAT,
        rules: RULES,
        configuration: Octets::of(alloc, TEXT.as_bytes())?,
        boot: [9; 16],
        zero: -5000,
        wall: 1_700_000_000_000,
    })
}

/// Whether a generation begins at a server in a blank store.
pub(crate) fn begins<S: Store>(alloc: Global, store: &mut S, server: &Server) -> bool
    requires { IsClean (S.view store.old) → IsBlank (S.view store.old) }
{
    match meta(alloc) {
        Ok(meta) => write_generation(alloc, store, &meta, server).is_ok(),
        Err(_) => false,
    }
}

/// What a store has that was just opened.
#[derive(Clone, Copy, Debug, PartialEq, Eq)]
pub(crate) enum Found {
    /// No generation.
    Nothing,
    /// The generation that begins at the server, whole and without entries.
    Whole,
    /// Another one.
    Other,
}

/// What a store has that was just opened, which may be a generation that begins at a server.
pub(crate) fn read_back<S: Store + Drop>(
    alloc: Global,
    store: S,
    server: &Server,
) -> Result<Found, OpenFault>
    requires { IsClean (S.view store) → IsOpened (S.view store) }
{
    let state = State::open(alloc, store)?;
    let Some(meta) = state.found() else {
        return Ok(Found::Nothing);
    };
    if !is_meta(meta) || state.last().is_some() {
        return Ok(Found::Other);
    }
    let (back, journal) = state.into_parts(alloc, server.config(), HashKey::KNOWN)?;
    if back.same(server) && journal.count() == Some(0) {
        return Ok(Found::Whole);
    }
    Ok(Found::Other)
}

// Whether a meta is the one that was written.
fn is_meta(meta: &Meta) -> bool {
    meta.format == FORMAT
        && meta.rules == RULES
        && meta.configuration.octets() == TEXT.as_bytes()
        && meta.boot == [9; 16]
        && meta.zero == -5000
        && meta.wall == 1_700_000_000_000
}
