//! Generations that are written in a trial, and what is read of them.
ghost use Rattle.std.specs.Prelude.{◌≡◌, true, Ok};
ghost use Rattle.sqlite_trees.specs.View.{IsClean};
ghost use Rattle.rad_config.specs.Configurations.{configuration_of_octets};
ghost use Rattle.rad_journal.specs.Stores.{IsFresh};
ghost use Rattle.rad_state.specs.Fits.{Fits};

use crate::journals::has_all;
use crate::servers::busy;
use crate::stores::{kept_of, meta, two_exchanges, with_tables};
use crate::trial::{HASH_KEY, Verdict};
use rad_config::Config;
use rad_journal::{Journal, Kept};
use rad_server::Server;
use rad_state::{Meta, OpenFault, State};
use sqlite_trees::store::Store;
use std::alloc::Global;

/// What a generation is written with: its meta, the server at which it begins, and its entries.
#[derive(Drop)]
pub(crate) struct Written<'c> {
    pub meta: Meta,
    pub server: Server<'c>,
    pub kept: Vec<Kept>,
    ghost text: { configuration_of_octets meta.configuration ≡ Ok server.configuration },
    ghost fits: { Fits meta true },
}

impl<'c> Written<'c> {
    /// A busy server of the configuration that the text says, and two entries.
    pub fn ready(alloc: Global, text: &[u8], config: &'c Config) -> Option<Written<'c>>
        requires { configuration_of_octets text.now ≡ Ok config.now }
    {
        let book = two_exchanges(alloc, config)?;
        let kept = kept_of(alloc, &book)?;
        let server = busy(alloc, config)?;
        let Ok(meta) = meta(alloc, text) else {
            return None;
        };
        Some(Written { meta, server, kept })
    }
}

/// Whether a store that was just opened has a generation with this meta, which begins at this server, and these entries.
pub(crate) fn has_generation<S: Store + Drop>(
    alloc: Global,
    store: S,
    written: &Written,
    kept: &[Kept],
) -> Result<bool, OpenFault>
    requires { IsClean (S.view store) → IsFresh (S.view store) }
{
    let Some(store) = with_tables(store) else {
        return Ok(false);
    };
    let state = State::open(alloc, store)?;
    let is_meta = is_meta(state.found(), &written.meta);
    let (server, mut journal) = state.into_parts(alloc, written.server.config(), HASH_KEY)?;
    Ok(is_meta && are_parts(alloc, &server, &mut journal, &written.server, kept))
}

/// Whether a server is this one, and a journal has these entries.
pub(crate) fn are_parts<J: Journal>(
    alloc: Global,
    found: &Server,
    journal: &mut J,
    server: &Server,
    kept: &[Kept],
) -> bool {
    found.same(server) && has_all(alloc, journal, kept)
}

/// Whether this meta was found.
pub(crate) fn is_meta(found: Option<&Meta>, meta: &Meta) -> bool {
    match found {
        Some(found) => {
            found.format == meta.format
                && found.rules == meta.rules
                && found.configuration.octets() == meta.configuration.octets()
                && found.boot == meta.boot
                && found.zero == meta.zero
                && found.wall == meta.wall
        }
        None => false,
    }
}

/// How a call is judged that gave what it must, or something else, or a fault.
pub(crate) fn judge_ended(ended: Result<bool, OpenFault>) -> Verdict {
    match ended {
        Ok(is_right) => Verdict::of(is_right),
        Err(OpenFault::NoMemory) => Verdict::Refused,
        Err(_) => Verdict::Fault,
    }
}
