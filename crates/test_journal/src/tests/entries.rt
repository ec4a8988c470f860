//! Entries as they are kept.

use rad_auth::Door;
use rad_auth::Door::{Acct, Auth};
use rad_journal::{Journal, JournalFault, Kept};
use rad_packet::Octets;
use std::alloc::{AllocError, Global};
use test_common::{CLIENT, PORT};

/// The door and the moment of an entry: the rest is the same, but for the wall time.
pub(crate) type Brief = (Door, u64);

const DRAW: [u8; 16] = [7; 16];

// So long that it takes more than a page of `disks`.
const REQUEST: &[u8; 600] = &[1; 600];

const ANSWER: &[u8; 1] = &[2];

// The entries of the commits.
const A: Brief = (Auth, 1);

const B: Brief = (Acct, 2);

const C: Brief = (Auth, 3);

const D: Brief = (Auth, 4);

const E: Brief = (Acct, 5);

const F: Brief = (Auth, 6);

/// Some commits: what each adds, and what is kept then.
pub(crate) const COMMITS: &[(&[Brief], &[Brief])] = &[
    (&[A], &[A]),
    (&[B, C, D], &[A, B, C, D]),
    (&[E, F], &[A, B, C, D, E, F]),
];

// The wall time of a moment.
fn wall(moment: u64) -> u64 {
    moment.wrapping_add(1_700_000_000_000)
}

// The session of an entry on the accounting port.
fn session(brief: Brief) -> Option<u64> {
    let (door, moment) = brief;
    match door {
        Acct => Some(moment),
        Auth => None,
    }
}

fn kept(alloc: Global, brief: Brief) -> Result<Kept, AllocError> {
    let (door, moment) = brief;
    Ok(Kept {
        wall: wall(moment),
        moment,
        client: 7,
        source: CLIENT,
        port: PORT,
        door,
        session: session(brief),
        draw: DRAW,
        octets: Octets::of(alloc, REQUEST)?,
        answer: Octets::of(alloc, ANSWER)?,
    })
}

fn is_kept(kept: &Kept, brief: Brief) -> bool {
    let (door, moment) = brief;
    kept.wall == wall(moment)
        && kept.moment == moment
        && kept.client == 7
        && kept.source == CLIENT
        && kept.port == PORT
        && kept.door == door
        && kept.session == session(brief)
        && kept.draw == DRAW
        && kept.octets.octets() == REQUEST.as_slice()
        && kept.answer.octets() == ANSWER.as_slice()
}

// Entries of these doors and moments.
fn entries(alloc: Global, briefs: &[Brief]) -> Result<Vec<Kept>, AllocError> {
    let mut entries = Vec::new(alloc);
    for brief in briefs {
        entries.push(kept(alloc, *brief)?)?;
    }
    Ok(entries)
}

/// Commits entries of these doors and moments.
pub(crate) fn commit<J: Journal>(
    alloc: Global,
    journal: &mut J,
    briefs: &[Brief],
) -> Result<(), JournalFault> {
    let entries = entries(alloc, briefs)?;
    journal.commit(&entries)
}

/// Whether a journal has the entries of these doors and moments, and no more.
pub(crate) fn has<J: Journal>(
    alloc: Global,
    journal: &mut J,
    briefs: &[Brief],
) -> Result<bool, JournalFault> {
    for place in 0..u32::MAX {
        let entry = journal.entry(alloc, place)?;
        match (&entry, briefs.get(place as usize)) {
            (Some(kept), Some(brief)) if is_kept(kept, *brief) => {}
            (None, None) => return Ok(true),
            _ => return Ok(false),
        }
    }
    Ok(false)
}
