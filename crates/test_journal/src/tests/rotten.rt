//! Journals in files of which one octet is rotten.
use super::disks::{File, rotten};
use super::entries::{COMMITS, commit, has};
use super::holds;
use rad_journal::{Journal, JournalFault};
use std::alloc::Global;

/// How many octets of a file are tried, and how far each is from the next, so that one is in each page.
const OCTETS: usize = 24;

const STEP: usize = 500;

// Whether a journal gives what was kept, after each commit.
fn serves<J: Journal + Drop>(alloc: Global, journal: J) -> Result<bool, JournalFault> {
    let mut journal = journal;
    for (added, kept) in COMMITS.iter() {
        commit(alloc, &mut journal, added)?;
        if !has(alloc, &mut journal, kept)? {
            return Ok(false);
        }
    }
    Ok(true)
}

fn serves_beside(alloc: Global, file: File, at: usize) -> Result<bool, JournalFault> {
    match rotten(alloc, file, at) {
        Ok(journal) => serves(alloc, journal),
        Err(fault) => Err(fault),
    }
}

// Whether all entries are right beside each rotten octet of a file, or else damage is told, which it is beside some.
fn tells_damage(alloc: Global, file: File) -> bool {
    let mut is_told = false;
    for i in 0..OCTETS {
        match serves_beside(alloc, file, i * STEP) {
            Ok(true) => {}
            Err(JournalFault::Damaged) => is_told = true,
            _ => return false,
        }
    }
    is_told
}

#[test]
fn a_rotten_page_is_damage(rt: HostRuntime) {
    const ROWS: &[(File, &str)] = &[
        (File::Log, "the log is rotten"),
        (File::Db, "the database's file is rotten"),
    ];
    for (file, what) in ROWS.iter() {
        holds(&rt, tells_damage(rt.alloc(), *file), what);
    }
}
