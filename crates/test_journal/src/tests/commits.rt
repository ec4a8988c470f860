//! Commits to disks that fail at each call in turn.
use super::disks::{File, failing};
use super::entries::{Brief, COMMITS, commit, has};
use super::holds;
use rad_journal::{JournalFault, Reopen};
use std::alloc::Global;

/// More calls than a trial makes.
const CALLS_MAX: u64 = 1000;

/// How a trial ends.
#[derive(Clone, Copy)]
enum End {
    /// The journal isn't made, since the disk failed.
    Unmade,
    /// A commit fails, and the next one too, and a crash leaves what was kept before, or that and all that it adds.
    Failed,
    /// Each commit succeeds, and a crash leaves all.
    Whole,
    /// Another.
    Wrong,
}

// Whether a crash leaves either.
fn leaves<J: Reopen>(alloc: Global, journal: &mut J, before: &[Brief], after: &[Brief]) -> bool {
    journal.crash_and_reopen(alloc).is_ok()
        && (has(alloc, journal, before) == Ok(true) || has(alloc, journal, after) == Ok(true))
}

// Whether it is so of a commit that failed with this fault.
fn fails_rightly<J: Reopen>(
    alloc: Global,
    journal: &mut J,
    fault: JournalFault,
    before: &[Brief],
    after: &[Brief],
) -> bool {
    fault == JournalFault::Disk
        && commit(alloc, journal, after) == Err(JournalFault::Disk)
        && leaves(alloc, journal, before, after)
}

fn end_of<J: Reopen + Drop>(alloc: Global, journal: J) -> End {
    let mut journal = journal;
    let mut kept: &[Brief] = &[];
    for (added, after) in COMMITS.iter() {
        if let Err(fault) = commit(alloc, &mut journal, added) {
            return match fails_rightly(alloc, &mut journal, fault, kept, after) {
                true => End::Failed,
                false => End::Wrong,
            };
        }
        kept = after;
    }
    match leaves(alloc, &mut journal, kept, kept) {
        true => End::Whole,
        false => End::Wrong,
    }
}

fn try_commits(alloc: Global, file: File, calls: u64) -> End {
    match failing(alloc, file, calls) {
        Ok(journal) => end_of(alloc, journal),
        Err(JournalFault::Disk) => End::Unmade,
        Err(_) => End::Wrong,
    }
}

// Whether no trial ends wrongly in which a file passes no call on, one, and so on until all pass, and some fail in a commit.
fn is_right_at_each_call(alloc: Global, file: File) -> bool {
    let mut has_failed = false;
    for calls in 0..CALLS_MAX {
        match try_commits(alloc, file, calls) {
            End::Unmade => {}
            End::Failed => has_failed = true,
            End::Whole => return has_failed,
            End::Wrong => return false,
        }
    }
    false
}

#[test]
fn a_commit_that_fails_leaves_all_or_none(rt: HostRuntime) {
    const ROWS: &[(File, &str)] = &[
        (File::Log, "the log fails"),
        (File::Db, "the database's file fails"),
    ];
    for (file, what) in ROWS.iter() {
        holds(&rt, is_right_at_each_call(rt.alloc(), *file), what);
    }
}
