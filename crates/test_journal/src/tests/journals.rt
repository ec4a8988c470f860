//! What a journal has after a crash, and what it doesn't keep.
use super::entries::{commit, has};
use super::holds;
use super::stores::opened;
use rad_auth::Door::{Acct, Auth};
use rad_journal::{JournalFault, NoJournal, Reopen};
use std::alloc::Global;
use std::test::Fail;

// Whether a crash leaves what was kept, and what is kept then comes after it.
fn outlives_a_crash<J: Reopen + Drop>(alloc: Global, journal: J) -> Result<bool, JournalFault> {
    let mut journal = journal;
    commit(alloc, &mut journal, &[(Auth, 5), (Acct, 9)])?;
    journal.crash_and_reopen(alloc)?;
    commit(alloc, &mut journal, &[])?;
    commit(alloc, &mut journal, &[(Auth, 5)])?;
    has(alloc, &mut journal, &[(Auth, 5), (Acct, 9), (Auth, 5)])
}

#[test]
fn a_crash_leaves_what_was_kept(rt: HostRuntime) -> Result<(), Fail> {
    let alloc = rt.alloc();
    let is_right = outlives_a_crash(alloc, opened(alloc)?) == Ok(true);
    holds(&rt, is_right, "three entries, in their order");
    Ok(())
}

// Whether nothing is kept of entries one of which has a moment of 2 ^ 63, and the journal is of no use until it is opened again.
fn refuses_a_late_moment<J: Reopen + Drop>(
    alloc: Global,
    journal: J,
) -> Result<bool, JournalFault> {
    let mut journal = journal;
    let is_refused = commit(alloc, &mut journal, &[(Auth, 5), (Auth, 1 << 63)])
        == Err(JournalFault::Full)
        && commit(alloc, &mut journal, &[]) == Err(JournalFault::Disk);
    journal.crash_and_reopen(alloc)?;
    Ok(is_refused && has(alloc, &mut journal, &[])?)
}

#[test]
fn a_time_out_of_range_is_not_kept(rt: HostRuntime) -> Result<(), Fail> {
    let alloc = rt.alloc();
    let is_right = refuses_a_late_moment(alloc, opened(alloc)?) == Ok(true);
    holds(&rt, is_right, "it is full, and then the disk failed");
    Ok(())
}

// Whether a journal has nothing after a commit and a crash.
fn forgets<J: Reopen>(alloc: Global, journal: &mut J) -> Result<bool, JournalFault> {
    commit(alloc, journal, &[(Auth, 5)])?;
    journal.crash_and_reopen(alloc)?;
    has(alloc, journal, &[])
}

#[test]
fn no_journal_keeps_nothing(rt: HostRuntime) {
    let is_right = forgets(rt.alloc(), &mut NoJournal) == Ok(true);
    holds(&rt, is_right, "no entry");
}
