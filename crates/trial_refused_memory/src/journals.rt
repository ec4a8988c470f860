//! Calls of `rad_journal`: what is kept of exchanges, a journal over a store in memory, and a server restored from it.
ghost use Rattle.sqlite_trees.specs.View.{IsClean};
ghost use Rattle.rad_journal.specs.Stores.{IsFresh};

use crate::servers::unshared_entry;
use crate::stores::{WALL, are_same, kept_of, open_journal, state_with, two_exchanges};
use crate::trial::{Called, Time, Trial, Verdict, are_alike, judge, judge_anew, keep};
use rad_config::Config;
use rad_journal::{Journal, JournalFault, Kept, Reopen, RestoreFault, StoreJournal, restore};
use rad_server::{Book, Entry, Server};
use sqlite_trees::store::Store;
use std::alloc::Global;
use test_common::CAMPUS;

#[derive(Clone, Copy)]
pub(crate) enum Call {
    KeptOf,
    Keep,
    /// Nothing is fresh.
    KeepNothing,
    Open,
    Entry,
    Commit,
    Restore,
}

pub(crate) fn judge_call(alloc: Global, call: Call) -> Verdict {
    match Config::read(alloc, CAMPUS) {
        Ok(config) => judge_over(alloc, &config, call),
        Err(_) => Verdict::Unready,
    }
}

fn judge_over(alloc: Global, config: &Config, call: Call) -> Verdict {
    match two_exchanges(alloc, config) {
        Some(book) => judge_with_book(alloc, &book, call),
        None => Verdict::Unready,
    }
}

fn judge_with_book(alloc: Global, book: &Book, call: Call) -> Verdict {
    match kept_of(alloc, book) {
        Some(kept) => judge_with_kept(alloc, book, &kept, call),
        None => Verdict::Unready,
    }
}

fn judge_with_kept(alloc: Global, book: &Book, kept: &[Kept], call: Call) -> Verdict {
    match call {
        Call::KeptOf => judge(alloc, KeptTrial::ready(alloc)),
        Call::Keep => judge(alloc, Some(KeepTrial::new(alloc, book, [true, true]))),
        Call::KeepNothing => judge(alloc, Some(KeepTrial::new(alloc, book, [false, false]))),
        Call::Open => judge_anew(|time| try_open(alloc, book.server(), kept, time)),
        Call::Restore => judge_anew(|time| try_restore(alloc, book, kept, time)),
        Call::Entry => judge_anew(|time| try_journal(alloc, kept, false, time)),
        Call::Commit => judge_anew(|time| try_journal(alloc, kept, true, time)),
    }
}

/// What is kept of an entry of which nothing is shared.
#[derive(Drop)]
struct KeptTrial {
    alloc: Global,
    entry: Entry,
    given: Option<Kept>,
}

impl KeptTrial {
    fn ready(alloc: Global) -> Option<KeptTrial> {
        let entry = unshared_entry(alloc).ok()?;
        Some(KeptTrial {
            alloc,
            entry,
            given: None,
        })
    }
}

impl Trial for KeptTrial {
    fn copy(&self) -> Option<KeptTrial> {
        KeptTrial::ready(self.alloc)
    }

    fn is_like(&self, other: &KeptTrial) -> bool {
        are_alike(&self.given, &other.given, are_same) && self.entry.same(&other.entry)
    }

    fn call(&mut self) -> Called {
        match Kept::of(self.alloc, WALL, 0, &self.entry) {
            Ok(Some(kept)) => keep(&mut self.given, Ok(kept)),
            Ok(None) => Called::Failed,
            Err(_) => Called::Refused,
        }
    }
}

/// What is kept of two exchanges.
#[derive(Drop)]
struct KeepTrial<'b> {
    alloc: Global,
    history: &'b [Entry],
    // Whether each is fresh.
    marks: [bool; 2],
    given: Option<Vec<Kept>>,
}

impl<'b> KeepTrial<'b> {
    fn new(alloc: Global, book: &'b Book, marks: [bool; 2]) -> KeepTrial<'b> {
        KeepTrial {
            alloc,
            history: book.history(),
            marks,
            given: None,
        }
    }
}

impl<'b> Trial for KeepTrial<'b> {
    fn copy(&self) -> Option<KeepTrial<'b>> {
        Some(KeepTrial {
            alloc: self.alloc,
            history: self.history,
            marks: self.marks,
            given: None,
        })
    }

    fn is_like(&self, other: &KeepTrial) -> bool {
        are_alike(&self.given, &other.given, |given, other| {
            given.len() == other.len()
                && given
                    .iter()
                    .zip(other.iter())
                    .all(|(one, other)| are_same(one, other))
        })
    }

    fn call(&mut self) -> Called {
        if self.history.len() != 2 {
            return Called::Failed;
        }
        let kept = rad_journal::keep(self.alloc, WALL, 0, self.history, &self.marks);
        keep(&mut self.given, kept)
    }
}

// The journal of a generation with these entries is opened.
fn try_open(alloc: Global, server: &Server, kept: &[Kept], time: Time) -> Verdict {
    match state_with(alloc, server, kept) {
        Some(store) => open(alloc, store, kept, time),
        None => Verdict::Unready,
    }
}

fn open<S: Store + Drop>(alloc: Global, store: S, kept: &[Kept], time: Time) -> Verdict
    requires { IsClean (S.view store) → IsFresh (S.view store) }
{
    time.begin(alloc);
    let opened = StoreJournal::open(alloc, store);
    time.end(alloc);
    match opened {
        Ok(mut journal) => Verdict::of(has_all(alloc, &mut journal, kept)),
        Err(JournalFault::NoMemory) => Verdict::Refused,
        Err(_) => Verdict::Fault,
    }
}

/// Whether a journal has these entries, and no more.
pub(crate) fn has_all<J: Journal>(alloc: Global, journal: &mut J, kept: &[Kept]) -> bool {
    let Ok(count) = u32::try_from(kept.len()) else {
        return false;
    };
    has_from(alloc, journal, 0, kept) && matches!(journal.entry(alloc, count), Ok(None))
}

// Whether it has these entries from a place on.
fn has_from<J: Journal>(alloc: Global, journal: &mut J, first: u32, kept: &[Kept]) -> bool {
    let mut place = first;
    for one in kept {
        if !has(alloc, journal, place, one) {
            return false;
        }
        place = place.wrapping_add(1);
    }
    true
}

fn has<J: Journal>(alloc: Global, journal: &mut J, place: u32, kept: &Kept) -> bool {
    match journal.entry(alloc, place) {
        Ok(Some(entry)) => are_same(&entry, kept),
        _ => false,
    }
}

// A call on the journal with these two entries: they are committed once more, or the second one is read.
fn try_journal(alloc: Global, kept: &[Kept], is_commit: bool, time: Time) -> Verdict {
    match open_journal(alloc, kept) {
        Some(journal) if is_commit => commit(alloc, journal, kept, time),
        Some(journal) => read(alloc, journal, kept, time),
        None => Verdict::Unready,
    }
}

fn read<J: Journal + Drop>(alloc: Global, mut journal: J, kept: &[Kept], time: Time) -> Verdict {
    time.begin(alloc);
    let entry = journal.entry(alloc, 1);
    time.end(alloc);
    match (entry, kept.last()) {
        (Ok(Some(entry)), Some(kept)) => Verdict::of(are_same(&entry, kept)),
        (Err(JournalFault::NoMemory), _) if is_shut(alloc, &mut journal, kept) => Verdict::Refused,
        _ => Verdict::Other,
    }
}

/// A commit that is refused memory keeps nothing, and says nothing more until the journal is opened again.
fn commit<J: Reopen + Drop>(alloc: Global, mut journal: J, kept: &[Kept], time: Time) -> Verdict {
    time.begin(alloc);
    let committed = journal.commit(kept);
    time.end(alloc);
    match committed {
        Ok(()) => Verdict::of(has_twice(alloc, &mut journal, kept)),
        Err(JournalFault::NoMemory) => judge_refused(alloc, &mut journal, kept),
        Err(_) => Verdict::Fault,
    }
}

fn judge_refused<J: Reopen>(alloc: Global, journal: &mut J, kept: &[Kept]) -> Verdict {
    if !is_shut(alloc, journal, kept) || journal.crash_and_reopen(alloc).is_err() {
        return Verdict::Other;
    }
    if !has_all(alloc, journal, kept) {
        return Verdict::Changed;
    }
    if journal.commit(kept).is_err() || !has_twice(alloc, journal, kept) {
        return Verdict::Other;
    }
    Verdict::Refused
}

// Whether each call on a journal fails.
fn is_shut<J: Journal>(alloc: Global, journal: &mut J, kept: &[Kept]) -> bool {
    journal.commit(kept) == Err(JournalFault::Disk)
        && journal.commit(&[]) == Err(JournalFault::Disk)
        && matches!(journal.entry(alloc, 0), Err(JournalFault::Disk))
}

// Whether a journal has these two entries twice, and no more.
fn has_twice<J: Journal>(alloc: Global, journal: &mut J, kept: &[Kept]) -> bool {
    has_from(alloc, journal, 0, kept)
        && has_from(alloc, journal, 2, kept)
        && matches!(journal.entry(alloc, 4), Ok(None))
}

// A server is restored from the journal with these entries of a book.
fn try_restore(alloc: Global, book: &Book, kept: &[Kept], time: Time) -> Verdict {
    let Ok(mut server) = Server::open(alloc, book.server().config()) else {
        return Verdict::Unready;
    };
    match open_journal(alloc, kept) {
        Some(journal) => restore_from(alloc, journal, &mut server, book.server(), time),
        None => Verdict::Unready,
    }
}

// The server must be as this one.
fn restore_from<J: Journal + Drop>(
    alloc: Global,
    mut journal: J,
    server: &mut Server,
    whole: &Server,
    time: Time,
) -> Verdict {
    time.begin(alloc);
    let restored = restore(alloc, &mut journal, server);
    time.end(alloc);
    match restored {
        Ok(()) => Verdict::of(server.same(whole)),
        Err(RestoreFault::NoMemory | RestoreFault::Journal(JournalFault::NoMemory)) => {
            Verdict::Refused
        }
        Err(_) => Verdict::Fault,
    }
}
