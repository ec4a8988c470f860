//! A journal of which is told how far it has been read.
ghost use Rattle.std.specs.Prelude.{◌≡◌};

use crate::moments::Moments;
use rad_journal::{Journal, JournalFault, Kept};
use std::alloc::Global;
use std::time::Clock;

/// How long nothing is told, in milliseconds.
const SILENCE: u64 = 1_000;

/// A journal that prints how far it has been read, each second. Contracts see the journal.
#[derive(Drop)]
pub(crate) struct WatchedJournal<'r, R, J> {
    rt: &'r R,
    journal: J,
    // How many entries it has.
    count: u32,
    // When the last line was printed, or reading began.
    told_at: u64,
}

impl<'r, R: Clock, J: Journal + Drop> WatchedJournal<'r, R, J> {
    /// A journal with so many entries, none of which has been read.
    pub fn new(rt: &'r R, journal: J, count: u32) -> WatchedJournal<'r, R, J>
        ensures { result.journal ≡ journal }
    {
        WatchedJournal {
            rt,
            journal,
            count,
            told_at: Moments::of_system().now(rt),
        }
    }

    /// The journal itself.
    pub fn into_journal(self) -> J
        ensures { result ≡ self.entry.journal }
    {
        self.journal
    }
}

impl<'r, R: Clock + Eprint, J: Journal + Drop> WatchedJournal<'r, R, J> {
    // Tells how many entries have been read, unless a line was printed within the last second.
    fn tell(&mut self, entries: u32)
        ensures { self.new.journal ≡ self.old.journal }
    {
        let now = Moments::of_system().now(self.rt);
        if now.saturating_sub(self.told_at) < SILENCE {
            return;
        }
        self.told_at = now;
        let count = self.count;
        let _ = eprintln!(self.rt; "radpool: {entries} of {count} entries are restored");
    }
}

impl<'r, R: Clock + Eprint, J: Journal + Drop> Journal for WatchedJournal<'r, R, J> {
    ghost keeps = { J.keeps };

    ghost kept = { λ watched. J.kept watched.journal };

    ghost may_leave = { λ watched. J.may_leave watched.journal };

    ghost leaves_beside = { λ watched. J.leaves_beside watched.journal };

    ghost may_record = { λ watched. J.may_record watched.journal };

    ghost is_clean = { λ watched. J.is_clean watched.journal };

    ghost is_open = { λ watched. J.is_open watched.journal };

    ghost has_failed = { λ old new. J.has_failed old.journal new.journal };

    ghost records = { λ watched. J.records watched.journal };

    ghost recorded = { λ watched. J.recorded watched.journal };

    ghost settled = { λ watched. J.settled watched.journal };

    ghost stays = { λ watched. J.stays watched.journal };

    fn keeps(&self) -> bool {
        self.journal.keeps()
    }

    fn commit(&mut self, entries: &[Kept]) -> Result<(), JournalFault> {
        self.journal.commit(entries)
    }

    fn entry(&mut self, alloc: Global, place: u32) -> Result<Option<Kept>, JournalFault> {
        self.tell(place);
        self.journal.entry(alloc, place)
    }
}
