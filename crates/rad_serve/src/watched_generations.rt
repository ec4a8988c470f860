//! Generations whose beginnings are told.
ghost use Rattle.std.specs.Prelude.{◌≡◌};

use crate::moments::Moments;
use crate::progress::Progress;
use crate::restored::MARK;
use crate::warner::Warner;
use crossbeam_channel::Sender;
use rad_journal::{Journal, JournalFault};
use rad_server::Server;
use rad_state::Generations;
use std::alloc::{AllocGlobal, Global};
use std::sync::Wait;
use std::time::Clock;

/// Generations of which it is told how long the server paused for each that began. Contracts see the generations.
#[derive(Drop)]
pub(crate) struct WatchedGenerations<'r, R, K> {
    pub generations: K,
    pub rt: &'r R,
    pub lines: Sender<Vec<u8>>,
    pub progress: &'r Progress,
}

impl<'r, R: Clock + Wait + AllocGlobal, K> WatchedGenerations<'r, R, K> {
    // Hands over a line, unless nobody can take it.
    fn tell(&self, paused: u64) {
        let warner = Warner {
            lines: &self.lines,
            progress: self.progress,
        };
        if let Ok(line) = format!(in self.rt.alloc();
            "{MARK}began a generation, paused {paused} ms\n"
        ) {
            warner.hand_over(self.rt, line);
        }
    }
}

impl<'r, R: Clock + Wait + AllocGlobal, J: Journal, K: Generations<J> + Drop> Generations<J>
    for WatchedGenerations<'r, R, K> {
    ghost may_leave = { λ watched. K.may_leave watched.generations };

    ghost has_base = { λ watched. K.has_base watched.generations };

    ghost configuration = { λ watched. K.configuration watched.generations };

    ghost is_clean = { λ watched. K.is_clean watched.generations };

    ghost reaches_back = { K.reaches_back };

    ghost is_alone = { K.is_alone };

    ghost configured = { λ watched. K.configured watched.generations };

    ghost leaves_base = { λ watched. K.leaves_base watched.generations };

    ghost stays = { λ watched. K.stays watched.generations };

    ghost keeps_base = { λ watched. K.keeps_base watched.generations };

    fn is_due(&self, journal: &J, clock: u64) -> bool {
        self.generations.is_due(journal, clock)
    }

    fn begin(
        &mut self,
        alloc: Global,
        journal: &mut J,
        server: &Server,
    ) -> Result<(), JournalFault> {
        let before = Moments::of_system().now(self.rt);
        let begun = self.generations.begin(alloc, journal, server);
        if begun.is_ok() {
            self.tell(Moments::of_system().now(self.rt).saturating_sub(before));
        }
        begun
    }
}
