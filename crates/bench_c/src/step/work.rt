//! What is measured.
ghost use Rattle.std.specs.Prelude.{◌≤◌};
ghost use Rattle.rad_config.specs.Spans.{moment_max};

use crate::step::requests::Kind;
use rad_config::MOMENT_MAX;

/// The draw of each step.
pub(crate) const DRAW: [u8; 16] = [0; 16];

/// What is measured, and the tables that the server has before it.
#[repr(C)]
#[derive(Clone, Copy)]
pub struct Work {
    /// Which `Kind` the requests are of.
    pub kind: u32,
    /// How many sessions there are, and how many kept replies.
    pub rows: usize,
    /// How many challenges wait. They are as old as the first sessions.
    pub challenges: usize,
    /// How many of the sessions are of users without a pool. They are the oldest, and the others are of users with one.
    pub plain: usize,
    /// The milliseconds that a row lives. In so many all rows come, the same time apart but for less than a millisecond.
    pub life: u64,
    /// How many steps are taken on each copy.
    pub steps: usize,
}

impl Work {
    /// The moment of the row at a place.
    pub fn moment_of_row(self, place: usize) -> u64
        ensures { result ≤ moment_max }
    {
        (self.life.saturating_mul(place as u64) / (self.rows as u64).max(1)).min(MOMENT_MAX)
    }

    /// The moment of a step. Steps go on where the rows end.
    pub fn moment_of_step(self, step: usize) -> u64
        ensures { result ≤ moment_max }
    {
        self.moment_of_row(self.rows.saturating_add(step))
    }

    /// The place whose port, Identifier and user the request of a step has: that of the row that goes at the step, or of the last
    /// row if its request is repeated.
    pub fn place(self, step: usize) -> usize {
        match Kind::of(self.kind) {
            Kind::Repeat => self.rows.saturating_sub(1),
            _ => step,
        }
    }

    /// The number of the session or the challenge that the request of a step means: the youngest first.
    pub fn number(self, step: usize) -> u64 {
        let last = match Kind::of(self.kind) {
            Kind::Answer => self.challenges,
            _ => self.rows,
        };
        last.saturating_sub(step) as u64
    }
}
