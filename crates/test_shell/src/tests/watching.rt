//! What a watcher of turns sees.
use rad_shell::{Outcome, Service, Turn, Watch};

/// The sums of what a watcher saw, and the last turn's clock and failures.
#[derive(Clone, Copy, Debug, PartialEq, Eq)]
pub struct Seen {
    pub received: usize,
    pub made: usize,
    pub lost: usize,
    pub arrivals: usize,
    pub replies: usize,
    pub entries: usize,
    pub clock: u64,
    pub faults: u64,
}

/// Nothing yet.
pub const UNSEEN: Seen = Seen {
    received: 0,
    made: 0,
    lost: 0,
    arrivals: 0,
    replies: 0,
    entries: 0,
    clock: 0,
    faults: 0,
};

impl Watch for Seen {
    fn received(&mut self) {
        self.received = self.received.saturating_add(1);
    }

    fn see(&mut self, turn: &Turn) {
        let outcomes = turn.done.outcomes.as_slice();
        let replies = outcomes.iter().filter(|outcome| is_reply(outcome)).count();
        self.made = self.made.saturating_add(1);
        self.arrivals = self.arrivals.saturating_add(turn.arrivals.len());
        self.replies = self.replies.saturating_add(replies);
        self.entries = self.entries.saturating_add(turn.done.history.len());
        self.clock = turn.service.server().clock();
        self.faults = turn.faults;
    }

    fn lost(&mut self, _service: &Service, _datagrams: usize) {
        self.lost = self.lost.saturating_add(1);
    }
}

fn is_reply(outcome: &Outcome) -> bool {
    matches!(outcome, Outcome::Reply(_))
}
