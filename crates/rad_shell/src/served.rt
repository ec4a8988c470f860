//! What turns came to.
ghost use Rattle.std.specs.Prelude.{◌≡◌, ◌+◌, ◌≤◌, ◌<◌, ◌^◌, cond, length};
ghost use Rattle.rad_round.specs.Rounds.{arrivals_max};
ghost use Rattle.rad_shell.specs.Serving.{AddTurn, AddUp, exchange_count, is_exchanged, is_replied, no_sums, outcome_count};
ghost use Rattle.rad_shell.specs.Serving.{replied_count, turns_max, with_sums};

use rad_round::Outcome;
use std::fmt;

/// What turns came to. It is printed as one line, each number after its field's name.
#[derive(Clone, Copy, Debug, PartialEq, Eq)]
pub struct Served {
    /// The turns, those without datagrams too.
    pub rounds: u64,
    /// The datagrams that were received.
    pub datagrams: u64,
    pub replies: u64,
    /// The datagrams that weren't admitted.
    pub drops: u64,
    pub busy: u64,
    /// The datagrams for which memory was refused, though not for their round.
    pub nomemory: u64,
    /// The rounds that were lost because memory was refused. Their datagrams count in `datagrams` alone.
    pub failed: u64,
}

impl Served {
    /// The sums of no turn.
    pub fn nothing() -> Served
        ensures { result ≡ no_sums }
    {
        Served {
            rounds: 0,
            datagrams: 0,
            replies: 0,
            drops: 0,
            busy: 0,
            nomemory: 0,
            failed: 0,
        }
    }

    /// Adds what turns after these came to. A sum that would be greater than 2^64 - 1 is that.
    pub fn add(&mut self, more: &Served)
        ensures { self.new ≡ with_sums self.old more.now }
    {
        *self = Served {
            rounds: self.rounds.saturating_add(more.rounds),
            datagrams: self.datagrams.saturating_add(more.datagrams),
            replies: self.replies.saturating_add(more.replies),
            drops: self.drops.saturating_add(more.drops),
            busy: self.busy.saturating_add(more.busy),
            nomemory: self.nomemory.saturating_add(more.nomemory),
            failed: self.failed.saturating_add(more.failed),
        };
    }

    /// Adds a turn whose round is lost, with so many datagrams.
    pub(crate) fn add_lost(&mut self, datagrams: usize)
        requires sums { AddUp self.old }
        requires turns { self.old.rounds < turns_max }
        requires count { datagrams ≤ arrivals_max }
        ensures { AddTurn 0 0 1 self.old self.new }
    {
        self.rounds += 1;
        self.datagrams += datagrams as u64;
        self.failed += 1;
    }

    /// Adds a turn whose round has these outcomes.
    #[tactic(auto, using(crate::proofs::ServingLemmas::one_more_outcome, crate::proofs::ServingLemmas::one_more_reply))]
    pub(crate) fn add_outcomes(&mut self, outcomes: &[Outcome])
        requires sums { AddUp self.old }
        requires turns { self.old.rounds < turns_max }
        requires count { length outcomes.now ≤ arrivals_max }
        ensures { AddTurn (exchange_count outcomes.now) (replied_count outcomes.now) 0
            self.old self.new }
    {
        self.rounds += 1;
        self.datagrams += outcomes.len() as u64;
        for i in 0..outcomes.len() {
            self.add_outcome(&outcomes[i]);
        }
    }

    fn add_outcome(&mut self, outcome: &Outcome)
        requires { outcome_count self.old + 1 < 2 ^ 64 }
        ensures rounds { self.new.rounds ≡ self.old.rounds }
        ensures datagrams { self.new.datagrams ≡ self.old.datagrams }
        ensures failed { self.new.failed ≡ self.old.failed }
        ensures counted { outcome_count self.new ≡ outcome_count self.old + 1 }
        ensures replied { self.new.replies ≡ self.old.replies + cond (is_replied outcome.now) 1 0 }
        ensures exchanged { self.new.replies + self.new.busy
            ≡ self.old.replies + self.old.busy + cond (is_exchanged outcome.now) 1 0 }
    {
        match outcome {
            Outcome::Dropped(_) => self.drops += 1,
            Outcome::Busy => self.busy += 1,
            Outcome::NoMemory => self.nomemory += 1,
            Outcome::Reply(_) => self.replies += 1,
        }
    }
}

impl fmt::Display for Served {
    fn fmt<W: fmt::Write>(&self, f: &mut fmt::Formatter<W>) -> fmt::Result {
        let Served {
            rounds,
            datagrams,
            replies,
            drops,
            busy,
            nomemory,
            failed,
        } = self;
        write!(
            f,
            "rounds {rounds} datagrams {datagrams} replies {replies} drops {drops} "
        )?;
        write!(f, "busy {busy} nomemory {nomemory} failed {failed}")
    }
}
