//! The table of challenges.
ghost use Rattle.std.specs.Prelude.{◌≡◌, ◌≤◌, ◌+◌, ◌↔◌, IfOk, IsErrOf, IsOk, IsTrue, OnErr, OnOk, false, option_map, true};
ghost use Rattle.std.specs.Iterator.{YieldsFirst, item_count};
ghost use Rattle.rad_config.specs.Spans.{moment_max, spans_of};
ghost use Rattle.rad_recent.specs.Challenges.{AreSame, IsIssued, answered, cut_challenges, next_number, opening, waiting_with};
ghost use Rattle.rad_recent.specs.Challenges.{with_challenge, without_answered};
ghost use Rattle.rad_recent.specs.Restored.{challenge_restorable, last_challenge_restorable, with_challenge_row};
ghost use Rattle.rad_recent.specs.Restored.{with_last_challenge};
ghost use Rattle.rad_row_fault.specs.Follows.{FollowsRules};

use crate::challenge::{Challenge, Nobody, Party};
use crate::{answers, restore};
use rad_config::Config;
use rad_row_fault::RowFault;
use rad_rows::{Iter, Row, Rows};
use std::alloc::{AllocError, Global};
use std::marker::Model;
use thiserror::Error;

/// The most challenges that wait for an answer.
pub const CHALLENGES_MAX: usize = 1_024;

/// Why no challenge is made. `Full` is reported where both apply.
#[derive(Clone, Copy, Debug, PartialEq, Eq, Error)]
pub enum IssueFault {
    /// `CHALLENGES_MAX` live challenges wait, or no number is left.
    #[error("no more challenges can wait")]
    Full = 1,
    /// An allocation failed.
    #[error("out of memory")]
    NoMemory = 2,
}

/// The challenges that wait for an answer, oldest first, and the number of the next one.
///
/// Contracts see the list, the next number, how long a challenge lives, and whether memory is ready for one more. Moments are in
/// milliseconds, at most `MOMENT_MAX`, and need not rise.
#[derive(Drop)]
pub struct Challenges {
    rows: Rows<Challenge, u64>,
}

impl Model for Challenges {
    ghost use Rattle.std.specs.Prelude.{◌+◌};
    ghost use Rattle.rad_recent.specs.Challenges.{SeenChallenges};

    ghost Value = { SeenChallenges };

    ghost view = { λ challenges. record {
      table = record {
        challenges = challenges.rows.rows;
        next = challenges.rows.last + 1;
        hold = challenges.rows.spans;
      };
      has_room = challenges.rows.has_room;
    } };
}

impl Challenges {
    /// No challenge waits yet. The configuration says how long challenges will wait.
    pub fn open(alloc: Global, config: &Config) -> Result<Challenges, AllocError>
        ensures { IfOk result (λ challenges. challenges.table
            ≡ opening (spans_of config.now).hold) }
    {
        Ok(Challenges {
            rows: Rows::open(alloc, config.spans().hold),
        })
    }

    /// The challenges, oldest first; also those that are no longer live but not removed yet.
    pub fn rows(&self) -> ChallengeRows<'_>
        ensures { result ≡ self.now.table.challenges }
    {
        ChallengeRows {
            rest: self.rows.iter(),
        }
    }

    /// Removes the challenges that are no longer live.
    pub fn expire(&mut self, now: u64)
        requires { now ≤ moment_max }
        ensures cut { self.new.table ≡ cut_challenges now self.old.table }
        // Expiring again at the same moment changes nothing.
        ensures settled { cut_challenges now self.new.table ≡ self.new.table }
        ensures room { self.old.has_room ≡ true → self.new.has_room ≡ true }
    {
        self.rows.expire(&mut Nobody {}, now);
    }

    /// What `issue` would answer at this moment if there is memory.
    #[tactic(auto, unfolding(crate::specs::Challenges::next_number))]
    pub fn peek(&self, now: u64) -> Result<u64, IssueFault>
        requires { now ≤ moment_max }
        ensures answer { result ≡ next_number (cut_challenges now self.now.table) }
        ensures number { IfOk result (λ number. number ≡ self.now.table.next) }
        ensures memory { IsErrOf result IssueFault.NoMemory → ⊥ }
    {
        let last = self.rows.last();
        if CHALLENGES_MAX <= self.rows.count_live(now) || last == u64::MAX {
            return Err(IssueFault::Full);
        }
        Ok(last + 1)
    }

    /// How many live challenges of a party wait. It goes over all challenges.
    pub fn count_of(&self, party: Party, now: u64) -> u64
        requires { now ≤ moment_max }
        ensures { result ≡ waiting_with party (cut_challenges now self.now.table) }
    {
        let rows = &self.rows;
        rows.numbers_rise();
        let mut count: u64 = 0;
        for challenge in rows.iter() {
            if now < challenge.ends(&rows.spans()) && challenge.is_with(party) {
                count += 1;
            }
        }
        count
    }

    /// How many challenges of a party there are, live or not. It goes over all challenges.
    pub fn len_with(&self, party: Party) -> u64
        ensures { result ≡ waiting_with party self.now.table }
    {
        self.rows.numbers_rise();
        let mut count: u64 = 0;
        for challenge in self.rows.iter() {
            if challenge.is_with(party) {
                count += 1;
            }
        }
        count
    }

    /// The last number that was given, or 0.
    pub fn last(&self) -> u64
        ensures { self.now.table.next ≡ result + 1 }
    {
        self.rows.last()
    }

    /// Makes memory ready for one more challenge.
    pub fn room(&mut self) -> Result<(), AllocError>
        ensures unchanged { self.new.table ≡ self.old.table }
        ensures ready { OnOk result (self.new.has_room ≡ true) }
        ensures still { self.old.has_room ≡ true → IsOk result }
    {
        self.rows.room()
    }

    /// Removes the challenges that are no longer live, and adds one, with the next number, sent to the client at place `client` for
    /// the user at place `user`.
    ///
    /// Refusals are reported in the order of `IssueFault`. After a refusal the table is as it was. The first `issue` after `room`
    /// doesn't answer `NoMemory`. Source: RFC 2865, section 4.4.
    pub fn issue(
        &mut self,
        client: u32,
        user: u32,
        draw: &[u8; 16],
        now: u64,
    ) -> Result<u64, IssueFault>
        requires { now ≤ moment_max }
        ensures outcome { IsIssued client user draw.now now self.old.table result self.new.table }
        ensures after_room { self.old.has_room ≡ true → IsErrOf result IssueFault.NoMemory → ⊥ }
    {
        let number = self.peek(now)?;
        if self.room().is_err() {
            return Err(IssueFault::NoMemory);
        }
        self.expire(now);
        self.add(client, user, draw, now);
        Ok(number)
    }

    /// Adds a challenge, with the next number, sent to the client at place `client` for the user at place `user`. One more may
    /// wait, and memory was made ready for it.
    #[tactic(auto, unfolding(crate::specs::Challenges::next_number))]
    pub fn add(&mut self, client: u32, user: u32, draw: &[u8; 16], now: u64)
        requires room { self.old.has_room ≡ true }
        requires number { IsOk (next_number self.old.table) }
        ensures table { self.new.table ≡ with_challenge client user draw.now now self.old.table }
    {
        let number = self.rows.last() + 1;
        self.rows.push(Challenge {
            number,
            draw: *draw,
            client,
            user,
            made: now,
        });
    }

    /// Removes the challenges that are no longer live, and the one that the client at place `client` answers with this State, which
    /// is returned.
    ///
    /// Source: RFC 2865, section 5.24.
    pub fn take(&mut self, state: &[u8], client: u32, now: u64) -> Option<Challenge>
        requires { now ≤ moment_max }
        ensures taken { result ≡ answered state.now client
            (cut_challenges now self.old.table) }
        ensures left { self.new.table ≡ without_answered state.now client
            (cut_challenges now self.old.table) }
        ensures settled { cut_challenges now self.new.table ≡ self.new.table }
        ensures room { self.old.has_room ≡ true → self.new.has_room ≡ true }
    {
        let taken = answers::find(&self.rows, state, client, now);
        self.rows.expire(&mut Nobody {}, now);
        answers::remove(&mut self.rows, state, client, taken);
        taken
    }

    /// The place of the user of the challenge that `take` would return.
    pub fn seek(&self, state: &[u8], client: u32, now: u64) -> Option<u32>
        requires { now ≤ moment_max }
        ensures { result ≡ option_map (λ challenge. challenge.user)
            (answered state.now client (cut_challenges now self.now.table)) }
    {
        let challenge = answers::find(&self.rows, state, client, now)?;
        Some(challenge.user)
    }

    /// Puts back a challenge that once waited, after the others; challenges are put back in the order of their numbers.
    ///
    /// The clock is in milliseconds. Refusals are reported in the order of `challenge_restorable`. After a refusal the table is as
    /// it was. Source: RFC 2865, section 4.4.
    pub fn restore(&mut self, row: Challenge, clock: u64) -> Result<(), RowFault>
        ensures answer { FollowsRules (challenge_restorable clock row self.old.table) result }
        ensures restored { OnOk result (self.new.table ≡ with_challenge_row row self.old.table) }
        ensures unchanged { OnErr result (self.new.table ≡ self.old.table) }
    {
        restore::check_challenge(&self.rows, &row, clock)?;
        self.rows.restore(row).map_err(|_| RowFault::NoMemory)
    }

    /// Puts back the last number that was given, after the challenges: they don't tell it, since later ones may have come and gone.
    ///
    /// No number up to it is given then. After a refusal the table is as it was.
    pub fn restore_last(&mut self, last: u64) -> Result<(), RowFault>
        ensures answer { result ≡ last_challenge_restorable last self.old.table }
        ensures restored { OnOk result (self.new.table ≡ with_last_challenge last self.old.table) }
        ensures unchanged { OnErr result (self.new.table ≡ self.old.table) }
    {
        if last < self.rows.last() {
            return Err(RowFault::Number);
        }
        self.rows.skip(last);
        Ok(())
    }

    /// An equal table. No memory is ready for one more.
    pub fn copy(&self) -> Result<Challenges, AllocError>
        ensures table { IfOk result (λ copy. copy.table ≡ self.now.table) }
        ensures room { IfOk result (λ copy. copy.has_room ≡ false) }
    {
        let rows = self.rows.copy()?;
        Ok(Challenges { rows })
    }

    /// Whether the other table has the same challenges and the same next number.
    pub fn same(&self, other: &Challenges) -> bool
        ensures { IsTrue result ↔ AreSame self.now.table other.now.table }
    {
        self.rows.same(&other.rows)
    }
}

/// The challenges that are left, oldest first. Contracts see them as a list.
#[derive(Drop)]
pub struct ChallengeRows<'a> {
    rest: Iter<'a, Challenge, u64>,
}

impl<'a> Model for ChallengeRows<'a> {
    ghost use Rattle.std.specs.Prelude.{List};
    ghost use Rattle.rad_recent.specs.declared.challenge.Challenge.{Challenge};

    ghost Value = { List Challenge };

    ghost view = { λ rows. rows.rest };
}

impl<'a> Iterator for ChallengeRows<'a> {
    type Item = Challenge;

    ghost next_gives = { YieldsFirst (λ s. s) };

    ghost remaining = { item_count (λ s. s) };

    fn next(&mut self) -> Option<Challenge> {
        let row = self.rest.next()?;
        Some(*row)
    }
}
