//! Challenges beside a plain list of them.
ghost use Rattle.std.specs.Prelude.{◌≤◌};
ghost use Rattle.rad_config.specs.Spans.{moment_max};

use rad_config::{Config, MOMENT_MAX};
use rad_recent::{CHALLENGES_MAX, Challenge, Challenges, IssueFault, RowFault, state_value};
use std::alloc::Global;

/// How long challenges wait, in milliseconds.
const HOLD: u64 = 60_000;

/// Both have the same calls behind them.
#[derive(Drop)]
pub struct ChallengePair {
    challenges: Challenges,
    plain: Vec<Challenge>,
    next: u64,
}

/// A State, and the client that sends it.
#[derive(Clone, Copy)]
struct Answer {
    state: [u8; 24],
    client: u32,
}

impl ChallengePair {
    pub fn open(alloc: Global, config: &Config) -> Option<ChallengePair> {
        let challenges = Challenges::open(alloc, config).ok()?;
        Some(ChallengePair {
            challenges,
            plain: Vec::new(alloc),
            next: 1,
        })
    }

    /// Makes the call that is drawn on both. Whether they answer the same.
    pub fn call(&mut self, draw: u64, now: u64) -> bool
        requires { now ≤ moment_max }
    {
        match draw % 16 {
            0 => self.expire(now),
            1 | 2 => self.seeks(draw, now),
            3 => self.peeks(now),
            4 => self.copies(),
            5 | 6 => self.challenges.room() != Ok(()) || self.issues(draw, now),
            7 | 8 | 9 => self.takes(draw, now),
            _ => self.issues(draw, now),
        }
    }

    fn expire(&mut self, now: u64) -> bool
        requires { now ≤ moment_max }
    {
        self.challenges.expire(now);
        self.plain.retain(|challenge| is_live(challenge, now));
        true
    }

    fn seeks(&self, draw: u64, now: u64) -> bool
        requires { now ≤ moment_max }
    {
        let answer = self.drawn_answer(draw);
        let found = find(&self.plain, &answer, now).map(|challenge| challenge.user);
        self.challenges.seek(&answer.state, answer.client, now) == found
    }

    fn takes(&mut self, draw: u64, now: u64) -> bool
        requires { now ≤ moment_max }
    {
        let answer = self.drawn_answer(draw);
        let found = find(&self.plain, &answer, now);
        self.plain.retain(|challenge| is_live(challenge, now) && !is_answered(challenge, &answer));
        self.challenges.take(&answer.state, answer.client, now) == found
    }

    fn peeks(&self, now: u64) -> bool
        requires { now ≤ moment_max }
    {
        self.challenges.peek(now) == self.number(now)
    }

    // From then on the copy is the one that is called.
    fn copies(&mut self) -> bool {
        let Ok(copy) = self.challenges.copy() else {
            return true;
        };
        let is_same = copy.same(&self.challenges);
        self.challenges = copy;
        is_same
    }

    // Without memory nothing changes.
    fn issues(&mut self, draw: u64, now: u64) -> bool
        requires { now ≤ moment_max }
    {
        if self.plain.reserve(1).is_err() {
            return true;
        }
        let answer = self.number(now);
        let challenge = Challenge {
            number: self.next,
            draw: [(draw >> 24 & 255) as u8; 16],
            client: (draw >> 32 & 3) as u32,
            user: (draw >> 34 & 255) as u32,
            made: now,
        };
        let issued = self
            .challenges
            .issue(challenge.client, challenge.user, &challenge.draw, now);
        match issued {
            Err(IssueFault::NoMemory) => answer.is_ok(),
            Err(IssueFault::Full) => answer.is_err(),
            Ok(number) => answer == Ok(number) && self.push(challenge, now),
        }
    }

    // What `issue` answers if there is memory.
    fn number(&self, now: u64) -> Result<u64, IssueFault> {
        let count = self
            .plain
            .iter()
            .filter(|challenge| is_live(challenge, now))
            .count();
        if CHALLENGES_MAX <= count {
            return Err(IssueFault::Full);
        }
        Ok(self.next)
    }

    // Whether there was memory.
    fn push(&mut self, challenge: Challenge, now: u64) -> bool {
        self.next = self.next.saturating_add(1);
        self.plain.retain(|other| is_live(other, now));
        self.plain.push(challenge).is_ok()
    }

    // The answer to one of the challenges, now and then by another client. With no challenge, one that none has.
    fn drawn_answer(&self, draw: u64) -> Answer {
        let place = (draw >> 8) % 1_024;
        match self.plain.get(place as usize) {
            Some(challenge) => Answer {
                state: state_value(challenge.number, &challenge.draw),
                client: if draw >> 24 & 7 == 0 {
                    (draw >> 32 & 3) as u32
                } else {
                    challenge.client
                },
            },
            None => Answer {
                state: state_value(place, &[0; 16]),
                client: 0,
            },
        }
    }

    /// Whether both have the same challenges, oldest first.
    pub fn has_same_rows(&self) -> bool {
        let mut rest = self.plain.iter();
        for row in self.challenges.rows() {
            if rest.next() != Some(&row) {
                return false;
            }
        }
        rest.next().is_none()
    }

    /// Whether its rows and its last number, put back one after the other, make the same table.
    pub fn is_rebuilt(&self, alloc: Global, config: &Config) -> bool {
        let Ok(mut rebuilt) = Challenges::open(alloc, config) else {
            return true;
        };
        for row in self.challenges.rows() {
            match rebuilt.restore(row, MOMENT_MAX) {
                Ok(()) => {}
                Err(fault) => return fault == RowFault::NoMemory,
            }
        }
        let last = self.challenges.last();
        rebuilt.restore_last(last) == Ok(())
            && rebuilt.last() == last
            && rebuilt.same(&self.challenges)
    }
}

fn is_live(challenge: &Challenge, now: u64) -> bool {
    now < challenge.made.saturating_add(HOLD)
}

fn is_answered(challenge: &Challenge, answer: &Answer) -> bool {
    challenge.client == answer.client
        && answer.state == state_value(challenge.number, &challenge.draw)
}

// The live challenge that is answered.
fn find(plain: &[Challenge], answer: &Answer, now: u64) -> Option<Challenge> {
    for challenge in plain {
        if is_live(challenge, now) && is_answered(challenge, answer) {
            return Some(*challenge);
        }
    }
    None
}
