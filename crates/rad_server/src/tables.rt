//! The tables of what the server remembers.
ghost use Rattle.std.specs.Prelude.{◌≡◌, ◌≤◌, ◌↔◌, IfOk, IsTrue};
ghost use Rattle.rad_config.specs.Spans.{moment_max};
ghost use Rattle.rad_pool.specs.Sessions.{cut};
ghost use Rattle.rad_server.specs.TableStates.{AreLive, AreTheSame, HaveRoomOf};
ghost use Rattle.rad_server.specs.Servers.{state_with};
ghost use Rattle.rad_server.specs.States.{opening, without_expired};

use rad_config::Config;
use rad_pool::Sessions;
use rad_recent::{Challenges, Recent};
use rad_rows::HashKey;
use std::alloc::{AllocError, Global};

/// The tables of what the server remembers.
#[derive(Drop)]
pub(crate) struct Tables {
    pub sessions: Sessions,
    pub replies: Recent,
    pub challenges: Challenges,
}

impl Tables {
    /// Nothing is remembered yet. The key is that of the hashes.
    pub fn open(alloc: Global, config: &Config, key: HashKey) -> Result<Tables, AllocError>
        ensures { IfOk result (λ tables. state_with 0 tables ≡ opening config.now) }
    {
        Ok(Tables {
            sessions: Sessions::open_keyed(alloc, config, key)?,
            replies: Recent::open_keyed(alloc, config, key)?,
            challenges: Challenges::open(alloc, config)?,
        })
    }

    /// Removes what is no longer live. Memory that is ready stays ready.
    pub fn expire(&mut self, now: u64)
        requires { now ≤ moment_max }
        ensures cut { state_with now self.new ≡ without_expired (state_with now self.old) }
        ensures live { AreLive now self.new }
        ensures room { HaveRoomOf self.old self.new }
    {
        let Tables {
            sessions,
            replies,
            challenges,
        } = self;
        sessions.expire(now);
        replies.expire(now);
        challenges.expire(now);
    }

    /// Equal tables.
    pub fn copy(&self) -> Result<Tables, AllocError>
        ensures { IfOk result (λ copy. state_with 0 copy ≡ state_with 0 self.now) }
    {
        Ok(Tables {
            sessions: self.sessions.copy()?,
            replies: self.replies.copy()?,
            challenges: self.challenges.copy()?,
        })
    }

    /// Whether the other tables have the same rows and the same next numbers.
    pub fn same(&self, other: &Tables) -> bool
        ensures { IsTrue result ↔ AreTheSame self.now other.now }
    {
        self.sessions.same(&other.sessions)
            && self.replies.same(&other.replies)
            && self.challenges.same(&other.challenges)
    }
}
