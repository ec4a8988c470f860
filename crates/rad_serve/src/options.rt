//! The options of `serve`.
ghost use Rattle.std.specs.Prelude.{◌≡◌, ◌≤◌};
ghost use Rattle.rad_shell.specs.Rounds.{workers_max};

use crate::held::Expected;
use rad_shell::WORKERS_MAX;
use rad_watch::Level;
use std::marker::Model;

/// What is to be served, and how.
#[derive(Drop)]
pub struct Options {
    /// The path of the configuration.
    pub config: String,
    /// The path of the seed of the draws.
    pub seed: String,
    /// The folder of the state, if anything is to outlive the process.
    pub state: Option<String>,
    pub sockets: Sockets,
    pub workers: Workers,
    /// The turns to make; without it serving goes on.
    pub rounds: Option<u32>,
    pub reports: Reports,
}

/// Where the two sockets of a server come from.
#[derive(Clone, Copy, Debug, PartialEq, Eq)]
pub enum Sockets {
    /// They are bound to an address, most significant octet first, and to two ports. Port 0 is any free one.
    Bind { address: u32, auth: u16, acct: u16 },
    /// The process was given them, bound as is expected, as descriptors 3 and 4.
    Held(Expected),
}

/// What an operator is told while turns are made.
#[derive(Drop)]
pub struct Reports {
    /// The lines on standard error, if there are to be any.
    pub log: Option<Level>,
    /// The path of the file of the metrics, if there is to be one.
    pub metrics: Option<String>,
    /// The path of the file of the sessions, if there is to be one.
    pub sessions: Option<String>,
    /// The path of the recording, if there is to be one.
    pub record: Option<String>,
}

impl Reports {
    /// Whether nothing is told.
    pub(crate) fn are_none(&self) -> bool {
        let Reports {
            log,
            metrics,
            sessions,
            record,
        } = self;
        log.is_none() && metrics.is_none() && sessions.is_none() && record.is_none()
    }
}

/// How many threads answer a round at most, from 1 to `WORKERS_MAX`. Contracts see the number.
#[derive(Drop)]
pub struct Workers {
    count: u64,
}

impl Model for Workers {
    ghost use Rattle.std.specs.Prelude.{ℕ, ◌≤◌};
    ghost use Rattle.rad_shell.specs.Rounds.{workers_max};

    ghost Value = { ℕ };

    ghost view = { λ workers. workers.count };

    ghost invariant = { λ workers. (1 ≤ workers.count) × (workers.count ≤ workers_max) };
}

impl Workers {
    /// So many workers, but at least one and at most `WORKERS_MAX`.
    pub fn nearest(count: u64) -> Workers
        ensures given { 1 ≤ count → count ≤ workers_max → result ≡ count }
        ensures none { count ≡ 0 → result ≡ 1 }
        ensures many { workers_max ≤ count → result ≡ workers_max }
    {
        Workers {
            count: count.max(1).min(WORKERS_MAX),
        }
    }

    /// The number.
    pub fn count(&self) -> u64
        ensures count { result ≡ self.now }
        ensures least { 1 ≤ result }
        ensures most { result ≤ workers_max }
    {
        self.count
    }
}
