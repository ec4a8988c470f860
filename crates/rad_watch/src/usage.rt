//! What a server remembers, counted.

use crate::sums::{add_one, add_one_at};
use rad_config::{Config, POOLS_MAX};
use rad_pool::{Phase, Session};
use rad_rows::Row;
use rad_server::Server;

/// How much a server remembers.
#[derive(Clone, Copy, Debug)]
pub(crate) struct Usage {
    /// The sessions that are live, by their phase.
    pub pending: u64,
    pub active: u64,
    pub ended: u64,
    /// The addresses of each pool that one of these has.
    pub used: [u64; POOLS_MAX],
    /// The replies that are kept.
    pub replies: u64,
    /// The challenges that wait for an answer.
    pub challenges: u64,
}

impl Usage {
    /// Counts what a server remembers at a moment. Replies and challenges count until they are removed, also those whose time is
    /// over.
    pub fn of(server: &Server, moment: u64) -> Usage {
        let mut usage = Usage {
            pending: 0,
            active: 0,
            ended: 0,
            used: [0; POOLS_MAX],
            replies: count_replies(server),
            challenges: count_challenges(server),
        };
        let spans = server.config().spans();
        for session in server.sessions().rows() {
            if moment < session.ends(&spans) {
                usage.add(server.config(), &session);
            }
        }
        usage
    }

    fn add(&mut self, config: &Config, session: &Session) {
        match session.phase {
            Phase::Pending => add_one(&mut self.pending),
            Phase::Active => add_one(&mut self.active),
            Phase::Ended => add_one(&mut self.ended),
        }
        add_one_at(&mut self.used, pool_of(config, session.address));
    }
}

fn count_replies(server: &Server) -> u64 {
    let mut count = 0;
    for _reply in server.recent().rows() {
        add_one(&mut count);
    }
    count
}

fn count_challenges(server: &Server) -> u64 {
    let mut count = 0;
    for _challenge in server.challenges().rows() {
        add_one(&mut count);
    }
    count
}

// The place of the pool that has an address.
fn pool_of(config: &Config, address: Option<u32>) -> Option<usize> {
    let address = address?;
    config
        .pools()
        .iter()
        .position(|pool| pool.first <= address && address <= pool.last)
}
