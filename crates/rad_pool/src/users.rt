//! How many sessions a user has.
ghost use Rattle.std.specs.Prelude.{◌≡◌, ◌≤◌};
ghost use Rattle.rad_config.specs.Configurations.{is_reached};
ghost use Rattle.rad_config.specs.Spans.{moment_max};
ghost use Rattle.rad_pool.specs.Counts.{HoldsCounts};
ghost use Rattle.rad_pool.specs.Dead.{CountsUser, TakesOne};
ghost use Rattle.rad_pool.specs.Sessions.{live_sessions};

use crate::counts::Counts;
use crate::session::{Phase, Session};
use crate::walk;
use rad_config::{Spans, User};
use rad_rows::{Rows, Tally};

/// How many sessions of a user are open, and how many there are in all.
#[derive(Clone, Copy)]
pub(crate) struct UserCounts {
    pub(crate) user: u32,
    pub(crate) open_count: u64,
    pub(crate) total: u64,
}

/// The sessions that aren't live are taken off.
impl Tally<Session> for UserCounts {
    ghost told = { λ old session new. TakesOne old session new };

    fn leave(&mut self, session: &Session) {
        if session.user != self.user {
            return;
        }
        self.total = self.total.saturating_sub(1);
        if session.phase != Phase::Ended {
            self.open_count = self.open_count.saturating_sub(1);
        }
    }
}

/// How many live sessions a user has.
pub(crate) fn count_live(
    rows: &Rows<Session, Spans>,
    counts: &Counts,
    now: u64,
    user: u32,
) -> UserCounts
    requires moment { now ≤ moment_max }
    requires counts { HoldsCounts rows.now.rows counts.now }
    ensures { CountsUser user (live_sessions rows.now.spans now rows.now.rows) result }
{
    let mut live = count(rows, counts, user);
    rows.tell_dead(&mut live, now);
    live
}

/// How many sessions a user has, those that aren't live included.
pub(crate) fn count(rows: &Rows<Session, Spans>, counts: &Counts, user: u32) -> UserCounts
    requires { HoldsCounts rows.now.rows counts.now }
    ensures counts { CountsUser user rows.now.rows result }
    ensures user { result.user ≡ user }
{
    let place = user as usize;
    if counts.users.len() <= place || counts.grants.len() <= place {
        return walk::count(rows, user);
    }
    UserCounts {
        user,
        open_count: counts.users[place],
        total: counts.grants[place],
    }
}

/// Whether a user who has so many sessions of any phase may have no more.
pub(crate) fn has_all_grants(user: &User, total: u64) -> bool
    ensures { result ≡ is_reached user.now.grants total }
{
    user.grants.is_some_and(|most| u64::from(most) <= total)
}
