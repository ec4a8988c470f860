//! Warnings of users.
ghost use Rattle.std.specs.Prelude.{◌≡◌, count_by, position};
ghost use Rattle.rad_check.specs.Intervals.{concerns, is_short};

use crate::interval::interval_of;
use rad_config::{Config, User};

/// How many Acct-Interim-Intervals `stale` should last, so that two Interim-Updates in a row may be lost.
const INTERVALS_LEAST: u64 = 3;

/// What may be wrong with users where `stale` is set, though they can be served.
#[derive(Clone, Copy, Debug, PartialEq, Eq)]
pub enum UserWarning {
    /// `stale` is below `INTERVALS_LEAST` times the user's Acct-Interim-Interval.
    ShortStale,
    /// The user has no Acct-Interim-Interval.
    NoInterval,
}

impl UserWarning {
    /// The place of the first user of a configuration whom it concerns.
    pub fn first(self, config: &Config) -> Option<usize>
        ensures { result ≡ position (concerns self config.now.stale) config.now.users }
    {
        let stale = config.stale();
        config
            .users()
            .iter()
            .position(|user| self.concerns(stale, user))
    }

    /// How many users of a configuration it concerns.
    pub fn count(self, config: &Config) -> usize
        ensures { result ≡ count_by (concerns self config.now.stale) config.now.users }
    {
        let stale = config.stale();
        config
            .users()
            .iter()
            .filter(|user| self.concerns(stale, user))
            .count()
    }

    // Whether it concerns a user, where `stale` is this.
    fn concerns(self, stale: Option<u32>, user: &User) -> bool
        ensures { result ≡ concerns self stale user.now }
    {
        let Some(stale) = stale else {
            return false;
        };
        match self {
            UserWarning::ShortStale => is_short(stale, interval_of(user)),
            UserWarning::NoInterval => interval_of(user).is_none(),
        }
    }
}

// Whether there is an interval of which `stale` doesn't last `INTERVALS_LEAST`.
fn is_short(stale: u32, interval: Option<u32>) -> bool
    ensures { result ≡ is_short stale interval }
{
    match interval {
        Some(interval) => u64::from(stale) < INTERVALS_LEAST * u64::from(interval),
        None => false,
    }
}
