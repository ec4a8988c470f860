//! How often the clients are asked to report a user's sessions.
ghost use Rattle.std.specs.Prelude.{◌≡◌};
ghost use Rattle.rad_check.specs.Intervals.{interval_of};

use rad_config::User;
use rad_packet::attribute::integer_of;

/// RFC 2869, section 5.16.
const ACCT_INTERIM_INTERVAL: u8 = 85;

/// The seconds from one Interim-Update to the next that an Access-Accept asks for, if it does.
pub fn interval_of(user: &User) -> Option<u32>
    ensures { result ≡ interval_of user.now }
{
    integer_of(user.reply.attributes().first(ACCT_INTERIM_INTERVAL)?)
}
