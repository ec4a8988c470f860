//! The rules by which requests are answered.
ghost use Rattle.std.specs.Prelude.{◌≡◌};
ghost use Rattle.rad_server.specs.Prepared.{fixed_reply};

use crate::access::ChallengeAnswer;
use crate::change::Change;
use crate::fixed_reply::FixedReply;
use rad_auth::Door;

/// The rule by which a request that is no Status-Server is answered.
#[derive(Clone, Copy)]
pub(crate) enum Rule<'a> {
    /// The reply is this one, and this changes, whatever the server remembers.
    Fixed(FixedReply, Change),
    /// The user at this place sent their password.
    Password(u32),
    /// A challenge is answered.
    Answer(ChallengeAnswer<'a>),
}

/// The reply to a request that came to this port, if it is fixed. A Status-Server has no rule.
pub(crate) fn fixed_reply(door: Door, rule: Option<Rule>) -> Option<FixedReply>
    ensures { result ≡ fixed_reply door rule.entry }
{
    match rule {
        None => Some(FixedReply::Status(door)),
        Some(Rule::Fixed(fixed, _)) => Some(fixed),
        Some(Rule::Password(_) | Rule::Answer(_)) => None,
    }
}
