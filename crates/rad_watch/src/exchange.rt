//! What is known of the exchange of a request.
ghost use Rattle.std.specs.Prelude.{◌≡◌, option_and_then, option_copied, slice_get};
ghost use Rattle.rad_watch.specs.Events.{exchange_of, is_kept_reply, is_sent, is_status_server, known, owner_of, user_name};

use rad_config::User;
use rad_packet::code::STATUS_SERVER;
use rad_pool::Sessions;
use rad_server::{Answer, Entry};

/// What is known of the exchange of a request.
#[derive(Clone, Copy)]
pub(crate) struct Exchange<'t> {
    /// Whether its reply was kept from an earlier exchange.
    pub is_repeat: bool,
    /// The number of the session that it means, if it reports of one for the first time.
    pub session: Option<u64>,
    /// The name of that session's user.
    pub owner: Option<&'t [u8]>,
}

impl<'t> Exchange<'t> {
    /// The exchange of an entry, which was fresh or not, among the sessions after it.
    pub fn of(users: &'t [User], sessions: &Sessions, entry: &Entry, is_fresh: bool) -> Exchange<'t>
        ensures { known result
            ≡ exchange_of users.now sessions.now.table.sessions entry.now is_fresh }
    {
        Exchange {
            is_repeat: is_kept_reply(entry, is_fresh),
            session: entry.session,
            owner: owner(users, sessions, entry.session),
        }
    }
}

// Whether the reply of an entry was kept. Those to a Status-Server aren't.
fn is_kept_reply(entry: &Entry, is_fresh: bool) -> bool
    ensures { result ≡ is_kept_reply entry.now is_fresh }
{
    !is_fresh && is_sent(&entry.answer) && !is_status_server(entry.octets.octets())
}

// Whether a reply is sent.
fn is_sent(answer: &Answer) -> bool
    ensures { result ≡ is_sent answer.now }
{
    matches!(answer, Answer::Send(_))
}

// Whether a request is a Status-Server.
fn is_status_server(octets: &[u8]) -> bool
    ensures { result ≡ is_status_server (slice_get octets.now 0) }
{
    match octets.first() {
        Some(code) => *code == STATUS_SERVER,
        None => false,
    }
}

// The name of the user of the session of this number.
fn owner<'t>(users: &'t [User], sessions: &Sessions, number: Option<u64>) -> Option<&'t [u8]>
    ensures { option_copied result
        ≡ option_and_then (owner_of users.now sessions.now.table.sessions) number }
{
    let session = sessions.get(number?)?;
    user_name(users, session.user)
}

/// The name of the user at a place.
pub(crate) fn user_name(users: &[User], place: u32) -> Option<&[u8]>
    ensures { option_copied result ≡ user_name users.now place }
{
    let user = users.get(place as usize)?;
    Some(user.name.octets())
}
