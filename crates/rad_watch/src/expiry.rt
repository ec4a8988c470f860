//! Sessions that end since nothing is heard of them.
ghost use Rattle.std.specs.Prelude.{◌≡◌, ◌≤◌};
ghost use Rattle.rad_config.specs.Spans.{moment_max};
ghost use Rattle.rad_watch.specs.Expiry.{has_expired};

use rad_config::{MOMENT_MAX, Spans};
use rad_pool::{Phase, Session, Sessions};
use rad_rows::Row;
use std::alloc::{AllocError, Global};
use std::mem;

/// What the last look found: the sessions, and its moment.
#[derive(Drop)]
pub(crate) struct LastLook {
    alloc: Global,
    // In the order of their numbers.
    sessions: Vec<Session>,
    moment: u64,
    ghost within: { moment ≤ moment_max },
}

impl LastLook {
    /// No look was taken yet.
    pub fn new(alloc: Global) -> LastLook {
        LastLook {
            alloc,
            sessions: Vec::new(alloc),
            moment: 0,
        }
    }

    /// Looks at the sessions, and returns those that expired since the last look, oldest first.
    ///
    /// If memory is refused, the next look is as the first.
    pub fn look(
        &mut self,
        sessions: &Sessions,
        spans: &Spans,
        moment: u64,
    ) -> Result<Vec<Session>, AllocError> {
        let alloc = self.alloc;
        let earlier = self.moment;
        let before = mem::replace(&mut self.sessions, Vec::new(alloc));
        self.moment = moment.min(MOMENT_MAX);
        self.sessions = sessions.rows().collect(alloc)?;
        let mut expired = Vec::new(alloc);
        let mut rest = self.sessions.as_slice();
        for session in before.iter() {
            rest = since(rest, session.number);
            let now = first_if(rest, session.number).unwrap_or(*session);
            if has_expired(session, earlier, &now, self.moment, spans) {
                expired.push(now)?;
            }
        }
        Ok(expired)
    }
}

// What is left of sessions from this number on.
fn since(sessions: &[Session], number: u64) -> &[Session] {
    let place = sessions.iter().position(|session| session.number >= number);
    match place {
        Some(place) => &sessions[place..],
        None => &[],
    }
}

// The first session, if it has this number.
fn first_if(sessions: &[Session], number: u64) -> Option<Session> {
    let first = sessions.first()?;
    (first.number == number).then_some(*first)
}

// Whether a session that was live at one moment isn't at another, though nothing has ended it.
fn has_expired(before: &Session, earlier: u64, now: &Session, later: u64, spans: &Spans) -> bool
    requires earlier { earlier ≤ moment_max }
    requires later { later ≤ moment_max }
    ensures { result ≡ has_expired spans.now earlier before.now later now.now }
{
    earlier < before.ends(spans) && now.phase != Phase::Ended && later >= now.ends(spans)
}
