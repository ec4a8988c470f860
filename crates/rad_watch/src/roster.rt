//! Who is on: a table of sessions.
ghost use Rattle.std.specs.Prelude.{◌≡◌, ◌≤◌, IfOk, min};
ghost use Rattle.rad_config.specs.Spans.{moment_max, spans_of};
ghost use Rattle.rad_pool.specs.Sessions.{is_live, live_sessions};

use crate::line::{push_address, push_octets};
use crate::now::Now;
use crate::shown::push_shown;
use rad_config::{Config, MOMENT_MAX, Spans};
use rad_pool::{Phase, Session};
use rad_rows::Row;
use rad_server::Server;
use std::alloc::{AllocError, Global};
use std::io;
use std::io::Write;
use std::marker::Model;
use std::net::Ipv4Addr;

const HEAD: &[u8] = b"number\tphase\tuser\taddress\tclient\tsource\tsince\tseen\n";

/// The sessions that are live at a moment, oldest first. Contracts see them as a list.
///
/// They are copies, so that another thread than the server's can make their text, which takes much longer.
#[derive(Drop)]
pub struct Roster {
    sessions: Vec<Session>,
    now: Now,
}

impl Model for Roster {
    ghost use Rattle.std.specs.Prelude.{List};
    ghost use Rattle.rad_pool.specs.declared.session.Session.{Session};

    ghost Value = { List Session };

    ghost view = { λ roster. roster.sessions.items };
}

impl Roster {
    /// Who is on now. A moment past the last one is taken for it.
    pub fn of(alloc: Global, server: &Server, now: Now) -> Result<Roster, AllocError>
        ensures live { IfOk result (λ roster. roster ≡ live_sessions
            (spans_of server.now.configuration) (min now.moment moment_max)
            server.now.state.sessions.sessions) }
    {
        let spans = server.config().spans();
        let moment = now.moment.min(MOMENT_MAX);
        let sessions = server
            .sessions()
            .rows()
            .filter(|session| is_live(session, &spans, moment))
            .collect(alloc)?;
        Ok(Roster { sessions, now })
    }

    /// The table: a head line, and a line for each session. Fields are parted by tabs.
    ///
    /// The configuration is the server's, and has the users' names.
    pub fn text(&self, alloc: Global, config: &Config) -> io::Result<Vec<u8>> {
        let mut text = Vec::new(alloc);
        push_octets(&mut text, HEAD)?;
        for session in self.sessions.iter() {
            write_session(&mut text, config, session, self.now)?;
        }
        Ok(text)
    }
}

// Whether a session is live at a moment.
fn is_live(session: &Session, spans: &Spans, moment: u64) -> bool
    requires { moment ≤ moment_max }
    ensures { result ≡ is_live spans.now moment session.now }
{
    moment < session.ends(spans)
}

fn write_session(
    text: &mut Vec<u8>,
    config: &Config,
    session: &Session,
    now: Now,
) -> io::Result<()> {
    let phase = match session.phase {
        Phase::Pending => "pending",
        Phase::Active => "active",
        Phase::Ended => "ended",
    };
    let number = session.number;
    write!(text, "{number}\t{phase}\t")?;
    if let Some(user) = config.users().get(session.user as usize) {
        push_shown(text, user.name.octets())?;
    }
    write_rest(text, session, now)
}

fn write_rest(text: &mut Vec<u8>, session: &Session, now: Now) -> io::Result<()> {
    push_octets(text, b"\t")?;
    push_address(text, session.address)?;
    let client = u64::from(session.client).saturating_add(1);
    let source = Ipv4Addr::from_bits(session.source);
    let (since, seen) = (now.at(session.made), now.at(session.seen));
    writeln!(text, "\t{client}\t{source}\t{since}\t{seen}")
}
