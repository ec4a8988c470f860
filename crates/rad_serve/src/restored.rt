//! What is told of a state that a server goes on from.

use rad_carry::Carried;
use rad_config::User;
use rad_pool::Session;
use rad_replay::push_address;
use rad_server::Server;
use rad_watch::push_quoted;
use std::alloc::AllocError;
use std::io::{self, Write};

/// With what a line on standard error begins.
pub(crate) const MARK: &str = "radpool: ";

/// Appends lines that tell what was restored, and which sessions were left out. Each begins with this mark.
///
/// `users` are those of the configuration before.
pub(crate) fn push_restored(
    lines: &mut String,
    mark: &str,
    users: &[User],
    carried: &Carried,
) -> Result<(), AllocError> {
    for session in carried.left_out.iter() {
        push_left_out(lines, mark, users, session)?;
    }
    let server: &Server = &carried.server;
    let (sessions, replies, challenges) = counts_of(server);
    let left_out = carried.left_out.len();
    let line = format!(in *lines.allocator();
        "{mark}restored sessions {sessions} replies {replies} challenges {challenges} left out {left_out}\n"
    )?;
    lines.push_str(&line)
}

// How many sessions, kept replies and challenges a server has.
fn counts_of(server: &Server) -> (u64, u64, u64) {
    let mut sessions: u64 = 0;
    for _session in server.sessions().rows() {
        sessions = sessions.saturating_add(1);
    }
    let mut replies: u64 = 0;
    for _reply in server.recent().rows() {
        replies = replies.saturating_add(1);
    }
    let mut challenges: u64 = 0;
    for _challenge in server.challenges().rows() {
        challenges = challenges.saturating_add(1);
    }
    (sessions, replies, challenges)
}

// Appends a line that tells of a session that was left out.
fn push_left_out(
    lines: &mut String,
    mark: &str,
    users: &[User],
    session: &Session,
) -> Result<(), AllocError> {
    let mut line = Vec::new(*lines.allocator());
    // Only memory ends a write to it.
    if fill_left_out(&mut line, mark, users, session).is_err() {
        return Err(AllocError);
    }
    if let Ok(line) = std::str::from_utf8(&line) {
        lines.push_str(line)?;
    }
    Ok(())
}

fn fill_left_out(
    line: &mut Vec<u8>,
    mark: &str,
    users: &[User],
    session: &Session,
) -> io::Result<()> {
    let number = session.number;
    write!(line, "{mark}left out session {number} user ")?;
    if let Some(user) = users.get(session.user as usize) {
        push_quoted(line, user.name.octets())?;
    }
    if let Some(address) = session.address {
        line.extend_from_slice(b" address ")?;
        push_address(line, address)?;
    }
    line.push(b'\n')?;
    Ok(())
}
