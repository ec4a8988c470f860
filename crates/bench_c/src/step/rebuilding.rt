//! A server that is rebuilt from the rows of one with full tables.
ghost use Rattle.std.specs.Prelude.{◌≡◌, IfSome};

use crate::clock;
use rad_config::{Config, MOMENT_MAX};
use rad_pool::Sessions;
use rad_recent::{Challenges, Recent};
use rad_server::{RowFault, Server, StateRow};
use std::alloc::Global;

/// How many nanoseconds it takes, copies of the rows included; none without memory, or if the server isn't the same.
pub(crate) fn time_rebuilding(alloc: Global, config: &Config, old: &Server) -> Option<u64> {
    let start = clock::now();
    let server = rebuilt(alloc, config, old)?;
    let spent = clock::now().wrapping_sub(start);
    if server.same(old) { Some(spent) } else { None }
}

fn rebuilt<'c>(alloc: Global, config: &'c Config, old: &Server) -> Option<Server<'c>> {
    let mut server = Server::open(alloc, config).ok()?;
    server.pass(old.clock().min(MOMENT_MAX));
    put_sessions(&mut server, old.sessions()).ok()?;
    put_replies(&mut server, old.recent())?;
    put_challenges(&mut server, old.challenges()).ok()?;
    Some(server)
}

fn put_sessions(server: &mut Server, old: &Sessions) -> Result<(), RowFault> {
    for session in old.rows() {
        server.restore(StateRow::Session(session))?;
    }
    server.restore(StateRow::LastSession(old.last()))
}

fn put_replies(server: &mut Server, old: &Recent) -> Option<()> {
    for reply in old.rows() {
        server.restore(StateRow::Reply(reply.copy().ok()?)).ok()?;
    }
    Some(())
}

fn put_challenges(server: &mut Server, old: &Challenges) -> Result<(), RowFault> {
    for challenge in old.rows() {
        server.restore(StateRow::Challenge(challenge))?;
    }
    server.restore(StateRow::LastChallenge(old.last()))
}
