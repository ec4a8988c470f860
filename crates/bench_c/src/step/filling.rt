//! Servers with full tables.
ghost use Rattle.std.specs.Prelude.{◌≡◌, ◌≤◌, IfSome};
ghost use Rattle.rad_config.specs.Spans.{moment_max};

use crate::clock;
use crate::step::datagrams::{admit, datagram};
use crate::step::requests::Kind;
use crate::step::work::{DRAW, Work};
use rad_config::Config;
use rad_server::Server;
use std::alloc::Global;

/// A server whose tables are full; none without memory, or if a reply isn't as wanted. The nanoseconds of the step that each row
/// took are put down, as far as there is room.
pub(crate) fn full_server<'c>(
    alloc: Global,
    config: &'c Config,
    work: Work,
    times: &mut [u64],
) -> Option<Server<'c>>
    ensures { IfSome result (λ server. server.configuration ≡ config.now) }
{
    let mut server = Server::open(alloc, config).ok()?;
    match add_rows(alloc, &mut server, work, times) {
        Some(()) => Some(server),
        None => None,
    }
}

fn add_rows(alloc: Global, server: &mut Server, work: Work, times: &mut [u64]) -> Option<()>
    ensures { server.new.configuration ≡ server.old.configuration }
{
    'rows: for place in 0..work.rows {
        let spent = add_row(alloc, server, work, place)?;
        if place < times.len() {
            times[place] = spent;
        }
    }
    Some(())
}

// Adds a row to each table. The request that is challenged and the one that is accepted have the same key, so one reply is kept.
fn add_row(alloc: Global, server: &mut Server, work: Work, place: usize) -> Option<u64>
    ensures { server.new.configuration ≡ server.old.configuration }
{
    let moment = work.moment_of_row(place);
    if place < work.challenges {
        sign_and_ask(alloc, server, Kind::Challenge, place, moment)?;
    }
    if place < work.plain {
        sign_and_ask(alloc, server, Kind::Accept, place, moment)
    } else {
        sign_and_ask(alloc, server, Kind::Pooled, place, moment)
    }
}

// Takes a step with the request of a place, and returns the nanoseconds of it.
fn sign_and_ask(
    alloc: Global,
    server: &mut Server,
    kind: Kind,
    place: usize,
    moment: u64,
) -> Option<u64>
    requires { moment ≤ moment_max }
    ensures { server.new.configuration ≡ server.old.configuration }
{
    let frame = datagram(alloc, server.config().clients(), kind, place, 0)?;
    ask(server, kind, frame.octets(), place, moment)
}

fn ask(server: &mut Server, kind: Kind, octets: &[u8], place: usize, moment: u64) -> Option<u64>
    requires { moment ≤ moment_max }
    ensures { server.new.configuration ≡ server.old.configuration }
{
    let clients = server.config().clients();
    let request = admit(clients, kind, octets, place)?;
    let start = clock::now();
    let answer = server.step(&request, moment, &DRAW).ok()?;
    let spent = clock::now().wrapping_sub(start);
    if kind.is_wanted(&answer) {
        Some(spent)
    } else {
        None
    }
}
