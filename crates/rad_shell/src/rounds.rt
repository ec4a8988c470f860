//! Rounds over ports, for one call.
ghost use Rattle.std.specs.Prelude.{◌≡◌, ◌≤◌, ◌+◌, false, IfErr};
ghost use Rattle.rand_core.specs.Stream.{Stream};
ghost use Rattle.rad_round.specs.Rounds.{workers_max};
ghost use Rattle.rad_shell.specs.Serving.{HasCause, IsServed, port_faults};

use crate::ports::Ports;
use crate::serve_fault::ServeFault;
use crate::served::Served;
use crate::turns::Turns;
use crate::watch::Unwatched;
use rad_round::{Gate, Service};
use rand_core::Rng;
use std::sync::Wait;
use std::thread::Threads;

/// Answers the datagrams that come to ports, in so many turns, by at most so many workers, from 1 to `WORKERS_MAX`.
///
/// It is `Turns::run` for a caller that makes no second call and watches none: the first turn takes the memory for datagrams.
pub fn run_rounds<R: Threads + Wait + Sync, P: Ports, D: Rng, G: Gate + Sync>(
    service: &mut Service,
    rt: &R,
    ports: &mut P,
    random: &mut D,
    gate: &G,
    rounds: u32,
    workers: u64,
) -> Result<Served, ServeFault>
    requires workers { (1 ≤ workers) × (workers ≤ workers_max) }
    ensures served { (rest : Stream) × IsServed false rounds
        (record { server = service.old; random = D.stream random.old; passed = P.passed ports.old })
        result
        (record { server = service.new; random = rest; passed = P.passed ports.new }) }
    ensures reported { P.reported ports.new ≡ P.reported ports.old + port_faults result }
    ensures fault { IfErr result
        (HasCause false (P.failures ports.old) (P.failures ports.new)) }
    ensures counted { P.failures ports.old ≤ P.failures ports.new }
{
    Turns::without_room(random, gate, Unwatched).run(rt, service, ports, rounds, workers)
}
