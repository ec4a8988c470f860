//! Calls on a service, its turns and ports over memory.

use crate::requests::NEMO;
use crate::trial::{Called, HASH_KEY, Trial, Verdict, are_alike, begin, end, judge, keep};
use rad_auth::{Arrival, Door};
use rad_config::Config;
use rad_packet::code::{ACCESS_ACCEPT, ACCESS_REJECT};
use rad_server::{HashKey, Server};
use rad_shell::{
    Datagram, Done, MemoryPorts, OpenGate, Outcome, Ports, RECEIVED_MAX, RoundFault, Served,
    Service, Timed, Turns, Unwatched, run_rounds,
};
use rand_chacha::ChaCha20Rng;
use rand_core::SeedableRng;
use std::alloc::{AllocError, AllocGlobal, Global};
use std::sync::Wait;
use std::thread::Threads;
use test_common::{CAMPUS, CLIENT};

#[derive(Clone, Copy)]
pub(crate) enum Call {
    Open,
    OpenKeyed,
    /// By so many workers.
    Round(u64),
    /// The same with the frames that another round left.
    NextRound(u64),
    Reuse,
    TurnsOpen,
    Turns,
    Arrive,
}

/// The datagrams of a round: one more than a batch has lanes, so that two workers have something to do.
const COUNT: usize = 9;

/// How many users get an address.
const ACCEPTED: usize = 8;

/// The first address of the pool of eight.
const FIRST_ADDRESS: u32 = 0x0A00_0101;

/// The turns that are made. In each of them a request comes once.
const TURNS: u32 = 3;

// A user's Access-Request. Each has the same password and Request Authenticator.
macro_rules! user {
    ($octets:literal) => {
        Timed {
            arrival: Arrival {
                source: CLIENT,
                port: 1645,
                door: Door::Auth,
                octets: $octets,
            },
            moment: 0,
            draw: [0; 16],
        }
    };
}

/// Access-Requests of the nine users of a pool of eight.
const REQUESTS: &[Timed] = &[
    user!(
        b"\x01\x01\x00\x2a\0\0\0\0\0\0\0\0\0\0\0\0\0\0\0\0\x01\x04u1\x02\x12\x6d\x4d\xa2\x3f\x12\x90\x4b\x2e\x98\x95\x2c\xb3\x7f\x16\x3f\xb1"
    ),
    user!(
        b"\x01\x02\x00\x2a\0\0\0\0\0\0\0\0\0\0\0\0\0\0\0\0\x01\x04u2\x02\x12\x6d\x4d\xa2\x3f\x12\x90\x4b\x2e\x98\x95\x2c\xb3\x7f\x16\x3f\xb1"
    ),
    user!(
        b"\x01\x03\x00\x2a\0\0\0\0\0\0\0\0\0\0\0\0\0\0\0\0\x01\x04u3\x02\x12\x6d\x4d\xa2\x3f\x12\x90\x4b\x2e\x98\x95\x2c\xb3\x7f\x16\x3f\xb1"
    ),
    user!(
        b"\x01\x04\x00\x2a\0\0\0\0\0\0\0\0\0\0\0\0\0\0\0\0\x01\x04u4\x02\x12\x6d\x4d\xa2\x3f\x12\x90\x4b\x2e\x98\x95\x2c\xb3\x7f\x16\x3f\xb1"
    ),
    user!(
        b"\x01\x05\x00\x2a\0\0\0\0\0\0\0\0\0\0\0\0\0\0\0\0\x01\x04u5\x02\x12\x6d\x4d\xa2\x3f\x12\x90\x4b\x2e\x98\x95\x2c\xb3\x7f\x16\x3f\xb1"
    ),
    user!(
        b"\x01\x06\x00\x2a\0\0\0\0\0\0\0\0\0\0\0\0\0\0\0\0\x01\x04u6\x02\x12\x6d\x4d\xa2\x3f\x12\x90\x4b\x2e\x98\x95\x2c\xb3\x7f\x16\x3f\xb1"
    ),
    user!(
        b"\x01\x07\x00\x2a\0\0\0\0\0\0\0\0\0\0\0\0\0\0\0\0\x01\x04u7\x02\x12\x6d\x4d\xa2\x3f\x12\x90\x4b\x2e\x98\x95\x2c\xb3\x7f\x16\x3f\xb1"
    ),
    user!(
        b"\x01\x08\x00\x2a\0\0\0\0\0\0\0\0\0\0\0\0\0\0\0\0\x01\x04u8\x02\x12\x6d\x4d\xa2\x3f\x12\x90\x4b\x2e\x98\x95\x2c\xb3\x7f\x16\x3f\xb1"
    ),
    user!(
        b"\x01\x09\x00\x2a\0\0\0\0\0\0\0\0\0\0\0\0\0\0\0\0\x01\x04u9\x02\x12\x6d\x4d\xa2\x3f\x12\x90\x4b\x2e\x98\x95\x2c\xb3\x7f\x16\x3f\xb1"
    ),
];

pub(crate) fn judge_call<R: Threads + Wait + Sync + AllocGlobal>(rt: &R, call: Call) -> Verdict {
    match Config::read(rt.alloc(), CAMPUS) {
        Ok(config) => judge_with(rt, rt.alloc(), &config, call),
        Err(_) => Verdict::Unready,
    }
}

fn judge_with<R: Threads + Wait + Sync>(
    rt: &R,
    alloc: Global,
    config: &Config,
    call: Call,
) -> Verdict {
    match call {
        Call::Open => judge(alloc, Some(OpenTrial::new(alloc, config, None))),
        Call::OpenKeyed => judge(alloc, Some(OpenTrial::new(alloc, config, Some(HASH_KEY)))),
        Call::TurnsOpen => judge_open_turns(alloc),
        Call::Arrive => judge_arrival(alloc),
        _ => judge_over(rt, alloc, config, call),
    }
}

fn judge_over<R: Threads + Wait + Sync>(
    rt: &R,
    alloc: Global,
    config: &Config,
    call: Call,
) -> Verdict {
    match Service::open(alloc, config) {
        Ok(mut service) => judge_service(rt, alloc, &mut service, call),
        Err(_) => Verdict::Unready,
    }
}

fn judge_service<R: Threads + Wait + Sync>(
    rt: &R,
    alloc: Global,
    service: &mut Service,
    call: Call,
) -> Verdict {
    match call {
        Call::Round(workers) => judge_round(rt, alloc, service, workers),
        Call::NextRound(workers) => judge_next_round(rt, alloc, service, workers),
        Call::Reuse => judge_reuse(rt, alloc, service),
        _ => judge_turns(rt, alloc, service),
    }
}

/// A service is opened.
#[derive(Drop)]
struct OpenTrial<'c> {
    alloc: Global,
    config: &'c Config,
    key: Option<HashKey>,
    given: Option<Service<'c>>,
}

impl<'c> OpenTrial<'c> {
    fn new(alloc: Global, config: &'c Config, key: Option<HashKey>) -> OpenTrial<'c> {
        OpenTrial {
            alloc,
            config,
            key,
            given: None,
        }
    }
}

impl<'c> Trial for OpenTrial<'c> {
    fn copy(&self) -> Option<OpenTrial<'c>> {
        Some(OpenTrial::new(self.alloc, self.config, self.key))
    }

    fn is_like(&self, other: &OpenTrial) -> bool {
        are_alike(&self.given, &other.given, |given, other| {
            given.server().same(other.server())
        })
    }

    fn call(&mut self) -> Called {
        let service = match self.key {
            None => Service::open(self.alloc, self.config),
            Some(key) => Service::open_keyed(self.alloc, self.config, key),
        };
        keep(&mut self.given, service)
    }
}

fn round<R: Threads + Wait + Sync>(
    rt: &R,
    service: &mut Service,
    workers: u64,
) -> Result<Done, RoundFault> {
    service.round(rt, REQUESTS, workers.clamp(1, 2), &OpenGate)
}

/// Either each request has its reply; or what is refused memory has changed nothing, and a second call answers them all.
fn judge_round<R: Threads + Wait + Sync>(
    rt: &R,
    alloc: Global,
    service: &mut Service,
    workers: u64,
) -> Verdict {
    match service.server().copy() {
        Ok(before) => judge_round_after(rt, alloc, service, workers, &before),
        Err(_) => Verdict::Unready,
    }
}

fn judge_round_after<R: Threads + Wait + Sync>(
    rt: &R,
    alloc: Global,
    service: &mut Service,
    workers: u64,
    before: &Server,
) -> Verdict {
    begin(alloc);
    let result = round(rt, service, workers);
    end(alloc);
    match result {
        Ok(done) => judge_done(rt, service, workers, before, &done),
        Err(RoundFault::NoMemory) => judge_refused(rt, service, workers, before),
        Err(_) => Verdict::Fault,
    }
}

fn judge_done<R: Threads + Wait + Sync>(
    rt: &R,
    service: &mut Service,
    workers: u64,
    before: &Server,
    done: &Done,
) -> Verdict {
    if is_answered(done) {
        judge_addresses(service)
    } else if !is_refused_in_part(done) {
        Verdict::Other
    } else if done.history.is_empty() {
        judge_refused(rt, service, workers, before)
    } else {
        judge_again(rt, service, workers)
    }
}

// A round without an exchange must have changed nothing.
fn judge_refused<R: Threads + Wait + Sync>(
    rt: &R,
    service: &mut Service,
    workers: u64,
    before: &Server,
) -> Verdict {
    if service.server().same(before) {
        judge_again(rt, service, workers)
    } else {
        Verdict::Changed
    }
}

fn judge_again<R: Threads + Wait + Sync>(rt: &R, service: &mut Service, workers: u64) -> Verdict {
    match round(rt, service, workers) {
        Ok(done) if is_answered(&done) => judge_addresses(service),
        _ => Verdict::Other,
    }
}

/// The sessions must have the eight addresses, the least first.
fn judge_addresses(service: &Service) -> Verdict {
    let mut next = FIRST_ADDRESS;
    for session in service.server().sessions().rows() {
        if session.address != Some(next) {
            return Verdict::Other;
        }
        next = next.wrapping_add(1);
    }
    Verdict::of(next == FIRST_ADDRESS + ACCEPTED as u32)
}

// The requests of a second round are repeats, whose replies are kept.
fn judge_next_round<R: Threads + Wait + Sync>(
    rt: &R,
    alloc: Global,
    service: &mut Service,
    workers: u64,
) -> Verdict {
    match round(rt, service, workers) {
        Ok(done) => {
            service.reuse(done);
            judge_round(rt, alloc, service, workers)
        }
        Err(_) => Verdict::Unready,
    }
}

// A round must be right after frames were taken back, some of which may be lost.
fn judge_reuse<R: Threads + Wait + Sync>(rt: &R, alloc: Global, service: &mut Service) -> Verdict {
    match round(rt, service, 1) {
        Ok(done) => {
            begin(alloc);
            service.reuse(done);
            end(alloc);
            judge_again(rt, service, 1)
        }
        Err(_) => Verdict::Unready,
    }
}

fn is_answered(done: &Done) -> bool {
    done.outcomes.len() == COUNT
        && done.history.len() == COUNT
        && replies(done, ACCESS_ACCEPT) == ACCEPTED
        && replies(done, ACCESS_REJECT) == COUNT - ACCEPTED
}

// Whether each request has its reply or was refused memory, and the history has the entries of those with replies.
fn is_refused_in_part(done: &Done) -> bool {
    let replied = replies(done, ACCESS_ACCEPT).saturating_add(replies(done, ACCESS_REJECT));
    replied == done.history.len() && replied.saturating_add(refusals(done)) == COUNT
}

fn replies(done: &Done, code: u8) -> usize {
    done.outcomes
        .iter()
        .filter(|outcome| is_reply(outcome, code))
        .count()
}

fn is_reply(outcome: &Outcome, code: u8) -> bool {
    match outcome {
        Outcome::Reply(frame) => frame.octets().first() == Some(&code),
        _ => false,
    }
}

fn refusals(done: &Done) -> usize {
    done.outcomes
        .iter()
        .filter(|outcome| matches!(outcome, Outcome::NoMemory))
        .count()
}

fn judge_open_turns(alloc: Global) -> Verdict {
    begin(alloc);
    let is_open = are_turns_open(alloc);
    end(alloc);
    Verdict::of(is_open || are_turns_open(alloc))
}

fn are_turns_open(alloc: Global) -> bool {
    let mut random = ChaCha20Rng::from_seed([0; 32]);
    Turns::open(alloc, &mut random, &OpenGate, Unwatched).is_ok()
}

/// All turns are made. What is refused memory is counted, and changes nothing: then the same turns, made once more, reply to each
/// request.
fn judge_turns<R: Threads + Wait + Sync>(rt: &R, alloc: Global, service: &mut Service) -> Verdict {
    match coming(alloc) {
        Some(mut ports) => judge_turns_at(rt, alloc, service, &mut ports),
        None => Verdict::Unready,
    }
}

fn judge_turns_at<R: Threads + Wait + Sync>(
    rt: &R,
    alloc: Global,
    service: &mut Service,
    ports: &mut MemoryPorts,
) -> Verdict {
    begin(alloc);
    let served = served(rt, service, ports);
    end(alloc);
    match served {
        Some(served) if !is_counted(&served, ports) => Verdict::Other,
        Some(_) => judge_turns_again(rt, alloc, service),
        None => Verdict::Fault,
    }
}

fn judge_turns_again<R: Threads + Wait + Sync>(
    rt: &R,
    alloc: Global,
    service: &mut Service,
) -> Verdict {
    match coming(alloc) {
        Some(mut ports) => Verdict::of(served(rt, service, &mut ports) == Some(ALL_SERVED)),
        None => Verdict::Unready,
    }
}

/// The sums of turns that are refused no memory.
const ALL_SERVED: Served = Served {
    rounds: TURNS as u64,
    datagrams: TURNS as u64,
    replies: TURNS as u64,
    drops: 0,
    busy: 0,
    nomemory: 0,
    failed: 0,
};

// A turn without room for its datagrams leaves them to the next one. Of those that were received, each has a reply, is refused
// memory alone, or is lost with its round.
fn is_counted(served: &Served, ports: &MemoryPorts) -> bool {
    let counted = served.replies.saturating_add(served.nomemory);
    served.rounds == ALL_SERVED.rounds
        && served.drops == 0
        && served.busy == 0
        && served.failed == ports.pauses()
        && counted <= served.datagrams
        && served.datagrams <= counted.saturating_add(served.failed)
        && (served.failed > 0 || served.datagrams == ALL_SERVED.datagrams)
}

fn served<R: Threads + Wait + Sync>(
    rt: &R,
    service: &mut Service,
    ports: &mut MemoryPorts,
) -> Option<Served> {
    let mut random = ChaCha20Rng::from_seed([0; 32]);
    run_rounds(service, rt, ports, &mut random, &OpenGate, TURNS, 1).ok()
}

// Ports to which a request comes in each turn.
fn coming(alloc: Global) -> Option<MemoryPorts> {
    let mut ports = MemoryPorts::new(alloc);
    for turn in 0..TURNS {
        arrive(alloc, &mut ports, turn as u64 + 1).ok()?;
    }
    Some(ports)
}

fn arrive(alloc: Global, ports: &mut MemoryPorts, turn: u64) -> Result<(), AllocError> {
    ports.arrive(Datagram {
        turn,
        address: CLIENT,
        port: NEMO.port,
        door: NEMO.door,
        moment: 0,
        octets: NEMO.octets.to_vec(alloc)?,
    })
}

/// A datagram that was refused memory doesn't come; the same once more does. It has no octets, which take no memory.
fn judge_arrival(alloc: Global) -> Verdict {
    let mut ports = MemoryPorts::new(alloc);
    begin(alloc);
    let is_come = let_come(alloc, &mut ports);
    end(alloc);
    match (is_come, receives(&mut ports), receives(&mut ports)) {
        (false, false, _) => judge_arrival_again(alloc, &mut ports),
        (is_come, is_received, is_more) => Verdict::of(is_come && is_received && !is_more),
    }
}

fn judge_arrival_again(alloc: Global, ports: &mut MemoryPorts) -> Verdict {
    Verdict::of(let_come(alloc, ports) && receives(ports) && !receives(ports))
}

fn let_come(alloc: Global, ports: &mut MemoryPorts) -> bool {
    let datagram = Datagram {
        turn: 0,
        address: CLIENT,
        port: NEMO.port,
        door: NEMO.door,
        moment: 0,
        octets: Vec::new(alloc),
    };
    ports.arrive(datagram).is_ok()
}

fn receives(ports: &mut MemoryPorts) -> bool {
    let mut buffer = [0; RECEIVED_MAX];
    matches!(ports.receive(&mut buffer), Ok(Some(_)))
}
