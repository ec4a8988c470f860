//! Rounds of a service, and what they make.
ghost use Rattle.std.specs.Prelude.{◌≤◌, IfSome};
ghost use Rattle.rad_shell.specs.Rounds.{AreMoments, workers_max};

use super::datagrams::{Datagram, Sent, datagrams};
use crate::tests::holds;
use rad_auth::Discard;
use rad_config::Config;
use rad_packet::attribute::{FRAMED_IP_ADDRESS, REPLY_MESSAGE};
use rad_packet::code::{ACCESS_ACCEPT, ACCESS_REJECT, ACCOUNTING_RESPONSE};
use rad_packet::{Frame, Packet};
use rad_shell::{Done, Gate, Outcome, Service, Timed};
use std::alloc::Global;
use std::process::Abort;
use std::sync::Wait;
use std::thread::Threads;
use test_common::{CAMPUS, DRAW};

/// The most datagrams of a round.
const ROUND_MAX: usize = 512;

/// What an outcome must be.
#[derive(Clone, Copy)]
pub(crate) enum Wanted {
    Dropped(Discard),
    Busy,
    /// A reply of these octets.
    Octets(&'static [u8]),
    /// An Access-Accept with this Framed-IP-Address.
    Accept(&'static [u8]),
    /// An Access-Reject with this Reply-Message.
    Reject(&'static [u8]),
    /// An Accounting-Response.
    Response,
    /// A reply with this Code.
    Code(u8),
}

/// What a round makes of datagrams that all arrive at one moment; none if it fails, or memory is refused, or they are too many.
pub(crate) fn round<R: Threads + Wait + Sync, G: Gate + Sync>(
    rt: &R,
    alloc: Global,
    service: &mut Service,
    moment: u32,
    all: &[Sent],
    workers: u64,
    gate: &G,
) -> Option<Done>
    requires { (1 ≤ workers) × (workers ≤ workers_max) }
{
    let datagrams = datagrams(alloc, all)?;
    let arrivals = arrivals(alloc, &datagrams, moment)?;
    if arrivals.len() > ROUND_MAX {
        return None;
    }
    service.round(rt, &arrivals, workers, gate).ok()
}

/// What a round of a new service makes, at the moment 0. Asserts that these are then the numbers of the sessions.
pub(crate) fn first_round<R: Abort + Threads + Wait + Sync, G: Gate + Sync>(
    rt: &R,
    alloc: Global,
    all: &[Sent],
    workers: u64,
    gate: &G,
    sessions: &[u64],
) -> Option<Done>
    requires { (1 ≤ workers) × (workers ≤ workers_max) }
{
    let config = Config::read(alloc, CAMPUS).ok()?;
    first_round_with(rt, alloc, &config, all, workers, gate, sessions)
}

fn first_round_with<R: Abort + Threads + Wait + Sync, G: Gate + Sync>(
    rt: &R,
    alloc: Global,
    config: &Config,
    all: &[Sent],
    workers: u64,
    gate: &G,
    sessions: &[u64],
) -> Option<Done>
    requires { (1 ≤ workers) × (workers ≤ workers_max) }
{
    let mut service = Service::open(alloc, config).ok()?;
    let done = round(rt, alloc, &mut service, 0, all, workers, gate);
    holds(rt, are_sessions(&service, sessions), "the sessions");
    done
}

// The datagrams, as they arrive at a moment.
fn arrivals<'a>(alloc: Global, datagrams: &'a [Datagram], moment: u32) -> Option<Vec<Timed<'a>>>
    ensures { IfSome result (λ arrivals. AreMoments arrivals.items) }
{
    let mut arrivals = Vec::new(alloc);
    for datagram in datagrams.iter() {
        let timed = Timed {
            arrival: datagram.arrival(),
            moment: moment as u64,
            draw: *DRAW,
        };
        arrivals.push(timed).ok()?;
    }
    Some(arrivals)
}

/// Whether a round has so many outcomes, and so many entries.
pub(crate) fn has_len(done: &Option<Done>, outcomes: usize, entries: usize) -> bool {
    match done {
        Some(done) => done.outcomes.len() == outcomes && done.history.len() == entries,
        None => false,
    }
}

/// Whether these are the outcomes of a round.
pub(crate) fn are_outcomes(done: &Option<Done>, wanted: &[Wanted]) -> bool {
    match done {
        Some(done) => done.outcomes.len() == wanted.len() && is_each(&done.outcomes, wanted),
        None => false,
    }
}

fn is_each(outcomes: &[Outcome], wanted: &[Wanted]) -> bool {
    outcomes
        .iter()
        .zip(wanted)
        .all(|(outcome, wanted)| is_outcome(outcome, wanted))
}

/// Whether these are the tags of the entries of a round.
pub(crate) fn are_tags(done: &Option<Done>, wanted: &[u64]) -> bool {
    match done {
        Some(done) => done.history.len() == wanted.len() && has_tags(done, wanted),
        None => false,
    }
}

/// Whether the first entries of a round have these tags.
pub(crate) fn begins_with_tags(done: &Option<Done>, wanted: &[u64]) -> bool {
    match done {
        Some(done) => done.history.len() >= wanted.len() && has_tags(done, wanted),
        None => false,
    }
}

// Whether the entries have these tags, as far as there are both.
fn has_tags(done: &Done, wanted: &[u64]) -> bool {
    done.history
        .iter()
        .zip(wanted)
        .all(|(entry, tag)| entry.tag == *tag)
}

/// Whether a round has so many outcomes, each of which is as it must be, and so many entries.
pub(crate) fn has_each(done: &Option<Done>, count: usize, wanted: Wanted) -> bool {
    match done {
        Some(done) => {
            has_len_of(done, count)
                && done
                    .outcomes
                    .iter()
                    .all(|outcome| is_outcome(outcome, &wanted))
        }
        None => false,
    }
}

fn has_len_of(done: &Done, count: usize) -> bool {
    done.outcomes.len() == count && done.history.len() == count
}

/// Whether the entries are as many as these, and the outcome of each, by its tag, is the one at its place.
pub(crate) fn are_in_turn(done: &Option<Done>, wanted: &[Wanted]) -> bool {
    match done {
        Some(done) => {
            has_len_of(done, wanted.len())
                && done.history.iter().zip(wanted).all(|(entry, wanted)| is_tagged(
                    &done.outcomes,
                    entry.tag,
                    wanted,
                ))
        }
        None => false,
    }
}

fn is_tagged(outcomes: &[Outcome], tag: u64, wanted: &Wanted) -> bool {
    match outcomes.get(tag as usize) {
        Some(outcome) => is_outcome(outcome, wanted),
        None => false,
    }
}

/// Whether two rounds have the same outcomes.
pub(crate) fn are_same(done: &Option<Done>, other: &Option<Done>) -> bool {
    match (done, other) {
        (Some(done), Some(other)) => {
            done.outcomes.len() == other.outcomes.len() && is_each_same(done, other)
        }
        _ => false,
    }
}

fn is_each_same(done: &Done, other: &Done) -> bool {
    done.outcomes
        .iter()
        .zip(&other.outcomes)
        .all(|(one, two)| is_same(one, two))
}

// Whether two outcomes are the same.
fn is_same(outcome: &Outcome, other: &Outcome) -> bool {
    match (outcome, other) {
        (Outcome::Dropped(discard), Outcome::Dropped(other)) => discard == other,
        (Outcome::Reply(frame), Outcome::Reply(other)) => frame.octets() == other.octets(),
        (Outcome::Busy, Outcome::Busy) => true,
        _ => false,
    }
}

// Whether an outcome is as it must be.
fn is_outcome(outcome: &Outcome, wanted: &Wanted) -> bool {
    match outcome {
        Outcome::Dropped(discard) => match wanted {
            Wanted::Dropped(other) => discard == other,
            _ => false,
        },
        Outcome::Busy => matches!(wanted, Wanted::Busy),
        Outcome::NoMemory => false,
        Outcome::Reply(frame) => is_reply(frame, wanted),
    }
}

fn is_reply(frame: &Frame, wanted: &Wanted) -> bool {
    match wanted {
        Wanted::Octets(octets) => frame.octets() == *octets,
        Wanted::Accept(address) => has_attribute(frame, ACCESS_ACCEPT, FRAMED_IP_ADDRESS, address),
        Wanted::Reject(text) => has_attribute(frame, ACCESS_REJECT, REPLY_MESSAGE, text),
        Wanted::Response => has_code(frame, ACCOUNTING_RESPONSE),
        Wanted::Code(code) => has_code(frame, *code),
        Wanted::Dropped(_) | Wanted::Busy => false,
    }
}

fn has_code(frame: &Frame, code: u8) -> bool {
    match Packet::read(frame.octets()) {
        Ok(packet) => packet.code() == code,
        Err(_) => false,
    }
}

// Whether the first attribute of this Type has this Value.
fn has_attribute(frame: &Frame, code: u8, kind: u8, value: &[u8]) -> bool {
    match Packet::read(frame.octets()) {
        Ok(packet) => packet.code() == code && packet.first(kind) == Some(value),
        Err(_) => false,
    }
}

/// Whether these are the numbers of the sessions, oldest first.
pub(crate) fn are_sessions(service: &Service, wanted: &[u64]) -> bool {
    let mut rest = wanted.iter();
    for session in service.server().sessions().rows() {
        if rest.next() != Some(&session.number) {
            return false;
        }
    }
    rest.next().is_none()
}
