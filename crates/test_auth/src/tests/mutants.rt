//! Requests of the example, changed and cut, in each lane beside seven others.
ghost use Rattle.std.specs.Prelude.{◌<◌};

use super::example::{CLIENTS, EXAMPLE, LEN_MAX, REQUESTS, STRICT_CLIENTS};
use super::plain::plain_verdict;
use super::{Case, Client, Verdict, arrival, clients_of, have_verdicts, verdict};
use crate::tests::{holds, holds_at};
use rad_auth::Discard::{
    BadAttributes, BadAuthenticator, BadLength, BadMessageAuthenticator, NoMessageAuthenticator,
    Short, Truncated, WrongCode,
};
use rad_auth::{Arrival, Clients, Discard, check8};
use std::alloc::Global;
use std::process::Abort;

// What is done to a request at an octet.
#[derive(Clone, Copy)]
enum Change {
    Zero,
    Ones,
    Complement,
    // The request ends before it.
    Cut,
}

const CHANGES: &[Change; 4] = &[Change::Zero, Change::Ones, Change::Complement, Change::Cut];

// A request that was changed.
#[derive(Clone, Copy)]
struct Changed {
    buffer: [u8; LEN_MAX],
    len: usize,
}

impl Changed {
    fn octets(&self) -> &[u8] {
        &self.buffer[..self.len.min(LEN_MAX)]
    }
}

// A request that is changed at an octet, if it has that octet.
fn change_at(octets: &[u8], place: usize, change: Change) -> Changed {
    let len = octets.len().min(LEN_MAX);
    let mut buffer = [0; LEN_MAX];
    buffer[..len].copy_from_slice(&octets[..len]);
    let octet = &mut buffer[place % LEN_MAX];
    let mut left = len;
    match change {
        Change::Zero => *octet = 0,
        Change::Ones => *octet = 255,
        Change::Complement => *octet ^= 255,
        Change::Cut => left = len.min(place),
    }
    Changed { buffer, len: left }
}

// A call of `check8`: which request is in the first lane, and how it is changed. Each further lane has the next request, another
// octet and the next change.
#[derive(Clone, Copy)]
struct Call {
    request: usize,
    place: usize,
    change: usize,
}

// The request in a lane.
fn request_in(call: &Call, lane: usize) -> Case
    requires { lane < 8 }
{
    EXAMPLE[(call.request % REQUESTS + lane) % REQUESTS]
}

// How it is changed.
fn changed_in(call: &Call, lane: usize) -> Changed
    requires { lane < 8 }
{
    let (_, _, _, octets, _) = request_in(call, lane);
    let place = (call.place % LEN_MAX + 12 * lane) % LEN_MAX;
    change_at(octets, place, CHANGES[(call.change % 4 + lane) % 4])
}

// The verdict on it alone.
fn verdict_alone(rows: &[Client], call: &Call, lane: usize, datagram: &Changed) -> Verdict
    requires { lane < 8 }
{
    let (_, source, door, _, _) = request_in(call, lane);
    plain_verdict(rows, source, door, datagram.octets())
}

// A lane's datagram.
fn arrival_in<'a>(call: &Call, lane: usize, datagram: &'a Changed) -> Option<Arrival<'a>>
    requires { lane < 8 }
{
    let (_, source, door, _, _) = request_in(call, lane);
    arrival(source, door, datagram.octets())
}

// Whether each lane has the verdict on its datagram alone.
fn are_alone(clients: &Clients, rows: &[Client], call: &Call, datagrams: &[Changed; 8]) -> bool {
    let arrivals = [
        arrival_in(call, 0, &datagrams[0]),
        arrival_in(call, 1, &datagrams[1]),
        arrival_in(call, 2, &datagrams[2]),
        arrival_in(call, 3, &datagrams[3]),
        arrival_in(call, 4, &datagrams[4]),
        arrival_in(call, 5, &datagrams[5]),
        arrival_in(call, 6, &datagrams[6]),
        arrival_in(call, 7, &datagrams[7]),
    ];
    let verdicts = check8(clients, &arrivals);
    for lane in 0..8 {
        let alone = verdict_alone(rows, call, lane, &datagrams[lane]);
        if verdict(&verdicts[lane]) != Some(alone) {
            return false;
        }
    }
    true
}

fn is_judged_alone(clients: &Clients, rows: &[Client], call: &Call) -> bool {
    let mut datagrams = [NO_OCTETS; 8];
    for lane in 0..8 {
        datagrams[lane] = changed_in(call, lane);
    }
    are_alone(clients, rows, call, &datagrams)
}

const NO_OCTETS: Changed = Changed {
    buffer: [0; LEN_MAX],
    len: 0,
};

// Asserts it with this request in the first lane, changed so at each octet.
fn are_judged_alone(
    rt: &impl Abort,
    clients: &Clients,
    rows: &[Client],
    request: usize,
    change: usize,
) {
    for place in 0..LEN_MAX {
        let call = Call {
            request,
            place,
            change,
        };
        holds_at(rt, is_judged_alone(clients, rows, &call), "octet", place);
    }
}

// In the whole each request is in each lane, changed in each way at each octet.
fn all_are_judged_alone(rt: &impl Abort, clients: &Clients, rows: &[Client]) {
    for request in 0..REQUESTS {
        for change in 0..CHANGES.len() {
            are_judged_alone(rt, clients, rows, request, change);
        }
    }
}

// How many of a request's octets, each changed so alone, have this discard, or none.
fn octets_with(rows: &[Client], case: &Case, change: Change, discard: Option<Discard>) -> usize {
    let (_, source, door, octets, _) = *case;
    let mut count: usize = 0;
    for place in 0..octets.len() {
        let changed = change_at(octets, place, change);
        if plain_verdict(rows, source, door, changed.octets()).err() == discard {
            count = count.saturating_add(1);
        }
    }
    count
}

// The same of all requests and changes.
fn changes_with(rows: &[Client], discard: Option<Discard>) -> usize {
    let mut count: usize = 0;
    for case in EXAMPLE.iter() {
        for change in CHANGES.iter() {
            count = count.saturating_add(octets_with(rows, case, *change, discard));
        }
    }
    count
}

fn are_admitted_alone(rows: &[Client]) -> bool {
    for (_, source, door, octets, want) in EXAMPLE.iter() {
        if plain_verdict(rows, *source, *door, octets) != *want {
            return false;
        }
    }
    true
}

#[test]
fn requests_of_the_example_are_admitted(rt: HostRuntime) {
    are_admitted(&rt, rt.alloc(), CLIENTS);
    are_admitted(&rt, rt.alloc(), STRICT_CLIENTS);
}

fn are_admitted(rt: &impl Abort, alloc: Global, rows: &[Client]) {
    holds(rt, are_admitted_alone(rows), "each alone");
    have_verdicts(rt, &clients_of(rt, alloc, rows), EXAMPLE);
}

// How many changes have a discard, or none, where the second client's Access-Requests need no Message-Authenticator, and where they
// need one. They were counted by Python's hashlib and hmac, and are 1,892.
#[test]
fn changes_have_the_discards_that_were_counted_elsewhere(rt: HostRuntime) {
    const ROWS: &[(Option<Discard>, usize, usize)] = &[
        (None, 197, 188),
        (Some(Short), 160, 160),
        (Some(BadLength), 24, 24),
        (Some(Truncated), 329, 329),
        (Some(BadAttributes), 81, 81),
        (Some(WrongCode), 24, 24),
        (Some(BadAuthenticator), 336, 336),
        (Some(BadMessageAuthenticator), 738, 738),
        (Some(NoMessageAuthenticator), 3, 12),
    ];
    for (discard, count, strict_count) in ROWS.iter() {
        let is_so = changes_with(CLIENTS, *discard) == *count
            && changes_with(STRICT_CLIENTS, *discard) == *strict_count;
        holds_at(&rt, is_so, "changes", *count);
    }
}

#[test]
fn each_lane_has_the_verdict_on_its_changed_request(rt: HostRuntime) {
    all_are_judged_alone(&rt, &clients_of(&rt, rt.alloc(), CLIENTS), CLIENTS);
}

#[test]
fn each_lane_has_it_where_message_authenticators_are_required(rt: HostRuntime) {
    all_are_judged_alone(
        &rt,
        &clients_of(&rt, rt.alloc(), STRICT_CLIENTS),
        STRICT_CLIENTS,
    );
}
