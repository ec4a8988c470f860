//! Requests that are cut off, and requests with padding.
ghost use Rattle.rad_auth.specs.Sealing.{IsReply};

use super::replies::{START_REPLY, empty_frames, lane};
use super::{START, arrival, three_clients, verdict_on};
use crate::tests::holds_at;
use rad_auth::Discard::{Short, Truncated};
use rad_auth::Door::{Acct, Auth};
use rad_auth::{Clients, Secret, check8, seal8};
use rad_packet::{Body, code};
use std::alloc::Global;
use std::process::Abort;
use test_common::{CLIENT, RFC_REQUEST, SECRET};

#[test]
fn a_request_that_is_cut_is_short_or_truncated(rt: HostRuntime) {
    let clients = three_clients(&rt, rt.alloc());
    for size in 0..RFC_REQUEST.len() {
        let verdict = verdict_on(&clients, CLIENT, Auth, &RFC_REQUEST[..size]);
        let want = if size < 20 { Short } else { Truncated };
        holds_at(&rt, verdict == Some(Err(want)), "octets", size);
    }
}

// The most octets of a datagram here.
const PADDED_MAX: usize = 5000;

// Whether a datagram in the first lane gets the reply to the start, which is sealed into an empty frame.
fn is_answered(
    rt: &impl Abort,
    alloc: Global,
    clients: &Clients,
    datagram: &[u8],
    body: &Body,
    secret: &Secret,
) -> bool
    requires { IsReply body.now }
{
    let mut arrivals = [None; 8];
    arrivals[0] = arrival(CLIENT, Acct, datagram);
    let requests = check8(clients, &arrivals);
    let Some(Ok(request)) = &requests[0] else {
        return false;
    };
    let mut frames = empty_frames(rt, alloc);
    let job = lane(request.packet.octets(), body, secret);
    seal8(
        &[job, None, None, None, None, None, None, None],
        &mut frames,
    );
    frames[0].octets() == START_REPLY.as_slice()
}

#[test]
fn a_padded_request_gets_the_same_reply(rt: HostRuntime) {
    const SIZES: &[usize] = &[26, 27, 28, 45, 46, 64, 4095, 4096, 4097, 4999, PADDED_MAX];
    let clients = three_clients(&rt, rt.alloc());
    let body = Body::new(rt.alloc(), code::ACCOUNTING_RESPONSE);
    let secret = Secret::new(SECRET);
    let mut padded = [7; PADDED_MAX];
    padded[..START.len()].copy_from_slice(START);
    for size in SIZES.iter() {
        let datagram = &padded[..(*size).min(PADDED_MAX)];
        let is_so = is_answered(&rt, rt.alloc(), &clients, datagram, &body, &secret);
        holds_at(&rt, is_so, "octets", *size);
    }
}
