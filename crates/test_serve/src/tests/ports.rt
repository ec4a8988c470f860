//! What two ports receive and send, how long they wait, and ports that can't be bound.
use super::LOOPBACK;
use super::client::{client, gets, sends};
use crate::tests::holds;
use rad_auth::Door;
use rad_serve::{BindFault, Moments, UdpPorts, Unbound};
use rad_shell::{FailedCall, Got, PortCall, PortFault, Ports, RECEIVED_MAX};
use std::alloc::AllocGlobal;
use std::net::{Net, UdpSocket};
use std::process::Abort;
use std::sync::Wait;
use std::test::Fail;
use std::thread::sleep;
use std::time::{Clock, Duration};
use test_common::STATUS_SERVER;

// The door of the next datagram, and how long it is.
fn received(got: Result<Option<Got>, PortFault>) -> Option<(Door, usize)> {
    match got {
        Ok(Some(got)) => Some((got.door, got.len)),
        _ => None,
    }
}

fn next_is<P: Ports>(rt: &impl Abort, ports: &mut P, wanted: Option<(Door, usize)>, what: &str) {
    let mut buffer = [0; RECEIVED_MAX];
    holds(rt, received(ports.receive(&mut buffer)) == wanted, what);
}

fn empties_auth_first<R: Abort + Wait, P: Ports>(rt: &R, ports: &mut P, client: &UdpSocket) {
    let sent = sends(client, 18125, b"one")
        && sends(client, 18125, b"")
        && sends(client, 18124, STATUS_SERVER);
    holds(rt, sent, "three datagrams are sent");
    ports.wait(rt);
    next_is(rt, ports, Some((Door::Auth, 38)), "the last, to auth");
    next_is(rt, ports, Some((Door::Acct, 3)), "the first, to acct");
    next_is(rt, ports, Some((Door::Acct, 0)), "an empty one");
    next_is(rt, ports, None, "no other");
    holds(rt, ports.faults() == 0, "to wait is no failure");
}

#[test]
fn the_authentication_port_is_first(rt: HostRuntime) -> Result<(), Fail> {
    let client = client(&rt)?;
    let mut ports = UdpPorts::bind(&rt, LOOPBACK, 18124, 18125)?;
    empties_auth_first(&rt, &mut ports, &client);
    Ok(())
}

// Sends so many datagrams to a port, and says whether they went out.
fn sends_many(client: &UdpSocket, port: u16, count: u16) -> bool {
    (0..count).all(|_| sends(client, port, b"many"))
}

// From which doors the next datagrams come: so many from each, one after another.
fn next_are<P: Ports>(rt: &impl Abort, ports: &mut P, wanted: &[(Door, u16)], what: &str) {
    for (door, count) in wanted.iter() {
        for _ in 0..*count {
            next_is(rt, ports, Some((*door, 4)), what);
        }
    }
}

fn shares_a_turn<R: Abort + Wait, P: Ports>(rt: &R, ports: &mut P, client: &UdpSocket) {
    let sent = sends_many(client, 18140, 270) && sends_many(client, 18141, 3);
    holds(
        rt,
        sent,
        "more than half of a turn to auth, and some to acct",
    );
    ports.wait(rt);
    let wanted = [(Door::Auth, 256), (Door::Acct, 3), (Door::Auth, 14)];
    next_are(rt, ports, &wanted, "half of a turn, acct's, the rest");
    next_is(rt, ports, None, "no other");
}

// Nothing is left to acct's mark when its datagram comes in the middle of auth's.
fn looks_at_both<R: Abort + Wait, P: Ports>(rt: &R, ports: &mut P, client: &UdpSocket) {
    holds(rt, sends_many(client, 18140, 8), "some to auth");
    ports.wait(rt);
    next_are(rt, ports, &[(Door::Auth, 4)], "not all of them");
    holds(rt, sends_many(client, 18141, 1), "one to acct");
    ports.wait(rt);
    let wanted = [(Door::Auth, 4), (Door::Acct, 1)];
    next_are(rt, ports, &wanted, "the rest, and acct's in the same turn");
    next_is(rt, ports, None, "no other");
}

#[test]
fn neither_port_keeps_the_other_one_waiting(rt: HostRuntime) -> Result<(), Fail> {
    let client = client(&rt)?;
    let mut ports = UdpPorts::bind(&rt, LOOPBACK, 18140, 18141)?;
    shares_a_turn(&rt, &mut ports, &client);
    looks_at_both(&rt, &mut ports, &client);
    Ok(())
}

// After each wait that an event ends, the socket that has the datagram is looked at, and then the other one, until both are empty.
fn wakes_up<R: Abort + Wait, P: Ports>(
    rt: &R,
    ports: &mut P,
    client: &UdpSocket,
    auth: u16,
    acct: u16,
) {
    for (port, door) in [(acct, Door::Acct), (auth, Door::Auth), (acct, Door::Acct)].iter() {
        holds(rt, sends(client, *port, b"woken"), "a datagram to a port");
        ports.wait(rt);
        next_is(rt, ports, Some((*door, 5)), "from that port");
        next_is(rt, ports, None, "no other");
    }
    holds(rt, ports.faults() == 0, "nothing has failed");
}

#[test]
fn each_port_wakes_an_idle_server_up(rt: HostRuntime) -> Result<(), Fail> {
    let client = client(&rt)?;
    let mut ports = UdpPorts::bind(&rt, LOOPBACK, 0, 0)?;
    let (auth, acct) = (ports.port(Door::Auth), ports.port(Door::Acct));
    holds(&rt, auth != 0 && acct != 0, "the system's ports");
    wakes_up(&rt, &mut ports, &client, auth, acct);
    Ok(())
}

// The moment of the next datagram.
fn moment<R: Wait, P: Ports>(rt: &R, ports: &mut P) -> Option<u64> {
    let mut buffer = [0; RECEIVED_MAX];
    ports.wait(rt);
    match ports.receive(&mut buffer) {
        Ok(Some(got)) => Some(got.moment),
        _ => None,
    }
}

// How many milliseconds lie between two datagrams, the second of which is sent 20 after the first was received.
fn between<R: Clock + Wait, P: Ports>(
    rt: &R,
    ports: &mut P,
    client: &UdpSocket,
    auth: u16,
) -> Option<u64> {
    if !sends(client, auth, b"first") {
        return None;
    }
    let first = moment(rt, ports)?;
    sleep(rt, Duration::from_millis(20));
    if !sends(client, auth, b"second") {
        return None;
    }
    moment(rt, ports)?.checked_sub(first)
}

#[test]
fn moments_are_milliseconds(rt: HostRuntime) -> Result<(), Fail> {
    let client = client(&rt)?;
    let mut ports = UdpPorts::bind(&rt, LOOPBACK, 0, 0)?;
    let auth = ports.port(Door::Auth);
    let between = between(&rt, &mut ports, &client, auth);
    holds(
        &rt,
        between.is_some_and(|span| span >= 15 && span <= 5_000),
        "some 20 milliseconds",
    );
    Ok(())
}

#[test]
fn moments_go_on(rt: HostRuntime) -> Result<(), Fail> {
    let mut ports = UdpPorts::bind(&rt, LOOPBACK, 0, 0)?;
    ports.go_by(Moments::from(&rt, 1_000_000));
    let moment = ports.moment();
    holds(
        &rt,
        moment.is_some_and(|now| now >= 1_000_000 && now <= 1_005_000),
        "from a million",
    );
    holds(
        &rt,
        ports.wall() >= 1_700_000_000_000,
        "the wall time is after 2023",
    );
    Ok(())
}

// How many milliseconds a wait takes, after one of two datagrams was received; then, how many a pause takes.
fn wait_and_pause<R: Clock + Wait, P: Ports>(
    rt: &R,
    ports: &mut P,
    client: &UdpSocket,
    auth: u16,
) -> Option<(u128, u128)> {
    if !sends(client, auth, b"first") || !sends(client, auth, b"second") {
        return None;
    }
    moment(rt, ports)?;
    let begin = rt.monotonic().ok()?;
    ports.wait(rt);
    let middle = rt.monotonic().ok()?;
    ports.pause();
    let end = rt.monotonic().ok()?;
    let waited = middle.checked_sub(begin)?.as_millis();
    Some((waited, end.checked_sub(middle)?.as_millis()))
}

// What is left over is received without a wait.
#[test]
fn a_wait_is_short_and_a_pause_long(rt: HostRuntime) -> Result<(), Fail> {
    let client = client(&rt)?;
    let mut ports = UdpPorts::bind(&rt, LOOPBACK, 0, 0)?;
    let auth = ports.port(Door::Auth);
    let took = wait_and_pause(&rt, &mut ports, &client, auth);
    holds(
        &rt,
        took.is_some_and(|(waited, paused)| waited < 500 && paused >= 900),
        "no wait, and a pause of a second",
    );
    Ok(())
}

fn cuts<R: Abort, P: Ports>(rt: &R, ports: &mut P, client: &UdpSocket) {
    holds(rt, sends(client, 18126, &[7; 5000]), "5,000 octets");
    next_is(rt, ports, Some((Door::Auth, 4096)), "4,096 octets");
    next_is(rt, ports, None, "no other");
}

#[test]
fn a_long_datagram_is_cut(rt: HostRuntime) -> Result<(), Fail> {
    let client = client(&rt)?;
    let mut ports = UdpPorts::bind(&rt, LOOPBACK, 18126, 18127)?;
    cuts(&rt, &mut ports, &client);
    Ok(())
}

/// A send to port 0, which the system refuses as invalid (EINVAL).
const LOST: FailedCall = FailedCall {
    call: PortCall::Send(Door::Auth),
    destination: Some((LOOPBACK, 0)),
    number: Some(22),
};

// The system refuses to send to port 0, where no reply can go. The ports count it, remember it, and send on.
fn loses_one<R: Abort, P: Ports>(rt: &R, ports: &mut P, client: &UdpSocket, good: u16) {
    holds(rt, ports.last_failure().is_none(), "no failure yet");
    let sent = ports.send(Door::Auth, LOOPBACK, 0, b"lost");
    holds(rt, sent.is_ok(), "no fault");
    holds(rt, ports.faults() == 1, "a failure");
    holds(rt, ports.last_failure() == Some(LOST), "what failed");
    let sent = ports.send(Door::Acct, LOOPBACK, good, b"found");
    holds(rt, sent.is_ok(), "no fault");
    holds(rt, gets(client, 18129, b"found", b""), "the next one");
}

#[test]
fn a_datagram_from_port_0_is_lost(rt: HostRuntime) -> Result<(), Fail> {
    let client = client(&rt)?;
    let good = client.local_addr()?.port();
    let mut ports = UdpPorts::bind(&rt, LOOPBACK, 18128, 18129)?;
    loses_one(&rt, &mut ports, &client, good);
    Ok(())
}

// TEST-NET-1, RFC 5737: no machine has it.
const NOBODYS: u32 = 0xC000_0201;

/// Address and ports, the port that can't be bound, and the number of the system's reason: EADDRINUSE or EADDRNOTAVAIL.
const UNBOUND: &[(u32, u16, u16, u16, i32, &str)] = &[
    (LOOPBACK, 18132, 18134, 18132, 98, "the first is taken"),
    (LOOPBACK, 18134, 18133, 18133, 98, "the second is taken"),
    (LOOPBACK, 18134, 18134, 18134, 98, "one port twice"),
    (NOBODYS, 18134, 18135, 18134, 99, "another machine's"),
];

// Which address and port can't be bound, and why.
fn unbound<R: Net + Clock + AllocGlobal>(
    rt: &R,
    address: u32,
    auth: u16,
    acct: u16,
) -> Option<((u32, u16), i32)> {
    match UdpPorts::bind(rt, address, auth, acct) {
        Err(BindFault::Bind(Unbound { at, error })) => Some((at?, error.raw_os_error()?)),
        _ => None,
    }
}

#[test]
fn ports_that_cannot_be_bound(rt: HostRuntime) -> Result<(), Fail> {
    let _taken = UdpPorts::bind(&rt, LOOPBACK, 18132, 18133)?;
    for (address, auth, acct, port, number, what) in UNBOUND.iter() {
        let found = unbound(&rt, *address, *auth, *acct);
        holds(&rt, found == Some(((*address, *port), *number)), what);
    }
    Ok(())
}
