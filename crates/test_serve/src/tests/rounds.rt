//! Rounds over sockets.
use super::LOOPBACK;
use super::client::{CONFIGURATION, SHORT, client, gets, sends};
use crate::tests::holds;
use rad_config::Config;
use rad_serve::UdpPorts;
use rad_shell::{OpenGate, Ports, Served, Service, run_rounds};
use rand_chacha::ChaCha20Rng;
use rand_core::SeedableRng;
use std::alloc::{AllocGlobal, Global};
use std::net::{Net, UdpSocket};
use std::process::Abort;
use std::sync::Wait;
use std::test::Fail;
use std::thread::Threads;
use std::time::Clock;
use test_common::{RFC_REQUEST, STATUS_SERVER};

const AUTH: u16 = 18120;

const ACCT: u16 = 18121;

/// What one round of two workers comes to, unless it fails.
fn one_round<R: Threads + Wait + Sync, P: Ports>(
    rt: &R,
    service: &mut Service,
    ports: &mut P,
) -> Option<Served> {
    let mut random = ChaCha20Rng::from_seed([0; 32]);
    run_rounds(service, rt, ports, &mut random, &OpenGate, 1, 2).ok()
}

fn says(rt: &impl Abort, alloc: Global, served: Option<Served>, line: &str) {
    let Some(served) = served else {
        return holds(rt, false, "the round ends well");
    };
    let text = served.to_string(alloc).unwrap_or(String::new(alloc));
    holds(rt, text.as_str() == line, "what the round came to");
}

fn send_three(rt: &impl Abort, client: &UdpSocket) {
    let sent = sends(client, AUTH, RFC_REQUEST)
        && sends(client, ACCT, STATUS_SERVER)
        && sends(client, AUTH, SHORT);
    holds(rt, sent, "three datagrams are sent");
}

// An Access-Accept with 10.0.0.1 and the Class of session 1, and an Accounting-Response.
fn get_two(rt: &impl Abort, client: &UdpSocket) {
    const ENDS: &[u8] = b"\x08\x06\x0a\x00\x00\x01\x19\x0eRAP1\0\0\0\0\0\0\0\x01";
    let accept = gets(client, AUTH, b"\x02\x00\x00\x46", ENDS);
    holds(rt, accept, "an Access-Accept from the authentication port");
    let response = gets(client, ACCT, b"\x05\x00\x00\x14", b"");
    holds(
        rt,
        response,
        "an Accounting-Response from the accounting port",
    );
}

fn answers_three<R: Threads + Wait + Sync + AllocGlobal + Abort, P: Ports>(
    rt: &R,
    service: &mut Service,
    ports: &mut P,
    client: &UdpSocket,
) {
    const LINE: &str = "rounds 1 datagrams 3 replies 2 drops 1 busy 0 nomemory 0 failed 0";
    send_three(rt, client);
    says(rt, rt.alloc(), one_round(rt, service, ports), LINE);
    get_two(rt, client);
    holds(rt, ports.faults() == 0, "no call failed");
}

#[test]
fn three_datagrams(rt: HostRuntime) -> Result<(), Fail> {
    let config = Config::read(rt.alloc(), CONFIGURATION)?;
    answers_three_by(&rt, &config)
}

fn answers_three_by<R: Net + Clock + Threads + Wait + Sync + AllocGlobal + Abort>(
    rt: &R,
    config: &Config,
) -> Result<(), Fail> {
    let mut service = Service::open(rt.alloc(), config)?;
    answers_three_at(rt, &mut service)
}

fn answers_three_at<R: Net + Clock + Threads + Wait + Sync + AllocGlobal + Abort>(
    rt: &R,
    service: &mut Service,
) -> Result<(), Fail> {
    let client = client(rt)?;
    let mut ports = UdpPorts::bind(rt, LOOPBACK, AUTH, ACCT)?;
    answers_three(rt, service, &mut ports, &client);
    Ok(())
}

/// More than half of a round. The smallest receive buffer that the system gives to a socket that asks for a large one holds as
/// many.
const HALF: u16 = 270;

fn send_many(rt: &impl Abort, client: &UdpSocket, port: u16) {
    for _ in 0..HALF {
        holds(rt, sends(client, port, SHORT), "one of many is sent");
    }
}

fn leaves_some<R: Threads + Wait + Sync + AllocGlobal + Abort, P: Ports>(
    rt: &R,
    service: &mut Service,
    ports: &mut P,
    client: &UdpSocket,
) {
    const FULL: &str = "rounds 1 datagrams 512 replies 0 drops 512 busy 0 nomemory 0 failed 0";
    const REST: &str = "rounds 1 datagrams 28 replies 0 drops 28 busy 0 nomemory 0 failed 0";
    send_many(rt, client, 18122);
    send_many(rt, client, 18123);
    says(rt, rt.alloc(), one_round(rt, service, ports), FULL);
    says(rt, rt.alloc(), one_round(rt, service, ports), REST);
}

// What is left over is received in the next turn, without another event.
#[test]
fn a_turn_ends_at_512(rt: HostRuntime) -> Result<(), Fail> {
    let config = Config::read(rt.alloc(), CONFIGURATION)?;
    leaves_some_by(&rt, &config)
}

fn leaves_some_by<R: Net + Clock + Threads + Wait + Sync + AllocGlobal + Abort>(
    rt: &R,
    config: &Config,
) -> Result<(), Fail> {
    let mut service = Service::open(rt.alloc(), config)?;
    leaves_some_at(rt, &mut service)
}

fn leaves_some_at<R: Net + Clock + Threads + Wait + Sync + AllocGlobal + Abort>(
    rt: &R,
    service: &mut Service,
) -> Result<(), Fail> {
    let client = client(rt)?;
    let mut ports = UdpPorts::bind(rt, LOOPBACK, 18122, 18123)?;
    leaves_some(rt, service, &mut ports, &client);
    Ok(())
}
