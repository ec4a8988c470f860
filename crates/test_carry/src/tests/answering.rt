//! A server answers on after it is carried.
use super::configurations::*;
use super::holds;
use rad_auth::{Arrival, Door};
use rad_carry::{Carried, carry};
use rad_config::Config;
use rad_packet::Body;
use rad_pool::Phase;
use rad_server::{Answer, HashKey, Server};
use std::alloc::Global;
use std::test::Fail;
use test_common::{CLIENT, DRAW, PORT, RFC_REQUEST, admit};

/// A Stop with the Class of the first session. Its Authenticator was made with Python's `hashlib`.
const STOP: &[u8; 40] = b"\
    \x04\x09\x00\x28\
    \xf2\x9e\x47\xcb\x7d\x49\x03\xc7\x3d\x48\x36\x95\xeb\xe9\x87\x0a\
    \x28\x06\x00\x00\x00\x02\
    \x19\x0eRAP1\x00\x00\x00\x00\x00\x00\x00\x01";

// The reply to a request of the first client.
fn ask(server: &mut Server, door: Door, octets: &[u8], moment: u32) -> Option<Body> {
    let arrival = Arrival {
        source: CLIENT,
        port: PORT,
        door,
        octets,
    };
    let request = admit(server.config().clients(), arrival)?;
    match server.step(&request, u64::from(moment), DRAW) {
        Ok(Answer::Send(body)) => Some(body),
        _ => None,
    }
}

// Clients and users in another order.
const TURNED: Text = Text {
    clients: SWAPPED_CLIENTS,
    users: TURNED_USERS,
    ..OLD
};

// Another pool for nemo, so that a session with the old address is left out.
const DISTANT: Text = Text {
    pools: DISTANT_POOLS,
    ..OLD
};

/// What becomes of nemo's session and of the reply that gave it.
#[derive(Clone, Copy)]
enum Fate {
    Carried,
    LeftOut,
}

#[test]
fn a_carried_session_and_its_reply_are_found(rt: HostRuntime) -> Result<(), Fail> {
    let is_so = answers_on(rt.alloc(), TURNED, Fate::Carried);
    holds(
        &rt,
        is_so,
        "a repeat gets the kept reply, and a Stop ends the session",
    );
    Ok(())
}

#[test]
fn a_number_is_not_given_again(rt: HostRuntime) -> Result<(), Fail> {
    let is_so = answers_on(rt.alloc(), DISTANT, Fate::LeftOut);
    holds(
        &rt,
        is_so,
        "a session that is left out, and the next number",
    );
    Ok(())
}

fn answers_on(alloc: Global, text: Text, fate: Fate) -> bool {
    match (OLD.config(alloc), text.config(alloc)) {
        (Some(old), Some(new)) => answers_on_in(alloc, &old, &new, fate),
        _ => false,
    }
}

// nemo logs in at the old server.
fn answers_on_in(alloc: Global, old: &Config, new: &Config, fate: Fate) -> bool {
    let Ok(mut server) = Server::open(alloc, old) else {
        return false;
    };
    match ask(&mut server, Door::Auth, RFC_REQUEST, 1_000) {
        Some(body) => answers_on_from(alloc, &server, new, &body, fate),
        None => false,
    }
}

fn answers_on_from(alloc: Global, server: &Server, new: &Config, body: &Body, fate: Fate) -> bool {
    match carry(alloc, server, new, HashKey::KNOWN) {
        Ok(mut carried) => goes_on(&mut carried.server, body, fate),
        Err(_) => false,
    }
}

fn goes_on(server: &mut Server, body: &Body, fate: Fate) -> bool {
    match fate {
        Fate::Carried => repeats(server, body) && stops(server),
        Fate::LeftOut => grants_anew(server, body),
    }
}

// Whether a repeated log-in gets the kept reply.
fn repeats(server: &mut Server, body: &Body) -> bool {
    match ask(server, Door::Auth, RFC_REQUEST, 2_000) {
        Some(again) => again.same(body) && server.sessions().last() == 1,
        None => false,
    }
}

// Whether a Stop with its Class ends the session.
fn stops(server: &mut Server) -> bool {
    if ask(server, Door::Acct, STOP, 3_000).is_none() {
        return false;
    }
    match server.sessions().get(1) {
        Some(session) => session.phase == Phase::Ended,
        None => false,
    }
}

// Whether the same log-in is granted a new session, with the next number.
fn grants_anew(server: &mut Server, body: &Body) -> bool {
    if server.sessions().get(1).is_some() {
        return false;
    }
    match ask(server, Door::Auth, RFC_REQUEST, 2_000) {
        Some(fresh) => !fresh.same(body) && has_second(server),
        None => false,
    }
}

// Whether there is a second session, with the address 10.0.3.1.
fn has_second(server: &Server) -> bool {
    match server.sessions().get(2) {
        Some(session) => session.address == Some(0x0A00_0301),
        None => false,
    }
}
