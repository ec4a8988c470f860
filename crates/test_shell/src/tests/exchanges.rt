//! A turn of three exchanges: what comes to ports, and what goes from them.
use super::coming::{is_sum, random, serve};
use super::datagrams::NEMO_ACCEPTED;
use rad_auth::Door;
use rad_shell::{Datagram, MemoryPorts, Passed, Service};
use std::alloc::Global;
use std::sync::Wait;
use std::thread::Threads;
use test_common::{CLIENT, RFC_REQUEST, SECOND_CLIENT};

/// A datagram and its reply: address and port of the client, port of the server, octets of both.
type Exchange = (u32, u16, Door, &'static [u8], &'static [u8]);

/// nemo's log-in, and a Start of each client. The Starts and their Accounting-Responses were made with Python's `hashlib`.
const EXCHANGES: &[Exchange] = &[
    (CLIENT, 1700, Door::Auth, RFC_REQUEST, NEMO_ACCEPTED),
    (
        SECOND_CLIENT,
        1701,
        Door::Acct,
        b"\x04\x09\x00\x1a\
          \xec\x81\x2f\x18\xda\x31\x34\xdd\x18\x82\x39\xb8\x3b\xb8\xdc\x86\
          \x28\x06\x00\x00\x00\x01",
        b"\x05\x09\x00\x14\
          \x72\x40\x7e\xa5\xb3\x43\x1a\x86\xb4\xe5\x31\x83\xae\x3f\x7b\x33",
    ),
    (
        CLIENT,
        1702,
        Door::Acct,
        b"\x04\x07\x00\x1a\
          \xbf\x75\x02\x99\xba\x71\x11\xcf\x8a\x9d\xef\x2b\x87\x2d\x43\x6c\
          \x28\x06\x00\x00\x00\x01",
        b"\x05\x07\x00\x14\
          \x17\x1d\xc4\x7b\xc9\x0b\x49\x45\x26\xcf\x68\x25\x3b\xd9\xb4\xa6",
    ),
];

/// Whether just the replies of these exchanges are sent, in their order, each to where its datagram came from.
pub(crate) fn answers_each<R: Threads + Wait + Sync>(
    rt: &R,
    alloc: Global,
    service: &mut Service,
) -> bool {
    let mut ports = MemoryPorts::new(alloc);
    EXCHANGES
        .iter()
        .all(|exchange| begins(alloc, &mut ports, exchange))
        && is_sum(serve(rt, service, &mut ports, &mut random(), 1), 1, 3, 3, 0)
        && have_passed(&ports)
}

// Whether just these datagrams have come, and after them their replies have gone.
fn have_passed(ports: &MemoryPorts) -> bool {
    let mut coming = EXCHANGES.iter();
    let mut going = EXCHANGES.iter();
    for passed in ports.passed() {
        let is_so = match passed {
            Passed::In(came) => match coming.next() {
                Some(exchange) => has_begun(came, exchange),
                None => false,
            },
            Passed::Out(sent) => match going.next() {
                Some(exchange) => coming.len() == 0 && ends_exchange(sent, exchange),
                None => false,
            },
            Passed::Empty => coming.len() == 0 && going.len() == EXCHANGES.len(),
            Passed::Now(_) | Passed::Fault => false,
        };
        if !is_so {
            return false;
        }
    }
    coming.len() == 0 && going.len() == 0
}

// Whether a datagram that came is the request of an exchange.
fn has_begun(came: &Datagram, exchange: &Exchange) -> bool {
    let (address, port, door, octets, _) = *exchange;
    came.address == address
        && came.port == port
        && came.door == door
        && came.moment == 0
        && came.octets.as_slice() == octets
}

// Whether there is memory for the datagram of an exchange, which comes.
fn begins(alloc: Global, ports: &mut MemoryPorts, exchange: &Exchange) -> bool {
    let (address, port, door, octets, _) = *exchange;
    match octets.to_vec(alloc) {
        Ok(octets) => ports
            .arrive(Datagram {
                turn: 0,
                address,
                port,
                door,
                moment: 0,
                octets,
            })
            .is_ok(),
        Err(_) => false,
    }
}

// Whether what was sent is the reply of an exchange.
fn ends_exchange(sent: &Datagram, exchange: &Exchange) -> bool {
    let (address, port, door, _, octets) = *exchange;
    sent.address == address
        && sent.port == port
        && sent.door == door
        && sent.octets.as_slice() == octets
}
