//! Clients by network: who is the client of a source.

use super::{Network, add_network, verdict_on};
use crate::tests::holds;
use rad_auth::{ClientFault, Clients, Discard, Door, PREFIX_MAX, network_fits};
use std::alloc::Global;
use std::process::Abort;
use test_common::{RFC_REQUEST, SECRET};

// 10.0.0.0/8
const WIDE: Network = (0x0A00_0000, 8);

// 10.1.0.0/16
const NARROW: Network = (0x0A01_0000, 16);

// 10.1.2.3
const SINGLE: Network = (0x0A01_0203, PREFIX_MAX);

// 0.0.0.0/0
const ALL: Network = (0, 0);

// 11.0.0.1, which is in the last alone.
const OUTSIDE: u32 = 0x0B00_0001;

fn clients_in(rt: &impl Abort, alloc: Global, networks: &[Network]) -> Clients {
    let mut clients = Clients::new(alloc);
    for network in networks {
        add_network(rt, &mut clients, *network, SECRET, false).expect(rt, "a client");
    }
    clients
}

// The network of the client of a source.
fn network_of(clients: &Clients, networks: &[Network], source: u32) -> Option<Network> {
    let place = clients.find(source)?;
    networks.get(place as usize).copied()
}

// Asserts that the clients of these networks have the sources that they are to have.
fn each_has_its_own(rt: &impl Abort, alloc: Global, networks: &[Network]) {
    // A name, a source, and the network of its client.
    const ROWS: &[(&str, u32, Network)] = &[
        ("10.0.0.0", 0x0A00_0000, WIDE),
        ("10.2.0.1", 0x0A02_0001, WIDE),
        ("10.255.255.255", 0x0AFF_FFFF, WIDE),
        ("10.1.0.1", 0x0A01_0001, NARROW),
        ("10.1.2.2", 0x0A01_0202, NARROW),
        ("10.1.255.255", 0x0A01_FFFF, NARROW),
        ("10.1.2.3", 0x0A01_0203, SINGLE),
    ];
    let clients = clients_in(rt, alloc, networks);
    for (name, source, network) in ROWS.iter() {
        let found = network_of(&clients, networks, *source);
        holds(rt, found == Some(*network), name);
    }
}

#[test]
fn the_greatest_prefix_has_the_source_in_every_order(rt: HostRuntime) {
    const ORDERS: &[&[Network]] = &[
        &[WIDE, NARROW, SINGLE],
        &[WIDE, SINGLE, NARROW],
        &[NARROW, WIDE, SINGLE],
        &[NARROW, SINGLE, WIDE],
        &[SINGLE, WIDE, NARROW],
        &[SINGLE, NARROW, WIDE],
        &[ALL, WIDE, NARROW, SINGLE],
        &[SINGLE, NARROW, ALL, WIDE],
    ];
    for networks in ORDERS.iter() {
        each_has_its_own(&rt, rt.alloc(), *networks);
    }
}

#[test]
fn a_source_outside_each_network_is_discarded(rt: HostRuntime) {
    let clients = clients_in(&rt, rt.alloc(), &[WIDE, NARROW, SINGLE]);
    let outside = verdict_on(&clients, OUTSIDE, Door::Auth, RFC_REQUEST);
    let inside = verdict_on(&clients, 0x0A01_0001, Door::Auth, RFC_REQUEST);
    holds(
        &rt,
        outside == Some(Err(Discard::UnknownClient)),
        "11.0.0.1",
    );
    holds(&rt, inside == Some(Ok((1, 0))), "10.1.0.1");
}

#[test]
fn a_prefix_of_zero_holds_every_source(rt: HostRuntime) {
    const SOURCES: &[u32] = &[0, 1, OUTSIDE, 0x7FFF_FFFF, 0x8000_0000, u32::MAX];
    let clients = clients_in(&rt, rt.alloc(), &[SINGLE, ALL]);
    for source in SOURCES.iter() {
        holds(&rt, clients.find(*source) == Some(1), "a source");
    }
    holds(&rt, clients.find(0x0A01_0203) == Some(0), "10.1.2.3");
}

#[test]
fn a_network_is_doubled_by_address_and_prefix(rt: HostRuntime) {
    are_added_once(&rt, &mut Clients::new(rt.alloc()));
}

fn are_added_once(rt: &impl Abort, clients: &mut Clients) {
    // A name, a network, and whether it is added after the others.
    const ROWS: &[(&str, Network, bool)] = &[
        ("10.0.0.0/8", WIDE, true),
        ("10.0.0.0/8 again", WIDE, false),
        ("10.0.0.0/16", (0x0A00_0000, 16), true),
        ("10.0.0.0/32", (0x0A00_0000, PREFIX_MAX), true),
        ("10.1.2.3", SINGLE, true),
        ("10.1.2.3 again", SINGLE, false),
        ("0.0.0.0/0", ALL, true),
        ("0.0.0.0/0 again", ALL, false),
        ("0.0.0.0/1", (0, 1), true),
    ];
    for (name, network, is_added) in ROWS.iter() {
        let added = add_network(rt, clients, *network, SECRET, false);
        let want = if *is_added {
            Ok(())
        } else {
            Err(ClientFault::Doubled)
        };
        holds(rt, added == want, name);
    }
}

#[test]
fn no_bit_past_the_prefix_is_set(rt: HostRuntime) {
    // A name, a network, and whether it fits.
    const ROWS: &[(&str, Network, bool)] = &[
        ("10.0.0.0/8", WIDE, true),
        ("10.0.0.1/8", (0x0A00_0001, 8), false),
        ("10.128.0.0/8", (0x0A80_0000, 8), false),
        ("10.128.0.0/9", (0x0A80_0000, 9), true),
        ("255.255.255.255/32", (u32::MAX, PREFIX_MAX), true),
        ("255.255.255.254/31", (0xFFFF_FFFE, 31), true),
        ("255.255.255.255/31", (u32::MAX, 31), false),
        ("0.0.0.0/0", ALL, true),
        ("128.0.0.0/0", (0x8000_0000, 0), false),
        ("0.0.0.0/33", (0, 33), false),
        ("0.0.0.0/255", (0, 255), false),
    ];
    for (name, (address, prefix), want) in ROWS.iter() {
        holds(&rt, network_fits(*address, *prefix) == *want, name);
    }
}
