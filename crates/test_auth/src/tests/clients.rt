//! Lists of clients: who is found where, and which lists are the same.

use super::{Client, OTHER_CLIENT, STRICT_CLIENT, THREE, add, clients_of, three_clients};
use crate::tests::{holds, holds_at};
use rad_auth::{CLIENTS_MAX, ClientFault, Clients};
use std::alloc::Global;
use std::process::Abort;
use test_common::{CLIENT, OTHER_SECRET, SECRET, STRANGER};

// Whether one client is there, found at its place, with what it was first added with.
fn has_the_first_alone(clients: &Clients) -> bool {
    clients.len() == 1
        && clients.find(CLIENT) == Some(0)
        && clients.find(STRANGER) == None
        && clients.secret(0).octets() == b"first".as_slice()
        && clients.require_message_authenticator(0)
}

#[test]
fn a_doubled_address_keeps_the_first_secret(rt: HostRuntime) {
    let was_empty = Clients::new(rt.alloc()).is_empty();
    let mut clients = clients_of(&rt, rt.alloc(), &[(CLIENT, b"first", true)]);
    let is_first = has_the_first_alone(&clients);
    let again = add(&rt, &mut clients, (CLIENT, b"second", false));
    let is_kept = again == Err(ClientFault::Doubled) && has_the_first_alone(&clients);
    holds(&rt, was_empty, "no client");
    holds(&rt, is_first, "the first client");
    holds(&rt, is_kept, "a doubled client");
}

#[test]
fn a_client_is_found_at_its_place(rt: HostRuntime) {
    // A name, an address, and the place of the client that has it.
    const ROWS: &[(&str, u32, Option<u32>)] = &[
        ("first", CLIENT, Some(0)),
        ("middle", OTHER_CLIENT, Some(1)),
        ("last", STRICT_CLIENT, Some(2)),
        ("absent", STRANGER, None),
    ];
    let clients = three_clients(&rt, rt.alloc());
    for (name, source, place) in ROWS.iter() {
        holds(&rt, clients.find(*source) == *place, name);
    }
}

// 0.0.0.0, 1.1.1.1, and so on to 255.255.255.255
fn most_clients(rt: &impl Abort, alloc: Global) -> Clients {
    let mut clients = Clients::new(alloc);
    for number in 0..256u32 {
        add(rt, &mut clients, (number * 0x0101_0101, SECRET, false)).expect(rt, "a client");
    }
    clients
}

#[test]
fn each_of_the_most_clients_is_found(rt: HostRuntime) {
    let clients = most_clients(&rt, rt.alloc());
    holds(&rt, clients.len() == CLIENTS_MAX, "how many");
    for number in 0..256u32 {
        let address = number * 0x0101_0101;
        let is_found = clients.find(address) == Some(number) && clients.find(address ^ 1) == None;
        holds_at(&rt, is_found, "client", number as usize);
    }
}

const FIRST: Client = (CLIENT, b"xyzzy5461", false);

const SECOND: Client = (OTHER_CLIENT, b"xyzzy5462", true);

const TWO: &[Client] = &[FIRST, SECOND];

const FOUR: &[Client] = &[
    (CLIENT, SECRET, false),
    (OTHER_CLIENT, OTHER_SECRET, false),
    (STRICT_CLIENT, SECRET, true),
    (STRANGER, SECRET, false),
];

// Whether two lists are the same, or are not, as is wanted.
fn are_same(
    rt: &impl Abort,
    alloc: Global,
    rows: &[Client],
    others: &[Client],
    want: bool,
) -> bool {
    let clients = clients_of(rt, alloc, rows);
    let others = clients_of(rt, alloc, others);
    clients.same(&others) == want && others.same(&clients) == want
}

#[test]
fn lists_are_the_same_by_all_of_each_client(rt: HostRuntime) {
    // A name, two lists of clients, and whether they are the same.
    const ROWS: &[(&str, &[Client], &[Client], bool)] = &[
        ("built apart", TWO, TWO, true),
        ("another order", TWO, &[SECOND, FIRST], false),
        (
            "another address",
            TWO,
            &[(STRANGER, b"xyzzy5461", false), SECOND],
            false,
        ),
        (
            "another secret",
            TWO,
            &[(CLIENT, b"xyzzy5462", false), SECOND],
            false,
        ),
        (
            "another flag",
            TWO,
            &[FIRST, (OTHER_CLIENT, b"xyzzy5462", false)],
            false,
        ),
        ("three built apart", THREE, THREE, true),
        ("one client more", THREE, FOUR, false),
    ];
    for (name, rows, others, want) in ROWS.iter() {
        let is_so = are_same(&rt, rt.alloc(), *rows, *others, *want);
        holds(&rt, is_so, name);
    }
}
