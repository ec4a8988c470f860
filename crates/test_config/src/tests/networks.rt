//! Addresses and networks of clients, and bounds of pools.
use super::reads_as;
use std::process::Abort;

// Asserts the outcome of a text with this client.
fn client_reads_as<R: Abort + AllocGlobal>(rt: &R, address: &str, want: &str) {
    let text = format!(in rt.alloc(); "[[client]]\naddress = \"{address}\"\nsecret = \"s\"");
    reads_as(rt, text.expect(rt, address).as_str(), want);
}

#[test]
fn addresses_have_ranges(rt: HostRuntime) {
    // Addresses of clients, and the outcome of each.
    const ROWS: &[(&str, &str)] = &[
        ("0.0.0.0", "read"),
        ("255.255.255.255", "read"),
        ("256.0.0.1", "config fault 3 BadValue at client 1 address"),
        (
            "192.168.1.016",
            "config fault 3 BadValue at client 1 address",
        ),
        ("1.2.3", "config fault 3 BadValue at client 1 address"),
        ("1.2.3.4.5", "config fault 3 BadValue at client 1 address"),
        ("1..2.3", "config fault 3 BadValue at client 1 address"),
        ("+1.2.3.4", "config fault 3 BadValue at client 1 address"),
        (" 1.2.3.4", "config fault 3 BadValue at client 1 address"),
        ("1.2.3.4 ", "config fault 3 BadValue at client 1 address"),
        ("", "config fault 3 BadValue at client 1 address"),
    ];
    for (address, want) in ROWS.iter() {
        client_reads_as(&rt, address, want);
    }
}

#[test]
fn a_client_may_be_a_network(rt: HostRuntime) {
    const BAD: &str = "config fault 3 BadValue at client 1 address";
    // Networks of clients, and the outcome of each.
    const ROWS: &[(&str, &str)] = &[
        ("1.2.3.4/32", "read"),
        ("10.0.0.0/8", "read"),
        ("0.0.0.0/0", "read"),
        ("128.0.0.0/1", "read"),
        ("255.255.255.254/31", "read"),
        ("10.0.0.1/8", BAD),
        ("255.255.255.255/31", BAD),
        ("0.0.0.1/0", BAD),
        ("10.0.0.0/08", BAD),
        ("10.0.0.0/00", BAD),
        ("10.0.0.0/33", BAD),
        ("10.0.0.0/100", BAD),
        ("10.0.0.0/", BAD),
        ("10.0.0.0/+8", BAD),
        ("10.0.0.0/ 8", BAD),
        ("10.0.0.0 /8", BAD),
        ("10.0.0.0/8/8", BAD),
        ("10.0.0/8", BAD),
        ("/8", BAD),
    ];
    for (network, want) in ROWS.iter() {
        client_reads_as(&rt, network, want);
    }
}

#[test]
fn no_two_clients_are_one_network(rt: HostRuntime) {
    const SECOND: &str = "config fault 3 BadValue at client 2 address";
    // Networks of two clients, and the outcome of each pair.
    const ROWS: &[(&str, &str, &str)] = &[
        ("10.1.2.3", "10.1.2.3/32", SECOND),
        ("10.0.0.0/8", "10.0.0.0/8", SECOND),
        ("0.0.0.0/0", "0.0.0.0/0", SECOND),
        ("10.0.0.0/8", "10.0.0.0/16", "read"),
        ("0.0.0.0/0", "0.0.0.0", "read"),
    ];
    for (first, second, want) in ROWS.iter() {
        let text = format!(in rt.alloc();
            "[[client]]\naddress = \"{first}\"\nsecret = \"s\"\n[[client]]\naddress = \"{second}\"\nsecret = \"s\""
        );
        reads_as(&rt, text.expect(&rt, first).as_str(), want);
    }
}

// Asserts the outcome of a text with this pool.
fn pool_reads_as<R: Abort + AllocGlobal>(rt: &R, first: &str, last: &str, want: &str) {
    let text = format!(in rt.alloc();
        "[[pool]]\nname = \"a\"\nfirst = \"{first}\"\nlast = \"{last}\""
    );
    reads_as(rt, text.expect(rt, first).as_str(), want);
}

#[test]
fn pools_have_bounds(rt: HostRuntime) {
    // First and last addresses of pools, and the outcome of each pair.
    const ROWS: &[(&str, &str, &str)] = &[
        ("0.0.0.1", "0.0.0.1", "read"),
        (
            "0.0.0.0",
            "0.0.0.1",
            "config fault 3 BadValue at pool 1 first",
        ),
        ("255.255.255.253", "255.255.255.253", "read"),
        (
            "255.255.255.253",
            "255.255.255.254",
            "config fault 3 BadValue at pool 1 last",
        ),
        (
            "255.255.255.254",
            "255.255.255.254",
            "config fault 3 BadValue at pool 1 first",
        ),
        (
            "10.0.0.2",
            "10.0.0.1",
            "config fault 3 BadValue at pool 1 last",
        ),
        ("10.0.0.0", "10.0.255.255", "read"),
        (
            "10.0.0.0",
            "10.1.0.0",
            "config fault 3 BadValue at pool 1 last",
        ),
    ];
    for (first, last, want) in ROWS.iter() {
        pool_reads_as(&rt, first, last, want);
    }
}
