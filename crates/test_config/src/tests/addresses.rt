//! Addresses of users' own: which there may be, and what they give.
use super::reads_as;
use crate::tests::holds;
use rad_config::Config;
use std::alloc::AllocError;
use std::process::Abort;
use std::test::Fail;

// A text with two pools, a group that has the second and an address that is ignored, a user with the address 10.0.0.2, and one of
// whom this is said.
fn with_own(rt: &impl AllocGlobal, own: &str) -> Result<String, AllocError> {
    format!(in rt.alloc();
        "[[pool]]\nname = \"p\"\nfirst = \"10.0.0.10\"\nlast = \"10.0.0.20\"\n\
        [[pool]]\nname = \"q\"\nfirst = \"10.0.0.30\"\nlast = \"10.0.0.30\"\n\
        [[group]]\nname = \"g\"\npool = \"q\"\nsessions = 5\ntimeout = 60\naddress = \"10.0.0.3\"\n\
        [[user]]\nname = \"a\"\npassword = \"w\"\naddress = \"10.0.0.2\"\n\
        [[user]]\nname = \"u\"\npassword = \"w\"\n{own}\n"
    )
}

// The configuration that it is.
fn config_with(rt: &impl AllocGlobal, own: &str) -> Result<Config, Fail> {
    let text = with_own(rt, own)?;
    Ok(Config::read(rt.alloc(), text.as_str())?)
}

// Asserts the outcome of such a text.
fn own_reads_as<R: Abort + AllocGlobal>(rt: &R, own: &str, want: &str) {
    let text = with_own(rt, own).expect(rt, own);
    reads_as(rt, text.as_str(), want);
}

// Asserts the outcome of each.
fn own_read_as<R: Abort + AllocGlobal>(rt: &R, owns: &[&str], want: &str) {
    for own in owns {
        own_reads_as(rt, own, want);
    }
}

#[test]
fn an_address_may_be_any_that_nothing_else_gives(rt: HostRuntime) {
    const OWNS: &[&str] = &[
        "address = \"0.0.0.1\"",
        "address = \"255.255.255.253\"",
        "address = \"10.0.0.1\"",
        "address = \"10.0.0.3\"",
        "address = \"10.0.0.9\"",
        "address = \"10.0.0.21\"",
        "address = \"10.0.0.29\"",
        "address = \"10.0.0.31\"",
        "address = \"10.0.0.9\"\ngroup = \"g\"",
    ];
    own_read_as(&rt, OWNS, "read");
}

#[test]
fn an_address_at_fault_is_named(rt: HostRuntime) {
    // No addresses, those of pools and of the user before, and any beside a pool or a number of sessions.
    const OWNS: &[&str] = &[
        "address = 167772161",
        "address = \"\"",
        "address = \"10.0.0\"",
        "address = \"10.0.0.256\"",
        "address = \"10.0.0.9/32\"",
        "address = [\"10.0.0.9\"]",
        "address = \"0.0.0.0\"",
        "address = \"255.255.255.254\"",
        "address = \"255.255.255.255\"",
        "address = \"10.0.0.10\"",
        "address = \"10.0.0.15\"",
        "address = \"10.0.0.20\"",
        "address = \"10.0.0.30\"",
        "address = \"10.0.0.30\"\ngroup = \"g\"",
        "address = \"10.0.0.2\"",
        "address = \"10.0.0.9\"\npool = \"p\"",
        "address = \"10.0.0.9\"\nsessions = 1",
        "address = \"10.0.0.9\"\nsessions = 2\ngroup = \"g\"",
        "address = \"10.0.0.0x\"\nreply = 5",
    ];
    own_read_as(&rt, OWNS, "config fault 3 BadValue at user 2 address");
}

#[test]
fn keys_before_an_address_are_checked_first(rt: HostRuntime) {
    // What is said of a user, with two faults, and the one that is reported.
    const ROWS: &[(&str, &str)] = &[
        (
            "address = 5\ngroup = \"h\"",
            "config fault 3 BadValue at user 2 group",
        ),
        (
            "address = 5\npool = \"r\"",
            "config fault 3 BadValue at user 2 pool",
        ),
        (
            "address = 5\ngrants = 0",
            "config fault 3 BadValue at user 2 grants",
        ),
        (
            "address = \"10.0.0.9\"\nreply = 5",
            "config fault 3 BadValue at user 2 reply",
        ),
    ];
    for (own, want) in ROWS.iter() {
        own_reads_as(&rt, own, want);
    }
}

// Asserts the address, the pool and the sessions of the last user.
fn is_given(
    rt: &impl Abort,
    config: &Config,
    address: Option<u32>,
    pool: Option<u32>,
    sessions: u32,
    own: &str,
) {
    let Some(user) = config.users().last() else {
        return holds(rt, false, own);
    };
    holds(rt, user.address == address, own);
    holds(rt, user.pool == pool, own);
    holds(rt, user.sessions == sessions, own);
}

#[test]
fn an_address_stands_in_place_of_a_pool(rt: HostRuntime) -> Result<(), Fail> {
    const ROWS: &[Given] = &[
        ("", None, None, 1),
        ("address = \"10.0.0.9\"", Some(0x0A00_0009), None, 1),
        ("group = \"g\"", None, Some(1), 5),
        ("group = \"g\"\npool = \"p\"", None, Some(0), 5),
        (
            "group = \"g\"\naddress = \"10.0.0.9\"",
            Some(0x0A00_0009),
            None,
            1,
        ),
    ];
    for row in ROWS.iter() {
        gives(&rt, row)?;
    }
    Ok(())
}

// What is said of a user, and the address, the pool and the sessions.
type Given = (&'static str, Option<u32>, Option<u32>, u32);

fn gives<R: Abort + AllocGlobal>(rt: &R, row: &Given) -> Result<(), Fail> {
    let (own, address, pool, sessions) = *row;
    let config = config_with(rt, own)?;
    is_given(rt, &config, address, pool, sessions, own);
    Ok(())
}

// Asserts whether two such texts say the same.
fn is_compared<R: Abort + AllocGlobal>(
    rt: &R,
    own: &str,
    other: &str,
    want: bool,
) -> Result<(), Fail> {
    let one = config_with(rt, own)?;
    is_compared_with(rt, &one, other, want)
}

fn is_compared_with<R: Abort + AllocGlobal>(
    rt: &R,
    one: &Config,
    other: &str,
    want: bool,
) -> Result<(), Fail> {
    let two = config_with(rt, other)?;
    are_compared(rt, one, &two, want, other);
    Ok(())
}

fn are_compared(rt: &impl Abort, one: &Config, two: &Config, want: bool, what: &str) {
    holds(rt, one.same(two) == want, what);
    holds(rt, two.same(one) == want, what);
}

#[test]
fn addresses_are_compared(rt: HostRuntime) -> Result<(), Fail> {
    // What two texts say of a user, and whether it is the same.
    const ROWS: &[(&str, &str, bool)] = &[
        ("address = \"10.0.0.9\"", "address = \"10.0.0.9\"", true),
        ("address = \"10.0.0.9\"", "address = \"10.0.0.8\"", false),
        ("address = \"10.0.0.9\"", "", false),
        ("address = \"10.0.0.9\"", "sessions = 1", false),
        (
            "address = \"10.0.0.9\"\ngroup = \"g\"",
            "address = \"10.0.0.9\"\ntimeout = 60",
            true,
        ),
    ];
    for (own, other, want) in ROWS.iter() {
        is_compared(&rt, own, other, *want)?;
    }
    Ok(())
}
