//! A user with an address of their own.
use super::{BRUCE, CAMPUS, Call, Row, TWO, TWO_NEXT, make, play_over};
use crate::tests::holds;
use rad_config::Config;
use rad_pool::{Refusal, Sessions};
use std::alloc::{AllocError, Global};
use std::process::Abort;
use std::test::Fail;

/// A fifth user, whose own address comes after those of the pool `two`.
const ENTRY: &str = "[[user]]\nname = \"marlin\"\npassword = \"p\"\naddress = \"10.0.2.3\"\n";

const MARLIN: u32 = 4;

const OWN: u32 = 0x0A00_0203;

const ROWS: &[Row] = &[
    (0, Call::Grant(MARLIN, 1, Some(OWN)), "the user's own"),
    (
        0,
        Call::Refuse(MARLIN, Refusal::SessionLimit),
        "one session has it",
    ),
    (1_000, Call::Stop(1), "a Stop"),
    (
        29_999,
        Call::Refuse(MARLIN, Refusal::NoAddress),
        "in the window",
    ),
    (30_000, Call::Grant(MARLIN, 2, Some(OWN)), "after it"),
    (30_000, Call::Stop(2), "another Stop"),
    (60_000, Call::Grant(BRUCE, 3, Some(TWO)), "a pool's first"),
    (60_000, Call::Grant(BRUCE, 4, Some(TWO_NEXT)), "its last"),
    (60_000, Call::Stop(4), "a Stop of that"),
    (
        60_000,
        Call::Refuse(BRUCE, Refusal::NoAddress),
        "though the user's own is free",
    ),
];

#[test]
fn a_user_has_an_address_of_their_own(rt: HostRuntime) -> Result<(), Fail> {
    let config = own_config(rt.alloc())?;
    plays(&rt, rt.alloc(), &config)
}

fn own_config(alloc: Global) -> Result<Config, Fail> {
    let text = format!(in alloc; "{CAMPUS}{ENTRY}")?;
    Ok(Config::read(alloc, &text)?)
}

fn plays(rt: &impl Abort, alloc: Global, config: &Config) -> Result<(), Fail> {
    play_over(rt, alloc, config, ROWS)?;
    let is_found = is_found(alloc, config);
    holds(rt, is_found == Ok(true), "a session is meant by it");
    Ok(())
}

fn is_found(alloc: Global, config: &Config) -> Result<bool, AllocError> {
    let mut sessions = Sessions::open(alloc, config)?;
    let is_granted = make(&mut sessions, config, 0, &Call::Grant(MARLIN, 1, Some(OWN)));
    let found = sessions.find(0, None, Some(OWN), None);
    Ok((is_granted, found) == (true, Some(1)))
}
