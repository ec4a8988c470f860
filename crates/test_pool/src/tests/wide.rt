//! A pool of many addresses, which are given in turn and again.
use super::{Call, Row, ask, play_in};
use crate::tests::holds;
use rad_config::Config;
use rad_pool::{Grant, Refusal, Sessions};
use std::alloc::Global;
use std::process::Abort;
use std::test::Fail;

/// One user, with as many sessions as a user may have, of a pool that has more addresses.
const WIDE: &str = r#"
[[client]]
address = "192.168.1.16"
secret = "xyzzy5461"

[[pool]]
name = "wide"
first = "10.1.0.0"
last = "10.1.255.255"

[[user]]
name = "many"
password = "p"
pool = "wide"
sessions = 4096
"#;

/// The first address of the pool.
const FIRST: u32 = 0x0A01_0000;

#[test]
fn addresses_are_given_in_turn_and_again(rt: HostRuntime) -> Result<(), Fail> {
    const ROWS: &[Row] = &[
        (0, Call::Stop(100), "a Stop"),
        (
            29_999,
            Call::Grant(0, 4_097, Some(0x0A01_1000)),
            "the ended session still has its address",
        ),
        (
            30_000,
            Call::Refuse(0, Refusal::SessionLimit),
            "its address is free again, but the user has no session left",
        ),
        (30_000, Call::Stop(101), "another Stop"),
        (
            30_000,
            Call::Grant(0, 4_098, Some(FIRST + 99)),
            "its address is given again",
        ),
    ];
    let config = Config::read(rt.alloc(), WIDE)?;
    play_in_turn(&rt, rt.alloc(), &config, ROWS)
}

fn play_in_turn(rt: &impl Abort, alloc: Global, config: &Config, rows: &[Row]) -> Result<(), Fail> {
    let mut sessions = Sessions::open(alloc, config)?;
    let are_in_turn = are_in_turn(&mut sessions, config);
    holds(
        rt,
        are_in_turn,
        "each session has the next number and address",
    );
    play_in(rt, &mut sessions, config, rows);
    Ok(())
}

// Whether as many sessions as the user may have are granted, the last one with 10.1.15.255.
fn are_in_turn(sessions: &mut Sessions, config: &Config) -> bool {
    let mut is_right = true;
    let mut last = None;
    for place in 0..4_096u32 {
        let grant = Grant {
            number: place as u64 + 1,
            address: Some(FIRST + place),
        };
        last = ask(sessions, config, 0, 0);
        is_right = is_right && last == Some(Ok(grant));
    }
    let expected = Grant {
        number: 4_096,
        address: Some(0x0A01_0FFF),
    };
    is_right && last == Some(Ok(expected))
}
