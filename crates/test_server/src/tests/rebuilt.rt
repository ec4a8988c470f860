//! A server that is taken apart into rows and rebuilt after each step of a walk is the same, and answers alike from then on.
use super::campus::CAMPUS;
use super::playing::Run;
use super::requests::{
    ACCOUNTING_ON, Asked, BRUCE, DORY, EXAMPLE, INTERIM_UPDATE, KAY, MANY, SIGNATURE, START, STOP,
    Sent,
};
use super::{Filling, holds};
use rad_auth::Door;
use rad_config::Config;
use rad_packet::attribute::{FRAMED_IP_ADDRESS, STATE};
use std::alloc::Global;
use std::test::Fail;
use test_common::{PORT, next_draw};

const SHARK: &[Sent] = &[BRUCE, Sent::Hidden(b"shark")];

const CHALLENGED: &[Sent] = &[KAY, Sent::Hidden(b"pw")];

// The address of nemo's and dory's pool, and the first of bruce's.
const SHARED: Sent = Sent::Plain(FRAMED_IP_ADDRESS, &[10, 0, 0, 1]);

const OWN: Sent = Sent::Plain(FRAMED_IP_ADDRESS, &[10, 0, 2, 1]);

// The right answer to the second challenge, and a wrong one to the third.
const RIGHT: &[Sent] = &[
    KAY,
    Sent::Hidden(b"4711"),
    Sent::Plain(
        STATE,
        b"\0\0\0\0\0\0\0\x02\0\0\0\0\0\0\0\0\0\0\0\0\0\0\0\x01",
    ),
];

const WRONG: &[Sent] = &[
    KAY,
    Sent::Hidden(b"4712"),
    Sent::Plain(
        STATE,
        b"\0\0\0\0\0\0\0\x03\0\0\0\0\0\0\0\0\0\0\0\0\0\0\0\x01",
    ),
];

const WALK: &[Asked] = &[
    EXAMPLE,
    DORY,
    Asked::Access(1, SHARK),
    Asked::OtherAccess(2, SHARK),
    Asked::Access(3, &[MANY, Sent::Hidden(b"p")]),
    Asked::Access(4, CHALLENGED),
    Asked::OtherAccess(5, CHALLENGED),
    Asked::Access(6, RIGHT),
    Asked::Access(7, WRONG),
    Asked::Account(8, &[START, SHARED]),
    Asked::Account(9, &[STOP, SHARED]),
    Asked::Account(10, &[START, OWN]),
    Asked::Account(11, &[INTERIM_UPDATE, OWN]),
    Asked::OtherAccount(12, &[STOP, OWN]),
    Asked::OtherAccount(13, &[ACCOUNTING_ON]),
    Asked::Status(Door::Auth, &[SIGNATURE]),
];

#[test]
fn a_rebuilt_server_answers_alike(rt: HostRuntime) -> Result<(), Fail> {
    let config = Config::read(rt.alloc(), CAMPUS)?;
    let walk = walk(rt.alloc(), &config);
    holds(
        &rt,
        walk == Some(true),
        "a walk of a server and of one that is rebuilt",
    );
    Ok(())
}

// Whether a server answers alike on a walk with one that is rebuilt; none if memory is refused.
fn walk(alloc: Global, config: &Config) -> Option<bool> {
    let mut run = Run::open(alloc, config).ok()?;
    walk_beside(&mut run, alloc, config)
}

fn walk_beside(run: &mut Run, alloc: Global, config: &Config) -> Option<bool> {
    let mut twin = Run::open(alloc, config).ok()?;
    Some(walks(run, &mut twin, 1_500))
}

// Whether two runs answer alike on a walk of so many requests, where the second is rebuilt after each.
fn walks(run: &mut Run, twin: &mut Run, count: u32) -> bool {
    let mut draw: u64 = 1;
    let mut moment: u64 = 0;
    for _ in 0..count {
        draw = next_draw(draw);
        moment = moment.saturating_add((draw >> 40) % 9_000);
        let port = PORT + ((draw >> 32) % 32) as u16;
        let asked = &WALK[((draw >> 24) % 16) as usize];
        if !run.goes_with(twin, moment, port, asked) {
            return false;
        }
    }
    true
}

#[test]
fn full_tables_are_rebuilt(rt: HostRuntime) -> Result<(), Fail> {
    let config = Config::read(rt.alloc(), CAMPUS)?;
    let rebuilt = rebuild_full(rt.alloc(), &config);
    holds(&rt, rebuilt == Some(true), "a table that is full");
    Ok(())
}

// Whether a server with as many challenges as it may have is rebuilt; none if memory is refused.
fn rebuild_full(alloc: Global, config: &Config) -> Option<bool> {
    let mut run = Run::open(alloc, config).ok()?;
    Some(fills_and_is_rebuilt(&mut run))
}

fn fills_and_is_rebuilt(run: &mut Run) -> bool {
    run.fills(0, Filling::Challenges, 1_024) && run.is_rebuilt()
}
