//! Rows that are put back.
use super::pairs::TABLE;
use super::{BRUCE, CAMPUS, DORY, HERE, KAY, NEMO, ONE, TWO, ask, expire};
use crate::tests::holds;
use rad_config::Config;
use rad_pool::{Phase, RowFault, Session, Sessions};
use std::alloc::{AllocError, Global};
use std::test::Fail;
use test_common::next_draw;

/// The moment that the clock shows, in milliseconds.
const CLOCK: u64 = 30_000;

/// How many calls are drawn.
const CALLS: u64 = 2_000;

/// A session of `nemo`, who may have one.
pub const FIRST: Session = Session {
    number: 3,
    client: HERE.client,
    source: HERE.source,
    user: NEMO,
    address: Some(ONE),
    phase: Phase::Active,
    made: 10_000,
    seen: 20_000,
};

/// One of `bruce`.
const NEXT: Session = Session {
    number: 5,
    user: BRUCE,
    address: Some(TWO),
    ..FIRST
};

/// One that has ended, of a user who has one grant.
const ENDED: Session = Session {
    number: 5,
    user: KAY,
    address: None,
    phase: Phase::Ended,
    ..FIRST
};

/// A row, and why it isn't put back, if it isn't.
type Row = (Session, Option<RowFault>);

const ROWS: &[Row] = &[
    (FIRST, None),
    (Session { number: 3, ..NEXT }, Some(RowFault::Number)),
    (Session { client: 2, ..NEXT }, Some(RowFault::Client)),
    (Session { user: 4, ..NEXT }, Some(RowFault::User)),
    (
        Session {
            seen: 9_999,
            ..NEXT
        },
        Some(RowFault::Moments),
    ),
    (
        Session {
            seen: 30_001,
            ..NEXT
        },
        Some(RowFault::Moments),
    ),
    (
        Session {
            address: Some(ONE),
            ..NEXT
        },
        Some(RowFault::AddressOutside),
    ),
    (
        Session {
            user: DORY,
            address: Some(ONE),
            ..NEXT
        },
        Some(RowFault::AddressHeld),
    ),
    (
        Session {
            user: NEMO,
            address: None,
            ..NEXT
        },
        Some(RowFault::SessionLimit),
    ),
    (ENDED, None),
    (Session { number: 6, ..ENDED }, Some(RowFault::SessionLimit)),
    (Session { number: 6, ..NEXT }, None),
];

#[test]
fn each_rule_refuses_a_row(rt: HostRuntime) -> Result<(), Fail> {
    let config = limited(rt.alloc())?;
    let have_faults = have_faults(rt.alloc(), &config);
    holds(&rt, have_faults == Ok(true), "each row and its fault");
    Ok(())
}

// The campus, whose last user has one grant.
fn limited(alloc: Global) -> Result<Config, Fail> {
    let text = format!(in alloc; "{CAMPUS}grants = 1\n")?;
    Ok(Config::read(alloc, &text)?)
}

fn have_faults(alloc: Global, config: &Config) -> Result<bool, AllocError> {
    let mut sessions = Sessions::open(alloc, config)?;
    Ok(each_has_its_fault(&mut sessions, config))
}

fn each_has_its_fault(sessions: &mut Sessions, config: &Config) -> bool {
    for (row, wanted) in ROWS.iter() {
        if fault_of(sessions, config, *row) != *wanted {
            return false;
        }
    }
    true
}

/// Why a row isn't put back, if it isn't.
pub fn fault_of(sessions: &mut Sessions, config: &Config, row: Session) -> Option<RowFault> {
    sessions.restore(config, row, CLOCK).err()
}

#[test]
fn a_table_is_put_back_row_by_row(rt: HostRuntime) -> Result<(), Fail> {
    let config = Config::read(rt.alloc(), TABLE)?;
    let same = walks_and_is_put_back(rt.alloc(), &config);
    holds(
        &rt,
        same == Some(true),
        "the same rows and the same last number",
    );
    Ok(())
}

fn walks_and_is_put_back(alloc: Global, config: &Config) -> Option<bool> {
    let mut sessions = Sessions::open(alloc, config).ok()?;
    let clock = walk(&mut sessions, config);
    is_put_back(alloc, &sessions, config, clock)
}

// Calls that are drawn, at moments that rise. At the end the newest session goes. Returns the last moment.
fn walk(sessions: &mut Sessions, config: &Config) -> u64 {
    let mut draw = 7;
    for call in 0..CALLS {
        draw = next_draw(draw);
        step(sessions, config, draw, call * 100);
    }
    sessions.stop(sessions.last());
    let now = CALLS * 100 + 30_000;
    let _is_moment = expire(sessions, now);
    now
}

fn step(sessions: &mut Sessions, config: &Config, draw: u64, now: u64) {
    let number = sessions.last().saturating_sub(draw >> 16 & 63);
    match draw >> 32 & 7 {
        0 => sessions.stop(number),
        1..=3 => sessions.renew(number, now),
        _ => {
            let _answer = ask(sessions, config, (draw >> 48) as u32 % 5, now);
        }
    }
}

// Whether the rows of a table and its last number, put back into another, give the same table. None if one is refused.
fn is_put_back(alloc: Global, sessions: &Sessions, config: &Config, clock: u64) -> Option<bool> {
    let mut table = Sessions::open(alloc, config).ok()?;
    put_back(&mut table, sessions, config, clock)
}

fn put_back(
    table: &mut Sessions,
    sessions: &Sessions,
    config: &Config,
    clock: u64,
) -> Option<bool> {
    for row in sessions.rows() {
        table.restore(config, row, clock).ok()?;
    }
    let newest = table.last();
    table.restore_last(sessions.last()).ok()?;
    Some(
        100 < newest
            && newest < table.last()
            && table.same(sessions)
            && table.get(newest).is_some(),
    )
}
