//! A copy of sessions.
use super::{CAMPUS, Call, NEMO, ONE, make};
use crate::tests::holds;
use rad_config::Config;
use rad_pool::Sessions;
use std::alloc::{AllocError, Global};
use std::test::Fail;

#[test]
fn a_copy_is_the_same_until_one_changes(rt: HostRuntime) -> Result<(), Fail> {
    let config = Config::read(rt.alloc(), CAMPUS)?;
    let differs = differs_by_a_start(rt.alloc(), &config);
    holds(&rt, differs == Ok(true), "a Start is a change");
    Ok(())
}

// Whether sessions with one that is granted are the same as a copy of them, and not once it has a Start.
fn differs_by_a_start(alloc: Global, config: &Config) -> Result<bool, AllocError> {
    let mut sessions = Sessions::open(alloc, config)?;
    let is_granted = make(&mut sessions, config, 0, &Call::Grant(NEMO, 1, Some(ONE)));
    let differs = starts_without_its_copy(&mut sessions);
    Ok((is_granted, differs) == (true, true))
}

fn starts_without_its_copy(sessions: &mut Sessions) -> bool {
    match sessions.copy() {
        Ok(copy) => starts_alone(sessions, &copy),
        Err(_) => false,
    }
}

// Whether the first session starts in sessions that are the same as their copy, and not in the copy.
fn starts_alone(sessions: &mut Sessions, copy: &Sessions) -> bool {
    let is_same = copy.same(sessions);
    sessions.start(1, 0);
    is_same && !copy.same(sessions)
}
