//! Sessions of which nothing is heard, and Interim-Updates.
use super::{Call, DORY, NEMO, ONE, Row, play, play_with_stale};
use rad_config::MOMENT_MAX;
use rad_pool::{Phase, Refusal};
use std::test::Fail;

#[test]
fn a_session_is_stale_after_its_last_start(rt: HostRuntime) -> Result<(), Fail> {
    const ROWS: &[Row] = &[
        (0, Call::Grant(NEMO, 1, Some(ONE)), "nemo"),
        (500, Call::Start(1), "a Start"),
        (1_000, Call::Start(1), "another Start"),
        (100_999, Call::Refuse(DORY, Refusal::NoAddress), "live"),
        (101_000, Call::Grant(DORY, 2, Some(ONE)), "stale"),
        (101_000, Call::Rows(&[(2, Phase::Pending)]), "gone"),
    ];
    play_with_stale(&rt, rt.alloc(), ROWS)
}

#[test]
fn an_interim_update_keeps_a_session(rt: HostRuntime) -> Result<(), Fail> {
    const ROWS: &[Row] = &[
        (0, Call::Grant(NEMO, 1, Some(ONE)), "nemo"),
        (1_000, Call::Start(1), "a Start"),
        (100_000, Call::Renew(1), "an Interim-Update"),
        (101_000, Call::Refuse(DORY, Refusal::NoAddress), "heard of"),
        (199_999, Call::Refuse(DORY, Refusal::NoAddress), "live"),
        (200_000, Call::Grant(DORY, 2, Some(ONE)), "stale"),
    ];
    play_with_stale(&rt, rt.alloc(), ROWS)
}

#[test]
fn other_phases_are_not_stale(rt: HostRuntime) -> Result<(), Fail> {
    const ROWS: &[Row] = &[
        (0, Call::Grant(NEMO, 1, Some(ONE)), "nemo"),
        (59_999, Call::Refuse(DORY, Refusal::NoAddress), "held"),
        (60_000, Call::Grant(DORY, 2, Some(ONE)), "no longer held"),
        (70_000, Call::Start(2), "a Start"),
        (80_000, Call::Stop(2), "a Stop"),
        (89_999, Call::Refuse(NEMO, Refusal::NoAddress), "the window"),
        (90_000, Call::Grant(NEMO, 3, Some(ONE)), "after it"),
    ];
    play_with_stale(&rt, rt.alloc(), ROWS)
}

#[test]
fn without_stale_a_session_lives_for_good(rt: HostRuntime) -> Result<(), Fail> {
    const ROWS: &[Row] = &[
        (0, Call::Grant(NEMO, 1, Some(ONE)), "nemo"),
        (1_000, Call::Start(1), "a Start"),
        (101_000, Call::Refuse(DORY, Refusal::NoAddress), "live"),
        (
            MOMENT_MAX,
            Call::Refuse(DORY, Refusal::NoAddress),
            "still live",
        ),
    ];
    play(&rt, rt.alloc(), ROWS)
}

#[test]
fn an_interim_update_stands_for_a_start(rt: HostRuntime) -> Result<(), Fail> {
    const ROWS: &[Row] = &[
        (0, Call::Grant(NEMO, 1, Some(ONE)), "nemo"),
        (1_000, Call::Renew(2), "of no session"),
        (1_000, Call::Start(2), "of no session either"),
        (1_000, Call::Rows(&[(1, Phase::Pending)]), "no change"),
        (1_000, Call::Renew(1), "an Interim-Update"),
        (60_000, Call::Refuse(DORY, Refusal::NoAddress), "active"),
        (60_000, Call::Rows(&[(1, Phase::Active)]), "its phase"),
    ];
    play(&rt, rt.alloc(), ROWS)
}

#[test]
fn an_ended_session_is_not_revived(rt: HostRuntime) -> Result<(), Fail> {
    const ROWS: &[Row] = &[
        (0, Call::Grant(NEMO, 1, Some(ONE)), "nemo"),
        (1_000, Call::Start(1), "a Start"),
        (2_000, Call::Stop(1), "a Stop"),
        (29_000, Call::Start(1), "a Start after it"),
        (29_000, Call::Renew(1), "an Interim-Update after it"),
        (29_000, Call::Rows(&[(1, Phase::Ended)]), "still ended"),
        (30_000, Call::Grant(DORY, 2, Some(ONE)), "gone"),
        (30_000, Call::Renew(1), "of a session that is gone"),
        (30_000, Call::Rows(&[(2, Phase::Pending)]), "no change"),
    ];
    play_with_stale(&rt, rt.alloc(), ROWS)
}
