//! Sessions that are granted, held and ended, and their addresses.
use super::{BRUCE, Call, DORY, NEMO, ONE, Row, TWO, TWO_NEXT, play};
use rad_pool::{Phase, Refusal};
use std::test::Fail;

#[test]
fn an_ended_session_keeps_its_address_for_the_window(rt: HostRuntime) -> Result<(), Fail> {
    const ROWS: &[Row] = &[
        (0, Call::Grant(NEMO, 1, Some(ONE)), "nemo"),
        (5_000, Call::Stop(1), "a Stop"),
        (
            29_999,
            Call::Refuse(DORY, Refusal::NoAddress),
            "in the window",
        ),
        (30_000, Call::Grant(DORY, 2, Some(ONE)), "after it"),
        (
            30_000,
            Call::Rows(&[(2, Phase::Pending)]),
            "nemo's session is gone",
        ),
    ];
    play(&rt, rt.alloc(), ROWS)
}

#[test]
fn a_session_without_a_start_is_held(rt: HostRuntime) -> Result<(), Fail> {
    const ROWS: &[Row] = &[
        (0, Call::Grant(NEMO, 1, Some(ONE)), "nemo"),
        (59_999, Call::Refuse(DORY, Refusal::NoAddress), "held"),
        (60_000, Call::Grant(DORY, 2, Some(ONE)), "no longer held"),
    ];
    play(&rt, rt.alloc(), ROWS)
}

#[test]
fn an_active_session_lives_until_its_stop(rt: HostRuntime) -> Result<(), Fail> {
    const ROWS: &[Row] = &[
        (0, Call::Grant(NEMO, 1, Some(ONE)), "nemo"),
        (1_000, Call::Start(1), "a Start"),
        (1_000, Call::Start(1), "another Start"),
        (60_000, Call::Refuse(DORY, Refusal::NoAddress), "active"),
        (60_000, Call::Stop(1), "a Stop"),
        (60_000, Call::Start(1), "a Start after it"),
        (
            60_000,
            Call::Rows(&[(1, Phase::Ended)]),
            "no Start after a Stop",
        ),
        (
            60_000,
            Call::Grant(DORY, 2, Some(ONE)),
            "the window is over",
        ),
    ];
    play(&rt, rt.alloc(), ROWS)
}

#[test]
fn an_ended_session_counts_for_no_limit(rt: HostRuntime) -> Result<(), Fail> {
    const ROWS: &[Row] = &[
        (0, Call::Grant(BRUCE, 1, Some(TWO)), "the first"),
        (0, Call::Grant(BRUCE, 2, Some(TWO_NEXT)), "the second"),
        (
            1,
            Call::Refuse(BRUCE, Refusal::SessionLimit),
            "two are open",
        ),
        (1, Call::Stop(1), "a Stop"),
        (2, Call::Refuse(BRUCE, Refusal::NoAddress), "one is open"),
        (30_000, Call::Grant(BRUCE, 3, Some(TWO)), "after the window"),
    ];
    play(&rt, rt.alloc(), ROWS)
}

#[test]
fn the_least_free_address_is_given(rt: HostRuntime) -> Result<(), Fail> {
    const ROWS: &[Row] = &[
        (0, Call::Grant(BRUCE, 1, Some(TWO)), "the first"),
        (5_000, Call::Grant(BRUCE, 2, Some(TWO_NEXT)), "the second"),
        (5_000, Call::Start(2), "its Start"),
        (60_000, Call::Expire, "the hold of the first is over"),
        (
            60_000,
            Call::Rows(&[(2, Phase::Active)]),
            "the first is gone",
        ),
        (
            60_000,
            Call::Grant(BRUCE, 3, Some(TWO)),
            "its address is given again",
        ),
    ];
    play(&rt, rt.alloc(), ROWS)
}

#[test]
fn moments_need_not_rise(rt: HostRuntime) -> Result<(), Fail> {
    const ROWS: &[Row] = &[
        (70_000, Call::Grant(BRUCE, 1, Some(TWO)), "the first"),
        (
            10_000,
            Call::Grant(BRUCE, 2, Some(TWO_NEXT)),
            "an earlier one",
        ),
        (
            70_000,
            Call::Grant(BRUCE, 3, Some(TWO_NEXT)),
            "the earlier one is gone",
        ),
        (
            70_000,
            Call::Rows(&[(1, Phase::Pending), (3, Phase::Pending)]),
            "the order",
        ),
    ];
    play(&rt, rt.alloc(), ROWS)
}
