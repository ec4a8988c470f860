//! Accounting-On and Accounting-Off of a source.
use super::{Asker, BRUCE, Call, DORY, HERE, KAY, NEMO, ONE, Row, TWO, TWO_NEXT, play};
use rad_pool::{Phase, Refusal};
use std::test::Fail;

/// Another client, at the same address.
const HERE_TOO: Asker = Asker {
    client: 1,
    source: HERE.source,
};

/// The same client, at the next address.
const BESIDE: Asker = Asker {
    client: 0,
    source: HERE.source + 1,
};

/// The same client, at an address further off.
const FAR: Asker = Asker {
    client: 0,
    source: HERE.source + 4_093,
};

/// An address without sessions.
const SILENT: u32 = HERE.source + 2;

#[test]
fn a_reset_ends_the_sessions_of_its_source(rt: HostRuntime) -> Result<(), Fail> {
    const ROWS: &[Row] = &[
        (0, Call::GrantFrom(HERE, BRUCE, 1, Some(TWO)), "bruce"),
        (0, Call::Start(1), "a Start"),
        (
            0,
            Call::GrantFrom(HERE_TOO, BRUCE, 2, Some(TWO_NEXT)),
            "another client",
        ),
        (0, Call::GrantFrom(HERE, NEMO, 3, Some(ONE)), "another user"),
        (1_000, Call::Reset(HERE.source), "a reset"),
        (
            1_000,
            Call::Rows(&[(1, Phase::Ended), (2, Phase::Ended), (3, Phase::Ended)]),
            "all have ended",
        ),
        (
            29_999,
            Call::Refuse(DORY, Refusal::NoAddress),
            "in the window",
        ),
        (30_000, Call::Grant(DORY, 4, Some(ONE)), "after it"),
        (30_000, Call::Rows(&[(4, Phase::Pending)]), "all are gone"),
    ];
    play(&rt, rt.alloc(), ROWS)
}

/// Three sessions, of which only the last has ended.
const ONE_ENDED: Call = Call::Rows(&[(1, Phase::Active), (2, Phase::Pending), (3, Phase::Ended)]);

#[test]
fn a_reset_leaves_other_sources(rt: HostRuntime) -> Result<(), Fail> {
    const ROWS: &[Row] = &[
        (0, Call::GrantFrom(BESIDE, BRUCE, 1, Some(TWO)), "beside"),
        (0, Call::Start(1), "a Start"),
        (
            0,
            Call::GrantFrom(FAR, BRUCE, 2, Some(TWO_NEXT)),
            "further off",
        ),
        (0, Call::GrantFrom(HERE, NEMO, 3, Some(ONE)), "the source"),
        (1_000, Call::Reset(HERE.source), "a reset"),
        (1_000, ONE_ENDED, "one has ended"),
        (1_000, Call::Reset(HERE.source), "another reset"),
        (1_000, Call::Stop(3), "a Stop after it"),
        (1_000, Call::Reset(SILENT), "without a session"),
        (1_000, ONE_ENDED, "no change"),
        (1_000, Call::Reset(FAR.source), "the other source"),
        (
            1_000,
            Call::Rows(&[(1, Phase::Active), (2, Phase::Ended), (3, Phase::Ended)]),
            "two have ended",
        ),
    ];
    play(&rt, rt.alloc(), ROWS)
}

#[test]
fn a_session_after_a_reset_is_not_ended(rt: HostRuntime) -> Result<(), Fail> {
    const ROWS: &[Row] = &[
        (0, Call::Grant(KAY, 1, None), "one is open"),
        (0, Call::Refuse(KAY, Refusal::SessionLimit), "no more"),
        (1_000, Call::Reset(HERE.source), "a reset"),
        (1_000, Call::Grant(KAY, 2, None), "free at once"),
        (1_000, Call::Refuse(KAY, Refusal::SessionLimit), "no more"),
        (
            1_000,
            Call::Rows(&[(1, Phase::Ended), (2, Phase::Pending)]),
            "the first has ended",
        ),
        (2_000, Call::Reset(HERE.source), "another reset"),
        (
            2_000,
            Call::Rows(&[(1, Phase::Ended), (2, Phase::Ended)]),
            "now the second has ended",
        ),
    ];
    play(&rt, rt.alloc(), ROWS)
}

#[test]
fn a_reset_ends_what_is_left_after_stops(rt: HostRuntime) -> Result<(), Fail> {
    const ROWS: &[Row] = &[
        (0, Call::Grant(BRUCE, 1, Some(TWO)), "the first"),
        (0, Call::Grant(NEMO, 2, Some(ONE)), "the second"),
        (0, Call::Stop(2), "a Stop"),
        (0, Call::Stop(2), "another Stop"),
        (
            30_000,
            Call::Grant(DORY, 3, Some(ONE)),
            "the second is gone",
        ),
        (30_000, Call::Stop(3), "a Stop"),
        (
            30_000,
            Call::Rows(&[(1, Phase::Pending), (3, Phase::Ended)]),
            "one is open",
        ),
        (59_999, Call::Reset(HERE.source), "a reset"),
        (
            59_999,
            Call::Rows(&[(1, Phase::Ended), (3, Phase::Ended)]),
            "none is open",
        ),
    ];
    play(&rt, rt.alloc(), ROWS)
}

#[test]
fn a_reset_ends_a_session_after_others_have_gone(rt: HostRuntime) -> Result<(), Fail> {
    const ROWS: &[Row] = &[
        (0, Call::Grant(BRUCE, 1, Some(TWO)), "it is not started"),
        (0, Call::Grant(NEMO, 2, Some(ONE)), "it is stopped"),
        (0, Call::Stop(2), "a Stop"),
        (60_000, Call::Expire, "the hold"),
        (60_000, Call::Rows(&[]), "both are gone"),
        (60_000, Call::Grant(NEMO, 3, Some(ONE)), "a third"),
        (60_000, Call::Reset(HERE.source), "a reset"),
        (60_000, Call::Rows(&[(3, Phase::Ended)]), "it has ended"),
        (90_000, Call::Grant(NEMO, 4, Some(ONE)), "a fourth"),
        (90_000, Call::Start(4), "a Start"),
        (90_000, Call::Reset(HERE.source), "another reset"),
        (90_000, Call::Rows(&[(4, Phase::Ended)]), "it has ended too"),
    ];
    play(&rt, rt.alloc(), ROWS)
}
