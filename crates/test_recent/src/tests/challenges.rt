//! Challenges that are issued, answered, counted and put back.
use crate::tests::holds;
use rad_config::{Config, MOMENT_MAX};
use rad_recent::{Challenge, Challenges, IssueFault, Party, RowFault, state_value};
use std::alloc::Global;
use std::process::Abort;
use std::test::Fail;
use test_common::CAMPUS;

/// A call, and what it must return or leave. The 16 octets of a draw are equal.
#[derive(Clone, Copy)]
enum Call {
    /// A client, a user and a draw, and what `peek` answers, and then `issue`.
    Issue(u32, u32, u8, Result<u64, IssueFault>),
    /// A State of a number and a draw, cut to so many octets, and a client; and the user and the moment of the challenge that is
    /// answered.
    Take(u64, u8, usize, u32, Option<(u32, u64)>),
    /// So many live challenges of a party wait.
    Count(Party, u64),
    /// So many challenges of a party are there.
    Len(Party, u64),
    /// A number and a moment, and what putting back their challenge answers. After a refusal nothing has changed.
    Restore(u64, u64, Result<(), RowFault>),
    /// A last number, and what putting it back answers, and the last number then. After a refusal nothing has changed.
    RestoreLast(u64, Result<(), RowFault>, u64),
    Expire,
    /// The number of each challenge, oldest first.
    Rows(&'static [u64]),
    /// A copy is the same, and isn't once a challenge of this number is issued.
    Copy(u64),
    /// 1,024 challenges are issued, numbered from 1 on.
    Fill,
}

use Call::{Copy, Count, Expire, Fill, Issue, Len, Restore, RestoreLast, Rows, Take};

/// The moment of a call in milliseconds, the call, and what is said if it has another outcome.
type Row = (u64, Call, &'static str);

// Makes the calls, each at its moment, in a table that is opened for them, and asserts what each returns.
fn play(rt: &impl Abort, alloc: Global, rows: &[Row]) -> Result<(), Fail> {
    let config = Config::read(alloc, CAMPUS)?;
    play_over(rt, alloc, &config, rows)
}

fn play_over(rt: &impl Abort, alloc: Global, config: &Config, rows: &[Row]) -> Result<(), Fail> {
    let mut challenges = Challenges::open(alloc, config)?;
    for row in rows.iter() {
        let (now, call, what) = *row;
        holds(rt, make(&mut challenges, now, &call), what);
    }
    Ok(())
}

// Makes a call, and returns whether it returned what it must.
fn make(challenges: &mut Challenges, now: u64, call: &Call) -> bool {
    match call {
        Issue(client, user, draw, issued) => {
            issue(challenges, *client, *user, *draw, now) == Some(*issued)
        }
        Take(number, draw, len, client, found) => {
            let challenge = found.map(|(user, made)| Challenge {
                number: *number,
                draw: [*draw; 16],
                client: *client,
                user,
                made,
            });
            let state = state_value(*number, &[*draw; 16]);
            let state = &state[..(*len).min(24)];
            takes(challenges, state, *client, now, challenge)
        }
        Count(party, count) => counts(challenges, *party, now) == Some(*count),
        Len(party, len) => challenges.len_with(*party) == *len,
        Restore(number, made, restored) => restores(challenges, *number, *made, now, *restored),
        RestoreLast(last, restored, then) => {
            restores_last(challenges, *last, *restored) && challenges.last() == *then
        }
        Expire => expire(challenges, now),
        Rows(wanted) => are_rows(challenges, wanted),
        Copy(number) => copies(challenges, *number, now),
        Fill => fills(challenges, now),
    }
}

// What `issue` answers, or None if there is no such moment, or `peek` answers something else, or `room` fails.
fn issue(
    challenges: &mut Challenges,
    client: u32,
    user: u32,
    draw: u8,
    now: u64,
) -> Option<Result<u64, IssueFault>> {
    if MOMENT_MAX < now {
        return None;
    }
    let peeked = challenges.peek(now);
    challenges.room().ok()?;
    let issued = challenges.issue(client, user, &[draw; 16], now);
    if peeked == issued { Some(issued) } else { None }
}

// How many live challenges of a party wait.
fn counts(challenges: &Challenges, party: Party, now: u64) -> Option<u64> {
    if MOMENT_MAX < now {
        return None;
    }
    Some(challenges.count_of(party, now))
}

fn expire(challenges: &mut Challenges, now: u64) -> bool {
    if MOMENT_MAX < now {
        return false;
    }
    challenges.expire(now);
    true
}

// Whether `seek` gives the user of this challenge and changes nothing, and `take` then gives the challenge.
fn takes(
    challenges: &mut Challenges,
    state: &[u8],
    client: u32,
    now: u64,
    challenge: Option<Challenge>,
) -> bool {
    if MOMENT_MAX < now {
        return false;
    }
    let Ok(before) = challenges.copy() else {
        return false;
    };
    let user = challenges.seek(state, client, now);
    let is_same = challenges.same(&before);
    let taken = challenges.take(state, client, now);
    (is_same, user, taken) == (true, challenge.map(|it| it.user), challenge)
}

// Whether these are the numbers of the challenges, oldest first.
fn are_rows(challenges: &Challenges, wanted: &[u64]) -> bool {
    let mut rest = wanted.iter();
    for challenge in challenges.rows() {
        if rest.next() != Some(&challenge.number) {
            return false;
        }
    }
    rest.next().is_none()
}

// Whether a copy is the same, and isn't once a challenge of this number is issued.
fn copies(challenges: &mut Challenges, number: u64, now: u64) -> bool {
    let Ok(copy) = challenges.copy() else {
        return false;
    };
    let is_same = copy.same(challenges);
    let issued = issue(challenges, 0, 3, 7, now);
    (is_same, issued, copy.same(challenges)) == (true, Some(Ok(number)), false)
}

// Whether as many challenges are issued as there may be, numbered in turn.
fn fills(challenges: &mut Challenges, now: u64) -> bool {
    let mut is_right = true;
    for number in 1..=1_024 {
        is_right = is_right && issue(challenges, 0, 3, 7, now) == Some(Ok(number));
    }
    is_right
}

// Whether putting back a challenge of the third client for the eighth user answers this, and changes nothing if it is refused.
fn restores(
    challenges: &mut Challenges,
    number: u64,
    made: u64,
    clock: u64,
    restored: Result<(), RowFault>,
) -> bool {
    let Ok(before) = challenges.copy() else {
        return false;
    };
    let row = Challenge {
        number,
        draw: [7; 16],
        client: 2,
        user: 7,
        made,
    };
    let answer = challenges.restore(row, clock);
    (answer, challenges.same(&before)) == (restored, restored.is_err())
}

// The same of a last number, which is another one than before.
fn restores_last(challenges: &mut Challenges, last: u64, restored: Result<(), RowFault>) -> bool {
    let Ok(before) = challenges.copy() else {
        return false;
    };
    let answer = challenges.restore_last(last);
    (answer, challenges.same(&before)) == (restored, restored.is_err())
}

#[test]
fn clients_and_users_have_their_challenges(rt: HostRuntime) -> Result<(), Fail> {
    const ROWS: &[Row] = &[
        (0, Issue(0, 3, 7, Ok(1)), "one"),
        (1_000, Issue(0, 2, 7, Ok(2)), "another user's"),
        (2_000, Issue(1, 3, 7, Ok(3)), "another client's"),
        (
            2_000,
            Count(Party::Client(0), 2),
            "the first client has two",
        ),
        (2_000, Count(Party::Client(1), 1), "the second has one"),
        (2_000, Count(Party::Client(2), 0), "a third has none"),
        (2_000, Count(Party::User(3), 2), "the first user has two"),
        (2_000, Count(Party::User(2), 1), "the other has one"),
        (60_000, Count(Party::User(3), 1), "the first one is over"),
        (
            60_000,
            Take(3, 7, 24, 1, Some((3, 2_000))),
            "one is answered",
        ),
        (60_000, Count(Party::User(3), 0), "none is left"),
        (60_000, Count(Party::Client(0), 1), "but the other user's"),
    ];
    play(&rt, rt.alloc(), ROWS)
}

#[test]
fn a_challenge_is_answered_once(rt: HostRuntime) -> Result<(), Fail> {
    const ROWS: &[Row] = &[
        (0, Rows(&[]), "none waits yet"),
        (0, Issue(0, 3, 7, Ok(1)), "a first challenge"),
        (1_000, Issue(1, 4, 8, Ok(2)), "another client's"),
        (1_000, Issue(0, 5, 7, Ok(3)), "the first client's again"),
        (59_999, Take(1, 7, 24, 1, None), "another client"),
        (59_999, Take(1, 7, 23, 0, None), "an octet short"),
        (59_999, Take(1, 7, 8, 0, None), "the number alone"),
        (59_999, Take(1, 7, 0, 0, None), "an empty State"),
        (59_999, Take(1, 8, 24, 0, None), "another draw"),
        (59_999, Take(2, 7, 24, 0, None), "another number"),
        (59_999, Rows(&[1, 2, 3]), "all three wait"),
        (59_999, Take(1, 7, 24, 0, Some((3, 0))), "its answer"),
        (59_999, Take(1, 7, 24, 0, None), "its answer once more"),
        (59_999, Rows(&[2, 3]), "the others wait"),
        (
            60_999,
            Take(3, 7, 24, 0, Some((5, 1_000))),
            "the last moment",
        ),
        (61_000, Take(2, 8, 24, 1, None), "the end of the hold"),
        (61_000, Rows(&[]), "none is left"),
    ];
    play(&rt, rt.alloc(), ROWS)
}

#[test]
fn challenges_expire_each_in_its_turn(rt: HostRuntime) -> Result<(), Fail> {
    const ROWS: &[Row] = &[
        (5_000, Issue(0, 3, 7, Ok(1)), "the first"),
        (0, Issue(0, 3, 7, Ok(2)), "an earlier moment"),
        (59_999, Expire, "both live"),
        (59_999, Rows(&[1, 2]), "both stay"),
        (60_000, Expire, "the second's end"),
        (60_000, Rows(&[1]), "the first stays"),
        (65_000, Expire, "the first's end"),
        (65_000, Rows(&[]), "none is left"),
        (65_000, Issue(0, 3, 7, Ok(3)), "no number comes again"),
    ];
    play(&rt, rt.alloc(), ROWS)
}

#[test]
fn a_state_is_a_number_and_a_draw(rt: HostRuntime) {
    let state = state_value(0x0102_0304_0506_0708, b"sixteen octets..");
    holds(
        &rt,
        state == *b"\x01\x02\x03\x04\x05\x06\x07\x08sixteen octets..",
        "the most significant octet first",
    );
}

#[test]
fn a_copy_of_challenges_is_the_same_until_one_changes(rt: HostRuntime) -> Result<(), Fail> {
    const ROWS: &[Row] = &[
        (0, Copy(1), "an empty table"),
        (0, Take(1, 7, 24, 0, Some((3, 0))), "its challenge"),
        (0, Copy(2), "the number alone is left"),
        (0, Copy(3), "a table of one"),
        (0, Rows(&[2, 3]), "both wait"),
    ];
    play(&rt, rt.alloc(), ROWS)
}

#[test]
fn challenges_that_break_a_rule_stay_out(rt: HostRuntime) -> Result<(), Fail> {
    const NUMBER: Result<(), RowFault> = Err(RowFault::Number);
    const MOMENTS: Result<(), RowFault> = Err(RowFault::Moments);
    const ROWS: &[Row] = &[
        (9, Restore(0, 9, NUMBER), "no number"),
        (9, Restore(5, 10, MOMENTS), "made after the clock"),
        (9, Restore(5, 9, Ok(())), "made at the clock"),
        (9, Restore(5, 8, NUMBER), "a number that is there"),
        (9, Restore(4, 10, NUMBER), "the number is looked at first"),
        (9, Restore(6, 1, Ok(())), "an earlier moment"),
        (9, Rows(&[5, 6]), "both are back"),
        (90_000, Len(Party::Client(2), 2), "two of the third client"),
        (90_000, Len(Party::User(7), 2), "two of the eighth user"),
        (90_000, Len(Party::User(2), 0), "none of the third user"),
        (90_000, Count(Party::User(7), 0), "none is live"),
        (9, RestoreLast(5, NUMBER, 6), "a last number below theirs"),
        (9, RestoreLast(9, Ok(()), 9), "one above them"),
        (9, Restore(9, 9, NUMBER), "it was given"),
        (9, Issue(0, 3, 7, Ok(10)), "the next one"),
        (
            9,
            Restore(u64::MAX, 9, Ok(())),
            "the last number that there is",
        ),
        (
            9,
            Issue(0, 3, 7, Err(IssueFault::Full)),
            "no number is left",
        ),
    ];
    play(&rt, rt.alloc(), ROWS)
}

#[test]
fn so_many_challenges_and_no_more(rt: HostRuntime) -> Result<(), Fail> {
    const FULL: Result<u64, IssueFault> = Err(IssueFault::Full);
    const ROWS: &[Row] = &[
        (0, Fill, "1,024 challenges"),
        (59_999, Issue(0, 3, 7, FULL), "no more in the hold"),
        (
            59_999,
            Restore(1_025, 0, Err(RowFault::Full)),
            "none is put back",
        ),
        (60_000, Issue(0, 3, 7, Ok(1_025)), "the hold is over"),
        (60_000, Rows(&[1_025]), "the others are gone"),
    ];
    play(&rt, rt.alloc(), ROWS)
}
