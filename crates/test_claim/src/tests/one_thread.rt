//! What seats are told in turn, and how closing ends.
ghost use Rattle.rad_claim.specs.Claims.{IsSeatOf};

use super::{Two, open_two};
use crate::tests::holds;
use rad_claim::{ClaimSeat, Claims, CloseFault};
use std::alloc::{AllocError, Global};
use std::test::Fail;

type Closed = Result<Vec<Vec<u64>>, CloseFault>;

type Lists = &'static [&'static [u64]];

// Claims as often as there are answers. Whether these are the answers, and the seat.
fn is_told(claims: &Claims, mut seat: ClaimSeat, answers: &[Option<u64>]) -> (bool, ClaimSeat)
    requires { IsSeatOf claims.now seat }
    ensures { IsSeatOf claims.now result.1 }
{
    let mut is_so = true;
    for answer in answers {
        let (batch, next) = claims.claim(seat);
        seat = next;
        is_so = is_so && batch == *answer;
    }
    (is_so, seat)
}

// Whether closing ended so.
fn ended_so(closed: &Closed, expected: &Result<Lists, CloseFault>) -> bool {
    match (closed, expected) {
        (Ok(lists), Ok(expected)) => are_lists(lists.as_slice(), expected),
        (Err(fault), Err(expected)) => fault == expected,
        _ => false,
    }
}

fn are_lists(lists: &[Vec<u64>], expected: &[&[u64]]) -> bool {
    lists.len() == expected.len()
        && lists
            .iter()
            .zip(expected)
            .all(|(list, expected)| list.as_slice() == *expected)
}

#[test]
fn seats_take_turns(rt: HostRuntime) -> Result<(), Fail> {
    let Two {
        claims,
        first,
        second,
    } = open_two(rt.alloc(), 5)?;
    let (three, first) = is_told(&claims, first, &[Some(0), Some(1), Some(2)]);
    let (fourth, second) = is_told(&claims, second, &[Some(3)]);
    let (last, first) = is_told(&claims, first, &[Some(4), None]);
    let (none, second) = is_told(&claims, second, &[None]);
    let closed = claims.close(vec![in rt.alloc(); first, second]?);
    let is_closed = ended_so(&closed, &Ok(&[&[0, 1, 2, 4], &[3]]));
    holds(
        &rt,
        three && fourth && last && none,
        "each claim gets the next batch",
    );
    holds(&rt, is_closed, "the batches of each seat");
    Ok(())
}

#[test]
fn there_may_be_no_batches(rt: HostRuntime) -> Result<(), Fail> {
    let (claims, mut seats) = Claims::open(rt.alloc(), 0, 3)?;
    let (first_none, first) = is_told(&claims, seats.remove(0), &[None]);
    let (second_none, second) = is_told(&claims, seats.remove(0), &[None]);
    let (third_none, third) = is_told(&claims, seats.remove(0), &[None]);
    let closed = claims.close(vec![in rt.alloc(); first, second, third]?);
    let is_closed = ended_so(&closed, &Ok(&[&[], &[], &[]]));
    holds(
        &rt,
        first_none && second_none && third_none,
        "no seat gets a batch",
    );
    holds(&rt, is_closed, "three empty lists");
    Ok(())
}

/// Which of two seats are handed in.
#[derive(Clone, Copy)]
enum Handed {
    Both,
    SecondFirst,
    First,
    Neither,
}

/// What the first seat is told and then the second, which are handed in, how closing ends, and what that shows. There are two
/// batches.
type Row = (
    &'static [Option<u64>],
    &'static [Option<u64>],
    Handed,
    Result<Lists, CloseFault>,
    &'static str,
);

const ROWS: &[Row] = &[
    (
        &[Some(0), Some(1), None],
        &[None, None],
        Handed::Both,
        Ok(&[&[0, 1], &[]]),
        "the first has both",
    ),
    (
        &[Some(0), Some(1), None],
        &[None],
        Handed::SecondFirst,
        Ok(&[&[], &[0, 1]]),
        "the lists come as the seats are handed in",
    ),
    (
        &[Some(0)],
        &[Some(1), None],
        Handed::Both,
        Err(CloseFault::Unfinished),
        "the first wasn't told None",
    ),
    (
        &[Some(0), Some(1), None],
        &[],
        Handed::Both,
        Err(CloseFault::Unfinished),
        "the second wasn't told None",
    ),
    (
        &[Some(0), Some(1), None],
        &[None],
        Handed::First,
        Err(CloseFault::TooFew),
        "the second is missing",
    ),
    (
        &[Some(0)],
        &[],
        Handed::First,
        Err(CloseFault::TooFew),
        "one is missing beside one that wasn't told None",
    ),
    (
        &[Some(0), Some(1), None],
        &[None],
        Handed::Neither,
        Err(CloseFault::TooFew),
        "both are missing",
    ),
];

#[test]
fn closing_ends_as_the_seats_say(rt: HostRuntime) -> Result<(), Fail> {
    for row in ROWS.iter() {
        let is_so = ends_so(rt.alloc(), *row)?;
        holds(&rt, is_so, row.4);
    }
    Ok(())
}

fn ends_so(alloc: Global, row: Row) -> Result<bool, AllocError> {
    let (first_told, second_told, handed, expected, _) = row;
    let Two {
        claims,
        first,
        second,
    } = open_two(alloc, 2)?;
    let (first_is_told, first) = is_told(&claims, first, first_told);
    let (second_is_told, second) = is_told(&claims, second, second_told);
    let seats = match handed {
        Handed::Both => vec![in alloc; first, second]?,
        Handed::SecondFirst => vec![in alloc; second, first]?,
        Handed::First => vec![in alloc; first]?,
        Handed::Neither => Vec::new(alloc),
    };
    let closed = claims.close(seats);
    Ok(first_is_told && second_is_told && ended_so(&closed, &expected))
}
