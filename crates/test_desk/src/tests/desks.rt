//! How desks end that were asked: with their history, or with a mismatch.
use super::asking::Ending::{Close, CloseLater, CloseWithOne, Settle, SettleWithNone};
use super::asking::Way::{AtOnce, InTurn};
use super::asking::{Asked, Ended, Ending, left_of};
use super::requests::DORY;
use crate::tests::holds;
use rad_desk::{Mismatch, Receipt};
use rad_packet::code::{ACCESS_ACCEPT, ACCESS_REJECT};
use rad_server::{Answer, Entry};
use std::alloc::Global;
use std::sync::Wait;
use std::thread::Threads;
use test_common::RFC_REQUEST;

const NEMO_7: Asked = Asked {
    pass: 0,
    tag: 7,
    octets: RFC_REQUEST,
};

const DORY_8: Asked = Asked {
    pass: 1,
    tag: 8,
    octets: DORY,
};

/// nemo asks with the first pass, and then dory with the second one.
const BOTH: &[Asked] = &[NEMO_7, DORY_8];

#[test]
fn a_desk_closes_with_its_history(rt: HostRuntime) {
    let ended = left_of(&rt, rt.alloc(), InTurn(BOTH, Close));
    let wanted = &[(7, ACCESS_ACCEPT), (8, ACCESS_REJECT)];
    holds(
        &rt,
        has_history(&ended, wanted),
        "an Accept and a Reject, in turn",
    );
    holds(&rt, all_stand(&ended), "each receipt stands in the history");
}

#[test]
fn a_book_of_the_same_settles(rt: HostRuntime) {
    let ended = left_of(&rt, rt.alloc(), InTurn(BOTH, Settle(BOTH)));
    let wanted = &[(7, ACCESS_ACCEPT), (8, ACCESS_REJECT)];
    holds(&rt, has_history(&ended, wanted), "the book's history");
    holds(&rt, all_stand(&ended), "each receipt stands in it");
}

/// How a desk ends at which both asked, why it doesn't close, and what that shows.
type Row = (Ending, Mismatch, &'static str);

#[test]
fn what_does_not_agree_does_not_close(rt: HostRuntime) {
    const ROWS: &[Row] = &[
        (CloseLater, Mismatch::Opening, "a later clock"),
        (
            CloseWithOne,
            Mismatch::Count,
            "a missing pass with a receipt",
        ),
        (
            Settle(&[DORY_8, NEMO_7]),
            Mismatch::At { pass: 0, place: 0 },
            "another order",
        ),
        (SettleWithNone(BOTH), Mismatch::Count, "no pass"),
    ];
    for row in ROWS.iter() {
        holds(&rt, mismatches(&rt, rt.alloc(), *row), row.2);
    }
}

#[test]
fn a_pass_without_receipts_may_be_missing(rt: HostRuntime) {
    let ended = left_of(&rt, rt.alloc(), InTurn(&[NEMO_7], CloseWithOne));
    holds(&rt, has_history(&ended, &[(7, ACCESS_ACCEPT)]), "an Accept");
}

#[test]
fn two_equal_asks_are_two_entries(rt: HostRuntime) {
    let ended = left_of(&rt, rt.alloc(), InTurn(&[NEMO_7, NEMO_7], Close));
    let wanted = &[(7, ACCESS_ACCEPT), (7, ACCESS_ACCEPT)];
    holds(&rt, has_history(&ended, wanted), "two entries");
    holds(&rt, are_equal(&ended), "the entries are the same");
    holds(&rt, places_rise(&ended), "the places rise");
}

#[test]
fn two_threads_share_a_desk(rt: HostRuntime) {
    const FIRST: &[Asked] = &[
        NEMO_7, NEMO_7, NEMO_7, NEMO_7, NEMO_7, NEMO_7, NEMO_7, NEMO_7,
    ];
    const SECOND: &[Asked] = &[
        DORY_8, DORY_8, DORY_8, DORY_8, DORY_8, DORY_8, DORY_8, DORY_8,
    ];
    let ended = left_of(&rt, rt.alloc(), AtOnce(FIRST, SECOND));
    holds(
        &rt,
        has_len(&ended, 16),
        "as many entries and receipts as asks",
    );
    holds(&rt, all_stand(&ended), "each receipt stands in the history");
}

// Whether a desk ends as its row says.
fn mismatches<R: Threads + Wait + Sync>(rt: &R, alloc: Global, row: Row) -> bool {
    let (ending, wanted, _) = row;
    match left_of(rt, alloc, InTurn(BOTH, ending)) {
        Some(
            Ended {
                history: Err(mismatch),
                ..
            },
        ) => mismatch == wanted,
        _ => false,
    }
}

// Whether these are the tags of the entries and the Codes of their replies.
fn has_history(ended: &Option<Ended>, wanted: &[(u64, u8)]) -> bool {
    match ended {
        Some(
            Ended {
                history: Ok(history),
                ..
            },
        ) => history.len() == wanted.len() && has_each(history, wanted),
        _ => false,
    }
}

fn has_each(history: &[Entry], wanted: &[(u64, u8)]) -> bool {
    let mut rest = wanted.iter();
    for entry in history.iter() {
        if rest.next() != Some(&(entry.tag, code_of(&entry.answer))) {
            return false;
        }
    }
    true
}

fn code_of(answer: &Answer) -> u8 {
    match answer {
        Answer::Send(body) => body.code(),
        Answer::Busy => 0,
    }
}

// Whether there are so many entries, and so many receipts.
fn has_len(ended: &Option<Ended>, wanted: usize) -> bool {
    match ended {
        Some(
            Ended {
                receipts,
                history: Ok(history),
            },
        ) => receipts.len() == wanted && history.len() == wanted,
        _ => false,
    }
}

// Whether the entry of each receipt is the one at its place.
fn all_stand(ended: &Option<Ended>) -> bool {
    match ended {
        Some(
            Ended {
                receipts,
                history: Ok(history),
            },
        ) => receipts.iter().all(|receipt| stands(history, receipt)),
        _ => false,
    }
}

fn stands(history: &[Entry], receipt: &Receipt) -> bool {
    match history.get(receipt.place as usize) {
        Some(entry) => entry.same(&receipt.entry),
        None => false,
    }
}

// Whether the two entries are the same.
fn are_equal(ended: &Option<Ended>) -> bool {
    match ended {
        Some(
            Ended {
                history: Ok(history),
                ..
            },
        ) => match history.as_slice() {
            [first, second] => first.same(second),
            _ => false,
        },
        _ => false,
    }
}

// Whether the second of the two receipts has the higher place.
fn places_rise(ended: &Option<Ended>) -> bool {
    match ended {
        Some(Ended { receipts, .. }) => match receipts.as_slice() {
            [first, second] => first.place < second.place,
            _ => false,
        },
        None => false,
    }
}
