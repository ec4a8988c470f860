//! Records beside entries: which entries have one, and which records are refused.
use super::holds;
use super::rows::row_with;
use super::stores::{blank, with_row};
use rad_accounting::{Occasion, fill, fill_grant};
use rad_journal::{JournalFault, Register, StoreJournal};
use rad_packet::Packet;
use sqlite_value::row::Row;
use sqlite_value::value::ValueRef;
use std::alloc::Global;
use std::test::Fail;

/// An Accounting-Request that is a Start, and nothing else.
const START: &[u8; 26] = b"\x04\x01\x00\x1a\0\0\0\0\0\0\0\0\0\0\0\0\0\0\0\0\x28\x06\0\0\0\x01";

/// An Access-Request of mira, and nothing else.
const LOG_IN: &[u8; 26] = b"\x01\x01\x00\x1a\0\0\0\0\0\0\0\0\0\0\0\0\0\0\0\0\x01\x06mira";

/// Answers as they are kept: an Access-Accept that gives 10.20.0.7 and session 1, one without a session, and an Access-Challenge
/// that says the same.
const ACCEPT: &[u8; 21] = b"\x02\x08\x06\x0a\x14\x00\x07\x19\x0eRAP1\0\0\0\0\0\0\0\x01";

const ACCEPT_ALONE: &[u8; 7] = b"\x02\x08\x06\x0a\x14\x00\x07";

const CHALLENGE: &[u8; 21] = b"\x0b\x08\x06\x0a\x14\x00\x07\x19\x0eRAP1\0\0\0\0\0\0\0\x01";

const GIVEN: u32 = 0x0A14_0007;

/// When and from whom it came, as the first entry says.
const OCCASION: Occasion = Occasion {
    entry: 1,
    time: 1,
    client: 1,
    source: 1,
    session: Some(1),
};

const DAMAGED: Result<(), JournalFault> = Err(JournalFault::Damaged);

/// A record: in which register, of a request that came then, and with which address.
type Record = (Register, Occasion, Option<u32>);

/// What is recorded beside an entry, and what opening the journal reports.
type Case = (Option<Record>, Result<(), JournalFault>, &'static str);

fn row_of(alloc: Global, request: &[u8], record: Record) -> Result<Row, JournalFault> {
    let mut row = Row::new(alloc);
    let Ok(packet) = Packet::read(request) else {
        return Err(JournalFault::Damaged);
    };
    match record {
        (Register::Accounting, occasion, _) => fill(&mut row, &occasion, &packet)?,
        (Register::Grants, occasion, address) => {
            fill_grant(&mut row, &occasion, address, &packet)?;
        }
    }
    Ok(row)
}

// Opens a journal of one entry, with this request and this answer, and perhaps a record, which may be of another request.
fn opening(
    alloc: Global,
    request: &[u8],
    answer: &[u8],
    of: &[u8],
    recorded: Option<Record>,
) -> Result<(), JournalFault> {
    let columns = [(9, ValueRef::Blob(request)), (10, ValueRef::Blob(answer))];
    let mut store = with_row(blank(alloc)?, 0, &row_with(alloc, &columns)?)?;
    if let Some(record) = recorded {
        store = with_row(store, record.0.tree(), &row_of(alloc, of, record)?)?;
    }
    let _journal = StoreJournal::open(alloc, store)?;
    Ok(())
}

#[test]
fn a_report_has_its_record(rt: HostRuntime) -> Result<(), Fail> {
    const OWN: Record = (Register::Accounting, OCCASION, None);
    const ROWS: &[Case] = &[
        (Some(OWN), Ok(()), "its own"),
        (None, DAMAGED, "none"),
        (
            Some((Register::Grants, OCCASION, None)),
            DAMAGED,
            "one in the other register",
        ),
        (
            Some((
                Register::Accounting,
                Occasion {
                    entry: 2,
                    ..OCCASION
                },
                None,
            )),
            DAMAGED,
            "one under another number",
        ),
        (
            Some((
                Register::Accounting,
                Occasion {
                    session: None,
                    ..OCCASION
                },
                None,
            )),
            DAMAGED,
            "one without the session",
        ),
    ];
    for row in ROWS.iter() {
        let opened = opening(rt.alloc(), START, &[5], START, row.0);
        holds(&rt, opened == row.1, row.2);
    }
    let other = opening(rt.alloc(), &[1, 2, 3], &[5], START, Some(OWN));
    holds(&rt, other == DAMAGED, "one of no report");
    Ok(())
}

#[test]
fn a_session_that_is_given_has_its_record(rt: HostRuntime) -> Result<(), Fail> {
    const OWN: Record = (Register::Grants, OCCASION, Some(GIVEN));
    const ROWS: &[Case] = &[
        (Some(OWN), Ok(()), "its own"),
        (None, DAMAGED, "none"),
        (
            Some((Register::Grants, OCCASION, None)),
            DAMAGED,
            "one without the address",
        ),
        (
            Some((
                Register::Grants,
                Occasion {
                    session: Some(2),
                    ..OCCASION
                },
                Some(GIVEN),
            )),
            DAMAGED,
            "one of another session",
        ),
        (
            Some((Register::Accounting, OCCASION, None)),
            DAMAGED,
            "one in the other register",
        ),
    ];
    for row in ROWS.iter() {
        let opened = opening(rt.alloc(), LOG_IN, ACCEPT, LOG_IN, row.0);
        holds(&rt, opened == row.1, row.2);
    }
    Ok(())
}

#[test]
fn an_answer_without_a_session_has_none(rt: HostRuntime) -> Result<(), Fail> {
    const OWN: Record = (Register::Grants, OCCASION, Some(GIVEN));
    const ANSWERS: &[(&[u8], &str)] = &[
        (ACCEPT_ALONE, "an Access-Accept"),
        (CHALLENGE, "an Access-Challenge"),
        (&[], "no answer"),
    ];
    for row in ANSWERS.iter() {
        let without = opening(rt.alloc(), LOG_IN, row.0, LOG_IN, None);
        holds(&rt, without == Ok(()), row.1);
        let with = opening(rt.alloc(), LOG_IN, row.0, LOG_IN, Some(OWN));
        holds(&rt, with == DAMAGED, row.1);
    }
    Ok(())
}
