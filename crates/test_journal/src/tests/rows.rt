//! Rows that are no entry's.
use super::holds;
use super::stores::{blank, with_row};
use rad_journal::{JournalFault, StoreJournal};
use sqlite_value::row::Row;
use sqlite_value::value::ValueRef;
use std::alloc::{AllocError, Global};

/// A column, its value, and what opening a journal with one row reports, whose other columns are those of the first entry.
type Case = (
    usize,
    ValueRef<'static>,
    Result<(), JournalFault>,
    &'static str,
);

// The row of the first entry with other values in some columns.
pub(super) fn row_with(alloc: Global, others: &[(usize, ValueRef<'_>)]) -> Result<Row, AllocError> {
    let mut row = Row::new(alloc);
    for at in 0..11 {
        let usual = match at {
            0..=7 => ValueRef::Int(1),
            8 => ValueRef::Blob(&[7; 16]),
            _ => ValueRef::Blob(&[1, 2, 3]),
        };
        let other = others.iter().find(|other| other.0 == at);
        row.push(other.map_or(usual, |other| other.1))?;
    }
    Ok(row)
}

fn opening(alloc: Global, column: usize, value: ValueRef<'_>) -> Result<(), JournalFault> {
    let row = row_with(alloc, &[(column, value)])?;
    let store = with_row(blank(alloc)?, 0, &row)?;
    let _journal = StoreJournal::open(alloc, store)?;
    Ok(())
}

#[test]
fn a_row_of_no_entry_is_refused(rt: HostRuntime) {
    const DAMAGED: Result<(), JournalFault> = Err(JournalFault::Damaged);
    const ROWS: &[Case] = &[
        (0, ValueRef::Int(1), Ok(()), "the first entry"),
        (0, ValueRef::Int(2), DAMAGED, "the second entry alone"),
        (1, ValueRef::Int(-1), DAMAGED, "a wall time below 0"),
        (2, ValueRef::Null, DAMAGED, "no moment"),
        (3, ValueRef::Int(-1), DAMAGED, "a client below 0"),
        (4, ValueRef::Int(1 << 32), DAMAGED, "a source of 33 bits"),
        (5, ValueRef::Int(65_536), DAMAGED, "a port of 17 bits"),
        (6, ValueRef::Int(2), DAMAGED, "a third door"),
        (7, ValueRef::Null, Ok(()), "no session"),
        (7, ValueRef::Int(-1), DAMAGED, "a session below 0"),
        (8, ValueRef::Blob(&[7; 15]), DAMAGED, "a draw of 15 octets"),
        (
            9,
            ValueRef::Text(&[1, 2, 3]),
            DAMAGED,
            "a request in a text",
        ),
        (10, ValueRef::Null, DAMAGED, "no answer"),
    ];
    for row in ROWS.iter() {
        holds(&rt, opening(rt.alloc(), row.0, row.1) == row.2, row.3);
    }
}
