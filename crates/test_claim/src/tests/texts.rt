//! Faults as they are numbered and printed.
use crate::tests::holds;
use rad_claim::CloseFault;
use std::alloc::Global;

/// A fault, its number and its text.
type Row = (CloseFault, u8, &'static str);

#[test]
fn faults_have_numbers_and_texts(rt: HostRuntime) {
    const ROWS: &[Row] = &[
        (CloseFault::TooFew, 1, "a seat is missing"),
        (CloseFault::Unfinished, 2, "a seat has not finished"),
    ];
    for row in ROWS.iter() {
        holds(&rt, is_printed(rt.alloc(), *row), row.2);
    }
}

// Whether a fault has its number and its text.
fn is_printed(alloc: Global, row: Row) -> bool {
    let (fault, number, text) = row;
    match fault.to_string(alloc) {
        Ok(printed) => fault.number() == number && printed.as_str() == text,
        Err(_) => false,
    }
}
