//! Mismatches as they are numbered and printed.
use crate::tests::holds;
use rad_desk::Mismatch;
use std::alloc::Global;

/// A mismatch, its number and its text.
type Row = (Mismatch, u8, &'static str);

#[test]
fn mismatches_have_numbers_and_texts(rt: HostRuntime) {
    const ROWS: &[Row] = &[
        (
            Mismatch::Opening,
            1,
            "the history began from another server",
        ),
        (
            Mismatch::Count,
            2,
            "the receipts are not as many as the entries",
        ),
        (
            Mismatch::At { pass: 1, place: 7 },
            3,
            "pass 1 has a misplaced receipt for place 7",
        ),
    ];
    for row in ROWS.iter() {
        holds(&rt, is_printed(rt.alloc(), *row), row.2);
    }
}

// Whether a mismatch has its number and its text.
fn is_printed(alloc: Global, row: Row) -> bool {
    let (mismatch, number, text) = row;
    match mismatch.to_string(alloc) {
        Ok(printed) => mismatch.number() == number && printed.as_str() == text,
        Err(_) => false,
    }
}
