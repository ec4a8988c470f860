//! Journals over a store in memory and over files, on disks that fail too; rows that are no entry's; what is kept of an entry; and
//! servers restored from journals.
mod commits;
mod disks;
mod entries;
mod journals;
mod keeping;
mod records;
mod restoring;
mod rotten;
mod rows;
mod stores;
mod texts;

use std::process::Abort;

// Asserts once, of `what`.
fn holds(rt: &impl Abort, is_so: bool, what: &str) {
    assert!(rt; is_so, "{what}");
}
