//! Kept replies and challenges: tables of calls, and random calls that are made to plain lists too.
//! As `CAMPUS` says, replies live 30 seconds, and challenges 60.
mod challenge_pair;
mod challenges;
mod pairs;
mod replies;
mod reply_pair;

use std::process::Abort;

// Asserts once, of `what`.
fn holds(rt: &impl Abort, is_so: bool, what: &str) {
    assert!(rt; is_so, "{what}");
}
