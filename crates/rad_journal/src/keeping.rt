//! What a turn keeps.
ghost use Rattle.std.specs.Prelude.{◌≡◌, ◌++◌, length, count_by, option_to_list, IfOk, IsOk, OnOk};
ghost use Rattle.rad_server.specs.Runs.{counted, fresh_of};
ghost use Rattle.rad_journal.specs.Kept.{NoneIsFresh, kept_by, kept_of};
ghost use Rattle.rad_journal.specs.Records.{AccountingIsRecorded, GrantsAreRecorded, OnlyGrantsAreRecorded};
ghost use Rattle.rad_journal.specs.Restores.{RepliedAreKept};

use crate::kept::Kept;
use rad_server::Entry;
use std::alloc::{AllocError, Global};

/// What is kept of a turn: of its fresh entries, in their order, each at the moment at which it counted.
///
/// `wall` is in milliseconds since 1970, `clock` the server's before the turn, and a mark says of each entry whether it is fresh.
/// Where none is, this takes no memory.
#[tactic(auto, using(crate::proofs::KeepLemmas::none_counted))]
pub fn keep(
    alloc: Global,
    wall: u64,
    clock: u64,
    history: &[Entry],
    marks: &[bool],
) -> Result<Vec<Kept>, AllocError>
    requires count { length marks.now ≡ length history.now }
    ensures kept { IfOk result (λ kept.
        kept.items ≡ kept_of wall (fresh_of clock history.now marks.now)) }
    ensures memory { NoneIsFresh marks.now → IsOk result }
{
    let mut kept = Vec::with_capacity(alloc, fresh_count(marks))?;
    let mut latest = clock;
    for i in 0..history.len() {
        let entry = &history[i];
        if marks[i] {
            keep_one(alloc, wall, latest, entry, &mut kept)?;
        }
        latest = latest.max(entry.moment);
    }
    Ok(kept)
}

// How many entries are fresh.
fn fresh_count(marks: &[bool]) -> usize
    ensures { result ≡ count_by (λ mark. mark) marks.now }
{
    marks.iter().filter(|mark| **mark).count()
}

// Adds what is kept of an entry that came when the clock showed this, if anything is.
fn keep_one(
    alloc: Global,
    wall: u64,
    clock: u64,
    entry: &Entry,
    kept: &mut Vec<Kept>,
) -> Result<(), AllocError>
    ensures { OnOk result (kept.new.items
        ≡ kept.old.items ++ option_to_list (kept_by wall (counted clock entry.now))) }
{
    if let Some(one) = Kept::of(alloc, wall, clock, entry)? {
        kept.push(one)?;
    }
    Ok(())
}

/// An admitted Accounting-Request that is kept has a record with its attributes, whatever its number, and no other request has one.
///
/// The call costs nothing: it does nothing at run time.
pub fn accounting_is_recorded()
    ensures { AccountingIsRecorded }
{}

/// The session that is granted to an admitted request that is kept has a record with its number and its address, and no other reply
/// has one.
///
/// The call costs nothing: it does nothing at run time.
pub fn grants_are_recorded()
    ensures granted { GrantsAreRecorded }
    ensures only { OnlyGrantsAreRecorded }
{}

/// What `keep` makes of entries is kept of them, as `restore` reads it, where each of them got a reply.
///
/// The call costs nothing: it does nothing at run time.
pub fn kept_are_restored()
    ensures { RepliedAreKept }
{}
