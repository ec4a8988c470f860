//! What the law asks of a row that is put back.
ghost use Rattle.std.specs.Prelude.{◌≡◌, ◌+◌, ◌<◌, All, OnOk};
ghost use Rattle.rad_recent.specs.Index.{IsIndexed, replies_of};
ghost use Rattle.rad_recent.specs.Restored.{challenge_restorable, reply_restorable};

use crate::challenge::Challenge;
use crate::challenges::CHALLENGES_MAX;
use crate::index::Index;
use crate::indexed;
use crate::kept::Kept;
use crate::numbered::Numbered;
use crate::recent::KEPT_MAX;
use rad_row_fault::RowFault;
use rad_rows::Rows;

/// The first rule of the law that the kept replies wouldn't obey with this one.
#[tactic(auto, unfolding(crate::specs::Restored::reply_restorable))]
pub(crate) fn check_reply(
    rows: &Rows<Numbered, u64>,
    index: &Index,
    reply: &Kept,
    clock: u64,
) -> Result<(), RowFault>
    requires { All (IsIndexed index.now.map.entries) rows.now.rows }
    ensures { result ≡ reply_restorable clock reply.now
        (record { kept = replies_of rows.now.rows; window = rows.now.spans }) }
{
    if clock < reply.made {
        return Err(RowFault::Moments);
    }
    if indexed::has_row(rows, index, &reply.key) {
        return Err(RowFault::Key);
    }
    if KEPT_MAX <= rows.len() {
        return Err(RowFault::Full);
    }
    Ok(())
}

/// The first rule of the law that the challenges wouldn't obey with this one.
#[tactic(auto, unfolding(crate::specs::Restored::challenge_restorable))]
pub(crate) fn check_challenge(
    rows: &Rows<Challenge, u64>,
    row: &Challenge,
    clock: u64,
) -> Result<(), RowFault>
    ensures answer { result ≡ challenge_restorable clock row.now (record {
      challenges = rows.now.rows;
      next = rows.now.last + 1;
      hold = rows.now.spans;
    }) }
    ensures number { OnOk result (rows.now.last < row.now.number) }
{
    if row.number <= rows.last() {
        return Err(RowFault::Number);
    }
    if clock < row.made {
        return Err(RowFault::Moments);
    }
    if CHALLENGES_MAX <= rows.len() {
        return Err(RowFault::Full);
    }
    Ok(())
}
