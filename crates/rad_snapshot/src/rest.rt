//! What is left to be written of a table.
ghost use Rattle.std.specs.Prelude.{◌≡◌, [], false, IfOk, IsTrue};
ghost use Rattle.rad_snapshot.specs.Restoring.{IsNext, left};

use crate::filling::{fill_challenge, fill_reply, fill_session};
use rad_journal::JournalFault;
use rad_pool::SessionRows;
use rad_recent::{ChallengeRows, KeptRows};
use sqlite_value::row::Row;

/// The rows of a table that are left to be written, oldest first.
#[derive(Drop)]
pub(crate) enum Rest<'a> {
    Sessions(SessionRows<'a>),
    Replies(KeptRows<'a>),
    Challenges(ChallengeRows<'a>),
}

impl<'a> Rest<'a> {
    /// Makes the row of the next one at a place, if there is one left.
    pub fn fill_next(&mut self, row: &mut Row, place: u32) -> Result<bool, JournalFault>
        ensures next { IfOk result (λ more. IsTrue more
            → IsNext (left self.old) (left self.new) place row.new) }
        ensures end { IfOk result (λ more. more ≡ false → left self.old ≡ []) }
    {
        match self {
            Rest::Sessions(rows) => {
                let Some(session) = rows.next() else {
                    return Ok(false);
                };
                fill_session(row, place, &session)?;
            }
            Rest::Replies(rows) => {
                let Some(reply) = rows.next() else {
                    return Ok(false);
                };
                fill_reply(row, place, reply)?;
            }
            Rest::Challenges(rows) => {
                let Some(challenge) = rows.next() else {
                    return Ok(false);
                };
                fill_challenge(row, place, &challenge)?;
            }
        }
        Ok(true)
    }
}
