//! Changes of the sessions that their counts follow.
ghost use Rattle.std.specs.Prelude.{◌≡◌, ◌+◌, ◌++◌, ◌∷◌, [], IfSome, find, map, true};
ghost use Rattle.rad_rows.specs.Rows.{has_number};
ghost use Rattle.rad_pool.specs.Counts.{CountsRows, HoldsCounts, KeepsRoom};
ghost use Rattle.rad_pool.specs.Sessions.{IsOfSource, if_numbered, is_open, session_ended, session_reset};

use crate::counts::Counts;
use crate::report::Report;
use crate::session::{Phase, Session};
use rad_config::Spans;
use rad_rows::Rows;

/// Puts an open session last, with the next number.
pub(crate) fn add(rows: &mut Rows<Session, Spans>, counts: &mut Counts, session: Session)
    requires counts { CountsRows rows.old counts.old }
    requires room { rows.old.has_room ≡ true }
    requires number { session.number ≡ rows.old.last + 1 }
    requires phase { is_open session.phase ≡ true }
    ensures counts { CountsRows rows.new counts.new }
    ensures rows { rows.new.rows ≡ rows.old.rows ++ session ∷ [] }
    ensures last { rows.new.last ≡ rows.old.last + 1 }
    ensures spans { rows.new.spans ≡ rows.old.spans }
{
    rows.numbers_rise();
    counts.come(&session);
    rows.push(session);
}

/// The session of this number has ended.
pub(crate) fn stop(rows: &mut Rows<Session, Spans>, counts: &mut Counts, number: u64)
    requires { CountsRows rows.old counts.old }
    ensures counts { CountsRows rows.new counts.new }
    ensures rows { rows.new.rows ≡ map (if_numbered session_ended number) rows.old.rows }
    ensures last { rows.new.last ≡ rows.old.last }
    ensures spans { rows.new.spans ≡ rows.old.spans }
    ensures room { rows.new.has_room ≡ rows.old.has_room }
{
    rows.numbers_rise();
    counts.end(rows.change(number, &Report::Stop));
}

/// Each session of this source has ended.
pub(crate) fn reset(rows: &mut Rows<Session, Spans>, counts: &mut Counts, source: u32)
    requires { CountsRows rows.old counts.old }
    ensures counts { CountsRows rows.new counts.new }
    ensures rows { rows.new.rows ≡ map (session_reset source) rows.old.rows }
    ensures last { rows.new.last ≡ rows.old.last }
    ensures spans { rows.new.spans ≡ rows.old.spans }
    ensures room { rows.new.has_room ≡ rows.old.has_room }
{
    end_linked(rows, counts, source);
    if counts.none_open(source) {
        return;
    }
    end_all(rows, counts, source);
    rows.change_all(&Report::Reset(source));
}

// The sessions of a source that the links lead to have ended. Each step ends one.
fn end_linked(rows: &mut Rows<Session, Spans>, counts: &mut Counts, source: u32)
    requires { CountsRows rows.old counts.old }
    ensures counts { CountsRows rows.new counts.new }
    ensures rows { map (session_reset source) rows.new.rows
        ≡ map (session_reset source) rows.old.rows }
    ensures last { rows.new.last ≡ rows.old.last }
    ensures spans { rows.new.spans ≡ rows.old.spans }
    ensures room { rows.new.has_room ≡ rows.old.has_room }
{
    for _step in 0..rows.len() {
        let Some(number) = newest_open(rows, counts, source) else {
            return;
        };
        rows.numbers_rise();
        stop(rows, counts, number);
    }
}

// The number of the newest open session of a source, where the links lead to one.
fn newest_open(rows: &Rows<Session, Spans>, counts: &Counts, source: u32) -> Option<u64>
    ensures { IfSome result (λ number. IsOfSource source
        (find (has_number (λ session. session.number) number) rows.now.rows)) }
{
    let number = counts.links.newest_of(source)?;
    let session = rows.get(number)?;
    if session.source != source || session.phase == Phase::Ended {
        return None;
    }
    Some(number)
}

// For where the links didn't lead to all that are open, which isn't known to happen. The counts follow before the sessions change.
fn end_all(rows: &Rows<Session, Spans>, counts: &mut Counts, source: u32)
    requires { HoldsCounts rows.now.rows counts.old }
    ensures counts { HoldsCounts (map (session_reset source) rows.now.rows) counts.new }
    ensures room { KeepsRoom counts.old counts.new }
{
    for session in rows.iter() {
        if session.source == source {
            counts.end(Some(*session));
        }
    }
}
