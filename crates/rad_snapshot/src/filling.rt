//! Making rows.
ghost use Rattle.std.specs.Prelude.{◌≡◌, OnOk};
ghost use Rattle.rad_snapshot.specs.Rows.{IsChallenge, IsReply, IsSession, challenge_row, numbers_row, reply_row, row_of};
ghost use Rattle.rad_snapshot.specs.Rows.{session_row};

use crate::columns::{integer, number_of_door, number_of_phase, value_or_null};
use crate::numbers::Numbers;
use rad_journal::JournalFault;
use rad_pool::Session;
use rad_recent::{Challenge, Kept};
use rad_server::StateRow;
use sqlite_value::row::Row;
use sqlite_value::value::ValueRef;

/// Makes the row of a session at a place, if its numbers are below 2 ^ 63.
pub(crate) fn fill_session(row: &mut Row, place: u32, session: &Session) -> Result<(), JournalFault>
    ensures filled { OnOk result (row.new ≡ session_row place session.now) }
    ensures within { OnOk result (IsSession session.now) }
{
    let number = integer(session.number)?;
    let made = integer(session.made)?;
    let seen = integer(session.seen)?;
    row.clear();
    row.push(ValueRef::Int(i64::from(place)))?;
    row.push(ValueRef::Int(number))?;
    row.push(ValueRef::Int(i64::from(session.client)))?;
    row.push(ValueRef::Int(i64::from(session.source)))?;
    row.push(ValueRef::Int(i64::from(session.user)))?;
    row.push(value_or_null(session.address))?;
    row.push(ValueRef::Int(number_of_phase(session.phase)))?;
    row.push(ValueRef::Int(made))?;
    row.push(ValueRef::Int(seen))?;
    Ok(())
}

/// Makes the row of a kept reply at a place, if its moment is below 2 ^ 63.
pub(crate) fn fill_reply(row: &mut Row, place: u32, reply: &Kept) -> Result<(), JournalFault>
    ensures filled { OnOk result (row.new ≡ reply_row place reply.now) }
    ensures within { OnOk result (IsReply reply.now) }
{
    let key = &reply.key;
    let made = integer(reply.made)?;
    row.clear();
    row.push(ValueRef::Int(i64::from(place)))?;
    row.push(value_or_null(reply.client))?;
    row.push(ValueRef::Int(i64::from(key.source)))?;
    row.push(ValueRef::Int(i64::from(key.port)))?;
    row.push(ValueRef::Int(number_of_door(key.door)))?;
    row.push(ValueRef::Int(i64::from(key.id)))?;
    row.push(ValueRef::Blob(reply.octets.octets()))?;
    row.push(ValueRef::Int(i64::from(reply.body.code())))?;
    row.push(ValueRef::Blob(reply.body.attributes_octets()))?;
    row.push(ValueRef::Int(made))?;
    Ok(())
}

/// Makes the row of a challenge at a place, if its numbers are below 2 ^ 63.
pub(crate) fn fill_challenge(
    row: &mut Row,
    place: u32,
    challenge: &Challenge,
) -> Result<(), JournalFault>
    ensures filled { OnOk result (row.new ≡ challenge_row place challenge.now) }
    ensures within { OnOk result (IsChallenge challenge.now) }
{
    let number = integer(challenge.number)?;
    let made = integer(challenge.made)?;
    row.clear();
    row.push(ValueRef::Int(i64::from(place)))?;
    row.push(ValueRef::Int(number))?;
    row.push(ValueRef::Blob(&challenge.draw))?;
    row.push(ValueRef::Int(i64::from(challenge.client)))?;
    row.push(ValueRef::Int(i64::from(challenge.user)))?;
    row.push(ValueRef::Int(made))?;
    Ok(())
}

/// Makes the row of a clock and two last numbers, if they are below 2 ^ 63.
pub(crate) fn fill_numbers(row: &mut Row, numbers: &Numbers) -> Result<(), JournalFault>
    ensures { OnOk result (row.new ≡ numbers_row numbers.now.clock
        numbers.now.last_session numbers.now.last_challenge) }
{
    let clock = integer(numbers.clock)?;
    let last_session = integer(numbers.last_session)?;
    let last_challenge = integer(numbers.last_challenge)?;
    row.clear();
    row.push(ValueRef::Int(1))?;
    row.push(ValueRef::Int(clock))?;
    row.push(ValueRef::Int(last_session))?;
    row.push(ValueRef::Int(last_challenge))?;
    Ok(())
}

/// Makes the row at a place; of a last number, one without columns.
pub(crate) fn fill(row: &mut Row, place: u32, item: &StateRow) -> Result<(), JournalFault>
    ensures { OnOk result (row.new ≡ row_of place item.now) }
{
    match item {
        StateRow::Session(session) => fill_session(row, place, session),
        StateRow::Reply(reply) => fill_reply(row, place, reply),
        StateRow::Challenge(challenge) => fill_challenge(row, place, challenge),
        StateRow::LastSession(_) | StateRow::LastChallenge(_) => {
            row.clear();
            Ok(())
        }
    }
}
