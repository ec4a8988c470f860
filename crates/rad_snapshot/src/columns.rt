//! The values in the columns of a row.
ghost use Rattle.std.specs.Prelude.{◌≡◌, ◌≢◌, ℕ, ◌<◌, ◌^◌, List, length, pos, Option, IfOk, IfSome, OnErr};
ghost use Rattle.rad_auth.specs.declared.arrival.Door.{Door};
ghost use Rattle.rad_journal.specs.Rows.{door_number};
ghost use Rattle.rad_pool.specs.declared.session.Phase.{Phase};
ghost use Rattle.sqlite_value.specs.Order.{column};
ghost use Rattle.sqlite_value.specs.Value.{owned};
ghost use Rattle.sqlite_value.specs.declared.value.Value.TheVariants.{Blob, Int};
ghost use Rattle.rad_snapshot.specs.Rows.{number_or_null, phase_number};

use rad_auth::Door;
use rad_journal::JournalFault;
use rad_pool::Phase;
use sqlite_value::row::Row;
use sqlite_value::value::ValueRef;

// The numbers of the phases in a row.
const PENDING: u64 = 0;

const ACTIVE: u64 = 1;

const ENDED: u64 = 2;

// The numbers of the doors in a row.
const AUTH: u64 = 0;

const ACCT: u64 = 1;

/// A number as an integer of a row, if it is below 2 ^ 63.
pub(crate) fn integer(number: u64) -> Result<i64, JournalFault>
    ensures { IfOk result (λ n. n ≡ pos number) }
{
    match i64::try_from(number) {
        Ok(number) => Ok(number),
        Err(_) => Err(JournalFault::Full),
    }
}

/// The value of a number, or NULL where there is none.
pub(crate) fn value_or_null(number: Option<u32>) -> ValueRef<'static>
    ensures value { owned result ≡ number_or_null number }
    ensures within { IfSome number (λ n. n < 2 ^ 32) }
{
    match number {
        Some(number) => ValueRef::Int(i64::from(number)),
        None => ValueRef::Null,
    }
}

/// The number of a phase in a row.
pub(crate) fn number_of_phase(phase: Phase) -> i64
    ensures { result ≡ pos (phase_number phase) }
{
    match phase {
        Phase::Pending => PENDING as i64,
        Phase::Active => ACTIVE as i64,
        Phase::Ended => ENDED as i64,
    }
}

/// The number of a door in a row.
pub(crate) fn number_of_door(door: Door) -> i64
    ensures { result ≡ pos (door_number door) }
{
    match door {
        Door::Auth => AUTH as i64,
        Door::Acct => ACCT as i64,
    }
}

/// The number in a column, from 0 up.
pub(crate) fn number(row: &Row, at: usize) -> Result<u64, JournalFault>
    ensures value { IfOk result (λ n. column row.now at ≡ Int (pos n)) }
    ensures other { OnErr result ((n : ℕ) → column row.now at ≢ Int (pos n)) }
{
    let ValueRef::Int(number) = row.get(at) else {
        return Err(JournalFault::Damaged);
    };
    match u64::try_from(number) {
        Ok(number) => Ok(number),
        Err(_) => Err(JournalFault::Damaged),
    }
}

/// The number in a column, of 32 bits.
pub(crate) fn number_of_32(row: &Row, at: usize) -> Result<u32, JournalFault>
    ensures value { IfOk result (λ n. column row.now at ≡ Int (pos n)) }
    ensures other { OnErr result ((n : ℕ) → n < 2 ^ 32 → column row.now at ≢ Int (pos n)) }
{
    match u32::try_from(number(row, at)?) {
        Ok(number) => Ok(number),
        Err(_) => Err(JournalFault::Damaged),
    }
}

/// The number in a column, of 16 bits.
pub(crate) fn number_of_16(row: &Row, at: usize) -> Result<u16, JournalFault>
    ensures value { IfOk result (λ n. column row.now at ≡ Int (pos n)) }
    ensures other { OnErr result ((n : ℕ) → n < 2 ^ 16 → column row.now at ≢ Int (pos n)) }
{
    match u16::try_from(number(row, at)?) {
        Ok(number) => Ok(number),
        Err(_) => Err(JournalFault::Damaged),
    }
}

/// The number in a column, of 8 bits.
pub(crate) fn number_of_8(row: &Row, at: usize) -> Result<u8, JournalFault>
    ensures value { IfOk result (λ n. column row.now at ≡ Int (pos n)) }
    ensures other { OnErr result ((n : ℕ) → n < 2 ^ 8 → column row.now at ≢ Int (pos n)) }
{
    match u8::try_from(number(row, at)?) {
        Ok(number) => Ok(number),
        Err(_) => Err(JournalFault::Damaged),
    }
}

/// The number in a column, of 32 bits, if it isn't NULL.
pub(crate) fn number_if_any(row: &Row, at: usize) -> Result<Option<u32>, JournalFault>
    ensures value { IfOk result (λ n. column row.now at ≡ number_or_null n) }
    ensures other { OnErr result ((n : Option ℕ) → IfSome n (λ n. n < 2 ^ 32)
        → column row.now at ≢ number_or_null n) }
{
    if let ValueRef::Null = row.get(at) {
        return Ok(None);
    }
    Ok(Some(number_of_32(row, at)?))
}

/// The phase in a column.
pub(crate) fn phase(row: &Row, at: usize) -> Result<Phase, JournalFault>
    ensures value { IfOk result (λ phase. column row.now at ≡ Int (pos (phase_number phase))) }
    ensures other { OnErr result ((phase : Phase)
        → column row.now at ≢ Int (pos (phase_number phase))) }
{
    match number(row, at)? {
        PENDING => Ok(Phase::Pending),
        ACTIVE => Ok(Phase::Active),
        ENDED => Ok(Phase::Ended),
        _ => Err(JournalFault::Damaged),
    }
}

/// The door in a column.
pub(crate) fn door(row: &Row, at: usize) -> Result<Door, JournalFault>
    ensures value { IfOk result (λ door. column row.now at ≡ Int (pos (door_number door))) }
    ensures other { OnErr result ((door : Door)
        → column row.now at ≢ Int (pos (door_number door))) }
{
    match number(row, at)? {
        AUTH => Ok(Door::Auth),
        ACCT => Ok(Door::Acct),
        _ => Err(JournalFault::Damaged),
    }
}

/// The octets in a column.
pub(crate) fn octets(row: &Row, at: usize) -> Result<&[u8], JournalFault>
    ensures value { IfOk result (λ octets. column row.now at ≡ Blob octets.now) }
    ensures other { OnErr result ((octets : List ℕ) → column row.now at ≢ Blob octets) }
{
    match row.get(at) {
        ValueRef::Blob(octets) => Ok(octets),
        _ => Err(JournalFault::Damaged),
    }
}

/// The 16 octets in a column.
pub(crate) fn draw(row: &Row, at: usize) -> Result<[u8; 16], JournalFault>
    ensures value { IfOk result (λ draw. column row.now at ≡ Blob draw) }
    ensures other { OnErr result ((draw : List ℕ) → length draw ≡ 16
        → column row.now at ≢ Blob draw) }
{
    match <[u8; 16]>::try_from(octets(row, at)?) {
        Ok(draw) => Ok(draw),
        Err(_) => Err(JournalFault::Damaged),
    }
}
