//! What a line shows of a row.
ghost use Rattle.std.specs.Prelude.{◌≡◌, IfOk, option_copied};
ghost use Rattle.sqlite_value.specs.Value.{owned};
ghost use Rattle.rad_export.specs.Columns.{shown, shown_address, shown_code, shown_numeric, shown_text, shown_time};
ghost use Rattle.rad_export.specs.Seen.{seen};

use crate::columns::{Kind, TIME};
use crate::names::{cause_name, status_name};
use jiff::Timestamp;
use sqlite_value::row::Row;
use sqlite_value::value::ValueRef;
use std::alloc::{AllocError, Global};
use std::net::Ipv4Addr;
use std::str;

/// What a column shows of its value in a row.
#[derive(Debug, Drop)]
pub(crate) enum Shown<'a> {
    /// The value is NULL, or none that the column has.
    Nothing,
    Number(i64),
    Text(&'a str),
    /// A text that was made of a number.
    Made(String),
    /// Octets that are no text.
    Octets(&'a [u8]),
}

/// The text of a row's time, as RFC 3339 has it in UTC with milliseconds. It has none past the year 9999.
pub(crate) fn time_text(alloc: Global, row: &Row) -> Result<Option<String>, AllocError> {
    let ValueRef::Int(time) = row.get(TIME) else {
        return Ok(None);
    };
    let Ok(time) = Timestamp::from_millisecond(time) else {
        return Ok(None);
    };
    Ok(Some(format!(in alloc; "{time:.3}")?))
}

/// What a column of this kind shows of its value, in a row whose time has this text.
pub(crate) fn show<'a>(
    alloc: Global,
    time: Option<&'a str>,
    kind: Kind,
    value: ValueRef<'a>,
) -> Result<Shown<'a>, AllocError>
    ensures { IfOk result (λ s. seen s
        ≡ shown (option_copied time.entry) kind (owned value.entry)) }
{
    match kind {
        Kind::Time => Ok(shown_time(time)),
        Kind::Text => Ok(shown_text(value)),
        _ => shown_numeric(alloc, kind, value),
    }
}

fn shown_time(time: Option<&str>) -> Shown<'_>
    ensures { seen result ≡ shown_time (option_copied time.entry) }
{
    match time {
        Some(time) => Shown::Text(time),
        None => Shown::Nothing,
    }
}

fn shown_text(value: ValueRef<'_>) -> Shown<'_>
    ensures { seen result ≡ shown_text (owned value.entry) }
{
    match value {
        ValueRef::Text(octets) => match str::from_utf8(octets) {
            Ok(text) => Shown::Text(text),
            Err(_) => Shown::Octets(octets),
        },
        ValueRef::Blob(octets) => Shown::Octets(octets),
        _ => Shown::Nothing,
    }
}

fn shown_numeric(
    alloc: Global,
    kind: Kind,
    value: ValueRef<'_>,
) -> Result<Shown<'static>, AllocError>
    ensures { IfOk result (λ s. seen s ≡ shown_numeric kind (owned value.entry)) }
{
    let ValueRef::Int(number) = value else {
        return Ok(Shown::Nothing);
    };
    match kind {
        Kind::Number => Ok(Shown::Number(number)),
        Kind::Address => shown_address(alloc, number),
        Kind::Status => shown_code(alloc, status_name(number), number),
        Kind::Cause => shown_code(alloc, cause_name(number), number),
        Kind::Time | Kind::Text => Ok(Shown::Nothing),
    }
}

// Four numbers joined by points.
fn shown_address(alloc: Global, address: i64) -> Result<Shown<'static>, AllocError>
    ensures { IfOk result (λ s. seen s ≡ shown_address address) }
{
    let Ok(address) = u32::try_from(address) else {
        return Ok(Shown::Nothing);
    };
    let address = Ipv4Addr::from_bits(address);
    Ok(Shown::Made(format!(in alloc; "{address}")?))
}

// The name of a number, or its digits.
fn shown_code(
    alloc: Global,
    name: Option<&'static str>,
    number: i64,
) -> Result<Shown<'static>, AllocError>
    ensures { IfOk result (λ s. seen s ≡ shown_code (option_copied name.entry) number) }
{
    match name {
        Some(name) => Ok(Shown::Text(name)),
        None => Ok(Shown::Made(format!(in alloc; "{number}")?)),
    }
}
