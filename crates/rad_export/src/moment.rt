//! Times as an operator writes them.
use jiff::Timestamp;
use jiff::civil::Date;
use jiff::tz::TimeZone;

/// How long a date is as a text, in octets: `2026-11-29`.
const DATE_LEN: usize = 10;

/// The time that a text says, in milliseconds since 1970: one of RFC 3339, or a date, which stands for its first moment in UTC.
///
/// What is less than a millisecond is left out. Other forms of a time with an offset that `jiff` reads are taken, too.
pub fn moment_of(text: &str) -> Option<i64> {
    let time = if text.len() == DATE_LEN {
        midnight(text)?
    } else {
        text.parse::<Timestamp>().ok()?
    };
    Some(time.as_millisecond())
}

// The first moment of a date in UTC.
fn midnight(text: &str) -> Option<Timestamp> {
    let date = text.parse::<Date>().ok()?;
    let midnight = date.to_zoned(TimeZone::UTC).ok()?;
    Some(midnight.timestamp())
}
