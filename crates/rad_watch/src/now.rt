//! The time at which something is told.

use jiff::Timestamp;
use std::alloc::{AllocError, Global};
use std::fmt;

/// The time by two clocks, in milliseconds.
#[derive(Clone, Copy, Debug, PartialEq, Eq)]
pub struct Now {
    /// Since 1970 began, in UTC.
    pub since_1970: u64,
    /// By the clock of moments, which no setting of the time moves.
    pub moment: u64,
}

impl Now {
    /// The time in UTC of an earlier moment.
    pub(crate) fn at(self, moment: u64) -> Utc {
        let ago = self.moment.saturating_sub(moment);
        Utc(self.since_1970.saturating_sub(ago))
    }

    /// This time in UTC, as text.
    pub(crate) fn text(self, alloc: Global) -> Result<String, AllocError> {
        let time = Utc(self.since_1970);
        format!(in alloc; "{time}")
    }
}

/// A time in UTC, in milliseconds since 1970 began. It is printed as RFC 3339 has it, with milliseconds.
#[derive(Clone, Copy, Debug)]
pub struct Utc(pub u64);

impl fmt::Display for Utc {
    fn fmt<W: fmt::Write>(&self, f: &mut fmt::Formatter<W>) -> fmt::Result {
        match timestamp(self.0) {
            Some(time) => write!(f, "{time:.3}"),
            None => f.write_str("-"),
        }
    }
}

fn timestamp(milliseconds: u64) -> Option<Timestamp> {
    Timestamp::from_millisecond(i64::try_from(milliseconds).ok()?).ok()
}

/// A time in seconds, with a decimal fraction.
#[derive(Clone, Copy, Debug)]
pub(crate) struct Seconds {
    millionths: u64,
}

impl Seconds {
    /// So many milliseconds.
    pub fn of_thousandths(thousandths: u64) -> Seconds {
        Seconds {
            millionths: thousandths.saturating_mul(1_000),
        }
    }

    /// So many microseconds.
    pub fn of_millionths(millionths: u64) -> Seconds {
        Seconds { millionths }
    }
}

impl fmt::Display for Seconds {
    fn fmt<W: fmt::Write>(&self, f: &mut fmt::Formatter<W>) -> fmt::Result {
        let (whole, part) = (self.millionths / 1_000_000, self.millionths % 1_000_000);
        write!(f, "{whole}.{part:06}")
    }
}
