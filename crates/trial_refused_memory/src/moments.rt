//! The moments of calls.
ghost use Rattle.std.specs.Prelude.{◌≤◌};
ghost use Rattle.rad_config.specs.Spans.{moment_max};

use rad_config::MOMENT_MAX;

/// How many rows are made one after another before a later call: the next one needs memory in a table that had rows before.
pub(crate) const ROWS: u64 = 63;

/// When the row at this place is made, in milliseconds: the one before it isn't live any more.
pub(crate) fn moment_at(row: u64) -> u64
    ensures { result ≤ moment_max }
{
    row.saturating_mul(100_000).min(MOMENT_MAX)
}
