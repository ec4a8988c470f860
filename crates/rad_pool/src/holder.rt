//! Which session has an address, by the counts.
ghost use Rattle.std.specs.Prelude.{◌≡◌};
ghost use Rattle.rad_pool.specs.Counts.{HoldsCounts};
ghost use Rattle.rad_pool.specs.Holders.{IsHolder};

use crate::counts::Counts;
use crate::session::Session;
use crate::walk;
use rad_config::Spans;
use rad_rows::Rows;

/// What the counts tell of the sessions that have an address.
pub(crate) enum Holder<'a> {
    /// No session has it, not even one that isn't live.
    Nobody,
    /// This one alone has it.
    One(&'a Session),
    /// Some session may have it: the counts don't tell which.
    Unknown,
}

/// Which session has an address.
pub(crate) fn holder_of<'a>(
    rows: &'a Rows<Session, Spans>,
    counts: &Counts,
    address: u32,
) -> Holder<'a>
    requires { HoldsCounts rows.now.rows counts.now }
    ensures { IsHolder address rows.now.rows result }
{
    let uses = counts.uses(address);
    if uses.count == 0 {
        return Holder::Nobody;
    }
    let Some(session) = rows.get(uses.last) else {
        return Holder::Unknown;
    };
    // With one use no other session has the address.
    if uses.count == 1 && walk::has_address(session, address) {
        return Holder::One(session);
    }
    Holder::Unknown
}
