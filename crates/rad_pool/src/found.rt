//! Which session an Accounting-Request means.
ghost use Rattle.std.specs.Prelude.{◌≡◌, ◌==◌, ◌∷◌, [], if◌then◌else◌, None, Some};
ghost use Rattle.rad_pool.specs.Counts.{HoldsCounts};
ghost use Rattle.rad_pool.specs.Meant.{meant};

use crate::counts::Counts;
use crate::holder::{Holder, holder_of};
use crate::session::Session;
use crate::walk;
use rad_config::Spans;
use rad_rows::Rows;

/// The number of the session that a client means by its number.
pub(crate) fn find(rows: &Rows<Session, Spans>, client: u32, number: u64) -> Option<u64>
    ensures { result ≡ meant client (Some number) None None rows.now.rows }
{
    rows.numbers_rise();
    match rows.get(number) {
        Some(session) => number_for(session, client),
        None => None,
    }
}

// The session's number, if it is the client's.
fn number_for(session: &Session, client: u32) -> Option<u64>
    ensures { result
        ≡ (if session.now.client == client then Some session.now.number else None) }
{
    if session.client == client {
        Some(session.number)
    } else {
        None
    }
}

/// The number of the session that a client means by an address.
pub(crate) fn find_at(
    rows: &Rows<Session, Spans>,
    counts: &Counts,
    client: u32,
    address: u32,
    name: Option<Option<u32>>,
) -> Option<u64>
    requires { HoldsCounts rows.now.rows counts.now }
    ensures { result ≡ meant client None (Some address) name rows.now.rows }
{
    match holder_of(rows, counts, address) {
        Holder::Nobody => None,
        Holder::One(session) => number_if_wanted(session, client, address, name),
        Holder::Unknown => walk::find(rows, client, address, name),
    }
}

// The session's number, if the client means it by the address.
fn number_if_wanted(
    session: &Session,
    client: u32,
    address: u32,
    name: Option<Option<u32>>,
) -> Option<u64>
    ensures { result ≡ meant client None (Some address) name (session.now ∷ []) }
{
    if walk::is_wanted(session, client, address, name) {
        Some(session.number)
    } else {
        None
    }
}
