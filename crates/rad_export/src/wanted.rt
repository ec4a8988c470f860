//! Which rows are taken.
ghost use Rattle.std.specs.Prelude.{◌≡◌, option_copied};
ghost use Rattle.sqlite_value.specs.Value.{owned};
ghost use Rattle.rad_export.specs.Taken.{has_address, has_user, is_between, takes};

use crate::columns::{ADDRESS, TIME, USER};
use sqlite_value::row::Row;
use sqlite_value::value::ValueRef;

/// Which rows are wanted. A part that is absent takes every row, and one that is there no row whose column is NULL.
#[derive(Clone, Copy, Debug)]
pub struct Wanted<'a> {
    /// The first time that is taken, in milliseconds since 1970.
    pub since: Option<i64>,
    /// The first time that is taken no more.
    pub until: Option<i64>,
    /// The User-Name.
    pub user: Option<&'a [u8]>,
    /// The Framed-IP-Address, most significant octet first.
    pub address: Option<u32>,
}

impl Wanted<'_> {
    /// Whether a row is taken.
    pub fn takes(&self, row: &Row) -> bool
        ensures { result ≡ takes self.now row.now }
    {
        self.takes_time(row.get(TIME))
            && self.takes_user(row.get(USER))
            && self.takes_address(row.get(ADDRESS))
    }

    fn takes_time(&self, time: ValueRef<'_>) -> bool
        ensures { result ≡ is_between self.now.since self.now.until (owned time.entry) }
    {
        match time {
            ValueRef::Int(time) => {
                self.since.is_none_or(|since| since <= time)
                    && self.until.is_none_or(|until| time < until)
            }
            _ => self.since.is_none() && self.until.is_none(),
        }
    }

    fn takes_user(&self, user: ValueRef<'_>) -> bool
        ensures { result ≡ has_user (option_copied self.now.user) (owned user.entry) }
    {
        let Some(wanted) = self.user else {
            return true;
        };
        match user {
            ValueRef::Text(user) | ValueRef::Blob(user) => user == wanted,
            _ => false,
        }
    }

    fn takes_address(&self, address: ValueRef<'_>) -> bool
        ensures { result ≡ has_address self.now.address (owned address.entry) }
    {
        let Some(wanted) = self.address else {
            return true;
        };
        match address {
            ValueRef::Int(address) => address == i64::from(wanted),
            _ => false,
        }
    }
}
