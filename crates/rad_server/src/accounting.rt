//! What an Accounting-Request reports of a session.
ghost use Rattle.std.specs.Prelude.{◌≡◌};
ghost use Rattle.rad_packet.specs.AttributeViews.{attribute_of};
ghost use Rattle.rad_server.specs.Reports.{AreReportAttributes, IsOneMoreReported, class_number_of};

use rad_packet::attribute::{ACCT_STATUS_TYPE, CLASS, FRAMED_IP_ADDRESS, USER_NAME, integer_of};
use rad_packet::{Attribute, Attributes};

/// The Acct-Status-Type of a Start (RFC 2866, section 5.1).
pub const START: u32 = 1;

/// The Acct-Status-Type of a Stop.
pub const STOP: u32 = 2;

/// The Acct-Status-Type of an Interim-Update.
pub const INTERIM_UPDATE: u32 = 3;

/// The Acct-Status-Type of an Accounting-On.
pub const ACCOUNTING_ON: u32 = 7;

/// The Acct-Status-Type of an Accounting-Off.
pub const ACCOUNTING_OFF: u32 = 8;

/// What attributes say of a session: those of an Accounting-Request of the one that it means, those of an Access-Accept of the one
/// granted.
#[derive(Clone, Copy)]
pub struct Report<'a> {
    /// The first Acct-Status-Type of four octets.
    pub status: Option<u32>,
    /// The number in the first Class of a session.
    pub number: Option<u64>,
    /// The first Framed-IP-Address of four octets.
    pub address: Option<u32>,
    /// The first User-Name.
    pub user_name: Option<&'a [u8]>,
}

impl<'a> Report<'a> {
    /// What these attributes say, found in one walk.
    pub fn of(attributes: Attributes<'a>) -> Report<'a>
        ensures { AreReportAttributes attributes.entry result }
    {
        let mut report = Report {
            status: None,
            number: None,
            address: None,
            user_name: None,
        };
        let mut rest = attributes;
        while let Some(attribute) = rest.next() {
            report.add(attribute);
        }
        report
    }

    // An attribute of which there is a first one already changes nothing.
    fn add(&mut self, attribute: Attribute<'a>)
        ensures { IsOneMoreReported (attribute_of attribute.entry) self.old self.new }
    {
        let value = attribute.value;
        match attribute.kind {
            ACCT_STATUS_TYPE => self.status = self.status.or(integer_of(value)),
            CLASS => self.number = self.number.or(class_number_of(value)),
            FRAMED_IP_ADDRESS => self.address = self.address.or(integer_of(value)),
            USER_NAME => self.user_name = self.user_name.or(Some(value)),
            _ => {}
        }
    }
}

/// The number in the Class of a session, which is `RAP1` and the number in 8 octets, most significant first; none in any other.
pub fn class_number_of(value: &[u8]) -> Option<u64>
    ensures { result ≡ class_number_of value.now }
{
    let [b'R', b'A', b'P', b'1', a, b, c, d, e, f, g, h] = value else {
        return None;
    };
    Some(u64::from_be_bytes([*a, *b, *c, *d, *e, *f, *g, *h]))
}
