//! Requests of the first client.
ghost use Rattle.std.specs.Prelude.{IfSome};
ghost use Rattle.rad_auth.specs.Admission.{IsAdmitted};

use rad_auth::{Arrival, Clients, Door, Request};
use test_common::{CLIENT, PORT, RFC_REQUEST};

/// nemo's Access-Request.
pub(crate) const NEMO: Sent = Sent {
    port: PORT,
    door: Door::Auth,
    octets: RFC_REQUEST,
};

/// kay's Access-Request, who is asked a second question.
pub(crate) const KAY: Sent = Sent {
    port: PORT,
    door: Door::Auth,
    octets: b"\
        \x01\x00\x00\x2b\
        \0\0\0\0\0\0\0\0\0\0\0\0\0\0\0\0\
        \x01\x05kay\
        \x02\x12\x6d\x3a\xa2\x3f\x12\x90\x4b\x2e\x98\x95\x2c\xb3\x7f\x16\x3f\xb1",
};

/// An Access-Request with neither a user nor a password.
pub(crate) const NOBODY: Sent = Sent {
    port: PORT,
    door: Door::Auth,
    octets: b"\x01\x00\x00\x14\0\0\0\0\0\0\0\0\0\0\0\0\0\0\0\0",
};

/// An Accounting-Request: a Start.
pub(crate) const START: Sent = Sent {
    port: PORT,
    door: Door::Acct,
    octets: b"\
        \x04\x07\x00\x1a\
        \xbf\x75\x02\x99\xba\x71\x11\xcf\x8a\x9d\xef\x2b\x87\x2d\x43\x6c\
        \x28\x06\x00\x00\x00\x01",
};

/// A Status-Server.
pub(crate) const STATUS: Sent = Sent {
    port: PORT,
    door: Door::Auth,
    octets: b"\
        \x0c\x03\x00\x26\
        \0\0\0\0\0\0\0\0\0\0\0\0\0\0\0\0\
        \x50\x12\xf4\xf5\x23\x74\x2d\x6c\xd9\xf6\xb3\x39\x17\x37\x2c\xa5\xb1\xa6",
};

/// A datagram of the first client.
#[derive(Clone, Copy)]
pub(crate) struct Sent<'a> {
    pub port: u16,
    pub door: Door,
    pub octets: &'a [u8],
}

/// A datagram, as it arrives.
pub(crate) fn arrival(sent: Sent<'_>) -> Arrival<'_> {
    Arrival {
        source: CLIENT,
        port: sent.port,
        door: sent.door,
        octets: sent.octets,
    }
}

/// The request that a datagram is, if it is admitted.
pub(crate) fn admit<'a>(clients: &Clients, sent: Sent<'a>) -> Option<Request<'a>>
    ensures { IfSome result (IsAdmitted clients.now) }
{
    test_common::admit(clients, arrival(sent))
}
