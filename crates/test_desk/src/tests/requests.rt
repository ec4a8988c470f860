//! Requests as the first client sends them.
ghost use Rattle.std.specs.Prelude.{IfSome};
ghost use Rattle.rad_auth.specs.Admission.{IsAdmitted};

use rad_auth::{Arrival, Clients, Door, Request};
use test_common::{CLIENT, PORT};

/// An Access-Request of dory, with the Request Authenticator of `RFC_REQUEST`.
pub(crate) const DORY: &[u8; 44] = b"\
    \x01\x64\x00\x2c\
    \x0f\x40\x3f\x94\x73\x97\x80\x57\xbd\x83\xd5\xcb\x98\xf4\x22\x7a\
    \x01\x06dory\
    \x02\x12\x1e\xa9\x76\x9f\xf2\xba\x74\xab\x5f\xe2\xe4\x3f\x78\x2a\x0a\xee";

/// A Status-Server, which changes the clock alone.
pub(crate) const STATUS: &[u8; 38] = b"\
    \x0c\x01\x00\x26\
    \x0f\x40\x3f\x94\x73\x97\x80\x57\xbd\x83\xd5\xcb\x98\xf4\x22\x7a\
    \x50\x12\x6b\xff\x6f\x97\x55\x44\xc1\xe7\xb4\x68\x75\x59\x9f\x07\x75\x5f";

/// The request that these octets are, sent to the authentication port, if it is admitted.
pub(crate) fn admit<'a>(clients: &Clients, octets: &'a [u8]) -> Option<Request<'a>>
    ensures { IfSome result (IsAdmitted clients.now) }
{
    let arrival = Arrival {
        source: CLIENT,
        port: PORT,
        door: Door::Auth,
        octets,
    };
    test_common::admit(clients, arrival)
}
