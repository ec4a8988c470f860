//! Answers that several tests expect.

use super::Answered;

/// An Accounting-Response, which needs to say nothing.
pub(crate) const RESPONSE: Answered = Answered::Response(b"");

/// The Access-Rejects, each with its Reply-Message.
pub(crate) const EAP_NOT_SUPPORTED: Answered = Answered::Reject(b"\x12\x13eap not supported");

pub(crate) const MALFORMED_REQUEST: Answered = Answered::Reject(b"\x12\x13malformed request");

pub(crate) const STATE_UNKNOWN: Answered = Answered::Reject(b"\x12\x0fstate unknown");

pub(crate) const WRONG_STATE: Answered = Answered::Reject(b"\x12\x0dwrong state");

pub(crate) const ACCESS_DENIED: Answered = Answered::Reject(b"\x12\x0faccess denied");

pub(crate) const SESSION_LIMIT: Answered = Answered::Reject(b"\x12\x0fsession limit");

pub(crate) const NO_ADDRESS_LEFT: Answered = Answered::Reject(b"\x12\x11no address left");

pub(crate) const SERVER_FULL: Answered = Answered::Reject(b"\x12\x0dserver full");

/// The Access-Accepts of the first sessions, with no more than their Class.
pub(crate) const FIRST: Answered = Answered::Accept(b"\x19\x0eRAP1\0\0\0\0\0\0\0\x01");

pub(crate) const SECOND: Answered = Answered::Accept(b"\x19\x0eRAP1\0\0\0\0\0\0\0\x02");

pub(crate) const THIRD: Answered = Answered::Accept(b"\x19\x0eRAP1\0\0\0\0\0\0\0\x03");

/// nemo's, in the first session: service 2, protocol 1 and 10.0.0.1.
pub(crate) const NEMO_FIRST: Answered = Answered::Accept(
    b"\
    \x06\x06\x00\x00\x00\x02\
    \x07\x06\x00\x00\x00\x01\
    \x08\x06\x0a\x00\x00\x01\
    \x19\x0eRAP1\x00\x00\x00\x00\x00\x00\x00\x01",
);

/// dory's, in the second session: 10.0.0.1.
pub(crate) const DORY_SECOND: Answered = Answered::Accept(
    b"\
    \x08\x06\x0a\x00\x00\x01\
    \x19\x0eRAP1\x00\x00\x00\x00\x00\x00\x00\x02",
);

/// bruce's, in the first and the second session: 10.0.2.1 and 10.0.2.2.
pub(crate) const BRUCE_FIRST: Answered = Answered::Accept(
    b"\x08\x06\x0a\0\x02\x01\x19\x0eRAP1\0\0\0\0\0\0\0\x01",
);

pub(crate) const BRUCE_SECOND: Answered = Answered::Accept(
    b"\x08\x06\x0a\0\x02\x02\x19\x0eRAP1\0\0\0\0\0\0\0\x02",
);

/// kay's Access-Challenges: the Reply-Message, and the State of the number and the draw.
pub(crate) const FIRST_CHALLENGE: Answered = Answered::Challenge(CHALLENGED);

pub(crate) const SECOND_CHALLENGE: Answered = Answered::Challenge(
    b"\
    \x12\x07code?\
    \x18\x1a\0\0\0\0\0\0\0\x02\0\0\0\0\0\0\0\0\0\0\0\0\0\0\0\x01",
);

/// The attributes of the first one.
pub(crate) const CHALLENGED: &[u8; 33] = b"\
    \x12\x07code?\
    \x18\x1a\0\0\0\0\0\0\0\x01\0\0\0\0\0\0\0\0\0\0\0\0\0\0\0\x01";
