//! Requests whose Code the server's port accepts, and whose content is still to be checked.
ghost use Rattle.std.specs.Prelude.{◌≡◌};
ghost use Rattle.rad_auth.specs.Admission.{is_message_authenticator_checked};
ghost use Rattle.rad_auth.specs.Summaries.{IsSummary};

use crate::arrival::Request;
use crate::discard::Discard;
use crate::summary::Summary;
use rad_packet::code;

/// A request whose Code the server's port accepts, and what its attributes say.
#[derive(Drop)]
pub(crate) struct Candidate<'a> {
    pub request: Request<'a>,
    pub summary: Summary,
    ghost is_summary: { IsSummary request.packet.attributes summary },
}

/// A lane with its candidate, or the discard, or nothing.
pub(crate) type Lane<'a> = Option<Result<Candidate<'a>, Discard>>;

/// Whether the Message-Authenticator is checked in a packet of this Code.
pub(crate) fn is_message_authenticator_checked(code: u8) -> bool
    ensures { result ≡ is_message_authenticator_checked code }
{
    code == code::ACCESS_REQUEST || code == code::STATUS_SERVER
}
