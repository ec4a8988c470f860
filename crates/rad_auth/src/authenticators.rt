//! The digests and HMACs of requests and replies, and the octets that they run over.
ghost use Rattle.std.specs.Prelude.{◌≡◌, ◌+◌, ◌-◌, ◌*◌, ◌<◌, ◌≤◌, ◌++◌, length};
ghost use Rattle.md5.specs.Md5.{md5};
ghost use Rattle.rad_hmac.specs.Hmac.{text_limit};
ghost use Rattle.rad_md5.specs.Pieces.{HasFreePiece, message};
ghost use Rattle.rad_packet.specs.Bodies.{FitsPacket, packet_octets_of};
ghost use Rattle.rad_packet.specs.Packets.{header_size, length_max};
ghost use Rattle.rad_auth.specs.RequestLanes.{with_zero_authenticator};
ghost use Rattle.rad_auth.specs.Summaries.{with_hmac};
ghost use Rattle.rad_auth.specs.Authenticators.{sixteen_zeros};

use md5::{Digest, Md5};
use rad_md5::Pieces;
use rad_packet::{Body, HEADER_SIZE};

/// What an Authenticator or a Message-Authenticator holds while it is computed.
pub(crate) const SIXTEEN_ZEROS: [u8; 16] = [0; 16];

/// An empty message.
pub(crate) fn nothing<'a>() -> Pieces<'a>
    ensures free { HasFreePiece result }
    ensures short { length (message result) < text_limit }
{
    Pieces::of([&[], &[], &[], &[], &[]])
}

/// A packet with zeros in the Message-Authenticator before its last so many octets.
pub(crate) fn hmac_pieces<'a>(octets: &'a [u8], after: usize) -> Pieces<'a>
    requires place { after + 16 ≤ length octets.now }
    requires short { length octets.now ≤ length_max }
    ensures message { message result ≡ with_hmac after sixteen_zeros octets.now }
    ensures free { HasFreePiece result }
    ensures short { length (message result) < text_limit }
{
    let end = octets.len() - after;
    Pieces::of([
        &octets[..end - 16],
        &SIXTEEN_ZEROS,
        &octets[end..],
        &[],
        &[],
    ])
}

/// A packet with zeros in the place of its Authenticator, and then the secret.
pub(crate) fn accounting_pieces<'a>(octets: &'a [u8], secret: &'a [u8]) -> Pieces<'a>
    requires header { header_size ≤ length octets.now }
    requires short { length octets.now + length secret.now ≤ 2 * length_max }
    ensures { message result ≡ with_zero_authenticator octets.now ++ secret.now }
{
    Pieces::of([
        &octets[..4],
        &SIXTEEN_ZEROS,
        &octets[HEADER_SIZE..],
        secret,
        &[],
    ])
}

/// The digest of a packet that says this body, with this Authenticator, and then the secret.
pub(crate) fn body_digest(
    body: &Body,
    identifier: u8,
    authenticator: &[u8; 16],
    secret: &[u8],
) -> [u8; 16]
    requires { FitsPacket body.now }
    ensures { result ≡ md5 (packet_octets_of body.now identifier authenticator.now ++ secret.now) }
{
    let [high, low] = ((HEADER_SIZE + body.size()) as u16).to_be_bytes();
    let mut digest = Md5::new();
    digest.update(&[body.code(), identifier, high, low]);
    digest.update(authenticator);
    digest.update(body.attributes_octets());
    digest.update(secret);
    digest.finalize()
}
