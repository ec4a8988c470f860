//! The Authenticators and Message-Authenticators that eight requests must have, computed side by side.
ghost use Rattle.std.specs.Prelude.{◌≡◌, ◌<◌, ◌-◌, length, All};
ghost use Rattle.rad_hmac.specs.Hmac.{text_limit};
ghost use Rattle.rad_md5.specs.Pieces.{HasFreePiece, message};
ghost use Rattle.rad_auth.specs.Admission.{is_message_authenticator_checked};
ghost use Rattle.rad_auth.specs.RequestLanes.{AreAccountingAuthenticators, AreMessageAuthenticators, HasAccountingText};
ghost use Rattle.rad_auth.specs.RequestLanes.{HasHmacText, HasKeyOf, IsCandidate, OfCandidate, is_accounting, has_hmac_to_check};

use crate::authenticators::{accounting_pieces, hmac_pieces, nothing};
use crate::candidate::{Candidate, Lane, is_message_authenticator_checked};
use crate::client::Clients;
use rad_hmac::{Key, hmac_some};
use rad_md5::{DIGEST_LEN, LANES, Pieces, digest_some, each_lane};
use rad_packet::code;

/// The Request Authenticators that the lanes' Accounting-Requests must have.
pub(crate) fn accounting_authenticators(
    clients: &Clients,
    lanes: &[Lane; LANES],
) -> [[u8; DIGEST_LEN]; LANES]
    requires { All (OfCandidate (IsCandidate clients.now)) lanes.now }
    ensures { AreAccountingAuthenticators clients.now lanes.now result }
{
    if !lanes.iter().any(is_accounting) {
        return [[0; DIGEST_LEN]; LANES];
    }
    let (texts, wanted) =
        each_lane!(lane of lanes => accounting_text(clients, lane), is_accounting(lane));
    digest_some(&texts, &wanted)
}

fn is_accounting(lane: &Lane) -> bool
    ensures { result ≡ is_accounting lane.now }
{
    match lane {
        Some(Ok(candidate)) => candidate.request.packet.code() == code::ACCOUNTING_REQUEST,
        _ => false,
    }
}

// The message of a lane's digest.
fn accounting_text<'x>(clients: &'x Clients, lane: &Lane<'x>) -> Pieces<'x>
    requires { OfCandidate (IsCandidate clients.now) lane.now }
    ensures { OfCandidate (HasAccountingText clients.now (message result)) lane.now }
{
    match lane {
        Some(Ok(candidate)) => accounting_packet(clients, candidate),
        _ => nothing(),
    }
}

// A packet with zeros in its Authenticator, and then the secret.
fn accounting_packet<'x>(clients: &'x Clients, candidate: &Candidate<'x>) -> Pieces<'x>
    requires { IsCandidate clients.now candidate.now }
    ensures { HasAccountingText clients.now (message result) candidate.now }
{
    let request = &candidate.request;
    accounting_pieces(
        request.packet.octets(),
        clients.secret(request.client).octets(),
    )
}

/// The Message-Authenticators that the lanes' requests must have.
pub(crate) fn message_authenticators(
    clients: &Clients,
    lanes: &[Lane; LANES],
) -> [[u8; DIGEST_LEN]; LANES]
    requires { All (OfCandidate (IsCandidate clients.now)) lanes.now }
    ensures { AreMessageAuthenticators clients.now lanes.now result }
{
    if !lanes.iter().any(has_hmac_to_check) {
        return [[0; DIGEST_LEN]; LANES];
    }
    let no_key = Key::new(&[]);
    let (keyed, wanted) = each_lane!(
        lane of lanes => (key(clients, &no_key, lane), hmac_text(lane)), has_hmac_to_check(lane)
    );
    hmac_some(&keyed, &wanted)
}

fn has_hmac_to_check(lane: &Lane) -> bool
    ensures { result ≡ has_hmac_to_check lane.now }
{
    match lane {
        Some(Ok(candidate)) => {
            is_message_authenticator_checked(candidate.request.packet.code())
                && candidate.summary.octets_after_hmac.is_some()
        }
        _ => false,
    }
}

// The key for a lane.
fn key<'x>(clients: &'x Clients, no_key: &'x Key, lane: &Lane) -> &'x Key
    requires { OfCandidate (IsCandidate clients.now) lane.now }
    ensures { OfCandidate (HasKeyOf clients.now result.now) lane.now }
{
    match lane {
        Some(Ok(candidate)) => clients.secret(candidate.request.client).key(),
        _ => no_key,
    }
}

// The message of a lane's HMAC.
fn hmac_text<'x>(lane: &Lane<'x>) -> Pieces<'x>
    ensures text { OfCandidate (HasHmacText (message result)) lane.now }
    ensures free { HasFreePiece result }
    ensures short { length (message result) < text_limit }
{
    match lane {
        Some(Ok(candidate)) => hmac_packet(candidate),
        _ => nothing(),
    }
}

// A packet with zeros in its Message-Authenticator, if it has one.
fn hmac_packet<'x>(candidate: &Candidate<'x>) -> Pieces<'x>
    ensures text { HasHmacText (message result) candidate.now }
    ensures free { HasFreePiece result }
    ensures short { length (message result) < text_limit }
{
    match candidate.summary.octets_after_hmac {
        Some(after) => hmac_pieces(candidate.request.packet.octets(), after),
        None => nothing(),
    }
}
