//! Admission: which datagrams are requests of a client, and why the others are discarded.
ghost use Rattle.std.specs.Prelude.{◌≡◌, ◌<◌, length, map, All, IfOk, Ok};
ghost use Rattle.rad_packet.specs.Attributes.{has};
ghost use Rattle.rad_packet.specs.Types.{type_message_authenticator};
ghost use Rattle.rad_auth.specs.Admission.{AdmittedAreAnswerable, HoldsAdmitted, IsAdmitted, IsAnswerable, admission};
ghost use Rattle.rad_auth.specs.Admission.{content_checks, has_bad_authenticator, has_bad_message_authenticator};
ghost use Rattle.rad_auth.specs.Admission.{has_right_message_authenticator, is_code_accepted, lane_admission};
ghost use Rattle.rad_auth.specs.Admission.{lacks_message_authenticator, lacks_status_type};
ghost use Rattle.rad_auth.specs.Clients.{Client};
ghost use Rattle.rad_auth.specs.Datagrams.{datagram_of};
ghost use Rattle.rad_auth.specs.RequestLanes.{IsAccountingAuthenticator, IsCandidate, IsMessageAuthenticator, IsHmacUnder};
ghost use Rattle.rad_auth.specs.RequestLanes.{OfCandidate, asked_of, verdict_on, verdict_on_lane};

use crate::arrival::{Arrival, Door, Request};
use crate::candidate::{Candidate, Lane, is_message_authenticator_checked};
use crate::client::Clients;
use crate::discard::Discard;
use crate::request_authenticators::{accounting_authenticators, message_authenticators};
use crate::same_octets::same_octets;
use crate::summary::Summary;
use rad_md5::{DIGEST_LEN, each_lane};
use rad_packet::attribute::MESSAGE_AUTHENTICATOR;
use rad_packet::{Packet, code};

/// The most octets of a request's Proxy-State attributes in total, Type and Length counted.
pub const PROXY_STATES_MAX: usize = 3584;

/// Checks eight arrivals: each is the request that it holds, or the first discard, and None stays None.
///
/// Source: RFC 2865, section 3; RFC 2866, sections 3 and 5.1; RFC 3579, section 3; RFC 5997, section 3.
pub fn check8<'a>(
    clients: &Clients,
    arrivals: &[Option<Arrival<'a>>; 8],
) -> [Option<Result<Request<'a>, Discard>>; 8]
    ensures verdicts { result ≡ map (lane_admission clients.now) arrivals.now }
    ensures requests { All (HoldsAdmitted clients.now) result }
{
    let lanes = each_lane!(arrival of arrivals => read_lane(clients, arrival));
    let digests = accounting_authenticators(clients, &lanes);
    let macs = message_authenticators(clients, &lanes);
    each_lane!(j => verdict_on_lane(clients, &lanes[j], &digests[j], &macs[j]))
}

/// Every admitted request may be answered: the law on which those who answer requests rest.
///
/// The call costs nothing: it does nothing at run time.
pub fn admitted_are_answerable()
    ensures { AdmittedAreAnswerable }
{}

/// An admitted request may be answered: the same law, of one request.
///
/// The call costs nothing: it does nothing at run time.
pub fn admitted_is_answerable(_clients: &Clients, _request: &Request)
    requires { IsAdmitted _clients.now _request.now }
    ensures { IsAnswerable _clients.now _request.now }
{}

fn read_lane<'a>(clients: &Clients, arrival: &Option<Arrival<'a>>) -> Lane<'a>
    ensures verdict { lane_admission clients.now arrival.now ≡ verdict_on_lane clients.now result }
    ensures candidate { OfCandidate (IsCandidate clients.now) result }
{
    match arrival {
        None => None,
        Some(arrival) => Some(read_candidate(clients, arrival)),
    }
}

// What is read of an arrival without a digest or an HMAC.
#[tactic(auto, unfolding(crate::specs::Admission::admission, crate::specs::Admission::request_in))]
fn read_candidate<'a>(clients: &Clients, arrival: &Arrival<'a>) -> Result<Candidate<'a>, Discard>
    ensures verdict { admission clients.now (datagram_of arrival.now)
        ≡ verdict_on clients.now result }
    ensures candidate { IfOk result (IsCandidate clients.now) }
{
    let Some(client) = clients.find(arrival.source) else {
        return Err(Discard::UnknownClient);
    };
    let packet = Packet::read(arrival.octets)?;
    if !is_code_accepted(arrival.door, packet.code()) {
        return Err(Discard::WrongCode);
    }
    let summary = Summary::of(packet.attributes());
    let request = Request {
        client,
        source: arrival.source,
        port: arrival.port,
        door: arrival.door,
        packet,
        proxy_states: summary.proxy_states,
    };
    Ok(Candidate { request, summary })
}

// Whether a port accepts a Code.
fn is_code_accepted(door: Door, code: u8) -> bool
    ensures { result ≡ is_code_accepted door code }
{
    match door {
        Door::Auth => code == code::ACCESS_REQUEST || code == code::STATUS_SERVER,
        Door::Acct => code == code::ACCOUNTING_REQUEST || code == code::STATUS_SERVER,
    }
}

// The verdict on a lane, given the digest and the HMAC that were computed for it.
fn verdict_on_lane<'a>(
    clients: &Clients,
    lane: &Lane<'a>,
    digest: &[u8; DIGEST_LEN],
    mac: &[u8; DIGEST_LEN],
) -> Option<Result<Request<'a>, Discard>>
    requires candidate { OfCandidate (IsCandidate clients.now) lane.now }
    requires digest { OfCandidate (IsAccountingAuthenticator clients.now digest.now) lane.now }
    requires mac { OfCandidate (IsMessageAuthenticator clients.now mac.now) lane.now }
    ensures verdict { result ≡ verdict_on_lane clients.now lane.now }
    ensures request { HoldsAdmitted clients.now result }
{
    match lane {
        None => None,
        Some(Err(discard)) => Some(Err(*discard)),
        Some(Ok(candidate)) => Some(admitted(clients, candidate, digest, mac)),
    }
}

fn admitted<'a>(
    clients: &Clients,
    candidate: &Candidate<'a>,
    digest: &[u8; DIGEST_LEN],
    mac: &[u8; DIGEST_LEN],
) -> Result<Request<'a>, Discard>
    requires candidate { IsCandidate clients.now candidate.now }
    requires digest { IsAccountingAuthenticator clients.now digest.now candidate.now }
    requires mac { IsMessageAuthenticator clients.now mac.now candidate.now }
    ensures verdict { result ≡ verdict_on clients.now (Ok candidate.now) }
    ensures admitted { IfOk result (IsAdmitted clients.now) }
{
    check_content(clients, candidate, digest, mac)?;
    // The lanes are still borrowed, so the request is built anew from their parts. No octet is copied.
    let Request {
        client,
        source,
        port,
        door,
        packet,
        proxy_states,
    } = &candidate.request;
    Ok(Request {
        client: *client,
        source: *source,
        port: *port,
        door: *door,
        packet: packet.copy(),
        proxy_states: *proxy_states,
    })
}

// The checks of the content, given the digest and the HMAC that were computed for it.
#[tactic(auto, unfolding(crate::specs::Admission::content_checks))]
fn check_content(
    clients: &Clients,
    candidate: &Candidate,
    digest: &[u8; DIGEST_LEN],
    mac: &[u8; DIGEST_LEN],
) -> Result<(), Discard>
    requires candidate { IsCandidate clients.now candidate.now }
    requires digest { IsAccountingAuthenticator clients.now digest.now candidate.now }
    requires mac { IsMessageAuthenticator clients.now mac.now candidate.now }
    ensures { result ≡ asked_of content_checks clients.now candidate.now }
{
    if has_bad_authenticator(clients, candidate, digest) {
        return Err(Discard::BadAuthenticator);
    }
    if has_bad_message_authenticator(clients, candidate, mac) {
        return Err(Discard::BadMessageAuthenticator);
    }
    if lacks_message_authenticator(clients, candidate) {
        return Err(Discard::NoMessageAuthenticator);
    }
    if lacks_status_type(candidate) {
        return Err(Discard::NoStatusType);
    }
    if candidate.summary.proxy_states > PROXY_STATES_MAX {
        return Err(Discard::ProxyStateTooLong);
    }
    Ok(())
}

// Whether an Accounting-Request has an Authenticator other than this digest.
fn has_bad_authenticator(
    clients: &Clients,
    candidate: &Candidate,
    digest: &[u8; DIGEST_LEN],
) -> bool
    requires { IsAccountingAuthenticator clients.now digest.now candidate.now }
    ensures { result ≡ asked_of has_bad_authenticator clients.now candidate.now }
{
    let packet = &candidate.request.packet;
    packet.code() == code::ACCOUNTING_REQUEST && !same_octets(&packet.authenticator(), digest)
}

// Whether a Message-Authenticator that is checked isn't this HMAC, or occurs more than once.
fn has_bad_message_authenticator(
    clients: &Clients,
    candidate: &Candidate,
    mac: &[u8; DIGEST_LEN],
) -> bool
    requires { IsMessageAuthenticator clients.now mac.now candidate.now }
    ensures { result ≡ asked_of has_bad_message_authenticator clients.now candidate.now }
{
    is_message_authenticator_checked(candidate.request.packet.code())
        && has_message_authenticator(candidate)
        && !has_right_message_authenticator(candidate, mac)
}

// Whether a Message-Authenticator is there.
fn has_message_authenticator(candidate: &Candidate) -> bool
    ensures { result ≡ has type_message_authenticator candidate.now.request.packet.attributes }
{
    candidate.summary.message_authenticators > 0
}

// Whether the Message-Authenticator occurs once, and is this HMAC.
fn has_right_message_authenticator(candidate: &Candidate, mac: &[u8; DIGEST_LEN]) -> bool
    ensures { (client : Client) → IsHmacUnder client.secret mac.now candidate.now
        → result ≡ has_right_message_authenticator client candidate.now.request.packet }
{
    let occurs_once = candidate.summary.message_authenticators == 1;
    if !occurs_once {
        return false;
    }
    match candidate.request.packet.first(MESSAGE_AUTHENTICATOR) {
        None => false,
        Some(value) => same_octets(value, mac),
    }
}

// Whether a required Message-Authenticator is absent.
fn lacks_message_authenticator(clients: &Clients, candidate: &Candidate) -> bool
    requires { candidate.now.request.client < length clients.now }
    ensures { result ≡ asked_of lacks_message_authenticator clients.now candidate.now }
{
    if has_message_authenticator(candidate) {
        return false;
    }
    let Candidate { request, summary } = candidate;
    match request.packet.code() {
        code::STATUS_SERVER => true,
        code::ACCESS_REQUEST => {
            summary.has_eap_message || clients.require_message_authenticator(request.client)
        }
        _ => false,
    }
}

// Whether an Accounting-Request has no Acct-Status-Type of 4 octets.
fn lacks_status_type(candidate: &Candidate) -> bool
    ensures { result ≡ lacks_status_type candidate.now.request.packet }
{
    candidate.request.packet.code() == code::ACCOUNTING_REQUEST
        && !candidate.summary.has_status_type
}
