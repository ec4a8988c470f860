//! The bodies of requests and replies.
ghost use Rattle.std.specs.Prelude.{◌≡◌, ◌≤◌, All, length, IfOk};
ghost use Rattle.rad_auth.specs.Sealing.{IsReply, IsRequestCode};

use rad_auth::Door;
use rad_packet::{Body, attribute, code};
use std::alloc::{AllocError, Global};
use std::marker::Model;

// Types that the server does not look at (RFC 2865, section 5; RFC 2866, section 5; RFC 2869, section 5).
const SERVICE_TYPE: u8 = 6;

const FRAMED_PROTOCOL: u8 = 7;

const FRAMED_IP_ADDRESS: u8 = 8;

const CLASS: u8 = 25;

const SESSION_TIMEOUT: u8 = 27;

const CALLING_STATION_ID: u8 = 31;

pub(crate) const ACCT_DELAY_TIME: u8 = 41;

const ACCT_INPUT_OCTETS: u8 = 42;

const ACCT_OUTPUT_OCTETS: u8 = 43;

pub(crate) const ACCT_SESSION_ID: u8 = 44;

const ACCT_SESSION_TIME: u8 = 46;

const ACCT_INPUT_PACKETS: u8 = 47;

const ACCT_OUTPUT_PACKETS: u8 = 48;

pub(crate) const EVENT_TIMESTAMP: u8 = 55;

const NAS_PORT_TYPE: u8 = 61;

/// What all Access-Requests say.
pub(crate) const ACCESS: [(u8, &[u8]); 4] = [
    (attribute::MESSAGE_AUTHENTICATOR, &[0; 16]),
    (attribute::NAS_IP_ADDRESS, b"\xc0\xa8\x01\x10"),
    (NAS_PORT_TYPE, b"\0\0\0\x0f"),
    (CALLING_STATION_ID, b"02-00-00-00-00-01"),
];

// What all Accounting-Requests say.
const ACCOUNTING: [(u8, &[u8]); 14] = [
    (attribute::ACCT_STATUS_TYPE, b"\0\0\0\x03"),
    (ACCT_SESSION_ID, b"5f3a9c01"),
    (attribute::NAS_IP_ADDRESS, b"\xc0\xa8\x01\x10"),
    (NAS_PORT_TYPE, b"\0\0\0\x0f"),
    (SERVICE_TYPE, b"\0\0\0\x02"),
    (CLASS, b"class-of-12o"),
    (CALLING_STATION_ID, b"02-00-00-00-00-01"),
    (ACCT_SESSION_TIME, b"\0\0\x0e\x10"),
    (ACCT_INPUT_OCTETS, b"\x01\x23\x45\x67"),
    (ACCT_OUTPUT_OCTETS, b"\x12\x34\x56\x78"),
    (ACCT_INPUT_PACKETS, b"\0\x01\x23\x45"),
    (ACCT_OUTPUT_PACKETS, b"\0\x12\x34\x56"),
    (EVENT_TIMESTAMP, b"\x65\x43\x21\0"),
    (ACCT_DELAY_TIME, b"\0\0\0\0"),
];

/// What the requests of a lot are.
#[derive(Clone, Copy)]
pub(crate) enum Kind {
    Access,
    Accounting,
    /// With a Proxy-State, which the reply has too.
    ProxiedAccounting,
}

impl Kind {
    pub fn of(kind: u32) -> Kind {
        match kind {
            0 => Kind::Access,
            1 => Kind::Accounting,
            _ => Kind::ProxiedAccounting,
        }
    }

    pub fn door(self) -> Door {
        match self {
            Kind::Access => Door::Auth,
            Kind::Accounting | Kind::ProxiedAccounting => Door::Acct,
        }
    }
}

/// The request at a place.
pub(crate) fn request(alloc: Global, kind: Kind, place: u8) -> Result<Body, AllocError>
    ensures { IfOk result (λ body. IsRequestCode body.code) }
{
    match kind {
        Kind::Access => access_request(alloc, place),
        Kind::Accounting => accounting_request(alloc, place),
        Kind::ProxiedAccounting => {
            let body = accounting_request(alloc, place)?;
            with(body, &[(attribute::PROXY_STATE, &[place; 18])])
        }
    }
}

/// The body with more attributes, after the others.
pub(crate) fn with(body: Body, attributes: &[(u8, &[u8])]) -> Result<Body, AllocError>
    requires { All (λ attribute. length attribute.1.now ≤ 253) attributes.now }
    ensures { IfOk result (λ more. more.code ≡ body.code) }
{
    let mut body = body;
    for (kind, value) in attributes {
        body.push(*kind, value)?;
    }
    Ok(body)
}

// Names of 4 to 12 octets.
fn user_name(place: u8) -> &'static [u8]
    ensures { length result.now ≤ 12 }
{
    &b"abcdefghijkl"[..4 + place as usize % 9]
}

// With a User-Name and a NAS-Port, which differ from place to place.
fn with_names(body: Body, place: u8) -> Result<Body, AllocError>
    ensures { IfOk result (λ more. more.code ≡ body.code) }
{
    let mut body = body;
    body.push(attribute::USER_NAME, user_name(place))?;
    body.push(attribute::NAS_PORT, &[0, 0, 0, place])?;
    Ok(body)
}

// 99 to 107 octets.
fn access_request(alloc: Global, place: u8) -> Result<Body, AllocError>
    ensures { IfOk result (λ body. body.code ≡ 1) }
{
    let body = with(Body::new(alloc, code::ACCESS_REQUEST), &ACCESS)?;
    let mut body = with_names(body, place)?;
    body.push(attribute::USER_PASSWORD, &[place; 16])?;
    Ok(body)
}

// 147 to 155 octets.
fn accounting_request(alloc: Global, place: u8) -> Result<Body, AllocError>
    ensures { IfOk result (λ body. body.code ≡ 4) }
{
    let body = with(Body::new(alloc, code::ACCOUNTING_REQUEST), &ACCOUNTING)?;
    let mut body = with_names(body, place)?;
    body.push(FRAMED_IP_ADDRESS, &[10, 0, 0, place])?;
    Ok(body)
}

/// A body that a reply may say.
#[derive(Drop)]
pub(crate) struct Reply {
    body: Body,
}

impl Model for Reply {
    ghost use Rattle.rad_packet.specs.Bodies.{Body};
    ghost use Rattle.rad_auth.specs.Sealing.{IsReply};

    ghost Value = { Body };

    ghost view = { λ reply. reply.body };

    ghost invariant = { λ reply. IsReply reply.body };
}

impl Reply {
    pub fn body(&self) -> &Body
        ensures { IsReply result.now }
    {
        &self.body
    }
}

/// The reply to the request at a place.
pub(crate) fn reply_to(alloc: Global, kind: Kind, place: u8) -> Result<Reply, AllocError> {
    match kind {
        Kind::Access => access_accept(alloc, place),
        Kind::Accounting => accounting_response(alloc),
        Kind::ProxiedAccounting => proxied_accounting_response(alloc, place),
    }
}

// 76 octets.
fn access_accept(alloc: Global, place: u8) -> Result<Reply, AllocError> {
    let mut body = Body::new(alloc, code::ACCESS_ACCEPT);
    body.push(attribute::MESSAGE_AUTHENTICATOR, &[0; 16])?;
    body.push(SERVICE_TYPE, b"\0\0\0\x02")?;
    body.push(FRAMED_PROTOCOL, b"\0\0\0\x01")?;
    body.push(FRAMED_IP_ADDRESS, &[10, 0, 0, place])?;
    body.push(SESSION_TIMEOUT, b"\0\0\x0e\x10")?;
    body.push(CLASS, b"class-of-12o")?;
    Ok(Reply { body })
}

// 20 octets.
fn accounting_response(alloc: Global) -> Result<Reply, AllocError> {
    let body = Body::new(alloc, code::ACCOUNTING_RESPONSE);
    Ok(Reply { body })
}

// 40 octets.
fn proxied_accounting_response(alloc: Global, place: u8) -> Result<Reply, AllocError> {
    let mut body = Body::new(alloc, code::ACCOUNTING_RESPONSE);
    body.push(attribute::PROXY_STATE, &[place; 18])?;
    Ok(Reply { body })
}
