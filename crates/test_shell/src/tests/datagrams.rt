//! Datagrams of a round.
ghost use Rattle.std.specs.Prelude.{IfOk};
ghost use Rattle.rad_auth.specs.Sealing.{IsRequestCode};

use rad_auth::{Arrival, Door, PASSWORD_MAX, Secret, hide, sign_request};
use rad_packet::attribute::{ACCT_STATUS_TYPE, CLASS, USER_NAME, USER_PASSWORD, VALUE_MAX};
use rad_packet::code::{ACCESS_REQUEST, ACCOUNTING_REQUEST};
use rad_packet::{Body, Frame};
use std::alloc::{AllocError, Global};
use test_common::{CLIENT, PORT, REQUEST_AUTHENTICATOR, SECRET, STRANGER};

/// The Access-Accept of nemo in the first session, with the Message-Authenticator and the Response Authenticator.
pub(crate) const NEMO_ACCEPTED: &[u8] = b"\
    \x02\x00\x00\x46\
    \xaa\x8b\x49\x5d\x82\x7f\x6e\x8b\x84\x5a\x63\x94\x35\x90\x31\x60\
    \x50\x12\x4b\x9b\x7d\x66\xb7\x40\x49\xdd\x5d\xd7\x64\xf6\x7f\x03\x46\x1b\
    \x06\x06\x00\x00\x00\x02\
    \x07\x06\x00\x00\x00\x01\
    \x08\x06\x0a\x00\x00\x01\
    \x19\x0eRAP1\x00\x00\x00\x00\x00\x00\x00\x01";

/// A log-in of u1 with a CHAP-Password, the response to the Request Authenticator. This one and those below were made with Python's
/// `hashlib`, for the first client.
pub(crate) const BY_CHAP: &[u8] = b"\
    \x01\x01\x00\x2b\x00\x00\x00\x00\x00\x00\x00\x00\x00\x00\x00\x00\
    \x00\x00\x00\x00\x01\x04\x75\x31\x03\x13\x07\xff\xdf\xfa\x90\xac\
    \x68\x6e\x55\xbc\x47\x92\x7c\x11\x52\xed\x34";

/// A log-in of u2 with a CHAP-Password, the response to a CHAP-Challenge.
pub(crate) const BY_CHAP_CHALLENGE: &[u8] = b"\
    \x01\x02\x00\x3d\x00\x00\x00\x00\x00\x00\x00\x00\x00\x00\x00\x00\
    \x00\x00\x00\x00\x01\x04\x75\x32\x03\x13\x07\x32\x09\x8a\xcf\x37\
    \x45\x98\x95\xa0\x8e\xc0\x3c\xc6\x03\xcf\xbd\x3c\x12\x30\x31\x32\
    \x33\x34\x35\x36\x37\x38\x39\x61\x62\x63\x64\x65\x66";

/// kay's answer to the first challenge, whose State has `DRAW`.
pub(crate) const ANSWER: &[u8] = b"\
    \x01\x04\x00\x45\x00\x00\x00\x00\x00\x00\x00\x00\x00\x00\x00\x00\
    \x00\x00\x00\x00\x01\x05\x6b\x61\x79\x02\x12\x29\x7a\x93\x0e\x12\
    \x90\x4b\x2e\x98\x95\x2c\xb3\x7f\x16\x3f\xb1\x18\x1a\x00\x00\x00\
    \x00\x00\x00\x00\x01\x00\x00\x00\x00\x00\x00\x00\x00\x00\x00\x00\
    \x00\x00\x00\x00\x01";

/// A log-in of u3 with an EAP-Message.
pub(crate) const BY_EAP: &[u8] = b"\
    \x01\x05\x00\x33\x00\x00\x00\x00\x00\x00\x00\x00\x00\x00\x00\x00\
    \x00\x00\x00\x00\x01\x04\x75\x33\x4f\x09\x02\x00\x00\x07\x01\x75\
    \x33\x50\x12\xfc\xbb\xd6\x82\x50\x36\xed\x20\xd2\x51\xfe\x83\xca\
    \xa3\x62\xa9";

/// The Acct-Status-Types.
pub(crate) const START: u8 = 1;

pub(crate) const STOP: u8 = 2;

pub(crate) const INTERIM_UPDATE: u8 = 3;

pub(crate) const ACCOUNTING_ON: u8 = 7;

pub(crate) const ACCOUNTING_OFF: u8 = 8;

/// What is sent.
#[derive(Clone, Copy)]
pub(crate) enum Sent {
    /// Octets to the authentication port, from the first client.
    Octets(&'static [u8]),
    /// The same from an address that is no client's.
    Strange(&'static [u8]),
    /// An Access-Request of the first client, by its Identifier, User-Name and password.
    Access(u8, &'static [u8], &'static [u8]),
    /// An Accounting-Request of the first client about the first session, by its line, its Identifier and its Acct-Status-Type.
    /// Each line is another source port.
    Account(u16, u8, u8),
}

impl Sent {
    /// The datagram, if there is memory.
    pub fn datagram(&self, alloc: Global) -> Option<Datagram> {
        let octets = self.octets(alloc)?;
        Some(Datagram {
            source: self.source(),
            port: self.port(),
            door: self.door(),
            octets,
        })
    }

    /// The datagram as it comes to ports in memory, if there is memory.
    pub fn coming(&self, alloc: Global, moment: u64) -> Option<rad_shell::Datagram> {
        let octets = self.octets(alloc)?;
        Some(rad_shell::Datagram {
            turn: 0,
            address: self.source(),
            port: self.port(),
            door: self.door(),
            moment,
            octets,
        })
    }

    fn source(&self) -> u32 {
        match self {
            Sent::Strange(_) => STRANGER,
            _ => CLIENT,
        }
    }

    fn port(&self) -> u16 {
        match self {
            Sent::Account(line, _, _) => PORT.saturating_add(*line),
            _ => PORT,
        }
    }

    fn door(&self) -> Door {
        match self {
            Sent::Account(_, _, _) => Door::Acct,
            _ => Door::Auth,
        }
    }

    /// Its octets, if there is memory.
    pub fn octets(&self, alloc: Global) -> Option<Vec<u8>> {
        match self {
            Sent::Octets(octets) | Sent::Strange(octets) => octets.to_vec(alloc).ok(),
            Sent::Access(identifier, name, password) => {
                let secret = Secret::new(SECRET);
                let body = access(alloc, &secret, name, password).ok()?;
                signed(alloc, *identifier, &secret, &body)
            }
            Sent::Account(_, identifier, status) => {
                let body = account(alloc, *status).ok()?;
                signed(alloc, *identifier, &Secret::new(SECRET), &body)
            }
        }
    }
}

/// A datagram with its octets.
#[derive(Drop)]
pub(crate) struct Datagram {
    source: u32,
    port: u16,
    door: Door,
    octets: Vec<u8>,
}

impl Datagram {
    pub fn arrival(&self) -> Arrival<'_> {
        Arrival {
            source: self.source,
            port: self.port,
            door: self.door,
            octets: &self.octets,
        }
    }
}

/// All of these datagrams, if there is memory.
pub(crate) fn datagrams(alloc: Global, all: &[Sent]) -> Option<Vec<Datagram>> {
    let mut made = Vec::new(alloc);
    for sent in all.iter() {
        made.push(sent.datagram(alloc)?).ok()?;
    }
    Some(made)
}

/// Starts, each with a line or an Identifier of its own, from this number on and before that one. A line has 256 of them.
pub(crate) fn starts(alloc: Global, first: u32, end: u32) -> Option<Vec<Sent>> {
    let mut all = Vec::new(alloc);
    for number in first..end {
        let line = (number / 256 % 1_024) as u16;
        let identifier = (number % 256) as u8;
        all.push(Sent::Account(line, identifier, START)).ok()?;
    }
    Some(all)
}

// What the Access-Request of a user says. No test has a name or a password that is too long, and would be cut.
fn access(alloc: Global, secret: &Secret, name: &[u8], password: &[u8]) -> Result<Body, AllocError>
    ensures { IfOk result (λ body. IsRequestCode body.code) }
{
    let password = &password[..password.len().min(PASSWORD_MAX)];
    let mut value = [0; PASSWORD_MAX];
    let len = hide(secret, REQUEST_AUTHENTICATOR, password, &mut value);
    let mut body = Body::new(alloc, ACCESS_REQUEST);
    body.push(USER_NAME, &name[..name.len().min(VALUE_MAX)])?;
    body.push(USER_PASSWORD, &value[..len])?;
    Ok(body)
}

// What an Accounting-Request about the first session says.
fn account(alloc: Global, status: u8) -> Result<Body, AllocError>
    ensures { IfOk result (λ body. IsRequestCode body.code) }
{
    let mut body = Body::new(alloc, ACCOUNTING_REQUEST);
    body.push(ACCT_STATUS_TYPE, &[0, 0, 0, status])?;
    body.push(CLASS, b"RAP1\0\0\0\0\0\0\0\x01")?;
    Ok(body)
}

// The octets of a request.
fn signed(alloc: Global, identifier: u8, secret: &Secret, body: &Body) -> Option<Vec<u8>>
    requires { IsRequestCode body.now.code }
{
    let mut frame = Frame::new(alloc).ok()?;
    sign_request(body, identifier, REQUEST_AUTHENTICATOR, secret, &mut frame).ok()?;
    frame.octets().to_vec(alloc).ok()
}
