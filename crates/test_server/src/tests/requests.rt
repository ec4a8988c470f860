//! Requests as clients send them.
ghost use Rattle.std.specs.Prelude.{◌≡◌, IfOk, IfSome};
ghost use Rattle.rad_auth.specs.Clients.{IsSecret};
ghost use Rattle.rad_auth.specs.Sealing.{IsRequestCode};

use rad_auth::{CHAP_VALUE_LEN, Door, PASSWORD_MAX, Secret, chap_response, hide, sign_request};
use rad_packet::attribute::{
    ACCT_STATUS_TYPE, CHAP_PASSWORD, CLASS, MESSAGE_AUTHENTICATOR, USER_NAME, USER_PASSWORD,
    VALUE_MAX,
};
use rad_packet::code::{ACCESS_REQUEST, ACCOUNTING_REQUEST, STATUS_SERVER};
use rad_packet::{Body, Frame};
use std::alloc::{AllocError, Global};
use test_common::{CLIENT, REQUEST_AUTHENTICATOR, RFC_REQUEST, SECOND_CLIENT, STRANGER};

/// The Access-Request of RFC 2865, section 7.1: nemo's.
pub(crate) const EXAMPLE: Asked = Asked::Octets(RFC_REQUEST);

/// The same with three octets of padding.
pub(crate) const PADDED_EXAMPLE: Asked = Asked::Octets(
    b"\
    \x01\x00\x00\x38\
    \x0f\x40\x3f\x94\x73\x97\x80\x57\xbd\x83\xd5\xcb\x98\xf4\x22\x7a\
    \x01\x06nemo\
    \x02\x12\x0d\xbe\x70\x8d\x93\xd4\x13\xce\x31\x96\xe4\x3f\x78\x2a\x0a\xee\
    \x04\x06\xc0\xa8\x01\x10\
    \x05\x06\x00\x00\x00\x03\
    pad",
);

/// An Access-Request of dory, and one with another Identifier.
pub(crate) const DORY: Asked = Asked::Access(
    100,
    &[Sent::Plain(USER_NAME, b"dory"), Sent::Hidden(b"reef")],
);

pub(crate) const DORY_AGAIN: Asked = Asked::Access(
    101,
    &[Sent::Plain(USER_NAME, b"dory"), Sent::Hidden(b"reef")],
);

/// An attribute of a request.
#[derive(Clone, Copy)]
pub(crate) enum Sent {
    /// The User-Password that hides a password.
    Hidden(&'static [u8]),
    /// The CHAP-Password with the response that a password gives to a challenge, for the CHAP identifier 7.
    Chap(&'static [u8], &'static [u8]),
    /// Another attribute, by Type and Value.
    Plain(u8, &'static [u8]),
}

/// The User-Names.
pub(crate) const NEMO: Sent = Sent::Plain(USER_NAME, b"nemo");

pub(crate) const BRUCE: Sent = Sent::Plain(USER_NAME, b"bruce");

pub(crate) const KAY: Sent = Sent::Plain(USER_NAME, b"kay");

pub(crate) const MANY: Sent = Sent::Plain(USER_NAME, b"many");

/// What Access-Requests of `many` and of the other fifteen say.
pub(crate) const CROWD: [&[Sent]; 16] = [
    &[MANY, Sent::Hidden(b"p")],
    &[Sent::Plain(USER_NAME, b"many1"), Sent::Hidden(b"p")],
    &[Sent::Plain(USER_NAME, b"many2"), Sent::Hidden(b"p")],
    &[Sent::Plain(USER_NAME, b"many3"), Sent::Hidden(b"p")],
    &[Sent::Plain(USER_NAME, b"many4"), Sent::Hidden(b"p")],
    &[Sent::Plain(USER_NAME, b"many5"), Sent::Hidden(b"p")],
    &[Sent::Plain(USER_NAME, b"many6"), Sent::Hidden(b"p")],
    &[Sent::Plain(USER_NAME, b"many7"), Sent::Hidden(b"p")],
    &[Sent::Plain(USER_NAME, b"many8"), Sent::Hidden(b"p")],
    &[Sent::Plain(USER_NAME, b"many9"), Sent::Hidden(b"p")],
    &[Sent::Plain(USER_NAME, b"many10"), Sent::Hidden(b"p")],
    &[Sent::Plain(USER_NAME, b"many11"), Sent::Hidden(b"p")],
    &[Sent::Plain(USER_NAME, b"many12"), Sent::Hidden(b"p")],
    &[Sent::Plain(USER_NAME, b"many13"), Sent::Hidden(b"p")],
    &[Sent::Plain(USER_NAME, b"many14"), Sent::Hidden(b"p")],
    &[Sent::Plain(USER_NAME, b"many15"), Sent::Hidden(b"p")],
];

/// A Message-Authenticator, whose octets signing puts in.
pub(crate) const SIGNATURE: Sent = Sent::Plain(MESSAGE_AUTHENTICATOR, &[0; 16]);

/// The Class of the first session.
pub(crate) const FIRST_CLASS: Sent = Sent::Plain(CLASS, b"RAP1\0\0\0\0\0\0\0\x01");

/// The Acct-Status-Types.
pub(crate) const START: Sent = Sent::Plain(ACCT_STATUS_TYPE, &[0, 0, 0, 1]);

pub(crate) const STOP: Sent = Sent::Plain(ACCT_STATUS_TYPE, &[0, 0, 0, 2]);

pub(crate) const INTERIM_UPDATE: Sent = Sent::Plain(ACCT_STATUS_TYPE, &[0, 0, 0, 3]);

pub(crate) const ACCOUNTING_ON: Sent = Sent::Plain(ACCT_STATUS_TYPE, &[0, 0, 0, 7]);

pub(crate) const ACCOUNTING_OFF: Sent = Sent::Plain(ACCT_STATUS_TYPE, &[0, 0, 0, 8]);

/// A request, by its Identifier and its attributes.
#[derive(Clone, Copy)]
pub(crate) enum Asked {
    /// The octets of an Access-Request of the first client.
    Octets(&'static [u8]),
    /// The octets of an Access-Request of the second client.
    OtherOctets(&'static [u8]),
    /// An Access-Request of the first client.
    Access(u8, &'static [Sent]),
    /// An Access-Request of the second client.
    OtherAccess(u8, &'static [Sent]),
    /// An Accounting-Request of the first client.
    Account(u8, &'static [Sent]),
    /// An Accounting-Request of the second client.
    OtherAccount(u8, &'static [Sent]),
    /// An Accounting-Request of the address after the first client's, with that one's secret.
    NextAccount(u8, &'static [Sent]),
    /// A Status-Server of the first client, to one of the ports.
    Status(Door, &'static [Sent]),
}

impl Asked {
    /// The port that it is sent to.
    pub fn door(&self) -> Door {
        match self {
            Asked::Octets(_) | Asked::OtherOctets(_) => Door::Auth,
            Asked::Access(..) | Asked::OtherAccess(..) => Door::Auth,
            Asked::Account(..) | Asked::OtherAccount(..) | Asked::NextAccount(..) => Door::Acct,
            Asked::Status(door, _) => *door,
        }
    }

    /// The client's address.
    pub fn source(&self) -> u32 {
        match self {
            Asked::NextAccount(..) => STRANGER,
            _ if self.is_other() => SECOND_CLIENT,
            _ => CLIENT,
        }
    }

    // The client's secret.
    fn secret(&self) -> &'static [u8]
        ensures { IsSecret result.now }
    {
        if self.is_other() {
            b"second"
        } else {
            b"xyzzy5461"
        }
    }

    // Whether it is of the second client.
    fn is_other(&self) -> bool {
        matches!(
            self,
            Asked::OtherOctets(_) | Asked::OtherAccess(..) | Asked::OtherAccount(..)
        )
    }

    // The Code, the Identifier and the attributes; none if the request is given by its octets.
    fn parts(&self) -> Option<(u8, u8, &'static [Sent])>
        ensures { IfSome result (λ parts. IsRequestCode parts.0) }
    {
        match self {
            Asked::Octets(_) | Asked::OtherOctets(_) => None,
            Asked::Access(identifier, attributes) | Asked::OtherAccess(identifier, attributes) => {
                Some((ACCESS_REQUEST, *identifier, attributes))
            }
            Asked::Account(identifier, attributes)
            | Asked::OtherAccount(identifier, attributes)
            | Asked::NextAccount(identifier, attributes) => {
                Some((ACCOUNTING_REQUEST, *identifier, attributes))
            }
            Asked::Status(_, attributes) => Some((STATUS_SERVER, 0, attributes)),
        }
    }

    /// The frame that holds the request, if it isn't given by its octets and can be made.
    pub fn frame(&self, alloc: Global) -> Option<Frame> {
        let (code, identifier, attributes) = self.parts()?;
        let secret = Secret::new(self.secret());
        let body = body_of(alloc, code, attributes, &secret).ok()?;
        let mut frame = Frame::new(alloc).ok()?;
        sign_request(
            &body,
            identifier,
            REQUEST_AUTHENTICATOR,
            &secret,
            &mut frame,
        )
        .ok()?;
        Some(frame)
    }
}

// What a request of these attributes says.
fn body_of(
    alloc: Global,
    code: u8,
    attributes: &[Sent],
    secret: &Secret,
) -> Result<Body, AllocError>
    requires { IsRequestCode code }
    ensures { IfOk result (λ body. IsRequestCode body.code) }
{
    let mut body = Body::new(alloc, code);
    for sent in attributes.iter() {
        push(&mut body, sent, secret)?;
    }
    Ok(body)
}

// Appends an attribute. No test has a Value or a password that is too long, and would be cut.
fn push(body: &mut Body, sent: &Sent, secret: &Secret) -> Result<(), AllocError>
    ensures { body.new.code ≡ body.old.code }
{
    match sent {
        Sent::Hidden(password) => push_hidden(body, password, secret),
        Sent::Chap(password, challenge) => {
            let mut value = [7; CHAP_VALUE_LEN];
            value[1..].copy_from_slice(&chap_response(7, password, challenge));
            body.push(CHAP_PASSWORD, &value)
        }
        Sent::Plain(kind, value) => body.push(*kind, &value[..value.len().min(VALUE_MAX)]),
    }
}

fn push_hidden(body: &mut Body, password: &[u8], secret: &Secret) -> Result<(), AllocError>
    ensures { body.new.code ≡ body.old.code }
{
    let password = &password[..password.len().min(PASSWORD_MAX)];
    let mut value = [0; PASSWORD_MAX];
    let len = hide(secret, REQUEST_AUTHENTICATOR, password, &mut value);
    body.push(USER_PASSWORD, &value[..len])
}
