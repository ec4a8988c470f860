//! What datagrams say.
ghost use Rattle.std.specs.Prelude.{◌≡◌, ◌≤◌, All, length, IfOk};
ghost use Rattle.rad_auth.specs.Sealing.{IsRequestCode};

use rad_auth::{Door, PASSWORD_MAX, Secret, hide};
use rad_packet::{Body, attribute, code};
use std::alloc::{AllocError, Global};

/// The Request Authenticator of Access-Requests.
pub(crate) const AUTHENTICATOR: [u8; 16] = [7; 16];

// Types that the server doesn't look at (RFC 2865, section 5; RFC 2866, section 5; RFC 2869, section 5).
const CALLING_STATION_ID: u8 = 31;

const ACCT_DELAY_TIME: u8 = 41;

const ACCT_SESSION_ID: u8 = 44;

const EVENT_TIMESTAMP: u8 = 55;

const NAS_PORT_TYPE: u8 = 61;

// What all Access-Requests say.
const ACCESS: [(u8, &[u8]); 4] = [
    (attribute::MESSAGE_AUTHENTICATOR, &[0; 16]),
    (attribute::NAS_IP_ADDRESS, b"\xc0\xa8\x01\x10"),
    (NAS_PORT_TYPE, b"\0\0\0\x0f"),
    (CALLING_STATION_ID, b"02-00-00-00-00-01"),
];

// What all Starts say beside their Class.
const START: [(u8, &[u8]); 6] = [
    (attribute::ACCT_STATUS_TYPE, b"\0\0\0\x01"),
    (attribute::USER_NAME, b"userA"),
    (attribute::NAS_IP_ADDRESS, b"\xc0\xa8\x01\x10"),
    (ACCT_SESSION_ID, b"5f3a9c01"),
    (EVENT_TIMESTAMP, b"\x65\x43\x21\0"),
    (ACCT_DELAY_TIME, b"\0\0\0\0"),
];

/// How many users take turns: userA, userB, and so on.
pub(crate) const USERS: u64 = 16;

/// What a datagram says.
#[derive(Clone, Copy)]
pub(crate) enum Message {
    /// An Access-Request of the user whose turn it is, with the right password.
    LogIn(u64),
    /// One with a wrong password.
    WrongLogIn(u64),
    /// The Start of the session of this number.
    Start(u64),
}

impl Message {
    pub fn door(self) -> Door {
        match self {
            Message::LogIn(_) | Message::WrongLogIn(_) => Door::Auth,
            Message::Start(_) => Door::Acct,
        }
    }

    /// The Code of its reply.
    pub fn reply_code(self) -> u8 {
        match self {
            Message::LogIn(_) => code::ACCESS_ACCEPT,
            Message::WrongLogIn(_) => code::ACCESS_REJECT,
            Message::Start(_) => code::ACCOUNTING_RESPONSE,
        }
    }

    /// The body of its packet, for a client with this secret.
    pub fn body(self, alloc: Global, secret: &Secret) -> Result<Body, AllocError>
        ensures { IfOk result (λ body. IsRequestCode body.code) }
    {
        match self {
            Message::LogIn(turn) => access_request(alloc, secret, turn, b"a good password"),
            Message::WrongLogIn(turn) => access_request(alloc, secret, turn, b"a wrong password"),
            Message::Start(number) => start(alloc, number),
        }
    }
}

fn access_request(
    alloc: Global,
    secret: &Secret,
    turn: u64,
    password: &[u8],
) -> Result<Body, AllocError>
    requires { length password.now ≤ 16 }
    ensures { IfOk result (λ body. body.code ≡ 1) }
{
    let letter = b'A' + (turn % USERS) as u8;
    let mut value = [0; PASSWORD_MAX];
    let _len = hide(secret, &AUTHENTICATOR, password, &mut value);
    let mut body = with(Body::new(alloc, code::ACCESS_REQUEST), &ACCESS)?;
    body.push(attribute::USER_NAME, &[b'u', b's', b'e', b'r', letter])?;
    body.push(attribute::USER_PASSWORD, &value[..16])?;
    Ok(body)
}

// Its Class has the session's number.
fn start(alloc: Global, number: u64) -> Result<Body, AllocError>
    ensures { IfOk result (λ body. body.code ≡ 4) }
{
    let [a, b, c, d, e, f, g, h] = number.to_be_bytes();
    let class = [b'R', b'A', b'P', b'1', a, b, c, d, e, f, g, h];
    let mut body = with(Body::new(alloc, code::ACCOUNTING_REQUEST), &START)?;
    body.push(attribute::CLASS, &class)?;
    Ok(body)
}

// The body with more attributes, after the others.
fn with(body: Body, attributes: &[(u8, &[u8])]) -> Result<Body, AllocError>
    requires { All (λ attribute. length attribute.1.now ≤ 253) attributes.now }
    ensures { IfOk result (λ more. more.code ≡ body.code) }
{
    let mut body = body;
    for (kind, value) in attributes {
        body.push(*kind, value)?;
    }
    Ok(body)
}
