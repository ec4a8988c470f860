//! The requests.
ghost use Rattle.std.specs.Prelude.{◌≡◌, ◌≤◌, length, IfOk};
ghost use Rattle.rad_packet.specs.Attributes.{value_max};
ghost use Rattle.rad_auth.specs.Sealing.{IsRequestCode};

use crate::admission::bodies::{ACCESS, ACCT_DELAY_TIME, ACCT_SESSION_ID, EVENT_TIMESTAMP, with};
use rad_auth::{Door, PASSWORD_MAX, Secret, hide};
use rad_packet::{Body, attribute, code};
use rad_server::Answer;
use std::alloc::{AllocError, Global};

/// The client's address.
pub(crate) const CLIENT: u32 = 0xC0A8_0110;

/// The Request Authenticator of requests that aren't Accounting-Requests.
pub(crate) const AUTHENTICATOR: [u8; 16] = [7; 16];

// The Acct-Status-Type of a Start and of a Stop (RFC 2866, section 5.1).
const START: &[u8] = b"\0\0\0\x01";

const STOP: &[u8] = b"\0\0\0\x02";

// What Accounting-Requests say beside their Acct-Status-Type and their Class.
const ACCOUNTING: [(u8, &[u8]); 5] = [
    (attribute::USER_NAME, b"plainA"),
    (attribute::NAS_IP_ADDRESS, b"\xc0\xa8\x01\x10"),
    (ACCT_SESSION_ID, b"5f3a9c01"),
    (EVENT_TIMESTAMP, b"\x65\x43\x21\0"),
    (ACCT_DELAY_TIME, b"\0\0\0\0"),
];

/// What is measured.
#[derive(Clone, Copy)]
pub(crate) enum Kind {
    /// An Access-Request of a user without a pool, which is accepted.
    Accept,
    /// One of a user with a pool, which is accepted.
    Pooled,
    /// The same where no address is left, which is rejected.
    NoAddress,
    /// One with a wrong password.
    Reject,
    /// A Start.
    Start,
    /// A Stop.
    Stop,
    /// A Status-Server.
    Status,
    /// The Access-Request of the last row, again and again.
    Repeat,
    /// An Access-Request that is challenged.
    Challenge,
    /// The answer to a challenge.
    Answer,
}

impl Kind {
    pub fn of(kind: u32) -> Kind {
        match kind {
            0 => Kind::Accept,
            1 => Kind::Pooled,
            2 => Kind::NoAddress,
            3 => Kind::Reject,
            4 => Kind::Start,
            5 => Kind::Stop,
            6 => Kind::Status,
            7 => Kind::Repeat,
            8 => Kind::Challenge,
            _ => Kind::Answer,
        }
    }

    pub fn door(self) -> Door {
        match self {
            Kind::Start | Kind::Stop => Door::Acct,
            _ => Door::Auth,
        }
    }

    /// Whether the answer is a reply of the right Code.
    pub fn is_wanted(self, answer: &Answer) -> bool {
        match answer {
            Answer::Send(body) => body.code() == self.reply_code(),
            Answer::Busy => false,
        }
    }

    fn reply_code(self) -> u8 {
        match self {
            Kind::Accept | Kind::Pooled | Kind::Status | Kind::Repeat | Kind::Answer => {
                code::ACCESS_ACCEPT
            }
            Kind::NoAddress | Kind::Reject => code::ACCESS_REJECT,
            Kind::Challenge => code::ACCESS_CHALLENGE,
            Kind::Start | Kind::Stop => code::ACCOUNTING_RESPONSE,
        }
    }
}

/// The request of a kind. It is of the user of a place, if sixteen take turns. A Start, a Stop or an answer means the session or
/// the challenge of this number.
pub(crate) fn request(
    alloc: Global,
    kind: Kind,
    secret: &Secret,
    place: usize,
    number: u64,
) -> Result<Body, AllocError>
    ensures { IfOk result (λ body. IsRequestCode body.code) }
{
    let turn = b'A' + (place % 16) as u8;
    let plain = [b'p', b'l', b'a', b'i', b'n', turn];
    let pooled = [b'p', b'o', b'o', b'l', b'e', b'd', turn];
    match kind {
        Kind::Accept | Kind::Repeat => access_request(alloc, secret, &plain, b"a good password"),
        Kind::Pooled | Kind::NoAddress => {
            access_request(alloc, secret, &pooled, b"a good password")
        }
        Kind::Reject => access_request(alloc, secret, &plain, b"a wrong password"),
        Kind::Challenge => access_request(alloc, secret, b"asked", b"a good password"),
        Kind::Answer => answer_request(alloc, secret, number),
        Kind::Start => accounting_request(alloc, START, number),
        Kind::Stop => accounting_request(alloc, STOP, number),
        Kind::Status => with(
            Body::new(alloc, code::STATUS_SERVER),
            &[(attribute::MESSAGE_AUTHENTICATOR, &[0; 16])],
        ),
    }
}

fn access_request(
    alloc: Global,
    secret: &Secret,
    name: &[u8],
    password: &[u8],
) -> Result<Body, AllocError>
    requires name { length name.now ≤ value_max }
    requires password { length password.now ≤ 16 }
    ensures { IfOk result (λ body. body.code ≡ 1) }
{
    let mut value = [0; PASSWORD_MAX];
    let _len = hide(secret, &AUTHENTICATOR, password, &mut value);
    let mut body = with(Body::new(alloc, code::ACCESS_REQUEST), &ACCESS)?;
    body.push(attribute::USER_NAME, name)?;
    body.push(attribute::USER_PASSWORD, &value[..16])?;
    Ok(body)
}

// Its State has the challenge's number, and the draw.
fn answer_request(alloc: Global, secret: &Secret, number: u64) -> Result<Body, AllocError>
    ensures { IfOk result (λ body. body.code ≡ 1) }
{
    let mut state = [0; 24];
    state[..8].copy_from_slice(&number.to_be_bytes());
    let mut body = access_request(alloc, secret, b"asked", b"an answer")?;
    body.push(attribute::STATE, &state)?;
    Ok(body)
}

// Its Class has the session's number.
fn accounting_request(alloc: Global, status: &[u8], number: u64) -> Result<Body, AllocError>
    requires { length status.now ≤ value_max }
    ensures { IfOk result (λ body. body.code ≡ 4) }
{
    let [a, b, c, d, e, f, g, h] = number.to_be_bytes();
    let class = [b'R', b'A', b'P', b'1', a, b, c, d, e, f, g, h];
    let mut body = Body::new(alloc, code::ACCOUNTING_REQUEST);
    body.push(attribute::ACCT_STATUS_TYPE, status)?;
    let mut body = with(body, &ACCOUNTING)?;
    body.push(attribute::CLASS, &class)?;
    Ok(body)
}
