//! Requests as the options of `make` ask for them.
ghost use Rattle.std.specs.Prelude.{◌≡◌, ◌≤◌, length, IfOk};
ghost use Rattle.rad_packet.specs.Attributes.{value_max};
ghost use Rattle.rad_auth.specs.Passwords.{password_max};
ghost use Rattle.rad_auth.specs.Sealing.{IsRequestCode};

use rad_auth::{
    CHAP_VALUE_LEN, PASSWORD_MAX, SECRET_MAX, Secret, chap_response, hide, sign_request,
};
use rad_packet::attribute::{
    ACCT_STATUS_TYPE, CHAP_PASSWORD, MESSAGE_AUTHENTICATOR, USER_NAME, USER_PASSWORD, VALUE_MAX,
};
use rad_packet::code::{ACCESS_REQUEST, ACCOUNTING_REQUEST, STATUS_SERVER};
use rad_packet::{Body, Frame, HEADER_SIZE, LENGTH_MAX, Packet};
use std::alloc::{AllocError, Global};
use thiserror::Error;

/// What a request is.
#[derive(Clone, Copy, Debug, PartialEq, Eq)]
pub enum Kind {
    /// An Access-Request.
    Access,
    /// An Accounting-Request.
    Account,
    /// A Status-Server.
    Status,
}

/// The names of the kinds.
pub const KINDS: [&str; 3] = ["access", "account", "status"];

impl Kind {
    /// The kind of this name.
    pub fn named(name: &str) -> Option<Kind> {
        match name {
            "access" => Some(Kind::Access),
            "account" => Some(Kind::Account),
            "status" => Some(Kind::Status),
            _ => None,
        }
    }

    fn code(self) -> u8
        ensures { IsRequestCode result }
    {
        match self {
            Kind::Access => ACCESS_REQUEST,
            Kind::Account => ACCOUNTING_REQUEST,
            Kind::Status => STATUS_SERVER,
        }
    }
}

/// Why there is no request: an option's value doesn't fit, or memory was refused.
#[derive(Clone, Copy, Debug, PartialEq, Eq, Error)]
pub enum MakeFault {
    #[error("invalid value for '--secret <TEXT>': expected 1 to 128 octets")]
    Secret,
    #[error("invalid value for '--random <HEX>': expected 32 hexadecimal digits")]
    Random,
    #[error("invalid value for '--user <TEXT>': expected 1 to 253 octets")]
    User,
    #[error("invalid value for '--password <TEXT>': expected at most 128 octets")]
    Password,
    /// `--extra` is no octets in hexadecimal.
    #[error("invalid value for '--extra <HEX>': expected an even number of hexadecimal digits")]
    ExtraDigits,
    /// `--extra` spells no attributes.
    #[error("invalid value for '--extra <HEX>': expected whole attributes, each a Type, a Length of 2 to 255 that counts all three, and a Value")]
    ExtraAttributes,
    /// The request has more than `LENGTH_MAX` octets.
    #[error("invalid value for '--extra <HEX>': expected attributes that leave the request at most 4096 octets")]
    TooLong,
    #[error("out of memory")]
    NoMemory,
}

impl From<AllocError> for MakeFault {
    fn from(_error: AllocError) -> MakeFault {
        MakeFault::NoMemory
    }
}

/// The options of `make`, as they are given.
#[derive(Clone, Copy)]
pub struct Make<'a> {
    pub kind: Kind,
    pub secret: &'a str,
    /// The Identifier.
    pub id: u8,
    /// The User-Name, if there is to be one.
    pub user: Option<&'a str>,
    /// The password of kind access, if there is to be one.
    pub password: Option<&'a str>,
    /// The CHAP identifier, if the password is to be sent by CHAP.
    pub chap: Option<u8>,
    /// The Acct-Status-Type of kind account.
    pub status: u32,
    /// The Request Authenticator of kinds access and status, in hexadecimal.
    pub random: &'a str,
    /// The last attributes as they are spelled, in hexadecimal.
    pub extra: &'a str,
    /// Whether kind access begins with a Message-Authenticator.
    pub mac: bool,
}

impl<'a> Make<'a> {
    /// The signed request.
    ///
    /// A `secret` that doesn't fit is reported first, then `random`, `user`, `password` and `extra`. `random` and `password` must
    /// fit even if the kind doesn't use them.
    pub fn request(&self, alloc: Global) -> Result<Frame, MakeFault> {
        let secret = secret_of(self.secret)?;
        let random = random_of(self.random)?;
        let body = self.body(alloc, &secret, &random)?;
        let mut frame = Frame::new(alloc)?;
        match sign_request(&body, self.id, &random, &secret, &mut frame) {
            Ok(()) => Ok(frame),
            Err(_) => Err(MakeFault::TooLong),
        }
    }

    // What the request says before it is signed.
    fn body(&self, alloc: Global, secret: &Secret, random: &[u8; 16]) -> Result<Body, MakeFault>
        ensures { IfOk result (λ body. IsRequestCode body.code) }
    {
        let mut body = Body::new(alloc, self.kind.code());
        if self.has_message_authenticator() {
            // Signing puts in its octets.
            body.push(MESSAGE_AUTHENTICATOR, &[0; 16])?;
        }
        if let Some(user) = self.user {
            body.push(USER_NAME, user_name(user)?)?;
        }
        if let Some(password) = self.password {
            let password = password_of(password)?;
            if self.kind == Kind::Access {
                push_password(secret, random, password, self.chap, &mut body)?;
            }
        }
        if self.kind == Kind::Account {
            body.push(ACCT_STATUS_TYPE, &self.status.to_be_bytes())?;
        }
        push_extra(alloc, self.extra, &mut body)?;
        Ok(body)
    }

    fn has_message_authenticator(&self) -> bool {
        match self.kind {
            Kind::Access => self.mac,
            Kind::Account => false,
            Kind::Status => true,
        }
    }
}

fn secret_of(text: &str) -> Result<Secret, MakeFault> {
    let octets = text.as_bytes();
    if octets.is_empty() || octets.len() > SECRET_MAX {
        return Err(MakeFault::Secret);
    }
    Ok(Secret::new(octets))
}

fn random_of(text: &str) -> Result<[u8; 16], MakeFault> {
    let mut random = [0; 16];
    match hex::decode_to_slice(text, &mut random) {
        Ok(()) => Ok(random),
        Err(_) => Err(MakeFault::Random),
    }
}

fn user_name(text: &str) -> Result<&[u8], MakeFault>
    ensures { IfOk result (λ name. length name.now ≤ value_max) }
{
    let octets = text.as_bytes();
    if octets.is_empty() || octets.len() > VALUE_MAX {
        return Err(MakeFault::User);
    }
    Ok(octets)
}

fn password_of(text: &str) -> Result<&[u8], MakeFault>
    ensures { IfOk result (λ password. length password.now ≤ password_max) }
{
    let octets = text.as_bytes();
    if octets.len() > PASSWORD_MAX {
        return Err(MakeFault::Password);
    }
    Ok(octets)
}

// Appends a password: by CHAP if there is an identifier, and else hidden.
fn push_password(
    secret: &Secret,
    random: &[u8; 16],
    password: &[u8],
    chap: Option<u8>,
    body: &mut Body,
) -> Result<(), AllocError>
    requires { length password.now ≤ password_max }
    ensures { body.new.code ≡ body.old.code }
{
    if let Some(identifier) = chap {
        // Without a CHAP-Challenge the Request Authenticator is the challenge.
        let mut value = [identifier; CHAP_VALUE_LEN];
        value[1..].copy_from_slice(&chap_response(identifier, password, random));
        return body.push(CHAP_PASSWORD, &value);
    }
    let mut value = [0; PASSWORD_MAX];
    let len = hide(secret, random, password, &mut value);
    body.push(USER_PASSWORD, &value[..len])
}

fn octets_of(alloc: Global, text: &str) -> Result<Vec<u8>, MakeFault> {
    match hex::decode(alloc, text) {
        Ok(octets) => Ok(octets),
        Err(hex::FromHexError::OutOfMemory) => Err(MakeFault::NoMemory),
        Err(_) => Err(MakeFault::ExtraDigits),
    }
}

// Appends the attributes that these digits spell.
fn push_extra(alloc: Global, text: &str, body: &mut Body) -> Result<(), MakeFault>
    ensures { body.new.code ≡ body.old.code }
{
    let octets = packet_of(alloc, &octets_of(alloc, text)?)?;
    let Ok(packet) = Packet::read(&octets) else {
        return Err(MakeFault::ExtraAttributes);
    };
    let mut rest = packet.attributes();
    while let Some(attribute) = rest.next() {
        body.push(attribute.kind, attribute.value)?;
    }
    Ok(())
}

// A packet whose attributes are these octets.
fn packet_of(alloc: Global, octets: &[u8]) -> Result<Vec<u8>, MakeFault> {
    if octets.len() > LENGTH_MAX - HEADER_SIZE {
        return Err(MakeFault::TooLong);
    }
    let [high, low] = ((HEADER_SIZE + octets.len()) as u16).to_be_bytes();
    let mut packet = Vec::new(alloc);
    packet.extend_from_slice(&[ACCESS_REQUEST, 0, high, low])?;
    packet.extend_from_slice(&[0; 16])?;
    packet.extend_from_slice(octets)?;
    Ok(packet)
}
