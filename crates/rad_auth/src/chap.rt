//! CHAP-Passwords (RFC 2865, sections 2.2 and 5.3; RFC 1994, section 4.1).
ghost use Rattle.std.specs.Prelude.{◌≡◌, length};
ghost use Rattle.rad_auth.specs.Chap.{chap_response, chap_right, chap_value_size};

use crate::same_octets::same_octets;
use md5::{Digest, Md5};

/// How many octets a CHAP-Password's value has: the CHAP identifier is one, the response is 16.
pub const CHAP_VALUE_LEN: usize = 17;

/// The response to a challenge: the digest of the CHAP identifier, the password and the challenge.
///
/// Password and challenge may have any number of octets. Source: RFC 1994, section 4.1.
pub fn chap_response(identifier: u8, password: &[u8], challenge: &[u8]) -> [u8; 16]
    ensures { result ≡ chap_response identifier password.now challenge.now }
{
    let mut digest = Md5::new();
    digest.update(&[identifier]);
    digest.update(password);
    digest.update(challenge);
    digest.finalize()
}

/// Whether a CHAP-Password's value has the response that a password gives to a challenge.
///
/// The value has `CHAP_VALUE_LEN` octets. The challenge is that of the CHAP-Challenge, or else the Request Authenticator.
/// All octets of the response are compared, whether the first differ or not. Source: RFC 2865, sections 2.2 and 5.3.
pub fn chap_right(value: &[u8], password: &[u8], challenge: &[u8]) -> bool
    requires { length value.now ≡ chap_value_size }
    ensures { result ≡ chap_right value.now password.now challenge.now }
{
    let response = chap_response(value[0], password, challenge);
    same_octets(&response, &value[1..])
}
