//! Passwords that are compared with what was sent.
ghost use Rattle.std.specs.Prelude.{◌≡◌, length, IsTrue};
ghost use Rattle.rad_auth.specs.Chap.{chap_value_size};
ghost use Rattle.rad_auth.specs.Passwords.{value_fits};

use crate::chap::chap_right;
use crate::password::{PASSWORD_MAX, password_right, password_right_by};
use crate::same_octets::same_octets;
use crate::secret::Secret;
use rad_md5::{DIGEST_LEN, Pieces};
use rad_packet::attribute::VALUE_MAX;

/// The value of a User-Password, and the password that it is to hide.
#[derive(Clone, Copy)]
pub struct HiddenPassword<'a> {
    pub secret: &'a Secret,
    pub request_authenticator: [u8; 16],
    /// `value_fits` is true of it.
    pub value: &'a [u8],
    pub password: &'a [u8],
    pub ghost fits: { IsTrue (value_fits value.now) },
    pub ghost long: { length request_authenticator ≡ 16 },
}

/// The value of a CHAP-Password, and the password that it is to be the response of.
#[derive(Clone, Copy)]
pub struct ChapResponse<'a> {
    /// It has `CHAP_VALUE_LEN` octets.
    pub value: &'a [u8],
    pub password: &'a [u8],
    pub request_authenticator: [u8; 16],
    /// The CHAP-Challenge; without one, the challenge is the Request Authenticator.
    pub challenge: Option<&'a [u8]>,
    pub ghost long: { length value.now ≡ chap_value_size },
}

/// What was sent, and the password that is compared with it.
#[derive(Clone, Copy)]
pub enum PasswordCheck<'a> {
    UserPassword(HiddenPassword<'a>),
    ChapPassword(ChapResponse<'a>),
}

impl HiddenPassword<'_> {
    ghost use Rattle.rad_auth.specs.Passwords.{password_right};

    fn is_right(&self) -> bool
        ensures { result ≡ password_right self.now.secret.now self.now.request_authenticator
            self.now.value.now self.now.password.now }
    {
        password_right(
            self.secret,
            &self.request_authenticator,
            self.value,
            self.password,
        )
    }
}

impl ChapResponse<'_> {
    ghost use Rattle.rad_auth.specs.PasswordChecks.{challenge_of};

    fn challenge(&self) -> &[u8]
        ensures { result.now ≡ challenge_of self.now }
    {
        match self.challenge {
            Some(challenge) => challenge,
            None => &self.request_authenticator,
        }
    }
}

impl PasswordCheck<'_> {
    ghost use Rattle.rad_auth.specs.PasswordChecks.{IsLaneDigest, fits_lane, is_right};

    /// Whether the password is the one that was sent.
    ///
    /// Source: RFC 2865, sections 2.2, 5.2 and 5.3.
    pub fn is_right(&self) -> bool
        ensures { result ≡ is_right self.now }
    {
        match self {
            PasswordCheck::UserPassword(hidden) => hidden.is_right(),
            PasswordCheck::ChapPassword(response) => {
                chap_right(response.value, response.password, response.challenge())
            }
        }
    }

    /// Whether one digest in a lane is enough.
    pub(crate) fn fits_lane(&self) -> bool
        ensures { result ≡ fits_lane self.now }
    {
        match self {
            PasswordCheck::UserPassword(hidden) => hidden.value.len() == DIGEST_LEN,
            PasswordCheck::ChapPassword(response) => {
                response.password.len() <= PASSWORD_MAX && response.challenge().len() <= VALUE_MAX
            }
        }
    }

    /// Whether the password is right, given the lane's digest, if one is enough.
    pub(crate) fn is_right_by(&self, digest: &[u8; DIGEST_LEN]) -> bool
        requires { IsLaneDigest digest.now self.now }
        ensures { result ≡ is_right self.now }
    {
        if !self.fits_lane() {
            return self.is_right();
        }
        match self {
            PasswordCheck::UserPassword(hidden) => {
                password_right_by(digest, hidden.value, hidden.password)
            }
            PasswordCheck::ChapPassword(response) => same_octets(digest, &response.value[1..]),
        }
    }
}

impl<'x> PasswordCheck<'x> {
    ghost use Rattle.rad_md5.specs.Pieces.{message};
    ghost use Rattle.rad_auth.specs.PasswordChecks.{digested, fits_lane};

    /// What the lane digests.
    pub(crate) fn digested(&'x self) -> Pieces<'x>
        requires { IsTrue (fits_lane self.now) }
        ensures { message result ≡ digested self.now }
    {
        match self {
            PasswordCheck::UserPassword(hidden) => Pieces::of([
                hidden.secret.octets(),
                &hidden.request_authenticator,
                &[],
                &[],
                &[],
            ]),
            PasswordCheck::ChapPassword(response) => Pieces::of([
                &response.value[..1],
                response.password,
                response.challenge(),
                &[],
                &[],
            ]),
        }
    }
}
