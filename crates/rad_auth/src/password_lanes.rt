//! Eight passwords that are compared with what was sent, side by side.
ghost use Rattle.std.specs.Prelude.{◌≡◌, map, IfSome};
ghost use Rattle.md5.specs.Md5.{md5};
ghost use Rattle.rad_md5.specs.Pieces.{message};
ghost use Rattle.rad_auth.specs.PasswordChecks.{AreLaneDigests, IsLaneDigest, uses_lane, is_right_in};

use crate::authenticators::nothing;
use crate::password_check::PasswordCheck;
use rad_md5::{DIGEST_LEN, LANES, Pieces, digest_some, each_lane};

/// Whether each password is the one that was sent. A lane without one is wrong.
///
/// A response, or a value of one block, takes one digest. A longer value takes digests of its own. Source: RFC 2865, sections 2.2,
/// 5.2 and 5.3.
pub fn passwords_right8(checks: &[Option<PasswordCheck>; 8]) -> [bool; 8]
    ensures { result ≡ map is_right_in checks.now }
{
    let digests = digests(checks);
    each_lane!(j, check of checks => is_right_by(check, &digests[j]))
}

// The digests of the lanes.
fn digests(checks: &[Option<PasswordCheck>; LANES]) -> [[u8; DIGEST_LEN]; LANES]
    ensures { AreLaneDigests checks.now result }
{
    if !checks.iter().any(uses_lane) {
        return [[0; DIGEST_LEN]; LANES];
    }
    let (texts, wanted) = each_lane!(check of checks => lane_text(check), uses_lane(check));
    digest_some(&texts, &wanted)
}

fn uses_lane(check: &Option<PasswordCheck>) -> bool
    ensures { result ≡ uses_lane check.now }
{
    match check {
        None => false,
        Some(check) => check.fits_lane(),
    }
}

// The message of a lane's digest.
fn lane_text<'x>(check: &'x Option<PasswordCheck<'x>>) -> Pieces<'x>
    ensures { IfSome check.now (IsLaneDigest (md5 (message result))) }
{
    match check {
        Some(check) if check.fits_lane() => check.digested(),
        _ => nothing(),
    }
}

// Whether a lane's password is right, given the lane's digest.
fn is_right_by(check: &Option<PasswordCheck>, digest: &[u8; DIGEST_LEN]) -> bool
    requires { IfSome check.now (IsLaneDigest digest.now) }
    ensures { result ≡ is_right_in check.now }
{
    match check {
        None => false,
        Some(check) => check.is_right_by(digest),
    }
}
