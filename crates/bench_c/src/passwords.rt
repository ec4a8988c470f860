//! Password checks: `bench/passwords.c`.
//!
//! Each export checks all cases of a lot as many times as asked, and returns how often a password was right.
ghost use Rattle.std.specs.Prelude.{◌≤◌, length};
ghost use Rattle.rad_auth.specs.Passwords.{password_max};

use crate::plain;
use rad_auth::{
    CHAP_VALUE_LEN, HiddenPassword, PASSWORD_MAX, PasswordCheck, SECRET_MAX, Secret, chap_right,
    password_right, passwords_right8, value_fits,
};
use std::simd::u8x16;

/// A password, and the value for which it may be right. Each has as many octets as its length says.
#[repr(C)]
pub struct Case {
    /// The Request Authenticator, which is the challenge of a CHAP-Password too.
    pub authenticator: [u8; 16],
    pub value: [u8; PASSWORD_MAX],
    pub value_len: usize,
    pub password: [u8; PASSWORD_MAX],
    pub password_len: usize,
}

impl Case {
    fn value(&self) -> &[u8] {
        &self.value[..self.value_len.min(PASSWORD_MAX)]
    }

    fn password(&self) -> &[u8]
        ensures { length result.now ≤ password_max }
    {
        &self.password[..self.password_len.min(PASSWORD_MAX)]
    }
}

/// Cases, and the secret under which their User-Passwords are hidden. Its octets and their number come from C, so that
/// no compiler knows them.
#[repr(C)]
pub struct Lot {
    pub secret: [u8; SECRET_MAX],
    pub secret_len: usize,
    pub cases: [Case; 8],
}

// A check of one case.
trait Check {
    fn is_right(secret: &Secret, case: &Case) -> bool;
}

// By `password_right`.
struct InLanes;

impl Check for InLanes {
    fn is_right(secret: &Secret, case: &Case) -> bool {
        let value = case.value();
        value_fits(value) && password_right(secret, &case.authenticator, value, case.password())
    }
}

// The same, one digest after the other.
struct OneByOne;

impl Check for OneByOne {
    fn is_right(secret: &Secret, case: &Case) -> bool {
        let value = case.value();
        value_fits(value)
            && is_hidden_as(secret.octets(), &case.authenticator, value, case.password())
    }
}

// By `chap_right`.
struct Chap;

impl Check for Chap {
    fn is_right(_secret: &Secret, case: &Case) -> bool {
        let value = case.value();
        value.len() == CHAP_VALUE_LEN && chap_right(value, case.password(), &case.authenticator)
    }
}

// How often a check of all cases finds a password right.
fn count<C: Check>(lot: &Lot, rounds: u32) -> usize {
    let secret = Secret::new(&lot.secret[..lot.secret_len.clamp(1, SECRET_MAX)]);
    let mut right: usize = 0;
    for _ in 0..rounds {
        for case in &lot.cases {
            if C::is_right(&secret, case) {
                right = right.wrapping_add(1);
            }
        }
    }
    right
}

// What is compared with the User-Password of a case.
fn check_of<'x>(secret: &'x Secret, case: &'x Case) -> Option<PasswordCheck<'x>> {
    let value = case.value();
    if !value_fits(value) {
        return None;
    }
    Some(PasswordCheck::UserPassword(HiddenPassword {
        secret,
        request_authenticator: case.authenticator,
        value,
        password: case.password(),
    }))
}

fn count_right(right: [bool; 8]) -> usize {
    right.iter().filter(|is_right| **is_right).count()
}

// How often a check of all cases at once finds a password right.
fn count_at_once(lot: &Lot, rounds: u32) -> usize {
    let secret = Secret::new(&lot.secret[..lot.secret_len.clamp(1, SECRET_MAX)]);
    let [a, b, c, d, e, f, g, h] = &lot.cases;
    let mut right: usize = 0;
    for _ in 0..rounds {
        let checks = [
            check_of(&secret, a),
            check_of(&secret, b),
            check_of(&secret, c),
            check_of(&secret, d),
            check_of(&secret, e),
            check_of(&secret, f),
            check_of(&secret, g),
            check_of(&secret, h),
        ];
        right = right.wrapping_add(count_right(passwords_right8(&checks)));
    }
    right
}

// Hides a password block by block, each under the hidden block before it, and compares each with the value's.
fn is_hidden_as(secret: &[u8], authenticator: &[u8; 16], value: &[u8], password: &[u8]) -> bool
    requires { length password.now ≤ password_max }
{
    if password.len() > value.len() {
        return false;
    }
    let mut text = [0; PASSWORD_MAX];
    text[..password.len()].copy_from_slice(password);
    let (text_blocks, _) = text.as_chunks::<16>();
    let (value_blocks, _) = value.as_chunks::<16>();
    let mut before = *authenticator;
    let mut difference = u8x16::splat(0);
    for (block, wanted) in text_blocks.iter().zip(value_blocks) {
        let pad = plain::digest(&[secret, &before]);
        let hidden = u8x16::from_array(*block) ^ u8x16::from_array(pad);
        difference = difference | (hidden ^ u8x16::from_array(*wanted));
        before = hidden.to_array();
    }
    difference.to_array() == [0; 16]
}

/// `password_right` for each case.
#[unsafe(no_mangle)]
pub extern "C" fn radpool_password(lot: &Lot, rounds: u32) -> usize {
    count::<InLanes>(lot, rounds)
}

/// `passwords_right8` for all cases at once.
#[unsafe(no_mangle)]
pub extern "C" fn radpool_passwords8(lot: &Lot, rounds: u32) -> usize {
    count_at_once(lot, rounds)
}

/// The same check, one digest after the other by the toolchain's `md5`.
#[unsafe(no_mangle)]
pub extern "C" fn kit_password(lot: &Lot, rounds: u32) -> usize {
    count::<OneByOne>(lot, rounds)
}

/// `chap_right` for each case.
#[unsafe(no_mangle)]
pub extern "C" fn radpool_chap(lot: &Lot, rounds: u32) -> usize {
    count::<Chap>(lot, rounds)
}
