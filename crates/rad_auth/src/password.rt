//! User-Passwords, hidden under a secret and opened again (RFC 2865, section 5.2).
ghost use Rattle.std.specs.Prelude.{◌≡◌, [], ◌-◌, ◌*◌, ◌%◌, ◌<◌, ◌≤◌, ◌++◌, length, slice_index_or, take, drop, IsTrue};
ghost use Rattle.md5.specs.Md5.{md5};
ghost use Rattle.rad_hmac.specs.Hmac.{xor};
ghost use Rattle.rad_md5.specs.Pieces.{message};
ghost use Rattle.rad_auth.specs.Clients.{secret_max};
ghost use Rattle.rad_auth.specs.PasswordBlocks.{AreBlockDigests, Judges, JudgesBlock, Reveals};
ghost use Rattle.rad_auth.specs.Passwords.{IsRevealed, hidden_password, hidden_text, padded_password, password_max, password_right};
ghost use Rattle.rad_auth.specs.Passwords.{value_fits, value_length};

use crate::authenticators::nothing;
use crate::same_octets::same_octets;
use crate::secret::Secret;
use md5::{Digest, Md5};
use rad_md5::{DIGEST_LEN, LANES, Pieces, digest8};
use std::simd::u8x16;

/// The most octets that a password has.
pub const PASSWORD_MAX: usize = 128;

// The octets of a block: as many as a digest has.
const BLOCK_LEN: usize = DIGEST_LEN;

/// Whether octets can be the value of a User-Password: their number is a multiple of 16, from 16 to `PASSWORD_MAX`.
///
/// Source: RFC 2865, section 5.2.
pub fn value_fits(value: &[u8]) -> bool
    ensures { result ≡ value_fits value.now }
{
    value.len() % BLOCK_LEN == 0 && BLOCK_LEN <= value.len() && value.len() <= PASSWORD_MAX
}

/// Hides a password, and returns how many octets its value has: a multiple of 16, and at least 16.
///
/// The password has at most `PASSWORD_MAX` octets, and may have none. The octets of `value` after the returned count are unchanged.
/// Source: RFC 2865, section 5.2.
pub fn hide(
    secret: &Secret,
    request_authenticator: &[u8; 16],
    password: &[u8],
    value: &mut [u8; PASSWORD_MAX],
) -> usize
    requires { length password.now ≤ password_max }
    ensures len { result ≡ value_length (length password.now) }
    ensures hidden { take result value.new
        ≡ hidden_password secret.now request_authenticator.now password.now }
    ensures rest { drop result value.new ≡ drop result value.old }
{
    let len = value_length(password.len());
    value[..len].copy_from_slice(&padded(password)[..len]);
    hide_text(secret.octets(), request_authenticator, &mut value[..len]);
    len
}

// How many octets the value of a password of this length has.
fn value_length(len: usize) -> usize
    requires { len ≤ password_max }
    ensures { result ≡ value_length len }
{
    BLOCK_LEN * len.div_ceil(BLOCK_LEN).max(1)
}

// A password padded with zeros.
fn padded(password: &[u8]) -> [u8; PASSWORD_MAX]
    requires { length password.now ≤ password_max }
    ensures { result ≡ padded_password password_max password.now }
{
    let mut text = [0; PASSWORD_MAX];
    text[..password.len()].copy_from_slice(password);
    text
}

// Hides a text of whole blocks in place.
fn hide_text(secret: &[u8], request_authenticator: &[u8; 16], text: &mut [u8])
    requires { length text.old % 16 ≡ 0 }
    ensures { text.new ≡ hidden_text secret.now request_authenticator.now text.old }
{
    let mut before = *request_authenticator;
    'blocks: for block in 0..text.len() / BLOCK_LEN {
        let at = block * BLOCK_LEN;
        let hidden = xor(&text[at..at + BLOCK_LEN], &block_digest(secret, &before));
        text[at..at + BLOCK_LEN].copy_from_slice(&hidden);
        before = hidden;
    }
}

// The digest that hides a block: of the secret and what precedes the block.
fn block_digest(secret: &[u8], before: &[u8; BLOCK_LEN]) -> [u8; DIGEST_LEN]
    ensures { result ≡ md5 (secret.now ++ before.now) }
{
    let mut digest = Md5::new();
    digest.update(secret);
    digest.update(before);
    digest.finalize()
}

// The exclusive or of a block and a digest.
fn xor(block: &[u8], digest: &[u8; DIGEST_LEN]) -> [u8; BLOCK_LEN]
    requires { length block.now ≡ 16 }
    ensures { result ≡ xor block.now digest.now }
{
    (u8x16::from_slice(block) ^ u8x16::from_array(*digest)).to_array()
}

/// Opens a value: writes the text that is hidden as it, and returns the text's length, which is the value's.
///
/// If `hide` made the value under this secret and Authenticator, the text is the password padded with zeros.
/// `value_fits` must be true of the value. Two blocks and more are opened by one pass of digests. The octets of `text`
/// after the returned count are unchanged. Source: RFC 2865, section 5.2.
pub fn reveal(
    secret: &Secret,
    request_authenticator: &[u8; 16],
    value: &[u8],
    text: &mut [u8; PASSWORD_MAX],
) -> usize
    requires { IsTrue (value_fits value.now) }
    ensures len { result ≡ length value.now }
    ensures revealed { IsRevealed secret.now request_authenticator.now value.now
        (take result text.new) }
    ensures rest { drop result text.new ≡ drop result text.old }
{
    let digests = block_digests(secret.octets(), request_authenticator, value);
    open_blocks(&digests, value, text);
    value.len()
}

// Opens the blocks of a value by the digests that hide them.
fn open_blocks(digests: &[[u8; DIGEST_LEN]; LANES], value: &[u8], text: &mut [u8; PASSWORD_MAX])
    requires { IsTrue (value_fits value.now) }
    ensures revealed { Reveals digests.now value.now (take (length value.now) text.new) }
    ensures rest { drop (length value.now) text.new ≡ drop (length value.now) text.old }
{
    'blocks: for block in 0..value.len() / BLOCK_LEN {
        let at = block * BLOCK_LEN;
        let opened = xor(&value[at..at + BLOCK_LEN], &digests[block]);
        text[at..at + BLOCK_LEN].copy_from_slice(&opened);
    }
}

// The digests that hide the blocks of a value. Lanes past its last block have other octets.
fn block_digests(
    secret: &[u8],
    request_authenticator: &[u8; 16],
    value: &[u8],
) -> [[u8; DIGEST_LEN]; LANES]
    requires secret { length secret.now ≤ secret_max }
    requires value { length value.now ≤ password_max }
    ensures { AreBlockDigests secret.now request_authenticator.now value.now result }
{
    if value.len() == BLOCK_LEN {
        // A digest alone takes less time than a pass of eight.
        return alone(&block_digest(secret, request_authenticator));
    }
    digest8(&[
        Pieces::of([secret, request_authenticator, &[], &[], &[]]),
        digested_text(secret, value, 1),
        digested_text(secret, value, 2),
        digested_text(secret, value, 3),
        digested_text(secret, value, 4),
        digested_text(secret, value, 5),
        digested_text(secret, value, 6),
        digested_text(secret, value, 7),
    ])
}

// A digest in the first lane, and nothing in the others.
fn alone(digest: &[u8; DIGEST_LEN]) -> [[u8; DIGEST_LEN]; LANES]
    ensures { slice_index_or result 0 [] ≡ digest.now }
{
    let none = [0; DIGEST_LEN];
    [*digest, none, none, none, none, none, none, none]
}

// The message whose digest hides a block after the first; empty if the value has no such block.
fn digested_text<'x>(secret: &'x [u8], value: &'x [u8], block: usize) -> Pieces<'x>
    requires secret { length secret.now ≤ secret_max }
    requires value { length value.now ≤ password_max }
    requires block { (1 ≤ block) × (block < 8) }
    ensures { block * 16 < length value.now
        → message result ≡ secret.now ++ take 16 (drop (block * 16 - 16) value.now) }
{
    let at = block * BLOCK_LEN;
    if at < value.len() {
        Pieces::of([secret, &value[at - BLOCK_LEN..at], &[], &[], &[]])
    } else {
        nothing()
    }
}

/// Whether a password, padded with zeros to the value's length, is the text that the value hides.
///
/// A password that is longer than the value is wrong; otherwise all octets are compared, whether the first differ or not.
/// `value_fits` must be true of the value. Source: RFC 2865, section 5.2.
pub fn password_right(
    secret: &Secret,
    request_authenticator: &[u8; 16],
    value: &[u8],
    password: &[u8],
) -> bool
    requires { IsTrue (value_fits value.now) }
    ensures { result ≡ password_right secret.now request_authenticator.now value.now password.now }
{
    let digests = block_digests(secret.octets(), request_authenticator, value);
    is_opened(&digests, value, password)
}

/// The same for a value of one block, given the digest that hides it.
pub(crate) fn password_right_by(digest: &[u8; DIGEST_LEN], value: &[u8], password: &[u8]) -> bool
    requires { length value.now ≡ 16 }
    ensures { JudgesBlock digest.now value.now password.now result }
{
    is_opened(&alone(digest), value, password)
}

// Whether these digests open a value as a password, padded with zeros.
fn is_opened(digests: &[[u8; DIGEST_LEN]; LANES], value: &[u8], password: &[u8]) -> bool
    requires { IsTrue (value_fits value.now) }
    ensures { Judges digests.now value.now password.now result }
{
    if password.len() > value.len() {
        return false;
    }
    let mut text = [0; PASSWORD_MAX];
    open_blocks(digests, value, &mut text);
    let len = value.len();
    let wanted = padded(password);
    same_octets(&wanted[..len], &text[..len])
}
