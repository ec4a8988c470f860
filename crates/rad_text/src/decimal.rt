//! The numbers and addresses that texts spell.
ghost use Rattle.std.specs.Prelude.{◌≡◌, ◌≤◌, IfSome, length};
ghost use Rattle.rad_text.specs.Decimals.{digit_of, digits_from, number_of, address_part_of, address_of};

use crate::split::split_once;

// The value of a decimal digit.
fn digit(octet: u8) -> Option<u64>
    ensures { result ≡ digit_of octet }
{
    match octet {
        b'0'..=b'9' => Some(u64::from(octet - b'0')),
        _ => None,
    }
}

// The number that decimal digits spell.
fn digits(text: &[u8]) -> Option<u64>
    requires { length text.now ≤ 19 }
    ensures { result ≡ digits_from 0 text.now }
{
    let mut number = 0;
    for octet in text {
        number = 10 * number + digit(*octet)?;
    }
    Some(number)
}

/// The number that 1 to `most_digits` decimal digits spell, where it is at most `greatest`.
#[tactic(auto, unfolding(crate::specs::Decimals::number_of))]
pub fn number(text: &[u8], most_digits: usize, greatest: u64) -> Option<u64>
    requires { most_digits ≤ 19 }
    ensures value { result ≡ number_of most_digits greatest text.now }
    ensures bound { IfSome result (λ number. number ≤ greatest) }
{
    if text.is_empty() || text.len() > most_digits {
        return None;
    }
    digits(text).filter(|number| *number <= greatest)
}

// One of the four numbers of an address.
#[tactic(auto, unfolding(crate::specs::Decimals::address_part_of))]
fn address_part(text: &[u8]) -> Option<u8>
    ensures { result ≡ address_part_of text.now }
{
    match text {
        [b'0', _, ..] => None,
        _ => Some(number(text, 3, 255)? as u8),
    }
}

/// The address that four numbers joined by points spell, most significant octet first.
#[tactic(auto, unfolding(crate::specs::Decimals::address_of))]
pub fn address(text: &[u8]) -> Option<u32>
    ensures { result ≡ address_of text.now }
{
    let (first, rest) = split_once(text, b'.')?;
    let (second, rest) = split_once(rest, b'.')?;
    let (third, fourth) = split_once(rest, b'.')?;
    let a = address_part(first)?;
    let b = address_part(second)?;
    let c = address_part(third)?;
    let d = address_part(fourth)?;
    Some(u32::from_be_bytes([a, b, c, d]))
}
