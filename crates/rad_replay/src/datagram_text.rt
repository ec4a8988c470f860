//! The text of a datagram line, which `datagram_line` reads.
ghost use Rattle.std.specs.Prelude.{◌≡◌, ◌++◌, ◌<◌, decimal, slice_index, OnOk};
ghost use Rattle.hex.specs.Hex.{encode_lower, lower_digits};
ghost use Rattle.rad_auth.specs.Datagrams.{datagram_of};
ghost use Rattle.rad_replay.specs.DatagramTexts.{door_name, source_text, address_text, octets_text, draw_text, content_text};
ghost use Rattle.rad_replay.specs.DatagramTexts.{draw_needed, datagram_text, DatagramTextsAreRead};
ghost use Rattle.rad_replay.specs.Replays.{datagram_arrived};

use rad_auth::{Arrival, Door};
use rad_packet::code::ACCESS_CHALLENGE;
use std::alloc::AllocError;

/// Appends the text of a datagram line, without its line feed.
///
/// After an error the text may hold a part of it.
pub fn push_datagram_text(
    text: &mut Vec<u8>,
    moment: u64,
    draw: Option<[u8; 16]>,
    arrival: &Arrival,
) -> Result<(), AllocError>
    ensures { OnOk result (text.new.items ≡ text.old.items
        ++ datagram_text (datagram_arrived moment draw arrival.now)) }
{
    push_decimal(text, moment)?;
    text.push(b' ')?;
    text.extend_from_slice(door_name(arrival.door))?;
    text.push(b' ')?;
    push_source(text, arrival)?;
    text.push(b' ')?;
    push_content(text, arrival.octets, draw)
}

/// The draw that the line of a request needs, by the Code of its reply.
///
/// Only an Access-Challenge has it in its State.
pub fn draw_needed(code: u8, draw: [u8; 16]) -> Option<[u8; 16]>
    ensures { result ≡ draw_needed code draw }
{
    if code == ACCESS_CHALLENGE {
        Some(draw)
    } else {
        None
    }
}

/// The text of each datagram that fits a line is read as that datagram, with its moment and its draw.
///
/// The call costs nothing: it does nothing at run time.
pub fn datagram_texts_are_read()
    ensures { DatagramTextsAreRead }
{}

/// The word for one of the server's ports.
pub fn door_name(door: Door) -> &'static [u8]
    ensures { result.now ≡ door_name door }
{
    match door {
        Door::Auth => b"auth",
        Door::Acct => b"acct",
    }
}

/// Appends a number in decimal digits.
pub fn push_decimal(text: &mut Vec<u8>, number: u64) -> Result<(), AllocError>
    ensures { OnOk result (text.new.items ≡ text.old.items ++ decimal number) }
{
    text.extend_from_slice(itoa::Buffer::new().format(number).as_bytes())
}

// The address and the port that a datagram came from.
fn push_source(text: &mut Vec<u8>, arrival: &Arrival) -> Result<(), AllocError>
    ensures { OnOk result (text.new.items
        ≡ text.old.items ++ source_text (datagram_of arrival.now)) }
{
    push_address(text, arrival.source)?;
    text.push(b':')?;
    push_decimal(text, u64::from(arrival.port))
}

/// Appends an IPv4 address, most significant octet first: four numbers joined by points.
pub fn push_address(text: &mut Vec<u8>, address: u32) -> Result<(), AllocError>
    ensures { OnOk result (text.new.items ≡ text.old.items ++ address_text address) }
{
    push_decimal(text, u64::from(address / 0x100_0000))?;
    text.push(b'.')?;
    push_decimal(text, u64::from(address / 0x1_0000 % 256))?;
    text.push(b'.')?;
    push_decimal(text, u64::from(address / 0x100 % 256))?;
    text.push(b'.')?;
    push_decimal(text, u64::from(address % 256))
}

// The octets of a datagram, and its draw if it has one.
fn push_content(text: &mut Vec<u8>, octets: &[u8], draw: Option<[u8; 16]>) -> Result<(), AllocError>
    ensures { OnOk result (text.new.items ≡ text.old.items ++ content_text octets.now draw) }
{
    push_octets(text, octets)?;
    push_draw(text, draw)
}

// Hexadecimal digits, or `-` for no octets.
fn push_octets(text: &mut Vec<u8>, octets: &[u8]) -> Result<(), AllocError>
    ensures { OnOk result (text.new.items ≡ text.old.items ++ octets_text octets.now) }
{
    if octets.is_empty() {
        return text.extend_from_slice(b"-");
    }
    push_hex(text, octets)
}

// A space and hexadecimal digits, or nothing for no draw.
fn push_draw(text: &mut Vec<u8>, draw: Option<[u8; 16]>) -> Result<(), AllocError>
    ensures { OnOk result (text.new.items ≡ text.old.items ++ draw_text draw) }
{
    let Some(draw) = draw else {
        return Ok(());
    };
    text.push(b' ')?;
    push_hex(text, &draw)
}

// Two hexadecimal digits an octet.
#[tactic(auto, using(crate::proofs::DatagramTextLemmas::hexadecimal_steps))]
fn push_hex(text: &mut Vec<u8>, octets: &[u8]) -> Result<(), AllocError>
    ensures { OnOk result (text.new.items ≡ text.old.items ++ encode_lower octets.now) }
{
    for octet in octets {
        text.extend_from_slice(&[digit(*octet / 16), digit(*octet % 16)])?;
    }
    Ok(())
}

// A hexadecimal digit, in lower case.
fn digit(value: u8) -> u8
    requires { value < 16 }
    ensures { result ≡ slice_index lower_digits value }
{
    b"0123456789abcdef"[usize::from(value)]
}
