//! A datagram line of a transcript: `MOMENT DOOR ADDRESS:PORT OCTETS [DRAW]`, where the draw may be missing.
ghost use Rattle.std.specs.Prelude.{◌≡◌, ◌≤◌, length, take, IfSome, option_map};
ghost use Rattle.rad_packet.specs.Packets.{length_max};
ghost use Rattle.rad_config.specs.Spans.{moment_max};
ghost use Rattle.rad_replay.specs.DatagramLines.{moment_of, port_of, door_of, octets_of, draw_in, content_of, datagram_of_line};
ghost use Rattle.rad_replay.specs.ReadLines.{datagram_found};

use rad_auth::Door;
use rad_config::MOMENT_MAX;
use rad_packet::LENGTH_MAX;
use rad_text::decimal::{address, number};
use rad_text::split::split_once;

/// A datagram, when it came, and its draw.
#[derive(Clone, Copy, Debug, PartialEq, Eq)]
pub struct DatagramLine {
    /// In milliseconds.
    pub moment: u64,
    /// An IPv4 address, most significant octet first.
    pub source: u32,
    pub port: u16,
    pub door: Door,
    /// How many octets the datagram has.
    pub len: usize,
    /// None if the line has none.
    pub draw: Option<[u8; 16]>,
}

// The moment that up to 19 decimal digits spell, in milliseconds.
#[tactic(auto, unfolding(crate::specs::DatagramLines::moment_of))]
fn moment(text: &[u8]) -> Option<u64>
    ensures value { result ≡ moment_of text.now }
    ensures bound { IfSome result (λ moment. moment ≤ moment_max) }
{
    number(text, 19, MOMENT_MAX)
}

// The source port that up to five decimal digits spell.
#[tactic(auto, unfolding(crate::specs::DatagramLines::port_of))]
fn port(text: &[u8]) -> Option<u16>
    ensures { result ≡ port_of text.now }
{
    Some(number(text, 5, 65535)? as u16)
}

// The server's port that a word names.
#[tactic(auto, unfolding(crate::specs::DatagramLines::door_of))]
fn door(text: &[u8]) -> Option<Door>
    ensures { result ≡ door_of text.now }
{
    if text == b"auth".as_slice() {
        Some(Door::Auth)
    } else if text == b"acct".as_slice() {
        Some(Door::Acct)
    } else {
        None
    }
}

// Decodes hexadecimal digits into the front of `octets`, and says how many octets they are.
#[tactic(auto, unfolding(crate::specs::DatagramLines::octets_of))]
fn decode_octets(text: &[u8], octets: &mut [u8]) -> Option<usize>
    requires { length octets.old ≡ length_max }
    ensures octets { octets_of text.now ≡ option_map (λ len. take len octets.new) result }
    ensures len { IfSome result (λ len. len ≤ length_max) }
{
    if text == b"-".as_slice() {
        return Some(0);
    }
    if text.len() < 2 || text.len() > 2 * LENGTH_MAX {
        return None;
    }
    let len = text.len() / 2;
    hex::decode_to_slice(text, &mut octets[..len]).ok()?;
    Some(len)
}

// The draw that 32 hexadecimal digits spell.
#[tactic(auto, unfolding(crate::specs::DatagramLines::draw_in))]
fn draw(text: &[u8]) -> Option<[u8; 16]>
    ensures { result ≡ draw_in text.now }
{
    let mut draw = [0; 16];
    hex::decode_to_slice(text, &mut draw).ok()?;
    Some(draw)
}

// Decodes a datagram into the front of `octets`, and says how many they are and which draw follows, if one does.
#[tactic(auto, unfolding(crate::specs::DatagramLines::content_of))]
fn decode_content(text: &[u8], octets: &mut [u8]) -> Option<(usize, Option<[u8; 16]>)>
    requires { length octets.old ≡ length_max }
    ensures content { content_of text.now
        ≡ option_map (λ found. (take found.0 octets.new, found.1)) result }
    ensures len { IfSome result (λ found. found.0 ≤ length_max) }
{
    match split_once(text, b' ') {
        None => Some((decode_octets(text, octets)?, None)),
        Some((octets_text, draw_text)) => {
            let len = decode_octets(octets_text, octets)?;
            Some((len, Some(draw(draw_text)?)))
        }
    }
}

/// Reads a datagram line, and decodes the datagram into the front of `octets`.
#[tactic(auto, unfolding(crate::specs::DatagramLines::datagram_of_line))]
pub fn read_datagram_line(line: &[u8], octets: &mut [u8]) -> Option<DatagramLine>
    requires { length octets.old ≡ length_max }
    ensures datagram { datagram_of_line line.now ≡ option_map (datagram_found octets.new) result }
    ensures len { IfSome result (λ found. found.len ≤ length_max) }
    ensures moment { IfSome result (λ found. found.moment ≤ moment_max) }
{
    let (moment_text, rest) = split_once(line, b' ')?;
    let (door_text, rest) = split_once(rest, b' ')?;
    let (source_text, content_text) = split_once(rest, b' ')?;
    let (address_text, port_text) = split_once(source_text, b':')?;
    let moment = moment(moment_text)?;
    let door = door(door_text)?;
    let source = address(address_text)?;
    let port = port(port_text)?;
    let (len, draw) = decode_content(content_text, octets)?;
    Some(DatagramLine {
        moment,
        source,
        port,
        door,
        len,
        draw,
    })
}
