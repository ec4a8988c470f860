//! Frames: a buffer for the octets of one packet, and the one place that spells a packet.
ghost use Rattle.std.specs.Prelude.{◌≡◌, [], ◌++◌, ◌+◌, ◌≤◌, ◌↔◌, length, take, IsOk, IfOk, OnOk, OnErr};
ghost use Rattle.rad_packet.specs.Packets.{length_max};
ghost use Rattle.rad_packet.specs.Bodies.{AreReadAs, FitsPacket, packet_octets_of};
ghost use Rattle.rad_packet.specs.Frames.{overwritten};

use crate::body::Body;
use crate::packet::{HEADER_SIZE, LENGTH_MAX};
use std::alloc::{AllocError, Global};
use std::marker::Model;
use thiserror::Error;

/// A packet that would be longer than 4,096 octets.
#[derive(Clone, Copy, Debug, PartialEq, Eq, Error)]
#[error("a packet of more than 4096 octets")]
pub struct TooLong;

/// A buffer for the octets of one packet. Contracts see those of the last packet that was written, and at first none.
#[derive(Drop)]
pub struct Frame {
    buffer: Vec<u8>,
    len: usize,
}

impl Model for Frame {
    ghost use Rattle.std.specs.Prelude.{◌≡◌, ◌≤◌, ℕ, List, length, take};
    ghost use Rattle.rad_packet.specs.Packets.{length_max};

    ghost Value = { List ℕ };

    ghost view = { λ f. take f.len f.buffer.items };

    ghost invariant = { λ f. (f.len ≤ length_max) × (length f.buffer.items ≡ length_max) };
}

impl Frame {
    /// An empty frame, whose buffer fits any packet.
    pub fn new(alloc: Global) -> Result<Frame, AllocError>
        ensures { IfOk result (λ frame. frame ≡ []) }
    {
        let buffer = vec![in alloc; 0; LENGTH_MAX]?;
        Ok(Frame { buffer, len: 0 })
    }

    /// The octets of the last packet that was written.
    pub fn octets(&self) -> &[u8]
        ensures value { result.now ≡ self.now }
        ensures fits { length result.now ≤ length_max }
    {
        &self.buffer[..self.len]
    }

    /// Writes these octets over as many of the frame's, from a place on.
    pub fn overwrite(&mut self, place: usize, octets: &[u8])
        requires { place + length octets.now ≤ length self.old }
        ensures { self.new ≡ overwritten place octets.now self.old }
    {
        put(&mut self.buffer, place, octets);
    }
}

/// Writes the packet with this body into the frame.
///
/// Returns `TooLong` if and only if the packet would exceed 4,096 octets, and then the frame is unchanged.
/// Source: RFC 2865, section 3.
pub fn write(
    body: &Body,
    identifier: u8,
    authenticator: &[u8; 16],
    frame: &mut Frame,
) -> Result<(), TooLong>
    ensures fits { IsOk result ↔ FitsPacket body.now }
    ensures written { OnOk result
        (frame.new ≡ packet_octets_of body.now identifier authenticator.now) }
    ensures read_again { OnOk result (AreReadAs frame.new body.now identifier authenticator.now) }
    ensures unchanged { OnErr result (frame.new ≡ frame.old) }
{
    if body.size() > LENGTH_MAX - HEADER_SIZE {
        return Err(TooLong);
    }
    let len = HEADER_SIZE + body.size();
    let [high, low] = (len as u16).to_be_bytes();
    let header = [body.code(), identifier, high, low];
    spell(
        &mut frame.buffer,
        &header,
        authenticator,
        body.attributes_octets(),
    );
    frame.len = len;
    Ok(())
}

// The parts one after the other, from the first octet of the buffer on.
fn spell(buffer: &mut [u8], header: &[u8], authenticator: &[u8], attributes: &[u8])
    requires { length header.now + length authenticator.now + length attributes.now
        ≤ length buffer.old }
    ensures { take (length header.now + length authenticator.now + length attributes.now) buffer.new
        ≡ header.now ++ authenticator.now ++ attributes.now }
{
    let after_header = put(buffer, 0, header);
    let after_authenticator = put(buffer, after_header, authenticator);
    put(buffer, after_authenticator, attributes);
}

// Writes a part at a place, and returns the place after it.
fn put(buffer: &mut [u8], at: usize, part: &[u8]) -> usize
    requires { at + length part.now ≤ length buffer.old }
    ensures place { result ≡ at + length part.now }
    ensures front { take result buffer.new ≡ take at buffer.old ++ part.now }
    ensures whole { buffer.new ≡ overwritten at part.now buffer.old }
{
    let end = at + part.len();
    buffer[at..end].copy_from_slice(part);
    end
}
