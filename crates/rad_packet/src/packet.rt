ghost use Rattle.std.specs.Prelude.{◌≡◌, ◌≤◌, length, IfOk, IfErr, IfSome, Ok};
ghost use Rattle.std.specs.List.{AllByRecursion};
ghost use Rattle.std.specs.Option.{option_copied};
ghost use Rattle.rad_packet.specs.Attributes.{IsAttribute, first_value, first_value_of_len, count};
ghost use Rattle.rad_packet.specs.Packets.{Packet, packet_of, read_fault_number, packet_octets, packet_length, length_field};
ghost use Rattle.rad_packet.specs.Packets.{length_max, IsPacket, IsFault};

use crate::attribute::{Attributes, are_attributes};
use std::marker::Model;
use thiserror::Error;

/// The octets of Code, Identifier, Length and Authenticator.
pub const HEADER_SIZE: usize = 20;

/// The greatest Length of a packet.
pub const LENGTH_MAX: usize = 4096;

/// Why a datagram holds no packet. The first fault that applies is reported.
#[derive(Clone, Copy, Debug, PartialEq, Eq, Error)]
pub enum ReadFault {
    #[error("a datagram of fewer than 20 octets")]
    Short,
    #[error("a Length below 20 or above 4096")]
    BadLength,
    #[error("a Length beyond the end of the datagram")]
    Truncated,
    #[error("malformed attributes")]
    BadAttributes,
}

impl ReadFault {
    /// The number under which it is reported.
    pub fn number(self) -> u8
        ensures { result ≡ read_fault_number self }
    {
        match self {
            ReadFault::Short => 1,
            ReadFault::BadLength => 2,
            ReadFault::Truncated => 3,
            ReadFault::BadAttributes => 4,
        }
    }
}

/// A packet, borrowed from the datagram that it came in. Contracts see its parts.
///
/// ```text
///  0      1            2       4                    20
///  +------+------------+--------+--------------------+------------ - -
///  | Code | Identifier | Length | Authenticator (16) | Attributes
///  +------+------------+--------+--------------------+------------ - -
/// ```
///
/// Length counts all of these and has its most significant octet first. Source: RFC 2865, section 3.
#[derive(Drop)]
pub struct Packet<'a> {
    octets: &'a [u8],
}

impl<'a> Model for Packet<'a> {
    ghost use Rattle.rad_packet.specs.Packets.{Packet, packet_in, IsWhole};

    ghost Value = { Packet };

    ghost view = { λ p. packet_in p.octets.now };

    ghost invariant = { λ p. IsWhole p.octets.now };
}

impl<'a> Packet<'a> {
    /// The packet that a datagram holds, or the first fault.
    ///
    /// Octets past the packet's Length are padding and are ignored. Source: RFC 2865, section 3.
    pub fn read(datagram: &'a [u8]) -> Result<Packet<'a>, ReadFault>
        // The datagram begins with the octets of the packet that is read.
        ensures read { IfOk result (IsPacket datagram.now) }
        // A packet with whose octets the datagram begins is read.
        ensures only { (p : Packet) → IsPacket datagram.now p → result ≡ Ok p }
        // Which fault it is.
        ensures refused { IfErr result (IsFault datagram.now) }
        // The three clauses before as one function, for callers that compute with it.
        ensures exact { result ≡ packet_of datagram.now }
        // Without its padding the datagram holds the same packet.
        ensures unpadded { IfOk result (λ p. packet_of (packet_octets p) ≡ Ok p) }
    {
        held_by(datagram)
    }

    /// The Code.
    pub fn code(&self) -> u8
        ensures { result ≡ self.now.code }
    {
        self.octets[0]
    }

    /// The Identifier, by which a client distinguishes its requests.
    pub fn identifier(&self) -> u8
        ensures { result ≡ self.now.identifier }
    {
        self.octets[1]
    }

    /// A copy of the Authenticator.
    pub fn authenticator(&self) -> [u8; 16]
        ensures { result ≡ self.now.authenticator }
    {
        let field = &self.octets[4..20];
        let mut authenticator = [0; 16];
        authenticator.copy_from_slice(field);
        authenticator
    }

    /// The same packet, borrowed once more.
    pub fn copy(&self) -> Packet<'a>
        ensures { result ≡ self.now }
    {
        Packet {
            octets: self.octets,
        }
    }

    /// The octets of the packet, up to its Length.
    pub fn octets(&self) -> &'a [u8]
        ensures whole { result.now ≡ packet_octets self.now }
        ensures packet { IsPacket result.now self.now }
    {
        self.octets
    }

    /// The attributes in their order.
    pub fn attributes(&self) -> Attributes<'a>
        ensures list { result ≡ self.now.attributes }
        ensures each { AllByRecursion IsAttribute self.now.attributes }
        ensures packet_fits { packet_length self.now ≤ length_max }
    {
        Attributes::of(&self.octets[HEADER_SIZE..])
    }

    /// The Value of the first attribute of a Type.
    pub fn first(&self, kind: u8) -> Option<&'a [u8]>
        ensures value { option_copied result ≡ first_value kind self.now.attributes }
    {
        self.attributes().first(kind)
    }

    /// The Value of the first attribute of a Type that has so many octets.
    pub fn first_of_len(&self, kind: u8, len: usize) -> Option<&'a [u8]>
        ensures value { option_copied result ≡ first_value_of_len kind len self.now.attributes }
        ensures len { IfSome result (λ value. length value.now ≡ len) }
    {
        let mut rest = self.attributes();
        while let Some(attribute) = rest.next() {
            let value = attribute.value;
            if attribute.kind == kind && value.len() == len {
                return Some(value);
            }
        }
        None
    }

    /// How many attributes of a Type there are.
    pub fn count(&self, kind: u8) -> usize
        ensures value { result ≡ count kind self.now.attributes }
        ensures bound { result ≤ length_max }
    {
        let mut count = 0;
        let mut rest = self.attributes();
        while let Some(attribute) = rest.next() {
            if attribute.kind == kind {
                count += 1;
            }
        }
        count
    }
}

// The Length field.
fn length_field(datagram: &[u8]) -> usize
    requires { 4 ≤ length datagram.now }
    ensures { result ≡ length_field datagram.now }
{
    u16::from_be_bytes([datagram[2], datagram[3]]) as usize
}

fn held_by(datagram: &[u8]) -> Result<Packet<'_>, ReadFault>
    ensures { result ≡ packet_of datagram.now }
{
    if datagram.len() < HEADER_SIZE {
        return Err(ReadFault::Short);
    }
    let len = length_field(datagram);
    if len < HEADER_SIZE || LENGTH_MAX < len {
        return Err(ReadFault::BadLength);
    }
    if datagram.len() < len {
        return Err(ReadFault::Truncated);
    }
    let octets = &datagram[..len];
    if !are_attributes(&octets[HEADER_SIZE..]) {
        return Err(ReadFault::BadAttributes);
    }
    Ok(Packet { octets })
}
