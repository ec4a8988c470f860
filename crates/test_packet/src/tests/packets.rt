//! The request of RFC 2865, section 7.1, and the limits of datagrams.

use super::holds;
use rad_packet::{Attribute, HEADER_SIZE, Packet, ReadFault, attribute, code};
use std::alloc::{AllocError, Global};

const REQUEST: [u8; 56] = *b"\
    \x01\x00\x00\x38\
    \x0f\x40\x3f\x94\x73\x97\x80\x57\xbd\x83\xd5\xcb\x98\xf4\x22\x7a\
    \x01\x06nemo\
    \x02\x12\x0d\xbe\x70\x8d\x93\xd4\x13\xce\x31\x96\xe4\x3f\x78\x2a\x0a\xee\
    \x04\x06\xc0\xa8\x01\x10\
    \x05\x06\x00\x00\x00\x03";

const REQUEST_AUTHENTICATOR: [u8; 16] =
    *b"\x0f\x40\x3f\x94\x73\x97\x80\x57\xbd\x83\xd5\xcb\x98\xf4\x22\x7a";

const REQUEST_ATTRIBUTES: [Attribute<'static>; 4] = [
    Attribute {
        kind: attribute::USER_NAME,
        value: b"nemo",
    },
    Attribute {
        kind: attribute::USER_PASSWORD,
        value: b"\x0d\xbe\x70\x8d\x93\xd4\x13\xce\x31\x96\xe4\x3f\x78\x2a\x0a\xee",
    },
    Attribute {
        kind: attribute::NAS_IP_ADDRESS,
        value: b"\xc0\xa8\x01\x10",
    },
    Attribute {
        kind: attribute::NAS_PORT,
        value: b"\x00\x00\x00\x03",
    },
];

// The request with another Length, followed by more octets, and then cut or filled up with octets 2. Two such octets are
// an attribute with no Value.
fn datagram(alloc: Global, len: u16, more: &[u8], came: usize) -> Result<Vec<u8>, AllocError> {
    let mut octets = REQUEST.to_vec(alloc)?;
    octets[2..4].copy_from_slice(&len.to_be_bytes());
    octets.extend_from_slice(more)?;
    octets.resize(came, 2)?;
    Ok(octets)
}

// The packet has this attribute once.
fn has_attribute(packet: &Packet, want: &Attribute) -> bool {
    let (kind, len) = (want.kind, want.value.len());
    packet.first(kind) == Some(want.value)
        && packet.first_of_len(kind, len) == Some(want.value)
        && packet.first_of_len(kind, len + 1).is_none()
        && packet.count(kind) == 1
}

// The packet has the attributes of the request, in their order, and no other.
fn has_request_attributes(packet: &Packet) -> bool {
    let mut attributes = packet.attributes();
    for want in REQUEST_ATTRIBUTES.iter() {
        if attributes.next() != Some(*want) || !has_attribute(packet, want) {
            return false;
        }
    }
    attributes.next().is_none() && packet.first(80).is_none() && packet.count(80) == 0
}

fn is_request(octets: &[u8]) -> bool {
    let Ok(packet) = Packet::read(octets) else {
        return false;
    };
    packet.code() == code::ACCESS_REQUEST
        && packet.identifier() == 0
        && packet.authenticator() == REQUEST_AUTHENTICATOR
        && packet.octets() == REQUEST.as_slice()
        && has_request_attributes(&packet)
}

fn is_read_without_padding(alloc: Global) -> Result<bool, AllocError> {
    let padded = datagram(alloc, 56, b"", 59)?;
    Ok(is_request(&padded))
}

#[test]
fn reads_the_request(rt: HostRuntime) {
    holds(&rt, Ok(is_request(&REQUEST)), "the request");
    let is_read = is_read_without_padding(rt.alloc());
    holds(&rt, is_read, "the padded request");
}

const ODD: Result<usize, ReadFault> = Err(ReadFault::BadAttributes);

// What it is, Length, what follows the request, the datagram's size, and the packet's size or the fault.
type Datagram = (
    &'static str,
    u16,
    &'static [u8],
    usize,
    Result<usize, ReadFault>,
);

const DATAGRAMS: [Datagram; 18] = [
    ("no octet", 56, b"", 0, Err(ReadFault::Short)),
    ("19 octets", 19, b"", 19, Err(ReadFault::Short)),
    ("Length 19", 19, b"", 5000, Err(ReadFault::BadLength)),
    ("Length 20", 20, b"", 5000, Ok(20)),
    ("Length 4096", 4096, b"", 5000, Ok(4096)),
    ("Length 4097", 4097, b"", 5000, Err(ReadFault::BadLength)),
    (
        "Length 4097, cut",
        4097,
        b"",
        4096,
        Err(ReadFault::BadLength),
    ),
    (
        "Length 4097, whole",
        4097,
        b"",
        4097,
        Err(ReadFault::BadLength),
    ),
    ("Length 4096, whole", 4096, b"", 4096, Ok(4096)),
    (
        "Length 4096, cut",
        4096,
        b"",
        4095,
        Err(ReadFault::Truncated),
    ),
    ("Length 57, cut", 57, b"", 56, Err(ReadFault::Truncated)),
    ("one octet too many", 57, b"", 57, ODD),
    ("an attribute of Length 0", 58, b"\x07\x00", 58, ODD),
    ("an attribute of Length 1", 58, b"\x07\x01", 58, ODD),
    ("Length 1 and an octet", 59, b"\x07\x01\x02", 59, ODD),
    ("an attribute of Length 2", 58, b"\x07\x02", 58, Ok(58)),
    ("Length past the end", 59, b"\x07\x04\x00", 59, ODD),
    ("Length into the padding", 59, b"\x07\x04\x00", 99, ODD),
];

// The size of the packet that a row's datagram holds, or the fault, is the row's.
fn is_read((_, len, more, came, found): Datagram, alloc: Global) -> Result<bool, AllocError> {
    let octets = datagram(alloc, len, more, came)?;
    match Packet::read(&octets) {
        Ok(packet) => Ok(found == Ok(packet.octets().len())),
        Err(fault) => Ok(found == Err(fault)),
    }
}

#[test]
fn reports_the_first_fault(rt: HostRuntime) {
    for row in DATAGRAMS.iter() {
        holds(&rt, is_read(*row, rt.alloc()), row.0);
    }
}

#[test]
fn numbers_faults_in_their_order(rt: HostRuntime) {
    const FAULTS: &[ReadFault] = &[
        ReadFault::Short,
        ReadFault::BadLength,
        ReadFault::Truncated,
        ReadFault::BadAttributes,
    ];
    for (fault, number) in FAULTS.iter().zip(1..=4) {
        holds(&rt, Ok(fault.number() == number), "its number");
    }
}

// A packet of so many octets, which are the request's header and octets 2: attributes with no Value.
fn filled(alloc: Global, len: u16) -> Result<Vec<u8>, AllocError> {
    let mut octets = REQUEST[..HEADER_SIZE].to_vec(alloc)?;
    octets[2..4].copy_from_slice(&len.to_be_bytes());
    octets.resize(len as usize, 2)?;
    Ok(octets)
}

// How many attributes with no Value a datagram has, if it has no others.
fn empty_attributes(octets: &[u8]) -> Option<usize> {
    let packet = Packet::read(octets).ok()?;
    let mut count: usize = 0;
    for attribute in packet.attributes() {
        if !attribute.value.is_empty() {
            return None;
        }
        count = count.saturating_add(1);
    }
    Some(count)
}

fn has_empty_attributes(alloc: Global, len: u16, want: usize) -> Result<bool, AllocError> {
    let octets = filled(alloc, len)?;
    Ok(empty_attributes(&octets) == Some(want))
}

#[test]
fn reads_as_many_attributes_as_fit(rt: HostRuntime) {
    const ROWS: &[(u16, usize, &str)] = &[
        (20, 0, "no attribute"),
        (22, 1, "one"),
        (4094, 2037, "one less than fit"),
        (4096, 2038, "as many as fit"),
    ];
    for (len, want, name) in ROWS.iter() {
        holds(&rt, has_empty_attributes(rt.alloc(), *len, *want), name);
    }
}
