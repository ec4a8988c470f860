//! Datagrams as they arrive, and requests as they are admitted.

use rad_packet::Packet;

/// Which of the server's two ports a datagram came to.
#[derive(Clone, Copy, Debug, PartialEq, Eq)]
pub enum Door {
    /// The authentication port (RFC 2865, section 3).
    Auth,
    /// The accounting port (RFC 2866, section 3).
    Acct,
}

/// A datagram as it arrived.
#[derive(Clone, Copy, Debug)]
pub struct Arrival<'a> {
    /// The source address, most significant octet first.
    pub source: u32,
    /// The source port.
    pub port: u16,
    pub door: Door,
    pub octets: &'a [u8],
}

/// An admitted request: the packet that an arrival holds, and whose it is.
#[derive(Drop)]
pub struct Request<'a> {
    /// The client's place, counted from 0.
    pub client: u32,
    pub source: u32,
    pub port: u16,
    pub door: Door,
    pub packet: Packet<'a>,
    /// The octets of its Proxy-State attributes, Type and Length counted.
    pub proxy_states: usize,
}
