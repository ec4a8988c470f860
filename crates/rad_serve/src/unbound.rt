//! Why a socket can't be bound, as a line of its own.

use std::net::{Ipv4Addr, SocketAddrV4};
use std::{fmt, io};

/// A socket that can't be bound, and the system's reason.
#[derive(Clone, Copy, Debug)]
pub struct Unbound {
    /// The address, most significant octet first, and the port; none if there is nothing to wait for datagrams with.
    pub at: Option<(u32, u16)>,
    pub error: io::Error,
}

impl fmt::Display for Unbound {
    fn fmt<W: fmt::Write>(&self, f: &mut fmt::Formatter<W>) -> fmt::Result {
        if let Some((address, port)) = self.at {
            let at = SocketAddrV4::new(Ipv4Addr::from_bits(address), port);
            write!(f, "{at}: ")?;
        }
        write!(f, "{}", self.error)
    }
}
