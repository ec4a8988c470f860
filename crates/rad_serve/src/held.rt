//! The sockets that a process is given at its start, as systemd gives those of a socket unit (sd_listen_fds(3)).
ghost use Rattle.std.specs.Prelude.{◌≡◌, ◌≢◌, ◌↔◌, IfOk, IfSome, IsErrOf, IsOk, IsTrue};
ghost use Rattle.std.specs.Net.Addr.{ipv4_bits};
ghost use Rattle.std.specs.Net.Socket.{v4_ip, v4_port};
ghost use Rattle.rad_serve.specs.declared.held.HeldFault.TheVariants.{Addresses};

use mio::net::UdpSocket;
use os::FromRawFd;
use std::net;
use std::net::{SocketAddr, SocketAddrV4};
use std::os::fd::RawFd;
use thiserror::Error;

/// The descriptors of the two sockets, in the order of the unit.
pub(crate) const AUTH_DESCRIPTOR: RawFd = 3;

pub(crate) const ACCT_DESCRIPTOR: RawFd = 4;

/// Why sockets that a process was given can't be served.
#[derive(Clone, Copy, Debug, PartialEq, Eq, Error)]
pub enum HeldFault {
    /// There aren't two.
    #[error("LISTEN_FDS isn't 2: a socket for authentication and one for accounting are expected")]
    Count,
    /// This descriptor is no UDP socket that is bound to an IPv4 address and a port.
    #[error("descriptor {0} is no UDP socket with an IPv4 address and a port")]
    NoUdp(RawFd),
    /// They are bound to two addresses.
    #[error("descriptors 3 and 4 have different addresses")]
    Addresses,
    /// They are bound to another address or port than is expected.
    #[error("descriptors 3 and 4 have another address or port than --bind, --auth or --acct")]
    Unexpected,
}

/// What two sockets must be bound to, as far as anything is expected: an address, most significant octet first, and two ports.
#[derive(Clone, Copy, Debug, PartialEq, Eq)]
pub struct Expected {
    pub address: Option<u32>,
    pub auth: Option<u16>,
    pub acct: Option<u16>,
}

impl Expected {
    // Whether an address and two ports are as expected.
    fn is_met(&self, address: u32, auth: u16, acct: u16) -> bool
        ensures { IsTrue result ↔ (IfSome self.now.address (λ expected. expected ≡ address)
            × IfSome self.now.auth (λ expected. expected ≡ auth)
            × IfSome self.now.acct (λ expected. expected ≡ acct)) }
    {
        self.address.is_none_or(|expected| expected == address)
            && self.auth.is_none_or(|expected| expected == auth)
            && self.acct.is_none_or(|expected| expected == acct)
    }

    /// The one address of two sockets that are bound as expected.
    pub(crate) fn address_of(
        &self,
        auth: SocketAddrV4,
        acct: SocketAddrV4,
    ) -> Result<u32, HeldFault>
        ensures address { IfOk result (λ address. address ≡ ipv4_bits (v4_ip auth)) }
        ensures two { IsErrOf result Addresses ↔ (ipv4_bits (v4_ip auth) ≢ ipv4_bits (v4_ip acct)) }
        ensures ok { IsOk result ↔ ((ipv4_bits (v4_ip auth) ≡ ipv4_bits (v4_ip acct))
            × IfSome self.now.address (λ expected. expected ≡ ipv4_bits (v4_ip auth))
            × IfSome self.now.auth (λ expected. expected ≡ v4_port auth)
            × IfSome self.now.acct (λ expected. expected ≡ v4_port acct)) }
    {
        let address = auth.ip().to_bits();
        if acct.ip().to_bits() != address {
            return Err(HeldFault::Addresses);
        }
        if !self.is_met(address, auth.port(), acct.port()) {
            return Err(HeldFault::Unexpected);
        }
        Ok(address)
    }
}

/// A socket of this process for a descriptor that it was given, and where it is bound.
///
/// It is the same open socket, which keeps what arrives while no process reads it.
pub(crate) fn take_socket(descriptor: RawFd) -> Result<(UdpSocket, SocketAddrV4), HeldFault> {
    match bound_socket(descriptor) {
        Some(taken) => Ok(taken),
        None => Err(HeldFault::NoUdp(descriptor)),
    }
}

fn bound_socket(descriptor: RawFd) -> Option<(UdpSocket, SocketAddrV4)> {
    let own = os::duplicate(descriptor);
    if own < 0 {
        return None;
    }
    // SAFETY: `duplicate` has just opened this descriptor, and nothing else knows it: the socket alone owns and closes it.
    let socket = unsafe { net::UdpSocket::from_raw_fd(own) };
    let SocketAddr::V4(bound) = socket.local_addr().ok()? else {
        return None;
    };
    // The default, which a stream refuses to be given.
    socket.set_multicast_ttl_v4(1).ok()?;
    socket.set_nonblocking(true).ok()?;
    if bound.port() == 0 {
        return None;
    }
    Some((UdpSocket::from_std(socket), bound))
}
