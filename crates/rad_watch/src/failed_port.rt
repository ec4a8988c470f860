//! A port that failed, as a text.

use rad_auth::Door;
use rad_shell::{FailedCall, PortCall};
use std::net::{Ipv4Addr, SocketAddrV4};
use std::{fmt, io};

/// A port that failed, by the call that did: the port, where a datagram was to go, and the system's reason.
#[derive(Clone, Copy, Debug, PartialEq, Eq)]
pub struct FailedPort(pub FailedCall);

impl fmt::Display for FailedPort {
    fn fmt<W: fmt::Write>(&self, f: &mut fmt::Formatter<W>) -> fmt::Result {
        let FailedCall {
            call,
            destination,
            number,
        } = self.0;
        f.write_str(name_of(call))?;
        if let Some((address, port)) = destination {
            let to = SocketAddrV4::new(Ipv4Addr::from_bits(address), port);
            write!(f, " to {to}")?;
        }
        match number {
            Some(number) => write!(f, ": {}", io::Error::from_raw_os_error(number)),
            None => f.write_str(": the system gives no reason"),
        }
    }
}

fn name_of(call: PortCall) -> &'static str {
    match call {
        PortCall::Wait => "both ports",
        PortCall::Receive(Door::Auth) | PortCall::Send(Door::Auth) => "authentication port",
        PortCall::Receive(Door::Acct) | PortCall::Send(Door::Acct) => "accounting port",
    }
}
