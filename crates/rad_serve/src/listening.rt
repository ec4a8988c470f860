//! The ports on which a server listens.

use crate::moments::Moments;
use crate::options::{Options, Sockets};
use crate::serve_error::ServeError;
use crate::udp_ports::UdpPorts;
use rad_auth::Door;
use std::alloc::AllocGlobal;
use std::net::{Ipv4Addr, Net};
use std::time::Clock;

/// Binds the ports, and lets go of them. Those that are held are judged when they are taken over.
///
/// A start that would fail for them must not begin a generation, or a hundred of them remove what is kept.
pub(crate) fn try_ports<R: Net + Clock + AllocGlobal>(
    rt: &R,
    options: &Options,
) -> Result<(), ServeError> {
    if let Sockets::Bind {
        address,
        auth,
        acct,
    } = options.sockets
    {
        drop(UdpPorts::bind(rt, address, auth, acct)?);
    }
    Ok(())
}

/// Binds the ports, or takes over those that are held, and prints that it listens.
pub(crate) fn listen<'r, R: Net + Clock + Print + AllocGlobal>(
    rt: &'r R,
    options: &Options,
    moments: Moments,
) -> Result<UdpPorts<'r, R>, ServeError> {
    let mut ports = match options.sockets {
        Sockets::Bind {
            address,
            auth,
            acct,
        } => UdpPorts::bind(rt, address, auth, acct)?,
        Sockets::Held(expected) => UdpPorts::take(rt, expected)?,
    };
    ports.go_by(moments);
    print_listening(rt, &ports);
    Ok(ports)
}

fn print_listening<R: Print, C: Clock>(rt: &R, ports: &UdpPorts<C>) {
    let address = Ipv4Addr::from_bits(ports.address());
    let (auth, acct) = (ports.port(Door::Auth), ports.port(Door::Acct));
    let _ = println!(rt; "listening {address} {auth} {acct}");
}
