//! A client of 127.0.0.1, and what it sends.

use std::io;
use std::net::{Net, SocketAddr, UdpSocket};
use std::time::Duration;

/// The client 127.0.0.1, a pool of one address, and its user.
pub(crate) const CONFIGURATION: &str = r#"
[[client]]
address = "127.0.0.1"
secret = "xyzzy5461"

[[pool]]
name = "one"
first = "10.0.0.1"
last = "10.0.0.1"

[[user]]
name = "nemo"
password = "arctangent"
pool = "one"
service = 2
protocol = 1
"#;

/// A datagram that is too short for a packet.
pub(crate) const SHORT: &[u8; 19] = b"nineteen octets of.";

/// A socket on any free port, whose calls wait for 5 seconds at most.
pub(crate) fn client<R: Net>(rt: &R) -> io::Result<UdpSocket> {
    let client = UdpSocket::bind(rt, "127.0.0.1:0")?;
    client.set_read_timeout(Some(Duration::from_secs(5)))?;
    Ok(client)
}

/// Sends octets to a port, and says whether they went out whole.
pub(crate) fn sends(client: &UdpSocket, port: u16, octets: &[u8]) -> bool {
    let server = SocketAddr::from(([127, 0, 0, 1], port));
    match client.send_to(octets, server) {
        Ok(count) => count == octets.len(),
        Err(_) => false,
    }
}

/// Whether the next datagram comes from this port, and begins and ends with these octets.
pub(crate) fn gets(client: &UdpSocket, port: u16, begin: &[u8], end: &[u8]) -> bool {
    let server = SocketAddr::from(([127, 0, 0, 1], port));
    let mut buffer = [0; 4096];
    match client.recv_from(&mut buffer) {
        Ok((len, from)) => {
            from == server && buffer[..len].starts_with(begin) && buffer[..len].ends_with(end)
        }
        Err(_) => false,
    }
}
