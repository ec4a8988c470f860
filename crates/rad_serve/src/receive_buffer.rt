//! The size of a socket's receive buffer, for which `std` has no call.

use libc::net::{SO_RCVBUF, SOL_SOCKET, getsockopt, setsockopt};
use mio::net::UdpSocket;
use std::os::fd::AsRawFd;

/// How many octets of datagrams a socket is asked to hold: some thousands of requests, where the usual default holds 256 small
/// ones.
const RECEIVE_BUFFER: i32 = 4_000_000;

/// Asks for a large receive buffer. The system gives at most `net.core.rmem_max`, and a refusal leaves the buffer as it was.
pub(crate) fn ask_for_room(socket: &UdpSocket) {
    let mut value = [0; 16];
    value[..4].copy_from_slice(&RECEIVE_BUFFER.to_ne_bytes());
    // SAFETY: the system reads the 4 octets that the length says, of the 16 of `value`, and keeps no pointer to them.
    let _status = unsafe { setsockopt(socket.as_raw_fd(), SOL_SOCKET, SO_RCVBUF, &value, 4) };
}

/// Whether the receive buffer has that size already, of which the system tells the double. Whoever made the socket may have had
/// leave for more than the system gives here, which to ask would then take away.
pub(crate) fn has_room(socket: &UdpSocket) -> bool {
    let mut value = [0; 16];
    let mut len = 16;
    // SAFETY: the system writes at most the 16 octets that `len` says, which `value` has, and keeps no pointer to either.
    let _status = unsafe {
        getsockopt(
            socket.as_raw_fd(),
            SOL_SOCKET,
            SO_RCVBUF,
            &mut value,
            &mut len,
        )
    };
    i32::from_ne_bytes([value[0], value[1], value[2], value[3]]) >= 2 * RECEIVE_BUFFER
}
