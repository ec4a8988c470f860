//! What a failed call on a socket means.
ghost use Rattle.std.specs.Prelude.{◌≡◌};
ghost use Rattle.std.specs.IoError.{raw_os_error};
ghost use Rattle.rad_serve.specs.Failures.{failure_of_receive, failure_of_send, meaning};

use std::io;

/// What a failed call on a UDP socket means.
#[derive(Clone, Copy, Debug, PartialEq, Eq)]
pub enum Failure {
    /// No datagram waits, or the socket's queue has no room for one more.
    WouldBlock,
    /// One datagram is lost, as any may be on a network. The socket can be used as before.
    Datagram,
    /// The socket can't be used.
    Socket,
}

/// What the error of a call that receives means.
///
/// Choice: docs/DECISIONS.md, "No datagram ends the server".
#[tactic(auto, unfolding(crate::specs::Failures::meaning))]
pub fn receive_failure(error: &io::Error) -> Failure
    ensures { result ≡ meaning failure_of_receive (raw_os_error error.now) }
{
    match error.raw_os_error() {
        Some(number) if number >= 0 => failure_of_receive(number.unsigned_abs()),
        _ => Failure::Socket,
    }
}

/// What the error of a call that sends means.
///
/// Choice: docs/DECISIONS.md, "No datagram ends the server".
#[tactic(auto, unfolding(crate::specs::Failures::meaning))]
pub fn send_failure(error: &io::Error) -> Failure
    ensures { result ≡ meaning failure_of_send (raw_os_error error.now) }
{
    match error.raw_os_error() {
        Some(number) if number >= 0 => failure_of_send(number.unsigned_abs()),
        _ => Failure::Socket,
    }
}

// What an error number of Linux means to a call that receives.
#[tactic(auto, unfolding(crate::specs::Failures::failure_of_receive))]
fn failure_of_receive(number: u32) -> Failure
    ensures { result ≡ failure_of_receive number }
{
    match number {
        EAGAIN => Failure::WouldBlock,
        EINTR
        | ENOMEM
        | ENONET
        | ENETDOWN
        | ENETUNREACH
        | ENOBUFS
        | ECONNREFUSED
        | EHOSTDOWN
        | EHOSTUNREACH => Failure::Datagram,
        _ => Failure::Socket,
    }
}

// What it means to a call that sends, which may also fail for where it sends to.
#[tactic(auto, unfolding(crate::specs::Failures::failure_of_send))]
fn failure_of_send(number: u32) -> Failure
    ensures { result ≡ failure_of_send number }
{
    match number {
        EPERM | EACCES | EINVAL | EMSGSIZE => Failure::Datagram,
        _ => failure_of_receive(number),
    }
}

const EPERM: u32 = 1;

const EINTR: u32 = 4;

const EAGAIN: u32 = 11;

const ENOMEM: u32 = 12;

const EACCES: u32 = 13;

const EINVAL: u32 = 22;

const ENONET: u32 = 64;

const EMSGSIZE: u32 = 90;

const ENETDOWN: u32 = 100;

const ENETUNREACH: u32 = 101;

const ENOBUFS: u32 = 105;

const ECONNREFUSED: u32 = 111;

const EHOSTDOWN: u32 = 112;

const EHOSTUNREACH: u32 = 113;
