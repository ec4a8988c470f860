//! Ports: where datagrams come in and go out.
ghost use Rattle.std.specs.Prelude.{◌≡◌, ◌≤◌, ◌<◌, ◌+◌, ℕ, [], List, Option, IfErr, IfOk, IfSome};
ghost use Rattle.rad_config.specs.Spans.{moment_max};
ghost use Rattle.rad_shell.specs.Passages.{HavePassed, Passage, clock_told, received, reported_by, sent};
ghost use Rattle.rad_shell.specs.Serving.{IsReceived};

use rad_auth::Door;
use std::sync::Wait;
use thiserror::Error;

/// The most octets of a datagram that are received: a packet has no more (RFC 2865, section 3), and what follows is padding.
pub const RECEIVED_MAX: usize = 4096;

/// A datagram that was received. Its octets are in the buffer that was lent for them.
#[derive(Clone, Copy, Debug, PartialEq, Eq)]
pub struct Got {
    /// The source address, most significant octet first.
    pub source: u32,
    /// The source port.
    pub port: u16,
    /// The server's port that it came to.
    pub door: Door,
    /// How many octets of the buffer are the datagram's, at most `RECEIVED_MAX`.
    pub len: usize,
    /// When it came, in milliseconds, at most `MOMENT_MAX`.
    pub moment: u64,
}

/// A failure of a port, which was counted.
#[derive(Clone, Copy, Debug, PartialEq, Eq, Error)]
#[error("a port failed")]
pub struct PortFault;

/// A call of a port that failed, for whoever looks after the server.
#[derive(Clone, Copy, Debug, PartialEq, Eq)]
pub struct FailedCall {
    pub call: PortCall,
    /// Where a datagram was to go: an IPv4 address, most significant octet first, and a port.
    pub destination: Option<(u32, u16)>,
    /// The system's error number.
    pub number: Option<i32>,
}

/// What a port was called for.
#[derive(Clone, Copy, Debug, PartialEq, Eq)]
pub enum PortCall {
    Wait,
    Receive(Door),
    Send(Door),
}

/// The authentication port and the accounting port of a server.
///
/// Who implements it counts the failures. A failure that concerns one datagram alone, such as a destination that can't be reached,
/// may be counted without being reported: the datagram is lost, as on any network. When the count is 2^64 - 1 it stays, and nothing
/// is reported any more. A datagram is received into a buffer that the caller lends, so that receiving takes no memory.
///
/// Contracts see what passed, in this order: each datagram that was received, or that none waited; each that was handed over to be
/// sent; each moment that the clock told; each fault that was reported. Ports that can't tell say `None`. A caller can't see which
/// ports it has.
pub trait Ports {
    /// The failures so far.
    ghost failures: { Self → ℕ };

    /// How many of them were reported.
    ghost reported: { Self → ℕ };

    /// What passed so far, if the ports can tell.
    ghost passed: { Self → Option (List Passage) };

    /// Waits until a datagram may have come, or for a second at most.
    fn wait<R: Wait>(&mut self, rt: &R)
        ensures passed { HavePassed [] (passed self.old) (passed self.new) }
        ensures reported { reported self.new ≡ reported self.old }
        ensures counted { failures self.old ≤ failures self.new };

    /// Waits for a second, whatever comes: after a turn that was refused memory, which more datagrams wouldn't help. Ports needn't.
    fn pause(&mut self)
        ensures passed { HavePassed [] (passed self.old) (passed self.new) }
        ensures reported { reported self.new ≡ reported self.old }
        ensures counted { failures self.old ≤ failures self.new }
    {}

    /// Receives the next datagram, if one waits: its first 4,096 octets go to the beginning of the buffer.
    ///
    /// Returns `PortFault` only if a failure was counted in the call.
    fn receive(&mut self, buffer: &mut [u8; RECEIVED_MAX]) -> Result<Option<Got>, PortFault>
        ensures received { IfOk result (λ got. IfSome got IsReceived) }
        ensures passed { HavePassed (received result buffer.new)
            (passed self.old) (passed self.new) }
        ensures reported { reported self.new ≡ reported self.old + reported_by result }
        ensures counted { failures self.old ≤ failures self.new }
        ensures fault { IfErr result (λ _. failures self.old < failures self.new) };

    /// Sends octets from one of the server's ports to an address and a port.
    ///
    /// Returns `PortFault` only if a failure was counted in the call.
    fn send(&mut self, door: Door, address: u32, port: u16, octets: &[u8]) -> Result<(), PortFault>
        ensures passed { HavePassed
            (sent result
            (record { door = door; address = address; port = port; octets = octets.now }))
            (passed self.old) (passed self.new) }
        ensures reported { reported self.new ≡ reported self.old + reported_by result }
        ensures counted { failures self.old ≤ failures self.new }
        ensures fault { IfErr result (λ _. failures self.old < failures self.new) };

    /// The failures so far.
    fn faults(&self) -> u64
        ensures { result ≡ failures self.now };

    /// The failure that was counted last. Ports needn't tell.
    fn last_failure(&self) -> Option<FailedCall> {
        None
    }

    /// The wall time now, in milliseconds since 1970; 0 where the ports have none.
    fn wall(&self) -> u64 {
        0
    }

    /// The moment now, in milliseconds, at most `MOMENT_MAX`, by the clock that tells when datagrams come. Ports needn't have one.
    fn moment(&mut self) -> Option<u64>
        ensures moment { IfSome result (λ moment. moment ≤ moment_max) }
        ensures passed { HavePassed (clock_told result) (passed self.old) (passed self.new) }
        ensures reported { reported self.new ≡ reported self.old }
        ensures counted { failures self.old ≤ failures self.new }
    {
        None
    }
}
