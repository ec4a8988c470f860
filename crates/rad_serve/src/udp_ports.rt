//! The authentication port and the accounting port as UDP sockets.
ghost use Rattle.std.specs.Prelude.{◌≡◌, ◌≤◌, ◌<◌, ◌+◌, IfErr, IfOk, IfSome, IsTrue, None, Some, cond, false};
ghost use Rattle.std.specs.IoError.{raw_os_error};
ghost use Rattle.rad_config.specs.Spans.{moment_max};
ghost use Rattle.rad_serve.specs.declared.failure.Failure.TheVariants.{Socket};
ghost use Rattle.rad_serve.specs.Asking.{with_one};
ghost use Rattle.rad_serve.specs.Failures.{failures_max};
ghost use Rattle.rad_shell.specs.Passages.{reported_by};
ghost use Rattle.rad_shell.specs.Serving.{IsReceived};

use crate::asking::Asking;
use crate::failure::{Failure, receive_failure, send_failure};
use crate::held::{ACCT_DESCRIPTOR, AUTH_DESCRIPTOR, Expected, HeldFault, take_socket};
use crate::moments::{Moments, wall};
use crate::receive_buffer::{ask_for_room, has_room};
use crate::unbound::Unbound;
use mio::net::UdpSocket;
use mio::{Events, Interest, Poll, Token};
use rad_auth::Door;
use rad_shell::{FailedCall, Got, PortCall, PortFault, Ports, RECEIVED_MAX};
use std::alloc::{AllocError, AllocGlobal};
use std::io;
use std::net::{Ipv4Addr, Net, SocketAddr, SocketAddrV4};
use std::os::fd::RawFd;
use std::sync::Wait;
use std::time::{Clock, Duration};
use thiserror::Error;

/// The events of the two sockets.
const AUTH: Token = Token(0);

const ACCT: Token = Token(1);

/// How long a turn waits at most.
const WAIT_SECONDS: u64 = 1;

/// Why there are no ports.
#[derive(Clone, Copy, Debug, Error)]
pub enum BindFault {
    /// Memory was refused.
    #[error("out of memory")]
    NoMemory,
    /// A socket can't be made or bound: the port is taken or not allowed, or the address isn't this machine's.
    #[error("bind failed")]
    Bind(Unbound),
    /// Sockets that the process was given can't be served.
    #[error(transparent)]
    Held(HeldFault),
}

impl From<AllocError> for BindFault {
    fn from(_error: AllocError) -> BindFault {
        BindFault::NoMemory
    }
}

impl From<HeldFault> for BindFault {
    fn from(fault: HeldFault) -> BindFault {
        BindFault::Held(fault)
    }
}

impl From<io::Error> for BindFault {
    fn from(error: io::Error) -> BindFault {
        BindFault::Bind(Unbound { at: None, error })
    }
}

/// The two UDP sockets of a server, and the clock that tells when a datagram came.
///
/// `Asking` says which socket is asked for a datagram. Each failed call is counted, except one that only would have to wait; those
/// that concern one datagram aren't reported as faults (`receive_failure`, `send_failure`).
#[derive(Drop)]
pub struct UdpPorts<'r, C> {
    clock: &'r C,
    moments: Moments,
    poll: Poll,
    events: Events,
    auth: UdpSocket,
    acct: UdpSocket,
    address: u32,
    auth_port: u16,
    acct_port: u16,
    asking: Asking,
    failures: u64,
    // How many of them meant that a socket can't be used.
    reported: u64,
    // The last that was counted.
    last_failure: Option<FailedCall>,
    ghost counted: { reported ≤ failures },
}

impl<'r, C: Clock> UdpPorts<'r, C> {
    /// Binds the two ports of an address, most significant octet first. Port 0 is any free one. Moments are those of the system's
    /// clock.
    pub fn bind(rt: &'r C, address: u32, auth: u16, acct: u16) -> Result<UdpPorts<'r, C>, BindFault>
    where
        C: Net + AllocGlobal,
    {
        let events = Events::with_capacity(rt.alloc(), 2)?;
        let poll = Poll::new(rt)?;
        let auth = bind_socket(rt, &poll, AUTH, address, auth)?;
        let acct = bind_socket(rt, &poll, ACCT, address, acct)?;
        Ok(UdpPorts::over(rt, (poll, events), address, auth, acct))
    }

    /// Takes over the two sockets that the process was given, in place of binding any. What has arrived since they were bound is
    /// still received. Moments are those of the system's clock.
    ///
    /// `Held`: one of them is no bound UDP socket of IPv4, or they have another address or port than is expected.
    pub fn take(rt: &'r C, expected: Expected) -> Result<UdpPorts<'r, C>, BindFault>
    where
        C: Net + AllocGlobal,
    {
        let events = Events::with_capacity(rt.alloc(), 2)?;
        let poll = Poll::new(rt)?;
        let (auth, auth_at) = held_socket(&poll, AUTH, AUTH_DESCRIPTOR)?;
        let (acct, acct_at) = held_socket(&poll, ACCT, ACCT_DESCRIPTOR)?;
        let address = expected.address_of(auth_at, acct_at)?;
        let (auth, acct) = ((auth, auth_at.port()), (acct, acct_at.port()));
        Ok(UdpPorts::over(rt, (poll, events), address, auth, acct))
    }

    // Two sockets of which the poll tells, that are bound to an address, each with its port.
    fn over(
        clock: &'r C,
        (poll, events): (Poll, Events),
        address: u32,
        (auth, auth_port): (UdpSocket, u16),
        (acct, acct_port): (UdpSocket, u16),
    ) -> UdpPorts<'r, C> {
        UdpPorts {
            clock,
            moments: Moments::of_system(),
            poll,
            events,
            auth,
            acct,
            address,
            auth_port,
            acct_port,
            asking: Asking::new(),
            failures: 0,
            reported: 0,
            last_failure: None,
        }
    }

    /// The address that the sockets are bound to, most significant octet first.
    pub fn address(&self) -> u32 {
        self.address
    }

    /// The port that a socket is bound to, which is never 0.
    pub fn port(&self, door: Door) -> u16 {
        match door {
            Door::Auth => self.auth_port,
            Door::Acct => self.acct_port,
        }
    }

    fn socket(&self, door: Door) -> &UdpSocket {
        match door {
            Door::Auth => &self.auth,
            Door::Acct => &self.acct,
        }
    }

    // Counts a failure, up to the last count, and remembers it. Whether it was counted.
    fn count(&mut self, failed: FailedCall) -> bool
        ensures counted { self.new.failures ≡ self.old.failures + cond result 1 0 }
        ensures few { IsTrue result → self.old.failures < failures_max }
        ensures last { (result ≡ false) → self.old.failures ≡ failures_max }
        ensures reported { self.new.reported ≡ self.old.reported }
        ensures remembered { IsTrue result → self.new.last_failure ≡ Some failed }
    {
        if self.failures == u64::MAX {
            return false;
        }
        self.failures += 1;
        self.last_failure = Some(failed);
        true
    }

    // Counts a failed call, and reports it if the socket can't be used.
    fn judge(&mut self, failure: Failure, failed: FailedCall) -> Result<(), PortFault>
        ensures cause { IfErr result (λ _. failure ≡ Socket) }
        ensures remembered { IfErr result (λ _. self.new.last_failure ≡ Some failed) }
        ensures told { IfOk result (λ _. failure ≡ Socket → self.old.failures ≡ failures_max) }
        ensures reported { self.new.reported ≡ self.old.reported + reported_by result }
        ensures counted { self.old.failures ≤ self.new.failures }
        ensures fault { IfErr result (λ _. self.old.failures < self.new.failures) }
    {
        if failure == Failure::WouldBlock || !self.count(failed) || failure == Failure::Datagram {
            return Ok(());
        }
        self.reported += 1;
        Err(PortFault)
    }

    /// Tells moments by this clock from now on.
    pub fn go_by(&mut self, moments: Moments)
        ensures { self.new.moments ≡ moments }
    {
        self.moments = moments;
    }

    // The moment, in milliseconds.
    fn now(&self) -> u64
        ensures { result ≤ moment_max }
    {
        self.moments.now(self.clock)
    }

    // Receives from one socket, if it is marked and has a datagram.
    fn receive_at(
        &mut self,
        door: Door,
        buffer: &mut [u8; RECEIVED_MAX],
    ) -> Result<Option<Got>, PortFault>
        ensures received { IfOk result (λ got. IfSome got IsReceived) }
        ensures noted { IfOk result (λ got.
            IfSome got (λ _. self.new.asking ≡ with_one door self.old.asking)) }
        ensures reported { self.new.reported ≡ self.old.reported + reported_by result }
        ensures counted { self.old.failures ≤ self.new.failures }
        ensures fault { IfErr result (λ _. self.old.failures < self.new.failures) }
    {
        if !self.asking.may_have(door) {
            return Ok(None);
        }
        match self.socket(door).recv_from(buffer) {
            Ok((len, SocketAddr::V4(source))) => {
                self.asking.count(door);
                Ok(Some(Got {
                    source: source.ip().to_bits(),
                    port: source.port(),
                    door,
                    len,
                    moment: self.now(),
                }))
            }
            Ok(_) => Ok(None),
            Err(error) => {
                let failure = receive_failure(&error);
                if failure == Failure::WouldBlock {
                    self.asking.mark(door, false);
                }
                self.judge(failure, failed_call(PortCall::Receive(door), None, error))?;
                Ok(None)
            }
        }
    }

    // Waits so long at most for events of the sockets, and marks those that have any. If the wait fails nobody knows what has come,
    // so both are marked.
    fn wait_for_events(&mut self, longest: Duration)
        ensures reported { self.new.reported ≡ self.old.reported }
        ensures counted { self.old.failures ≤ self.new.failures }
    {
        if let Err(error) = self.poll.poll(&mut self.events, Some(longest)) {
            self.count(failed_call(PortCall::Wait, None, error));
            self.asking.mark(Door::Auth, true);
            self.asking.mark(Door::Acct, true);
            self.clock.sleep(longest);
            return;
        }
        for event in &self.events {
            let door = if event.token() == AUTH {
                Door::Auth
            } else {
                Door::Acct
            };
            self.asking.mark(door, true);
        }
    }
}

impl<'r, C: Clock> Ports for UdpPorts<'r, C> {
    ghost failures = { λ ports. ports.failures };

    ghost reported = { λ ports. ports.reported };

    // The system knows what passed, and no memory here.
    ghost passed = { λ _. None };

    fn wait<R: Wait>(&mut self, _rt: &R) {
        let seconds = if self.asking.may_be_left() {
            0
        } else {
            WAIT_SECONDS
        };
        self.asking.begin();
        self.wait_for_events(Duration::from_secs(seconds));
    }

    fn pause(&mut self) {
        self.clock.sleep(Duration::from_secs(WAIT_SECONDS));
    }

    fn receive(&mut self, buffer: &mut [u8; RECEIVED_MAX]) -> Result<Option<Got>, PortFault> {
        let [first, second] = self.asking.order();
        if let Some(got) = self.receive_at(first, buffer)? {
            return Ok(Some(got));
        }
        self.receive_at(second, buffer)
    }

    fn send(
        &mut self,
        door: Door,
        address: u32,
        port: u16,
        octets: &[u8],
    ) -> Result<(), PortFault> {
        let to = SocketAddrV4::new(Ipv4Addr::from_bits(address), port);
        match self.socket(door).send_to(octets, SocketAddr::V4(to)) {
            Ok(_) => Ok(()),
            Err(error) => self.judge(
                send_failure(&error),
                failed_call(PortCall::Send(door), Some((address, port)), error),
            ),
        }
    }

    fn faults(&self) -> u64 {
        self.failures
    }

    fn last_failure(&self) -> Option<FailedCall>
        ensures { result ≡ self.now.last_failure }
    {
        self.last_failure
    }

    fn wall(&self) -> u64 {
        wall(self.clock)
    }

    fn moment(&mut self) -> Option<u64> {
        Some(self.now())
    }
}

// A call that failed with this error.
fn failed_call(call: PortCall, destination: Option<(u32, u16)>, error: io::Error) -> FailedCall
    ensures call { result.call ≡ call }
    ensures destination { result.destination ≡ destination }
    ensures number { result.number ≡ raw_os_error error }
{
    FailedCall {
        call,
        destination,
        number: error.raw_os_error(),
    }
}

// A socket that is bound to an address and a port, of whose datagrams the poll tells, and its port.
fn bind_socket<R: Net>(
    rt: &R,
    poll: &Poll,
    token: Token,
    address: u32,
    port: u16,
) -> Result<(UdpSocket, u16), BindFault> {
    let to = SocketAddrV4::new(Ipv4Addr::from_bits(address), port);
    match bound_socket(rt, poll, token, to) {
        Ok(bound) => Ok(bound),
        Err(error) => Err(BindFault::Bind(Unbound {
            at: Some((address, port)),
            error,
        })),
    }
}

fn bound_socket<R: Net>(
    rt: &R,
    poll: &Poll,
    token: Token,
    to: SocketAddrV4,
) -> io::Result<(UdpSocket, u16)> {
    let mut socket = UdpSocket::bind(rt, SocketAddr::V4(to))?;
    poll.registry()
        .register(&mut socket, token, Interest::READABLE)?;
    ask_for_room(&socket);
    let port = socket.local_addr()?.port();
    Ok((socket, port))
}

// A socket that the process was given, of whose datagrams the poll tells, and where it is bound.
fn held_socket(
    poll: &Poll,
    token: Token,
    descriptor: RawFd,
) -> Result<(UdpSocket, SocketAddrV4), BindFault> {
    let (mut socket, bound) = take_socket(descriptor)?;
    poll.registry()
        .register(&mut socket, token, Interest::READABLE)?;
    if !has_room(&socket) {
        ask_for_room(&socket);
    }
    Ok((socket, bound))
}
