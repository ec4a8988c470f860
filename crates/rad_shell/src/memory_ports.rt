//! Ports over memory.
ghost use Rattle.std.specs.Prelude.{◌≡◌, ◌≤◌, ◌<◌, ◌+◌, [], ◌∷◌, cond, IfErr, IfOk, IfSome, None, Some, map, vec_len};
ghost use Rattle.rad_shell.specs.Memory.{kept_passages, passage};
ghost use Rattle.rad_shell.specs.Passages.{HavePassed, In, Out, came_by};

use crate::ports::{Got, PortFault, Ports, RECEIVED_MAX};
use rad_auth::Door;
use rad_config::MOMENT_MAX;
use std::alloc::{AllocError, Global};
use std::sync::Wait;

/// A datagram that comes in by ports over memory, or that was sent by them.
#[derive(Drop)]
pub struct Datagram {
    /// The turn in which it comes or was sent: how often `wait` was called before.
    pub turn: u64,
    /// The source address, or the one that it was sent to, most significant octet first.
    pub address: u32,
    /// The source port, or the one that it was sent to.
    pub port: u16,
    /// The server's port that it comes to, or was sent from.
    pub door: Door,
    /// When it comes, in milliseconds, at most `MOMENT_MAX`; of one that was sent, 0.
    pub moment: u64,
    pub octets: Vec<u8>,
}

/// What passed ports over memory.
#[derive(Drop)]
pub enum Passed {
    /// A datagram that was received.
    In(Datagram),
    /// A datagram that was sent.
    Out(Datagram),
    /// No datagram waited.
    Empty,
    /// The moment that the clock told.
    Now(u64),
    /// A call failed.
    Fault,
}

/// Ports over memory: datagrams that are to be received, and what has passed. They serve tests.
#[derive(Drop)]
pub struct MemoryPorts {
    alloc: Global,
    // In the order in which they come.
    coming: Vec<Datagram>,
    // How many of them were received.
    received: usize,
    // None once memory was refused for it.
    passed: Option<Vec<Passed>>,
    turns: u64,
    pauses: u64,
    calls: u64,
    failing: u64,
    faults: u64,
    clock: Option<u64>,
}

impl MemoryPorts {
    /// Ports to which nothing comes yet.
    pub fn new(alloc: Global) -> MemoryPorts
        ensures { kept_passages result.passed ≡ Some [] }
    {
        MemoryPorts {
            alloc,
            coming: Vec::new(alloc),
            received: 0,
            passed: Some(Vec::new(alloc)),
            turns: 0,
            pauses: 0,
            calls: 0,
            failing: 0,
            faults: 0,
            clock: None,
        }
    }

    /// Lets a datagram come, after those before it and in its turn.
    ///
    /// If memory is refused, it doesn't come.
    pub fn arrive(&mut self, datagram: Datagram) -> Result<(), AllocError> {
        self.coming.push(datagram)?;
        Ok(())
    }

    /// Lets the call of `receive` or `send` with this number fail, once. They are counted together, from 1.
    pub fn fail_at(&mut self, call: u64) {
        self.failing = call;
    }

    /// Sets the clock to a moment, in milliseconds. Before that there is none.
    pub fn set_clock(&mut self, moment: u64) {
        self.clock = Some(moment);
    }

    /// What has passed, in order; of nothing, once memory was refused for it.
    pub fn passed(&self) -> &[Passed]
        ensures { IfSome (kept_passages self.now.passed) (λ told. told ≡ map passage result.now) }
    {
        match &self.passed {
            Some(passed) => passed,
            None => &[],
        }
    }

    /// How often `wait` was called.
    pub fn turns(&self) -> u64 {
        self.turns
    }

    /// How often `pause` was called.
    pub fn pauses(&self) -> u64 {
        self.pauses
    }

    // The next datagram, if its turn has come.
    fn next(&self) -> Option<&Datagram>
        ensures { IfSome result (λ _. self.now.received < vec_len self.now.coming) }
    {
        let next = self.coming.get(self.received)?;
        if next.turn <= self.turns {
            Some(next)
        } else {
            None
        }
    }

    // Notes what passed, unless memory is or was refused for it.
    fn note(&mut self, one: Result<Passed, AllocError>)
        ensures noted { IfOk one (λ one. HavePassed (passage one ∷ [])
            (kept_passages self.old.passed) (kept_passages self.new.passed)) }
        ensures refused { IfErr one (λ _. self.new.passed ≡ None) }
        ensures faults { self.new.faults ≡ self.old.faults }
    {
        let is_noted = match (&mut self.passed, one) {
            (Some(passed), Ok(one)) => passed.push(one).is_ok(),
            _ => false,
        };
        if !is_noted {
            self.passed = None;
        }
    }

    // Counts a call of `receive` or `send`, and its failure if it is to fail. At the last count nothing fails.
    fn fails(&mut self) -> bool
        ensures passed { self.new.passed ≡ self.old.passed }
        ensures faults { self.new.faults ≡ self.old.faults + cond result 1 0 }
    {
        self.calls = self.calls.saturating_add(1);
        if self.calls != self.failing || self.faults == u64::MAX {
            return false;
        }
        self.faults += 1;
        true
    }
}

impl Ports for MemoryPorts {
    ghost failures = { λ ports. ports.faults };

    ghost reported = { λ ports. ports.faults };

    ghost passed = { λ ports. kept_passages ports.passed };

    fn wait<R: Wait>(&mut self, _rt: &R) {
        self.turns = self.turns.saturating_add(1);
    }

    // Nothing waits here.
    fn pause(&mut self) {
        self.pauses = self.pauses.saturating_add(1);
    }

    fn receive(&mut self, buffer: &mut [u8; RECEIVED_MAX]) -> Result<Option<Got>, PortFault> {
        if self.fails() {
            self.note(Ok(Passed::Fault));
            return Err(PortFault);
        }
        let Some(next) = self.next() else {
            self.note(Ok(Passed::Empty));
            return Ok(None);
        };
        let len = next.octets.len().min(RECEIVED_MAX);
        buffer[..len].copy_from_slice(&next.octets[..len]);
        let got = Got {
            source: next.address,
            port: next.port,
            door: next.door,
            len,
            moment: next.moment.min(MOMENT_MAX),
        };
        let one = came(self.alloc, next.turn, &got, &buffer[..len]);
        self.received += 1;
        self.note(one);
        Ok(Some(got))
    }

    // A datagram for which memory is refused is lost, as one on a network may be, and nobody can tell any more what has passed.
    fn send(
        &mut self,
        door: Door,
        address: u32,
        port: u16,
        octets: &[u8],
    ) -> Result<(), PortFault> {
        if self.fails() {
            self.note(Ok(Passed::Fault));
            return Err(PortFault);
        }
        let one = match octets.to_vec(self.alloc) {
            Ok(octets) => Ok(Passed::Out(Datagram {
                turn: self.turns,
                address,
                port,
                door,
                moment: 0,
                octets,
            })),
            Err(error) => Err(error),
        };
        self.note(one);
        Ok(())
    }

    fn faults(&self) -> u64 {
        self.faults
    }

    fn moment(&mut self) -> Option<u64> {
        let moment = self.clock?.min(MOMENT_MAX);
        self.note(Ok(Passed::Now(moment)));
        Some(moment)
    }
}

// A datagram that was received in a turn, with these octets.
fn came(alloc: Global, turn: u64, got: &Got, octets: &[u8]) -> Result<Passed, AllocError>
    ensures { IfOk result (λ one. passage one ≡ In (came_by got.now octets.now)) }
{
    let octets = octets.to_vec(alloc)?;
    Ok(Passed::In(Datagram {
        turn,
        address: got.source,
        port: got.port,
        door: got.door,
        moment: got.moment,
        octets,
    }))
}
