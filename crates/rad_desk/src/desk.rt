//! The desk.
ghost use Rattle.std.specs.Prelude.{◌≡◌, ◌≢◌, ◌↔◌, ◌≤◌, vec_len, Err, IfErr, IsTrue, OnErr, OnOk, IfOk};
ghost use Rattle.rad_auth.specs.Admission.{IsAdmitted};
ghost use Rattle.rad_config.specs.Spans.{moment_max};
ghost use Rattle.rad_server.specs.Runs.{IsHistory};
ghost use Rattle.rad_desk.specs.Desks.{IsBlankOf, passes_max};
ghost use Rattle.rad_desk.specs.Passes.{AddsReceipt, AreNew};
ghost use Rattle.rad_desk.specs.Settlements.{Agrees, Disagrees, receipt_count};
ghost use Rattle.rad_desk.specs.declared.mismatch.Mismatch.{Mismatch};

use crate::locked::{Locked, Unlocked};
use crate::mismatch::Mismatch;
use crate::opened::Opened;
use crate::pass::Pass;
use crate::settling::{Closed, compare};
use rad_auth::Request;
use rad_packet::Octets;
use rad_server::{Ask, Prepared, Server};
use std::alloc::{AllocError, Global};
use std::sync::ledger::{Blank, Share};
use std::sync::{Mutex, Wait};

/// The most passes of a desk.
pub const PASSES_MAX: u64 = 8;

/// One server that many threads ask, each with a pass.
#[derive(Drop)]
pub struct Desk<'c, L: Opened> {
    // The server as it was when the desk opened: beside the lock, so that asking reads its configuration without the lock.
    opening: Server<'c>,
    lock: Mutex<Locked<'c, L>>,
    ghost opened: { opening ≡ L.opening },
}

impl<'c, L: Opened> Desk<'c, L> {
    /// A desk over a copy of the server, and its passes, at most `PASSES_MAX`.
    ///
    /// The blank has a part for each pass, and `L` names it and the server: call this in a function that is generic over `L`, with
    /// `Brand` for `L`. If memory is refused, the blank is gone.
    pub fn open(
        alloc: Global,
        blank: Blank,
        server: &Server<'c>,
        passes: u64,
    ) -> Result<(Desk<'c, L>, Vec<Pass<L>>), AllocError>
        requires passes { (1 ≤ passes) × (passes ≤ passes_max) }
        requires blank { IsBlankOf blank.name blank.parts L.name L.parts passes }
        requires opening { server.now ≡ L.opening }
        ensures { IfOk result (λ opened. AreNew passes opened.1.items) }
    {
        let opening = server.copy()?;
        let copy = server.copy()?;
        let (total, mut rest) = blank.open::<L>();
        let all = split(alloc, &mut rest, passes)?;
        let locked = Locked::new(copy, Vec::new(alloc), Vec::new(alloc), total, rest);
        let lock = Mutex::new(locked);
        Ok((Desk { opening, lock }, all))
    }

    /// Asks the server once, and keeps the receipt in the pass.
    ///
    /// The request was admitted with the clients of the server's configuration. The moment is in milliseconds, at most
    /// `MOMENT_MAX`. The call may wait for other threads. If memory is refused, the pass is unchanged, and so is the server, as
    /// `Locked::exchange` says.
    pub fn ask<R: Wait>(
        &self,
        rt: &R,
        pass: &mut Pass<L>,
        tag: u64,
        request: &Request,
        moment: u64,
        draw: &[u8; 16],
    ) -> Result<(), AllocError>
        requires moment { moment ≤ moment_max }
        requires admitted { IsAdmitted L.opening.configuration.clients request.now }
        ensures asked { OnOk result
            (AddsReceipt tag request.now moment draw.now pass.old pass.new) }
        ensures unchanged { OnErr result (pass.new ≡ pass.old) }
    {
        let octets = Octets::of(pass.alloc(), request.packet.octets())?;
        let prepared = Prepared::of(self.opening.config(), request);
        let ask = Ask::new(tag, &prepared, &octets, moment, draw);
        pass.ask(rt, &self.lock, ask)
    }

    /// Closes the desk, and compares its history with the server given and with the receipts of the passes.
    ///
    /// Mismatches are looked for in their order, and at the first the desk is dropped. `Opening` is returned exactly where the
    /// server given isn't the opening, and `Count` never where all passes are given. The call takes no memory and doesn't wait.
    pub fn close(self, server: &Server, passes: Vec<Pass<L>>) -> Result<Closed<'c>, Mismatch>
        ensures run { IfOk result (λ closed.
            IsHistory server.now closed.history.items closed.server) }
        ensures agreed { IfOk result (λ closed. Agrees closed.history.items passes.items) }
        ensures opening { (result ≡ Err Mismatch.Opening) ↔ (server.now ≢ L.opening) }
        ensures complete { vec_len passes ≡ L.parts → result ≢ Err Mismatch.Count }
    {
        let Desk { opening, lock } = self;
        if !is_same(opening, server) {
            return Err(Mismatch::Opening);
        }
        close(lock.into_inner(), passes)
    }
}

// Whether a server is as another. It is dropped here, so that no second server is alive while the desk is closed.
fn is_same(server: Server, other: &Server) -> bool
    ensures { IsTrue result ↔ (server.entry ≡ other.now) }
{
    server.same(other)
}

// The parts of a share, each in a pass of its own.
fn split<L: Opened>(
    alloc: Global,
    rest: &mut Share<L>,
    passes: u64,
) -> Result<Vec<Pass<L>>, AllocError>
    requires { (rest.old.parts ≡ passes) × (rest.old.amount ≡ 0) }
    ensures new { IfOk result (λ all. AreNew passes all.items) }
    ensures left { OnOk result ((rest.new.parts ≡ 0) × (rest.new.amount ≡ 0)) }
{
    let mut all = Vec::with_capacity(alloc, passes as usize)?;
    for _i in 0..passes {
        all.push(Pass::new(alloc, rest.split_off(1, 0)))?;
    }
    Ok(all)
}

// The server and the history that were under the lock, if they agree with the receipts of the passes.
fn close<'c, L: Opened>(locked: Locked<'c, L>, passes: Vec<Pass<L>>) -> Result<Closed<'c>, Mismatch>
    ensures run { IfOk result (λ closed. IsHistory L.opening closed.history.items closed.server) }
    ensures agreed { IfOk result (λ closed. Agrees closed.history.items passes.items) }
    ensures refused { IfErr result (Disagrees locked.entry.history passes.items) }
    ensures complete { vec_len passes ≡ L.parts → result ≢ Err Mismatch.Count }
{
    let verdict = compare(locked.history(), passes.as_slice());
    let Unlocked {
        history,
        server,
        mut total,
        rest,
        ..
    } = locked.into_parts();
    let mut all = merged(passes, rest);
    total.audit(&mut all);
    verdict?;
    Ok(Closed { server, history })
}

// The shares of all passes in one.
#[tactic(auto, using(crate::proofs::ReceiptLemmas::receipt_count_push))]
fn merged<L: Opened>(mut passes: Vec<Pass<L>>, mut all: Share<L>) -> Share<L>
    requires { (all.parts ≡ 0) × (all.amount ≡ 0) }
    ensures parts { result.parts ≡ vec_len passes }
    ensures amount { result.amount ≡ receipt_count passes.items }
{
    while let Some(pass) = passes.pop() {
        all.merge(pass.into_share());
    }
    all
}
