//! Passes.
ghost use Rattle.std.specs.Prelude.{◌≡◌, [], length, OnErr, OnOk};
ghost use Rattle.rad_desk.specs.Passes.{AddsReceipt};

use crate::locked::Locked;
use crate::opened::Opened;
use crate::receipt::Receipt;
use rad_server::Ask;
use std::alloc::{AllocError, Global};
use std::marker::Model;
use std::sync::ledger::Share;
use std::sync::{Mutex, Wait};

/// What one thread holds while it asks a desk: its receipts, oldest first, and its share of the desk's ledger.
///
/// The share is one part, and its amount is the number of the receipts.
#[derive(Drop)]
pub struct Pass<L: Opened> {
    alloc: Global,
    receipts: Vec<Receipt>,
    share: Share<L>,
}

impl<L: Opened> Model for Pass<L> {
    ghost use Rattle.rad_desk.specs.Passes.{Pass, IsCounted};

    ghost Value = { Pass };

    ghost view = { λ pass. record { receipts = pass.receipts.items; amount = pass.share.amount } };

    ghost invariant = { λ pass. IsCounted pass.share.parts pass.share.amount pass.receipts.items };
}

impl<L: Opened> Pass<L> {
    /// A pass without a receipt.
    pub(crate) fn new(alloc: Global, share: Share<L>) -> Pass<L>
        requires { (share.parts ≡ 1) × (share.amount ≡ 0) }
        ensures { (result.receipts ≡ []) × (result.amount ≡ 0) }
    {
        let receipts = Vec::new(alloc);
        Pass {
            alloc,
            receipts,
            share,
        }
    }

    /// The receipts, oldest first.
    pub fn receipts(&self) -> &[Receipt]
        ensures receipts { result.now ≡ self.now.receipts }
        ensures counted { self.now.amount ≡ length self.now.receipts }
    {
        self.receipts.as_slice()
    }

    /// Where its memory comes from.
    pub(crate) fn alloc(&self) -> Global {
        self.alloc
    }

    /// The share, which counts the receipts.
    pub(crate) fn into_share(self) -> Share<L>
        ensures one { result.parts ≡ 1 }
        ensures counted { result.amount ≡ length self.receipts }
    {
        let Pass { share, .. } = self;
        share
    }

    /// One exchange under the lock, of which the pass keeps a receipt.
    pub(crate) fn ask<'c, R: Wait>(
        &mut self,
        rt: &R,
        lock: &Mutex<Locked<'c, L>>,
        ask: Ask,
    ) -> Result<(), AllocError>
        requires { ask.prepared.now.configuration ≡ L.opening.configuration }
        ensures asked { OnOk result (AddsReceipt ask.entry.tag ask.entry.prepared.now.request
            ask.entry.moment ask.entry.draw.now self.old self.new) }
        ensures unchanged { OnErr result (self.new ≡ self.old) }
    {
        let Pass {
            receipts,
            share,
            ..
        } = self;
        receipts.reserve(1)?;
        let mut locked = lock.lock(rt);
        let receipt = locked.exchange(share, ask)?;
        receipts.push_reserved(receipt);
        Ok(())
    }
}
