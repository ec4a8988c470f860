//! What lies under the desk's lock.
ghost use Rattle.std.specs.Prelude.{◌≡◌, ◌+◌, [], length, OnErr, OnOk, IfOk};
ghost use Rattle.rad_server.specs.Runs.{IsAsked, IsHistory, IsMarkedHistory};
ghost use Rattle.rad_server.specs.Steps.{IsSealable};
ghost use Rattle.rad_desk.specs.Desks.{Appends};

use crate::opened::Opened;
use crate::receipt::Receipt;
use rad_server::{Ask, Entry, Server, exchange};
use std::alloc::AllocError;
use std::marker::Model;
use std::sync::ledger::{self, Share};

/// A server, its history with a mark for each entry, and the total of the ledger, which is the history's length.
///
/// Contracts see them as a book, with the server that the desk was opened with. That one isn't stored here: `L` names it.
#[derive(Drop)]
pub struct Locked<'c, L: Opened> {
    server: Server<'c>,
    history: Vec<Entry>,
    // Whether the request of each entry was fresh.
    marks: Vec<bool>,
    total: ledger::Book<L>,
    // What was left of the ledger when the passes had their parts: no part.
    rest: Share<L>,
}

impl<'c, L: Opened> Model for Locked<'c, L> {
    ghost use Rattle.rad_server.specs.Books.{Book};
    ghost use Rattle.rad_desk.specs.Desks.{IsConsistent};

    ghost Value = { Book };

    ghost view = { λ locked. record {
      opening = L.opening;
      history = locked.history.items;
      server = locked.server;
    } };

    ghost invariant = { λ locked.
        IsConsistent L.opening locked.history.items locked.marks.items locked.server
        locked.total.total locked.rest.parts locked.rest.amount };
}

/// What lay under a lock that is open for good.
#[derive(Drop)]
pub struct Unlocked<'c, L: Opened> {
    /// The entries, oldest first.
    pub history: Vec<Entry>,
    /// Whether the request of each was fresh.
    pub marks: Vec<bool>,
    pub server: Server<'c>,
    /// The total is the history's length.
    pub total: ledger::Book<L>,
    /// No part.
    pub rest: Share<L>,
}

impl<'c, L: Opened> Locked<'c, L> {
    /// A server that is moved in, with room for its history and its marks.
    pub fn new(
        server: Server<'c>,
        history: Vec<Entry>,
        marks: Vec<bool>,
        total: ledger::Book<L>,
        rest: Share<L>,
    ) -> Locked<'c, L>
        requires opening { server ≡ L.opening }
        requires empty { (history.items ≡ []) × (marks.items ≡ []) }
        requires total { total.total ≡ 0 }
        requires rest { (rest.parts ≡ 0) × (rest.amount ≡ 0) }
        ensures { result.history ≡ [] }
    {
        Locked {
            server,
            history,
            marks,
            total,
            rest,
        }
    }

    /// One exchange, which the share counts.
    ///
    /// If memory is refused, nothing has changed.
    pub fn exchange(&mut self, share: &mut Share<L>, ask: Ask) -> Result<Receipt, AllocError>
        requires part { share.old.parts ≡ 1 }
        requires configuration { ask.prepared.now.configuration ≡ L.opening.configuration }
        ensures appended { IfOk result (Appends self.old.history self.new.history) }
        ensures asked { IfOk result (λ receipt. IsAsked ask.entry.tag ask.entry.prepared.now.request
            ask.entry.moment ask.entry.draw.now receipt.entry) }
        ensures sealable { IfOk result (λ receipt. IsSealable receipt.entry.answer) }
        ensures counted { OnOk result (share.new.amount ≡ share.old.amount + 1) }
        ensures parts { share.new.parts ≡ 1 }
        ensures unchanged { OnErr result (self.new ≡ self.old) }
        ensures share { OnErr result (share.new.amount ≡ share.old.amount) }
    {
        let Locked {
            server,
            history,
            marks,
            total,
            rest: _,
        } = self;
        marks.reserve(1)?;
        let place = history.len() as u64;
        let (entry, is_fresh) = exchange(server, history, ask)?;
        marks.push_reserved(is_fresh);
        total.add(share, 1);
        Ok(Receipt { place, entry })
    }

    /// The history, oldest entry first.
    pub fn history(&self) -> &Vec<Entry>
        ensures { result.now.items ≡ self.now.history }
    {
        &self.history
    }

    /// Its parts.
    pub fn into_parts(self) -> Unlocked<'c, L>
        ensures history { result.history.items ≡ self.entry.history }
        ensures server { result.server ≡ self.entry.server }
        ensures run { IsHistory L.opening self.entry.history self.entry.server }
        ensures marked { IsMarkedHistory L.opening result.history.items result.marks.items
            result.server }
        ensures total { result.total.total ≡ length self.entry.history }
        ensures rest { (result.rest.parts ≡ 0) × (result.rest.amount ≡ 0) }
    {
        let Locked {
            server,
            history,
            marks,
            total,
            rest,
        } = self;
        Unlocked {
            history,
            marks,
            server,
            total,
            rest,
        }
    }
}
