//! Books: a server, and the exchanges since the book was opened.
ghost use Rattle.std.specs.Prelude.{◌≡◌, [], ◌∷◌, ◌++◌, ◌≤◌, IfOk, OnErr};
ghost use Rattle.rad_auth.specs.Admission.{IsAdmitted};
ghost use Rattle.rad_config.specs.Spans.{moment_max};
ghost use Rattle.rad_server.specs.Repeats.{Repeat};
ghost use Rattle.rad_server.specs.Runs.{IsAsked, IsHistory, IsLawfulThroughout};
ghost use Rattle.rad_server.specs.Steps.{IsSealable, step};

use crate::ask::Ask;
use crate::entry::Entry;
use crate::history::exchange;
use crate::prepared::Prepared;
use crate::runs::{runs_are_lawful, runs_repeat};
use crate::server::Server;
use rad_auth::Request;
use rad_packet::Octets;
use std::alloc::{AllocError, Global};
use std::marker::Model;

/// A server, a copy from when the book was opened, and the exchanges since.
///
/// They are a run of the one-thread server: each entry has the answer of the step from the state that those before it lead to.
#[derive(Drop)]
pub struct Book<'c> {
    alloc: Global,
    opening: Server<'c>,
    history: Vec<Entry>,
    server: Server<'c>,
}

impl<'c> Model for Book<'c> {
    ghost use Rattle.rad_server.specs.Books.{Book};
    ghost use Rattle.rad_server.specs.Runs.{IsHistory};

    ghost Value = { Book };

    ghost view = { λ book. record {
      opening = book.opening;
      history = book.history.items;
      server = book.server;
    } };

    ghost invariant = { λ book. IsHistory book.opening book.history.items book.server };
}

impl<'c> Book<'c> {
    /// A book of a copy of this server, with an empty history.
    pub fn open(alloc: Global, server: &Server<'c>) -> Result<Book<'c>, AllocError>
        ensures opening { IfOk result (λ book. book.opening ≡ server.now) }
        ensures history { IfOk result (λ book. book.history ≡ []) }
        ensures server { IfOk result (λ book. book.server ≡ server.now) }
    {
        Ok(Book {
            alloc,
            opening: server.copy()?,
            history: Vec::new(alloc),
            server: server.copy()?,
        })
    }

    /// Steps the server and appends an entry to the history. Returns an equal entry.
    ///
    /// The request was admitted with the clients of the server's configuration. The tag is any number by which the caller knows the
    /// request. The moment is in milliseconds, at most `MOMENT_MAX`. If memory is refused, nothing has changed.
    pub fn exchange(
        &mut self,
        tag: u64,
        request: &Request,
        moment: u64,
        draw: &[u8; 16],
    ) -> Result<Entry, AllocError>
        requires moment { moment ≤ moment_max }
        requires admitted { IsAdmitted self.old.server.configuration.clients request.now }
        ensures appended { IfOk result (λ entry.
            self.new.history ≡ self.old.history ++ entry ∷ []) }
        ensures asked { IfOk result (IsAsked tag request.now moment draw.now) }
        ensures answered { IfOk result (λ entry.
            step self.old.server.configuration self.old.server.state request.now moment draw.now
            ≡ (entry.answer, self.new.server.state)) }
        ensures sealable { IfOk result (λ entry. IsSealable entry.answer) }
        ensures configuration { self.new.server.configuration ≡ self.old.server.configuration }
        ensures opening { self.new.opening ≡ self.old.opening }
        ensures unchanged { OnErr result (self.new ≡ self.old) }
    {
        let Book {
            alloc,
            history,
            server,
            ..
        } = self;
        let octets = Octets::of(*alloc, request.packet.octets())?;
        let prepared = Prepared::of(server.config(), request);
        let ask = Ask::new(tag, &prepared, &octets, moment, draw);
        let (entry, _is_fresh) = exchange(server, history, ask)?;
        Ok(entry)
    }

    /// The server as it was when the book was opened.
    pub fn opening(&self) -> &Server<'c>
        ensures { result.now ≡ self.now.opening }
    {
        &self.opening
    }

    /// The exchanges since, oldest first.
    pub fn history(&self) -> &[Entry]
        ensures value { result.now ≡ self.now.history }
        ensures run { IsHistory self.now.opening self.now.history self.now.server }
        // A repeat is answered again.
        ensures repeat { Repeat self.now.opening.configuration self.now.opening.state
            self.now.history }
        // In every state on the way no address belongs to two sessions, among other things.
        ensures lawful { IsLawfulThroughout self.now.opening.configuration self.now.opening.state
            self.now.history }
    {
        self.opening.state_is_lawful();
        runs_repeat();
        runs_are_lawful();
        &self.history
    }

    /// The server as it is now.
    pub fn server(&self) -> &Server<'c>
        ensures { result.now ≡ self.now.server }
    {
        &self.server
    }

    /// The history and the server as it is now.
    #[doc(hidden)]
    pub fn into_parts(self) -> (Vec<Entry>, Server<'c>)
        ensures history { result.0.items ≡ self.entry.history }
        ensures server { result.1 ≡ self.entry.server }
        ensures run { IsHistory self.entry.opening self.entry.history self.entry.server }
    {
        let Book {
            history,
            server,
            ..
        } = self;
        (history, server)
    }
}
