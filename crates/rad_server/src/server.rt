//! The server, and its step.
ghost use Rattle.std.specs.Prelude.{◌≡◌, ◌≤◌, ◌↔◌, IfOk, IfSome, IsTrue, OnErr, OnOk};
ghost use Rattle.rad_packet.specs.Packets.{packet_octets};
ghost use Rattle.rad_auth.specs.Admission.{IsAdmitted};
ghost use Rattle.rad_config.specs.Ranges.{IsConfiguration};
ghost use Rattle.rad_config.specs.Spans.{moment_max};
ghost use Rattle.rad_row_fault.specs.Follows.{FollowsRules};
ghost use Rattle.rad_server.specs.Lawful.{IsLawful};
ghost use Rattle.rad_server.specs.Restored.{restorable, with_row};
ghost use Rattle.rad_server.specs.States.{at_moment, opening};
ghost use Rattle.rad_server.specs.Steps.{IsSealable, is_fresh, session_at, step};

use crate::answer::Answer;
use crate::commit::{commit, make_room};
use crate::lawful::{lawful_steps, rows_rebuild};
use crate::plan::plan_step;
use crate::prepared::Prepared;
use crate::restore::restore;
use crate::state_row::StateRow;
use crate::tables::Tables;
use rad_auth::Request;
use rad_config::Config;
use rad_packet::Octets;
use rad_pool::Sessions;
use rad_recent::{Challenges, Recent};
use rad_row_fault::RowFault;
use rad_rows::HashKey;
use std::alloc::{AllocError, Global};
use std::marker::Model;

/// A server: its configuration, and what it remembers. Contracts see both.
///
/// Moments are in milliseconds. The clock is the latest moment so far.
pub struct Server<'c> {
    alloc: Global,
    config: &'c Config,
    clock: u64,
    tables: Tables,
}

/// What a step gave.
#[derive(Drop)]
pub(crate) struct Stepped {
    pub answer: Answer,
    /// An equal answer.
    pub copy: Answer,
    /// Whether the request was fresh.
    pub is_fresh: bool,
    /// The number of the session that the request names.
    pub session: Option<u64>,
}

// Written out, so that for those who hold a server its end is one step.
impl<'c> Drop for Server<'c> {
    fn drop(self) {
        let Server {
            alloc: _,
            config: _,
            clock: _,
            tables,
        } = self;
        drop(tables);
    }
}

impl<'c> Model for Server<'c> {
    ghost use Rattle.rad_server.specs.Lawful.{IsLawful};
    ghost use Rattle.rad_server.specs.Servers.{Server, state_with};

    ghost Value = { Server };

    ghost view = { λ server. record {
      configuration = server.config.now;
      state = state_with server.clock server.tables;
    } };

    ghost invariant = { λ server.
        IsLawful server.config.now (state_with server.clock server.tables) };
}

impl<'c> Server<'c> {
    /// A server that remembers nothing yet.
    pub fn open(alloc: Global, config: &'c Config) -> Result<Server<'c>, AllocError>
        ensures configuration { IfOk result (λ server. server.configuration ≡ config.now) }
        ensures state { IfOk result (λ server. server.state ≡ opening config.now) }
    {
        Server::open_keyed(alloc, config, HashKey::KNOWN)
    }

    /// The same server, with a key for the hashes of its tables, which those who send requests shouldn't know. Contracts don't see
    /// it.
    pub fn open_keyed(
        alloc: Global,
        config: &'c Config,
        key: HashKey,
    ) -> Result<Server<'c>, AllocError>
        ensures configuration { IfOk result (λ server. server.configuration ≡ config.now) }
        ensures state { IfOk result (λ server. server.state ≡ opening config.now) }
    {
        Ok(Server {
            alloc,
            config,
            clock: 0,
            tables: Tables::open(alloc, config, key)?,
        })
    }

    /// The configuration.
    pub fn config(&self) -> &'c Config
        ensures { result.now ≡ self.now.configuration }
    {
        self.config
    }

    /// The latest moment so far, in milliseconds; 0 at first.
    pub fn clock(&self) -> u64
        ensures { result ≡ self.now.state.clock }
    {
        self.clock
    }

    /// What is remembered is lawful: no address belongs to two sessions, among other things.
    ///
    /// The call costs nothing: it does nothing at run time.
    pub fn state_is_lawful(&self)
        ensures configuration { IsConfiguration self.now.configuration }
        ensures state { IsLawful self.now.configuration self.now.state }
    {
        let _clients = self.config.clients();
    }

    /// The sessions.
    pub fn sessions(&self) -> &Sessions
        ensures { result.now.table ≡ self.now.state.sessions }
    {
        &self.tables.sessions
    }

    /// The kept replies.
    pub fn recent(&self) -> &Recent
        ensures { result.now.table ≡ self.now.state.replies }
    {
        &self.tables.replies
    }

    /// The challenges that wait for an answer.
    pub fn challenges(&self) -> &Challenges
        ensures { result.now.table ≡ self.now.state.challenges }
    {
        &self.tables.challenges
    }

    /// Answers an admitted request, and goes on to the next state.
    ///
    /// The request was admitted with the clients of the server's configuration. The moment is in milliseconds, at most
    /// `MOMENT_MAX`, and may be earlier than the clock, which doesn't go back. The draw becomes part of the State of a challenge.
    /// If memory is refused, nothing has changed.
    pub fn step(
        &mut self,
        request: &Request,
        moment: u64,
        draw: &[u8; 16],
    ) -> Result<Answer, AllocError>
        requires moment { moment ≤ moment_max }
        requires admitted { IsAdmitted self.old.configuration.clients request.now }
        ensures answered { IfOk result (λ answer.
            step self.old.configuration self.old.state request.now moment draw.now
            ≡ (answer, self.new.state)) }
        ensures sealable { IfOk result IsSealable }
        ensures configuration { self.new.configuration ≡ self.old.configuration }
        ensures unchanged { OnErr result (self.new ≡ self.old) }
    {
        let (answer, _session) = self.step_naming(request, moment, draw)?;
        Ok(answer)
    }

    /// The same, with the number of the session that the request names, where it is a new Start, Interim-Update or Stop and means
    /// one.
    pub fn step_naming(
        &mut self,
        request: &Request,
        moment: u64,
        draw: &[u8; 16],
    ) -> Result<(Answer, Option<u64>), AllocError>
        requires moment { moment ≤ moment_max }
        requires admitted { IsAdmitted self.old.configuration.clients request.now }
        ensures answered { IfOk result (λ given.
            step self.old.configuration self.old.state request.now moment draw.now
            ≡ (given.0, self.new.state)) }
        ensures session { IfOk result (λ given. given.1 ≡ session_at
            self.old.configuration (at_moment moment self.old.state) request.now) }
        ensures sealable { IfOk result (λ given. IsSealable given.0) }
        ensures configuration { self.new.configuration ≡ self.old.configuration }
        ensures unchanged { OnErr result (self.new ≡ self.old) }
    {
        let prepared = Prepared::of(self.config, request);
        let stepped = self.step_with_copy(&prepared, None, moment, draw)?;
        Ok((stepped.answer, stepped.session))
    }

    /// The step of a prepared request. The memory for the copy of its answer is there before the state changes.
    ///
    /// What is kept shares the body, and the octets if they are given: those of the request up to Length.
    pub(crate) fn step_with_copy(
        &mut self,
        prepared: &Prepared,
        octets: Option<&Octets>,
        moment: u64,
        draw: &[u8; 16],
    ) -> Result<Stepped, AllocError>
        requires moment { moment ≤ moment_max }
        requires prepared { prepared.now.configuration ≡ self.old.configuration }
        requires octets { IfSome octets
            (λ octets. octets.now ≡ packet_octets prepared.now.request.packet) }
        ensures answered { IfOk result (λ stepped.
            step self.old.configuration self.old.state prepared.now.request moment draw.now
            ≡ (stepped.answer, self.new.state)) }
        ensures copy { IfOk result (λ stepped. stepped.copy ≡ stepped.answer) }
        ensures fresh { IfOk result (λ stepped. stepped.is_fresh ≡ is_fresh
            self.old.configuration (at_moment moment self.old.state) prepared.now.request) }
        ensures session { IfOk result (λ stepped. stepped.session ≡ session_at
            self.old.configuration (at_moment moment self.old.state) prepared.now.request) }
        ensures sealable { IfOk result (λ stepped. IsSealable stepped.answer) }
        ensures configuration { self.new.configuration ≡ self.old.configuration }
        ensures unchanged { OnErr result (self.new ≡ self.old) }
    {
        let request = prepared.request();
        self.state_is_lawful();
        lawful_steps();
        let Server {
            alloc,
            config,
            clock,
            tables,
        } = self;
        let now = (*clock).max(moment);
        let plan = plan_step(*alloc, tables, now, prepared, octets, draw)?;
        let copy = plan.answer()?;
        make_room(tables, &plan)?;
        let is_fresh = plan.is_fresh();
        *clock = now;
        let (answer, session) = commit(config, tables, now, request, draw, plan);
        Ok(Stepped {
            answer,
            copy,
            is_fresh,
            session,
        })
    }

    /// Lets time pass up to a moment that is no request's: the clock goes on, and what is no longer live is removed.
    ///
    /// The moment is in milliseconds, at most `MOMENT_MAX`; one before the clock leaves the clock. It takes no memory, so what has
    /// expired goes also where every step is refused memory. No later step can tell (`time_passes_unseen`).
    pub fn pass(&mut self, moment: u64)
        requires { moment ≤ moment_max }
        ensures configuration { self.new.configuration ≡ self.old.configuration }
        ensures state { self.new.state ≡ at_moment moment self.old.state }
    {
        self.state_is_lawful();
        lawful_steps();
        let now = self.clock.max(moment);
        self.clock = now;
        self.tables.expire(now);
    }

    /// Puts back a row of what a server with this configuration once remembered.
    ///
    /// To rebuild a server, open one, let `pass` bring its clock to the old one's, and put back the sessions in the order of their
    /// numbers and their last number, the kept replies in the order in which they were made, and the challenges in the order of
    /// their numbers and their last number: then it is the old one (`rows_rebuild`). The fault is the first rule that the row
    /// breaks, in the order of `restorable` in `specs/Restored.antt`. After a fault nothing has changed, and the row is dropped.
    pub fn restore(&mut self, row: StateRow) -> Result<(), RowFault>
        ensures answer { FollowsRules
            (restorable self.old.configuration row self.old.state) result }
        ensures restored { OnOk result (self.new.state ≡ with_row row self.old.state) }
        ensures configuration { self.new.configuration ≡ self.old.configuration }
        ensures unchanged { OnErr result (self.new ≡ self.old) }
    {
        self.state_is_lawful();
        rows_rebuild();
        let Server {
            config,
            clock,
            tables,
            ..
        } = self;
        restore(config, *clock, tables, row)
    }

    /// An equal server over the same configuration.
    pub fn copy(&self) -> Result<Server<'c>, AllocError>
        ensures { IfOk result (λ copy. copy ≡ self.now) }
    {
        let Server {
            alloc,
            config,
            clock,
            tables,
        } = self;
        Ok(Server {
            alloc: *alloc,
            config,
            clock: *clock,
            tables: tables.copy()?,
        })
    }

    /// Whether the other server has an equal configuration and remembers the same.
    pub fn same(&self, other: &Server) -> bool
        ensures { IsTrue result ↔ (self.now ≡ other.now) }
    {
        let Server {
            config,
            clock,
            tables,
            ..
        } = self;
        *clock == other.clock && tables.same(&other.tables) && config.same(other.config)
    }
}
