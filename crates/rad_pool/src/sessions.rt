//! The table of sessions.
ghost use Rattle.std.specs.Prelude.{◌≡◌, ◌≤◌, ◌<◌, ◌+◌, ◌↔◌, ◌==◌, ◌||◌, find, nat_le, IsTrue, length, IfOk, IsErrOf, IsOk, OnErr};
ghost use Rattle.std.specs.Prelude.{OnOk, false, true};
ghost use Rattle.std.specs.Iterator.{YieldsFirst, item_count};
ghost use Rattle.rad_config.specs.Configurations.{is_reached};
ghost use Rattle.rad_config.specs.Spans.{moment_max, spans_of};
ghost use Rattle.rad_row_fault.specs.Follows.{FollowsRules};
ghost use Rattle.rad_pool.specs.Grants.{HasPoolFor, IsGranted, granted, with_session};
ghost use Rattle.rad_pool.specs.Meant.{meant};
ghost use Rattle.rad_pool.specs.Restored.{last_restorable, restorable, with_last, with_row};
ghost use Rattle.rad_pool.specs.Sessions.{AreSame, cut, opening, renewed, source_reset, stopped};

use crate::counts::Counts;
use crate::grant::{Grant, Refusal};
use crate::report::Report;
use crate::session::{Phase, Session};
use crate::users::UserCounts;
use crate::{changes, found, free, restore, users};
use rad_config::{Config, Spans, User};
use rad_row_fault::RowFault;
use rad_rows::{HashKey, Iter, Rows};
use std::alloc::{AllocError, Global};
use std::marker::Model;

/// The most sessions that a lawful table has, of any phase.
pub const SESSIONS_MAX: usize = 65_536;

/// The sessions, oldest first, and the number of the next one.
///
/// Contracts see the list, the next number, how long sessions are remembered, and whether memory is ready for one more. Moments
/// are in milliseconds, at most `MOMENT_MAX`, and need not rise; but a lawful table stays lawful only while they don't fall.
#[derive(Drop)]
pub struct Sessions {
    rows: Rows<Session, Spans>,
    counts: Counts,
}

impl Model for Sessions {
    ghost use Rattle.std.specs.Prelude.{◌+◌};
    ghost use Rattle.rad_pool.specs.Counts.{CountsRows};
    ghost use Rattle.rad_pool.specs.Sessions.{SeenSessions};

    ghost Value = { SeenSessions };

    ghost view = { λ sessions. record {
      table = record {
        sessions = sessions.rows.rows;
        next = sessions.rows.last + 1;
        spans = sessions.rows.spans;
      };
      has_room = sessions.rows.has_room;
    } };

    ghost invariant = { λ sessions. CountsRows sessions.rows sessions.counts };
}

impl Sessions {
    /// No sessions yet. The configuration says how long they will be remembered.
    ///
    /// Sources are hashed by a key that everybody knows: who chooses them can make calls slow. A server takes `open_keyed`.
    pub fn open(alloc: Global, config: &Config) -> Result<Sessions, AllocError>
        ensures table { IfOk result (λ sessions. sessions.table ≡ opening (spans_of config.now)) }
        ensures room { IfOk result (λ sessions. sessions.has_room ≡ false) }
    {
        Sessions::open_keyed(alloc, config, HashKey::KNOWN)
    }

    /// No sessions yet, with the key of the hash of their sources, which come from the network.
    pub fn open_keyed(alloc: Global, config: &Config, key: HashKey) -> Result<Sessions, AllocError>
        ensures table { IfOk result (λ sessions. sessions.table ≡ opening (spans_of config.now)) }
        ensures room { IfOk result (λ sessions. sessions.has_room ≡ false) }
    {
        let counts = Counts::open(alloc, config, key)?;
        let rows = Rows::open(alloc, config.spans());
        Ok(Sessions { rows, counts })
    }

    /// The sessions, oldest first; also those that are no longer live, until `expire`.
    pub fn rows(&self) -> SessionRows<'_>
        ensures { result ≡ self.now.table.sessions }
    {
        SessionRows {
            rest: self.rows.iter(),
        }
    }

    /// The session of this number, also one that is no longer live.
    pub fn get(&self, number: u64) -> Option<Session>
        ensures { result ≡ find (λ session. session.number == number) self.now.table.sessions }
    {
        self.rows.get(number).copied()
    }

    /// The last number that was given, or 0.
    pub fn last(&self) -> u64
        ensures { self.now.table.next ≡ result + 1 }
    {
        self.rows.last()
    }

    /// Removes the sessions that are no longer live.
    pub fn expire(&mut self, now: u64)
        requires { now ≤ moment_max }
        ensures cut { self.new.table ≡ cut now self.old.table }
        // Expiring again at the same moment changes nothing.
        ensures settled { cut now self.new.table ≡ self.new.table }
        ensures room { self.old.has_room ≡ true → self.new.has_room ≡ true }
    {
        self.rows.expire(&mut self.counts, now);
    }

    /// What `grant` would answer if there is memory.
    ///
    /// `user` is a place of the configuration. The client doesn't matter.
    #[tactic(auto, unfolding(crate::specs::Grants::granted, crate::specs::Grants::address_from))]
    pub fn peek(&self, config: &Config, _client: u32, user: u32, now: u64) -> Result<Grant, Refusal>
        requires user { user < length config.now.users }
        requires moment { now ≤ moment_max }
        ensures answer { result ≡ granted config.now user (cut now self.now.table) }
        ensures number { IfOk result (λ grant. grant.number ≡ self.now.table.next) }
        ensures pooled { IfOk result (HasPoolFor config.now user) }
        ensures memory { IsErrOf result Refusal.NoMemory → ⊥ }
    {
        let Sessions { rows, counts } = self;
        let asking = config.user_at(user);
        if is_limited(asking, users::count_live(rows, counts, now, user)) {
            return Err(Refusal::SessionLimit);
        }
        let address = free::address_for(rows, counts, config, user, now)?;
        let last = rows.last();
        if SESSIONS_MAX <= rows.count_live(now) || last == u64::MAX {
            return Err(Refusal::Full);
        }
        Ok(Grant {
            number: last + 1,
            address,
        })
    }

    /// Makes memory ready for one more session.
    pub fn room(&mut self) -> Result<(), AllocError>
        ensures unchanged { self.new.table ≡ self.old.table }
        ensures ready { OnOk result (self.new.has_room ≡ true) }
        ensures kept { self.old.has_room ≡ true → IsOk result }
    {
        self.counts.room()?;
        self.rows.room()
    }

    /// Removes the sessions that are no longer live, and adds one for the user at place `user`: Pending, with the next number, and
    /// with the user's own address, or the least one of the user's pool that no session has. `source` is the address that the
    /// Access-Request came from.
    ///
    /// Refusals are reported in the order of `Refusal`. After `NoMemory` nothing has changed; after `room` it doesn't come.
    pub fn grant(
        &mut self,
        config: &Config,
        client: u32,
        source: u32,
        user: u32,
        now: u64,
    ) -> Result<Grant, Refusal>
        requires user { user < length config.now.users }
        requires moment { now ≤ moment_max }
        ensures outcome { IsGranted config.now client source user now
            self.old.table result self.new.table }
        ensures after_room { self.old.has_room ≡ true → IsErrOf result Refusal.NoMemory → ⊥ }
    {
        let grant = match self.peek(config, client, user, now) {
            Ok(grant) => grant,
            Err(refusal) => {
                self.expire(now);
                return Err(refusal);
            }
        };
        if self.room().is_err() {
            return Err(Refusal::NoMemory);
        }
        self.expire(now);
        self.add(client, source, user, grant, now);
        Ok(grant)
    }

    /// Adds a session that `peek` granted, after `expire` at the same moment: Pending, for the client at place `client` and the
    /// user at place `user`, with the source of the Access-Request. Memory was made ready for it.
    pub fn add(&mut self, client: u32, source: u32, user: u32, grant: Grant, now: u64)
        requires room { self.old.has_room ≡ true }
        requires number { grant.number ≡ self.old.table.next }
        ensures table { self.new.table ≡ with_session client source user now grant self.old.table }
    {
        let session = Session {
            number: grant.number,
            client,
            source,
            user,
            address: grant.address,
            phase: Phase::Pending,
            made: now,
            seen: now,
        };
        changes::add(&mut self.rows, &mut self.counts, session);
    }

    /// Puts back a row that a table once held, after the others; rows are put back in the order of their numbers.
    ///
    /// The session may be open or ended, expired or not, and keeps its number; the next number is the one after it. `clock` is the
    /// moment that the clock shows, in milliseconds. Refusals are reported in the order of `restorable` in `specs/Restored.antt`;
    /// `lawful_sessions` says that just those rows are refused which a lawful table can't have, or whose number was given. After a
    /// refusal the table is as it was.
    pub fn restore(&mut self, config: &Config, row: Session, clock: u64) -> Result<(), RowFault>
        ensures answer { FollowsRules (restorable config.now clock row self.old.table) result }
        ensures restored { OnOk result (self.new.table ≡ with_row row self.old.table) }
        ensures unchanged { OnErr result (self.new.table ≡ self.old.table) }
    {
        restore::check(&self.rows, &self.counts, config, row, clock)?;
        if restore::restore(&mut self.rows, &mut self.counts, row).is_err() {
            return Err(RowFault::NoMemory);
        }
        Ok(())
    }

    /// Puts back the last number that was given, once the rows are back. They don't tell it: sessions with greater numbers may have
    /// come and gone, and a number is given only once.
    ///
    /// A number that is less than the last is refused, and then nothing changes.
    pub fn restore_last(&mut self, last: u64) -> Result<(), RowFault>
        ensures answer { result ≡ last_restorable last self.old.table }
        ensures restored { OnOk result (self.new.table ≡ with_last last self.old.table) }
        ensures unchanged { OnErr result (self.new.table ≡ self.old.table) }
    {
        if last < self.rows.last() {
            return Err(RowFault::Number);
        }
        self.rows.skip(last);
        Ok(())
    }

    /// A Start was reported: the session of this number is Active, and was seen now. One that has ended stays so.
    ///
    /// With a number of no session nothing changes. Source: RFC 2866, section 5.1.
    pub fn start(&mut self, number: u64, now: u64)
        ensures renewed { self.new.table ≡ renewed number now self.old.table }
        ensures room { self.old.has_room ≡ true → self.new.has_room ≡ true }
    {
        self.renew(number, now);
    }

    /// An Interim-Update was reported. It does what a Start does, so it makes up for one that was lost.
    ///
    /// With a number of no session nothing changes. Source: RFC 2866, section 5.1.
    pub fn renew(&mut self, number: u64, now: u64)
        ensures renewed { self.new.table ≡ renewed number now self.old.table }
        ensures room { self.old.has_room ≡ true → self.new.has_room ≡ true }
    {
        self.rows.change(number, &Report::Renewal(now));
    }

    /// A Stop was reported: the session of this number has ended.
    ///
    /// It keeps its address until `window` after its grant, or until the next expiry if that has passed. With a number of no
    /// session nothing changes. Source: RFC 2866, section 5.1.
    pub fn stop(&mut self, number: u64)
        ensures stopped { self.new.table ≡ stopped number self.old.table }
        ensures room { self.old.has_room ≡ true → self.new.has_room ≡ true }
    {
        changes::stop(&mut self.rows, &mut self.counts, number);
    }

    /// An Accounting-On or an Accounting-Off was reported: each session whose Access-Request came from this address has ended.
    ///
    /// Only the address counts, not the client. The sessions keep their addresses as after a Stop. It takes time for the open
    /// sessions of that address alone. Source: RFC 2866, section 5.1.
    pub fn end_source(&mut self, source: u32)
        ensures reset { self.new.table ≡ source_reset source self.old.table }
        ensures room { self.old.has_room ≡ true → self.new.has_room ≡ true }
    {
        changes::reset(&mut self.rows, &mut self.counts, source);
    }

    /// The number of the session that an Accounting-Request of a client means.
    ///
    /// `number` is that of its Class, `address` its Framed-IP-Address, which is looked at only without a number. `name` is None
    /// if no User-Name was sent, and Some(None) if it is no user's. Without a number, a User-Name that was sent must be the
    /// session's user's.
    pub fn find(
        &self,
        client: u32,
        number: Option<u64>,
        address: Option<u32>,
        name: Option<Option<u32>>,
    ) -> Option<u64>
        ensures { result ≡ meant client number address name self.now.table.sessions }
    {
        match (number, address) {
            (Some(number), _) => found::find(&self.rows, client, number),
            (None, Some(address)) => {
                found::find_at(&self.rows, &self.counts, client, address, name)
            }
            (None, None) => None,
        }
    }

    /// An equal table, for which no memory is ready.
    #[tactic(auto, using(crate::proofs::CountLemmas::rows_copied))]
    pub fn copy(&self) -> Result<Sessions, AllocError>
        ensures table { IfOk result (λ copy. copy.table ≡ self.now.table) }
        ensures room { IfOk result (λ copy. copy.has_room ≡ false) }
    {
        let rows = self.rows.copy()?;
        let counts = self.counts.copy()?;
        Ok(Sessions { rows, counts })
    }

    /// Whether the other table has the same sessions and the same next number.
    pub fn same(&self, other: &Sessions) -> bool
        ensures { IsTrue result ↔ AreSame self.now.table other.now.table }
    {
        self.rows.same(&other.rows)
    }
}

// Whether a user who has so many sessions may have no more.
fn is_limited(user: &User, live: UserCounts) -> bool
    ensures { result
        ≡ (nat_le user.now.sessions live.open_count || is_reached user.now.grants live.total) }
{
    u64::from(user.sessions) <= live.open_count || users::has_all_grants(user, live.total)
}

/// The sessions that are left, oldest first. Contracts see them as a list.
#[derive(Drop)]
pub struct SessionRows<'a> {
    rest: Iter<'a, Session, Spans>,
}

impl<'a> Model for SessionRows<'a> {
    ghost use Rattle.std.specs.Prelude.{List};
    ghost use Rattle.rad_pool.specs.declared.session.Session.{Session};

    ghost Value = { List Session };

    ghost view = { λ rows. rows.rest };
}

impl<'a> Iterator for SessionRows<'a> {
    type Item = Session;

    ghost next_gives = { YieldsFirst (λ s. s) };

    ghost remaining = { item_count (λ s. s) };

    fn next(&mut self) -> Option<Session> {
        let session = self.rest.next()?;
        Some(*session)
    }
}
