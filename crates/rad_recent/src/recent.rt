//! The table of kept replies.
ghost use Rattle.std.specs.Prelude.{◌≡◌, ◌≤◌, ◌↔◌, IfOk, IsErrOf, IsOk, IsTrue, OnErr, OnOk, None, Some, option_copied, option_map};
ghost use Rattle.std.specs.Prelude.{true};
ghost use Rattle.std.specs.Iterator.{YieldsFirstBy, item_count};
ghost use Rattle.rad_packet.specs.Ladders.{refuse_if};
ghost use Rattle.rad_config.specs.Spans.{moment_max, spans_of};
ghost use Rattle.rad_recent.specs.Recent.{IsKept, beside, cut_replies, is_full, opening, replies_for, reply_to, with_reply};
ghost use Rattle.rad_recent.specs.Recent.{without_key};
ghost use Rattle.rad_recent.specs.Restored.{reply_restorable};
ghost use Rattle.rad_row_fault.specs.Follows.{FollowsRules};

use crate::index::Index;
use crate::kept::Kept;
use crate::key::Key;
use crate::notes::Notes;
use crate::numbered::{self, Numbered};
use crate::{clients, indexed, others, restore};
use rad_config::Config;
use rad_packet::{Body, Octets};
use rad_row_fault::RowFault;
use rad_rows::{HashKey, Iter, Rows};
use std::alloc::{AllocError, Global};
use std::marker::Model;
use thiserror::Error;

/// The most replies that are kept.
pub const KEPT_MAX: usize = 65_536;

/// Why a reply is not kept. `Full` is reported where both apply.
#[derive(Clone, Copy, Debug, PartialEq, Eq, Error)]
pub enum KeepFault {
    /// `KEPT_MAX` live replies to requests with other keys are kept.
    #[error("no more replies can be kept")]
    Full = 1,
    /// An allocation failed.
    #[error("out of memory")]
    NoMemory = 2,
}

/// The kept replies, oldest first.
///
/// Contracts see the list, how long a reply lives, and the key for which memory is ready. Moments are in milliseconds, at most
/// `MOMENT_MAX`, and need not rise.
#[derive(Drop)]
pub struct Recent {
    rows: Rows<Numbered, u64>,
    notes: Notes,
}

impl Model for Recent {
    ghost use Rattle.rad_recent.specs.Index.{replies_of};
    ghost use Rattle.rad_recent.specs.Notes.{HoldsNotes};
    ghost use Rattle.rad_recent.specs.Recent.{SeenReplies};

    ghost Value = { SeenReplies };

    ghost view = { λ recent. record {
      table = record { kept = replies_of recent.rows.rows; window = recent.rows.spans };
      ready = recent.notes.index.ready;
    } };

    ghost invariant = { λ recent. HoldsNotes recent.rows recent.notes };
}

impl Recent {
    ghost use Rattle.rad_recent.specs.declared.recent.KeepFault.TheVariants.{Full, NoMemory};

    /// No reply is kept yet. The configuration says how long replies will be kept.
    pub fn open(alloc: Global, config: &Config) -> Result<Recent, AllocError>
        ensures table { IfOk result (λ recent. recent.table
            ≡ opening (spans_of config.now).window) }
        ensures ready { IfOk result (λ recent. recent.ready ≡ None) }
    {
        Recent::open_keyed(alloc, config, HashKey::KNOWN)
    }

    /// The same table, with a key for the hash of its index. Contracts don't see the key.
    pub fn open_keyed(alloc: Global, config: &Config, key: HashKey) -> Result<Recent, AllocError>
        ensures table { IfOk result (λ recent. recent.table
            ≡ opening (spans_of config.now).window) }
        ensures ready { IfOk result (λ recent. recent.ready ≡ None) }
    {
        let clients = clients::none(alloc, config.clients().len())?;
        let index = Index::open(alloc, key);
        Ok(Recent {
            rows: Rows::open(alloc, config.spans().window),
            notes: Notes { index, clients },
        })
    }

    /// The kept replies, oldest first; also those that are no longer live but not removed yet.
    pub fn rows(&self) -> KeptRows<'_>
        ensures { result ≡ self.now.table.kept }
    {
        KeptRows {
            rest: self.rows.iter(),
        }
    }

    /// Removes the replies that are no longer live.
    pub fn expire(&mut self, now: u64)
        requires { now ≤ moment_max }
        ensures cut { self.new.table ≡ cut_replies now self.old.table }
        // Expiring again at the same moment changes nothing.
        ensures settled { cut_replies now self.new.table ≡ self.new.table }
        ensures ready { self.new.ready ≡ self.old.ready }
    {
        self.rows.numbers_rise();
        self.rows.expire(&mut self.notes, now);
    }

    /// The body of the live reply to a request with this key and these octets up to Length.
    ///
    /// Source: RFC 5080, section 2.2.2.
    pub fn look(&self, key: &Key, octets: &[u8], now: u64) -> Option<&Body>
        requires { now ≤ moment_max }
        ensures { option_copied result ≡ option_map (λ reply. reply.body)
            (reply_to key.now octets.now (cut_replies now self.now.table)) }
    {
        let row = indexed::find(&self.rows, &self.notes.index, key, octets, now)?;
        Some(&row.kept.body)
    }

    /// How many live replies take the share of the client at a place, that to a request with this key left out.
    pub fn count_of(&self, client: u32, key: &Key, now: u64) -> u64
        requires { now ≤ moment_max }
        ensures { result ≡ replies_for client (beside key.now now self.now.table) }
    {
        others::count_of(&self.rows, &self.notes, now, client, key)
    }

    /// How many kept replies take the share of the client at a place, live or not.
    pub fn len_of(&self, client: u32) -> u64
        ensures { result ≡ replies_for client self.now.table }
    {
        clients::count(&self.rows, &self.notes.clients, client)
    }

    /// What `keep` would answer at this moment for a request with this key if there is memory.
    pub fn peek(&self, key: &Key, now: u64) -> Result<(), KeepFault>
        requires { now ≤ moment_max }
        ensures answer { result ≡ refuse_if (is_full (beside key.now now self.now.table)) Full }
        ensures memory { IsErrOf result NoMemory → ⊥ }
    {
        if others::are_many(&self.rows, &self.notes.index.map, now, key, KEPT_MAX) {
            return Err(KeepFault::Full);
        }
        Ok(())
    }

    /// Makes memory ready for the reply to a request with this key, and answers as `keep` would at this moment.
    pub fn room(&mut self, key: &Key, now: u64) -> Result<(), KeepFault>
        requires { now ≤ moment_max }
        ensures unchanged { self.new.table ≡ self.old.table }
        ensures full { IsErrOf result Full
            ↔ (is_full (beside key.now now self.old.table) ≡ true) }
        ensures ready { OnOk result (self.new.ready ≡ Some key.now) }
        ensures still { self.old.ready ≡ Some key.now → IsErrOf result NoMemory → ⊥ }
        ensures unready { OnErr result (self.new.ready ≡ self.old.ready) }
    {
        self.peek(key, now)?;
        self.make_ready(key).map_err(|_| KeepFault::NoMemory)
    }

    /// Makes memory ready for the reply to a request with this key.
    pub fn make_ready(&mut self, key: &Key) -> Result<(), AllocError>
        ensures unchanged { self.new.table ≡ self.old.table }
        ensures ready { OnOk result (self.new.ready ≡ Some key.now) }
        ensures still { self.old.ready ≡ Some key.now → IsOk result }
        ensures unready { OnErr result (self.new.ready ≡ self.old.ready) }
    {
        indexed::make_room(&mut self.rows, &mut self.notes.index, key)
    }

    /// Keeps a reply as the last, in place of one to a request with its key. Memory was made ready for it.
    pub fn put(&mut self, reply: Kept)
        requires { self.old.ready ≡ Some reply.key }
        ensures table { self.new.table ≡ with_reply reply (without_key reply.key self.old.table) }
        ensures ready { self.new.ready ≡ None }
    {
        let Recent { rows, notes } = self;
        let Notes { index, clients } = notes;
        rows.numbers_rise();
        clients::remove_one(clients, indexed::client_of(rows, index, &reply.key));
        clients::add_one(clients, reply.client);
        indexed::push(rows, index, reply);
    }

    /// Removes the reply to a request with this key, live or not.
    pub fn remove(&mut self, key: &Key)
        ensures table { self.new.table ≡ without_key key.now self.old.table }
        ensures ready { self.new.ready ≡ self.old.ready }
    {
        let Recent { rows, notes } = self;
        let Notes { index, clients } = notes;
        clients::remove_one(clients, indexed::client_of(rows, index, key));
        indexed::remove(rows, index, key);
    }

    /// Removes the replies that are no longer live and the one to a request with this key, and keeps a new one as the last, which
    /// takes no client's share.
    ///
    /// The octets are those of the request up to Length. Refusals are reported in the order of `KeepFault`. After a refusal the
    /// table is as it was, and the octets and the body are dropped. The first `keep` after `room` with its key doesn't answer
    /// `NoMemory`.
    pub fn keep(&mut self, key: Key, octets: Vec<u8>, body: Body, now: u64) -> Result<(), KeepFault>
        requires { now ≤ moment_max }
        ensures outcome { IsKept now
            (record { client = None; key = key; octets = octets.items; body = body; made = now })
            self.old.table result self.new.table }
        ensures after_room { self.old.ready ≡ Some key → IsErrOf result NoMemory → ⊥ }
        ensures unready { IsErrOf result Full → self.new.ready ≡ self.old.ready }
    {
        self.keep_shared(key, Octets::new(octets), body, now)
    }

    /// Does what `keep` does, with octets that others may share.
    pub fn keep_shared(
        &mut self,
        key: Key,
        octets: Octets,
        body: Body,
        now: u64,
    ) -> Result<(), KeepFault>
        requires { now ≤ moment_max }
        ensures outcome { IsKept now
            (record { client = None; key = key; octets = octets; body = body; made = now })
            self.old.table result self.new.table }
        ensures after_room { self.old.ready ≡ Some key → IsErrOf result NoMemory → ⊥ }
        ensures unready { IsErrOf result Full → self.new.ready ≡ self.old.ready }
    {
        self.room(&key, now)?;
        self.expire(now);
        self.put(Kept {
            client: None,
            key,
            octets,
            body,
            made: now,
        });
        Ok(())
    }

    /// Puts back a reply that a table once kept, after the others; replies are put back in the order in which they were made, which
    /// isn't looked at.
    ///
    /// The clock is in milliseconds. Refusals are reported in the order of `reply_restorable`. After a refusal the table is as it
    /// was, and the reply is dropped. Source: RFC 5080, section 2.2.2.
    pub fn restore(&mut self, reply: Kept, clock: u64) -> Result<(), RowFault>
        ensures answer { FollowsRules (reply_restorable clock reply self.old.table) result }
        ensures restored { OnOk result (self.new.table ≡ with_reply reply self.old.table) }
        ensures unchanged { OnErr result (self.new.table ≡ self.old.table) }
    {
        restore::check_reply(&self.rows, &self.notes.index, &reply, clock)?;
        if self.make_ready(&reply.key).is_err() {
            return Err(RowFault::NoMemory);
        }
        self.put(reply);
        Ok(())
    }

    /// An equal table, for which no memory is ready.
    pub fn copy(&self) -> Result<Recent, AllocError>
        ensures table { IfOk result (λ copy. copy.table ≡ self.now.table) }
        ensures ready { IfOk result (λ copy. copy.ready ≡ None) }
    {
        let rows = self.rows.copy()?;
        let map = self.notes.index.map.clone()?;
        let clients = self.notes.clients.clone()?;
        let index = Index { map, ready: None };
        Ok(Recent {
            rows,
            notes: Notes { index, clients },
        })
    }

    /// Whether the other table has the same replies.
    pub fn same(&self, other: &Recent) -> bool
        ensures { IsTrue result ↔ (self.now.table.kept ≡ other.now.table.kept) }
    {
        self.rows.len() == other.rows.len()
            && numbered::same_replies(self.rows.iter(), other.rows.iter())
    }
}

/// The kept replies that are left, oldest first. Contracts see them as a list.
#[derive(Drop)]
pub struct KeptRows<'a> {
    rest: Iter<'a, Numbered, u64>,
}

impl<'a> Model for KeptRows<'a> {
    ghost use Rattle.std.specs.Prelude.{List};
    ghost use Rattle.rad_recent.specs.declared.kept.Kept.{Kept};
    ghost use Rattle.rad_recent.specs.Index.{replies_of};

    ghost Value = { List Kept };

    ghost view = { λ rows. replies_of rows.rest };
}

impl<'a> Iterator for KeptRows<'a> {
    type Item = &'a Kept;

    ghost next_gives = { YieldsFirstBy (λ item. item.now) (λ s. s) };

    ghost remaining = { item_count (λ s. s) };

    fn next(&mut self) -> Option<&'a Kept> {
        let row = self.rest.next()?;
        Some(&row.kept)
    }
}
