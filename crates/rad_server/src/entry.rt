//! Entries of a history.
ghost use Rattle.std.specs.Prelude.{◌≡◌, ◌↔◌, IfOk, IsTrue};

use crate::answer::Answer;
use rad_auth::Door;
use rad_packet::Octets;
use std::alloc::AllocError;

/// A request and its answer.
#[derive(Drop)]
pub struct Entry {
    /// Any number by which the caller knows the request.
    pub tag: u64,
    /// The place of the client in the configuration.
    pub client: u32,
    /// The source address, most significant octet first.
    pub source: u32,
    /// The source port.
    pub port: u16,
    /// The server's port that it came to.
    pub door: Door,
    /// The octets of the request up to Length.
    pub octets: Octets,
    /// The moment of the request, in milliseconds.
    pub moment: u64,
    /// The draw for the State of a challenge.
    pub draw: [u8; 16],
    /// What the server did with it. The step would give it again, but a worker seals it after it has left the lock.
    pub answer: Answer,
    /// The number of the session that it names, where it is a new Start, Interim-Update or Stop and means one.
    pub session: Option<u64>,
}

impl Entry {
    /// An equal entry.
    pub fn copy(&self) -> Result<Entry, AllocError>
        ensures { IfOk result (λ copy. copy ≡ self.now) }
    {
        Ok(Entry {
            tag: self.tag,
            client: self.client,
            source: self.source,
            port: self.port,
            door: self.door,
            octets: self.octets.copy()?,
            moment: self.moment,
            draw: self.draw,
            answer: self.answer.copy()?,
            session: self.session,
        })
    }

    /// Whether the other entry is equal.
    pub fn same(&self, other: &Entry) -> bool
        ensures { IsTrue result ↔ (self.now ≡ other.now) }
    {
        self.tag == other.tag
            && self.client == other.client
            && self.source == other.source
            && self.port == other.port
            && self.door == other.door
            && self.octets.same(&other.octets)
            && self.moment == other.moment
            && self.draw == other.draw
            && self.answer.same(&other.answer)
            && self.session == other.session
    }
}
