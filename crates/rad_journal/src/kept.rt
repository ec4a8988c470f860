//! Exchanges as they are kept.
ghost use Rattle.std.specs.Prelude.{◌≡◌, ◌∷◌, IfOk};
ghost use Rattle.rad_packet.specs.Attributes.{attributes_octets};
ghost use Rattle.rad_server.specs.Runs.{counted};
ghost use Rattle.rad_journal.specs.Kept.{kept_by};

use rad_auth::Door;
use rad_packet::{Body, Octets};
use rad_server::{Answer, Entry};
use std::alloc::{AllocError, Global};

/// A request and its reply, as they are kept.
#[derive(Drop)]
pub struct Kept {
    /// The wall time of the request, in milliseconds since 1970.
    pub wall: u64,
    /// The moment at which the request counted, in milliseconds.
    pub moment: u64,
    /// The client's place in the configuration.
    pub client: u32,
    /// The source address, most significant octet first.
    pub source: u32,
    /// The source port.
    pub port: u16,
    /// The server's port that it came to.
    pub door: Door,
    /// The number of the session that it names, where it is a Start, an Interim-Update or a Stop and means one.
    pub session: Option<u64>,
    /// The draw for the State of a challenge.
    pub draw: [u8; 16],
    /// The octets of the request up to Length.
    pub octets: Octets,
    /// The reply's body: its Code, and then the octets of its attributes.
    pub answer: Octets,
}

impl Kept {
    /// What is kept of an entry that came when the clock showed this: nothing where its answer is Busy.
    ///
    /// A clock doesn't go back: an entry with an earlier moment counts, and is kept, at the clock. `wall` is in milliseconds since
    /// 1970. Octets that the entry shares take no memory.
    pub fn of(
        alloc: Global,
        wall: u64,
        clock: u64,
        entry: &Entry,
    ) -> Result<Option<Kept>, AllocError>
        ensures { IfOk result (λ kept. kept ≡ kept_by wall (counted clock entry.now)) }
    {
        let Answer::Send(body) = &entry.answer else {
            return Ok(None);
        };
        let answer = octets_of_body(alloc, body)?;
        Ok(Some(Kept {
            wall,
            moment: clock.max(entry.moment),
            client: entry.client,
            source: entry.source,
            port: entry.port,
            door: entry.door,
            session: entry.session,
            draw: entry.draw,
            octets: entry.octets.copy()?,
            answer,
        }))
    }
}

// The Code, and then the octets of the attributes.
fn octets_of_body(alloc: Global, body: &Body) -> Result<Octets, AllocError>
    ensures { IfOk result (λ octets.
        octets ≡ body.now.code ∷ attributes_octets body.now.attributes) }
{
    let attributes = body.attributes_octets();
    let mut octets = Vec::with_capacity(alloc, attributes.len() + 1)?;
    octets.push(body.code())?;
    octets.extend_from_slice(attributes)?;
    Ok(Octets::new(octets))
}
