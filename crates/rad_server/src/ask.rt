//! What a server with a history is asked.
ghost use Rattle.std.specs.Prelude.{◌≡◌, ◌≤◌, length};
ghost use Rattle.rad_packet.specs.Packets.{packet_octets};
ghost use Rattle.rad_config.specs.Spans.{moment_max};
ghost use Rattle.rad_server.specs.Runs.{IsRequestOf, entry_of};

use crate::answer::Answer;
use crate::entry::Entry;
use crate::prepared::Prepared;
use rad_packet::Octets;

/// A request that a server is to answer and to remember in its history.
#[doc(hidden)]
#[derive(Clone, Copy)]
pub struct Ask<'r, 'a> {
    /// Any number by which the caller knows the request.
    pub tag: u64,
    pub prepared: &'r Prepared<'r, 'a>,
    /// The octets of the request up to Length. If they are shared, so are those that are remembered.
    pub octets: &'r Octets,
    /// In milliseconds, at most `MOMENT_MAX`.
    pub moment: u64,
    /// The draw for the State of a challenge.
    pub draw: &'r [u8; 16],
    pub ghost octets_of: { octets.now ≡ packet_octets prepared.now.request.packet },
    pub ghost at: { moment ≤ moment_max },
    pub ghost drawn: { length draw.now ≡ 16 },
}

impl<'r, 'a> Ask<'r, 'a> {
    /// A request with its octets, at a moment of at most `MOMENT_MAX`.
    pub fn new(
        tag: u64,
        prepared: &'r Prepared<'r, 'a>,
        octets: &'r Octets,
        moment: u64,
        draw: &'r [u8; 16],
    ) -> Ask<'r, 'a>
        requires octets { octets.now ≡ packet_octets prepared.now.request.packet }
        requires moment { moment ≤ moment_max }
        ensures tag { result.tag ≡ tag }
        ensures prepared { result.prepared.now ≡ prepared.now }
        ensures moment { result.moment ≡ moment }
        ensures draw { result.draw.now ≡ draw.now }
    {
        Ask {
            tag,
            prepared,
            octets,
            moment,
            draw,
        }
    }

    /// The entry of the request, with its octets and what the server did with it.
    pub(crate) fn entry(&self, octets: Octets, answer: Answer, session: Option<u64>) -> Entry
        requires { octets ≡ self.now.octets.now }
        ensures value { result ≡ entry_of self.now.tag self.now.prepared.now.request
            self.now.moment self.now.draw.now answer session }
        ensures asked { IsRequestOf self.now.prepared.now.configuration.clients
            result self.now.prepared.now.request }
    {
        let request = self.prepared.request();
        Entry {
            tag: self.tag,
            client: request.client,
            source: request.source,
            port: request.port,
            door: request.door,
            octets,
            moment: self.moment,
            draw: *self.draw,
            answer,
            session,
        }
    }
}
