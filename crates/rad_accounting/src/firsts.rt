//! The first attribute of each Type.
ghost use Rattle.std.specs.Prelude.{◌≡◌, ◌<◌, ℕ, None, option_copied, slice_index_or};
ghost use Rattle.rad_packet.specs.Attributes.{first_integer, first_value};

use rad_packet::Packet;
use rad_packet::attribute::integer_of;

/// How many Types there are.
const KINDS: usize = 256;

/// A packet, and the Values of its first attribute of each Type, found in one walk.
#[derive(Drop)]
pub(crate) struct Firsts<'p, 'a> {
    packet: &'p Packet<'a>,
    values: [Option<&'a [u8]>; KINDS],
    ghost firsts: { (kind : ℕ) → kind < 256 → option_copied (slice_index_or values kind None)
        ≡ first_value kind packet.now.attributes },
}

impl<'p, 'a> Firsts<'p, 'a> {
    /// Those of a packet.
    pub fn of(packet: &'p Packet<'a>) -> Firsts<'p, 'a>
        ensures { result.packet.now ≡ packet.now }
    {
        let mut values = [None; KINDS];
        let mut rest = packet.attributes();
        while let Some(attribute) = rest.next() {
            let place = attribute.kind as usize;
            values[place] = values[place].or(Some(attribute.value));
        }
        Firsts { packet, values }
    }

    /// The Value of the first attribute of a Type.
    pub fn value(&self, kind: u8) -> Option<&'a [u8]>
        ensures { option_copied result ≡ first_value kind self.now.packet.now.attributes }
    {
        self.values[kind as usize]
    }

    /// The integer in the first attribute of a Type that has four octets.
    pub fn integer(&self, kind: u8) -> Option<u32>
        ensures { result ≡ first_integer kind self.now.packet.now.attributes }
    {
        let first = self.value(kind)?;
        match integer_of(first) {
            Some(integer) => Some(integer),
            None => integer_of(self.packet.first_of_len(kind, 4)?),
        }
    }
}
