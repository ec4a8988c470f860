//! Lines of output, built in room that is made once.
ghost use Rattle.std.specs.Prelude.{◌≡◌, ◌+◌, ◌*◌, ◌≤◌, [], ◌∷◌, ◌++◌, length, decimal, IfOk};
ghost use Rattle.hex.specs.Hex.{encode_lower};
ghost use Rattle.rad_packet.specs.Packets.{length_max};
ghost use Rattle.rad_replay.specs.Transcripts.{drop_line, reply_line, busy_line, nomemory_line};

use bytes::BytesMut;
use rad_auth::Discard;
use rad_packet::LENGTH_MAX;
use std::alloc::{AllocError, Global};
use std::marker::Model;

/// Hexadecimal digits of the longest packet.
const DIGITS_MAX: usize = 2 * LENGTH_MAX;

/// Octets of the longest line: a number of 20 digits, ` reply `, the digits and a line feed.
const LINE_MAX: usize = 20 + 7 + DIGITS_MAX + 1;

/// A line of output. Contracts see its octets.
#[derive(Drop)]
pub struct OutputLine {
    text: BytesMut,
}

impl Model for OutputLine {
    ghost use Rattle.std.specs.Prelude.{◌+◌, ◌≤◌, ℕ, List, length};
    ghost use Rattle.rad_replay.specs.declared.output_line.TheConstants.{LINE_MAX};

    ghost Value = { List ℕ };

    ghost view = { λ line. line.text.items };

    ghost invariant = { λ line. LINE_MAX ≤ length line.text.items + line.text.spare };
}

impl OutputLine {
    /// An empty line, with room for the longest.
    pub fn new(alloc: Global) -> Result<OutputLine, AllocError>
        ensures { IfOk result (λ line. line ≡ []) }
    {
        let text = BytesMut::with_capacity(alloc, LINE_MAX)?;
        Ok(OutputLine { text })
    }

    /// The octets of the line.
    pub fn octets(&self) -> &[u8]
        ensures { result.now ≡ self.now }
    {
        self.text.as_slice()
    }

    /// Makes it the line of a discarded datagram.
    pub fn write_drop(&mut self, number: u64, discard: Discard)
        ensures { self.new ≡ drop_line number discard }
    {
        let (code, name) = discard.label();
        self.begin(number);
        self.put(b"drop ");
        self.put(itoa::Buffer::new().format(code).as_bytes());
        self.put(b" ");
        self.put(name.as_bytes());
        self.put(b"\n");
    }

    /// Makes it the line of a reply.
    pub fn write_reply(&mut self, number: u64, octets: &[u8])
        requires { length octets.now ≤ length_max }
        ensures { self.new ≡ reply_line number octets.now }
    {
        self.begin(number);
        self.put(b"reply ");
        self.put_hex(octets);
        self.put(b"\n");
    }

    /// Makes it the line of a request whose reply there was no room to store.
    pub fn write_busy(&mut self, number: u64)
        ensures { self.new ≡ busy_line number }
    {
        self.begin(number);
        self.put(b"busy\n");
    }

    /// Makes it the line of a request for which memory was refused.
    pub fn write_nomemory(&mut self, number: u64)
        ensures { self.new ≡ nomemory_line number }
    {
        self.begin(number);
        self.put(b"nomemory\n");
    }

    // A number and a space, without an allocation.
    fn begin(&mut self, number: u64)
        ensures octets { self.new ≡ decimal number ++ 32 ∷ [] }
        ensures short { length self.new ≤ 21 }
    {
        self.text.clear();
        self.put(itoa::Buffer::new().format(number).as_bytes());
        self.put(b" ");
    }

    fn put(&mut self, part: &[u8])
        requires { length self.old + length part.now ≤ LINE_MAX }
        ensures { self.new ≡ self.old ++ part.now }
    {
        self.text.extend_reserved(part);
    }

    fn put_hex(&mut self, octets: &[u8])
        requires fits { length octets.now ≤ length_max }
        requires room { length self.old + 2 * length octets.now ≤ LINE_MAX }
        ensures octets { self.new ≡ self.old ++ encode_lower octets.now }
        ensures len { length self.new ≡ length self.old + 2 * length octets.now }
    {
        let mut digits = [0; DIGITS_MAX];
        let text = &mut digits[..2 * octets.len()];
        hex::encode_to_slice(octets, text).unwrap();
        self.put(text);
    }
}
