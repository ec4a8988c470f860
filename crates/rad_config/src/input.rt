//! Inputs: the texts that readers give.
ghost use Rattle.std.specs.Prelude.{◌≡◌, ◌+◌, ◌≤◌, ◌<◌, ◌++◌, length, take, IfOk, IfErr, IfSome, OnErr, OnOk};
ghost use Rattle.std.specs.Io.KnownBytes.{Consumes, IsAtEnd, Keeps};
ghost use Rattle.rad_config.specs.Inputs.{GivesAtMost, text_max};
ghost use Rattle.rad_config.specs.declared.input.InputFault.TheVariants.{TooLong, NoMemory, Read as ReadFailed};

use std::alloc::Global;
use std::io::Read;

/// The most octets of an input.
pub const TEXT_MAX: usize = 16_777_216;

/// How many octets are asked for at once.
const CHUNK: usize = 8192;

/// Why an input wasn't read.
#[derive(Clone, Copy, Debug, PartialEq, Eq)]
pub enum InputFault {
    /// The reader failed.
    Read,
    /// The input has more than `TEXT_MAX` octets.
    TooLong,
    /// Memory was refused.
    NoMemory,
}

/// Reads all that there is. It takes at most `TEXT_MAX` + 1 octets.
///
/// `Read` is reported at the first error of the reader, even if the call was only interrupted.
pub fn read_text<R: Read>(alloc: Global, reader: &mut R) -> Result<Vec<u8>, InputFault>
    ensures read { IfOk result (λ text.
        Consumes (R.remaining reader.old) (R.remaining reader.new) text.items) }
    ensures end { OnOk result (IsAtEnd (R.remaining reader.new)) }
    ensures short { IfOk result (λ text. length text.items ≤ TEXT_MAX) }
    ensures too_long { IfErr result (λ fault. fault ≡ TooLong →
        IfSome (R.remaining reader.old) (λ text. TEXT_MAX < length text)) }
    ensures bounded { GivesAtMost (text_max + 1) (R.remaining reader.old) (R.remaining reader.new) }
{
    let mut text = Vec::new(alloc);
    let mut chunk = [0; CHUNK];
    while text.len() <= TEXT_MAX {
        let room = CHUNK.min(TEXT_MAX + 1 - text.len());
        let count = read_some(reader, &mut chunk[..room])?;
        if count == 0 {
            return Ok(text);
        }
        append(&mut text, &chunk[..count])?;
    }
    Err(InputFault::TooLong)
}

// One read, whose first error is reported.
fn read_some<R: Read>(reader: &mut R, room: &mut [u8]) -> Result<usize, InputFault>
    requires { 0 < length room.old }
    ensures bound { IfOk result (λ count. count ≤ length room.new) }
    ensures read { IfOk result (λ count.
        Consumes (R.remaining reader.old) (R.remaining reader.new) (take count room.new)) }
    ensures end { IfOk result (λ count. count ≡ 0 → IsAtEnd (R.remaining reader.new)) }
    ensures fault { IfErr result (λ fault. fault ≡ ReadFailed) }
    ensures kept { OnErr result (Keeps (R.remaining reader.old) (R.remaining reader.new)) }
{
    match reader.read(room) {
        Ok(count) => Ok(count),
        Err(_) => Err(InputFault::Read),
    }
}

fn append(text: &mut Vec<u8>, part: &[u8]) -> Result<(), InputFault>
    ensures appended { OnOk result (text.new.items ≡ text.old.items ++ part.now) }
    ensures fault { IfErr result (λ fault. fault ≡ NoMemory) }
{
    match text.extend_from_slice(part) {
        Ok(()) => Ok(()),
        Err(_) => Err(InputFault::NoMemory),
    }
}
