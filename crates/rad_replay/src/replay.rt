//! A replay: reads a transcript, and writes a line for each datagram.
ghost use Rattle.std.specs.Prelude.{◌≡◌, ◌+◌, ◌≤◌, ◌<◌, length, IfOk, IfErr, IfSome, OnErr, OnOk, Some};
ghost use Rattle.std.specs.Io.KnownBytes.{Appends, Consumes, IsAtEnd};
ghost use Rattle.rad_config.specs.Inputs.{GivesAtMost, text_max};
ghost use Rattle.rad_text.specs.Lines.{datagram_lines, lines_of};
ghost use Rattle.rad_replay.specs.Replays.{EndsLines, IsReadFault};
ghost use Rattle.rad_replay.specs.Transcripts.{BreaksOff, EndsRun, IsAfterReading, IsAllRead};
ghost use Rattle.rad_replay.specs.declared.run_fault.RunFault.TheVariants.{TooLong, Write as WriteFailed};

use crate::answering::Replay;
use crate::datagram_line::read_datagram_line;
use crate::run_fault::RunFault;
use rad_auth::Arrival;
use rad_config::{Config, InputFault, TEXT_MAX, read_configuration, read_text};
use rad_packet::LENGTH_MAX;
use rad_text::lines::{DatagramLines, divide};
use std::alloc::Global;
use std::io::{Read, Write};

/// Reads a transcript, and writes a line for each datagram.
///
/// `TooLong`, `NoDivider` and `Config` are reported in this order; with these, `Read` and `NoMemory` nothing was written. With
/// `BadLine` the lines of the datagrams before the malformed line were written. With `Write` a front of the lines of some first
/// datagrams was written, which may end inside a line; at least one octet of these lines wasn't.
///
/// `Read` and `Write` are reported at the first error of the reader or the writer, even if the call was only interrupted. A
/// write that takes no octet counts as an error.
pub fn run_replay<R: Read, W: Write>(
    alloc: Global,
    reader: &mut R,
    writer: &mut W,
) -> Result<(), RunFault>
    ensures ends { IfSome (R.remaining reader.old) (λ text.
        EndsRun text (Appends (W.contents writer.old) (W.contents writer.new)) result) }
    ensures all_read { IsAfterReading result
        → IsAllRead (R.remaining reader.old) (R.remaining reader.new) }
    ensures bounded { GivesAtMost (text_max + 1) (R.remaining reader.old) (R.remaining reader.new) }
{
    let text = read_input(alloc, reader)?;
    let Some((configuration, datagrams)) = divide(&text) else {
        return Err(RunFault::NoDivider);
    };
    let config = match read_configuration(alloc, configuration) {
        Ok(config) => config,
        Err(fault) => return Err(RunFault::Config(fault)),
    };
    answer_lines(alloc, &config, datagrams, writer)
}

// Reads the whole input.
fn read_input<R: Read>(alloc: Global, reader: &mut R) -> Result<Vec<u8>, RunFault>
    ensures read { IfOk result (λ text.
        Consumes (R.remaining reader.old) (R.remaining reader.new) text.items) }
    ensures end { OnOk result (IsAtEnd (R.remaining reader.new)) }
    ensures short { IfOk result (λ text. length text.items ≤ TEXT_MAX) }
    ensures too_long { IfErr result (λ fault. fault ≡ TooLong →
        IfSome (R.remaining reader.old) (λ text. TEXT_MAX < length text)) }
    ensures faults { IfErr result IsReadFault }
    ensures bounded { GivesAtMost (text_max + 1) (R.remaining reader.old) (R.remaining reader.new) }
{
    match read_text(alloc, reader) {
        Ok(text) => Ok(text),
        Err(InputFault::Read) => Err(RunFault::Read),
        Err(InputFault::TooLong) => Err(RunFault::TooLong),
        Err(InputFault::NoMemory) => Err(RunFault::NoMemory),
    }
}

// Answers the datagram lines of a text, up to the first malformed one.
fn answer_lines<W: Write>(
    alloc: Global,
    config: &Config,
    datagrams: &[u8],
    writer: &mut W,
) -> Result<(), RunFault>
    requires { length (datagram_lines (lines_of datagrams.now)) ≤ TEXT_MAX }
    ensures { EndsLines config.now (datagram_lines (lines_of datagrams.now))
        (Appends (W.contents writer.old) (W.contents writer.new)) result }
{
    let mut replay = match Replay::open(alloc, config) {
        Ok(replay) => replay,
        Err(_) => return Err(RunFault::NoMemory),
    };
    let mut octets = [0; LENGTH_MAX];
    let mut number = 0;
    let mut lines = DatagramLines::new(datagrams);
    while let Some(line) = lines.next() {
        number += 1;
        let Some(found) = read_datagram_line(line, &mut octets) else {
            return Err(RunFault::BadLine(number));
        };
        let arrival = Arrival {
            source: found.source,
            port: found.port,
            door: found.door,
            octets: &octets[..found.len],
        };
        replay.answer(number, found.moment, found.draw, arrival);
        write_line(writer, replay.line())?;
    }
    Ok(())
}

// Writes a line, in as many writes as the writer needs, up to its first error. A write of no octet counts as one.
fn write_line<W: Write>(writer: &mut W, line: &[u8]) -> Result<(), RunFault>
    ensures written { OnOk result
        (Appends (W.contents writer.old) (W.contents writer.new) line.now) }
    ensures fault { IfErr result (λ fault. fault ≡ WriteFailed) }
    ensures broken_off { OnErr result
        (BreaksOff (Appends (W.contents writer.old) (W.contents writer.new)) line.now) }
{
    let mut rest = line;
    'writes: while !rest.is_empty() {
        match writer.write(rest) {
            Ok(0) => return Err(RunFault::Write),
            Ok(count) => rest = &rest[count..],
            Err(_) => return Err(RunFault::Write),
        }
    }
    Ok(())
}
