//! Replays over readers and writers that move few octets, or fail.

use crate::tests::replay::ends;
use crate::tests::transcripts::{GATEWAY, SECOND, SECOND_REPLY, START, START_REPLY};
use crate::tests::{are_octets, concat, holds, is_number};
use rad_replay::{RunFault, run_replay};
use std::alloc::Global;
use std::io;
use std::io::{Read, Write};
use std::process::Abort;

/// Two requests.
const PAIR: &[&str] = &[GATEWAY, START, "\n", SECOND, "\n"];

/// What goes wrong in a call.
#[derive(Clone, Copy)]
enum Wrong {
    Reset,
    Interrupted,
    /// No octet is moved.
    Nothing,
}

impl Wrong {
    fn outcome(self) -> io::Result<usize> {
        match self {
            Wrong::Reset => Err(io::Error::from(io::ErrorKind::ConnectionReset)),
            Wrong::Interrupted => Err(io::Error::from(io::ErrorKind::Interrupted)),
            Wrong::Nothing => Ok(0),
        }
    }
}

/// Moves at most `step` octets a call. The call after so many goes wrong, and those after it move octets again.
#[derive(Drop)]
struct Stumbling<T> {
    inner: T,
    step: usize,
    calls: usize,
    wrong: Wrong,
    has_stumbled: bool,
}

impl<T> Stumbling<T> {
    fn new(inner: T, step: usize, calls: usize, wrong: Wrong) -> Self {
        Stumbling {
            inner,
            step,
            calls,
            wrong,
            has_stumbled: false,
        }
    }

    /// How many of so many octets the next call moves.
    fn share(&mut self, len: usize) -> io::Result<usize> {
        let Some(calls) = self.calls.checked_sub(1) else {
            self.calls = usize::MAX;
            self.has_stumbled = true;
            return self.wrong.outcome();
        };
        self.calls = calls;
        Ok(len.min(self.step))
    }
}

impl<T: Read> Read for Stumbling<T> {
    fn read(&mut self, buf: &mut [u8]) -> io::Result<usize> {
        let share = self.share(buf.len())?.min(buf.len());
        self.inner.read(&mut buf[..share])
    }
}

impl<T: Write> Write for Stumbling<T> {
    fn write(&mut self, buf: &[u8]) -> io::Result<usize> {
        let share = self.share(buf.len())?.min(buf.len());
        self.inner.write(&buf[..share])
    }

    fn flush(&mut self) -> io::Result<()> {
        Ok(())
    }
}

/// How far a reader and a writer go, and what a replay of two requests then writes and ends with.
#[derive(Clone, Copy)]
struct Halt {
    name: &'static str,
    step: usize,
    reads: usize,
    writes: usize,
    output: &'static [&'static str],
    fault: &'static str,
}

fn replays<R: Abort + AllocGlobal>(rt: &R, halt: Halt) {
    let Halt { name, step, .. } = halt;
    let input = concat(rt, PAIR).expect(rt, name);
    let output = concat(rt, halt.output).expect(rt, name);
    let mut reader = Stumbling::new(input.as_bytes(), step, halt.reads, Wrong::Reset);
    let mut writer = Stumbling::new(Vec::new(rt.alloc()), step, halt.writes, Wrong::Reset);
    let ended = run_replay(rt.alloc(), &mut reader, &mut writer);
    are_octets(rt, writer.inner.as_slice(), output.as_bytes(), name);
    ends(rt, ended, halt.fault, name);
}

#[test]
fn few_octets_and_faults(rt: HostRuntime) {
    const ROWS: &[Halt] = &[
        Halt {
            name: "an octet a time",
            step: 1,
            reads: usize::MAX,
            writes: usize::MAX,
            output: &["1 ", START_REPLY, "2 ", SECOND_REPLY],
            fault: "",
        },
        Halt {
            name: "a fault in the middle of the input",
            step: 100,
            reads: 1,
            writes: usize::MAX,
            output: &[],
            fault: "read failed",
        },
        Halt {
            name: "a fault in the place of the input's end",
            step: usize::MAX,
            reads: 1,
            writes: usize::MAX,
            output: &[],
            fault: "read failed",
        },
        Halt {
            name: "a fault at the second write",
            step: usize::MAX,
            reads: usize::MAX,
            writes: 1,
            output: &["1 ", START_REPLY],
            fault: "write failed",
        },
    ];
    for halt in ROWS.iter() {
        replays(&rt, *halt);
    }
}

/// Asserts that a replay ends at the fault after so many calls, when so many octets were given.
fn ends_at_fault<R: Abort + AllocGlobal>(rt: &R, step: usize, calls: usize, given: usize) {
    let input = concat(rt, PAIR).expect(rt, "a transcript");
    let mut reader = Stumbling::new(input.as_bytes(), step, calls, Wrong::Interrupted);
    let mut written = Vec::new(rt.alloc());
    let ended = run_replay(rt.alloc(), &mut reader, &mut written);
    let left = reader.inner.len();
    holds(rt, reader.has_stumbled, "a read failed");
    are_octets(rt, written.as_slice(), b"", "after a fault");
    is_number(
        rt,
        left.saturating_add(given),
        input.len(),
        "octets that were given",
    );
    ends(rt, ended, "read failed", "after a fault");
}

/// Nothing is read after the first fault.
#[test]
fn a_reader_that_goes_on_after_a_fault(rt: HostRuntime) {
    const ROWS: &[(usize, usize, usize)] = &[(100, 0, 0), (1, 1, 1), (100, 2, 200), (7, 9, 63)];
    for (step, calls, given) in ROWS.iter() {
        ends_at_fault(&rt, *step, *calls, *given);
    }
}

/// Seven datagrams, each discarded for another reason.
const DISCARDED: &str = "[[client]]\naddress = \"192.168.1.16\"\nsecret = \"xyzzy5461\"\n---\n\
    0 acct 192.168.1.17:1813 -\n\
    1 acct 192.168.1.16:1813 -\n\
    2 acct 192.168.1.16:1813 0401001300000000000000000000000000000000\n\
    3 acct 192.168.1.16:1813 0401001500000000000000000000000000000000\n\
    4 acct 192.168.1.16:1813 04010016000000000000000000000000000000002801\n\
    5 acct 192.168.1.16:1813 0501001400000000000000000000000000000000\n\
    6 acct 192.168.1.16:1813 0401001400000000000000000000000000000000\n";

const DISCARDS: &str = "1 drop 1 UnknownClient\n\
    2 drop 2 Short\n\
    3 drop 3 BadLength\n\
    4 drop 4 Truncated\n\
    5 drop 5 BadAttributes\n\
    6 drop 6 WrongCode\n\
    7 drop 7 BadAuthenticator\n";

/// Which of the two goes wrong.
#[derive(Clone, Copy)]
enum Side {
    Reader,
    Writer,
}

/// How a replay of `DISCARDED` ended, and what it wrote.
#[derive(Clone, Copy)]
enum End {
    /// No fault: all lines.
    Whole,
    /// `Read`: nothing.
    Read,
    /// `Write`: a front of the lines.
    Write,
    Other,
}

/// A replay in which both sides move at most `step` octets a call, and one of them goes wrong after so many calls.
fn end_of(alloc: Global, side: Side, step: usize, calls: usize, wrong: Wrong) -> End {
    let (reads, writes) = match side {
        Side::Reader => (calls, usize::MAX),
        Side::Writer => (usize::MAX, calls),
    };
    let mut reader = Stumbling::new(DISCARDED.as_bytes(), step, reads, wrong);
    let mut writer = Stumbling::new(Vec::new(alloc), step, writes, wrong);
    let ended = run_replay(alloc, &mut reader, &mut writer);
    end_with(ended, writer.inner.as_slice())
}

fn end_with(ended: Result<(), RunFault>, written: &[u8]) -> End {
    let lines = DISCARDS.as_bytes();
    match ended {
        Ok(()) if written == lines => End::Whole,
        Err(RunFault::Read) if written.is_empty() => End::Read,
        Err(RunFault::Write) if lines.starts_with(written) && written.len() < lines.len() => {
            End::Write
        }
        _ => End::Other,
    }
}

/// How many calls one side makes, if each of them that goes wrong, one at a time, ends the replay with that side's fault.
fn calls_that_fail(alloc: Global, side: Side, step: usize, wrong: Wrong) -> Option<usize> {
    for calls in 0..1000 {
        match (side, end_of(alloc, side, step, calls, wrong)) {
            (Side::Reader, End::Read) | (Side::Writer, End::Write) => {}
            (_, End::Whole) => return Some(calls),
            _ => return None,
        }
    }
    None
}

#[test]
fn each_call_goes_wrong(rt: HostRuntime) {
    const WHOLE: usize = usize::MAX;
    const READS: usize = DISCARDED.len() + 1;
    const WRITES: usize = DISCARDS.len();
    const ROWS: &[(Side, usize, Wrong, usize, &str)] = &[
        (Side::Reader, WHOLE, Wrong::Reset, 2, "reads"),
        (Side::Reader, 1, Wrong::Reset, READS, "reads of an octet"),
        (Side::Writer, WHOLE, Wrong::Reset, 7, "writes"),
        (
            Side::Writer,
            WHOLE,
            Wrong::Interrupted,
            7,
            "interrupted writes",
        ),
        (Side::Writer, WHOLE, Wrong::Nothing, 7, "writes of nothing"),
        (Side::Writer, 1, Wrong::Reset, WRITES, "writes of an octet"),
        (
            Side::Writer,
            1,
            Wrong::Nothing,
            WRITES,
            "writes of an octet or nothing",
        ),
    ];
    for (side, step, wrong, want, what) in ROWS.iter() {
        let calls = calls_that_fail(rt.alloc(), *side, *step, *wrong);
        holds(&rt, calls == Some(*want), what);
    }
}

/// Gives so many octets, a line feed each.
#[derive(Drop)]
struct LineFeeds {
    left: usize,
    given: usize,
}

impl Read for LineFeeds {
    fn read(&mut self, buf: &mut [u8]) -> io::Result<usize> {
        let count = buf.len().min(self.left);
        buf[..count].fill(b'\n');
        self.left -= count;
        self.given = self.given.saturating_add(count);
        Ok(count)
    }
}

#[test]
fn reads_one_octet_past_the_most(rt: HostRuntime) {
    let mut reader = LineFeeds {
        left: 20_000_000,
        given: 0,
    };
    let mut written = Vec::new(rt.alloc());
    let ended = run_replay(rt.alloc(), &mut reader, &mut written);
    are_octets(&rt, written.as_slice(), b"", "20,000,000 octets");
    holds(
        &rt,
        reader.given <= 16_777_217,
        "at most one octet more was read",
    );
    ends(&rt, ended, "input too long", "20,000,000 octets");
}
