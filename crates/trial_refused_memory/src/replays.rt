//! Calls of `rad_replay`.
//!
//! Neither the readers nor the writers take memory, so the allocations that can be refused are those of the calls.

use crate::requests::NEMO;
use crate::trial::{Called, Trial, Verdict, are_alike, begin, end, judge, keep};
use rad_auth::Arrival;
use rad_config::{ConfigFault, InputFault, Key, MOMENT_MAX, Part, Spot, read_text};
use rad_packet::Frame;
use rad_replay::{
    Kind, Make, MakeFault, RunFault, push_address, push_datagram_text, push_decimal, run_replay,
};
use std::alloc::Global;
use std::io;
use std::io::{Read, Write};
use test_common::{CAMPUS, CLIENT};

#[derive(Clone, Copy)]
pub(crate) enum Call {
    ReadText,
    Replay,
    /// The configuration has a fault.
    Fault,
    Make,
    PushDatagramText,
    PushAddress,
    PushDecimal,
}

/// The number of datagrams of the transcript.
const DATAGRAMS: usize = 5;

/// The requests of nemo and bruce; kay's, her answer to the challenge, and this once more, when it is answered already.
const LINES: [&str; DATAGRAMS] = [
    "0 auth 192.168.1.16:1645 010000380f403f9473978057bd83d5cb98f4227a01066e656d6f\
     02120dbe708d93d413ce3196e43f782a0aee0406c0a80110050600000003\n",
    "0 auth 192.168.1.16:1645 0101002d000000000000000000000000000000000107627275636502126e25c34d\
     79904b2e98952cb37f163fb1\n",
    "0 auth 192.168.1.16:1646 0100002b0000000000000000000000000000000001056b617902126d3aa23f1290\
     4b2e98952cb37f163fb1\n",
    "0 auth 192.168.1.16:1646 010100450000000000000000000000000000000001056b61790212297a930e1290\
     4b2e98952cb37f163fb1181a000000000000000100000000000000000000000000000003\n",
    "0 auth 192.168.1.16:1646 010200450000000000000000000000000000000001056b61790212297a930e1290\
     4b2e98952cb37f163fb1181a000000000000000100000000000000000000000000000003\n",
];

/// A datagram that changes nothing, from an unknown source.
const STRANGE: &str = "0 auth 192.168.1.17:1645 -\n";

const NO_MEMORY: &str = " nomemory";

const UNKNOWN: &str = " drop 1 UnknownClient";

/// The last entry has no password.
const FAULTY: &str = "[[client]]\naddress = \"192.168.1.16\"\nsecret = \"xyzzy5461\"\n\
    [[pool]]\nname = \"a\"\nfirst = \"10.0.0.1\"\nlast = \"10.0.0.9\"\n\
    [[user]]\nname = \"nemo\"\n---\n\
    8 acct 192.168.1.17:1813 -\n";

const MISSING: ConfigFault = ConfigFault::Missing(Spot {
    part: Part::User,
    index: 1,
    key: Key::Password,
});

pub(crate) fn judge_call(alloc: Global, call: Call) -> Verdict {
    match call {
        Call::ReadText => judge(alloc, Some(TextTrial { alloc, given: None })),
        Call::Replay => judge_replay(alloc),
        Call::Fault => judge_fault(alloc),
        Call::Make => judge(alloc, Some(MakeTrial { alloc, given: None })),
        Call::PushDatagramText | Call::PushAddress | Call::PushDecimal => {
            judge(alloc, Some(PushTrial::new(alloc, call)))
        }
    }
}

/// Something is appended to a text.
#[derive(Drop)]
struct PushTrial {
    alloc: Global,
    call: Call,
    text: Vec<u8>,
}

impl PushTrial {
    fn new(alloc: Global, call: Call) -> PushTrial {
        PushTrial {
            alloc,
            call,
            text: Vec::new(alloc),
        }
    }
}

impl Trial for PushTrial {
    fn copy(&self) -> Option<PushTrial> {
        Some(PushTrial::new(self.alloc, self.call))
    }

    fn is_like(&self, other: &PushTrial) -> bool {
        self.text == other.text
    }

    // After a refusal a text may have a part of it, which a caller cuts off.
    fn call(&mut self) -> Called {
        let is_done = pushes(&mut self.text, self.call);
        if !is_done {
            self.text.clear();
        }
        Called::by(is_done)
    }
}

// Whether there is memory for what is appended.
fn pushes(text: &mut Vec<u8>, call: Call) -> bool {
    match call {
        Call::PushAddress => push_address(text, CLIENT).is_ok(),
        Call::PushDecimal => push_decimal(text, u64::MAX).is_ok(),
        _ => {
            let arrival = Arrival {
                source: CLIENT,
                port: NEMO.port,
                door: NEMO.door,
                octets: NEMO.octets,
            };
            push_datagram_text(text, MOMENT_MAX, Some([0xff; 16]), &arrival).is_ok()
        }
    }
}

/// A text is read.
#[derive(Drop)]
struct TextTrial {
    alloc: Global,
    given: Option<Vec<u8>>,
}

impl Trial for TextTrial {
    fn copy(&self) -> Option<TextTrial> {
        Some(TextTrial {
            alloc: self.alloc,
            given: None,
        })
    }

    fn is_like(&self, other: &TextTrial) -> bool {
        are_alike(&self.given, &other.given, |given, other| given == other)
    }

    fn call(&mut self) -> Called {
        match read_text(self.alloc, &mut CAMPUS.as_bytes()) {
            Ok(text) => keep(&mut self.given, Ok(text)),
            Err(InputFault::NoMemory) => Called::Refused,
            Err(InputFault::Read | InputFault::TooLong) => Called::Failed,
        }
    }
}

/// A request is made with each option that needs memory.
#[derive(Drop)]
struct MakeTrial {
    alloc: Global,
    given: Option<Frame>,
}

impl Trial for MakeTrial {
    fn copy(&self) -> Option<MakeTrial> {
        Some(MakeTrial {
            alloc: self.alloc,
            given: None,
        })
    }

    fn is_like(&self, other: &MakeTrial) -> bool {
        are_alike(&self.given, &other.given, |given, other| {
            given.octets() == other.octets()
        })
    }

    fn call(&mut self) -> Called {
        let make = Make {
            kind: Kind::Access,
            secret: "xyzzy5461",
            id: 7,
            user: Some("nemo"),
            password: Some("arctangent"),
            chap: None,
            status: 1,
            random: "0f403f9473978057bd83d5cb98f4227a",
            extra: "2105616263",
            mac: true,
        };
        match make.request(self.alloc) {
            Ok(frame) => keep(&mut self.given, Ok(frame)),
            Err(MakeFault::NoMemory) => Called::Refused,
            Err(_) => Called::Failed,
        }
    }
}

/// Reads the transcript piece by piece: the configuration, the divider, and the lines. Those that are skipped are replaced.
#[derive(Drop)]
struct Transcript {
    is_skipped: [bool; DATAGRAMS],
    // The next piece, counted from the divider.
    next: usize,
    rest: &'static [u8],
}

impl Transcript {
    fn without(is_skipped: [bool; DATAGRAMS]) -> Transcript {
        Transcript {
            is_skipped,
            next: 0,
            rest: CAMPUS.as_bytes(),
        }
    }

    fn go_on(&mut self) {
        if self.next <= DATAGRAMS {
            self.rest = self.piece().as_bytes();
            self.next += 1;
        }
    }

    fn piece(&self) -> &'static str {
        let Some(line) = self.next.checked_sub(1) else {
            return "---\n";
        };
        match (self.is_skipped.get(line), LINES.get(line)) {
            (Some(true), _) => STRANGE,
            (_, Some(line)) => line,
            _ => "",
        }
    }
}

impl Read for Transcript {
    fn read(&mut self, buf: &mut [u8]) -> io::Result<usize> {
        if self.rest.is_empty() {
            self.go_on();
        }
        self.rest.read(buf)
    }
}

/// Keeps the first octets that are written.
#[derive(Drop)]
struct Page {
    octets: [u8; 1024],
    len: usize,
}

impl Page {
    fn new() -> Page {
        Page {
            octets: [0; 1024],
            len: 0,
        }
    }

    fn written(&self) -> &[u8] {
        &self.octets[..self.len.min(1024)]
    }

    fn text(&self) -> &str {
        match std::str::from_utf8(self.written()) {
            Ok(text) => text,
            Err(_) => "",
        }
    }
}

impl Write for Page {
    fn write(&mut self, buf: &[u8]) -> io::Result<usize> {
        let start = self.len.min(1024);
        let count = buf.len().min(1024 - start);
        self.octets[start..start + count].copy_from_slice(&buf[..count]);
        self.len = start + count;
        Ok(count)
    }

    fn flush(&mut self) -> io::Result<()> {
        Ok(())
    }
}

/// Either each datagram has its line: `nomemory`, or what it has if those with `nomemory` are skipped. Or nothing is written, it is
/// reported that memory was refused, and the replay, once more, writes all lines.
fn judge_replay(alloc: Global) -> Verdict {
    let mut page = Page::new();
    let mut transcript = Transcript::without([false; DATAGRAMS]);
    begin(alloc);
    let ended = run_replay(alloc, &mut transcript, &mut page);
    end(alloc);
    match ended {
        Ok(()) => judge_lines(alloc, page.text()),
        Err(_) if page.len > 0 => Verdict::LinesBeforeFault,
        Err(RunFault::NoMemory | RunFault::Config(ConfigFault::NoMemory)) => judge_again(alloc),
        Err(_) => Verdict::Fault,
    }
}

fn judge_again(alloc: Global) -> Verdict {
    let mut page = Page::new();
    let mut transcript = Transcript::without([false; DATAGRAMS]);
    match run_replay(alloc, &mut transcript, &mut page) {
        Ok(()) if page.text().contains(NO_MEMORY) => Verdict::Other,
        Ok(()) => judge_lines(alloc, page.text()),
        Err(_) => Verdict::Other,
    }
}

fn judge_lines(alloc: Global, text: &str) -> Verdict {
    let mut page = Page::new();
    let mut transcript = Transcript::without(unanswered(text));
    match run_replay(alloc, &mut transcript, &mut page) {
        Ok(()) => Verdict::of(are_alike_lines(text, page.text())),
        Err(_) => Verdict::Unready,
    }
}

// Which lines say that memory was refused.
fn unanswered(text: &str) -> [bool; DATAGRAMS] {
    let mut is_unanswered = [false; DATAGRAMS];
    for (place, line) in text.lines().enumerate() {
        if place < DATAGRAMS && line.ends_with(NO_MEMORY) {
            is_unanswered[place] = true;
        }
    }
    is_unanswered
}

fn are_alike_lines(text: &str, skipping: &str) -> bool {
    let count = text.lines().count();
    let is_each_alike = text
        .lines()
        .zip(skipping.lines())
        .all(|(line, skipped)| is_alike(line, skipped));
    count == DATAGRAMS && skipping.lines().count() == count && is_each_alike
}

fn is_alike(line: &str, skipped: &str) -> bool {
    match line.strip_suffix(NO_MEMORY) {
        Some(number) => skipped.strip_suffix(UNKNOWN) == Some(number),
        None => line == skipped,
    }
}

/// Gives octets, and knows whether it reported their end.
#[derive(Drop)]
struct Octets<'a> {
    rest: &'a [u8],
    has_ended: bool,
}

impl<'a> Read for Octets<'a> {
    fn read(&mut self, buf: &mut [u8]) -> io::Result<usize> {
        let count = self.rest.read(buf)?;
        self.has_ended = count == 0;
        Ok(count)
    }
}

/// The configuration's fault is reported, or that reading it was refused memory; that the replay was refused memory is
/// reported only while it still reads its input.
fn judge_fault(alloc: Global) -> Verdict {
    let mut octets = Octets {
        rest: FAULTY.as_bytes(),
        has_ended: false,
    };
    let mut page = Page::new();
    begin(alloc);
    let ended = run_replay(alloc, &mut octets, &mut page);
    end(alloc);
    match ended {
        Ok(()) => Verdict::NoFault,
        Err(_) if page.len > 0 => Verdict::LinesBeforeFault,
        Err(RunFault::Config(ConfigFault::NoMemory)) => Verdict::Right,
        Err(RunFault::Config(fault)) if fault == MISSING => Verdict::Right,
        Err(RunFault::NoMemory) if !octets.has_ended => Verdict::Right,
        Err(_) => Verdict::Fault,
    }
}
