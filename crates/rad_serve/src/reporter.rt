//! The watcher of a server's turns, which hands texts over to the threads that write.

use crate::moments::{Moments, wall};
use crate::options::Reports;
use crate::progress::Progress;
use crate::writer::Text;
use crossbeam_channel::Sender;
use rad_server::Server;
use rad_shell::{Service, Turn, Watch};
use rad_watch::{Now, Roster, Watcher, record};
use std::alloc::AllocGlobal;
use std::mem;
use std::sync::Wait;
use std::time::Clock;

/// How long it is from one writing of the files to the next, in milliseconds.
const FILES_EVERY: u64 = 10_000;

/// How long it is from one look for expired sessions to the next, in milliseconds.
const LOOK_EVERY: u64 = 1_000;

/// How many octets of a recording may wait, before one more turn.
const RECORD_ROOM: usize = 4_194_304;

/// What becomes of a recording.
#[derive(Clone, Copy, PartialEq, Eq)]
enum Record {
    /// There is none, or its end was handed over.
    Closed,
    /// It goes on.
    Open,
    /// Something of it was left out, and its end is still to be handed over.
    Broken,
}

/// Watches turns, and hands over what is to be written. It never waits: where a thread can't follow, lines and the recording stay
/// here until it can, as far as there is room, and a file is left out.
#[derive(Drop)]
pub(crate) struct Reporter<'r, R> {
    rt: &'r R,
    moments: Moments,
    watcher: Watcher,
    lines: Sender<Vec<u8>>,
    files: Sender<Text>,
    progress: &'r Progress,
    has_metrics: bool,
    has_sessions: bool,
    record: Record,
    // The text of lines for which there was no room yet. Later ones wait with the watcher.
    waiting: Option<Vec<u8>>,
    // What of the recording wasn't handed over yet.
    recorded: Vec<u8>,
    // When the present turn had its datagrams, in microseconds.
    begun: u64,
    // When the files are due, and the next look, in milliseconds.
    files_due: u64,
    look_due: u64,
}

impl<'r, R: Clock + Wait + AllocGlobal> Reporter<'r, R> {
    /// A reporter of these reports, but for a recording.
    pub fn new(
        rt: &'r R,
        moments: Moments,
        watcher: Watcher,
        (lines, files): (Sender<Vec<u8>>, Sender<Text>),
        progress: &'r Progress,
        reports: &Reports,
    ) -> Reporter<'r, R> {
        Reporter {
            rt,
            moments,
            watcher,
            lines,
            files,
            progress,
            has_metrics: reports.metrics.is_some(),
            has_sessions: reports.sessions.is_some(),
            record: Record::Closed,
            waiting: None,
            recorded: Vec::new(rt.alloc()),
            begun: 0,
            files_due: 0,
            look_due: 0,
        }
    }

    /// Records from now on, after this head.
    pub fn record_after(&mut self, head: Vec<u8>) {
        self.record = Record::Open;
        self.recorded = head;
    }

    /// Hands over all that is left, and the files once more. It may wait for the threads that write.
    pub fn finish(&mut self, server: &Server) {
        let now = now(self.rt, self.moments);
        self.watcher.finish(now);
        if self.record == Record::Open {
            let text = mem::replace(&mut self.recorded, Vec::new(self.rt.alloc()));
            let _ = self.files.send(self.rt, Text::Record(text));
        }
        self.hand_over_files(server, now);
        // The lines come last: nobody may read them.
        let waiting = self.waiting.take();
        self.send_lines(waiting);
        let lines = self.watcher.take_lines();
        self.send_lines(lines);
    }

    // Waits until the thread that writes lines takes these.
    fn send_lines(&self, lines: Option<Vec<u8>>) {
        if let Some(lines) = lines {
            let _ = self.lines.send(self.rt, lines);
        }
    }

    fn hand_over(&mut self, server: &Server, now: Now) {
        if now.moment >= self.look_due {
            self.look_due = now.moment.saturating_add(LOOK_EVERY);
            self.watcher.look(server, now);
        }
        if now.moment >= self.files_due {
            self.files_due = now.moment.saturating_add(FILES_EVERY);
            self.hand_over_files(server, now);
        }
        self.hand_over_lines();
    }

    fn hand_over_lines(&mut self) {
        if let Some(lines) = self.next_lines() {
            if let Err(error) = self.lines.try_send(self.rt, lines) {
                self.waiting = Some(error.into_inner());
            }
        }
    }

    // The lines that are next to be handed over, if there are any.
    fn next_lines(&mut self) -> Option<Vec<u8>> {
        match self.waiting.take() {
            Some(lines) => Some(lines),
            None => self.watcher.take_lines(),
        }
    }

    fn hand_over_files(&mut self, server: &Server, now: Now) {
        if self.has_metrics {
            let unwritten = self.progress.unwritten();
            let metrics = self.watcher.metrics(server, now, unwritten);
            self.hand_over_file(metrics.map(Text::Metrics));
        }
        if self.has_sessions {
            let roster = Roster::of(self.rt.alloc(), server, now);
            self.hand_over_file(roster.ok().map(Text::Sessions));
        }
    }

    // Hands over a text, or counts one for which there is no memory or no room.
    fn hand_over_file(&mut self, text: Option<Text>) {
        let is_handed_over = match text {
            Some(text) => self.files.try_send(self.rt, text).is_ok(),
            None => false,
        };
        if !is_handed_over {
            self.progress.count_unwritten();
        }
    }

    // Adds a turn to the recording, and hands over what there is of it.
    fn record_turn(&mut self, turn: &Turn) {
        match self.record {
            Record::Closed => {}
            Record::Open if !self.progress.is_recording() => self.record = Record::Closed,
            Record::Open => self.record_more(turn),
            Record::Broken => {
                if self.files.try_send(self.rt, Text::RecordEnd).is_ok() {
                    self.record = Record::Closed;
                }
            }
        }
    }

    fn record_more(&mut self, turn: &Turn) {
        if self.recorded.len() > RECORD_ROOM || !record(&mut self.recorded, turn) {
            self.record = Record::Broken;
            return;
        }
        if self.recorded.is_empty() || self.files.is_full() {
            return;
        }
        let text = mem::replace(&mut self.recorded, Vec::new(self.rt.alloc()));
        if self.files.try_send(self.rt, Text::Record(text)).is_err() {
            self.record = Record::Broken;
        }
    }
}

impl<'r, R: Clock + Wait + AllocGlobal> Watch for Reporter<'r, R> {
    fn received(&mut self) {
        self.begun = micros(self.rt);
    }

    fn see(&mut self, turn: &Turn) {
        let took = micros(self.rt).saturating_sub(self.begun);
        let now = now(self.rt, self.moments);
        self.watcher.see(turn, took, now);
        self.record_turn(turn);
        self.hand_over(turn.service.server(), now);
    }

    fn lost(&mut self, service: &Service, datagrams: usize) {
        let now = now(self.rt, self.moments);
        self.watcher.lost(datagrams, now);
        self.hand_over(service.server(), now);
    }
}

/// The time by both clocks; a clock that fails gives 0.
pub(crate) fn now<C: Clock>(clock: &C, moments: Moments) -> Now {
    Now {
        since_1970: wall(clock),
        moment: moments.now(clock),
    }
}

fn micros<C: Clock>(clock: &C) -> u64 {
    match clock.monotonic() {
        Ok(time) => u64::try_from(time.as_micros()).unwrap_or(u64::MAX),
        Err(_) => 0,
    }
}
