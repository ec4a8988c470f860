//! The threads that write what a reporter hands over.

use crate::options::{Options, Reports};
use crate::progress::Progress;
use crate::recording::Recording;
use crate::warner::Warner;
use crossbeam_channel::{Receiver, Sender};
use rad_check::push_warning;
use rad_config::Config;
use rad_watch::Roster;
use std::alloc::AllocGlobal;
use std::fmt::Display;
use std::fs::{OpenFile, OpenOptions, Permissions};
use std::io::Write;
use std::os::unix::fs::{OpenOptionsExt, PermissionsExt};
use std::rt::Files;
use std::sync::Wait;
use std::{fs, io};

/// The mode of the file of the metrics, which anybody may read.
const METRICS_MODE: u32 = 0o644;

/// The mode of the file of the sessions, which has the names of users.
const SESSIONS_MODE: u32 = 0o640;

/// The mode of a file that isn't written yet.
const NEW_MODE: u32 = 0o600;

/// A text for a file.
#[derive(Drop)]
pub(crate) enum Text {
    /// What the file of the metrics is to contain.
    Metrics(Vec<u8>),
    /// Of whom the file of the sessions is to tell.
    Sessions(Roster),
    /// What comes next in the recording.
    Record(Vec<u8>),
    /// A text of the recording was left out, so that it ends.
    RecordEnd,
}

/// What those who write have.
#[derive(Drop)]
pub(crate) struct Writing<'w, 'c> {
    pub lines: Receiver<Vec<u8>>,
    pub files: Receiver<Text>,
    /// For the warnings of the thread that writes files.
    pub warned: Sender<Vec<u8>>,
    pub options: &'w Options,
    pub config: &'c Config,
    pub progress: &'w Progress,
}

/// Writes lines to standard error until nobody hands over any more. Where some couldn't be written, a line before the next says so.
pub(crate) fn write_lines<R: Eprint + Wait + AllocGlobal>(
    rt: &R,
    texts: &Receiver<Vec<u8>>,
    progress: &Progress,
) {
    let mut has_gap = false;
    for lines in texts.iter(rt) {
        has_gap = has_gap && !print_gap(rt);
        if !print(rt, &lines) {
            has_gap = true;
            progress.count_unwritten();
        }
    }
}

// Prints that lines are missing, the last of which may be cut off. Whether it could.
fn print_gap<R: Eprint + AllocGlobal>(rt: &R) -> bool {
    let mut line = String::new(rt.alloc());
    push_warning(
        &mut line,
        "writes to standard error again: lines before this one are missing",
    );
    !line.is_empty() && print(rt, b"\n") && print(rt, line.as_bytes())
}

// Whether these lines were printed.
fn print<R: Eprint>(rt: &R, lines: &[u8]) -> bool {
    match std::str::from_utf8(lines) {
        Ok(lines) => rt.eprint(lines).is_ok(),
        Err(_) => false,
    }
}

/// Writes files until nobody hands over any more.
pub(crate) fn write_files<R: Files + Wait + AllocGlobal>(
    rt: &R,
    texts: &Receiver<Text>,
    reports: &Reports,
    config: &Config,
    warner: Warner,
) {
    let mut files = ReportFiles {
        rt,
        config,
        warner,
        metrics: Replaced::at(&reports.metrics, METRICS_MODE),
        sessions: Replaced::at(&reports.sessions, SESSIONS_MODE),
        record: reports.record.as_ref(),
        recording: None,
    };
    for text in texts.iter(rt) {
        files.write(&text);
    }
}

// A file that is replaced again and again, if there is to be one.
#[derive(Drop)]
struct Replaced<'w> {
    path: Option<&'w String>,
    mode: u32,
    // Whether it was told that it can't be written, and not yet that it can again.
    is_told: bool,
}

impl<'w> Replaced<'w> {
    fn at(path: &'w Option<String>, mode: u32) -> Replaced<'w> {
        Replaced {
            path: path.as_ref(),
            mode,
            is_told: false,
        }
    }

    // Puts a text in its place. That this can't be done is counted, and told once; so is that it can be done again.
    fn replace<R: Files + Wait + AllocGlobal>(&mut self, rt: &R, text: &[u8], warner: &Warner) {
        let Some(path) = self.path else {
            return;
        };
        match write_by_rename(rt, path, self.mode, text) {
            Ok(()) if self.is_told => {
                self.is_told = !warner.warn(rt, format_args!("writes to {path} again"));
            }
            Ok(()) => {}
            Err(error) => {
                warner.progress.count_unwritten();
                if !self.is_told {
                    self.is_told = warner.warn(rt, format_args!("cannot write {path}: {error}"));
                }
            }
        }
    }
}

// The files of the reports.
#[derive(Drop)]
struct ReportFiles<'w, R: Files> {
    rt: &'w R,
    // It has the users' names.
    config: &'w Config,
    warner: Warner<'w>,
    metrics: Replaced<'w>,
    sessions: Replaced<'w>,
    record: Option<&'w String>,
    // It begins with its first text.
    recording: Option<Recording<R::File>>,
}

impl<'w, R: Files + Wait + AllocGlobal> ReportFiles<'w, R> {
    fn write(&mut self, text: &Text) {
        match text {
            Text::Metrics(text) => self.metrics.replace(self.rt, text, &self.warner),
            Text::Sessions(roster) => self.write_roster(roster),
            Text::Record(text) => self.record(text),
            Text::RecordEnd => self.end_recording(
                "datagrams came faster than they could be written, or memory was refused",
            ),
        }
    }

    fn write_roster(&mut self, roster: &Roster) {
        match roster.text(self.rt.alloc(), self.config) {
            Ok(text) => self.sessions.replace(self.rt, &text, &self.warner),
            Err(_) => self.warner.progress.count_unwritten(),
        }
    }

    fn record(&mut self, text: &[u8]) {
        if !self.warner.progress.is_recording() {
            return;
        }
        if let Err(error) = self.try_record(text) {
            self.end_recording(error);
        }
    }

    fn try_record(&mut self, text: &[u8]) -> io::Result<()> {
        let Some(path) = self.record else {
            return Ok(());
        };
        if self.recording.is_none() {
            self.recording = Some(Recording::begin(self.rt, path)?);
        }
        match &mut self.recording {
            Some(recording) => recording.append(text),
            None => Ok(()),
        }
    }

    // A recording with a gap would be answered otherwise than it was, so it ends before the gap.
    fn end_recording<D: Display + Drop>(&mut self, why: D) {
        self.warner.progress.end_recording();
        self.warner.progress.count_unwritten();
        if let Some(path) = self.record {
            self.warner.warn(self.rt, format_args!("recording to {path} stopped: {why}"));
        }
    }
}

// Puts a text in the place of a file at once: who reads the file sees the text before or this one. Where this fails nothing of the
// text is left.
fn write_by_rename<R: Files + AllocGlobal>(
    rt: &R,
    path: &str,
    mode: u32,
    text: &[u8],
) -> io::Result<()> {
    let beside = format!(in rt.alloc(); "{path}.new")?;
    let _ = fs::remove_file(rt, &beside);
    let written = write_new(rt, &beside, mode, text).and_then(|()| fs::rename(rt, &beside, path));
    if written.is_err() {
        let _ = fs::remove_file(rt, &beside);
    }
    written
}

// Writes a file that isn't there yet.
fn write_new<R: Files>(rt: &R, path: &str, mode: u32, text: &[u8]) -> io::Result<()> {
    let mut file = OpenOptions::new()
        .write(true)
        .create_new(true)
        .mode(NEW_MODE)
        .open(rt, path)?;
    file.set_permissions(Permissions::from_mode(mode))?;
    file.write_all(text)
}
