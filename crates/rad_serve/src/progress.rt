//! What the threads that write tell the one that serves.

use std::sync::atomic::{AtomicBool, AtomicU64, Ordering};

/// How the writing gets on.
#[derive(Drop)]
pub(crate) struct Progress {
    unwritten: AtomicU64,
    is_recording: AtomicBool,
}

impl Progress {
    /// Nothing was written yet, and a recording may go on.
    pub fn new() -> Progress {
        Progress {
            unwritten: AtomicU64::new(0),
            is_recording: AtomicBool::new(true),
        }
    }

    /// Counts a text that could not be written.
    pub fn count_unwritten(&self) {
        self.unwritten.fetch_add(1, Ordering::SeqCst);
    }

    /// How many texts could not be written.
    pub fn unwritten(&self) -> u64 {
        self.unwritten.load(Ordering::SeqCst)
    }

    /// Ends the recording.
    pub fn end_recording(&self) {
        self.is_recording.store(false, Ordering::SeqCst);
    }

    /// Whether the recording goes on.
    pub fn is_recording(&self) -> bool {
        self.is_recording.load(Ordering::SeqCst)
    }
}
