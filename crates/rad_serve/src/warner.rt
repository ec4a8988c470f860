//! Warnings while a server serves.

use crate::progress::Progress;
use crossbeam_channel::Sender;
use rad_check::push_warning;
use std::alloc::AllocGlobal;
use std::fmt::Display;
use std::sync::Wait;

/// Hands warnings over to the thread that prints lines. It never waits: one that can't be handed over is counted as unwritten.
#[derive(Clone, Copy)]
pub(crate) struct Warner<'w> {
    pub lines: &'w Sender<Vec<u8>>,
    pub progress: &'w Progress,
}

impl<'w> Warner<'w> {
    /// Hands over a warning. Whether it could.
    pub fn warn<R: Wait + AllocGlobal, D: Display + Drop>(&self, rt: &R, warning: D) -> bool {
        let mut lines = String::new(rt.alloc());
        push_warning(&mut lines, warning);
        self.hand_over(rt, lines)
    }

    /// Hands over the lines of warnings. Whether it could; there are none where memory for them was refused.
    pub fn hand_over<R: Wait>(&self, rt: &R, lines: String) -> bool {
        let is_handed_over = !lines.is_empty()
            && self.lines.try_send(rt, lines.into_bytes()).is_ok();
        if !is_handed_over {
            self.progress.count_unwritten();
        }
        is_handed_over
    }
}
