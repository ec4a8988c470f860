//! What a round leaves to the next one.
ghost use Rattle.std.specs.Prelude.{◌≡◌, [], IfOk, length};

use crate::done::Done;
use crate::lanes::BATCH;
use crate::outcome::Outcome;
use rad_packet::Frame;
use rad_server::Entry;
use std::alloc::{AllocError, Global};
use std::mem;

/// The most frames that are kept for a worker: as many as a round has replies.
const FRAMES_MAX: usize = 512;

/// Frames for the workers of a round, a list for each, and the memory of its history and outcomes. What is in them says nothing.
#[derive(Drop)]
pub(crate) struct Leftovers {
    alloc: Global,
    lists: Vec<Vec<Frame>>,
    history: Vec<Entry>,
    outcomes: Vec<Outcome>,
}

impl Leftovers {
    pub fn new(alloc: Global) -> Leftovers {
        Leftovers {
            alloc,
            lists: Vec::new(alloc),
            history: Vec::new(alloc),
            outcomes: Vec::new(alloc),
        }
    }

    /// Frames for a worker, if there are any left.
    pub fn take(&mut self) -> Vec<Frame> {
        self.lists.pop().unwrap_or(Vec::new(self.alloc))
    }

    /// Keeps the frames that a worker leaves, if there is memory.
    pub fn leave(&mut self, frames: Vec<Frame>) {
        if self.lists.reserve(1).is_ok() {
            self.lists.push_reserved(frames);
        }
    }

    /// An empty history with memory for so many entries.
    pub fn take_history(&mut self, count: usize) -> Result<Vec<Entry>, AllocError>
        ensures { IfOk result (λ history. history.items ≡ []) }
    {
        let mut history = mem::replace(&mut self.history, Vec::new(self.alloc));
        history.clear();
        history.reserve(count)?;
        Ok(history)
    }

    /// So many outcomes, which say nothing.
    pub fn take_outcomes(&mut self, count: usize) -> Result<Vec<Outcome>, AllocError>
        ensures { IfOk result (λ outcomes. length outcomes.items ≡ count) }
    {
        let mut outcomes = mem::replace(&mut self.outcomes, Vec::new(self.alloc));
        outcomes.clear();
        outcomes.reserve(count)?;
        for _i in 0..count {
            outcomes.push(Outcome::NoMemory)?;
        }
        Ok(outcomes)
    }

    /// Takes back what a round made. The lists of frames take turns, a batch each, since nothing says which worker had one.
    pub fn give_back(&mut self, done: Done) {
        let Done {
            mut outcomes,
            mut history,
        } = done;
        let lists = self.lists.len();
        while let Some(outcome) = outcomes.pop() {
            let batch = outcomes.len() / BATCH;
            if let Outcome::Reply(frame) = outcome {
                self.give(batch.checked_rem(lists), frame);
            }
        }
        self.outcomes = outcomes;
        history.clear();
        self.history = history;
    }

    // Gives a frame to the list of this number, if there is one.
    fn give(&mut self, number: Option<usize>, frame: Frame) {
        let Some(number) = number else {
            return;
        };
        if number < self.lists.len() && self.lists[number].len() < FRAMES_MAX {
            put_back(&mut self.lists[number], frame);
        }
    }
}

/// Keeps a frame for the next batch, if there is memory to keep it.
pub(crate) fn put_back(frames: &mut Vec<Frame>, frame: Frame) {
    if frames.reserve(1).is_ok() {
        frames.push_reserved(frame);
    }
}

/// Eight frames: first those that are left.
pub(crate) fn eight_frames(
    alloc: Global,
    left: &mut Vec<Frame>,
) -> Result<[Frame; BATCH], AllocError> {
    Ok([
        frame(alloc, left)?,
        frame(alloc, left)?,
        frame(alloc, left)?,
        frame(alloc, left)?,
        frame(alloc, left)?,
        frame(alloc, left)?,
        frame(alloc, left)?,
        frame(alloc, left)?,
    ])
}

fn frame(alloc: Global, left: &mut Vec<Frame>) -> Result<Frame, AllocError> {
    match left.pop() {
        Some(frame) => Ok(frame),
        None => Frame::new(alloc),
    }
}
