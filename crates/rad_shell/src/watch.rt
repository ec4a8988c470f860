//! Watchers of turns.

use crate::ports::FailedCall;
use rad_round::{Done, Service, Timed};

/// What a turn was whose round was made.
#[derive(Clone, Copy)]
pub struct Turn<'t, 'c> {
    /// The service after it.
    pub service: &'t Service<'c>,
    /// The datagrams that it received, in order of arrival.
    pub arrivals: &'t [Timed<'t>],
    /// What its round made of them.
    pub done: &'t Done,
    /// Which requests of its history were fresh: one for each entry.
    pub marks: &'t [bool],
    /// The failures of the ports so far.
    pub faults: u64,
    /// The last of them, if the ports can tell.
    pub last_failure: Option<FailedCall>,
}

/// What sees each turn.
///
/// Turns lend it what they were, and take nothing back: what a watcher does can't change a reply.
pub trait Watch {
    /// A turn has received its datagrams, and now answers them.
    fn received(&mut self);

    /// A turn was made, and its replies were sent; if a send failed for good, it is the last one, and the rest were not.
    fn see(&mut self, turn: &Turn);

    /// A turn with so many datagrams was lost, since memory was refused.
    fn lost(&mut self, service: &Service, datagrams: usize);
}

/// A watcher that looks away.
#[derive(Clone, Copy, Debug)]
pub struct Unwatched;

impl Watch for Unwatched {
    fn received(&mut self) {}

    fn see(&mut self, _turn: &Turn) {}

    fn lost(&mut self, _service: &Service, _datagrams: usize) {}
}
