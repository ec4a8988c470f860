//! Gates.

/// Where each batch of a round passes by, on the thread of its worker.
///
/// A round calls `pass` once for a batch, after its datagrams are checked and before any of them is asked. Batches are counted from
/// 0. A gate may wait for other batches, but a worker takes its batches one after another, and without threads there is one worker
/// at a time: bound the wait.
pub trait Gate {
    fn pass(&self, batch: u64);
}

/// A gate that is always open.
#[derive(Clone, Copy, Debug)]
pub struct OpenGate;

impl Gate for OpenGate {
    fn pass(&self, _batch: u64) {}
}
