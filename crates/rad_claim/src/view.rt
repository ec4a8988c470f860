//! What the rule of the claim word speaks of.
use std::collections::LinkedList;

/// How many batches and how many seats there are.
#[derive(Clone, Copy, Debug)]
pub struct Size {
    pub batches: u64,
    pub seats: u64,
}

/// The numbers that seats have drawn: a list for each seat that the view stands for. No value is made, since only proofs see views.
///
/// The view of a seat that is lent stands for that one, and the view of a seat that was taken back for none.
pub struct View {
    pub drawn: LinkedList<LinkedList<u64>>,
}
