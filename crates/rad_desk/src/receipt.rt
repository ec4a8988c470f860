//! Receipts.
use rad_server::Entry;

/// What a thread keeps of one exchange.
#[derive(Drop)]
pub struct Receipt {
    /// The entry's place in the history, counted from 0.
    pub place: u64,
    pub entry: Entry,
}
