//! The rows of what a server remembers.
use rad_pool::Session;
use rad_recent::{Challenge, Kept};

/// A row of what a server remembers, as it is put back.
///
/// A session comes before the reply that gives its address, and the last numbers come after the rows.
#[derive(Drop)]
pub enum StateRow {
    /// A session, open or ended.
    Session(Session),
    /// The last number that was given to a session, or 0. Its session may be gone.
    LastSession(u64),
    /// A kept reply.
    Reply(Kept),
    /// A challenge that waits.
    Challenge(Challenge),
    /// The last number that was given to a challenge, or 0. Its challenge may be gone.
    LastChallenge(u64),
}
