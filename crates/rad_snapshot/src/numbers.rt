//! The clock and the last numbers.

/// A clock in milliseconds, and the last numbers that were given to a session and to a challenge.
#[derive(Clone, Copy, Debug, PartialEq, Eq)]
pub(crate) struct Numbers {
    pub clock: u64,
    pub last_session: u64,
    pub last_challenge: u64,
}
