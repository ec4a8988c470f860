//! Moments and spans of time.

/// The last moment, in milliseconds.
pub const MOMENT_MAX: u64 = 1 << 62;

/// How long things are remembered, in milliseconds.
#[derive(Clone, Copy, Debug, PartialEq, Eq)]
pub struct Spans {
    /// How long a repeated request gets the kept reply. An ended session keeps its address until this long after it was made.
    pub window: u64,
    /// How long an address is held for a session that hasn't reported its start, and a challenge can be answered.
    pub hold: u64,
    /// How long an active session of which nothing is heard lives on; if it is absent, until it is stopped.
    pub stale: Option<u64>,
}

/// The same in seconds, as a text says it.
#[derive(Clone, Copy)]
pub struct Times {
    pub window: u32,
    pub hold: u32,
    pub stale: Option<u32>,
}
