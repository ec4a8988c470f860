//! When and from whom a request came.

/// What is recorded of a request beside its attributes.
#[derive(Clone, Copy, Debug)]
pub struct Occasion {
    /// The number of its entry, counted from 1.
    pub entry: u32,
    /// The wall time, in milliseconds since 1970.
    pub time: i64,
    /// The client's place in the configuration, counted from 0.
    pub client: u32,
    /// The source address, most significant octet first.
    pub source: u32,
    /// The number of the session that it names or is granted, if any.
    pub session: Option<i64>,
}
