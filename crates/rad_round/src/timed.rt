//! Datagrams of a round.
use rad_auth::Arrival;

/// A datagram as it arrived, with its moment and its draw.
#[derive(Clone, Copy, Debug)]
pub struct Timed<'a> {
    pub arrival: Arrival<'a>,
    /// When it arrived, in milliseconds, at most `MOMENT_MAX`.
    pub moment: u64,
    /// Random octets, for the State of a challenge.
    pub draw: [u8; 16],
}
