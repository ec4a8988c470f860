//! Outcomes of datagrams.
use rad_auth::Discard;
use rad_packet::Frame;

/// What becomes of a datagram.
#[derive(Drop)]
pub enum Outcome {
    /// It isn't admitted: this is the first reason that applies.
    Dropped(Discard),
    /// Nothing is sent: the table of kept replies is full.
    Busy,
    /// Memory was refused, and no exchange was made.
    NoMemory,
    /// The octets of the reply.
    Reply(Frame),
}
