//! The octets of RADIUS packets (RFC 2865, sections 3 and 5).
//!
//! A `Packet` borrows a datagram and is exactly what the grammar of `specs/` says of its octets. A `Body` is a code and attributes,
//! kept as octets, and `write` puts the octets of a body, an Identifier and an Authenticator into a `Frame`. `Octets` are those of
//! a body or of a request; once shared, all their copies are one piece of memory. Attributes are read in place, and only
//! `Body::with_capacity`, `push`, `share` and `copy`, `Octets::of`, `share` and `copy`, and `Frame::new` take memory.
//!
//! Others rest on this: `Packet::read` returns the packet that a datagram holds, or the first fault, and `write` writes
//! the packet's octets.
#![tactic(auto)]

pub mod attribute;
mod body;
pub mod code;
mod frame;
mod octets;
mod packet;

pub use attribute::{Attribute, Attributes};
pub use body::Body;
pub use frame::{Frame, TooLong, write};
pub use octets::Octets;
pub use packet::{HEADER_SIZE, LENGTH_MAX, Packet, ReadFault};
