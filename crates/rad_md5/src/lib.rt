//! Eight MD5 digests at a time (RFC 1321), over messages in pieces.
//!
//! A message is five slices, which are never joined: each lane lays out one block of its own message at a time, and the
//! 64 steps run on eight lanes of `std::simd`. A lane whose message has ended is masked. Nothing takes memory.
//!
//! `digest_some` makes those of eight digests that are wanted: few of them one after the other, by the crate `md5`, as that takes
//! less time than a pass of eight.
//!
//! Others rest on this: each call computes the digests of its messages, by the definition of the crate `md5`, whatever their
//! lengths and pieces.
#![tactic(auto)]

mod block;
mod compress;
mod digest;
mod each;
mod each_lane;
mod lanes;
mod pieces;
mod table;

pub use digest::{DIGEST_LEN, digest_one, digest_some, digest8, pass_pays};
pub use each::digest_each;
pub use lanes::LANES;
pub use pieces::Pieces;
pub use table::BLOCK_LEN;
