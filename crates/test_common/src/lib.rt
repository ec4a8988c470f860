//! What the crates of tests share: configurations, clients, their datagrams and the admission of these, tables, and random numbers.
//!
//! Only a test may abort, so each crate of tests has its own `holds`, which asserts.
#![tactic(auto)]

mod admission;
mod campus;
mod datagrams;
mod tables;

pub use admission::admit;
pub use campus::CAMPUS;
pub use datagrams::{
    CLIENT, DRAW, OTHER_SECRET, PORT, REQUEST_AUTHENTICATOR, RFC_REQUEST, SECOND_CLIENT, SECRET,
    STATUS_SERVER, STRANGER,
};
pub use tables::{JOURNAL_TABLES, table};

/// The next of some random numbers.
pub fn next_draw(draw: u64) -> u64 {
    draw.wrapping_mul(6_364_136_223_846_793_005)
        .wrapping_add(1_442_695_040_888_963_407)
}
