//! The attributes that a configuration can name, and their Values.
//!
//! `attribute_of` makes an attribute of what a configuration says of it: which one is meant, by its name in an RFC, its Type or a
//! vendor's number, and its Value as a number, a text or hex digits. `may_be_granted` says which Types an Access-Accept can be
//! given.
//!
//! Other crates rest on this: Type and Value are what `specs/Meant.antt` says of the parts, by the names and kinds of
//! `specs/Dictionary.antt`, and a refusal names the part that doesn't fit.
#![tactic(auto)]

mod attribute;
mod dictionary;
mod enumeration;
mod granted;
mod kind;
mod named;
mod prefix;
mod value;

pub use attribute::{Meant, attribute_of};
pub use granted::may_be_granted;
pub use named::{Given, Misfit, Named};
pub use value::TAG_MAX;
