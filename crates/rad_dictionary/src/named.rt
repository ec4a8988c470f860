//! What a configuration says of an attribute, and which part of that doesn't fit.

use thiserror::Error;

/// What names an attribute.
#[derive(Clone, Copy, Debug)]
pub enum Named<'a> {
    /// Its name in an RFC.
    Name(&'a [u8]),
    /// Its Type.
    Type(u8),
    /// A vendor's number, and that of the vendor's attribute (RFC 2865, section 5.26).
    OfVendor { vendor: u32, number: u8 },
}

/// What is given as its Value.
#[derive(Clone, Copy, Debug)]
pub enum Given<'a> {
    Number(u32),
    Text(&'a [u8]),
    /// Hex digits, which spell the Value's octets.
    Hex(&'a [u8]),
}

/// Which part doesn't fit, or that there was no memory.
#[derive(Clone, Copy, Debug, PartialEq, Eq, Error)]
pub enum Misfit {
    /// The attribute is unknown, or an Access-Accept can't be given it.
    #[error("no such attribute")]
    Attribute,
    /// The Value takes no tag.
    #[error("takes no tag")]
    Tag,
    /// The Value isn't of the attribute's kind, or is too long.
    #[error("no such value")]
    Value,
    /// An allocation failed.
    #[error("no memory")]
    NoMemory,
}
