//! Kinds of Values.

use crate::enumeration::Enumeration;

/// What the Value of an attribute is (RFC 8044, section 3).
#[derive(Clone, Copy, Debug)]
pub(crate) enum Kind {
    /// A text, or octets.
    Text,
    /// Four octets.
    Integer { least: u32, most: u32 },
    /// An integer whose numbers have names.
    Enumerated(Enumeration),
    /// An IPv4 address.
    Address,
    /// The last eight octets of an IPv6 address (RFC 3162, section 2.2).
    InterfaceId,
    /// An IPv6 address.
    Ipv6Address,
    /// An IPv6 prefix (RFC 3162, section 2.3).
    Ipv6Prefix,
    /// A text that a tag may precede (RFC 2868, section 3.3).
    TaggedText,
    /// A tag and three octets (RFC 2868, section 3.8).
    TaggedInteger,
    /// A tag and three octets of an integer whose numbers have names (RFC 2868, section 3.1).
    TaggedEnumerated(Enumeration),
    /// A vendor's number and what it makes of the rest (RFC 2865, section 5.26).
    VendorSpecific,
    /// An attribute of a vendor, in the form that RFC 2865, section 5.26, suggests.
    OfVendor { vendor: u32, number: u8 },
    /// An attribute of which the dictionary knows nothing.
    Unknown,
}
