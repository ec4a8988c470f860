//! Attributes as a configuration says them.
ghost use Rattle.std.specs.Prelude.{◌≡◌, ◌≤◌, IfOk, IfSome, true};
ghost use Rattle.rad_dictionary.specs.Dictionary.{may_be_granted};
ghost use Rattle.rad_dictionary.specs.Meant.{IsGrantable, attribute_meant, granted_type, kind_meant, type_meant};
ghost use Rattle.rad_dictionary.specs.Parts as parts;
ghost use Rattle.rad_dictionary.specs.Seen.{Gives, attribute_seen, giving, naming};
ghost use Rattle.rad_dictionary.specs.Values.{tag_max};

use crate::dictionary::{kind_of, type_named};
use crate::granted::may_be_granted;
use crate::kind::Kind;
use crate::named::{Given, Misfit, Named};
use crate::value::{takes_tag, written};
use std::alloc::Global;

// The Type of a vendor's attribute (RFC 2865, section 5.26).
const VENDOR_SPECIFIC: u8 = 26;

// The greatest number of a vendor, whose high octet is zero.
const VENDOR_MAX: u32 = 16_777_215;

/// The attribute that is meant: its Type, and its Value of 1 to 253 octets.
#[derive(Drop)]
pub struct Meant {
    pub kind: u8,
    pub value: Vec<u8>,
}

/// The attribute that a name and a Value mean, the Value under a tag of 1 to 31, if there is one.
///
/// A name is one of an RFC, a Type, or a vendor's number and that of its attribute. A number is an integer, or under a vendor four
/// octets. A text is itself, an address, a prefix as `2001:db8::/32`, or the RFC's name of a number; under a vendor it is an
/// address, if it spells one. Hex digits are the Value's octets, or those of the vendor's attribute; numbers and prefixes have
/// none.
///
/// Refused are, in this order, an unknown attribute, or one that an Access-Accept can't be given; a tag where the Value takes none;
/// a Value of another kind, out of its range, or too long. Source: RFC 2865, section 5, RFC 2868, section 3, RFC 3162, section 2.
#[tactic(auto, unfolding(crate::specs::Meant::attribute_meant))]
pub fn attribute_of(
    alloc: Global,
    named: &Named<'_>,
    tag: Option<u8>,
    given: &Given<'_>,
) -> Result<Meant, Misfit>
    requires { IfSome tag (λ tag. (1 ≤ tag) × (tag ≤ tag_max)) }
    ensures value { Gives result (attribute_meant (naming named.now) tag (giving given.now)) }
    ensures granted { IfOk result (λ meant. IsGrantable (attribute_seen meant)) }
{
    let kind = type_meant(named).ok_or(Misfit::Attribute)?;
    let what = kind_meant(named, kind);
    if tag.is_some() && !takes_tag(what, given) {
        return Err(Misfit::Tag);
    }
    let value = match written(alloc, what, tag, given) {
        Ok(value) => value.ok_or(Misfit::Value)?,
        Err(_) => return Err(Misfit::NoMemory),
    };
    Ok(Meant { kind, value })
}

// Which Type is meant, if there is such an attribute.
fn type_meant(named: &Named<'_>) -> Option<u8>
    ensures value { result ≡ type_meant (naming named.now) }
    ensures granted { IfSome result (λ kind. may_be_granted kind ≡ true) }
{
    match named {
        Named::Name(name) => granted(type_named(name)?),
        Named::Type(number) => granted(*number),
        Named::OfVendor { vendor, number } => of_vendor(*vendor, *number),
    }
}

// The Type of a vendor's attribute, if there can be such a vendor and such an attribute.
fn of_vendor(vendor: u32, number: u8) -> Option<u8>
    ensures value { result ≡ type_meant (parts.of_vendor vendor number) }
    ensures granted { IfSome result (λ kind. may_be_granted kind ≡ true) }
{
    if vendor == 0 || vendor > VENDOR_MAX || number == 0 {
        return None;
    }
    Some(VENDOR_SPECIFIC)
}

// A Type, if an Access-Accept can be given it.
fn granted(number: u8) -> Option<u8>
    ensures value { result ≡ granted_type number }
    ensures granted { IfSome result (λ kind. may_be_granted kind ≡ true) }
{
    if !may_be_granted(number) {
        return None;
    }
    Some(number)
}

// What its Value is.
fn kind_meant(named: &Named<'_>, kind: u8) -> Kind
    ensures { result ≡ kind_meant (naming named.now) kind }
{
    match named {
        Named::OfVendor { vendor, number } => Kind::OfVendor {
            vendor: *vendor,
            number: *number,
        },
        Named::Name(_) | Named::Type(_) => kind_of(kind),
    }
}
