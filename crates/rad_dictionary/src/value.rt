//! Values of attributes, by how they are given.
ghost use Rattle.std.specs.Prelude.{◌≡◌, ◌≤◌, ◌*◌, ◌+◌, ◌^◌, IfOk, IfSome, length, option_copied, option_map, unwrap_or};
ghost use Rattle.rad_packet.specs.Attributes.{value_max};
ghost use Rattle.rad_dictionary.specs.Values.{bounded, exactly, four_octets, interface_id, is_tagged, named_in, of_hex, of_number};
ghost use Rattle.rad_dictionary.specs.Values.{of_octets, of_text, of_vendor, own_max, sized, tag_max, tagged, tagged_text};
ghost use Rattle.rad_dictionary.specs.Values.{takes_tag, untagged, written};
ghost use Rattle.rad_dictionary.specs.Seen.{IsShort, IsSized, Makes, giving, prefix_octets};

use crate::enumeration::{Enumeration, has_name, number_named};
use crate::kind::Kind;
use crate::named::Given;
use crate::prefix::{Prefix, ipv6, ipv6_prefix};
use hex::FromHexError;
use rad_packet::attribute::VALUE_MAX;
use rad_text::decimal;
use std::alloc::{AllocError, Global};

// The most octets of a vendor's attribute: before it stand the vendor's number, its own, and its Length.
const OWN_MAX: usize = VALUE_MAX - 6;

// How many numbers there are of three octets.
const THREE_OCTETS: u32 = 1 << 24;

/// The greatest tag.
pub const TAG_MAX: u8 = 31;

/// Whether a Value of this kind has a tag where it is given so.
pub(crate) fn takes_tag(kind: Kind, given: &Given<'_>) -> bool
    ensures { result ≡ takes_tag kind (giving given.now) }
{
    match given {
        Given::Number(_) | Given::Text(_) => is_tagged(kind),
        Given::Hex(_) => false,
    }
}

// Whether a Value of this kind has a tag.
fn is_tagged(kind: Kind) -> bool
    ensures { result ≡ is_tagged kind }
{
    match kind {
        Kind::TaggedText | Kind::TaggedInteger | Kind::TaggedEnumerated(_) => true,
        _ => false,
    }
}

/// The Value of this kind that is given, under a tag if there is one.
pub(crate) fn written(
    alloc: Global,
    kind: Kind,
    tag: Option<u8>,
    given: &Given<'_>,
) -> Result<Option<Vec<u8>>, AllocError>
    requires { IfSome tag (λ tag. tag ≤ tag_max) }
    ensures value { Makes result (written kind tag (giving given.now)) }
    ensures size { IsShort result }
{
    match given {
        Given::Number(number) => of_number(alloc, kind, tag, *number),
        Given::Text(text) => of_text(alloc, kind, tag, text),
        Given::Hex(text) => of_hex(alloc, kind, text),
    }
}

fn of_number(
    alloc: Global,
    kind: Kind,
    tag: Option<u8>,
    number: u32,
) -> Result<Option<Vec<u8>>, AllocError>
    requires { IfSome tag (λ tag. tag ≤ tag_max) }
    ensures value { Makes result (of_number kind tag number) }
    ensures size { IsShort result }
{
    match kind {
        Kind::Integer { least, most } => four_octets(alloc, bounded(least, most, number)),
        Kind::Enumerated(numbers) => four_octets(alloc, named_in(numbers, number)),
        Kind::TaggedInteger => four_octets(alloc, tagged(tag, number)),
        Kind::TaggedEnumerated(numbers) => {
            let number = named_in(numbers, number).and_then(|number| tagged(tag, number));
            four_octets(alloc, number)
        }
        Kind::OfVendor {
            vendor,
            number: own,
        } => { Ok(Some(of_vendor(alloc, vendor, own, &number.to_be_bytes())?)) }
        _ => Ok(None),
    }
}

fn of_text(
    alloc: Global,
    kind: Kind,
    tag: Option<u8>,
    text: &[u8],
) -> Result<Option<Vec<u8>>, AllocError>
    requires { IfSome tag (λ tag. tag ≤ tag_max) }
    ensures value { Makes result (of_text kind tag text.now) }
    ensures size { IsShort result }
{
    match kind {
        Kind::Text => copied(alloc, sized(text, VALUE_MAX)),
        Kind::Enumerated(numbers) => four_octets(alloc, number_named(numbers, text)),
        Kind::Address => four_octets(alloc, decimal::address(text)),
        Kind::InterfaceId => interface_id(alloc, text),
        Kind::Ipv6Address => sixteen_octets(alloc, ipv6(text)),
        Kind::Ipv6Prefix => prefix_octets(alloc, ipv6_prefix(text)),
        Kind::TaggedText => tagged_text(alloc, tag, text),
        Kind::TaggedEnumerated(numbers) => {
            let number = number_named(numbers, text).and_then(|number| tagged(tag, number));
            four_octets(alloc, number)
        }
        Kind::OfVendor { vendor, number } => text_of_vendor(alloc, vendor, number, text),
        _ => Ok(None),
    }
}

fn of_hex(alloc: Global, kind: Kind, text: &[u8]) -> Result<Option<Vec<u8>>, AllocError>
    ensures value { Makes result (of_hex kind text.now) }
    ensures size { IsShort result }
{
    match hex::decode(alloc, text) {
        Ok(octets) => of_octets(alloc, kind, octets),
        Err(FromHexError::OutOfMemory) => Err(AllocError),
        Err(_) => Ok(None),
    }
}

fn of_octets(alloc: Global, kind: Kind, octets: Vec<u8>) -> Result<Option<Vec<u8>>, AllocError>
    ensures value { Makes result (of_octets kind octets.items) }
    ensures size { IsShort result }
{
    let own = match kind {
        Kind::Text | Kind::TaggedText | Kind::Unknown => sized(&octets, VALUE_MAX),
        Kind::Address => exactly(&octets, 4),
        Kind::InterfaceId => exactly(&octets, 8),
        Kind::Ipv6Address => exactly(&octets, 16),
        Kind::VendorSpecific => vendors_octets(&octets),
        Kind::OfVendor { vendor, number } => {
            return octets_of_vendor(alloc, vendor, number, sized(&octets, OWN_MAX));
        }
        _ => None,
    };
    copied(alloc, own)
}

// ---- parts

// 1 to `most` octets.
fn sized(octets: &[u8], most: usize) -> Option<&[u8]>
    ensures value { option_copied result ≡ sized most octets.now }
    ensures size { IfSome result (λ octets. IsSized most octets.now) }
{
    if octets.is_empty() || octets.len() > most {
        return None;
    }
    Some(octets)
}

// As many octets as there have to be.
fn exactly(octets: &[u8], size: usize) -> Option<&[u8]>
    ensures value { option_copied result ≡ exactly size octets.now }
    ensures size { IfSome result (λ octets. length octets.now ≡ size) }
{
    if octets.len() != size {
        return None;
    }
    Some(octets)
}

// A vendor's number, and more.
fn vendors_octets(octets: &[u8]) -> Option<&[u8]>
    ensures value { option_copied result ≡ of_octets Kind.VendorSpecific octets.now }
    ensures size { IfSome result (λ octets. IsSized value_max octets.now) }
{
    if octets.len() <= 4 {
        return None;
    }
    sized(octets, VALUE_MAX)
}

// A number that has a name.
fn named_in(numbers: Enumeration, number: u32) -> Option<u32>
    ensures { result ≡ named_in numbers number }
{
    if !has_name(numbers, number) {
        return None;
    }
    Some(number)
}

// A number within bounds.
fn bounded(least: u32, most: u32, number: u32) -> Option<u32>
    ensures { result ≡ bounded least most number }
{
    if number < least || number > most {
        return None;
    }
    Some(number)
}

// A tag and three octets of a number, as one number.
fn tagged(tag: Option<u8>, number: u32) -> Option<u32>
    requires { IfSome tag (λ tag. tag ≤ tag_max) }
    ensures { result ≡ tagged tag number }
{
    if number >= THREE_OCTETS {
        return None;
    }
    Some(u32::from(tag.unwrap_or(0)) * THREE_OCTETS + number)
}

// A text under a tag, if there is one.
fn tagged_text(alloc: Global, tag: Option<u8>, text: &[u8]) -> Result<Option<Vec<u8>>, AllocError>
    ensures value { Makes result (tagged_text tag text.now) }
    ensures size { IsShort result }
{
    match tag {
        None => match sized(text, VALUE_MAX) {
            Some(text) => copied(alloc, untagged(text)),
            None => Ok(None),
        },
        Some(tag) => {
            let Some(text) = sized(text, VALUE_MAX - 1) else {
                return Ok(None);
            };
            let mut value = Vec::with_capacity(alloc, 1 + text.len())?;
            value.push(tag)?;
            value.extend_from_slice(text)?;
            Ok(Some(value))
        }
    }
}

// A text that doesn't begin as one under a tag would.
fn untagged(text: &[u8]) -> Option<&[u8]>
    ensures value { option_copied result ≡ untagged text.now }
    ensures same { IfSome result (λ octets. octets.now ≡ text.now) }
{
    if *text.first()? <= TAG_MAX {
        return None;
    }
    Some(text)
}

// A vendor's attribute that is a text: an address, if it spells one.
fn text_of_vendor(
    alloc: Global,
    vendor: u32,
    number: u8,
    text: &[u8],
) -> Result<Option<Vec<u8>>, AllocError>
    ensures value { Makes result (of_text (Kind.OfVendor vendor number) None text.now) }
    ensures size { IsShort result }
{
    match decimal::address(text) {
        Some(address) => octets_of_vendor(alloc, vendor, number, Some(&address.to_be_bytes())),
        None => octets_of_vendor(alloc, vendor, number, sized(text, OWN_MAX)),
    }
}

// A vendor's attribute of these octets, if there are any.
fn octets_of_vendor(
    alloc: Global,
    vendor: u32,
    number: u8,
    own: Option<&[u8]>,
) -> Result<Option<Vec<u8>>, AllocError>
    requires { IfSome own (λ own. length own.now ≤ own_max) }
    ensures value { Makes result (option_map (of_vendor vendor number) (option_copied own.entry)) }
    ensures size { IsShort result }
{
    match own {
        Some(own) => Ok(Some(of_vendor(alloc, vendor, number, own)?)),
        None => Ok(None),
    }
}

// The vendor's number, that of its attribute, a Length, and what that holds.
fn of_vendor(alloc: Global, vendor: u32, number: u8, own: &[u8]) -> Result<Vec<u8>, AllocError>
    requires { length own.now ≤ own_max }
    ensures { IfOk result (λ value. value.items ≡ of_vendor vendor number own.now) }
{
    let mut value = Vec::with_capacity(alloc, 6 + own.len())?;
    value.extend_from_slice(&vendor.to_be_bytes())?;
    value.push(number)?;
    value.push(own.len() as u8 + 2)?;
    value.extend_from_slice(own)?;
    Ok(value)
}

// The octets, where there are any.
fn copied(alloc: Global, octets: Option<&[u8]>) -> Result<Option<Vec<u8>>, AllocError>
    requires { IfSome octets (λ octets. IsSized value_max octets.now) }
    ensures value { Makes result (option_copied octets.entry) }
    ensures size { IsShort result }
{
    match octets {
        Some(octets) => Ok(Some(Vec::from_slice(alloc, octets)?)),
        None => Ok(None),
    }
}

// The octets of a number, where there is one.
fn four_octets(alloc: Global, number: Option<u32>) -> Result<Option<Vec<u8>>, AllocError>
    ensures value { Makes result (option_map four_octets number) }
    ensures size { IsShort result }
{
    match number {
        Some(number) => Ok(Some(Vec::from_slice(alloc, &number.to_be_bytes())?)),
        None => Ok(None),
    }
}

// The octets of an address, where there is one.
fn sixteen_octets(alloc: Global, octets: Option<[u8; 16]>) -> Result<Option<Vec<u8>>, AllocError>
    ensures value { Makes result octets }
    ensures size { IsShort result }
{
    match octets {
        Some(octets) => Ok(Some(Vec::from_slice(alloc, &octets)?)),
        None => Ok(None),
    }
}

// A zero octet, how many bits a prefix has, and its address, where there is one.
fn prefix_octets(alloc: Global, prefix: Option<Prefix>) -> Result<Option<Vec<u8>>, AllocError>
    ensures value { Makes result (option_map prefix_octets prefix) }
    ensures size { IsShort result }
{
    match prefix {
        Some(Prefix { address, length }) => {
            let mut value = Vec::with_capacity(alloc, 18)?;
            value.extend_from_slice(&[0, length])?;
            value.extend_from_slice(&address.octets())?;
            Ok(Some(value))
        }
        None => Ok(None),
    }
}

// The last eight octets of an address, by its last four groups.
fn interface_id(alloc: Global, text: &[u8]) -> Result<Option<Vec<u8>>, AllocError>
    ensures value { Makes result (interface_id text.now) }
    ensures size { IsShort result }
{
    let mut whole = Vec::from_slice(alloc, b"0:0:0:0:")?;
    whole.extend_from_slice(text)?;
    match ipv6(&whole) {
        Some(octets) => Ok(Some(Vec::from_slice(alloc, &octets[8..])?)),
        None => Ok(None),
    }
}
