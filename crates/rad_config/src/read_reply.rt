//! Reading the attributes that an entry gives Access-Accepts.
ghost use Rattle.std.specs.Prelude.{◌≡◌, ◌≤◌, All, IfOk, IfSome, length, option_map};
ghost use Rattle.rad_packet.specs.Codes.{code_access_accept};
ghost use Rattle.rad_dictionary.specs.Values.{tag_max};
ghost use Rattle.rad_dictionary.specs.Seen.{attribute_seen, giving, naming};
ghost use Rattle.rad_dictionary.specs.Meant.{IsGrantable};
ghost use Rattle.toml.specs.View.{items_view, view};
ghost use Rattle.rad_config.specs.Entries.{has_key, value};
ghost use Rattle.rad_config.specs.Keys.{given_hex, given_value, named_attribute};
ghost use Rattle.rad_config.specs.Readers.{and_attribute};
ghost use Rattle.rad_config.specs.Replies.{FaultOf, attribute_of, attributes_from, given_row, in_reply, in_reply_spot, naming_in};
ghost use Rattle.rad_config.specs.Replies.{reply_in, reply_max};
ghost use Rattle.rad_config.specs.Views.{entry_data};
ghost use Rattle.rad_config_fault.specs.Faults.{Gives};

use crate::entry::Entry;
use crate::keys::{ATTRIBUTE, TAG, VALUE, VENDOR};
use crate::lists::entry_at;
use rad_config_fault::{ConfigFault, Key, Part, ReplySpot, Spot};
use rad_dictionary::{Given, Meant, Misfit, Named, attribute_of};
use rad_packet::Body;
use rad_packet::code::ACCESS_ACCEPT;
use std::alloc::Global;
use toml::Value;

// More attributes than this never fit an Access-Accept: each has three octets at least.
const REPLY_MAX: usize = 158;

/// The attributes that an entry gives Access-Accepts, in the body of one.
pub fn read_reply(alloc: Global, entry: &Entry<'_>) -> Result<Body, ConfigFault>
    ensures read { Gives (λ body. body.attributes) result (reply_in (entry_data entry.now)) }
    ensures code { IfOk result (λ body. body.code ≡ code_access_accept) }
    ensures range { IfOk result (λ body. All IsGrantable body.attributes) }
{
    let Some(value) = entry.get(Key::Reply) else {
        return Ok(Body::new(alloc, ACCESS_ACCEPT));
    };
    let items = value.as_array().ok_or(entry.bad(Key::Reply))?.as_slice();
    if items.len() > REPLY_MAX {
        return Err(entry.bad(Key::Reply));
    }
    match attributes_from(alloc, entry.part, items) {
        Ok(body) => Ok(body),
        Err(fault) => Err(in_reply(entry.index, fault)),
    }
}

// A fault at a place of the reply of the entry with an index.
fn in_reply(index: u32, fault: ConfigFault) -> ConfigFault
    ensures { result ≡ in_reply index fault }
{
    match fault {
        ConfigFault::BadValue(spot) | ConfigFault::Missing(spot) => {
            ConfigFault::BadReply(in_reply_spot(index, spot))
        }
        _ => fault,
    }
}

fn in_reply_spot(index: u32, spot: Spot) -> ReplySpot
    ensures { ConfigFault.BadReply result ≡ in_reply_spot index spot }
{
    ReplySpot {
        part: spot.part,
        index,
        place: spot.index,
        key: spot.key,
    }
}

fn attributes_from(alloc: Global, part: Part, items: &[Value]) -> Result<Body, ConfigFault>
    requires { length items.now ≤ reply_max }
    ensures read { Gives (λ body. body.attributes) result
        (attributes_from part (items_view items.now)) }
    ensures code { IfOk result (λ body. body.code ≡ code_access_accept) }
    ensures range { IfOk result (λ body. All IsGrantable body.attributes) }
{
    let mut body = Body::new(alloc, ACCESS_ACCEPT);
    for (place, item) in items.iter().enumerate() {
        add_attribute(alloc, part, place as u32 + 1, item, &mut body)?;
    }
    Ok(body)
}

// Adds the attribute that an item is.
#[tactic(auto, unfolding(crate::specs::Entries::and_entry))]
fn add_attribute(
    alloc: Global,
    part: Part,
    index: u32,
    item: &Value,
    body: &mut Body,
) -> Result<(), ConfigFault>
    requires { All IsGrantable body.old.attributes }
    ensures read { Gives (λ _. body.new.attributes) result
        (and_attribute part index body.old.attributes (view item.now)) }
    ensures code { body.new.code ≡ body.old.code }
    ensures range { IfOk result (λ _. All IsGrantable body.new.attributes) }
{
    let entry = entry_at(part, index, item)?;
    let meant = read_attribute(alloc, &entry)?;
    body.push(meant.kind, &meant.value)
        .map_err(|_| ConfigFault::NoMemory)
}

// The attribute that an entry of a reply says.
#[tactic(auto, unfolding(crate::specs::Replies::attribute_of))]
fn read_attribute(alloc: Global, entry: &Entry<'_>) -> Result<Meant, ConfigFault>
    ensures read { Gives attribute_seen result (attribute_of (entry_data entry.now)) }
    ensures range { IfOk result (λ meant. IsGrantable (attribute_seen meant)) }
{
    let named = read_named(entry)?;
    let tag = entry.number(&TAG)?;
    if entry.has(Key::Hex) && entry.has(Key::Value) {
        return Err(entry.bad(Key::Hex));
    }
    let given = read_given(entry)?;
    match attribute_of(alloc, &named, small(tag), &given) {
        Ok(meant) => Ok(meant),
        Err(misfit) => Err(fault_of(entry, misfit)),
    }
}

// A tag as the octet that it is.
fn small(tag: Option<u32>) -> Option<u8>
    requires { IfSome tag (λ tag. tag ≤ tag_max) }
    ensures value { result ≡ tag }
{
    Some(tag? as u8)
}

// What an entry names an attribute by.
#[tactic(auto, unfolding(crate::specs::Entries::value, crate::specs::Replies::naming_in))]
fn read_named<'a>(entry: &Entry<'a>) -> Result<Named<'a>, ConfigFault>
    ensures { Gives naming result (naming_in (entry_data entry.now)) }
{
    let vendor = entry.number(&VENDOR)?;
    let value = entry
        .get(Key::Attribute)
        .ok_or(entry.missing(Key::Attribute))?;
    named(vendor, value).ok_or(entry.bad(Key::Attribute))
}

// What a value names an attribute by, under a vendor if there is one.
fn named(vendor: Option<u32>, value: &Value) -> Option<Named<'_>>
    ensures { option_map naming result ≡ named_attribute vendor (view value.now) }
{
    match vendor {
        Some(vendor) => Some(Named::OfVendor {
            vendor,
            number: ATTRIBUTE.fit(value)? as u8,
        }),
        None => match value.as_str() {
            Some(name) => Some(Named::Name(name.as_bytes())),
            None => Some(Named::Type(ATTRIBUTE.fit(value)? as u8)),
        },
    }
}

// What an entry gives as a Value.
#[tactic(auto, unfolding(crate::specs::Entries::value))]
fn read_given<'a>(entry: &Entry<'a>) -> Result<Given<'a>, ConfigFault>
    ensures { Gives giving result (value (entry_data entry.now)
        (given_row (has_key (entry_data entry.now) Key.Hex))) }
{
    match entry.get(Key::Hex) {
        Some(digits) => given_hex(digits).ok_or(entry.bad(Key::Hex)),
        None => {
            let value = entry.get(Key::Value).ok_or(entry.missing(Key::Value))?;
            given_value(value).ok_or(entry.bad(Key::Value))
        }
    }
}

fn given_hex(value: &Value) -> Option<Given<'_>>
    ensures { option_map giving result ≡ given_hex (view value.now) }
{
    Some(Given::Hex(value.as_str()?.as_bytes()))
}

fn given_value(value: &Value) -> Option<Given<'_>>
    ensures { option_map giving result ≡ given_value (view value.now) }
{
    match value.as_str() {
        Some(text) => Some(Given::Text(text.as_bytes())),
        None => Some(Given::Number(VALUE.fit(value)?)),
    }
}

// The fault of a part that doesn't fit.
fn fault_of(entry: &Entry<'_>, misfit: Misfit) -> ConfigFault
    ensures { FaultOf (entry_data entry.now) misfit result }
{
    match misfit {
        Misfit::Attribute => entry.bad(Key::Attribute),
        Misfit::Tag => entry.bad(Key::Tag),
        Misfit::Value if entry.has(Key::Hex) => entry.bad(Key::Hex),
        Misfit::Value => entry.bad(Key::Value),
        Misfit::NoMemory => ConfigFault::NoMemory,
    }
}
