//! The file of users that a configuration names.
ghost use Rattle.std.specs.Prelude.{◌≡◌, Ok, nat_eq, option_map, string_bytes};
ghost use Rattle.std.specs.List.{list_any};
ghost use Rattle.toml.specs.View.{table_view, view};
ghost use Rattle.rad_config_fault.specs.Faults.{Gives, part_name};
ghost use Rattle.toml.specs.Data.{get_member};
ghost use Rattle.rad_check.specs.UsersFiles.{count_of, counts_of, document_of, file_name, may_name, named_at, named_in, named_view};
ghost use Rattle.rad_check.specs.UsersFiles.{users_at, users_named};
ghost use Rattle.rad_check.specs.UsersLines.{head_of};

use crate::users_lines::head_of;
use rad_config_fault::{ConfigFault, Key, Part, Spot};
use std::alloc::Global;
use toml::{Table, Value};

/// The most octets of the name of a file.
const NAME_MAX: usize = 4_096;

/// How many users and groups a file has.
#[derive(Clone, Copy, Debug, PartialEq, Eq)]
pub struct Counts {
    pub users: usize,
    pub groups: usize,
}

/// A file of users that a configuration names.
#[derive(Drop)]
pub struct UsersFile {
    /// As the configuration names it.
    pub name: String,
    /// The entries of the configuration's own file, which come before those of this one.
    pub before: Counts,
}

/// The file of users that a configuration names, if it names one and is a document.
///
/// Only the head is read unless it names one, or is no document by itself. `BadValue`: the name doesn't fit.
pub fn users_named(alloc: Global, text: &[u8]) -> Result<Option<UsersFile>, ConfigFault>
    ensures { Gives (option_map named_view) result (users_named text.now) }
{
    if !may_name(alloc, text)? {
        return Ok(None);
    }
    match document_of(alloc, text)? {
        Some(document) => named_in(alloc, &document),
        None => Ok(None),
    }
}

// Whether a text may name a file, as far as its head tells.
fn may_name(alloc: Global, text: &[u8]) -> Result<bool, ConfigFault>
    ensures { Gives (λ may. may) result (Ok (may_name (document_of (head_of text.now)))) }
{
    match document_of(alloc, head_of(text))? {
        Some(head) => Ok(users_at(&head).is_some()),
        None => Ok(true),
    }
}

// The document that octets are, if they are one.
fn document_of(alloc: Global, octets: &[u8]) -> Result<Option<Table>, ConfigFault>
    ensures { Gives (option_map table_view) result (Ok (document_of octets.now)) }
{
    match std::str::from_utf8(octets) {
        Ok(text) => match toml::table_from_str(alloc, text) {
            Ok(document) => Ok(Some(document)),
            Err(error) if error.is_memory() => Err(ConfigFault::NoMemory),
            Err(_) => Ok(None),
        },
        Err(_) => Ok(None),
    }
}

fn users_at(document: &Table) -> Option<&Value>
    ensures { option_map (λ value. view value.now) result ≡ users_at (table_view document.now) }
{
    document.get(Key::Users.name())
}

// The file that a document names.
fn named_in(alloc: Global, document: &Table) -> Result<Option<UsersFile>, ConfigFault>
    ensures { Gives (option_map named_view) result
        (named_at (counts_of (table_view document.now)) (users_at (table_view document.now))) }
{
    let Some(value) = users_at(document) else {
        return Ok(None);
    };
    let Some(name) = file_name(value) else {
        return Err(ConfigFault::BadValue(Spot {
            part: Part::Top,
            index: 0,
            key: Key::Users,
        }));
    };
    match String::from_str(alloc, name) {
        Ok(name) => Ok(Some(UsersFile {
            name,
            before: counts_of(document),
        })),
        Err(_) => Err(ConfigFault::NoMemory),
    }
}

// The name that a value is, where it fits.
fn file_name(value: &Value) -> Option<&str>
    ensures { option_map (λ name. name.now) result ≡ file_name (view value.now) }
{
    let name = value.as_str()?;
    if name.is_empty() || name.len() > NAME_MAX || has_zero(name) {
        return None;
    }
    Some(name)
}

// Whether an octet of a text is zero.
fn has_zero(text: &str) -> bool
    ensures { result ≡ list_any (nat_eq 0) text.now }
{
    text.as_bytes().contains(&0)
}

fn counts_of(document: &Table) -> Counts
    ensures { result ≡ counts_of (table_view document.now) }
{
    Counts {
        users: entry_count(document, Part::User),
        groups: entry_count(document, Part::Group),
    }
}

/// How many entries the list of a part has.
pub fn entry_count(document: &Table, part: Part) -> usize
    ensures { result ≡ count_of (get_member (part_name part) (table_view document.now)) }
{
    count_of(list_at(document, part))
}

fn list_at(document: &Table, part: Part) -> Option<&Value>
    ensures { option_map (λ value. view value.now) result
        ≡ get_member (part_name part) (table_view document.now) }
{
    document.get(part.name())
}

// How many entries a list has.
fn count_of(list: Option<&Value>) -> usize
    ensures { result ≡ count_of (option_map (λ value. view value.now) list.entry) }
{
    let Some(list) = list else {
        return 0;
    };
    match list.as_array() {
        Some(items) => items.len(),
        None => 0,
    }
}
