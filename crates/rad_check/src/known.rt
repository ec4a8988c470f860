//! The names that each table of a configuration has.
ghost use Rattle.std.specs.Prelude.{◌≡◌};
ghost use Rattle.rad_check.specs.Names.{has_reply, is_known, is_of_entry, is_of_reply, is_of_top, some_key, some_list};

use rad_config_fault::{Key, Part};

/// A table that has names: that of a part, or of an attribute in the reply of one of a part's entries.
#[derive(Clone, Copy)]
pub enum Scope {
    Part(Part),
    Reply(Part),
}

/// A name that a table has: of a key, or of a list of entries.
#[derive(Clone, Copy)]
pub enum Known {
    Key(Key),
    List(Part),
}

/// The lists of a configuration.
pub const LISTS: &[Part] = &[Part::Client, Part::Pool, Part::User, Part::Group];

impl Known {
    ghost use Rattle.std.specs.Prelude.{◌≡◌};
    ghost use Rattle.rad_check.specs.Names.{name_of};

    /// The name as a text spells it.
    pub fn name(self) -> &'static str
        ensures { result.now ≡ name_of self }
    {
        match self {
            Known::Key(key) => key.name(),
            Known::List(part) => part.name(),
        }
    }
}

impl Scope {
    ghost use Rattle.std.specs.Prelude.{◌≡◌};
    ghost use Rattle.rad_check.specs.Names.{keys_in, lists_in};

    /// The keys that the table has.
    pub fn keys(self) -> &'static [Key]
        ensures { result.now ≡ keys_in self }
    {
        match self {
            Scope::Part(part) => part.keys(),
            Scope::Reply(_) => Key::of_reply(),
        }
    }

    /// The lists that the table has.
    pub fn lists(self) -> &'static [Part]
        ensures { result.now ≡ lists_in self }
    {
        match self {
            Scope::Part(Part::Top) => LISTS,
            _ => &[],
        }
    }
}

/// Whether a table has a name.
pub fn is_known(scope: Scope, name: &str) -> bool
    ensures { result ≡ is_known scope name.now }
{
    some_key(scope.keys(), name) || some_list(scope.lists(), name)
}

/// Whether the entries of a part may have a reply.
pub fn has_reply(part: Part) -> bool
    ensures { result ≡ has_reply part }
{
    matches!(part, Part::User | Part::Group)
}

/// Whether a table isn't the top, and a key has a name of the top.
pub fn is_of_top(scope: Scope, name: &str) -> bool
    ensures { result ≡ is_of_top scope name.now }
{
    match scope {
        Scope::Part(Part::Top) => false,
        _ => some_key(Part::Top.keys(), name),
    }
}

/// Whether an attribute of a reply has a key of the entry.
pub fn is_of_entry(scope: Scope, name: &str) -> bool
    ensures { result ≡ is_of_entry scope name.now }
{
    match scope {
        Scope::Part(_) => false,
        Scope::Reply(part) => is_known(Scope::Part(part), name),
    }
}

/// Whether an entry has a key of its reply's attributes.
pub fn is_of_reply(scope: Scope, name: &str) -> bool
    ensures { result ≡ is_of_reply scope name.now }
{
    match scope {
        Scope::Part(part) => has_reply(part) && is_known(Scope::Reply(part), name),
        Scope::Reply(_) => false,
    }
}

// Whether one of these keys has a name.
fn some_key(keys: &[Key], name: &str) -> bool
    ensures { result ≡ some_key keys.now name.now }
{
    keys.iter().any(|key| name == key.name())
}

// Whether one of these lists has a name.
fn some_list(lists: &[Part], name: &str) -> bool
    ensures { result ≡ some_list lists.now name.now }
{
    lists.iter().any(|part| name == part.name())
}
