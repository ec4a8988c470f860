//! What is wrong with a configuration text.
ghost use Rattle.std.specs.Prelude.{◌≡◌};
ghost use Rattle.rad_config_fault.specs.Faults.{fault_number, fault_name, part_name, key_name, keys_of, reply_keys};

use std::error::Error;
use std::fmt;

/// The first fault of a configuration text.
#[derive(Clone, Copy, Debug, PartialEq, Eq)]
pub enum ConfigFault {
    /// The text is no TOML document.
    Syntax,
    /// A required key is absent.
    Missing(Spot),
    /// The value of a key doesn't fit.
    BadValue(Spot),
    /// `hold` is less than `window`.
    HoldBelowWindow,
    /// Two pools share an address.
    PoolsOverlap,
    /// A list is too long.
    TooMany(Part),
    /// An allocation failed.
    NoMemory,
    /// `stale` is less than `window`.
    StaleBelowWindow,
    /// A key of an attribute of a `reply` is absent, or its value doesn't fit.
    BadReply(ReplySpot),
}

impl ConfigFault {
    /// The fault's number and name, as they are printed.
    pub fn label(self) -> (u8, &'static str)
        ensures number { result.0 ≡ fault_number self }
        ensures name { result.1.now ≡ fault_name self }
    {
        match self {
            ConfigFault::Syntax => (1, "Syntax"),
            ConfigFault::Missing(_) => (2, "Missing"),
            ConfigFault::BadValue(_) => (3, "BadValue"),
            ConfigFault::HoldBelowWindow => (4, "HoldBelowWindow"),
            ConfigFault::PoolsOverlap => (5, "PoolsOverlap"),
            ConfigFault::TooMany(_) => (6, "TooMany"),
            ConfigFault::NoMemory => (7, "NoMemory"),
            ConfigFault::StaleBelowWindow => (8, "StaleBelowWindow"),
            ConfigFault::BadReply(_) => (9, "BadReply"),
        }
    }
}

impl fmt::Display for ConfigFault {
    fn fmt<W: fmt::Write>(&self, f: &mut fmt::Formatter<W>) -> fmt::Result {
        let (number, name) = self.label();
        write!(f, "config fault {number} {name}")?;
        match self {
            ConfigFault::Missing(spot) | ConfigFault::BadValue(spot) => write!(f, " at {spot}"),
            ConfigFault::TooMany(part) => write!(f, " at {part}"),
            ConfigFault::BadReply(spot) => write!(f, " at {spot}"),
            ConfigFault::Syntax
            | ConfigFault::HoldBelowWindow
            | ConfigFault::PoolsOverlap
            | ConfigFault::NoMemory
            | ConfigFault::StaleBelowWindow => Ok(()),
        }
    }
}

impl Error for ConfigFault {}

/// Where a fault is: a part, an entry's index in it, and a key.
///
/// The index counts from 1; it is 0 for `Part::Top` and for `Key::List`.
#[derive(Clone, Copy, Debug, PartialEq, Eq)]
pub struct Spot {
    pub part: Part,
    pub index: u32,
    pub key: Key,
}

impl fmt::Display for Spot {
    fn fmt<W: fmt::Write>(&self, f: &mut fmt::Formatter<W>) -> fmt::Result {
        let Spot { part, index, key } = self;
        write!(f, "{part} {index} {key}")
    }
}

/// Where a fault of a `reply` is: an entry with a reply, an attribute's place in it, and a key.
///
/// Places count from 1.
#[derive(Clone, Copy, Debug, PartialEq, Eq)]
pub struct ReplySpot {
    pub part: Part,
    pub index: u32,
    pub place: u32,
    pub key: Key,
}

impl fmt::Display for ReplySpot {
    fn fmt<W: fmt::Write>(&self, f: &mut fmt::Formatter<W>) -> fmt::Result {
        let ReplySpot {
            part,
            index,
            place,
            key,
        } = self;
        write!(f, "{part} {index} reply {place} {key}")
    }
}

/// A part of a configuration: the keys at the top, or a list of entries.
#[derive(Clone, Copy, Debug, PartialEq, Eq)]
pub enum Part {
    Top,
    Client,
    Pool,
    User,
    Group,
}

const TOP: &[Key] = &[Key::Window, Key::Hold, Key::Stale, Key::Users];

const CLIENT: &[Key] = &[
    Key::Address,
    Key::Secret,
    Key::RequireMessageAuthenticator,
    Key::Share,
];

const POOL: &[Key] = &[Key::Name, Key::First, Key::Last];

const USER: &[Key] = &[
    Key::Name,
    Key::Password,
    Key::Pool,
    Key::Sessions,
    Key::Service,
    Key::Protocol,
    Key::Timeout,
    Key::Message,
    Key::Challenge,
    Key::Answer,
    Key::Challenges,
    Key::Grants,
    Key::Address,
    Key::Group,
    Key::Reply,
];

const GROUP: &[Key] = &[
    Key::Name,
    Key::Pool,
    Key::Sessions,
    Key::Service,
    Key::Protocol,
    Key::Timeout,
    Key::Message,
    Key::Challenge,
    Key::Answer,
    Key::Challenges,
    Key::Grants,
    Key::Group,
    Key::Reply,
];

const REPLY: &[Key] = &[Key::Attribute, Key::Vendor, Key::Value, Key::Hex, Key::Tag];

impl Part {
    /// The part as it is printed; a list of entries has this key.
    pub fn name(self) -> &'static str
        ensures { result.now ≡ part_name self }
    {
        match self {
            Part::Top => "top",
            Part::Client => "client",
            Part::Pool => "pool",
            Part::User => "user",
            Part::Group => "group",
        }
    }

    /// The keys that a table of the part has, but for the lists at the top.
    pub fn keys(self) -> &'static [Key]
        ensures { result.now ≡ keys_of self }
    {
        match self {
            Part::Top => TOP,
            Part::Client => CLIENT,
            Part::Pool => POOL,
            Part::User => USER,
            Part::Group => GROUP,
        }
    }
}

impl fmt::Display for Part {
    fn fmt<W: fmt::Write>(&self, f: &mut fmt::Formatter<W>) -> fmt::Result {
        f.write_str(self.name())
    }
}

/// A key, or what else may be at fault in a part: its list, or an entry.
#[derive(Clone, Copy, Debug, PartialEq, Eq)]
pub enum Key {
    List,
    Entry,
    Window,
    Hold,
    Stale,
    Address,
    Secret,
    RequireMessageAuthenticator,
    Name,
    First,
    Last,
    Password,
    Pool,
    Sessions,
    Service,
    Protocol,
    Timeout,
    Message,
    Challenge,
    Answer,
    Share,
    Challenges,
    Grants,
    Group,
    Reply,
    Attribute,
    Vendor,
    Value,
    Hex,
    Tag,
    Users,
}

impl Key {
    /// The key as it is printed, which is how a text spells it.
    pub fn name(self) -> &'static str
        ensures { result.now ≡ key_name self }
    {
        match self {
            Key::List => "list",
            Key::Entry => "entry",
            Key::Window => "window",
            Key::Hold => "hold",
            Key::Stale => "stale",
            Key::Address => "address",
            Key::Secret => "secret",
            Key::RequireMessageAuthenticator => "require_message_authenticator",
            Key::Name => "name",
            Key::First => "first",
            Key::Last => "last",
            Key::Password => "password",
            Key::Pool => "pool",
            Key::Sessions => "sessions",
            Key::Service => "service",
            Key::Protocol => "protocol",
            Key::Timeout => "timeout",
            Key::Message => "message",
            Key::Challenge => "challenge",
            Key::Answer => "answer",
            Key::Share => "share",
            Key::Challenges => "challenges",
            Key::Grants => "grants",
            Key::Group => "group",
            Key::Reply => "reply",
            Key::Attribute => "attribute",
            Key::Vendor => "vendor",
            Key::Value => "value",
            Key::Hex => "hex",
            Key::Tag => "tag",
            Key::Users => "users",
        }
    }

    /// The keys that an attribute of a `reply` has.
    pub fn of_reply() -> &'static [Key]
        ensures { result.now ≡ reply_keys }
    {
        REPLY
    }
}

impl fmt::Display for Key {
    fn fmt<W: fmt::Write>(&self, f: &mut fmt::Formatter<W>) -> fmt::Result {
        f.write_str(self.name())
    }
}
