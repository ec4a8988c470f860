//! The table of keys: which values fit each, and the defaults. A user's pool and group are names of entries, so they have no rows
//! here.
ghost use Rattle.std.specs.Prelude.{◌≡◌, ◌+◌, min, IfSome};
ghost use Rattle.std.specs.Int.{IsInRange};
ghost use Rattle.std.specs.Option.{option_copied};
ghost use Rattle.toml.specs.View.{view};
ghost use Rattle.rad_config.specs.Keys.{number, address, network, above_first_max, address_max};
ghost use Rattle.rad_config.specs.Networks.{IsNetwork};
ghost use Rattle.rad_config.specs.Readers.{HasRowLength};
ghost use Rattle.rad_config.specs.Views.{text_fit};

use crate::network::{Network, network_of};
use rad_auth::{PASSWORD_MAX, SECRET_MAX};
use rad_config_fault::Key;
use rad_dictionary::TAG_MAX;
use rad_packet::attribute::VALUE_MAX;
use rad_text::decimal;
use toml::Value;

/// A key that holds a number, and the range of that number.
#[derive(Clone, Copy)]
pub struct NumberRow {
    pub key: Key,
    pub least: u32,
    pub most: u32,
}

/// A key that holds a number, and its default.
#[derive(Clone, Copy)]
pub struct DefaultRow {
    pub number: NumberRow,
    pub default: u32,
}

/// A key that holds a flag, and its default.
#[derive(Clone, Copy)]
pub struct FlagRow {
    pub key: Key,
    pub default: bool,
}

/// A key that holds an address, and the range of that address.
#[derive(Clone, Copy)]
pub struct AddressRow {
    pub key: Key,
    pub least: u32,
    pub most: u32,
}

/// A key that holds a network.
#[derive(Clone, Copy)]
pub struct NetworkRow {
    pub key: Key,
}

/// A key that holds a text, and how many octets that text has.
#[derive(Clone, Copy)]
pub struct TextRow {
    pub key: Key,
    pub least: usize,
    pub most: usize,
    /// Whether an octet may be zero.
    pub zeros: bool,
}

/// In seconds.
pub const WINDOW: DefaultRow = DefaultRow {
    number: NumberRow {
        key: Key::Window,
        least: 1,
        most: 3_600,
    },
    default: 30,
};

/// In seconds.
pub const HOLD: DefaultRow = DefaultRow {
    number: NumberRow {
        key: Key::Hold,
        least: 1,
        most: 86_400,
    },
    default: 60,
};

/// In seconds.
pub const STALE: NumberRow = NumberRow {
    key: Key::Stale,
    least: 1,
    most: 604_800,
};

pub const CLIENT_ADDRESS: NetworkRow = NetworkRow { key: Key::Address };

pub const CLIENT_SECRET: TextRow = TextRow {
    key: Key::Secret,
    least: 1,
    most: SECRET_MAX,
    zeros: true,
};

pub const REQUIRE_MESSAGE_AUTHENTICATOR: FlagRow = FlagRow {
    key: Key::RequireMessageAuthenticator,
    default: false,
};

pub const POOL_NAME: TextRow = TextRow {
    key: Key::Name,
    least: 1,
    most: 64,
    zeros: true,
};

// The highest address of a pool or a user: Framed-IP-Address gives the two above it a meaning of their own (RFC 2865, section 5.8).
const ADDRESS_MAX: u32 = 4_294_967_293;

/// From 0.0.0.1 to 255.255.255.253.
pub const POOL_FIRST: AddressRow = AddressRow {
    key: Key::First,
    least: 1,
    most: ADDRESS_MAX,
};

// How far the last address of a pool may lie above its first.
const ABOVE_FIRST_MAX: u32 = 65_535;

/// The last address of a pool with this first one: not below it, and not too far above it.
pub fn pool_last(first: u32) -> AddressRow
    ensures { result ≡ record {
      key = Key.Last;
      least = first;
      most = min address_max (first + above_first_max);
    } }
{
    AddressRow {
        key: Key::Last,
        least: first,
        most: ADDRESS_MAX.min(first.saturating_add(ABOVE_FIRST_MAX)),
    }
}

pub const USER_NAME: TextRow = TextRow {
    key: Key::Name,
    least: 1,
    most: VALUE_MAX,
    zeros: true,
};

/// A User-Password is padded with zeros, from which a zero at its end couldn't be distinguished (RFC 2865, section 5.2).
pub const PASSWORD: TextRow = TextRow {
    key: Key::Password,
    least: 1,
    most: PASSWORD_MAX,
    zeros: false,
};

pub const SESSIONS: NumberRow = NumberRow {
    key: Key::Sessions,
    least: 1,
    most: 4_096,
};

/// In percent.
pub const CLIENT_SHARE: NumberRow = NumberRow {
    key: Key::Share,
    least: 1,
    most: 100,
};

pub const SERVICE: NumberRow = NumberRow {
    key: Key::Service,
    least: 0,
    most: u32::MAX,
};

pub const PROTOCOL: NumberRow = NumberRow {
    key: Key::Protocol,
    least: 0,
    most: u32::MAX,
};

/// In seconds.
pub const TIMEOUT: NumberRow = NumberRow {
    key: Key::Timeout,
    least: 1,
    most: u32::MAX,
};

pub const MESSAGE: TextRow = TextRow {
    key: Key::Message,
    least: 1,
    most: VALUE_MAX,
    zeros: true,
};

pub const CHALLENGE: TextRow = TextRow {
    key: Key::Challenge,
    least: 1,
    most: VALUE_MAX,
    zeros: true,
};

pub const ANSWER: TextRow = TextRow {
    key: Key::Answer,
    least: 1,
    most: PASSWORD_MAX,
    zeros: false,
};

pub const USER_CHALLENGES: NumberRow = NumberRow {
    key: Key::Challenges,
    least: 1,
    most: 1_024,
};

pub const GRANTS: NumberRow = NumberRow {
    key: Key::Grants,
    least: 1,
    most: 65_536,
};

/// From 0.0.0.1 to 255.255.255.253.
pub const USER_ADDRESS: AddressRow = AddressRow {
    key: Key::Address,
    least: 1,
    most: ADDRESS_MAX,
};

pub const GROUP_NAME: TextRow = TextRow {
    key: Key::Name,
    least: 1,
    most: 64,
    zeros: true,
};

/// A vendor's number, whose high octet is zero (RFC 2865, section 5.26).
pub const VENDOR: NumberRow = NumberRow {
    key: Key::Vendor,
    least: 1,
    most: 16_777_215,
};

/// An attribute by its Type, or by the number that its vendor gave it.
pub const ATTRIBUTE: NumberRow = NumberRow {
    key: Key::Attribute,
    least: 1,
    most: 255,
};

pub const TAG: NumberRow = NumberRow {
    key: Key::Tag,
    least: 1,
    most: TAG_MAX as u32,
};

pub const VALUE: NumberRow = NumberRow {
    key: Key::Value,
    least: 0,
    most: u32::MAX,
};

impl NumberRow {
    /// The number that a value is, where it fits.
    pub fn fit(&self, value: &Value) -> Option<u32>
        ensures value { result ≡ number self.now.least self.now.most (view value.now) }
        ensures range { IfSome result (IsInRange self.now.least self.now.most) }
    {
        let number = value.as_integer()?;
        if number < i64::from(self.least) || number > i64::from(self.most) {
            return None;
        }
        Some(number as u32)
    }
}

impl AddressRow {
    /// The address that a value is, where it fits.
    pub fn fit(&self, value: &Value) -> Option<u32>
        ensures value { result ≡ address self.now.least self.now.most (view value.now) }
        ensures range { IfSome result (IsInRange self.now.least self.now.most) }
    {
        let text = value.as_str()?;
        let address = decimal::address(text.as_bytes())?;
        if address < self.least || address > self.most {
            return None;
        }
        Some(address)
    }
}

impl NetworkRow {
    /// The network that a value is, where it fits.
    pub fn fit(&self, value: &Value) -> Option<Network>
        ensures value { result ≡ network (view value.now) }
        ensures fits { IfSome result IsNetwork }
    {
        network_of(value.as_str()?.as_bytes())
    }
}

impl TextRow {
    /// The octets of the text that a value is, where it fits.
    pub fn fit<'a>(&self, value: &'a Value) -> Option<&'a [u8]>
        ensures value { option_copied result ≡ text_fit self.now (view value.now) }
        ensures range { IfSome result (HasRowLength self.now) }
    {
        let text = value.as_str()?.as_bytes();
        if text.len() < self.least || text.len() > self.most {
            return None;
        }
        if !self.zeros && text.contains(&0) {
            return None;
        }
        Some(text)
    }
}
