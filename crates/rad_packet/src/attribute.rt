//! Attributes: Type, Length and Value. A Type is called `kind` in the code, since `type` is taken.
ghost use Rattle.std.specs.Prelude.{◌≡◌, [], is_some, MatchOption};
ghost use Rattle.std.specs.Iterator.{YieldsFirstBy, item_count};
ghost use Rattle.rad_packet.specs.Attributes.{attributes_of, attributes_in, integer_of, AreAttributes, IsFirst};
ghost use Rattle.rad_packet.specs.AttributeViews.{attribute_of};

use std::marker::Model;

/// RFC 2865, section 5.1.
pub const USER_NAME: u8 = 1;

/// RFC 2865, section 5.2.
pub const USER_PASSWORD: u8 = 2;

/// RFC 2865, section 5.3.
pub const CHAP_PASSWORD: u8 = 3;

/// RFC 2865, section 5.4.
pub const NAS_IP_ADDRESS: u8 = 4;

/// RFC 2865, section 5.5.
pub const NAS_PORT: u8 = 5;

/// RFC 2865, section 5.6.
pub const SERVICE_TYPE: u8 = 6;

/// RFC 2865, section 5.7.
pub const FRAMED_PROTOCOL: u8 = 7;

/// RFC 2865, section 5.8.
pub const FRAMED_IP_ADDRESS: u8 = 8;

/// RFC 2865, section 5.18.
pub const REPLY_MESSAGE: u8 = 18;

/// RFC 2865, section 5.24.
pub const STATE: u8 = 24;

/// RFC 2865, section 5.25.
pub const CLASS: u8 = 25;

/// RFC 2865, section 5.27.
pub const SESSION_TIMEOUT: u8 = 27;

/// RFC 2865, section 5.33.
pub const PROXY_STATE: u8 = 33;

/// RFC 2866, section 5.1.
pub const ACCT_STATUS_TYPE: u8 = 40;

/// RFC 2865, section 5.40.
pub const CHAP_CHALLENGE: u8 = 60;

/// RFC 3579, section 3.1.
pub const EAP_MESSAGE: u8 = 79;

/// RFC 3579, section 3.2.
pub const MESSAGE_AUTHENTICATOR: u8 = 80;

/// The most octets that a Value has.
pub const VALUE_MAX: usize = 253;

/// One attribute, borrowed from the octets that hold it.
#[derive(Clone, Copy, Debug, PartialEq, Eq)]
pub struct Attribute<'a> {
    pub kind: u8,
    pub value: &'a [u8],
}

/// The attributes that some octets are, in their order. Contracts see the list of those that are left.
#[derive(Drop)]
pub struct Attributes<'a> {
    rest: &'a [u8],
}

impl<'a> Model for Attributes<'a> {
    ghost use Rattle.std.specs.Prelude.{List};
    ghost use Rattle.rad_packet.specs.Attributes.{Attribute, AreAttributes, attributes_in};

    ghost Value = { List Attribute };

    ghost view = { λ s. attributes_in s.rest.now };

    ghost invariant = { λ s. AreAttributes s.rest.now (attributes_in s.rest.now) };
}

impl<'a> Attributes<'a> {
    ghost use Rattle.std.specs.Prelude.{◌≡◌, option_copied};
    ghost use Rattle.rad_packet.specs.Attributes.{AreAttributes, attributes_in, attributes_octets, attributes_of, first_value};

    /// The attributes that some octets are, one after the other and nothing else, if they are any (RFC 2865, section 5).
    pub fn read(octets: &'a [u8]) -> Option<Attributes<'a>>
        ensures { result ≡ attributes_of octets.now }
    {
        if !are_attributes(octets) {
            return None;
        }
        Some(Attributes::of(octets))
    }

    /// The attributes that these octets are.
    pub(crate) fn of(octets: &'a [u8]) -> Attributes<'a>
        requires { AreAttributes octets.now (attributes_in octets.now) }
        ensures { result ≡ attributes_in octets.now }
    {
        Attributes { rest: octets }
    }

    /// The Value of the first attribute of a Type.
    pub fn first(self, kind: u8) -> Option<&'a [u8]>
        ensures { option_copied result ≡ first_value kind self.entry }
    {
        let mut rest = self;
        while let Some(attribute) = rest.next() {
            if attribute.kind == kind {
                return Some(attribute.value);
            }
        }
        None
    }

    /// The octets of the attributes that are left.
    pub fn octets(&self) -> &'a [u8]
        ensures { result.now ≡ attributes_octets self.now }
    {
        self.rest
    }
}

impl<'a> Iterator for Attributes<'a> {
    type Item = Attribute<'a>;

    ghost next_gives = { YieldsFirstBy attribute_of (λ s. s) };

    ghost remaining = { item_count (λ s. s) };

    fn next(&mut self) -> Option<Attribute<'a>> {
        let (attribute, rest) = split_first(self.rest)?;
        self.rest = rest;
        Some(attribute)
    }
}

// The first attribute, and the octets of the others.
fn split_first(octets: &[u8]) -> Option<(Attribute<'_>, &[u8])>
    requires { AreAttributes octets.now (attributes_in octets.now) }
    ensures { MatchOption result (attributes_in octets.now ≡ [])
        (λ parts. IsFirst octets.now (attribute_of parts.0) parts.1.now) }
{
    let [kind, len, ..] = octets else {
        return None;
    };
    let (first, rest) = octets.split_at(*len as usize);
    let (_, value) = first.split_at(2);
    Some((Attribute { kind: *kind, value }, rest))
}

/// The integer that a Value of four octets is, most significant octet first; none of any other Value (RFC 2865, section 5).
pub fn integer_of(value: &[u8]) -> Option<u32>
    ensures { result ≡ integer_of value.now }
{
    let [a, b, c, d] = value else {
        return None;
    };
    Some(u32::from_be_bytes([*a, *b, *c, *d]))
}

/// Whether the octets are attributes, one after the other, and nothing else.
pub(crate) fn are_attributes(octets: &[u8]) -> bool
    ensures { result ≡ is_some (attributes_of octets.now) }
{
    let mut rest = octets;
    while let [_, len, ..] = rest {
        let len = *len as usize;
        if len < 2 || rest.len() < len {
            return false;
        }
        rest = &rest[len..];
    }
    rest.is_empty()
}
