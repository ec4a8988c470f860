//! The names of numbers that Values are.
ghost use Rattle.std.specs.Prelude.{◌≡◌, map};
ghost use Rattle.rad_dictionary.specs.Dictionary.{choices, has_name, is_named, number_named};
ghost use Rattle.rad_dictionary.specs.Seen.{choice_seen};

/// The attributes whose numbers have names.
#[derive(Clone, Copy, Debug)]
pub(crate) enum Enumeration {
    FramedRouting,
    FramedCompression,
    LoginService,
    TerminationAction,
    ArapZoneAccess,
    TunnelType,
    TunnelMediumType,
}

/// A number, and its name.
#[derive(Clone, Copy, Debug)]
pub(crate) struct Choice(pub u32, pub &'static str);

/// RFC 2865, section 5.10.
const FRAMED_ROUTING: &[Choice] = &[
    Choice(0, "None"),
    Choice(1, "Send routing packets"),
    Choice(2, "Listen for routing packets"),
    Choice(3, "Send and Listen"),
];

/// RFC 2865, section 5.13.
const FRAMED_COMPRESSION: &[Choice] = &[
    Choice(0, "None"),
    Choice(1, "VJ TCP/IP header compression"),
    Choice(2, "IPX header compression"),
    Choice(3, "Stac-LZS compression"),
];

/// RFC 2865, section 5.15.
const LOGIN_SERVICE: &[Choice] = &[
    Choice(0, "Telnet"),
    Choice(1, "Rlogin"),
    Choice(2, "TCP Clear"),
    Choice(3, "PortMaster"),
    Choice(4, "LAT"),
    Choice(5, "X25-PAD"),
    Choice(6, "X25-T3POS"),
    Choice(8, "TCP Clear Quiet"),
];

/// RFC 2865, section 5.29.
const TERMINATION_ACTION: &[Choice] = &[Choice(0, "Default"), Choice(1, "RADIUS-Request")];

/// RFC 2869, section 5.6.
const ARAP_ZONE_ACCESS: &[Choice] = &[
    Choice(1, "Only allow access to default zone"),
    Choice(2, "Use zone filter inclusively"),
    Choice(4, "Use zone filter exclusively"),
];

/// RFC 2868, section 3.1, and RFC 3580, section 3.31.
const TUNNEL_TYPE: &[Choice] = &[
    Choice(1, "PPTP"),
    Choice(2, "L2F"),
    Choice(3, "L2TP"),
    Choice(4, "ATMP"),
    Choice(5, "VTP"),
    Choice(6, "AH"),
    Choice(7, "IP-IP"),
    Choice(8, "MIN-IP-IP"),
    Choice(9, "ESP"),
    Choice(10, "GRE"),
    Choice(11, "DVS"),
    Choice(12, "IP-in-IP Tunneling"),
    Choice(13, "VLAN"),
];

/// RFC 2868, section 3.2.
const TUNNEL_MEDIUM_TYPE: &[Choice] = &[
    Choice(1, "IPv4"),
    Choice(2, "IPv6"),
    Choice(3, "NSAP"),
    Choice(4, "HDLC"),
    Choice(5, "BBN 1822"),
    Choice(6, "802"),
    Choice(7, "E.163"),
    Choice(8, "E.164"),
    Choice(9, "F.69"),
    Choice(10, "X.121"),
    Choice(11, "IPX"),
    Choice(12, "Appletalk"),
    Choice(13, "Decnet IV"),
    Choice(14, "Banyan Vines"),
    Choice(15, "E.164 with NSAP format subaddress"),
];

impl Enumeration {
    ghost use Rattle.std.specs.Prelude.{◌≡◌, map};
    ghost use Rattle.rad_dictionary.specs.Dictionary.{choices};
    ghost use Rattle.rad_dictionary.specs.Seen.{choice_seen};

    // The numbers and their names.
    fn choices(self) -> &'static [Choice]
        ensures { map choice_seen result.now ≡ choices self }
    {
        match self {
            Enumeration::FramedRouting => FRAMED_ROUTING,
            Enumeration::FramedCompression => FRAMED_COMPRESSION,
            Enumeration::LoginService => LOGIN_SERVICE,
            Enumeration::TerminationAction => TERMINATION_ACTION,
            Enumeration::ArapZoneAccess => ARAP_ZONE_ACCESS,
            Enumeration::TunnelType => TUNNEL_TYPE,
            Enumeration::TunnelMediumType => TUNNEL_MEDIUM_TYPE,
        }
    }
}

/// The number with a name, in whichever case.
pub(crate) fn number_named(enumeration: Enumeration, name: &[u8]) -> Option<u32>
    ensures { result ≡ number_named (choices enumeration) name.now }
{
    number_in(enumeration.choices(), name)
}

fn number_in(choices: &[Choice], name: &[u8]) -> Option<u32>
    ensures { result ≡ number_named (map choice_seen choices.now) name.now }
{
    let mut rest = choices;
    while let [choice, others @ ..] = rest {
        if is_named(choice.1, name) {
            return Some(choice.0);
        }
        rest = others;
    }
    None
}

/// Whether a number has a name.
pub(crate) fn has_name(enumeration: Enumeration, number: u32) -> bool
    ensures { result ≡ has_name (choices enumeration) number }
{
    has_name_in(enumeration.choices(), number)
}

fn has_name_in(choices: &[Choice], number: u32) -> bool
    ensures { result ≡ has_name (map choice_seen choices.now) number }
{
    let mut rest = choices;
    while let [choice, others @ ..] = rest {
        if choice.0 == number {
            return true;
        }
        rest = others;
    }
    false
}

/// Whether a name is this one, in whichever case.
#[tactic(auto, unfolding(crate::specs::Dictionary::is_named))]
pub(crate) fn is_named(own: &str, name: &[u8]) -> bool
    ensures { result ≡ is_named own.now name.now }
{
    own.as_bytes().eq_ignore_ascii_case(name)
}
