//! The dictionary: the attributes of the RFCs that an Access-Accept can be given, with their names, Types and kinds.
ghost use Rattle.std.specs.Prelude.{◌≡◌, map};
ghost use Rattle.rad_dictionary.specs.Dictionary.{dictionary, kind_of, type_named};
ghost use Rattle.rad_dictionary.specs.Seen.{row_seen};

use crate::enumeration::{Enumeration, is_named};
use crate::kind::Kind;

/// An attribute of an RFC: its name, its Type, and what its Value is.
#[derive(Clone, Copy, Debug)]
pub(crate) struct Definition(pub &'static str, pub u8, pub Kind);

// Any integer.
const INTEGER: Kind = Kind::Integer {
    least: 0,
    most: 4_294_967_295,
};

// An integer that fits two octets.
const SHORT: Kind = Kind::Integer {
    least: 0,
    most: 65_535,
};

/// By the RFCs: 2865, 2868, 2869, 3162, 4372, 4818 and 6911.
pub(crate) const DICTIONARY: &[Definition] = &[
    Definition("Framed-IP-Netmask", 9, Kind::Address),
    Definition(
        "Framed-Routing",
        10,
        Kind::Enumerated(Enumeration::FramedRouting),
    ),
    Definition("Filter-Id", 11, Kind::Text),
    Definition(
        "Framed-MTU",
        12,
        Kind::Integer {
            least: 64,
            most: 65_535,
        },
    ),
    Definition(
        "Framed-Compression",
        13,
        Kind::Enumerated(Enumeration::FramedCompression),
    ),
    Definition("Login-IP-Host", 14, Kind::Address),
    Definition(
        "Login-Service",
        15,
        Kind::Enumerated(Enumeration::LoginService),
    ),
    Definition("Login-TCP-Port", 16, SHORT),
    Definition("Callback-Number", 19, Kind::Text),
    Definition("Callback-Id", 20, Kind::Text),
    Definition("Framed-Route", 22, Kind::Text),
    Definition("Framed-IPX-Network", 23, INTEGER),
    Definition("Vendor-Specific", 26, Kind::VendorSpecific),
    Definition("Idle-Timeout", 28, INTEGER),
    Definition(
        "Termination-Action",
        29,
        Kind::Enumerated(Enumeration::TerminationAction),
    ),
    Definition("Login-LAT-Service", 34, Kind::Text),
    Definition("Login-LAT-Node", 35, Kind::Text),
    Definition("Login-LAT-Group", 36, Kind::Unknown),
    Definition("Framed-AppleTalk-Link", 37, SHORT),
    Definition("Framed-AppleTalk-Network", 38, SHORT),
    Definition("Framed-AppleTalk-Zone", 39, Kind::Text),
    Definition("Port-Limit", 62, INTEGER),
    Definition("Login-LAT-Port", 63, Kind::Text),
    Definition(
        "Tunnel-Type",
        64,
        Kind::TaggedEnumerated(Enumeration::TunnelType),
    ),
    Definition(
        "Tunnel-Medium-Type",
        65,
        Kind::TaggedEnumerated(Enumeration::TunnelMediumType),
    ),
    Definition("Tunnel-Client-Endpoint", 66, Kind::TaggedText),
    Definition("Tunnel-Server-Endpoint", 67, Kind::TaggedText),
    Definition(
        "ARAP-Zone-Access",
        72,
        Kind::Enumerated(Enumeration::ArapZoneAccess),
    ),
    Definition("Configuration-Token", 78, Kind::Text),
    Definition("Tunnel-Private-Group-ID", 81, Kind::TaggedText),
    Definition("Tunnel-Assignment-ID", 82, Kind::TaggedText),
    Definition("Tunnel-Preference", 83, Kind::TaggedInteger),
    Definition(
        "Acct-Interim-Interval",
        85,
        Kind::Integer {
            least: 60,
            most: 4_294_967_295,
        },
    ),
    Definition("Framed-Pool", 88, Kind::Text),
    Definition("Chargeable-User-Identity", 89, Kind::Text),
    Definition("Tunnel-Client-Auth-ID", 90, Kind::TaggedText),
    Definition("Tunnel-Server-Auth-ID", 91, Kind::TaggedText),
    Definition("Framed-Interface-Id", 96, Kind::InterfaceId),
    Definition("Framed-IPv6-Prefix", 97, Kind::Ipv6Prefix),
    Definition("Login-IPv6-Host", 98, Kind::Ipv6Address),
    Definition("Framed-IPv6-Route", 99, Kind::Text),
    Definition("Framed-IPv6-Pool", 100, Kind::Text),
    Definition("Delegated-IPv6-Prefix", 123, Kind::Ipv6Prefix),
    Definition("Framed-IPv6-Address", 168, Kind::Ipv6Address),
    Definition("DNS-Server-IPv6-Address", 169, Kind::Ipv6Address),
    Definition("Route-IPv6-Information", 170, Kind::Ipv6Prefix),
    Definition("Delegated-IPv6-Prefix-Pool", 171, Kind::Text),
    Definition("Stateful-IPv6-Address-Pool", 172, Kind::Text),
];

/// The Type of the attribute with a name, in whichever case.
pub(crate) fn type_named(name: &[u8]) -> Option<u8>
    ensures { result ≡ type_named dictionary name.now }
{
    type_in(DICTIONARY, name)
}

/// What the Value of an attribute of this Type is.
pub(crate) fn kind_of(number: u8) -> Kind
    ensures { result ≡ kind_of dictionary number }
{
    kind_in(DICTIONARY, number)
}

fn type_in(definitions: &[Definition], name: &[u8]) -> Option<u8>
    ensures { result ≡ type_named (map row_seen definitions.now) name.now }
{
    let mut rest = definitions;
    while let [definition, others @ ..] = rest {
        if is_named(definition.0, name) {
            return Some(definition.1);
        }
        rest = others;
    }
    None
}

fn kind_in(definitions: &[Definition], number: u8) -> Kind
    ensures { result ≡ kind_of (map row_seen definitions.now) number }
{
    let mut rest = definitions;
    while let [definition, others @ ..] = rest {
        if definition.1 == number {
            return definition.2;
        }
        rest = others;
    }
    Kind::Unknown
}
