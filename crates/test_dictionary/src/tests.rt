//! Attributes beside the octets that FreeRADIUS 3.2 and pyrad 2.1 make of them, and parts that don't fit.
ghost use Rattle.std.specs.Prelude.{◌≤◌, IfSome};
ghost use Rattle.rad_dictionary.specs.Values.{tag_max};

use rad_dictionary::{Given, Misfit, Named, TAG_MAX, attribute_of, may_be_granted};
use std::process::Abort;
use std::test::Fail;

/// What is said of an attribute, and its Type and Value.
type Row = (
    Named<'static>,
    Option<u8>,
    Given<'static>,
    u8,
    &'static [u8],
);

const ROWS: &[Row] = &[
    (
        Named::Name(b"Framed-IP-Netmask"),
        None,
        Given::Text(b"255.255.255.192"),
        9,
        b"\xff\xff\xff\xc0",
    ),
    (
        Named::Name(b"Framed-Routing"),
        None,
        Given::Text(b"Send and Listen"),
        10,
        b"\0\0\0\x03",
    ),
    (
        Named::Name(b"Filter-Id"),
        None,
        Given::Text(b"gold"),
        11,
        b"gold",
    ),
    (
        Named::Name(b"filter-id"),
        None,
        Given::Hex(b"00fF"),
        11,
        b"\0\xff",
    ),
    (
        Named::Name(b"Framed-MTU"),
        None,
        Given::Number(1492),
        12,
        b"\0\0\x05\xd4",
    ),
    (
        Named::Name(b"Termination-Action"),
        None,
        Given::Text(b"RADIUS-Request"),
        29,
        b"\0\0\0\x01",
    ),
    (
        Named::Name(b"Termination-Action"),
        None,
        Given::Number(1),
        29,
        b"\0\0\0\x01",
    ),
    (
        Named::Name(b"Tunnel-Type"),
        Some(1),
        Given::Text(b"VLAN"),
        64,
        b"\x01\0\0\x0d",
    ),
    (
        Named::Name(b"Tunnel-Type"),
        None,
        Given::Text(b"VLAN"),
        64,
        b"\0\0\0\x0d",
    ),
    (
        Named::Name(b"Tunnel-Medium-Type"),
        Some(1),
        Given::Text(b"802"),
        65,
        b"\x01\0\0\x06",
    ),
    (
        Named::Name(b"Tunnel-Private-Group-ID"),
        Some(1),
        Given::Text(b"100"),
        81,
        b"\x01100",
    ),
    (
        Named::Name(b"Tunnel-Private-Group-Id"),
        None,
        Given::Text(b"100"),
        81,
        b"100",
    ),
    (
        Named::Name(b"Tunnel-Preference"),
        Some(2),
        Given::Number(66_051),
        83,
        b"\x02\x01\x02\x03",
    ),
    (
        Named::Type(85),
        None,
        Given::Number(600),
        85,
        b"\0\0\x02\x58",
    ),
    (
        Named::Name(b"Chargeable-User-Identity"),
        None,
        Given::Hex(b"00ff"),
        89,
        b"\0\xff",
    ),
    (
        Named::Name(b"Framed-Interface-Id"),
        None,
        Given::Text(b"1:2:3:4"),
        96,
        b"\0\x01\0\x02\0\x03\0\x04",
    ),
    (
        Named::Name(b"Framed-IPv6-Prefix"),
        None,
        Given::Text(b"2001:db8:7::/48"),
        97,
        b"\0\x30\x20\x01\x0d\xb8\0\x07\0\0\0\0\0\0\0\0\0\0",
    ),
    (
        Named::Name(b"Delegated-IPv6-Prefix"),
        None,
        Given::Text(b"2001:DB8::/32"),
        123,
        b"\0\x20\x20\x01\x0d\xb8\0\0\0\0\0\0\0\0\0\0\0\0",
    ),
    (
        Named::Name(b"Framed-IPv6-Address"),
        None,
        Given::Text(b"::ffff:192.0.2.1"),
        168,
        b"\0\0\0\0\0\0\0\0\0\0\xff\xff\xc0\0\x02\x01",
    ),
    (
        Named::Name(b"DNS-Server-IPv6-Address"),
        None,
        Given::Text(b"2001:db8::35"),
        169,
        b"\x20\x01\x0d\xb8\0\0\0\0\0\0\0\0\0\0\0\x35",
    ),
    (
        Named::OfVendor {
            vendor: 14_988,
            number: 8,
        },
        None,
        Given::Text(b"10M/10M"),
        26,
        b"\0\0\x3a\x8c\x08\x0910M/10M",
    ),
    (
        Named::OfVendor {
            vendor: 14_988,
            number: 1,
        },
        None,
        Given::Number(65_536),
        26,
        b"\0\0\x3a\x8c\x01\x06\0\x01\0\0",
    ),
    (
        Named::OfVendor {
            vendor: 311,
            number: 28,
        },
        None,
        Given::Text(b"192.0.2.53"),
        26,
        b"\0\0\x01\x37\x1c\x06\xc0\0\x02\x35",
    ),
    (
        Named::OfVendor {
            vendor: 9,
            number: 1,
        },
        None,
        Given::Hex(b"00"),
        26,
        b"\0\0\0\x09\x01\x03\0",
    ),
    (
        Named::Type(144),
        None,
        Given::Hex(b"0a0b"),
        144,
        b"\x0a\x0b",
    ),
];

/// What is said of an attribute, and which part doesn't fit.
type Refused = (Named<'static>, Option<u8>, Given<'static>, Misfit);

const REFUSED: &[Refused] = &[
    (
        Named::Name(b"Filter"),
        None,
        Given::Text(b"gold"),
        Misfit::Attribute,
    ),
    (
        Named::Name(b"Class"),
        None,
        Given::Text(b"gold"),
        Misfit::Attribute,
    ),
    (Named::Type(27), None, Given::Number(60), Misfit::Attribute),
    (Named::Type(0), None, Given::Hex(b"00"), Misfit::Attribute),
    (
        Named::Name(b"Filter-Id"),
        Some(1),
        Given::Text(b"gold"),
        Misfit::Tag,
    ),
    (
        Named::Name(b"Tunnel-Type"),
        Some(1),
        Given::Hex(b"0100000d"),
        Misfit::Tag,
    ),
    (
        Named::Name(b"Filter-Id"),
        None,
        Given::Text(b""),
        Misfit::Value,
    ),
    (
        Named::Name(b"Filter-Id"),
        None,
        Given::Number(5),
        Misfit::Value,
    ),
    (
        Named::Name(b"Framed-MTU"),
        None,
        Given::Number(63),
        Misfit::Value,
    ),
    (
        Named::Name(b"Framed-MTU"),
        None,
        Given::Hex(b"0005d4"),
        Misfit::Value,
    ),
    (
        Named::Name(b"Acct-Interim-Interval"),
        None,
        Given::Number(59),
        Misfit::Value,
    ),
    (
        Named::Name(b"Termination-Action"),
        None,
        Given::Text(b"Later"),
        Misfit::Value,
    ),
    (
        Named::Name(b"Framed-IP-Netmask"),
        None,
        Given::Text(b"255.255.255"),
        Misfit::Value,
    ),
    (
        Named::Name(b"Framed-IPv6-Prefix"),
        None,
        Given::Text(b"2001:db8:7::/47"),
        Misfit::Value,
    ),
    (
        Named::Name(b"Framed-IPv6-Prefix"),
        None,
        Given::Text(b"2001:db8:7::/129"),
        Misfit::Value,
    ),
    (
        Named::Name(b"Framed-IPv6-Prefix"),
        None,
        Given::Text(b"2001:db8:7::"),
        Misfit::Value,
    ),
    (
        Named::Name(b"Tunnel-Preference"),
        None,
        Given::Number(16_777_216),
        Misfit::Value,
    ),
    (
        Named::Name(b"Tunnel-Private-Group-ID"),
        None,
        Given::Text(b"\x01a"),
        Misfit::Value,
    ),
    (
        Named::Name(b"Filter-Id"),
        None,
        Given::Hex(b"0g"),
        Misfit::Value,
    ),
    (Named::Type(144), None, Given::Text(b"a"), Misfit::Value),
    (
        Named::Type(26),
        None,
        Given::Hex(b"00000009"),
        Misfit::Value,
    ),
    (
        Named::OfVendor {
            vendor: 16_777_216,
            number: 1,
        },
        None,
        Given::Number(1),
        Misfit::Attribute,
    ),
    (
        Named::OfVendor {
            vendor: 9,
            number: 0,
        },
        None,
        Given::Number(1),
        Misfit::Attribute,
    ),
    (
        Named::Name(b"Tunnel-Medium-Type"),
        None,
        Given::Number(802),
        Misfit::Value,
    ),
    (
        Named::Name(b"Framed-IPv6-Prefix"),
        None,
        Given::Hex(b"002020010db8"),
        Misfit::Value,
    ),
];

/// The most octets of a text.
const LONGEST: &[(Named<'static>, Option<u8>, usize)] = &[
    (Named::Name(b"Filter-Id"), None, 253),
    (Named::Name(b"Tunnel-Private-Group-ID"), None, 253),
    (Named::Name(b"Tunnel-Private-Group-ID"), Some(31), 252),
    (
        Named::OfVendor {
            vendor: 9,
            number: 1,
        },
        None,
        247,
    ),
];

fn holds(rt: &impl Abort, is: bool, named: &Named<'_>) {
    assert!(rt; is, "{named:?}");
}

// A tag, if there is one that can be.
fn tag_of(number: Option<u8>) -> Option<u8>
    ensures { IfSome result (λ tag. (1 ≤ tag) × (tag ≤ tag_max)) }
{
    number.filter(|tag| *tag != 0 && *tag <= TAG_MAX)
}

#[test]
fn as_others_make_them(rt: HostRuntime) -> Result<(), Fail> {
    for (named, tag, given, kind, value) in ROWS {
        let meant = attribute_of(rt.alloc(), named, tag_of(*tag), given)?;
        let is = meant.kind == *kind && meant.value.as_slice() == *value;
        holds(&rt, is, named);
    }
    Ok(())
}

#[test]
fn what_does_not_fit(rt: HostRuntime) -> Result<(), Fail> {
    for (named, tag, given, misfit) in REFUSED {
        let refused = attribute_of(rt.alloc(), named, tag_of(*tag), given).err();
        holds(&rt, refused == Some(*misfit), named);
    }
    Ok(())
}

#[test]
fn values_that_are_just_short_enough(rt: HostRuntime) -> Result<(), Fail> {
    let alloc = rt.alloc();
    for (named, tag, most) in LONGEST {
        let tag = tag_of(*tag);
        let mut text = vec![in alloc; b'a'; *most]?;
        let fits = attribute_of(alloc, named, tag, &Given::Text(&text));
        holds(&rt, fits.is_ok(), named);
        text.push(b'a')?;
        let refused = attribute_of(alloc, named, tag, &Given::Text(&text));
        holds(&rt, refused.err() == Some(Misfit::Value), named);
    }
    Ok(())
}

#[test]
fn what_a_reply_may_have(rt: HostRuntime) -> Result<(), Fail> {
    for kind in 0..=255_u8 {
        let is_kept_out = matches!(
            kind,
            0..=8
                | 18
                | 24
                | 25
                | 27
                | 30..=33
                | 40..=53
                | 55
                | 60
                | 61
                | 68..=71
                | 73..=77
                | 79
                | 80
                | 84
                | 86
                | 87
                | 94
                | 95
                | 101
        );
        holds(&rt, may_be_granted(kind) != is_kept_out, &Named::Type(kind));
    }
    Ok(())
}
