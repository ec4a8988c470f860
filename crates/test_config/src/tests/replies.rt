//! Attributes that a user's reply lists.
use super::{are_octets, read_as, reads_as, reply_octets};
use rad_config::Config;
use std::alloc::AllocError;
use std::process::Abort;
use std::test::Fail;

// A text with a user whose reply lists these items.
fn with_reply(rt: &impl AllocGlobal, items: &str) -> Result<String, AllocError> {
    format!(in rt.alloc(); "[[user]]\nname = \"u\"\npassword = \"p\"\nreply = [{items}]")
}

// The configuration that it is.
fn config_with<R: AllocGlobal>(rt: &R, items: &str) -> Result<Config, Fail> {
    let text = with_reply(rt, items)?;
    Ok(Config::read(rt.alloc(), text.as_str())?)
}

// Asserts the attributes that items are.
fn are<R: Abort + AllocGlobal>(rt: &R, items: &str, want: &[u8]) -> Result<(), Fail> {
    let config = config_with(rt, items)?;
    are_octets(rt, reply_octets(&config), want, items);
    Ok(())
}

#[test]
fn a_reply_lists_attributes(rt: HostRuntime) -> Result<(), Fail> {
    // Items, and their octets by RFC 2865, section 5, RFC 2868, section 3, and RFC 3162, section 2.
    const ROWS: &[(&str, &[u8])] = &[
        ("", b""),
        (
            r#"{attribute = "Framed-IP-Netmask", value = "255.255.255.0"}"#,
            b"\x09\x06\xff\xff\xff\0",
        ),
        (
            r#"{attribute = "filter-ID", value = "gold"}"#,
            b"\x0b\x06gold",
        ),
        (r#"{attribute = 11, value = "gold"}"#, b"\x0b\x06gold"),
        (
            r#"{value = 2, attribute = "Port-Limit"}"#,
            b"\x3e\x06\0\0\0\x02",
        ),
        (
            r#"{attribute = "Termination-Action", value = "RADIUS-Request"}"#,
            b"\x1d\x06\0\0\0\x01",
        ),
        (
            r#"{attribute = "Tunnel-Type", tag = 1, value = "VLAN"}, {attribute = "Tunnel-Medium-Type", tag = 1, value = 6}, {attribute = "Tunnel-Private-Group-ID", tag = 31, value = "100"}"#,
            b"\x40\x06\x01\0\0\x0d\x41\x06\x01\0\0\x06\x51\x06\x1f100",
        ),
        (
            r#"{attribute = "Tunnel-Private-Group-ID", value = "100"}"#,
            b"\x51\x05100",
        ),
        (
            r#"{vendor = 9, attribute = 1, value = "shell:priv-lvl=15"}"#,
            b"\x1a\x19\0\0\0\x09\x01\x13shell:priv-lvl=15",
        ),
        (
            r#"{vendor = 14988, attribute = 1, value = 65536}"#,
            b"\x1a\x0c\0\0\x3a\x8c\x01\x06\0\x01\0\0",
        ),
        (
            r#"{vendor = 16777215, attribute = 255, hex = "0102"}"#,
            b"\x1a\x0a\0\xff\xff\xff\xff\x04\x01\x02",
        ),
        (r#"{attribute = 200, hex = "00fF"}"#, b"\xc8\x04\0\xff"),
        (
            r#"{attribute = "Framed-IPv6-Prefix", value = "2001:db8::/32"}"#,
            b"\x61\x14\0\x20\x20\x01\x0d\xb8\0\0\0\0\0\0\0\0\0\0\0\0",
        ),
        (
            r#"{attribute = 22, value = "b"}, {attribute = 11, value = "a"}, {attribute = 22, value = "b"}"#,
            b"\x16\x03b\x0b\x03a\x16\x03b",
        ),
    ];
    for (items, want) in ROWS.iter() {
        are(&rt, items, want)?;
    }
    Ok(())
}

// Asserts the outcome of a text with a user whose reply lists these items.
fn items_read_as<R: Abort + AllocGlobal>(rt: &R, items: &str, want: &str) {
    let text = with_reply(rt, items).expect(rt, items);
    reads_as(rt, text.as_str(), want);
}

#[test]
fn each_part_of_an_attribute_is_checked(rt: HostRuntime) {
    // Items, and the fault of the first.
    const ROWS: &[(&str, &str)] = &[
        ("5", "config fault 9 BadReply at user 1 reply 1 entry"),
        ("[]", "config fault 9 BadReply at user 1 reply 1 entry"),
        (
            r#""Filter-Id""#,
            "config fault 9 BadReply at user 1 reply 1 entry",
        ),
        ("{}", "config fault 9 BadReply at user 1 reply 1 attribute"),
        (
            "{value = 5}",
            "config fault 9 BadReply at user 1 reply 1 attribute",
        ),
        (
            r#"{vendor = 9, value = "x"}"#,
            "config fault 9 BadReply at user 1 reply 1 attribute",
        ),
        (
            r#"{attribute = "Filter", value = "x"}"#,
            "config fault 9 BadReply at user 1 reply 1 attribute",
        ),
        (
            r#"{attribute = "", value = "x"}"#,
            "config fault 9 BadReply at user 1 reply 1 attribute",
        ),
        (
            r#"{attribute = "11", value = "x"}"#,
            "config fault 9 BadReply at user 1 reply 1 attribute",
        ),
        (
            r#"{attribute = true, value = "x"}"#,
            "config fault 9 BadReply at user 1 reply 1 attribute",
        ),
        (
            r#"{vendor = 9, attribute = "Filter-Id", value = "x"}"#,
            "config fault 9 BadReply at user 1 reply 1 attribute",
        ),
        (
            r#"{vendor = "9", attribute = 1, value = "x"}"#,
            "config fault 9 BadReply at user 1 reply 1 vendor",
        ),
        (
            r#"{attribute = "Filter-Id"}"#,
            "config fault 9 BadReply at user 1 reply 1 value",
        ),
        (
            r#"{attribute = "Filter-Id", value = ["x"]}"#,
            "config fault 9 BadReply at user 1 reply 1 value",
        ),
        (
            r#"{attribute = "Filter-Id", value = true}"#,
            "config fault 9 BadReply at user 1 reply 1 value",
        ),
        (
            r#"{attribute = "Filter-Id", value = 5}"#,
            "config fault 9 BadReply at user 1 reply 1 value",
        ),
        (
            r#"{attribute = "Port-Limit", value = "5"}"#,
            "config fault 9 BadReply at user 1 reply 1 value",
        ),
        (
            r#"{attribute = "Framed-MTU", value = 63}"#,
            "config fault 9 BadReply at user 1 reply 1 value",
        ),
        (
            r#"{attribute = "Termination-Action", value = "Reboot"}"#,
            "config fault 9 BadReply at user 1 reply 1 value",
        ),
        (
            r#"{attribute = 200, value = "x"}"#,
            "config fault 9 BadReply at user 1 reply 1 value",
        ),
        (
            r#"{attribute = "Filter-Id", hex = ""}"#,
            "config fault 9 BadReply at user 1 reply 1 hex",
        ),
        (
            r#"{attribute = "Filter-Id", hex = "0"}"#,
            "config fault 9 BadReply at user 1 reply 1 hex",
        ),
        (
            r#"{attribute = "Filter-Id", hex = "0g"}"#,
            "config fault 9 BadReply at user 1 reply 1 hex",
        ),
        (
            r#"{attribute = "Filter-Id", hex = 10}"#,
            "config fault 9 BadReply at user 1 reply 1 hex",
        ),
        (
            r#"{attribute = "Framed-IP-Netmask", hex = "ffffff"}"#,
            "config fault 9 BadReply at user 1 reply 1 hex",
        ),
        (
            r#"{attribute = "Port-Limit", hex = "00000002"}"#,
            "config fault 9 BadReply at user 1 reply 1 hex",
        ),
        (
            r#"{attribute = "Filter-Id", value = "x", hex = "78"}"#,
            "config fault 9 BadReply at user 1 reply 1 hex",
        ),
        (
            r#"{attribute = "Filter-Id", tag = 1, value = "x"}"#,
            "config fault 9 BadReply at user 1 reply 1 tag",
        ),
        (
            r#"{attribute = "Tunnel-Client-Endpoint", tag = 1, hex = "78"}"#,
            "config fault 9 BadReply at user 1 reply 1 tag",
        ),
        (
            r#"{vendor = 9, attribute = 64, tag = 1, value = "x"}"#,
            "config fault 9 BadReply at user 1 reply 1 tag",
        ),
    ];
    for (items, want) in ROWS.iter() {
        items_read_as(&rt, items, want);
    }
}

#[test]
fn the_first_part_at_fault_is_told(rt: HostRuntime) {
    // Items with several faults, and the one that is told: vendor, attribute, tag, the Value, and then what doesn't go together.
    const ROWS: &[(&str, &str)] = &[
        (
            "{vendor = 0, tag = 0}",
            "config fault 9 BadReply at user 1 reply 1 vendor",
        ),
        (
            "{tag = 0, value = true}",
            "config fault 9 BadReply at user 1 reply 1 attribute",
        ),
        (
            r#"{attribute = "No-Such", tag = 0, hex = "", value = ""}"#,
            "config fault 9 BadReply at user 1 reply 1 tag",
        ),
        (
            r#"{attribute = "No-Such", tag = 1, hex = true, value = true}"#,
            "config fault 9 BadReply at user 1 reply 1 hex",
        ),
        (
            r#"{attribute = "No-Such", value = true}"#,
            "config fault 9 BadReply at user 1 reply 1 value",
        ),
        (
            r#"{attribute = "No-Such", tag = 1, value = ""}"#,
            "config fault 9 BadReply at user 1 reply 1 attribute",
        ),
        (
            r#"{attribute = "Filter-Id", tag = 1, value = ""}"#,
            "config fault 9 BadReply at user 1 reply 1 tag",
        ),
        (
            r#"{attribute = 11, value = "x"}, {attribute = 11, value = "x"}, {attribute = 11}, {}"#,
            "config fault 9 BadReply at user 1 reply 3 value",
        ),
        (
            r#"{attribute = 11, value = "x"}, {tag = 1, value = "x"}, 5"#,
            "config fault 9 BadReply at user 1 reply 2 attribute",
        ),
    ];
    for (items, want) in ROWS.iter() {
        items_read_as(&rt, items, want);
    }
}

// Asserts the outcome of a text with an attribute of this Type.
fn type_reads_as<R: Abort + AllocGlobal>(rt: &R, kind: u8, want: &str) {
    let items = format!(in rt.alloc(); "{{attribute = {kind}, hex = \"00000000\"}}");
    items_read_as(rt, items.expect(rt, want).as_str(), want);
}

#[test]
fn some_types_are_kept_out(rt: HostRuntime) {
    // User-Name, User-Password, CHAP-Password, Framed-IP-Address, Reply-Message, State, Class, Session-Timeout, Proxy-State,
    // EAP-Message and Message-Authenticator.
    const KEPT_OUT: &[u8] = &[1, 2, 3, 8, 18, 24, 25, 27, 33, 79, 80];
    for kind in KEPT_OUT.iter() {
        let bad = "config fault 9 BadReply at user 1 reply 1 attribute";
        type_reads_as(&rt, *kind, bad);
    }
    for kind in [9, 11, 14, 255].iter() {
        type_reads_as(&rt, *kind, "read");
    }
}

#[test]
fn no_name_lets_them_in(rt: HostRuntime) {
    const NAMES: &[&str] = &[
        "User-Name",
        "User-Password",
        "CHAP-Password",
        "Framed-IP-Address",
        "Reply-Message",
        "State",
        "Class",
        "Session-Timeout",
        "Proxy-State",
        "EAP-Message",
        "Message-Authenticator",
    ];
    for name in NAMES.iter() {
        name_is_unknown(&rt, name);
    }
}

// Asserts that there is no attribute of this name.
fn name_is_unknown<R: Abort + AllocGlobal>(rt: &R, name: &str) {
    let items = format!(in rt.alloc(); "{{attribute = \"{name}\", value = \"1.2.3.4\"}}");
    let bad = "config fault 9 BadReply at user 1 reply 1 attribute";
    items_read_as(rt, items.expect(rt, name).as_str(), bad);
}

#[test]
fn a_fault_of_a_reply_has_its_entry_and_its_place(rt: HostRuntime) {
    // Texts, and the fault of each.
    const ROWS: &[(&str, &str)] = &[
        (
            r#"user = [{name = "u", password = "p", reply = 5}]"#,
            "config fault 3 BadValue at user 1 reply",
        ),
        (
            r#"user = [{name = "u", password = "p", reply = {attribute = 11, value = "x"}}]"#,
            "config fault 3 BadValue at user 1 reply",
        ),
        (
            r#"user = [{name = "u", password = "p", reply = "Filter-Id"}]"#,
            "config fault 3 BadValue at user 1 reply",
        ),
        (
            r#"group = [{name = "g", reply = 5}]"#,
            "config fault 3 BadValue at group 1 reply",
        ),
        (
            r#"group = [{name = "g"}, {name = "h", reply = [{attribute = 11, tag = 1, value = "x"}]}]"#,
            "config fault 9 BadReply at group 2 reply 1 tag",
        ),
        (
            r#"user = [{name = "u", password = "p", reply = [{attribute = 11, value = "x"}]},
                {name = "v", password = "p", reply = [{attribute = 11, value = "x"}, {attribute = 62, value = 1}, {attribute = 62, value = "x"}]}]"#,
            "config fault 9 BadReply at user 2 reply 3 value",
        ),
        (
            r#"group = [{name = "g", reply = [{attribute = 11, value = "x"}]}]
            user = [{name = "u", password = "p", group = "g", reply = [{attribute = 11, hex = "x"}]}]"#,
            "config fault 9 BadReply at user 1 reply 1 hex",
        ),
    ];
    read_as(&rt, ROWS);
}

// So many attributes of three octets, and then more items.
fn small(rt: &impl AllocGlobal, count: u32, more: &str) -> Result<String, AllocError> {
    let mut items = String::new(rt.alloc());
    for _ in 0..count {
        items.push_str("{attribute = 11, value = \"x\"}, ")?;
    }
    items.push_str(more)?;
    Ok(items)
}

// Asserts the outcome of a text with so many of them, and then more items.
fn small_read_as<R: Abort + AllocGlobal>(rt: &R, count: u32, more: &str, want: &str) {
    let items = small(rt, count, more).expect(rt, want);
    let text = with_reply(rt, items.as_str()).expect(rt, want);
    reads_as(rt, text.as_str(), want);
}

#[test]
fn a_reply_has_few_attributes(rt: HostRuntime) {
    // How many attributes of three octets a reply has, which items follow, and the outcome. 153 leave one octet of the 460 that an
    // Access-Accept has beside its Class; past 158 no item is looked at.
    const ROWS: &[(u32, &str, &str)] = &[
        (153, "", "read"),
        (154, "", "config fault 3 BadValue at user 1 reply"),
        (158, "", "config fault 3 BadValue at user 1 reply"),
        (
            157,
            "5",
            "config fault 9 BadReply at user 1 reply 158 entry",
        ),
        (158, "5", "config fault 3 BadValue at user 1 reply"),
        (159, "", "config fault 3 BadValue at user 1 reply"),
    ];
    for (count, more, want) in ROWS.iter() {
        small_read_as(&rt, *count, more, want);
    }
}
