//! Whether an Access-Accept with all that it is given fits a packet.
use super::reads_as;
use std::alloc::AllocError;
use std::process::Abort;

// A pool, a group of whom this is said with a Filter-Id of so many octets, and a user of the group likewise.
fn grouped(
    rt: &impl AllocGlobal,
    said: &str,
    first: usize,
    own: &str,
    second: usize,
) -> Result<String, AllocError> {
    let first = "x".repeat(rt.alloc(), first)?;
    let second = "x".repeat(rt.alloc(), second)?;
    format!(in rt.alloc();
        "[[pool]]\nname = \"p\"\nfirst = \"1.0.0.1\"\nlast = \"1.0.0.9\"\n\
        [[group]]\nname = \"g\"\n{said}\n[[group.reply]]\nattribute = 11\nvalue = \"{first}\"\n\
        [[user]]\nname = \"u\"\npassword = \"p\"\ngroup = \"g\"\n{own}\n[[user.reply]]\nattribute = 11\nvalue = \"{second}\"\n"
    )
}

// What is said of a group and a user, and how many octets the Filter-Id of each has.
type Grouped = (&'static str, usize, &'static str, usize);

// Asserts the outcome of such a text.
fn grouped_reads_as<R: Abort + AllocGlobal>(rt: &R, row: Grouped, want: &str) {
    let (said, first, own, second) = row;
    let text = grouped(rt, said, first, own, second).expect(rt, want);
    reads_as(rt, text.as_str(), want);
}

// A packet has 4,096 octets at most: 20 of the header, 18 of the Message-Authenticator, 3,584 of Proxy-States, 14 of the Class,
// and 460 more. An attribute of four octets takes 6 of these, and a text of so many octets 2 more (RFC 2865, sections 3 and 5).
#[test]
fn an_accept_fits_a_packet(rt: HostRuntime) {
    // Rows that fill a packet. With one octet more in the user's Filter-Id none fits.
    const ROWS: &[Grouped] = &[
        ("", 228, "", 228),
        ("", 225, "pool = \"p\"", 225),
        ("", 225, "service = 2", 225),
        ("", 225, "protocol = 1", 225),
        ("", 225, "timeout = 60", 225),
        ("", 228, "message = \"m\"", 225),
        ("", 225, "message = \"ää\"", 225),
        (
            "",
            210,
            "pool = \"p\"\nservice = 2\nprotocol = 1\ntimeout = 60\nmessage = \"12345678\"",
            212,
        ),
        ("pool = \"p\"", 225, "", 225),
        ("service = 2", 225, "", 225),
        ("protocol = 1", 225, "", 225),
        ("timeout = 60", 225, "", 225),
        ("message = \"mmmm\"", 225, "", 225),
        ("service = 2", 222, "timeout = 60", 222),
        ("timeout = 60", 225, "timeout = 90", 225),
        ("message = \"mmmm\"", 225, "message = \"m\"", 228),
        (
            "sessions = 2\nchallenge = \"c\"\nchallenges = 3",
            228,
            "answer = \"a\"\ngrants = 4",
            228,
        ),
    ];
    for (said, first, own, second) in ROWS.iter() {
        let bad = "config fault 3 BadValue at user 1 reply";
        grouped_reads_as(&rt, (said, *first, own, *second), "read");
        grouped_reads_as(&rt, (said, *first, own, *second + 1), bad);
    }
}

// An address of the user's own counts where one from a pool does.
#[test]
fn an_accept_with_an_own_address_fits_a_packet(rt: HostRuntime) {
    const ROWS: &[(Grouped, &str)] = &[
        (("", 225, "address = \"2.0.0.1\"", 225), "read"),
        (
            ("", 225, "address = \"2.0.0.1\"", 226),
            "config fault 3 BadValue at user 1 reply",
        ),
        (("pool = \"p\"", 225, "address = \"2.0.0.1\"", 225), "read"),
        (
            ("pool = \"p\"", 225, "address = \"2.0.0.1\"", 226),
            "config fault 3 BadValue at user 1 reply",
        ),
    ];
    for (row, want) in ROWS.iter() {
        grouped_reads_as(&rt, *row, want);
    }
}

// A group with a Filter-Id of so many octets, a group in it of whom this is said likewise, and perhaps a user.
fn nested(
    rt: &impl AllocGlobal,
    first: usize,
    said: &str,
    second: usize,
    user: &str,
) -> Result<String, AllocError> {
    let first = "x".repeat(rt.alloc(), first)?;
    let second = "x".repeat(rt.alloc(), second)?;
    format!(in rt.alloc();
        "[[group]]\nname = \"g\"\n[[group.reply]]\nattribute = 11\nvalue = \"{first}\"\n\
        [[group]]\nname = \"h\"\ngroup = \"g\"\n{said}\n[[group.reply]]\nattribute = 11\nvalue = \"{second}\"\n{user}\n"
    )
}

// Asserts the outcome of such a text.
fn nested_reads_as<R: Abort + AllocGlobal>(rt: &R, row: Grouped, want: &str) {
    let (said, first, user, second) = row;
    let text = nested(rt, first, said, second, user).expect(rt, want);
    reads_as(rt, text.as_str(), want);
}

#[test]
fn a_groups_reply_fits_a_packet(rt: HostRuntime) {
    // What is said of the inner group and, beside the octets of both Filter-Ids, which users there are; and the outcome. What else
    // is said counts with a user.
    const ROWS: &[(Grouped, &str)] = &[
        (("", 228, "", 228), "read"),
        (
            ("", 228, "", 229),
            "config fault 3 BadValue at group 2 reply",
        ),
        (("service = 2", 228, "", 228), "read"),
        (
            (
                "",
                228,
                "[[user]]\nname = \"u\"\npassword = \"p\"\ngroup = \"h\"",
                228,
            ),
            "read",
        ),
        (
            (
                "service = 2",
                228,
                "[[user]]\nname = \"u\"\npassword = \"p\"\ngroup = \"h\"",
                228,
            ),
            "config fault 3 BadValue at user 1 reply",
        ),
        (
            (
                "",
                228,
                "[[user]]\nname = \"u\"\npassword = \"p\"\ngroup = \"h\"\n[[user]]\nname = \"v\"\npassword = \"p\"\ngroup = \"h\"\nmessage = \"m\"",
                228,
            ),
            "config fault 3 BadValue at user 2 reply",
        ),
    ];
    for (row, want) in ROWS.iter() {
        nested_reads_as(&rt, *row, want);
    }
}
