//! The values of keys: numbers in their ranges, texts of their lengths, and flags; and that they are compared.
use super::{holds, read_as, reads_as};
use rad_config::Config;
use std::alloc::AllocError;
use std::process::Abort;
use std::test::Fail;

// Keys that hold a number, each with values that fit, values that don't, and the fault of these.
const NUMBERS: &[(&str, [i64; 2], [i64; 2], &str)] = &[
    (
        "hold = 3600\nwindow",
        [1, 3_600],
        [0, 3_601],
        "config fault 3 BadValue at top 0 window",
    ),
    (
        "window = 1\nhold",
        [1, 86_400],
        [0, 86_401],
        "config fault 3 BadValue at top 0 hold",
    ),
    (
        "window = 1\nstale",
        [1, 604_800],
        [0, 604_801],
        "config fault 3 BadValue at top 0 stale",
    ),
    (
        "[[user]]\nname = \"a\"\npassword = \"b\"\nsessions",
        [1, 4_096],
        [0, 4_097],
        "config fault 3 BadValue at user 1 sessions",
    ),
    (
        "[[user]]\nname = \"a\"\npassword = \"b\"\nservice",
        [0, 4_294_967_295],
        [-1, 4_294_967_296],
        "config fault 3 BadValue at user 1 service",
    ),
    (
        "[[user]]\nname = \"a\"\npassword = \"b\"\nprotocol",
        [0, 4_294_967_295],
        [-1, 4_294_967_296],
        "config fault 3 BadValue at user 1 protocol",
    ),
    (
        "[[user]]\nname = \"a\"\npassword = \"b\"\ntimeout",
        [1, 4_294_967_295],
        [0, 4_294_967_296],
        "config fault 3 BadValue at user 1 timeout",
    ),
    (
        "[[user]]\nname = \"a\"\npassword = \"b\"\nchallenges",
        [1, 1_024],
        [0, 1_025],
        "config fault 3 BadValue at user 1 challenges",
    ),
    (
        "[[user]]\nname = \"a\"\npassword = \"b\"\ngrants",
        [1, 65_536],
        [0, 65_537],
        "config fault 3 BadValue at user 1 grants",
    ),
    (
        "[[client]]\naddress = \"1.2.3.4\"\nsecret = \"s\"\nshare",
        [1, 100],
        [0, 101],
        "config fault 3 BadValue at client 1 share",
    ),
    (
        "[[group]]\nname = \"a\"\nsessions",
        [1, 4_096],
        [0, 4_097],
        "config fault 3 BadValue at group 1 sessions",
    ),
    (
        "[[group]]\nname = \"a\"\nservice",
        [0, 4_294_967_295],
        [-1, 4_294_967_296],
        "config fault 3 BadValue at group 1 service",
    ),
    (
        "[[group]]\nname = \"a\"\nprotocol",
        [0, 4_294_967_295],
        [-1, 4_294_967_296],
        "config fault 3 BadValue at group 1 protocol",
    ),
    (
        "[[group]]\nname = \"a\"\ntimeout",
        [1, 4_294_967_295],
        [0, 4_294_967_296],
        "config fault 3 BadValue at group 1 timeout",
    ),
    (
        "[[group]]\nname = \"a\"\nchallenges",
        [1, 1_024],
        [0, 1_025],
        "config fault 3 BadValue at group 1 challenges",
    ),
    (
        "[[group]]\nname = \"a\"\ngrants",
        [1, 65_536],
        [0, 65_537],
        "config fault 3 BadValue at group 1 grants",
    ),
    (
        "[[user]]\nname = \"a\"\npassword = \"b\"\n[[user.reply]]\nattribute = 1\nvalue = 5\nvendor",
        [1, 16_777_215],
        [0, 16_777_216],
        "config fault 9 BadReply at user 1 reply 1 vendor",
    ),
    (
        "[[user]]\nname = \"a\"\npassword = \"b\"\n[[user.reply]]\nvendor = 9\nvalue = 5\nattribute",
        [1, 255],
        [0, 256],
        "config fault 9 BadReply at user 1 reply 1 attribute",
    ),
    (
        "[[user]]\nname = \"a\"\npassword = \"b\"\n[[user.reply]]\nhex = \"00000000\"\nattribute",
        [9, 255],
        [0, 256],
        "config fault 9 BadReply at user 1 reply 1 attribute",
    ),
    (
        "[[user]]\nname = \"a\"\npassword = \"b\"\n[[user.reply]]\nattribute = \"Tunnel-Preference\"\nvalue = 5\ntag",
        [1, 31],
        [0, 32],
        "config fault 9 BadReply at user 1 reply 1 tag",
    ),
    (
        "[[user]]\nname = \"a\"\npassword = \"b\"\n[[user.reply]]\nattribute = \"Port-Limit\"\nvalue",
        [0, 4_294_967_295],
        [-1, 4_294_967_296],
        "config fault 9 BadReply at user 1 reply 1 value",
    ),
    (
        "[[user]]\nname = \"a\"\npassword = \"b\"\n[[user.reply]]\nattribute = \"Tunnel-Preference\"\nvalue",
        [0, 16_777_215],
        [-1, 16_777_216],
        "config fault 9 BadReply at user 1 reply 1 value",
    ),
];

// Asserts the outcome of a text with this value at a key.
fn reads_as_at<R: Abort + AllocGlobal>(rt: &R, key: &str, value: &str, after: &str, want: &str) {
    let text = format!(in rt.alloc(); "{key} = {value}{after}");
    reads_as(rt, text.expect(rt, key).as_str(), want);
}

// Asserts the outcome of a text with this number at a key.
fn number_reads_as<R: Abort + AllocGlobal>(rt: &R, key: &str, number: i64, want: &str) {
    let text = format!(in rt.alloc(); "{key} = {number}");
    reads_as(rt, text.expect(rt, key).as_str(), want);
}

// The same with each of these numbers.
fn numbers_read_as<R: Abort + AllocGlobal>(rt: &R, key: &str, numbers: &[i64], want: &str) {
    for number in numbers {
        number_reads_as(rt, key, *number, want);
    }
}

// The same with each of these values.
fn read_as_at<R: Abort + AllocGlobal>(rt: &R, key: &str, values: &[&str], want: &str) {
    for value in values {
        reads_as_at(rt, key, value, "", want);
    }
}

#[test]
fn numbers_have_ranges(rt: HostRuntime) {
    for (key, fit, _, _) in NUMBERS.iter() {
        numbers_read_as(&rt, key, fit, "read");
    }
}

#[test]
fn no_number_is_past_its_range(rt: HostRuntime) {
    for (key, _, refused, bad) in NUMBERS.iter() {
        numbers_read_as(&rt, key, refused, bad);
    }
}

// The configuration of a text with this value at a key.
fn config_at(rt: &impl AllocGlobal, key: &str, value: &str, after: &str) -> Result<Config, Fail> {
    let text = format!(in rt.alloc(); "{key} = {value}{after}")?;
    Ok(Config::read(rt.alloc(), text.as_str())?)
}

// Asserts that a key's value is compared. What a group says counts only for its users, and the text has none.
fn is_compared<R: Abort + AllocGlobal>(
    rt: &R,
    key: &str,
    (value, other): (&str, &str),
    after: &str,
) -> Result<(), Fail> {
    let config = config_at(rt, key, value, after)?;
    let other = config_at(rt, key, other, after)?;
    holds(rt, config.same(&other) == key.starts_with("[[group]]"), key);
    Ok(())
}

// The same of a key with these numbers.
fn numbers_are_compared<R: Abort + AllocGlobal>(
    rt: &R,
    key: &str,
    numbers: [i64; 2],
) -> Result<(), Fail> {
    let [number, other] = numbers;
    let number = number.to_string(rt.alloc())?;
    let other = other.to_string(rt.alloc())?;
    is_compared(rt, key, (number.as_str(), other.as_str()), "")
}

#[test]
fn each_number_is_compared(rt: HostRuntime) -> Result<(), Fail> {
    for (key, fit, _, _) in NUMBERS.iter() {
        numbers_are_compared(&rt, key, *fit)?;
    }
    Ok(())
}

#[test]
fn only_numbers_are_numbers(rt: HostRuntime) {
    // What fits no key that holds a number.
    const VALUES: &[&str] = &[
        "true",
        "1.0",
        "\"1\"",
        "1979-05-27",
        "[1]",
        "-9223372036854775808",
    ];
    for (key, _, _, bad) in NUMBERS.iter() {
        read_as_at(&rt, key, VALUES, bad);
    }
}

// Keys that hold a text, each with what follows it, lengths that fit, lengths that don't, and the fault of these.
const TEXTS: &[(&str, &str, [usize; 2], [usize; 2], &str)] = &[
    (
        "[[client]]\naddress = \"1.2.3.4\"\nsecret",
        "",
        [1, 128],
        [0, 129],
        "config fault 3 BadValue at client 1 secret",
    ),
    (
        "[[pool]]\nfirst = \"1.2.3.4\"\nlast = \"1.2.3.4\"\nname",
        "",
        [1, 64],
        [0, 65],
        "config fault 3 BadValue at pool 1 name",
    ),
    (
        "[[user]]\npassword = \"b\"\nname",
        "",
        [1, 253],
        [0, 254],
        "config fault 3 BadValue at user 1 name",
    ),
    (
        "[[user]]\nname = \"a\"\npassword",
        "",
        [1, 128],
        [0, 129],
        "config fault 3 BadValue at user 1 password",
    ),
    (
        "[[user]]\nname = \"a\"\npassword = \"b\"\nmessage",
        "",
        [1, 253],
        [0, 254],
        "config fault 3 BadValue at user 1 message",
    ),
    (
        "[[user]]\nname = \"a\"\npassword = \"b\"\nchallenge",
        "\nanswer = \"c\"",
        [1, 253],
        [0, 254],
        "config fault 3 BadValue at user 1 challenge",
    ),
    (
        "[[user]]\nname = \"a\"\npassword = \"b\"\nanswer",
        "\nchallenge = \"c\"",
        [1, 128],
        [0, 129],
        "config fault 3 BadValue at user 1 answer",
    ),
    (
        "[[group]]\nname",
        "",
        [1, 64],
        [0, 65],
        "config fault 3 BadValue at group 1 name",
    ),
    (
        "[[group]]\nname = \"a\"\nmessage",
        "",
        [1, 253],
        [0, 254],
        "config fault 3 BadValue at group 1 message",
    ),
    (
        "[[group]]\nname = \"a\"\nchallenge",
        "",
        [1, 253],
        [0, 254],
        "config fault 3 BadValue at group 1 challenge",
    ),
    (
        "[[group]]\nname = \"a\"\nanswer",
        "",
        [1, 128],
        [0, 129],
        "config fault 3 BadValue at group 1 answer",
    ),
    (
        "[[user]]\nname = \"a\"\npassword = \"b\"\n[[user.reply]]\nattribute = \"Filter-Id\"\nvalue",
        "",
        [1, 253],
        [0, 254],
        "config fault 9 BadReply at user 1 reply 1 value",
    ),
    (
        "[[user]]\nname = \"a\"\npassword = \"b\"\n[[user.reply]]\nattribute = \"Tunnel-Client-Endpoint\"\ntag = 1\nvalue",
        "",
        [1, 252],
        [0, 253],
        "config fault 9 BadReply at user 1 reply 1 value",
    ),
];

// A text of so many letters, as TOML spells it.
fn spelled(rt: &impl AllocGlobal, letter: &str, count: usize) -> Result<String, AllocError> {
    let letters = letter.repeat(rt.alloc(), count)?;
    format!(in rt.alloc(); "\"{letters}\"")
}

// Asserts the outcome of a text with so many letters at a key.
fn letters_read_as<R: Abort + AllocGlobal>(
    rt: &R,
    key: &str,
    (letter, count): (&str, usize),
    after: &str,
    want: &str,
) {
    let value = spelled(rt, letter, count).expect(rt, key);
    reads_as_at(rt, key, value.as_str(), after, want);
}

// The same with each of these lengths.
fn lengths_read_as<R: Abort + AllocGlobal>(
    rt: &R,
    key: &str,
    lengths: &[usize],
    after: &str,
    want: &str,
) {
    for length in lengths {
        letters_read_as(rt, key, ("x", *length), after, want);
    }
}

#[test]
fn texts_have_lengths(rt: HostRuntime) {
    for (key, after, fit, _, _) in TEXTS.iter() {
        lengths_read_as(&rt, key, fit, after, "read");
    }
}

#[test]
fn no_text_is_past_its_lengths(rt: HostRuntime) {
    for (key, after, _, refused, bad) in TEXTS.iter() {
        lengths_read_as(&rt, key, refused, after, bad);
    }
}

// Asserts that texts of these lengths are compared.
fn lengths_are_compared<R: Abort + AllocGlobal>(
    rt: &R,
    key: &str,
    lengths: [usize; 2],
    after: &str,
) -> Result<(), Fail> {
    let [length, other] = lengths;
    let text = spelled(rt, "x", length)?;
    let other = spelled(rt, "x", other)?;
    is_compared(rt, key, (text.as_str(), other.as_str()), after)
}

#[test]
fn each_text_is_compared(rt: HostRuntime) -> Result<(), Fail> {
    for (key, after, fit, _, _) in TEXTS.iter() {
        lengths_are_compared(&rt, key, *fit, after)?;
    }
    Ok(())
}

#[test]
fn numbers_are_no_texts(rt: HostRuntime) {
    for (key, after, _, _, bad) in TEXTS.iter() {
        reads_as_at(&rt, key, "5", after, bad);
    }
}

#[test]
fn octets_are_counted(rt: HostRuntime) {
    // How many letters of two octets a secret has, and the outcome.
    const ROWS: &[(usize, &str)] = &[
        (64, "read"),
        (65, "config fault 3 BadValue at client 1 secret"),
    ];
    for (count, want) in ROWS.iter() {
        let key = "[[client]]\naddress = \"1.2.3.4\"\nsecret";
        letters_read_as(&rt, key, ("ä", *count), "", want);
    }
}

#[test]
fn only_passwords_and_answers_have_no_zero(rt: HostRuntime) {
    // Texts with a zero, and the outcome of each.
    const ROWS: &[(&str, &str)] = &[
        (
            "[[client]]\naddress = \"1.2.3.4\"\nsecret = \"\\u0000\"",
            "read",
        ),
        (
            "[[pool]]\nfirst = \"1.2.3.4\"\nlast = \"1.2.3.4\"\nname = \"\\u0000\"",
            "read",
        ),
        ("[[user]]\nname = \"\\u0000\"\npassword = \"b\"", "read"),
        (
            "[[user]]\nname = \"a\"\npassword = \"b\\u0000\"",
            "config fault 3 BadValue at user 1 password",
        ),
        (
            "[[user]]\nname = \"a\"\npassword = \"b\"\nmessage = \"\\u0000\"",
            "read",
        ),
        (
            "[[user]]\nname = \"a\"\npassword = \"b\"\nchallenge = \"\\u0000\"\nanswer = \"c\"",
            "read",
        ),
        (
            "[[user]]\nname = \"a\"\npassword = \"b\"\nchallenge = \"c\"\nanswer = \"\\u0000c\"",
            "config fault 3 BadValue at user 1 answer",
        ),
        ("[[group]]\nname = \"\\u0000\"", "read"),
        (
            "[[group]]\nname = \"a\"\nanswer = \"c\\u0000\"",
            "config fault 3 BadValue at group 1 answer",
        ),
        (
            "[[user]]\nname = \"a\"\npassword = \"b\"\nreply = [{attribute = 11, value = \"\\u0000\"}]",
            "read",
        ),
    ];
    read_as(&rt, ROWS);
}

#[test]
fn a_flag_is_a_boolean(rt: HostRuntime) {
    // Texts with a flag, and the outcome of each.
    const ROWS: &[(&str, &str)] = &[
        (
            "[[client]]\naddress = \"1.2.3.4\"\nsecret = \"s\"\nrequire_message_authenticator = true",
            "read",
        ),
        (
            "[[client]]\naddress = \"1.2.3.4\"\nsecret = \"s\"\nrequire_message_authenticator = false",
            "read",
        ),
        (
            "[[client]]\naddress = \"1.2.3.4\"\nsecret = \"s\"\nrequire_message_authenticator = 1",
            "config fault 3 BadValue at client 1 require_message_authenticator",
        ),
        (
            "[[client]]\naddress = \"1.2.3.4\"\nsecret = \"s\"\nrequire_message_authenticator = \"true\"",
            "config fault 3 BadValue at client 1 require_message_authenticator",
        ),
    ];
    read_as(&rt, ROWS);
}
