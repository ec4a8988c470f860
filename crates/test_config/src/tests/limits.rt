//! Lists that are as long as they may be, and longer ones.
use super::{is_number, is_printed, outcome};
use crate::tests::holds;
use rad_config::Config;
use std::alloc::AllocError;
use std::process::Abort;
use std::test::Fail;

// Adds so many clients to a text.
fn add_clients(rt: &impl AllocGlobal, text: &mut String, count: u32) -> Result<(), AllocError> {
    for n in 0..count {
        let (high, low) = (n / 256, n % 256);
        let entry = format!(in rt.alloc();
            "[[client]]\naddress = \"10.9.{high}.{low}\"\nsecret = \"a\"\n"
        )?;
        text.push_str(entry.as_str())?;
    }
    Ok(())
}

// Adds so many pools to a text.
fn add_pools(rt: &impl AllocGlobal, text: &mut String, count: u32) -> Result<(), AllocError> {
    for n in 0..count {
        let entry = format!(in rt.alloc();
            "[[pool]]\nname = \"p{n}\"\nfirst = \"10.0.{n}.1\"\nlast = \"10.0.{n}.254\"\n"
        )?;
        text.push_str(entry.as_str())?;
    }
    Ok(())
}

// Adds so many groups to a text.
fn add_groups(rt: &impl AllocGlobal, text: &mut String, count: u32) -> Result<(), AllocError> {
    for n in 0..count {
        let entry = format!(in rt.alloc(); "[[group]]\nname = \"g{n}\"\n")?;
        text.push_str(entry.as_str())?;
    }
    Ok(())
}

// Adds so many users to a text.
fn add_users(rt: &impl AllocGlobal, text: &mut String, count: u32) -> Result<(), AllocError> {
    for n in 0..count {
        let entry = format!(in rt.alloc(); "[[user]]\nname = \"u{n}\"\npassword = \"p\"\n")?;
        text.push_str(entry.as_str())?;
    }
    Ok(())
}

// A text with the most clients, pools and groups, and with ten thousand users, the last of whom is in the last group.
fn long_text(rt: &impl AllocGlobal) -> Result<String, AllocError> {
    let mut text = String::new(rt.alloc());
    add_clients(rt, &mut text, 256)?;
    add_pools(rt, &mut text, 16)?;
    add_groups(rt, &mut text, 255)?;
    add_users(rt, &mut text, 9_999)?;
    text.push_str("[[group]]\nname = \"last\"\ntimeout = 5\n")?;
    text.push_str("[[user]]\nname = \"last\"\npassword = \"p\"\ngroup = \"last\"\n")?;
    Ok(text)
}

// The configuration that it is.
fn long_config(rt: &impl AllocGlobal) -> Result<Config, Fail> {
    let text = long_text(rt)?;
    Ok(Config::read(rt.alloc(), text.as_str())?)
}

// Asserts what is found in its lists.
fn are_long(rt: &impl Abort, config: &Config) {
    is_number(rt, config.clients().len(), 256, "clients");
    holds(
        rt,
        config.clients().find(0x0A09_00FF) == Some(255),
        "the last client",
    );
    is_number(rt, config.pools().len(), 16, "pools");
    is_number(rt, config.users().len(), 10_000, "users");
    holds(rt, config.user(b"u0") == Some(0), "the first user");
    holds(rt, config.user(b"last") == Some(9_999), "the last user");
    holds(rt, config.user(b"u9999").is_none(), "no user");
    are_timed(rt, config);
}

// Asserts that the last group is that of the last user alone.
fn are_timed(rt: &impl Abort, config: &Config) {
    for (place, user) in config.users().iter().enumerate() {
        let timeout = if place == 9_999 { Some(5) } else { None };
        holds(rt, user.timeout == timeout, "the user's timeout");
    }
}

#[test]
fn long_lists_are_read(rt: HostRuntime) -> Result<(), Fail> {
    let config = long_config(&rt)?;
    are_long(&rt, &config);
    Ok(())
}

// A text with a list of so many zeros.
fn zeros(rt: &impl AllocGlobal, list: &str, count: usize) -> Result<String, AllocError> {
    let items = "0,".repeat(rt.alloc(), count)?;
    format!(in rt.alloc(); "{list} = [{items}]")
}

// Asserts the outcome of such a text.
fn zeros_read_as<R: Abort + AllocGlobal>(rt: &R, list: &str, count: usize, want: &str) {
    let text = zeros(rt, list, count).expect(rt, want);
    let printed = outcome(rt, text.as_str()).expect(rt, want);
    is_printed(rt, printed.as_str(), want, list);
}

#[test]
fn longer_lists_are_too_many(rt: HostRuntime) {
    // Lists, how many items each has, none of which is an entry, and its fault. Items of a longer list aren't looked at.
    const ROWS: &[(&str, usize, &str)] = &[
        ("client", 256, "config fault 3 BadValue at client 1 entry"),
        ("client", 257, "config fault 6 TooMany at client"),
        ("pool", 16, "config fault 3 BadValue at pool 1 entry"),
        ("pool", 17, "config fault 6 TooMany at pool"),
        ("group", 256, "config fault 3 BadValue at group 1 entry"),
        ("group", 257, "config fault 6 TooMany at group"),
        ("user", 65_536, "config fault 3 BadValue at user 1 entry"),
        ("user", 65_537, "config fault 6 TooMany at user"),
    ];
    for (list, count, want) in ROWS.iter() {
        zeros_read_as(&rt, list, *count, want);
    }
}
