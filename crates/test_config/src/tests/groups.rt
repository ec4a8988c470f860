//! Groups, and what their users have of them.
use super::{are_octets, read_as, reply_octets};
use crate::tests::holds;
use rad_config::Config;
use std::alloc::AllocError;
use std::process::Abort;
use std::test::Fail;

#[test]
fn a_group_is_one_before(rt: HostRuntime) {
    // Texts with groups, and the outcome of each.
    const ROWS: &[(&str, &str)] = &[
        ("group = 3", "config fault 3 BadValue at group 0 list"),
        ("[group]", "config fault 3 BadValue at group 0 list"),
        ("group = [1]", "config fault 3 BadValue at group 1 entry"),
        ("group = [{}]", "config fault 2 Missing at group 1 name"),
        (r#"group = [{name = "g"}]"#, "read"),
        (
            r#"group = [{name = "g"}, {name = "h"}, {name = "g"}]"#,
            "config fault 3 BadValue at group 3 name",
        ),
        (r#"group = [{name = "g"}, {name = "G"}]"#, "read"),
        (
            r#"group = [{name = "g", group = "g"}]"#,
            "config fault 3 BadValue at group 1 group",
        ),
        (
            r#"group = [{name = "g", group = "h"}, {name = "h"}]"#,
            "config fault 3 BadValue at group 1 group",
        ),
        (
            r#"group = [{name = "g"}, {name = "h", group = "g"}]"#,
            "read",
        ),
        (
            r#"group = [{name = "g"}, {name = "h", group = "G"}]"#,
            "config fault 3 BadValue at group 2 group",
        ),
        (
            r#"group = [{name = "g", pool = "p"}]"#,
            "config fault 3 BadValue at group 1 pool",
        ),
        (
            r#"pool = [{name = "p", first = "1.0.0.1", last = "1.0.0.1"}]
            group = [{name = "p", pool = "p"}]
            user = [{name = "p", password = "p", group = "p"}]"#,
            "read",
        ),
        (
            r#"user = [{name = "u", password = "p", group = "g"}]"#,
            "config fault 3 BadValue at user 1 group",
        ),
        (
            r#"group = [{name = "g"}]
            user = [{name = "u", password = "p", group = "g"}, {name = "v", password = "p", group = "gg"}]"#,
            "config fault 3 BadValue at user 2 group",
        ),
        (
            r#"group = [{name = "g"}]
            user = [{name = "u", password = "p", group = ""}]"#,
            "config fault 3 BadValue at user 1 group",
        ),
        (
            r#"group = [{name = "g"}]
            user = [{name = "u", password = "p", group = 1}]"#,
            "config fault 3 BadValue at user 1 group",
        ),
        (
            r#"group = [{name = "g"}]
            user = [{name = "u", password = "p", group = ["g"]}]"#,
            "config fault 3 BadValue at user 1 group",
        ),
    ];
    read_as(&rt, ROWS);
}

#[test]
fn a_group_may_say_half_of_a_challenge(rt: HostRuntime) {
    // Texts with challenges and answers, and the outcome of each.
    const ROWS: &[(&str, &str)] = &[
        (r#"group = [{name = "g", challenge = "c"}]"#, "read"),
        (r#"group = [{name = "g", answer = "a"}]"#, "read"),
        (
            r#"group = [{name = "g", challenge = "c", answer = "a"}]
            user = [{name = "u", password = "p", group = "g"}]"#,
            "read",
        ),
        (
            r#"group = [{name = "g", challenge = "c"}]
            user = [{name = "u", password = "p", group = "g", answer = "a"}]"#,
            "read",
        ),
        (
            r#"group = [{name = "g", answer = "a"}]
            user = [{name = "u", password = "p", group = "g", challenge = "c"}]"#,
            "read",
        ),
        (
            r#"group = [{name = "g", answer = "a"}, {name = "h", group = "g", challenge = "c"}]
            user = [{name = "u", password = "p", group = "h"}]"#,
            "read",
        ),
        (
            r#"group = [{name = "g", challenge = "c", answer = "a"}]
            user = [{name = "u", password = "p", group = "g", challenge = "d"}]"#,
            "read",
        ),
        (
            r#"group = [{name = "g", challenge = "c"}]
            user = [{name = "u", password = "p", group = "g"}]"#,
            "config fault 2 Missing at user 1 answer",
        ),
        (
            r#"group = [{name = "g", challenge = "c"}]
            user = [{name = "u", password = "p", group = "g", challenge = "d"}]"#,
            "config fault 2 Missing at user 1 answer",
        ),
        (
            r#"group = [{name = "g", answer = "a"}]
            user = [{name = "u", password = "p", group = "g"}]"#,
            "config fault 2 Missing at user 1 challenge",
        ),
        (
            r#"group = [{name = "g", answer = "a"}, {name = "h", group = "g"}]
            user = [{name = "u", password = "p", group = "h", answer = "b"}]"#,
            "config fault 2 Missing at user 1 challenge",
        ),
        (
            r#"group = [{name = "g", challenge = "c", answer = "a"}]
            user = [{name = "u", password = "p", group = "g", answer = ""}]"#,
            "config fault 3 BadValue at user 1 answer",
        ),
        (
            r#"group = [{name = "g", challenge = "c", answer = "a"}]
            user = [{name = "u", password = "p", group = "g"}, {name = "v", password = "p", answer = "a"}]"#,
            "config fault 2 Missing at user 2 challenge",
        ),
    ];
    read_as(&rt, ROWS);
}

// A text with two pools, these groups and a user of whom this is said.
fn with_user(rt: &impl AllocGlobal, groups: &str, own: &str) -> Result<String, AllocError> {
    format!(in rt.alloc();
        "{groups}\n\
        [[pool]]\nname = \"p\"\nfirst = \"1.0.0.1\"\nlast = \"1.0.0.9\"\n\
        [[pool]]\nname = \"q\"\nfirst = \"2.0.0.1\"\nlast = \"2.0.0.9\"\n\
        [[user]]\nname = \"u\"\npassword = \"w\"\n{own}\n"
    )
}

// The configuration that it is.
fn config_with<R: AllocGlobal>(rt: &R, groups: &str, own: &str) -> Result<Config, Fail> {
    let text = with_user(rt, groups, own)?;
    Ok(Config::read(rt.alloc(), text.as_str())?)
}

// Asserts that groups and their user say the same as a configuration without groups.
fn say<R: Abort + AllocGlobal>(
    rt: &R,
    groups: &str,
    own: &str,
    plain: &Config,
) -> Result<(), Fail> {
    let config = config_with(rt, groups, own)?;
    holds(rt, config.same(plain), groups);
    Ok(())
}

// Asserts that groups and their user say this of the user.
fn say_of_the_user<R: Abort + AllocGlobal>(
    rt: &R,
    groups: &str,
    own: &str,
    said: &str,
) -> Result<(), Fail> {
    let plain = config_with(rt, "", said)?;
    say(rt, groups, own, &plain)
}

// Asserts the same of each row.
fn say_of_users<R: Abort + AllocGlobal>(rt: &R, rows: &[(&str, &str, &str)]) -> Result<(), Fail> {
    for (groups, own, said) in rows {
        say_of_the_user(rt, groups, own, said)?;
    }
    Ok(())
}

#[test]
fn a_user_has_what_the_group_says(rt: HostRuntime) -> Result<(), Fail> {
    // Groups, what their user's entry says, and what is said of the user.
    const ROWS: &[(&str, &str, &str)] = &[
        (r#"group = [{name = "g"}]"#, r#"group = "g""#, ""),
        (r#"group = [{name = "g", timeout = 5}]"#, "", ""),
        (
            r#"group = [{name = "g", password = "x"}]"#,
            r#"group = "g""#,
            "",
        ),
        (
            r#"group = [{name = "g", pool = "q"}]"#,
            r#"group = "g""#,
            r#"pool = "q""#,
        ),
        (
            r#"group = [{name = "g", sessions = 3}]"#,
            r#"group = "g""#,
            "sessions = 3",
        ),
        (
            r#"group = [{name = "g", service = 2}]"#,
            r#"group = "g""#,
            "service = 2",
        ),
        (
            r#"group = [{name = "g", protocol = 1}]"#,
            r#"group = "g""#,
            "protocol = 1",
        ),
        (
            r#"group = [{name = "g", timeout = 5}]"#,
            r#"group = "g""#,
            "timeout = 5",
        ),
        (
            r#"group = [{name = "g", message = "m"}]"#,
            r#"group = "g""#,
            r#"message = "m""#,
        ),
        (
            r#"group = [{name = "g", challenge = "c", answer = "a"}]"#,
            r#"group = "g""#,
            "challenge = \"c\"\nanswer = \"a\"",
        ),
        (
            r#"group = [{name = "g", challenge = "c"}]"#,
            "group = \"g\"\nanswer = \"a\"",
            "challenge = \"c\"\nanswer = \"a\"",
        ),
        (
            r#"group = [{name = "g", challenges = 7}]"#,
            r#"group = "g""#,
            "challenges = 7",
        ),
        (
            r#"group = [{name = "g", grants = 9}]"#,
            r#"group = "g""#,
            "grants = 9",
        ),
        (
            r#"group = [{name = "g", reply = [{attribute = "Filter-Id", value = "f"}]}]"#,
            r#"group = "g""#,
            r#"reply = [{attribute = "Filter-Id", value = "f"}]"#,
        ),
        (
            r#"group = [{name = "g", timeout = 5}, {name = "h", group = "g", grants = 9}, {name = "i", grants = 8}]"#,
            r#"group = "h""#,
            "timeout = 5\ngrants = 9",
        ),
    ];
    say_of_users(&rt, ROWS)
}

#[test]
fn a_users_own_key_wins(rt: HostRuntime) -> Result<(), Fail> {
    // Groups, what their user's entry says, and what is said of the user.
    const ROWS: &[(&str, &str, &str)] = &[
        (
            r#"group = [{name = "g", pool = "p", timeout = 5}]"#,
            "group = \"g\"\npool = \"q\"",
            "pool = \"q\"\ntimeout = 5",
        ),
        (
            r#"group = [{name = "g", sessions = 3, timeout = 5}]"#,
            "group = \"g\"\nsessions = 1",
            "sessions = 1\ntimeout = 5",
        ),
        (
            r#"group = [{name = "g", service = 2, timeout = 5}]"#,
            "group = \"g\"\nservice = 0",
            "service = 0\ntimeout = 5",
        ),
        (
            r#"group = [{name = "g", protocol = 1, timeout = 5}]"#,
            "group = \"g\"\nprotocol = 0",
            "protocol = 0\ntimeout = 5",
        ),
        (
            r#"group = [{name = "g", timeout = 5, grants = 9}]"#,
            "group = \"g\"\ntimeout = 6",
            "timeout = 6\ngrants = 9",
        ),
        (
            r#"group = [{name = "g", message = "m", timeout = 5}]"#,
            "group = \"g\"\nmessage = \"n\"",
            "message = \"n\"\ntimeout = 5",
        ),
        (
            r#"group = [{name = "g", challenge = "c", answer = "a"}]"#,
            "group = \"g\"\nchallenge = \"d\"",
            "challenge = \"d\"\nanswer = \"a\"",
        ),
        (
            r#"group = [{name = "g", challenge = "c", answer = "a"}]"#,
            "group = \"g\"\nanswer = \"b\"",
            "challenge = \"c\"\nanswer = \"b\"",
        ),
        (
            r#"group = [{name = "g", challenges = 7, grants = 9}]"#,
            "group = \"g\"\nchallenges = 8",
            "challenges = 8\ngrants = 9",
        ),
        (
            r#"group = [{name = "g", challenges = 7, grants = 9}]"#,
            "group = \"g\"\ngrants = 10",
            "challenges = 7\ngrants = 10",
        ),
        (
            r#"group = [{name = "g", timeout = 5, grants = 9}, {name = "h", group = "g", timeout = 6}]"#,
            r#"group = "h""#,
            "timeout = 6\ngrants = 9",
        ),
        (
            r#"group = [{name = "g", timeout = 5}, {name = "h", group = "g", timeout = 6}]"#,
            "group = \"h\"\ntimeout = 7",
            "timeout = 7",
        ),
    ];
    say_of_users(&rt, ROWS)
}

// Asserts the attributes that a user's Access-Accepts are given.
fn gives<R: Abort + AllocGlobal>(rt: &R, groups: &str, own: &str, want: &[u8]) -> Result<(), Fail> {
    let config = config_with(rt, groups, own)?;
    are_octets(rt, reply_octets(&config), want, groups);
    Ok(())
}

#[test]
fn the_groups_reply_comes_first(rt: HostRuntime) -> Result<(), Fail> {
    // Groups, what their user's entry says, and the attributes.
    const ROWS: &[(&str, &str, &[u8])] = &[
        (r#"group = [{name = "g"}]"#, r#"group = "g""#, b""),
        (
            r#"group = [{name = "g", reply = [{attribute = "Filter-Id", value = "f"}]}]"#,
            "group = \"g\"\nreply = []",
            b"\x0b\x03f",
        ),
        (
            r#"group = [{name = "g", reply = [{attribute = "Filter-Id", value = "f"}]}]"#,
            "group = \"g\"\nreply = [{attribute = \"Filter-Id\", value = \"u\"}]",
            b"\x0b\x03f\x0b\x03u",
        ),
        (
            r#"group = [{name = "g", reply = [{attribute = "Filter-Id", value = "f"}]}]"#,
            "group = \"g\"\nreply = [{attribute = \"Filter-Id\", value = \"f\"}]",
            b"\x0b\x03f\x0b\x03f",
        ),
        (
            r#"group = [{name = "g", reply = [{attribute = 62, value = 2}, {attribute = 11, value = "g"}]},
                {name = "h", group = "g", reply = [{attribute = 11, value = "h"}]},
                {name = "i", group = "g", reply = [{attribute = 11, value = "i"}]}]"#,
            "group = \"h\"\nreply = [{attribute = 11, value = \"u\"}]",
            b"\x3e\x06\0\0\0\x02\x0b\x03g\x0b\x03h\x0b\x03u",
        ),
    ];
    for (groups, own, want) in ROWS.iter() {
        gives(&rt, groups, own, want)?;
    }
    Ok(())
}
