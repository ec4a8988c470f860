//! Files of users: which lines may stand there, which file is named, and where a fault is told.
use crate::lines::warn_of_configuration;
use crate::named::users_named;
use crate::source::{Source, SourceFault, path_beside};
use crate::users_fault::misfit;
use crate::users_file::warn_of_entries;
use crate::users_lines::{entry_line, first_stray_line};
use rad_config::read_configuration;
use rad_config_fault::{ConfigFault, Key, Part, Spot};
use std::alloc::{AllocError, Global};

#[test]
fn only_entries_may_stand_there(rt: HostRuntime) {
    const ROWS: &[(&str, Option<usize>)] = &[
        ("", None),
        ("\n \t\r\n# a\n", None),
        ("[[user]]", None),
        (
            "\n# a\n \t[[ user\t]] # [x]\r\nname = \"a\"\n\n[[group]]\r\n",
            None,
        ),
        ("name = \"a\"\n[[user]]\n", Some(1)),
        ("\n# a\n\nwindow = 1\n", Some(4)),
        ("[[user]]\nname = \"a\"\n[[client]]\n", Some(3)),
        ("[[user]]\n\n \t[user]\n", Some(3)),
        ("[[user]]\n[ [user]]\n", Some(2)),
        ("[[user]]\n[[users]]\n", Some(2)),
        ("[[user]]\n[[use]]\n", Some(2)),
        ("[[user]]\n[[user.reply]]\n", Some(2)),
        ("[[user]]\n[[user]\n", Some(2)),
        ("[[user]]\n[[user]] a = 1\n", Some(2)),
        ("[[user]]\n[[\"user\"]]\n", Some(2)),
        ("[[user]]\nreply = [\n  [1],\n]\n", Some(3)),
        ("\u{feff}[[user]]\n", Some(1)),
    ];
    for (text, line) in ROWS.iter() {
        assert!(rt; first_stray_line(text.as_bytes()) == *line, "{text}");
    }
}

#[test]
fn entries_are_found_by_their_headers(rt: HostRuntime) {
    const TEXT: &[u8] = b"# a\n[[user]]\nname = \"a\"\n[[group]]\n[[ user ]] # b\n";
    const ROWS: &[(Part, usize, Option<usize>)] = &[
        (Part::User, 1, Some(2)),
        (Part::User, 2, Some(5)),
        (Part::User, 3, None),
        (Part::Group, 1, Some(4)),
        (Part::Group, 2, None),
        (Part::Client, 1, None),
    ];
    for (part, index, line) in ROWS.iter() {
        assert!(rt; entry_line(TEXT, *part, *index) == *line);
    }
}

/// What a configuration names: nothing, a file beside so many users and groups, or what can't be one.
#[derive(Clone, Copy, PartialEq)]
enum Says {
    Nothing,
    Names(&'static str, usize, usize),
    Bad,
}

fn is_said(alloc: Global, text: &str, expected: Says) -> bool {
    match users_named(alloc, text.as_bytes()) {
        Ok(None) => expected == Says::Nothing,
        Ok(Some(file)) => match expected {
            Says::Names(name, users, groups) => {
                file.name.as_str() == name
                    && file.before.users == users
                    && file.before.groups == groups
            }
            _ => false,
        },
        Err(fault) => {
            let spot = Spot {
                part: Part::Top,
                index: 0,
                key: Key::Users,
            };
            expected == Says::Bad && fault == ConfigFault::BadValue(spot)
        }
    }
}

#[test]
fn a_file_is_named_at_the_top(rt: HostRuntime) {
    const ROWS: &[(&str, Says)] = &[
        ("", Says::Nothing),
        ("window = 1\n", Says::Nothing),
        ("users = \"u\"", Says::Names("u", 0, 0)),
        (
            "'users' = \"\\u0075\" # a\n [[user]]\n[[client]]\n[[user]]\n[[group]]\n",
            Says::Names("u", 2, 1),
        ),
        ("x = [\n[1]]\nusers = \"u\"\n", Says::Names("u", 0, 0)),
        (
            "user = [{}, {}]\ngroup = 3\nusers = \"u\"\n",
            Says::Names("u", 2, 0),
        ),
        ("[[client]]\nusers = \"u\"\n", Says::Nothing),
        ("window = 1\n[users]\n", Says::Nothing),
        ("users = \"\"", Says::Bad),
        ("users = \"a\\u0000\"", Says::Bad),
        ("users = 3", Says::Bad),
        ("users = [\"u\"]\n[[user]]\n", Says::Bad),
        ("users.file = \"u\"", Says::Bad),
        ("users = \"u\"\n[[user]]\nname = \"", Says::Nothing),
        ("users = 3\n[[user]]\nname = \"", Says::Nothing),
        ("users = \"u", Says::Nothing),
    ];
    for (text, expected) in ROWS.iter() {
        assert!(rt; is_said(rt.alloc(), text, *expected), "{text}");
    }
}

fn is_named(alloc: Global, len: usize) -> Result<Option<bool>, AllocError> {
    let mut text = String::from_str(alloc, "users = \"")?;
    for _ in 0..len {
        text.push('u')?;
    }
    text.push('"')?;
    Ok(match users_named(alloc, text.as_bytes()) {
        Ok(file) => Some(file.is_some()),
        Err(_) => None,
    })
}

#[test]
fn a_name_has_4096_octets(rt: HostRuntime) {
    assert!(rt; is_named(rt.alloc(), 4_096) == Ok(Some(true)));
    assert!(rt; is_named(rt.alloc(), 4_097) == Ok(None));
}

fn is_beside(alloc: Global, row: (&str, &str, &str)) -> Result<bool, AllocError> {
    let (path, name, beside) = row;
    Ok(path_beside(alloc, path, name)?.as_str() == beside)
}

#[test]
fn a_file_is_looked_for_beside_the_configuration(rt: HostRuntime) {
    const ROWS: &[(&str, &str, &str)] = &[
        ("radpool.toml", "users.toml", "users.toml"),
        (
            "/etc/radpool/radpool.toml",
            "users.toml",
            "/etc/radpool/users.toml",
        ),
        ("/radpool.toml", "a/users.toml", "/a/users.toml"),
        ("a/radpool.toml", "../users.toml", "a/../users.toml"),
        ("a/radpool.toml", "/var/users.toml", "/var/users.toml"),
    ];
    for row in ROWS.iter() {
        assert!(rt; is_beside(rt.alloc(), *row) == Ok(true), "{}", row.2);
    }
}

// Both texts as one, if they may be.
fn joined(alloc: Global, own: &str, users: &str) -> Option<Source> {
    let file = users_named(alloc, own.as_bytes()).ok()??;
    if misfit(own.as_bytes(), users.as_bytes()).is_some() {
        return None;
    }
    let own = Vec::from_slice(alloc, own.as_bytes()).ok()?;
    Source::joined(own, file, users.as_bytes()).ok()
}

// What a source is told, without the name of the file of users.
fn told(alloc: Global, source: Source) -> Result<String, AllocError> {
    match read_configuration(alloc, &source.text) {
        Ok(config) => {
            let users = config.users().len();
            format!(in alloc; "{users} users")
        }
        Err(fault) => match source.into_fault(alloc, fault) {
            SourceFault::Own(fault, detail) => format!(in alloc; "{fault}{detail}"),
            SourceFault::Users { name, fault } => format!(in alloc; "{name}: {fault}"),
        },
    }
}

fn is_told(alloc: Global, row: (&str, &str, &str)) -> Result<bool, AllocError> {
    let (own, users, expected) = row;
    let Some(source) = joined(alloc, own, users) else {
        return Ok(false);
    };
    Ok(told(alloc, source)?.as_str() == expected)
}

#[test]
fn faults_name_the_file(rt: HostRuntime) {
    const OWN: &str =
        "users = \"u\"\n[[user]]\nname = \"a\"\npassword = \"p\"\n[[group]]\nname = \"g\"\n#";
    const ROWS: &[(&str, &str, &str)] = &[
        (OWN, "", "1 users"),
        (
            OWN,
            "\n[[user]]\nname = \"b\"\npassword = \"p\"\ngroup = \"h\"\n[[group]]\nname = \"h\"",
            "2 users",
        ),
        (
            OWN,
            "[[user]]\nname = \"b\"\npassword = \"p\"\n\n[[user]]\nname = \"c\"\n",
            "u: config fault 2 Missing at user 2 password (entry at line 5)",
        ),
        (
            OWN,
            "[[user]]\nname = \"a\"\n",
            "u: config fault 3 BadValue at user 1 name (entry at line 1): the same as user 1 of the configuration",
        ),
        (
            OWN,
            "[[user]]\nname = \"b\"\npassword = \"p\"\n[[user]]\nname = \"b\"\n",
            "u: config fault 3 BadValue at user 2 name (entry at line 4): the same as user 1",
        ),
        (
            "users = \"u\"\n[[pool]]\nname = \"p\"\nfirst = \"10.0.0.1\"\nlast = \"10.0.0.9\"\n",
            "[[user]]\nname = \"b\"\npassword = \"p\"\naddress = \"10.0.0.1\"\n",
            "u: config fault 3 BadValue at user 1 address (entry at line 1): in pool 1",
        ),
        (
            OWN,
            "# a\n[[group]]\nname = \"h\"\nsessions = 0\n",
            "u: config fault 3 BadValue at group 1 sessions (entry at line 2)",
        ),
        (
            OWN,
            "[[user]]\nname = \"b\"\npassword = \"p\"\nreply = [{attribute = 0}]\n",
            "u: config fault 9 BadReply at user 1 reply 1 attribute (entry at line 1)",
        ),
        (
            OWN,
            "[[user]]\nname = \"b\npassword = \"p\"\n",
            "u: config fault 1 Syntax at line 2, column 10: invalid string",
        ),
        (
            "users = \"u\"\nwindow = 0\n",
            "[[user]]\nname = \"b\"\n",
            "config fault 3 BadValue at top 0 window",
        ),
        (
            "users = \"u\"\n[[client]]\naddress = \"1.2.3.4\"\nsecret = \"s\"\n[[client]]\naddress = \"1.2.3.4\"\n",
            "[[user]]\nname = \"b\"\n",
            "config fault 3 BadValue at client 2 address: the same as client 1",
        ),
        (
            "users = \"u\"\n[[user]]\nname = \"a\"\n",
            "[[user]]\nname = \"b\"\n",
            "config fault 2 Missing at user 1 password",
        ),
        (
            "users = \"u\"\nuser = []\n",
            "[[user]]\nname = \"b\"\npassword = \"p\"\n",
            "u: nothing can be added to 'user = ..' or 'group = ..' of the configuration: write [[user]] and [[group]] there",
        ),
    ];
    for row in ROWS.iter() {
        assert!(rt; is_told(rt.alloc(), *row) == Ok(true), "{}", row.2);
    }
}

fn warns(alloc: Global, own: &str, users: &str, expected: &str) -> bool {
    let Some(source) = joined(alloc, own, users) else {
        return false;
    };
    let mut lines = String::new(alloc);
    warn_of_entries(&mut lines, alloc, &source);
    lines.as_str() == expected
}

fn warns_of_users(alloc: Global, own: &str, users: &str, expected: &str) -> bool {
    let Some(source) = joined(alloc, own, users) else {
        return false;
    };
    let Ok(config) = read_configuration(alloc, &source.text) else {
        return false;
    };
    let mut lines = String::new(alloc);
    warn_of_configuration(&mut lines, &config, source.users.as_ref());
    lines.as_str() == expected
}

#[test]
fn warnings_of_users_name_the_file(rt: HostRuntime) {
    const OWN: &str =
        "users = \"u\"\nstale = 60\n[[client]]\naddress = \"1.2.3.4\"\nsecret = \"s\"\n\
        [[user]]\nname = \"a\"\npassword = \"p\"\nreply = [{attribute = 85, value = 60}]\n";
    const USERS: &str =
        "[[user]]\nname = \"b\"\npassword = \"p\"\n[[user]]\nname = \"c\"\npassword = \"p\"\n";
    const TOLD: &str =
        "radpool: warning: stale is below three Acct-Interim-Intervals of user 1: a session ends if two Interim-Updates in a row are lost\n\
        radpool: warning: stale is set, but no Acct-Interim-Interval for user 1 of u and another: a session ends early unless the client sends Interim-Updates unasked\n";
    assert!(rt; warns_of_users(rt.alloc(), OWN, USERS, TOLD));
}

#[test]
fn warnings_name_the_file(rt: HostRuntime) {
    const OWN: &str = "users = \"a b\"\n[[user]]\nnam = 1\n";
    const USERS: &str = "[[user]]\npasword = 1\n[[group]]\n\"\\n\" = 1\n";
    const TOLD: &str =
        "radpool: warning: a b: unknown key 'pasword' in user 1: did you mean 'password'?\n\
        radpool: warning: a b: unknown key '\\n' in group 1\n";
    assert!(rt; warns(rt.alloc(), OWN, USERS, TOLD));
}
