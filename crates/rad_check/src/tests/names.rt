//! Names that their table doesn't have, as they are printed.
use crate::known::Scope;
use crate::unknown::{Site, Unknown, warn_of_names};
use rad_config_fault::Part;
use std::alloc::{AllocError, Global};

/// The table, the name, whether it is a table, and the text of the warning.
type Row = (Scope, &'static str, bool, &'static str);

fn is_text(alloc: Global, row: Row) -> Result<bool, AllocError> {
    let (scope, name, is_table, text) = row;
    let site = Site {
        scope,
        index: 3,
        place: 12,
    };
    let unknown = Unknown {
        site,
        name,
        is_table,
    };
    Ok(unknown.to_string(alloc)?.as_str() == text)
}

#[test]
fn unknown_names_are_told_with_what_may_be_meant(rt: HostRuntime) {
    const ROWS: &[Row] = &[
        (
            Scope::Part(Part::Top),
            "windoow",
            false,
            "unknown key 'windoow' at the top: did you mean 'window'?",
        ),
        (
            Scope::Part(Part::Top),
            "clients",
            true,
            "unknown table 'clients': did you mean 'client'?",
        ),
        (
            Scope::Part(Part::Top),
            "users",
            true,
            "unknown table 'users': did you mean 'user'?",
        ),
        (
            Scope::Part(Part::Top),
            "secret",
            false,
            "unknown key 'secret' at the top",
        ),
        (
            Scope::Part(Part::Top),
            "",
            false,
            "unknown key '' at the top",
        ),
        (
            Scope::Part(Part::User),
            "window",
            false,
            "unknown key 'window' in user 3: it belongs at the top, before the first [[..]]",
        ),
        (
            Scope::Part(Part::Client),
            "stale",
            true,
            "unknown key 'stale' in client 3: it belongs at the top, before the first [[..]]",
        ),
        (
            Scope::Part(Part::User),
            "client",
            true,
            "unknown key 'client' in user 3",
        ),
        (
            Scope::Part(Part::Pool),
            "secret",
            false,
            "unknown key 'secret' in pool 3",
        ),
        (
            Scope::Part(Part::Client),
            "Require-Message-Authenticator",
            false,
            "unknown key 'Require-Message-Authenticator' in client 3: did you mean 'require_message_authenticator'?",
        ),
        (
            Scope::Part(Part::User),
            "pasword",
            false,
            "unknown key 'pasword' in user 3: did you mean 'password'?",
        ),
        (
            Scope::Part(Part::User),
            "passwordxx",
            false,
            "unknown key 'passwordxx' in user 3: did you mean 'password'?",
        ),
        (
            Scope::Part(Part::User),
            "paswodd",
            false,
            "unknown key 'paswodd' in user 3: did you mean 'password'?",
        ),
        (
            Scope::Part(Part::User),
            "secret",
            false,
            "unknown key 'secret' in user 3",
        ),
        (
            Scope::Part(Part::User),
            "passwordxxx",
            false,
            "unknown key 'passwordxxx' in user 3",
        ),
        (
            Scope::Part(Part::Pool),
            "frist",
            false,
            "unknown key 'frist' in pool 3: did you mean 'first'?",
        ),
        (
            Scope::Part(Part::Pool),
            "fast",
            false,
            "unknown key 'fast' in pool 3: did you mean 'last'?",
        ),
        (
            Scope::Part(Part::Pool),
            "NAME",
            false,
            "unknown key 'NAME' in pool 3: did you mean 'name'?",
        ),
        (
            Scope::Part(Part::Pool),
            "lst",
            false,
            "unknown key 'lst' in pool 3: did you mean 'last'?",
        ),
        (
            Scope::Part(Part::Pool),
            "lats",
            false,
            "unknown key 'lats' in pool 3",
        ),
        (
            Scope::Part(Part::Pool),
            "a'\n\u{1b}[1m\u{202e}",
            false,
            "unknown key 'a\\'\\n\\u{1b}[1m\\u{202e}' in pool 3",
        ),
        (
            Scope::Part(Part::Top),
            "groups",
            true,
            "unknown table 'groups': did you mean 'group'?",
        ),
        (
            Scope::Part(Part::Group),
            "hold",
            false,
            "unknown key 'hold' in group 3: it belongs at the top, before the first [[..]]",
        ),
        (
            Scope::Part(Part::Group),
            "password",
            false,
            "unknown key 'password' in group 3",
        ),
        (
            Scope::Part(Part::Group),
            "address",
            false,
            "unknown key 'address' in group 3",
        ),
        (
            Scope::Part(Part::User),
            "adress",
            false,
            "unknown key 'adress' in user 3: did you mean 'address'?",
        ),
        (
            Scope::Part(Part::Group),
            "session",
            false,
            "unknown key 'session' in group 3: did you mean 'sessions'?",
        ),
        (
            Scope::Part(Part::User),
            "repply",
            true,
            "unknown key 'repply' in user 3: did you mean 'reply'?",
        ),
        (
            Scope::Part(Part::User),
            "vendor",
            false,
            "unknown key 'vendor' in user 3: it belongs in a table of reply",
        ),
        (
            Scope::Part(Part::Group),
            "value",
            false,
            "unknown key 'value' in group 3: it belongs in a table of reply",
        ),
        (
            Scope::Part(Part::Client),
            "value",
            false,
            "unknown key 'value' in client 3",
        ),
        (
            Scope::Reply(Part::User),
            "vlue",
            false,
            "unknown key 'vlue' in user 3 reply 12: did you mean 'value'?",
        ),
        (
            Scope::Reply(Part::Group),
            "Vendor",
            false,
            "unknown key 'Vendor' in group 3 reply 12: did you mean 'vendor'?",
        ),
        (
            Scope::Reply(Part::User),
            "tags",
            false,
            "unknown key 'tags' in user 3 reply 12: did you mean 'tag'?",
        ),
        (
            Scope::Reply(Part::User),
            "bytes",
            false,
            "unknown key 'bytes' in user 3 reply 12",
        ),
        (
            Scope::Reply(Part::User),
            "stale",
            false,
            "unknown key 'stale' in user 3 reply 12: it belongs at the top, before the first [[..]]",
        ),
        (
            Scope::Reply(Part::User),
            "password",
            false,
            "unknown key 'password' in user 3 reply 12: it belongs in the user, outside its reply",
        ),
        (
            Scope::Reply(Part::User),
            "address",
            false,
            "unknown key 'address' in user 3 reply 12: it belongs in the user, outside its reply",
        ),
        (
            Scope::Reply(Part::Group),
            "timeout",
            false,
            "unknown key 'timeout' in group 3 reply 12: it belongs in the group, outside its reply",
        ),
        (
            Scope::Reply(Part::Group),
            "password",
            false,
            "unknown key 'password' in group 3 reply 12",
        ),
    ];
    for row in ROWS.iter() {
        assert!(rt; is_text(rt.alloc(), *row) == Ok(true), "{}", row.3);
    }
}

fn is_told(alloc: Global, row: (&str, &str)) -> bool {
    let (text, lines) = row;
    let Ok(document) = toml::table_from_str(alloc, text) else {
        return false;
    };
    let mut told = String::new(alloc);
    warn_of_names(&mut told, &document);
    told.as_str() == lines
}

#[test]
fn names_are_looked_for_in_replies_too(rt: HostRuntime) {
    const ROWS: &[(&str, &str)] = &[
        (
            "[[group]]\nname = \"a\"\nreply = [{attribute = 11, value = \"v\"}]\n",
            "",
        ),
        (
            "[[user]]\nname = \"a\"\n[[user]]\nname = \"b\"\ngroup = \"g\"\nreply = [{vendor = 9, attribute = 1, hex = \"00\"}, {attribute = 64, tag = 1, value = 13, op = 0}]\n",
            "radpool: warning: unknown key 'op' in user 2 reply 2\n",
        ),
        (
            "[[group]]\nname = \"a\"\n[[group.reply]]\nattribute = 11\nvalue = \"v\"\nsessions = 2\n",
            "radpool: warning: unknown key 'sessions' in group 1 reply 1: it belongs in the group, outside its reply\n",
        ),
        (
            "[[client]]\nreply = [{attribute = 11, valu = \"v\"}]\n",
            "radpool: warning: unknown key 'reply' in client 1\n",
        ),
    ];
    for row in ROWS.iter() {
        assert!(rt; is_told(rt.alloc(), *row), "{}", row.1);
    }
}
