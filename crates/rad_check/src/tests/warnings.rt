//! Which warnings apply to which configurations.
use crate::lines::warn_of_configuration;
use crate::{UserWarning, Warning};
use rad_config::Config;
use std::alloc::{AllocGlobal, Global};

/// A client, two pools, and a user who has the second one.
const WHOLE: &str = "hold = 120\n\
    [[client]]\naddress = \"192.168.1.16\"\nsecret = \"s\"\n\
    [[pool]]\nname = \"a\"\nfirst = \"10.0.0.1\"\nlast = \"10.0.0.9\"\n\
    [[pool]]\nname = \"b\"\nfirst = \"10.0.1.1\"\nlast = \"10.0.1.9\"\n\
    [[user]]\nname = \"u\"\npassword = \"p\"\npool = \"b\"\n";

/// Two clients, and two of which one has a share.
const TWO: &str = "[[client]]\naddress = \"192.168.1.16\"\nsecret = \"s\"\n\
    [[client]]\naddress = \"192.168.1.17\"\nsecret = \"t\"\n";

const SHARED: &str = "[[client]]\naddress = \"192.168.1.16\"\nsecret = \"s\"\n\
    [[client]]\naddress = \"192.168.1.17\"\nsecret = \"t\"\nshare = 9\n";

/// A pool, and addresses that are held for less than two minutes.
const BRIEF: &str =
    "hold = 119\n[[pool]]\nname = \"a\"\nfirst = \"10.0.0.1\"\nlast = \"10.0.0.9\"\n";

/// A user with an address of their own, which is held for less than two minutes.
const OWN: &str = "hold = 119\n[[user]]\nname = \"u\"\npassword = \"p\"\naddress = \"10.0.0.10\"\n";

fn applies(rt: &HostRuntime, text: &str, warning: Warning) -> Option<bool> {
    match Config::read(rt.alloc(), text) {
        Ok(config) => Some(warning.applies(&config)),
        Err(_) => None,
    }
}

#[test]
fn warnings_apply_where_something_is_missing(rt: HostRuntime) {
    const ROWS: &[(&str, Warning, bool)] = &[
        ("", Warning::NoClient, true),
        ("", Warning::NoUser, true),
        ("", Warning::ShortHold, false),
        ("hold = 119", Warning::ShortHold, false),
        (BRIEF, Warning::ShortHold, true),
        (BRIEF, Warning::NoClient, true),
        (BRIEF, Warning::NoUser, true),
        (BRIEF, Warning::IdlePool(0), true),
        (OWN, Warning::ShortHold, true),
        (WHOLE, Warning::NoClient, false),
        (WHOLE, Warning::NoUser, false),
        (WHOLE, Warning::ShortHold, false),
        (WHOLE, Warning::NoShare, false),
        (TWO, Warning::NoShare, true),
        (SHARED, Warning::NoShare, false),
        (WHOLE, Warning::IdlePool(0), true),
        (WHOLE, Warning::IdlePool(1), false),
    ];
    for (text, warning, expected) in ROWS.iter() {
        assert!(rt; applies(&rt, text, *warning) == Some(*expected));
    }
}

/// Five users: one has no Acct-Interim-Interval, and two have that of their group, one of them another one after it.
const INTERVALS: &str = "stale = 1799\n\
    [[client]]\naddress = \"192.168.1.16\"\nsecret = \"s\"\n\
    [[group]]\nname = \"g\"\nreply = [{attribute = 11, value = \"f\"}, {attribute = \"Acct-Interim-Interval\", value = 600}]\n\
    [[user]]\nname = \"a\"\npassword = \"p\"\n\
    [[user]]\nname = \"b\"\npassword = \"p\"\nreply = [{attribute = 85, value = 599}, {attribute = 85, value = 600}]\n\
    [[user]]\nname = \"c\"\npassword = \"p\"\ngroup = \"g\"\n\
    [[user]]\nname = \"d\"\npassword = \"p\"\ngroup = \"g\"\nreply = [{attribute = 85, value = 60}]\n\
    [[user]]\nname = \"e\"\npassword = \"p\"\nreply = [{attribute = 85, value = 4294967295}]\n";

/// Three users of whom two have no Acct-Interim-Interval, and a configuration without `stale`.
const NO_INTERVALS: &str = "stale = 1800\n\
    [[client]]\naddress = \"192.168.1.16\"\nsecret = \"s\"\n\
    [[user]]\nname = \"a\"\npassword = \"p\"\nreply = [{attribute = 85, value = 600}]\n\
    [[user]]\nname = \"b\"\npassword = \"p\"\nreply = [{attribute = 11, value = \"f\"}]\n\
    [[user]]\nname = \"c\"\npassword = \"p\"\nreply = [{vendor = 85, attribute = 85, value = 600}]\n";

const NO_STALE: &str = "[[client]]\naddress = \"192.168.1.16\"\nsecret = \"s\"\n\
    [[user]]\nname = \"a\"\npassword = \"p\"\n\
    [[user]]\nname = \"b\"\npassword = \"p\"\nreply = [{attribute = 85, value = 86400}]\n";

fn concerned(alloc: Global, text: &str, warning: UserWarning) -> Option<(Option<usize>, usize)> {
    match Config::read(alloc, text) {
        Ok(config) => Some((warning.first(&config), warning.count(&config))),
        Err(_) => None,
    }
}

#[test]
fn warnings_concern_users_who_rarely_report(rt: HostRuntime) {
    const ROWS: &[(&str, UserWarning, Option<usize>, usize)] = &[
        (INTERVALS, UserWarning::ShortStale, Some(2), 3),
        (INTERVALS, UserWarning::NoInterval, Some(0), 1),
        (NO_INTERVALS, UserWarning::ShortStale, None, 0),
        (NO_INTERVALS, UserWarning::NoInterval, Some(1), 2),
        (NO_STALE, UserWarning::ShortStale, None, 0),
        (NO_STALE, UserWarning::NoInterval, None, 0),
    ];
    for (text, warning, first, count) in ROWS.iter() {
        assert!(rt; concerned(rt.alloc(), text, *warning) == Some((*first, *count)));
    }
}

fn is_told(alloc: Global, text: &str, lines: &str) -> bool {
    match Config::read(alloc, text) {
        Ok(config) => {
            let mut told = String::new(alloc);
            warn_of_configuration(&mut told, &config, None);
            told.as_str() == lines
        }
        Err(_) => false,
    }
}

#[test]
fn users_are_counted_in_one_line(rt: HostRuntime) {
    const ROWS: &[(&str, &str)] = &[
        (
            INTERVALS,
            "radpool: warning: stale is below three Acct-Interim-Intervals of user 3 and 2 others: a session ends if two Interim-Updates in a row are lost\n\
             radpool: warning: stale is set, but no Acct-Interim-Interval for user 1: a session ends early unless the client sends Interim-Updates unasked\n",
        ),
        (
            NO_INTERVALS,
            "radpool: warning: stale is set, but no Acct-Interim-Interval for user 2 and another: a session ends early unless the client sends Interim-Updates unasked\n",
        ),
        (NO_STALE, ""),
    ];
    for (text, lines) in ROWS.iter() {
        assert!(rt; is_told(rt.alloc(), text, lines), "{lines}");
    }
}
