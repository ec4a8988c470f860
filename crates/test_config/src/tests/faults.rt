//! Each fault as it is printed, and which of two is told.
use super::{is_printed, read_as};
use rad_config::ConfigFault;

#[test]
fn each_fault_is_printed(rt: HostRuntime) {
    // Texts, and the printed fault of each, or `read`.
    const ROWS: &[(&str, &str)] = &[
        ("", "read"),
        ("listen = 3\n[proxy]\nclient = 3", "read"),
        ("client = ", "config fault 1 Syntax"),
        ("window = 1\nwindow = 1", "config fault 1 Syntax"),
        ("hold = 9223372036854775808", "config fault 1 Syntax"),
        ("hold = \"x\"", "config fault 3 BadValue at top 0 hold"),
        ("hold = 29", "config fault 4 HoldBelowWindow"),
        ("window = 61", "config fault 4 HoldBelowWindow"),
        ("stale = 0", "config fault 3 BadValue at top 0 stale"),
        ("stale = 29", "config fault 8 StaleBelowWindow"),
        ("stale = 30", "read"),
        ("window = 60\nstale = 59", "config fault 8 StaleBelowWindow"),
        ("hold = 90\nstale = 60", "read"),
        ("client = 3", "config fault 3 BadValue at client 0 list"),
        ("[client]", "config fault 3 BadValue at client 0 list"),
        ("client = [1]", "config fault 3 BadValue at client 1 entry"),
        ("client = [{address = \"1.2.3.4\", secret = \"s\"}]", "read"),
        (
            "[[client]]\naddress = \"192.168.1.16\"",
            "config fault 2 Missing at client 1 secret",
        ),
        (
            "[[client]]\naddress = \"1.2.3.4\"\nsecret = \"a\"\n[[client]]\naddress = \"1.2.3.4\"",
            "config fault 3 BadValue at client 2 address",
        ),
        ("pool = 3", "config fault 3 BadValue at pool 0 list"),
        ("pool = [[]]", "config fault 3 BadValue at pool 1 entry"),
        (
            "[[pool]]\nname = \"a\"\nfirst = \"10.0.0.1\"\nlast = \"10.0.0.9\"\n[[pool]]\nname = \"b\"\nfirst = \"10.0.0.9\"\nlast = \"10.0.0.9\"",
            "config fault 5 PoolsOverlap",
        ),
        (
            "[[pool]]\nname = \"a\"\nfirst = \"10.0.0.10\"\nlast = \"10.0.0.10\"\n[[pool]]\nname = \"b\"\nfirst = \"10.0.0.9\"\nlast = \"10.0.0.9\"",
            "read",
        ),
        (
            "[[pool]]\nname = \"a\"\nfirst = \"10.0.0.1\"\nlast = \"10.0.0.1\"\n[[pool]]\nname = \"a\"",
            "config fault 3 BadValue at pool 2 name",
        ),
        ("user = true", "config fault 3 BadValue at user 0 list"),
        (
            "[[user]]\nname = \"a\"\npassword = \"b\"\n[[user]]\nname = \"a\"",
            "config fault 3 BadValue at user 2 name",
        ),
        (
            "[[user]]\nname = \"a\"\npassword = \"b\"\npool = \"p\"",
            "config fault 3 BadValue at user 1 pool",
        ),
        (
            "[[user]]\nname = \"a\"\npassword = \"b\"\nchallenge = \"c\"",
            "config fault 2 Missing at user 1 answer",
        ),
        (
            "[[user]]\nname = \"a\"\npassword = \"b\"\nanswer = 5",
            "config fault 2 Missing at user 1 challenge",
        ),
        (
            "[[user]]\nname = \"a\"\npassword = \"b\"\nchallenge = 5",
            "config fault 3 BadValue at user 1 challenge",
        ),
    ];
    read_as(&rt, ROWS);
    let printed = ConfigFault::NoMemory.to_string(rt.alloc());
    let printed = printed.expect(&rt, "a text");
    is_printed(
        &rt,
        printed.as_str(),
        "config fault 7 NoMemory",
        "a fault of memory",
    );
}

#[test]
fn the_first_fault_is_reported(rt: HostRuntime) {
    // Texts with several faults, and the one that is reported.
    const ROWS: &[(&str, &str)] = &[
        (
            "hold = 0\nwindow = 0",
            "config fault 3 BadValue at top 0 window",
        ),
        ("hold = 29\nclient = 3", "config fault 4 HoldBelowWindow"),
        (
            "stale = 0\nhold = 0",
            "config fault 3 BadValue at top 0 hold",
        ),
        (
            "stale = 0\nhold = 29",
            "config fault 3 BadValue at top 0 stale",
        ),
        ("stale = 29\nhold = 29", "config fault 4 HoldBelowWindow"),
        ("stale = 29\nclient = 3", "config fault 8 StaleBelowWindow"),
        (
            "user = 3\npool = 3\nclient = 3",
            "config fault 3 BadValue at client 0 list",
        ),
        (
            "user = 3\npool = 3",
            "config fault 3 BadValue at pool 0 list",
        ),
        (
            "user = 3\ngroup = 3\npool = 3",
            "config fault 3 BadValue at pool 0 list",
        ),
        (
            "user = 3\ngroup = 3",
            "config fault 3 BadValue at group 0 list",
        ),
        (
            "user = [{}]\ngroup = [{name = \"g\", reply = [5]}]",
            "config fault 9 BadReply at group 1 reply 1 entry",
        ),
        (
            "group = 3\n[[pool]]\nname = \"a\"\nfirst = \"10.0.0.1\"\nlast = \"10.0.0.1\"\n[[pool]]\nname = \"b\"\nfirst = \"10.0.0.1\"\nlast = \"10.0.0.1\"",
            "config fault 5 PoolsOverlap",
        ),
        (
            "group = [{name = \"g\", reply = [{}]}, {name = \"g\"}]",
            "config fault 9 BadReply at group 1 reply 1 attribute",
        ),
        (
            "group = [{name = \"\", group = \"x\", pool = \"x\"}]",
            "config fault 3 BadValue at group 1 name",
        ),
        (
            "group = [{name = \"g\"}, {name = \"g\", group = \"x\", pool = \"x\"}]",
            "config fault 3 BadValue at group 2 name",
        ),
        (
            "group = [{name = \"g\", group = \"x\", pool = \"x\"}]",
            "config fault 3 BadValue at group 1 group",
        ),
        (
            "group = [{name = \"g\", pool = \"x\", sessions = 0, reply = 5}]",
            "config fault 3 BadValue at group 1 pool",
        ),
        (
            "group = [{name = \"g\", challenge = 5, answer = 5, reply = 5}]",
            "config fault 3 BadValue at group 1 challenge",
        ),
        (
            "group = [{name = \"g\", grants = 0, reply = 5}]",
            "config fault 3 BadValue at group 1 grants",
        ),
        (
            "client = [{address = \"1.2.3.4\", secret = \"s\"}, 5, {address = \"1.2.3.4\"}]",
            "config fault 3 BadValue at client 2 entry",
        ),
        (
            "client = [{require_message_authenticator = 0, secret = 5}]",
            "config fault 2 Missing at client 1 address",
        ),
        (
            "client = [{address = \"1.2.3.4\", require_message_authenticator = 0, secret = 5}]",
            "config fault 3 BadValue at client 1 secret",
        ),
        (
            "user = 3\n[[pool]]\nname = \"a\"\nfirst = \"10.0.0.1\"\nlast = \"10.0.0.1\"\n[[pool]]\nname = \"b\"\nfirst = \"10.0.0.1\"\nlast = \"10.0.0.1\"",
            "config fault 5 PoolsOverlap",
        ),
        (
            "[[pool]]\nname = \"a\"\nfirst = \"10.0.0.1\"\nlast = \"10.0.0.1\"\n[[pool]]\nname = \"b\"\nfirst = \"10.0.0.1\"",
            "config fault 2 Missing at pool 2 last",
        ),
        (
            "client = [{address = \"1.2.3.4\", secret = \"s\", share = 0}, 5]",
            "config fault 3 BadValue at client 2 entry",
        ),
        (
            "pool = 3\nclient = [{address = \"1.2.3.4\", secret = \"s\", share = \"1\"}]",
            "config fault 3 BadValue at client 1 share",
        ),
        (
            "user = [{name = \"a\", password = \"b\", challenges = 0, challenge = \"c\"}]",
            "config fault 2 Missing at user 1 answer",
        ),
        (
            "user = [{name = \"a\", password = \"b\", grants = 0, challenges = 0}]",
            "config fault 3 BadValue at user 1 challenges",
        ),
        (
            "user = [{name = \"a\", sessions = 0, pool = \"x\"}]",
            "config fault 2 Missing at user 1 password",
        ),
        (
            "user = [{name = \"a\", password = \"b\", sessions = 0, pool = \"x\"}]",
            "config fault 3 BadValue at user 1 pool",
        ),
        (
            "user = [{name = \"a\", group = \"x\", pool = \"x\"}]",
            "config fault 2 Missing at user 1 password",
        ),
        (
            "user = [{name = \"a\", password = \"b\", group = \"x\", pool = \"x\"}]",
            "config fault 3 BadValue at user 1 group",
        ),
        (
            "user = [{name = \"a\", password = \"b\", grants = 0, reply = [5]}]",
            "config fault 3 BadValue at user 1 grants",
        ),
        (
            "user = [{name = \"a\", password = \"b\", reply = [5]}, 5]",
            "config fault 9 BadReply at user 1 reply 1 entry",
        ),
    ];
    read_as(&rt, ROWS);
}
