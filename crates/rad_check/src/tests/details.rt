//! What more is said of the fault of a text.
use crate::detail_of;
use rad_config::Config;
use std::alloc::{AllocError, Global};

/// The text, and what is said of its fault.
type Row = (&'static str, &'static str);

fn is_said(alloc: Global, row: Row) -> Result<bool, AllocError> {
    let (text, said) = row;
    match Config::read(alloc, text) {
        Ok(_) => Ok(false),
        Err(fault) => {
            let detail = detail_of(alloc, text.as_bytes(), fault);
            Ok(detail.to_string(alloc)?.as_str() == said)
        }
    }
}

#[test]
fn faults_say_more(rt: HostRuntime) {
    const ROWS: &[Row] = &[
        (
            "window = \n",
            " at line 1, column 10: invalid value, expected a string, number, boolean, date-time, array or inline table",
        ),
        (
            "\n# ä\n\"ä\" 1",
            " at line 3, column 5: key with no value, expected `=`",
        ),
        (
            "hold = 60\nhold = 60\n",
            " at line 2, column 1: duplicate key",
        ),
        ("hold = 29\n", ""),
        ("hold = 0\n", ""),
        ("client = 3\n", ""),
        ("client = [1]\n", ""),
        ("client = [{}]\n", ""),
        ("client = [{address = \"1.2.3.4\", secret = \"\"}]\n", ""),
        (
            "client = [{address = \"1.2.3.4\", secret = \"s\"}, {address = \"01.2.3.4\", secret = \"s\"}]\n",
            "",
        ),
        (
            "client = [{address = \"1.2.3.4\", secret = \"s\"}, {address = \"1.2.3.4\", secret = \"s\"}]\n",
            ": the same as client 1",
        ),
        (
            "client = [{address = \"1.2.0.0/16\", secret = \"s\"}, {address = \"1.2.3.4/32\", secret = \"s\"}, {address = \"1.2.3.4\", secret = \"s\"}]\n",
            ": the same as client 2",
        ),
        (
            "pool = [{name = \"a/32\", first = \"10.0.0.1\", last = \"10.0.0.9\"}, {name = \"a\", first = \"10.0.1.1\", last = \"10.0.0.9\"}]\n",
            "",
        ),
        (
            "pool = [{name = \"a\", first = \"10.0.0.1\", last = \"10.0.0.9\"}, {name = \"a\", first = \"10.0.1.1\", last = \"10.0.1.9\"}]\n",
            ": the same as pool 1",
        ),
        (
            "pool = [{name = \"a\", first = \"10.0.0.1\", last = \"10.0.0.9\"}, {name = \"b\", first = \"10.0.1.1\", last = \"10.0.1.9\"}, {name = \"c\", first = \"10.0.0.9\", last = \"10.0.1.1\"}]\n",
            ": pools 1 and 3",
        ),
        (
            "group = [{name = \"a\"}, {name = \"b\"}, {name = \"a\"}]\n",
            ": the same as group 1",
        ),
        (
            "user = [{name = \"a\", password = \"p\", reply = [{attribute = 11}]}]\n",
            "",
        ),
        (
            "user = [{name = \"a\", password = \"p\"}, {name = \"b\", password = \"p\"}, {name = \"b\", password = \"p\"}]\n",
            ": the same as user 2",
        ),
        (
            "pool = [{name = \"a\", first = \"10.0.0.1\", last = \"10.0.0.9\"}, {name = \"b\", first = \"10.0.1.1\", last = \"10.0.1.9\"}]\nuser = [{name = \"a\", password = \"p\", address = \"10.0.1.9\"}]\n",
            ": in pool 2",
        ),
        (
            "user = [{name = \"a\", password = \"p\"}, {name = \"b\", password = \"p\", address = \"10.0.0.1\"}, {name = \"c\", password = \"p\", address = \"10.0.0.1\"}]\n",
            ": the same as user 2",
        ),
        (
            "user = [{name = \"a\", password = \"p\", address = \"10.0.0.1\"}, {name = \"b\", password = \"p\", address = \"10.0.0.1/32\"}]\n",
            "",
        ),
        (
            "pool = [{name = \"a\", first = \"10.0.0.1\", last = \"10.0.0.9\"}]\nuser = [{name = \"a\", password = \"p\", sessions = 1, address = \"10.0.1.1\"}]\n",
            "",
        ),
        (
            "user = [{name = \"a\", password = \"p\", message = \"m\"}, {name = \"b\", password = \"p\", message = 1}]\n",
            "",
        ),
    ];
    for row in ROWS.iter() {
        assert!(rt; is_said(rt.alloc(), *row) == Ok(true), "{}", row.0);
    }
}
