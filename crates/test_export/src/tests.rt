//! Lines as other programs get them, times as an operator writes them, and which rows are taken.
use rad_export::{Format, Wanted, moment_of};
use sqlite_value::row::Row;
use sqlite_value::value::ValueRef;
use std::alloc::{AllocError, Global};
use std::str;
use std::test::Fail;

/// A Stop with a value in each column. The Acct-Multi-Session-Id has what both formats escape, and the Calling-Station-Id is no
/// UTF-8.
const STOP: &[ValueRef<'static>] = &[
    ValueRef::Int(9),
    ValueRef::Null,
    ValueRef::Int(1_795_767_302_113),
    ValueRef::Int(0),
    ValueRef::Int(0xC000_0201),
    ValueRef::Text(b"mira"),
    ValueRef::Int(412),
    ValueRef::Int(2),
    ValueRef::Text(b"80f3e2c1"),
    ValueRef::Text(b"a \"b\", c\nd"),
    ValueRef::Int(0x0A14_0007),
    ValueRef::Int(0xC000_0202),
    ValueRef::Text(b"gw-1"),
    ValueRef::Int(17),
    ValueRef::Text(b"eth0"),
    ValueRef::Blob(b"\xff\xfe\xfd"),
    ValueRef::Text(b"\xc3\xa9"),
    ValueRef::Int(3600),
    ValueRef::Int(8_589_934_597),
    ValueRef::Int(10),
    ValueRef::Int(7),
    ValueRef::Int(4_294_967_295),
    ValueRef::Int(4),
    ValueRef::Int(2),
];

/// A row of other types than the columns have, and numbers without a name or past their range.
const ODD: &[ValueRef<'static>] = &[
    ValueRef::Int(1),
    ValueRef::Null,
    ValueRef::Int(9_223_372_036_854_775_807),
    ValueRef::Text(b"0"),
    ValueRef::Int(-1),
    ValueRef::Text(b"\xff"),
    ValueRef::Null,
    ValueRef::Int(15),
    ValueRef::Int(5),
    ValueRef::Real(1.0),
    ValueRef::Int(4_294_967_296),
];

const HEAD: &str =
    "generation,entry,time,client,source,session,User-Name,Acct-Status-Type,Acct-Session-Id,\
    Acct-Multi-Session-Id,Framed-IP-Address,NAS-IP-Address,NAS-Identifier,NAS-Port,NAS-Port-Id,Calling-Station-Id,\
    Called-Station-Id,Acct-Session-Time,Acct-Input-Octets,Acct-Output-Octets,Acct-Input-Packets,Acct-Output-Packets,\
    Acct-Terminate-Cause,Acct-Delay-Time\n";

const STOP_JSON: &str =
    "{\"generation\":3,\"entry\":9,\"time\":\"2026-11-27T08:15:02.113Z\",\"client\":0,\
    \"source\":\"192.0.2.1\",\"session\":412,\"User-Name\":\"mira\",\"Acct-Status-Type\":\"Stop\",\
    \"Acct-Session-Id\":\"80f3e2c1\",\"Acct-Multi-Session-Id\":\"a \\\"b\\\", c\\nd\",\
    \"Framed-IP-Address\":\"10.20.0.7\",\"NAS-IP-Address\":\"192.0.2.2\",\"NAS-Identifier\":\"gw-1\",\"NAS-Port\":17,\
    \"NAS-Port-Id\":\"eth0\",\"Calling-Station-Id:hex\":\"fffefd\",\"Called-Station-Id\":\"\u{e9}\",\
    \"Acct-Session-Time\":3600,\"Acct-Input-Octets\":8589934597,\"Acct-Output-Octets\":10,\"Acct-Input-Packets\":7,\
    \"Acct-Output-Packets\":4294967295,\"Acct-Terminate-Cause\":\"Idle-Timeout\",\"Acct-Delay-Time\":2}\n";

const STOP_CSV: &str =
    "3,9,2026-11-27T08:15:02.113Z,0,192.0.2.1,412,mira,Stop,80f3e2c1,\"a \"\"b\"\", c\nd\",10.20.0.7,\
    192.0.2.2,gw-1,17,eth0,\\xfffefd,\u{e9},3600,8589934597,10,7,4294967295,Idle-Timeout,2\n";

const ODD_JSON: &str =
    "{\"generation\":0,\"entry\":1,\"User-Name:hex\":\"ff\",\"Acct-Status-Type\":\"15\"}\n";

const ODD_CSV: &str = "0,1,,,,,\\xff,15,,,,,,,,,,,,,,,,\n";

/// Texts, and the times that they say.
const MOMENTS: &[(&str, Option<i64>)] = &[
    ("2026-11-27T08:15:02.113Z", Some(1_795_767_302_113)),
    ("2026-11-27T09:15:02.1139+01:00", Some(1_795_767_302_113)),
    ("2026-11-29", Some(1_795_910_400_000)),
    ("1969-12-31", Some(-86_400_000)),
    ("2026-11-31", None),
    ("2026-11-27T08:15:02", None),
    ("20261129", None),
    ("", None),
];

/// Parts of what is wanted, since, until, user and address, and whether `STOP` is taken.
const WANTED: &[(
    Option<i64>,
    Option<i64>,
    Option<&'static [u8]>,
    Option<u32>,
    bool,
)] = &[
    (None, None, None, None, true),
    (Some(1_795_767_302_113), None, None, None, true),
    (Some(1_795_767_302_114), None, None, None, false),
    (None, Some(1_795_767_302_114), None, None, true),
    (None, Some(1_795_767_302_113), None, None, false),
    (None, None, Some(b"mira"), None, true),
    (None, None, Some(b"mir"), None, false),
    (None, None, None, Some(0x0A14_0007), true),
    (None, None, None, Some(0xC000_0202), false),
];

fn row_of(alloc: Global, values: &[ValueRef<'static>]) -> Result<Row, AllocError> {
    let mut row = Row::new(alloc);
    for value in values {
        row.push(*value)?;
    }
    Ok(row)
}

#[test]
fn lines_of_rows(rt: HostRuntime) -> Result<(), Fail> {
    let alloc = rt.alloc();
    let cases = [
        (Format::Json, 3, STOP, STOP_JSON),
        (Format::Csv, 3, STOP, STOP_CSV),
        (Format::Json, 0, ODD, ODD_JSON),
        (Format::Csv, 0, ODD, ODD_CSV),
    ];
    for (format, generation, values, line) in cases {
        let mut text = Vec::new(alloc);
        format.push_line(&mut text, generation, &row_of(alloc, values)?)?;
        assert_eq!(rt; str::from_utf8(&text), Ok(line));
    }
    Ok(())
}

#[test]
fn a_head_and_a_line(rt: HostRuntime) -> Result<(), Fail> {
    let alloc = rt.alloc();
    let mut text = Vec::new(alloc);
    Format::Json.push_head(&mut text)?;
    assert!(rt; text.is_empty());
    Format::Csv.push_head(&mut text)?;
    Format::Csv.push_line(&mut text, 0, &row_of(alloc, ODD)?)?;
    let wanted = format!(in alloc; "{HEAD}{ODD_CSV}")?;
    assert_eq!(rt; str::from_utf8(&text), Ok(wanted.as_str()));
    assert_eq!(rt; Format::named("json"), Some(Format::Json));
    assert_eq!(rt; Format::named("csv"), Some(Format::Csv));
    assert_eq!(rt; Format::named("JSON"), None);
    Ok(())
}

#[test]
fn moments_of_texts(rt: HostRuntime) {
    for (text, moment) in MOMENTS {
        assert_eq!(rt; moment_of(text), *moment, "{text}");
    }
}

#[test]
fn taken_rows(rt: HostRuntime) -> Result<(), Fail> {
    let row = row_of(rt.alloc(), STOP)?;
    for (since, until, user, address, takes) in WANTED {
        let wanted = Wanted {
            since: *since,
            until: *until,
            user: *user,
            address: *address,
        };
        assert_eq!(rt; wanted.takes(&row), *takes, "{wanted:?}");
    }
    Ok(())
}
