//! The columns of an Interim-Update and of an Access-Request as a gateway sends them.
use rad_accounting::{Occasion, fill, fill_grant};
use rad_packet::Packet;
use sqlite_value::row::Row;
use sqlite_value::value::ValueRef;
use std::process::Abort;
use std::test::Fail;

/// The octets of an Accounting-Request: an Interim-Update of mira's session, whose Acct-Input-Octets have begun anew twice, with a
/// second User-Name, an Acct-Delay-Time of three octets, and a Calling-Station-Id that is no text.
const UPDATE: &[u8] = b"\
    \x04\x01\x00\x63\x00\x00\x00\x00\x00\x00\x00\x00\x00\x00\x00\x00\x00\x00\x00\x00\
    \x28\x06\x00\x00\x00\x03\x01\x06mira\x01\x05kay\x2c\x0a80f3e2c1\
    \x08\x06\x0a\x14\x00\x07\x04\x06\xc0\x00\x02\x01\x1f\x05\xff\xfe\xfd\
    \x2a\x06\x00\x00\x00\x05\x34\x06\x00\x00\x00\x02\x2b\x06\x00\x00\x00\x0a\
    \x2f\x06\x00\x00\x00\x07\x2e\x06\x00\x00\x0e\x10\x29\x05\x00\x00\x09";

const OCCASION: Occasion = Occasion {
    entry: 9,
    time: 1_700_000_000_123,
    client: 0,
    source: 0xC000_0201,
    session: Some(412),
};

/// Columns and what they have.
const COLUMNS: &[(usize, ValueRef<'static>, &str)] = &[
    (0, ValueRef::Int(9), "the rowid"),
    (1, ValueRef::Null, "entry"),
    (2, ValueRef::Int(1_700_000_000_123), "time"),
    (3, ValueRef::Int(0), "client"),
    (4, ValueRef::Int(0xC000_0201), "source"),
    (5, ValueRef::Text(b"mira"), "user"),
    (6, ValueRef::Int(412), "session"),
    (7, ValueRef::Int(3), "status"),
    (8, ValueRef::Text(b"80f3e2c1"), "acct_session_id"),
    (9, ValueRef::Null, "acct_multi_session_id"),
    (10, ValueRef::Int(0x0A14_0007), "address"),
    (11, ValueRef::Int(0xC000_0201), "nas_address"),
    (12, ValueRef::Null, "nas_identifier"),
    (13, ValueRef::Null, "nas_port"),
    (14, ValueRef::Null, "nas_port_id"),
    (15, ValueRef::Blob(b"\xff\xfe\xfd"), "calling_station_id"),
    (16, ValueRef::Null, "called_station_id"),
    (17, ValueRef::Int(3600), "session_time"),
    (18, ValueRef::Int(8_589_934_597), "octets_in"),
    (19, ValueRef::Int(10), "octets_out"),
    (20, ValueRef::Int(7), "packets_in"),
    (21, ValueRef::Null, "packets_out"),
    (22, ValueRef::Null, "terminate_cause"),
    (23, ValueRef::Null, "delay"),
];

/// The octets of an Access-Request of mira, at a port.
const LOG_IN: &[u8] = b"\
    \x01\x01\x00\x2c\x00\x00\x00\x00\x00\x00\x00\x00\x00\x00\x00\x00\x00\x00\x00\x00\
    \x01\x06mira\x05\x06\x00\x00\x00\x01\x1f\x0c10-1a-5c-f";

const GRANTED: &[(usize, ValueRef<'static>, &str)] = &[
    (0, ValueRef::Int(9), "the rowid"),
    (1, ValueRef::Null, "entry"),
    (2, ValueRef::Int(1_700_000_000_123), "time"),
    (3, ValueRef::Int(0), "client"),
    (4, ValueRef::Int(0xC000_0201), "source"),
    (5, ValueRef::Text(b"mira"), "user"),
    (6, ValueRef::Int(412), "session"),
    (7, ValueRef::Int(0x0A14_0007), "address"),
    (8, ValueRef::Text(b"10-1a-5c-f"), "calling_station_id"),
];

fn same(one: ValueRef<'_>, other: ValueRef<'_>) -> bool {
    match (one, other) {
        (ValueRef::Null, ValueRef::Null) => true,
        (ValueRef::Int(one), ValueRef::Int(other)) => one == other,
        (ValueRef::Text(one), ValueRef::Text(other)) => one == other,
        (ValueRef::Blob(one), ValueRef::Blob(other)) => one == other,
        _ => false,
    }
}

fn has(rt: &impl Abort, row: &Row, at: usize, value: ValueRef<'_>, what: &str) {
    assert!(rt; same(row.get(at), value), "{what}");
}

#[test]
fn an_update_in_columns(rt: HostRuntime) -> Result<(), Fail> {
    let packet = Packet::read(UPDATE)?;
    let mut row = Row::new(rt.alloc());
    fill(&mut row, &OCCASION, &packet)?;
    assert_eq!(rt; row.len(), 24);
    for (at, value, what) in COLUMNS.iter() {
        has(&rt, &row, *at, *value, *what);
    }
    Ok(())
}

#[test]
fn a_session_in_columns(rt: HostRuntime) -> Result<(), Fail> {
    let packet = Packet::read(LOG_IN)?;
    let mut row = Row::new(rt.alloc());
    fill_grant(&mut row, &OCCASION, Some(0x0A14_0007), &packet)?;
    assert_eq!(rt; row.len(), 9);
    for (at, value, what) in GRANTED.iter() {
        has(&rt, &row, *at, *value, *what);
    }
    Ok(())
}
