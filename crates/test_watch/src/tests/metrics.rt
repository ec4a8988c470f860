//! Metrics.
use super::turns::{Fate, LATER, Row, TEXT, watcher_of};
use crate::tests::holds;
use rad_auth::{Discard, Door};
use rad_config::Config;
use rad_server::Denial;
use rad_shell::Service;
use std::alloc::Global;

/// A Status-Server.
const STATUS: &[u8] = b"\x0c\x07\x00\x14................";

/// A Stop.
const STOP: &[u8] = b"\x04\x07\x00\x1a................\x28\x06\x00\x00\x00\x02";

/// A discard and a rejection, and then what isn't counted as them.
const ROWS: &[Row] = &[
    (Door::Auth, b"", Fate::Dropped(Discard::Short)),
    (Door::Auth, b"", Fate::Denied(Denial::ServerFull)),
    (Door::Auth, b"", Fate::Repeat(3, &[(18, b"server full")])),
    (Door::Auth, b"", Fate::Busy),
    (Door::Auth, STATUS, Fate::Reply(2, &[])),
    (Door::Acct, STATUS, Fate::Reply(5, &[])),
    (Door::Acct, STOP, Fate::Report(1)),
    (Door::Acct, STOP, Fate::Reply(5, &[])),
    (Door::Acct, STOP, Fate::Repeat(5, &[])),
];

/// Of which metrics there must be so many lines that end so.
const COUNTS: &[(&str, &str, usize)] = &[
    ("radpool_discards_total{reason=\"", "\"} 1", 1),
    ("radpool_rejects_total{text=\"", "\"} 1", 1),
    ("radpool_replies_total{code=\"Access-Reject\"}", " 1", 1),
    (
        "radpool_replies_total{code=\"Accounting-Response\"}",
        " 2",
        1,
    ),
    ("radpool_replies_total{code=\"Access-Accept\"}", " 0", 1),
    ("radpool_repeats_total", " 2", 1),
    ("radpool_status_replies_total", " 2", 1),
    (
        "radpool_reports_total{status=\"stop\",session=\"known\"}",
        " 1",
        1,
    ),
    (
        "radpool_reports_total{status=\"stop\",session=\"none\"}",
        " 1",
        1,
    ),
    ("radpool_reports_total{", " 0", 4),
    (
        "radpool_client_requests_total{client=\"1\",network=\"192.0.2.0/24\"}",
        " 8",
        1,
    ),
    (
        "radpool_client_replies_total{client=\"1\",network=\"192.0.2.0/24\"}",
        " 7",
        1,
    ),
    (
        "radpool_client_busy_total{client=\"1\",network=\"192.0.2.0/24\"}",
        " 1",
        1,
    ),
    (
        "radpool_client_discards_total{client=\"1\",network=\"192.0.2.0/24\",reason=\"",
        "\"} 1",
        1,
    ),
    (
        "radpool_client_last_request_timestamp_seconds{client=\"1\"",
        "} 1795687200.250000",
        1,
    ),
    ("radpool_datagrams_total", " 9", 1),
    ("radpool_turn_datagrams_bucket", " 9", 7),
    ("radpool_turn_seconds_bucket{le=\"0.0001\"}", " 0", 1),
    ("radpool_turn_seconds_bucket", " 9", 6),
    ("radpool_turn_seconds_sum", " 0.001350", 1),
    ("radpool_unwritten_total", " 3", 1),
    ("radpool_uptime_seconds", " 1.000000", 1),
];

#[test]
fn each_fate_has_its_sum(rt: HostRuntime) {
    let text = metrics(rt.alloc(), ROWS);
    for (name, ending, wanted) in COUNTS.iter() {
        let count = text.as_ref().map_or(0, |text| count(text, name, ending));
        holds(&rt, count == *wanted, name);
    }
}

/// Which metrics have a line for each reason.
const REASONS: &[(&str, usize)] = &[
    ("radpool_discards_total{reason=\"", Discard::COUNT),
    (
        "radpool_client_discards_total{client=\"1\",network=\"192.0.2.0/24\",reason=\"",
        Discard::COUNT,
    ),
    ("radpool_rejects_total{text=\"", Denial::COUNT),
];

#[test]
fn each_reason_has_its_sum(rt: HostRuntime) {
    let text = one_of_each(rt.alloc()).and_then(|rows| metrics(rt.alloc(), &rows));
    for (name, wanted) in REASONS.iter() {
        let count = text.as_ref().map_or(0, |text| count(text, name, "\"} 1"));
        holds(&rt, count == *wanted, name);
    }
}

/// Each discard and each denial, once.
fn one_of_each(alloc: Global) -> Option<Vec<Row>> {
    let mut rows: Vec<Row> = Vec::new(alloc);
    for discard in Discard::all().iter() {
        rows.push((Door::Auth, b"", Fate::Dropped(*discard))).ok()?;
    }
    for denial in Denial::all().iter() {
        rows.push((Door::Auth, b"", Fate::Denied(*denial))).ok()?;
    }
    Some(rows)
}

fn metrics(alloc: Global, rows: &[Row]) -> Option<Vec<u8>> {
    let config = Config::read(alloc, TEXT).ok()?;
    metrics_with(alloc, &config, rows)
}

fn metrics_with(alloc: Global, config: &Config, rows: &[Row]) -> Option<Vec<u8>> {
    let service = Service::open(alloc, config).ok()?;
    let watcher = watcher_of(alloc, &service, None, rows)?;
    watcher.metrics(service.server(), LATER, 3)
}

// How many lines begin and end so.
fn count(text: &[u8], name: &str, ending: &str) -> usize {
    text.split(|octet| *octet == b'\n')
        .filter(|line| line.starts_with(name.as_bytes()) && line.ends_with(ending.as_bytes()))
        .count()
}
