//! How many live replies there are to requests with other keys: in all, and of one client.
ghost use Rattle.std.specs.Prelude.{◌≡◌, ◌≤◌, All, count_by, filter, length, nat_le, not};
ghost use Rattle.rad_config.specs.Spans.{moment_max};
ghost use Rattle.rad_recent.specs.Index.{IsIndexed, replies_of};
ghost use Rattle.rad_recent.specs.Notes.{CountsClients, is_live_of};
ghost use Rattle.rad_recent.specs.Recent.{is_of, is_reply_live, same_key};

use crate::clients;
use crate::index::{self, NumberMap};
use crate::key::Key;
use crate::notes::Notes;
use crate::numbered::{self, Numbered};
use rad_rows::Rows;

/// Whether there are at least so many live replies to requests with another key.
pub(crate) fn are_many(
    rows: &Rows<Numbered, u64>,
    map: &NumberMap,
    now: u64,
    key: &Key,
    most: usize,
) -> bool
    requires moment { now ≤ moment_max }
    requires indexed { All (IsIndexed map.now.entries) rows.now.rows }
    ensures { result ≡ nat_le most (length (filter (λ reply. not (same_key key.now reply.key))
        (filter (is_reply_live rows.now.spans now) (replies_of rows.now.rows)))) }
{
    if rows.len() < most {
        return false;
    }
    most <= count(rows, map, now, key)
}

/// How many live replies that take a client's share there are to requests with another key.
pub(crate) fn count_of(
    rows: &Rows<Numbered, u64>,
    notes: &Notes,
    now: u64,
    client: u32,
    key: &Key,
) -> u64
    requires moment { now ≤ moment_max }
    requires indexed { All (IsIndexed notes.now.index.map.entries) rows.now.rows }
    requires counts { CountsClients rows.now.rows notes.now.clients.items }
    ensures { result ≡ count_by (is_of client) (filter (λ reply. not (same_key key.now reply.key))
        (filter (is_reply_live rows.now.spans now) (replies_of rows.now.rows))) }
{
    rows.numbers_rise();
    let held = clients::count_live(rows, &notes.clients, now, client);
    let Some(number) = index::find(&notes.index.map, key) else {
        return held;
    };
    let Some(row) = rows.get(number) else {
        return held;
    };
    if !is_live_of(row, rows.spans(), now, client) {
        return held;
    }
    held - 1
}

// Whether a row's reply is live and takes a client's share.
fn is_live_of(row: &Numbered, window: u64, now: u64, client: u32) -> bool
    requires { now ≤ moment_max }
    ensures { result ≡ is_live_of window now client row.now }
{
    numbered::is_live(row, window, now) && clients::is_client(client, row.kept.client)
}

// How many live replies there are to requests with another key.
fn count(rows: &Rows<Numbered, u64>, map: &NumberMap, now: u64, key: &Key) -> usize
    requires moment { now ≤ moment_max }
    requires indexed { All (IsIndexed map.now.entries) rows.now.rows }
    ensures { result ≡ length (filter (λ reply. not (same_key key.now reply.key))
        (filter (is_reply_live rows.now.spans now) (replies_of rows.now.rows))) }
{
    rows.numbers_rise();
    let live = rows.count_live(now);
    let Some(number) = index::find(map, key) else {
        return live;
    };
    let Some(row) = rows.get(number) else {
        return live;
    };
    if !numbered::is_live(row, rows.spans(), now) {
        return live;
    }
    live - 1
}
