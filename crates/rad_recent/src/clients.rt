//! How many kept replies take the share of each client.
ghost use Rattle.std.specs.Prelude.{◌≡◌, ◌≤◌, IfOk, count_by, filter, length, replicate};
ghost use Rattle.rad_config.specs.Spans.{moment_max};
ghost use Rattle.rad_recent.specs.Index.{replies_of};
ghost use Rattle.rad_recent.specs.Notes.{CountsClients, GainsClient, LosesClient, TakesOne, is_live_of};
ghost use Rattle.rad_recent.specs.Recent.{is_client, is_of};

use crate::numbered::Numbered;
use rad_rows::{Rows, Tally};
use std::alloc::{AllocError, Global};

/// The replies that take a client's share, of which those that aren't live are taken off.
#[derive(Clone, Copy)]
pub(crate) struct LiveReplies {
    pub(crate) client: u32,
    pub(crate) count: u64,
}

impl Tally<Numbered> for LiveReplies {
    ghost told = { λ old row new. TakesOne old row new };

    fn leave(&mut self, row: &Numbered) {
        if is_client(self.client, row.kept.client) {
            self.count = self.count.saturating_sub(1);
        }
    }
}

/// No replies of so many clients.
pub(crate) fn none(alloc: Global, clients: usize) -> Result<Vec<u64>, AllocError>
    ensures { IfOk result (λ counts. counts.items ≡ replicate clients 0) }
{
    vec![in alloc; 0; clients]
}

/// One more that takes a client's share, if there is one.
pub(crate) fn add_one(counts: &mut [u64], client: Option<u32>)
    ensures { GainsClient client counts.old counts.new }
{
    let Some(client) = client else {
        return;
    };
    let place = client as usize;
    if place < counts.len() {
        counts[place] = counts[place].saturating_add(1);
    }
}

/// One less that takes a client's share, if there is one.
pub(crate) fn remove_one(counts: &mut [u64], client: Option<u32>)
    ensures { LosesClient client counts.old counts.new }
{
    let Some(client) = client else {
        return;
    };
    let place = client as usize;
    if place < counts.len() {
        counts[place] = counts[place].saturating_sub(1);
    }
}

/// How many live replies take a client's share.
pub(crate) fn count_live(rows: &Rows<Numbered, u64>, counts: &[u64], now: u64, client: u32) -> u64
    requires moment { now ≤ moment_max }
    requires counts { CountsClients rows.now.rows counts.now }
    ensures { result ≡ length (filter (is_live_of rows.now.spans now client) rows.now.rows) }
{
    let mut live = LiveReplies {
        client,
        count: count(rows, counts, client),
    };
    rows.tell_dead(&mut live, now);
    live.count
}

/// How many replies take a client's share, live or not.
pub(crate) fn count(rows: &Rows<Numbered, u64>, counts: &[u64], client: u32) -> u64
    requires { CountsClients rows.now.rows counts.now }
    ensures { result ≡ count_by (is_of client) (replies_of rows.now.rows) }
{
    let place = client as usize;
    if counts.len() <= place {
        return walk(rows, client);
    }
    counts[place]
}

// The same, by a walk over all rows, for a client that has no count.
fn walk(rows: &Rows<Numbered, u64>, client: u32) -> u64
    ensures { result ≡ count_by (is_of client) (replies_of rows.now.rows) }
{
    rows.numbers_rise();
    let mut count: u64 = 0;
    for row in rows.iter() {
        if is_client(client, row.kept.client) {
            count += 1;
        }
    }
    count
}

/// Whether there is a client, and it is this one.
pub(crate) fn is_client(client: u32, own: Option<u32>) -> bool
    ensures { result ≡ is_client client own }
{
    match own {
        Some(own) => own == client,
        None => false,
    }
}
