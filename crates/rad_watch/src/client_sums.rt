//! What became of a client's datagrams, and its metrics.

use crate::metrics::write_head;
use crate::now::Seconds;
use crate::sums::add_one;
use rad_auth::{Clients, Discard, Network};
use rad_shell::Outcome;
use std::io;
use std::io::Write;
use std::net::Ipv4Addr;

/// What became of a client's datagrams. A sum that would be greater than 2^64 - 1 is that.
#[derive(Clone, Copy)]
pub(crate) struct ClientSums {
    /// Those that were admitted.
    requests: u64,
    /// The replies, also those that were kept.
    replies: u64,
    busy: u64,
    /// In the order of `Discard::all`.
    discards: [u64; Discard::COUNT],
    /// When the last one was admitted, in milliseconds since 1970; 0 if none was.
    last_request: u64,
}

impl ClientSums {
    /// Those of nothing.
    pub fn nothing() -> ClientSums {
        ClientSums {
            requests: 0,
            replies: 0,
            busy: 0,
            discards: [0; Discard::COUNT],
            last_request: 0,
        }
    }

    /// Counts what became of one more, at a wall time in milliseconds.
    pub fn add_outcome(&mut self, outcome: &Outcome, wall: u64) {
        if let Outcome::Dropped(discard) = outcome {
            add_one(&mut self.discards[discard.place()]);
            return;
        }
        add_one(&mut self.requests);
        self.last_request = wall;
        match outcome {
            Outcome::Reply(_) => add_one(&mut self.replies),
            Outcome::Busy => add_one(&mut self.busy),
            Outcome::NoMemory | Outcome::Dropped(_) => {}
        }
    }
}

/// A sum that each client has.
#[derive(Clone, Copy)]
enum Count {
    Requests,
    Replies,
    Busy,
}

impl Count {
    // The name of its metric, and what it is.
    fn metric(self) -> (&'static str, &'static str) {
        match self {
            Count::Requests => (
                "radpool_client_requests_total",
                "Requests of the client that were admitted.",
            ),
            Count::Replies => (
                "radpool_client_replies_total",
                "Replies made for the client, those sent again included.",
            ),
            Count::Busy => (
                "radpool_client_busy_total",
                "Requests of the client that got no reply because no more replies could be kept.",
            ),
        }
    }

    fn of(self, sums: &ClientSums) -> u64 {
        match self {
            Count::Requests => sums.requests,
            Count::Replies => sums.replies,
            Count::Busy => sums.busy,
        }
    }
}

/// Appends the metrics of each client. A reason for which nothing of a client's was discarded has no sample.
pub(crate) fn write_clients(
    text: &mut Vec<u8>,
    sums: &[ClientSums],
    clients: &Clients,
) -> io::Result<()> {
    write_counts(text, sums, clients, Count::Requests)?;
    write_counts(text, sums, clients, Count::Replies)?;
    write_counts(text, sums, clients, Count::Busy)?;
    write_discards(text, sums, clients)?;
    write_last_requests(text, sums, clients)
}

fn write_counts(
    text: &mut Vec<u8>,
    sums: &[ClientSums],
    clients: &Clients,
    count: Count,
) -> io::Result<()> {
    let (name, help) = count.metric();
    write_head(text, name, "counter", help)?;
    for (place, sums) in sums.iter().enumerate() {
        push_client(text, name, clients, place)?;
        let value = count.of(sums);
        writeln!(text, "}} {value}")?;
    }
    Ok(())
}

fn write_discards(text: &mut Vec<u8>, sums: &[ClientSums], clients: &Clients) -> io::Result<()> {
    let name = "radpool_client_discards_total";
    write_head(
        text,
        name,
        "counter",
        "Datagrams of the client silently discarded.",
    )?;
    for (place, sums) in sums.iter().enumerate() {
        write_discards_of(text, name, sums, clients, place)?;
    }
    Ok(())
}

fn write_discards_of(
    text: &mut Vec<u8>,
    name: &str,
    sums: &ClientSums,
    clients: &Clients,
    place: usize,
) -> io::Result<()> {
    for (discard, sum) in Discard::all().iter().zip(&sums.discards) {
        if *sum > 0 {
            push_client(text, name, clients, place)?;
            let (_, reason) = discard.label();
            writeln!(text, ",reason=\"{reason}\"}} {sum}")?;
        }
    }
    Ok(())
}

fn write_last_requests(
    text: &mut Vec<u8>,
    sums: &[ClientSums],
    clients: &Clients,
) -> io::Result<()> {
    let name = "radpool_client_last_request_timestamp_seconds";
    write_head(
        text,
        name,
        "gauge",
        "When the client's last request that was admitted came; 0 if none has.",
    )?;
    for (place, sums) in sums.iter().enumerate() {
        push_client(text, name, clients, place)?;
        let time = Seconds::of_thousandths(sums.last_request);
        writeln!(text, "}} {time}")?;
    }
    Ok(())
}

// The name of a metric and the labels of the client at a place, without the brace that ends them.
fn push_client(text: &mut Vec<u8>, name: &str, clients: &Clients, place: usize) -> io::Result<()> {
    let number = place.saturating_add(1);
    write!(text, "{name}{{client=\"{number}\"")?;
    if place < clients.len() {
        let Network { address, prefix } = clients.network(place as u32);
        let address = Ipv4Addr::from_bits(address);
        write!(text, ",network=\"{address}/{prefix}\"")?;
    }
    Ok(())
}
