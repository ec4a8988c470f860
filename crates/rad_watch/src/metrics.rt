//! The sums and the state in Prometheus' text format.

use crate::client_sums::write_clients;
use crate::line::push_octets;
use crate::now::Seconds;
use crate::shown::push_label;
use crate::sums::{REPLIES, REPORTS, Sums};
use crate::usage::Usage;
use rad_auth::Discard;
use rad_config::{Config, Pool};
use rad_pool::SESSIONS_MAX;
use rad_recent::{CHALLENGES_MAX, KEPT_MAX};
use rad_server::Denial;
use std::io;
use std::io::Write;

/// A row of a table of metrics: its name, what it is, and its value.
type Row = (&'static str, &'static str, u64);

/// Appends all metrics. The uptime is in milliseconds; `unwritten` is how many texts could not be written.
pub(crate) fn write_metrics(
    text: &mut Vec<u8>,
    sums: &Sums,
    usage: &Usage,
    config: &Config,
    uptime: u64,
    unwritten: u64,
) -> io::Result<()> {
    write_rows(text, "counter", &sum_rows(sums, unwritten))?;
    write_replies(text, sums)?;
    write_rejects(text, sums)?;
    write_reports(text, sums)?;
    write_discards(text, sums)?;
    write_clients(text, &sums.clients, config.clients())?;
    write_sessions(text, usage)?;
    write_rows(text, "gauge", &state_rows(usage))?;
    write_sizes(text, config)?;
    write_uses(text, config, usage)?;
    write_turns(text, sums)?;
    let name = "radpool_uptime_seconds";
    let uptime = Seconds::of_thousandths(uptime);
    write_head(text, name, "gauge", "Seconds since the start.")?;
    writeln!(text, "{name} {uptime}")
}

fn sum_rows(sums: &Sums, unwritten: u64) -> [Row; 10] {
    [
        (
            "radpool_datagrams_total",
            "Datagrams received.",
            sums.datagrams,
        ),
        (
            "radpool_repeats_total",
            "Kept replies sent again.",
            sums.repeats,
        ),
        (
            "radpool_status_replies_total",
            "Replies made to a Status-Server.",
            sums.statuses,
        ),
        (
            "radpool_reports_of_another_user_total",
            "Reports whose User-Name isn't that of the session's user, repeats excluded.",
            sums.strange_reports,
        ),
        (
            "radpool_busy_total",
            "Requests that got no reply because no more replies could be kept.",
            sums.busy,
        ),
        (
            "radpool_nomemory_total",
            "Requests that got no reply because memory was refused.",
            sums.nomemory,
        ),
        (
            "radpool_lost_turns_total",
            "Turns lost with all their datagrams because memory was refused.",
            sums.lost,
        ),
        (
            "radpool_socket_failures_total",
            "Socket calls that failed.",
            sums.failures,
        ),
        (
            "radpool_log_lines_left_out_total",
            "Log lines left out.",
            sums.left_out,
        ),
        (
            "radpool_unwritten_total",
            "Writes to standard error or to a file that failed or were skipped.",
            unwritten,
        ),
    ]
}

fn state_rows(usage: &Usage) -> [Row; 5] {
    [
        (
            "radpool_sessions_limit",
            "Maximum number of sessions, ended ones included.",
            SESSIONS_MAX as u64,
        ),
        ("radpool_kept_replies", "Kept replies.", usage.replies),
        (
            "radpool_kept_replies_limit",
            "Maximum number of kept replies.",
            KEPT_MAX as u64,
        ),
        (
            "radpool_challenges",
            "Challenges waiting for an answer.",
            usage.challenges,
        ),
        (
            "radpool_challenges_limit",
            "Maximum number of challenges.",
            CHALLENGES_MAX as u64,
        ),
    ]
}

// Metrics of one type, each with one value.
fn write_rows(text: &mut Vec<u8>, kind: &str, rows: &[Row]) -> io::Result<()> {
    for (name, help, value) in rows.iter() {
        write_head(text, name, kind, help)?;
        writeln!(text, "{name} {value}")?;
    }
    Ok(())
}

fn write_replies(text: &mut Vec<u8>, sums: &Sums) -> io::Result<()> {
    let name = "radpool_replies_total";
    write_head(
        text,
        name,
        "counter",
        "Replies made, without repeats and those to a Status-Server.",
    )?;
    for (reply, sum) in REPLIES.iter().zip(&sums.replies) {
        write_sample(text, name, "code", reply.1, *sum)?;
    }
    Ok(())
}

fn write_rejects(text: &mut Vec<u8>, sums: &Sums) -> io::Result<()> {
    let name = "radpool_rejects_total";
    write_head(
        text,
        name,
        "counter",
        "Access-Rejects made, by Reply-Message, without repeats.",
    )?;
    for (denial, sum) in Denial::all().iter().zip(&sums.rejects) {
        write_sample(text, name, "text", denial.text(), *sum)?;
    }
    Ok(())
}

fn write_reports(text: &mut Vec<u8>, sums: &Sums) -> io::Result<()> {
    let name = "radpool_reports_total";
    write_head(
        text,
        name,
        "counter",
        "Reports of a session, by whether they mean one, without repeats.",
    )?;
    let sums = sums.known_reports.iter().zip(&sums.lost_reports);
    for (report, (known, lost)) in REPORTS.iter().zip(sums) {
        let status = report.1;
        writeln!(
            text,
            "{name}{{status=\"{status}\",session=\"known\"}} {known}"
        )?;
        writeln!(
            text,
            "{name}{{status=\"{status}\",session=\"none\"}} {lost}"
        )?;
    }
    Ok(())
}

fn write_discards(text: &mut Vec<u8>, sums: &Sums) -> io::Result<()> {
    let name = "radpool_discards_total";
    write_head(text, name, "counter", "Datagrams silently discarded.")?;
    for (discard, sum) in Discard::all().iter().zip(&sums.discards) {
        write_sample(text, name, "reason", discard.label().1, *sum)?;
    }
    Ok(())
}

fn write_sessions(text: &mut Vec<u8>, usage: &Usage) -> io::Result<()> {
    let name = "radpool_sessions";
    write_head(text, name, "gauge", "Sessions.")?;
    write_sample(text, name, "phase", "pending", usage.pending)?;
    write_sample(text, name, "phase", "active", usage.active)?;
    write_sample(text, name, "phase", "ended", usage.ended)
}

fn write_sizes(text: &mut Vec<u8>, config: &Config) -> io::Result<()> {
    let name = "radpool_pool_addresses";
    write_head(text, name, "gauge", "Addresses of the pool.")?;
    for pool in config.pools().iter() {
        let size = pool.last.saturating_sub(pool.first).saturating_add(1);
        write_pool_sample(text, name, pool, u64::from(size))?;
    }
    Ok(())
}

fn write_uses(text: &mut Vec<u8>, config: &Config, usage: &Usage) -> io::Result<()> {
    let name = "radpool_pool_addresses_used";
    write_head(
        text,
        name,
        "gauge",
        "Addresses of the pool that belong to a session.",
    )?;
    for (pool, used) in config.pools().iter().zip(&usage.used) {
        write_pool_sample(text, name, pool, *used)?;
    }
    Ok(())
}

fn write_turns(text: &mut Vec<u8>, sums: &Sums) -> io::Result<()> {
    let name = "radpool_turn_datagrams";
    write_head(
        text,
        name,
        "histogram",
        "Datagrams per turn, of turns that had any and were not lost.",
    )?;
    sums.sizes.write(text, name, sums.sizes.sum())?;
    let name = "radpool_turn_seconds";
    write_head(
        text,
        name,
        "histogram",
        "Seconds per turn, of turns that had datagrams and were not lost.",
    )?;
    sums.times
        .write(text, name, Seconds::of_millionths(sums.times.sum()))
}

/// Appends what a metric is.
pub(crate) fn write_head(text: &mut Vec<u8>, name: &str, kind: &str, help: &str) -> io::Result<()> {
    writeln!(text, "# HELP {name} {help}")?;
    writeln!(text, "# TYPE {name} {kind}")
}

fn write_sample(
    text: &mut Vec<u8>,
    name: &str,
    key: &str,
    label: &str,
    value: u64,
) -> io::Result<()> {
    writeln!(text, "{name}{{{key}=\"{label}\"}} {value}")
}

fn write_pool_sample(text: &mut Vec<u8>, name: &str, pool: &Pool, value: u64) -> io::Result<()> {
    write!(text, "{name}{{pool=\"")?;
    push_label(text, pool.name.octets())?;
    push_octets(text, b"\"} ")?;
    writeln!(text, "{value}")
}
