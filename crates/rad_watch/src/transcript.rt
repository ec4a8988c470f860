//! Datagrams as a transcript has them.
ghost use Rattle.std.specs.Prelude.{◌≡◌, ◌++◌, IsTrue, OnOk};
ghost use Rattle.std.specs.List.{flat_map};
ghost use Rattle.rad_replay.specs.DatagramTexts.{DatagramTextsAreRead};
ghost use Rattle.rad_watch.specs.Recordings.{datagram_with, datagrams_of_entry, discarded, draw_recorded, if_discarded, recorded};
ghost use Rattle.rad_watch.specs.Recordings.{recorded_line, RecordingsAreReplayed};

use rad_replay::{datagram_texts_are_read, draw_needed, push_datagram_text};
use rad_server::{Answer, Entry};
use rad_shell::{Outcome, Timed, Turn};
use std::alloc::AllocError;

/// Appends the datagrams of a turn as lines of a transcript, in an order in which one thread answers them as the turn did: those of
/// its history, and then those that it discarded. Those that were refused memory are left out, as they changed nothing.
///
/// Whether there was memory for all; if not, nothing is appended.
pub fn record(text: &mut Vec<u8>, turn: &Turn) -> bool
    ensures recorded { IsTrue result → text.new.items ≡ text.old.items ++ recorded
        turn.now.arrivals.now turn.now.done.now.outcomes.items turn.now.done.now.history.items }
    // A replay reads each line as that datagram with that moment, and with that draw.
    ensures read { DatagramTextsAreRead }
    // It then answers as the turn did.
    ensures replayed { RecordingsAreReplayed }
{
    datagram_texts_are_read();
    recordings_are_replayed();
    let len = text.len();
    let is_recorded = record_turn(text, turn).is_ok();
    if !is_recorded {
        text.truncate(len);
    }
    is_recorded
}

// A replay of what is recorded of a round goes from the server before it to the one after it, and writes its replies.
fn recordings_are_replayed()
    ensures { RecordingsAreReplayed }
{}

#[tactic(auto, using(crate::proofs::RecordingLemmas::recorded_both))]
fn record_turn(text: &mut Vec<u8>, turn: &Turn) -> Result<(), AllocError>
    ensures { OnOk result (text.new.items ≡ text.old.items ++ recorded
        turn.now.arrivals.now turn.now.done.now.outcomes.items turn.now.done.now.history.items) }
{
    record_history(text, turn.arrivals, &turn.done.history)?;
    record_discards(text, turn.arrivals, &turn.done.outcomes)
}

#[tactic(auto, using(crate::proofs::RecordingLemmas::one_more_entry))]
fn record_history(
    text: &mut Vec<u8>,
    arrivals: &[Timed],
    history: &[Entry],
) -> Result<(), AllocError>
    ensures { OnOk result (text.new.items ≡ text.old.items
        ++ flat_map recorded_line (flat_map (datagrams_of_entry arrivals.now) history.now)) }
{
    for i in 0..history.len() {
        record_entry(text, arrivals, &history[i])?;
    }
    Ok(())
}

#[tactic(auto, using(crate::proofs::RecordingLemmas::found_entry, crate::proofs::RecordingLemmas::absent_entry))]
fn record_entry(text: &mut Vec<u8>, arrivals: &[Timed], entry: &Entry) -> Result<(), AllocError>
    ensures { OnOk result (text.new.items ≡ text.old.items
        ++ flat_map recorded_line (datagrams_of_entry arrivals.now entry.now)) }
{
    let number = entry.tag as usize;
    if number < arrivals.len() {
        push_line(text, draw_recorded(entry), &arrivals[number])?;
    }
    Ok(())
}

// The draw that the line of an entry needs.
fn draw_recorded(entry: &Entry) -> Option<[u8; 16]>
    ensures { result ≡ draw_recorded entry.now }
{
    match &entry.answer {
        Answer::Send(body) => draw_needed(body.code(), entry.draw),
        Answer::Busy => None,
    }
}

#[tactic(auto, using(crate::proofs::RecordingLemmas::one_less_discarded))]
fn record_discards(
    text: &mut Vec<u8>,
    arrivals: &[Timed],
    outcomes: &[Outcome],
) -> Result<(), AllocError>
    ensures { OnOk result (text.new.items ≡ text.old.items
        ++ flat_map recorded_line (discarded arrivals.now outcomes.now)) }
{
    for i in 0..outcomes.len() {
        if let Some(timed) = arrivals.get(i) {
            record_discard(text, timed, &outcomes[i])?;
        }
    }
    Ok(())
}

fn record_discard(text: &mut Vec<u8>, timed: &Timed, outcome: &Outcome) -> Result<(), AllocError>
    ensures { OnOk result (text.new.items ≡ text.old.items
        ++ flat_map recorded_line (if_discarded timed.now outcome.now)) }
{
    match outcome {
        Outcome::Dropped(_) => push_line(text, None, timed),
        _ => Ok(()),
    }
}

fn push_line(text: &mut Vec<u8>, draw: Option<[u8; 16]>, timed: &Timed) -> Result<(), AllocError>
    ensures { OnOk result (text.new.items ≡ text.old.items
        ++ recorded_line (datagram_with draw timed.now)) }
{
    push_datagram_text(text, timed.moment, draw, &timed.arrival)?;
    text.push(b'\n')?;
    Ok(())
}
