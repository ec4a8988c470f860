//! The challenge that a State answers.
ghost use Rattle.std.specs.Prelude.{◌≡◌, ℕ, ◌&&◌, ◌≤◌, ◌<◌, ◌^◌, List, filter, find, not, Some};
ghost use Rattle.rad_config.specs.Spans.{moment_max};
ghost use Rattle.rad_recent.specs.Challenges.{has_state, is_challenge_live, state_value};

use crate::challenge::{Challenge, state_value};
use rad_rows::{Row, Rows};

// The number in a State.
fn number_of(state: &[u8]) -> Option<u64>
    ensures { (number : ℕ) (draw : List ℕ) → number < 2 ^ 64 →
        state.now ≡ state_value number draw → result ≡ Some number }
{
    if state.len() < 8 {
        return None;
    }
    let mut octets = [0; 8];
    octets.copy_from_slice(&state[..8]);
    Some(u64::from_be_bytes(octets))
}

// Whether a State is that of a challenge which this client was sent.
fn has_state(challenge: &Challenge, state: &[u8], client: u32) -> bool
    ensures { result ≡ has_state state.now client challenge.now }
{
    challenge.client == client && state == state_value(challenge.number, &challenge.draw).as_slice()
}

// Whether a challenge is live and answered by this State.
fn is_answered(challenge: &Challenge, state: &[u8], client: u32, hold: u64, now: u64) -> bool
    requires { now ≤ moment_max }
    ensures { result ≡ (is_challenge_live hold now challenge.now
        && has_state state.now client challenge.now) }
{
    now < challenge.ends(&hold) && has_state(challenge, state, client)
}

/// The live challenge that a client answers with this State.
pub(crate) fn find(
    rows: &Rows<Challenge, u64>,
    state: &[u8],
    client: u32,
    now: u64,
) -> Option<Challenge>
    requires { now ≤ moment_max }
    ensures { result ≡ find (has_state state.now client)
        (filter (is_challenge_live rows.now.spans now) rows.now.rows) }
{
    rows.numbers_rise();
    let Some(number) = number_of(state) else {
        return None;
    };
    let Some(row) = rows.get(number) else {
        return None;
    };
    if !is_answered(row, state, client, rows.spans(), now) {
        return None;
    }
    Some(*row)
}

/// Removes the challenge that was found with this State.
pub(crate) fn remove(
    rows: &mut Rows<Challenge, u64>,
    state: &[u8],
    client: u32,
    found: Option<Challenge>,
)
    requires { found ≡ find (has_state state.now client) rows.old.rows }
    ensures rows { rows.new.rows
        ≡ filter (λ challenge. not (has_state state.now client challenge)) rows.old.rows }
    ensures last { rows.new.last ≡ rows.old.last }
    ensures spans { rows.new.spans ≡ rows.old.spans }
    ensures room { rows.new.has_room ≡ rows.old.has_room }
{
    rows.numbers_rise();
    if let Some(challenge) = found {
        rows.remove(challenge.number);
    }
}
