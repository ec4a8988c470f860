//! A row of what a server once remembered is put back.
ghost use Rattle.std.specs.Prelude.{◌≡◌, ◌<◌, OnErr, OnOk, length};
ghost use Rattle.rad_config.specs.Configurations.{is_reached};
ghost use Rattle.rad_recent.specs.Challenges.{waiting_with};
ghost use Rattle.rad_row_fault.specs.Follows.{FollowsRules};
ghost use Rattle.rad_server.specs.Lawful.{IsLawful};
ghost use Rattle.rad_server.specs.Restored.{challenge_rules, has_used_challenges, restorable, with_row};
ghost use Rattle.rad_server.specs.Servers.{state_with};

use crate::state_row::StateRow;
use crate::tables::Tables;
use crate::{reply_rules, shares};
use rad_config::Config;
use rad_recent::{Challenge, Challenges, Party};
use rad_row_fault::RowFault;

/// Puts a row back into its table.
#[tactic(auto, unfolding(crate::specs::Restored::restorable))]
pub(crate) fn restore(
    config: &Config,
    clock: u64,
    tables: &mut Tables,
    row: StateRow,
) -> Result<(), RowFault>
    requires { IsLawful config.now (state_with clock tables.old) }
    ensures answer { FollowsRules (restorable config.now row (state_with clock tables.old)) result }
    ensures restored { OnOk result
        (state_with clock tables.new ≡ with_row row (state_with clock tables.old)) }
    ensures unchanged { OnErr result
        (state_with clock tables.new ≡ state_with clock tables.old) }
{
    let Tables {
        sessions,
        replies,
        challenges,
    } = tables;
    match row {
        StateRow::Session(row) => sessions.restore(config, row, clock),
        StateRow::LastSession(last) => sessions.restore_last(last),
        StateRow::Reply(reply) => {
            reply_rules::check(config, sessions, replies, &reply)?;
            replies.restore(reply, clock)
        }
        StateRow::Challenge(row) => {
            check_challenge(config, challenges, &row)?;
            challenges.restore(row, clock)
        }
        StateRow::LastChallenge(last) => challenges.restore_last(last),
    }
}

// The rules of a challenge beside those of its table: the first that it breaks, if it breaks one.
#[tactic(auto, unfolding(crate::specs::Restored::challenge_rules))]
fn check_challenge(
    config: &Config,
    challenges: &Challenges,
    row: &Challenge,
) -> Result<(), RowFault>
    ensures { result ≡ challenge_rules config.now challenges.now.table row.now }
{
    if config.clients().len() <= row.client as usize {
        return Err(RowFault::Client);
    }
    if config.users().len() <= row.user as usize {
        return Err(RowFault::User);
    }
    if config.user_at(row.user).answer.is_none() {
        return Err(RowFault::Answer);
    }
    if has_used_challenges(config, challenges, row) {
        return Err(RowFault::Share);
    }
    Ok(())
}

// Whether the client or the user of a challenge has as many as it may have.
fn has_used_challenges(config: &Config, challenges: &Challenges, row: &Challenge) -> bool
    requires { row.now.user < length config.now.users }
    ensures { result ≡ has_used_challenges config.now challenges.now.table row.now }
{
    let share = shares::of_challenges(config, row.client);
    let limit = config.user_at(row.user).challenges.map(u64::from);
    is_used(challenges, Party::Client(row.client), share)
        || is_used(challenges, Party::User(row.user), limit)
}

// Whether as many challenges of a party wait as a limit allows, if there is one.
fn is_used(challenges: &Challenges, party: Party, limit: Option<u64>) -> bool
    ensures { result ≡ is_reached limit (waiting_with party challenges.now.table) }
{
    match limit {
        Some(most) => most <= challenges.len_with(party),
        None => false,
    }
}
