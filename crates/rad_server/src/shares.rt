//! How much of the tables one client or one user may take.
ghost use Rattle.std.specs.Prelude.{◌≡◌, ◌≤◌, ◌<◌};
ghost use Rattle.rad_config.specs.Configurations.{is_reached};
ghost use Rattle.rad_config.specs.Spans.{moment_max};
ghost use Rattle.rad_recent.specs.Challenges.{cut_challenges, waiting_with};
ghost use Rattle.rad_recent.specs.Recent.{beside};
ghost use Rattle.rad_server.specs.Shares.{challenges_share, lacks_room, part_of, replies_share};

use rad_config::Config;
use rad_recent::{CHALLENGES_MAX, Challenges, KEPT_MAX, Key, Party, Recent};

/// How many challenges may be a client's, if it has a share.
pub(crate) fn of_challenges(config: &Config, client: u32) -> Option<u64>
    ensures { result ≡ challenges_share config.now client }
{
    part_of(CHALLENGES_MAX as u64, config, client)
}

/// How many kept replies may be a client's, if it has a share.
pub(crate) fn of_replies(config: &Config, client: u32) -> Option<u64>
    ensures { result ≡ replies_share config.now client }
{
    part_of(KEPT_MAX as u64, config, client)
}

// The part of so many that a client has, rounded down, if it has a share.
fn part_of(whole: u64, config: &Config, client: u32) -> Option<u64>
    requires { whole < 1000000 }
    ensures { result ≡ part_of whole config.now client }
{
    let percent = config.share(client)?;
    Some(whole * u64::from(percent) / 100)
}

/// Whether as many live challenges of a party wait as a limit allows, if there is one.
pub(crate) fn has_reached(
    challenges: &Challenges,
    party: Party,
    limit: Option<u64>,
    now: u64,
) -> bool
    requires { now ≤ moment_max }
    ensures { result ≡ is_reached limit
        (waiting_with party (cut_challenges now challenges.now.table)) }
{
    match limit {
        Some(most) => most <= challenges.count_of(party, now),
        None => false,
    }
}

/// Whether a reply to a client's request with this key can't be kept: too many others are, or as many of the client's as its share
/// allows.
pub(crate) fn lacks_room(
    config: &Config,
    replies: &Recent,
    client: u32,
    key: &Key,
    now: u64,
) -> bool
    requires { now ≤ moment_max }
    ensures { result ≡ lacks_room config.now client (beside key.now now replies.now.table) }
{
    if replies.peek(key, now).is_err() {
        return true;
    }
    match of_replies(config, client) {
        Some(most) => most <= replies.count_of(client, key, now),
        None => false,
    }
}
