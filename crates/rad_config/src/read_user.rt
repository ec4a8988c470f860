//! Reading users.
ghost use Rattle.std.specs.Prelude.{◌≡◌, ◌≤◌, ◌||◌, All, IfOk, None, is_some, length};
ghost use Rattle.rad_packet.specs.Codes.{code_access_accept};
ghost use Rattle.rad_config.specs.Configurations.{is_given, is_misplaced, needs_answer, needs_challenge, own_in, pools_max};
ghost use Rattle.rad_config.specs.Configurations.{user_in, user_place};
ghost use Rattle.rad_config_fault.specs.Faults.{Gives};
ghost use Rattle.rad_config.specs.Entries.{has_key};
ghost use Rattle.rad_config.specs.Profiles.{IsProfile, profile_seen};
ghost use Rattle.rad_config.specs.Ranges.{IsGroup, IsUser};
ghost use Rattle.rad_config.specs.ReadEntries.{entry_user, groups_seen};
ghost use Rattle.rad_config.specs.Views.{entry_data};

use crate::entry::Entry;
use crate::keys::{PASSWORD, USER_ADDRESS, USER_NAME};
use crate::pool::Pool;
use crate::read_group::{Group, after_group, group_of, is_too_long, names_no_group, profile_of};
use crate::read_pool::some_has;
use crate::read_reply::read_reply;
use crate::user::{Profile, UserEntry, read_profile};
use crate::users::Users;
use rad_config_fault::{ConfigFault, Key};
use std::alloc::Global;

/// The user that an entry says beside these pools and groups, whose name no earlier one has.
#[tactic(auto, unfolding(crate::specs::Configurations::user_in))]
pub fn read_user<'a>(
    alloc: Global,
    pools: &[Pool],
    groups: &[Group<'a>],
    earlier: &Users,
    entry: &Entry<'a>,
) -> Result<UserEntry<'a>, ConfigFault>
    requires pools { length pools.now ≤ pools_max }
    requires groups { All (IsGroup (length pools.now)) (groups_seen groups.now) }
    ensures read { Gives entry_user result
        (user_in pools.now (groups_seen groups.now) earlier.now (entry_data entry.now)) }
    ensures accept { IfOk result (λ user. user.reply.code ≡ code_access_accept) }
    ensures new { IfOk result (λ user. user_place earlier.now user.name.now ≡ None) }
    ensures range { IfOk result (λ user. IsUser (length pools.now) (entry_user user)) }
{
    let name = entry.required_text(&USER_NAME)?;
    if earlier.find(name).is_some() {
        return Err(entry.bad(Key::Name));
    }
    let password = entry.required_text(&PASSWORD)?;
    let group = group_of(groups, entry);
    if names_no_group(group, entry) {
        return Err(entry.bad(Key::Group));
    }
    let said = profile_of(group);
    let own = read_own(pools, earlier, &said, entry)?;
    let reply = read_reply(alloc, entry)?;
    let reply = after_group(group, reply)?;
    let profile = own.over(said);
    if is_too_long(&profile, &reply) {
        return Err(entry.bad(Key::Reply));
    }
    Ok(UserEntry {
        name,
        password,
        profile,
        reply,
    })
}

// What a user's entry says beside what its group says, with an address of the user's own.
#[tactic(auto, unfolding(crate::specs::Configurations::own_in))]
fn read_own<'a>(
    pools: &[Pool],
    earlier: &Users,
    group: &Profile<'_>,
    entry: &Entry<'a>,
) -> Result<Profile<'a>, ConfigFault>
    requires { length pools.now ≤ pools_max }
    ensures read { Gives profile_seen result
        (own_in pools.now earlier.now (profile_seen group.now) (entry_data entry.now)) }
    ensures range { IfOk result (λ own. IsProfile (length pools.now) (profile_seen own)) }
    ensures challenge { IfOk result (λ own. is_some own.challenge
        ≡ (needs_challenge (profile_seen group.now) (entry_data entry.now)
        || has_key (entry_data entry.now) Key.Challenge)) }
    ensures answer { IfOk result (λ own. is_some own.answer
        ≡ (needs_answer (profile_seen group.now) (entry_data entry.now)
        || has_key (entry_data entry.now) Key.Answer)) }
{
    let own = read_profile(
        pools,
        needs_challenge(group, entry),
        needs_answer(group, entry),
        entry,
    )?;
    let address = entry.address_if_any(&USER_ADDRESS)?;
    if is_misplaced(pools, earlier, address, entry) {
        return Err(entry.bad(Key::Address));
    }
    Ok(Profile { address, ..own })
}

// Whether a user can't have the address of their own that the entry says, if it says one.
fn is_misplaced(pools: &[Pool], earlier: &Users, address: Option<u32>, entry: &Entry<'_>) -> bool
    ensures { result ≡ is_misplaced pools.now earlier.now address (entry_data entry.now) }
{
    let Some(address) = address else {
        return false;
    };
    entry.has(Key::Pool) || entry.has(Key::Sessions) || is_given(pools, earlier, address)
}

// Whether an earlier user has the address, or a pool.
fn is_given(pools: &[Pool], earlier: &Users, address: u32) -> bool
    ensures { result ≡ is_given pools.now earlier.now address }
{
    earlier.has_address(address) || some_has(pools, address)
}

// Whether a challenge has to be said: where an answer is, and the group has none.
fn needs_challenge(group: &Profile<'_>, entry: &Entry<'_>) -> bool
    ensures { result ≡ needs_challenge (profile_seen group.now) (entry_data entry.now) }
{
    (entry.has(Key::Answer) || group.answer.is_some()) && group.challenge.is_none()
}

// Whether an answer has to be said.
fn needs_answer(group: &Profile<'_>, entry: &Entry<'_>) -> bool
    ensures { result ≡ needs_answer (profile_seen group.now) (entry_data entry.now) }
{
    (entry.has(Key::Challenge) || group.challenge.is_some()) && group.answer.is_none()
}
