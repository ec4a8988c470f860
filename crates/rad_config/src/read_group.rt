//! Reading groups.
ghost use Rattle.std.specs.Prelude.{◌≡◌, ◌+◌, ◌++◌, ◌&&◌, ◌<◌, ◌≤◌, All, IfErr, IfOk, IfSome, is_some, length, not, option_copied};
ghost use Rattle.std.specs.Prelude.{option_map, position, ℕ};
ghost use Rattle.std.specs.Str.{bytes_eq};
ghost use Rattle.rad_packet.specs.Attributes.{value_max};
ghost use Rattle.rad_packet.specs.Bodies.{with_attributes};
ghost use Rattle.rad_packet.specs.Codes.{code_access_accept};
ghost use Rattle.rad_config.specs.Configurations.{group_in, group_of, is_too_long, pools_max, size_if_any, text_size};
ghost use Rattle.rad_config.specs.Entries.{has_key};
ghost use Rattle.rad_config.specs.Profiles.{group_place, profile_of, profile_seen, reply_of};
ghost use Rattle.rad_config.specs.Ranges.{IsGroup};
ghost use Rattle.rad_config.specs.ReadEntries.{group_seen, groups_seen};
ghost use Rattle.rad_config.specs.Views.{entry_data};
ghost use Rattle.rad_config_fault.specs.Faults.{Gives};

use crate::entry::Entry;
use crate::keys::GROUP_NAME;
use crate::pool::Pool;
use crate::read_reply::read_reply;
use crate::user::{Profile, read_profile};
use rad_config_fault::{ConfigFault, Key};
use rad_packet::Body;
use std::alloc::{AllocError, Global};

/// The most groups that a configuration has.
pub const GROUPS_MAX: usize = 256;

// How many octets of attributes an Access-Accept has room for: with its header, its Message-Authenticator and 3,584 octets of
// Proxy-States it fills a packet.
const ACCEPT_MAX: usize = 474;

/// A group: its name, what it says of its users, and what their Access-Accepts have, in the body of one.
#[derive(Drop)]
pub struct Group<'a> {
    pub name: &'a [u8],
    pub profile: Profile<'a>,
    pub reply: Body,
}

/// The group that an entry says, whose name no earlier one has.
#[tactic(auto, unfolding(crate::specs::Configurations::group_in))]
pub fn read_group<'a>(
    alloc: Global,
    pools: &[Pool],
    earlier: &[Group<'a>],
    entry: &Entry<'a>,
) -> Result<Group<'a>, ConfigFault>
    requires pools { length pools.now ≤ pools_max }
    requires earlier { All (IsGroup (length pools.now)) (groups_seen earlier.now) }
    ensures read { Gives group_seen result
        (group_in pools.now (groups_seen earlier.now) (entry_data entry.now)) }
    ensures range { IfOk result (λ group. IsGroup (length pools.now) (group_seen group)) }
{
    let name = entry.required_text(&GROUP_NAME)?;
    if place_of(earlier, name).is_some() {
        return Err(entry.bad(Key::Name));
    }
    let group = group_of(earlier, entry);
    if names_no_group(group, entry) {
        return Err(entry.bad(Key::Group));
    }
    let own = read_profile(pools, false, false, entry)?;
    let reply = read_reply(alloc, entry)?;
    let reply = after_group(group, reply)?;
    if is_too_long(&Profile::blank(), &reply) {
        return Err(entry.bad(Key::Reply));
    }
    Ok(Group {
        name,
        profile: own.over(profile_of(group)),
        reply: shared(reply)?,
    })
}

// The place of the group with this name.
fn place_of(groups: &[Group<'_>], name: &[u8]) -> Option<usize>
    ensures value { result ≡ group_place (groups_seen groups.now) name.now }
    ensures within { IfSome result (λ place. place < length groups.now) }
{
    place_by(groups, name)
}

// The same, of the groups as the code has them.
fn place_by(groups: &[Group<'_>], name: &[u8]) -> Option<usize>
    ensures value { result ≡ position (λ group. bytes_eq name.now group.name.now) groups.now }
    ensures within { IfSome result (λ place. place < length groups.now) }
{
    groups.iter().position(|group| name == group.name)
}

/// The group that an entry names, if there is one of that name.
pub fn group_of<'g, 'a>(groups: &'g [Group<'a>], entry: &Entry<'_>) -> Option<&'g Group<'a>>
    ensures group { option_map (λ group. group_seen group.now) result
        ≡ group_of (groups_seen groups.now) (entry_data entry.now) }
    ensures range { (pools : ℕ) → All (IsGroup pools) (groups_seen groups.now) →
        IfSome result (λ group. IsGroup pools (group_seen group.now)) }
{
    let name = entry.get(Key::Group)?.as_str()?;
    let place = place_of(groups, name.as_bytes())?;
    Some(&groups[place])
}

/// Whether an entry names a group that isn't there.
pub fn names_no_group(group: Option<&Group<'_>>, entry: &Entry<'_>) -> bool
    ensures { result ≡ (has_key (entry_data entry.now) Key.Group && not (is_some group.entry)) }
{
    entry.has(Key::Group) && group.is_none()
}

/// What a group says of its users, if there is one.
pub fn profile_of<'a>(group: Option<&Group<'a>>) -> Profile<'a>
    ensures { profile_seen result
        ≡ profile_of (option_map (λ group. group_seen group.now) group.entry) }
{
    match group {
        Some(group) => group.profile,
        None => Profile::blank(),
    }
}

/// A group's reply, if there is one, and an entry's own after it.
pub fn after_group(group: Option<&Group<'_>>, own: Body) -> Result<Body, ConfigFault>
    requires group { IfSome group (λ group. group.now.reply.code ≡ code_access_accept) }
    requires own { own.code ≡ code_access_accept }
    ensures attributes { IfOk result (λ reply. reply.attributes
        ≡ reply_of (option_map (λ group. group_seen group.now) group.entry) ++ own.attributes) }
    ensures code { IfOk result (λ reply. reply.code ≡ code_access_accept) }
    ensures memory { IfErr result (λ fault. fault ≡ ConfigFault.NoMemory) }
{
    let Some(group) = group else {
        return Ok(own);
    };
    match joined(&group.reply, &own) {
        Ok(reply) => Ok(reply),
        Err(_) => Err(ConfigFault::NoMemory),
    }
}

// A copy of a body with the attributes of another after its own. Where there are none, it shares the octets.
fn joined(front: &Body, back: &Body) -> Result<Body, AllocError>
    ensures { IfOk result (λ body. body ≡ with_attributes back.now.attributes front.now) }
{
    if back.size() == 0 {
        return front.copy();
    }
    let mut body = front.copy()?;
    body.append(back)?;
    Ok(body)
}

// The same body, whose copies share its octets.
fn shared(mut body: Body) -> Result<Body, ConfigFault>
    ensures same { IfOk result (λ shared. shared ≡ body) }
    ensures memory { IfErr result (λ fault. fault ≡ ConfigFault.NoMemory) }
{
    match body.share() {
        Ok(()) => Ok(body),
        Err(_) => Err(ConfigFault::NoMemory),
    }
}

/// Whether an Access-Accept that has these attributes beside what is said of a user would be too long.
pub fn is_too_long(said: &Profile<'_>, reply: &Body) -> bool
    requires { IfSome (profile_seen said.now).message (λ message. length message ≤ value_max) }
    ensures { result ≡ is_too_long (profile_seen said.now) reply.now.attributes }
{
    let integers = integer_size(said.service)
        + integer_size(said.protocol)
        + integer_size(said.pool)
        + integer_size(said.address)
        + integer_size(said.timeout);
    reply.size() > ACCEPT_MAX - (14 + integers + text_size(said.message))
}

// The size of the attribute of an integer or an address, or 0 if there is none.
fn integer_size(number: Option<u32>) -> usize
    ensures value { result ≡ size_if_any 6 number }
    ensures bound { result ≤ 6 }
{
    match number {
        Some(_) => 6,
        None => 0,
    }
}

// The size of the attribute of a text, or 0 if there is none.
fn text_size(text: Option<&[u8]>) -> usize
    requires { IfSome (option_copied text) (λ text. length text ≤ value_max) }
    ensures value { result ≡ text_size (option_copied text.entry) }
    ensures bound { result ≤ value_max + 2 }
{
    match text {
        Some(text) => text.len() + 2,
        None => 0,
    }
}
