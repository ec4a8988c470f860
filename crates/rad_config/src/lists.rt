//! The lists of entries: clients, pools, groups and users.
ghost use Rattle.std.specs.Prelude.{◌≡◌, ◌<◌, ◌≤◌, length, All, IfOk};
ghost use Rattle.toml.specs.View.{view, items_view, table_view};
ghost use Rattle.toml.specs.Data.{get_member};
ghost use Rattle.rad_auth.specs.Clients.{clients_max};
ghost use Rattle.rad_config.specs.Configurations.{clients_of, groups_max, groups_of, pools_max, pools_of, shares_of, users_max};
ghost use Rattle.rad_config.specs.Configurations.{users_of};
ghost use Rattle.rad_config.specs.Entries.{entry_of, items_at};
ghost use Rattle.rad_config_fault.specs.Faults.{Gives};
ghost use Rattle.rad_config_fault.specs.Faults.{part_name};
ghost use Rattle.rad_config.specs.Ranges.{HasShare, IsGroup, IsPool, IsUser};
ghost use Rattle.rad_config.specs.Readers.{and_client, and_group, and_pool, and_share, and_user, clients_from, found_items};
ghost use Rattle.rad_config.specs.Readers.{groups_from, pools_from, shares_from, users_from};
ghost use Rattle.rad_config.specs.ReadEntries.{groups_seen};
ghost use Rattle.rad_config.specs.Views.{data_of, entry_data};

use crate::entry::Entry;
use crate::keys::CLIENT_SHARE;
use crate::pool::{POOLS_MAX, Pool};
use crate::read_client::read_client;
use crate::read_group::{GROUPS_MAX, Group, read_group};
use crate::read_pool::read_pool;
use crate::read_user::read_user;
use crate::users::{USERS_MAX, Users};
use rad_auth::{CLIENTS_MAX, Clients};
use rad_config_fault::{ConfigFault, Key, Part, Spot};
use std::alloc::Global;
use toml::{Table, Value};

/// The clients of a document.
#[tactic(auto, unfolding(crate::specs::Entries::list_of))]
pub fn read_clients(alloc: Global, document: &Table) -> Result<Clients, ConfigFault>
    ensures { Gives (λ clients. clients) result (clients_of (table_view document.now)) }
{
    let items = items_in(Part::Client, CLIENTS_MAX, document)?;
    clients_from(alloc, items)
}

/// The shares of the clients of a document.
#[tactic(auto, unfolding(crate::specs::Entries::list_of))]
pub fn read_shares(alloc: Global, document: &Table) -> Result<Vec<Option<u32>>, ConfigFault>
    ensures read { Gives (λ shares. shares.items) result (shares_of (table_view document.now)) }
    ensures range { IfOk result (λ shares. All HasShare shares.items) }
{
    let items = items_in(Part::Client, CLIENTS_MAX, document)?;
    shares_from(alloc, items)
}

/// The pools of a document.
#[tactic(auto, unfolding(crate::specs::Entries::list_of))]
pub fn read_pools(alloc: Global, document: &Table) -> Result<Vec<Pool>, ConfigFault>
    ensures read { Gives (λ pools. pools.items) result (pools_of (table_view document.now)) }
    ensures few { IfOk result (λ pools. length pools.items ≤ pools_max) }
    ensures range { IfOk result (λ pools. All IsPool pools.items) }
{
    let items = items_in(Part::Pool, POOLS_MAX, document)?;
    pools_from(alloc, items)
}

/// The groups of a document, beside these pools.
#[tactic(auto, unfolding(crate::specs::Entries::list_of))]
pub fn read_groups<'a>(
    alloc: Global,
    pools: &[Pool],
    document: &'a Table,
) -> Result<Vec<Group<'a>>, ConfigFault>
    requires { length pools.now ≤ pools_max }
    ensures read { Gives (λ groups. groups_seen groups.items) result
        (groups_of pools.now (table_view document.now)) }
    ensures range { IfOk result
        (λ groups. All (IsGroup (length pools.now)) (groups_seen groups.items)) }
{
    let items = items_in(Part::Group, GROUPS_MAX, document)?;
    groups_from(alloc, pools, items)
}

/// The users of a document, beside these pools and groups.
#[tactic(auto, unfolding(crate::specs::Entries::list_of))]
pub fn read_users<'a>(
    alloc: Global,
    pools: &[Pool],
    groups: &[Group<'a>],
    document: &'a Table,
) -> Result<Users, ConfigFault>
    requires pools { length pools.now ≤ pools_max }
    requires groups { All (IsGroup (length pools.now)) (groups_seen groups.now) }
    ensures read { Gives (λ users. users) result
        (users_of pools.now (groups_seen groups.now) (table_view document.now)) }
    ensures range { IfOk result (All (IsUser (length pools.now))) }
{
    let items = items_in(Part::User, USERS_MAX, document)?;
    users_from(alloc, pools, groups, items)
}

// The list of a part.
fn list_at(part: Part, document: &Table) -> Option<&Value>
    ensures { data_of result ≡ get_member (part_name part) (table_view document.now) }
{
    document.get(part.name())
}

// The items of a part's list, at most so many.
#[tactic(auto, unfolding(crate::specs::Entries::items_in))]
fn items_in(part: Part, most: usize, document: &Table) -> Result<&[Value], ConfigFault>
    ensures read { Gives found_items result (items_at part most (table_view document.now)) }
    ensures few { IfOk result (λ items. length items.now ≤ most) }
{
    let Some(list) = list_at(part, document) else {
        return Ok(&[]);
    };
    let items = list.as_array().ok_or(ConfigFault::BadValue(Spot {
        part,
        index: 0,
        key: Key::List,
    }))?;
    if items.len() > most {
        return Err(ConfigFault::TooMany(part));
    }
    Ok(items.as_slice())
}

// The table that an entry is.
#[tactic(auto, unfolding(crate::specs::Entries::entry_of))]
pub(crate) fn entry_at(part: Part, index: u32, item: &Value) -> Result<Entry<'_>, ConfigFault>
    ensures { Gives entry_data result (entry_of part index (view item.now)) }
{
    let table = item.as_table().ok_or(ConfigFault::BadValue(Spot {
        part,
        index,
        key: Key::Entry,
    }))?;
    Ok(Entry { part, index, table })
}

fn clients_from(alloc: Global, items: &[Value]) -> Result<Clients, ConfigFault>
    requires { length items.now ≤ clients_max }
    ensures { Gives (λ clients. clients) result (clients_from (items_view items.now)) }
{
    let mut clients = Clients::new(alloc);
    for (place, item) in items.iter().enumerate() {
        add_client(place as u32 + 1, item, &mut clients)?;
    }
    Ok(clients)
}

// Adds the client that an item is.
#[tactic(auto, unfolding(crate::specs::Entries::and_entry))]
fn add_client(index: u32, item: &Value, clients: &mut Clients) -> Result<(), ConfigFault>
    requires { length clients.old < clients_max }
    ensures { Gives (λ _. clients.new) result (and_client index clients.old (view item.now)) }
{
    let entry = entry_at(Part::Client, index, item)?;
    let client = read_client(clients, &entry)?;
    // The network is new, so only memory can be refused.
    clients
        .add(
            client.network.address,
            client.network.prefix,
            client.secret,
            client.require_message_authenticator,
        )
        .map_err(|_| ConfigFault::NoMemory)
}

fn shares_from(alloc: Global, items: &[Value]) -> Result<Vec<Option<u32>>, ConfigFault>
    requires { length items.now ≤ clients_max }
    ensures read { Gives (λ shares. shares.items) result (shares_from (items_view items.now)) }
    ensures range { IfOk result (λ shares. All HasShare shares.items) }
{
    let mut shares = Vec::new(alloc);
    for (place, item) in items.iter().enumerate() {
        add_share(place as u32 + 1, item, &mut shares)?;
    }
    Ok(shares)
}

// Adds the share of the client that an item is.
#[tactic(auto, unfolding(crate::specs::Entries::and_entry))]
fn add_share(index: u32, item: &Value, shares: &mut Vec<Option<u32>>) -> Result<(), ConfigFault>
    requires { All HasShare shares.old.items }
    ensures read { Gives (λ _. shares.new.items) result
        (and_share index shares.old.items (view item.now)) }
    ensures range { IfOk result (λ _. All HasShare shares.new.items) }
{
    let entry = entry_at(Part::Client, index, item)?;
    let share = entry.number(&CLIENT_SHARE)?;
    shares.push(share).map_err(|_| ConfigFault::NoMemory)
}

fn pools_from(alloc: Global, items: &[Value]) -> Result<Vec<Pool>, ConfigFault>
    requires { length items.now ≤ pools_max }
    ensures read { Gives (λ pools. pools.items) result (pools_from (items_view items.now)) }
    ensures few { IfOk result (λ pools. length pools.items ≤ pools_max) }
    ensures range { IfOk result (λ pools. All IsPool pools.items) }
{
    let mut pools = Vec::new(alloc);
    for (place, item) in items.iter().enumerate() {
        add_pool(alloc, place as u32 + 1, item, &mut pools)?;
    }
    Ok(pools)
}

// Adds the pool that an item is.
#[tactic(auto, unfolding(crate::specs::Entries::and_entry))]
fn add_pool(
    alloc: Global,
    index: u32,
    item: &Value,
    pools: &mut Vec<Pool>,
) -> Result<(), ConfigFault>
    requires { All IsPool pools.old.items }
    ensures read { Gives (λ _. pools.new.items) result
        (and_pool index pools.old.items (view item.now)) }
    ensures range { IfOk result (λ _. All IsPool pools.new.items) }
{
    let entry = entry_at(Part::Pool, index, item)?;
    let pool = read_pool(alloc, pools, &entry)?;
    pools.push(pool).map_err(|_| ConfigFault::NoMemory)
}

fn groups_from<'a>(
    alloc: Global,
    pools: &[Pool],
    items: &'a [Value],
) -> Result<Vec<Group<'a>>, ConfigFault>
    requires few { length items.now ≤ groups_max }
    requires pools { length pools.now ≤ pools_max }
    ensures read { Gives (λ groups. groups_seen groups.items) result
        (groups_from pools.now (items_view items.now)) }
    ensures range { IfOk result
        (λ groups. All (IsGroup (length pools.now)) (groups_seen groups.items)) }
{
    let mut groups = Vec::new(alloc);
    for (place, item) in items.iter().enumerate() {
        add_group(alloc, pools, place as u32 + 1, item, &mut groups)?;
    }
    Ok(groups)
}

// Adds the group that an item is.
#[tactic(auto, unfolding(crate::specs::Entries::and_entry))]
fn add_group<'a>(
    alloc: Global,
    pools: &[Pool],
    index: u32,
    item: &'a Value,
    groups: &mut Vec<Group<'a>>,
) -> Result<(), ConfigFault>
    requires pools { length pools.now ≤ pools_max }
    requires range { All (IsGroup (length pools.now)) (groups_seen groups.old.items) }
    ensures read { Gives (λ _. groups_seen groups.new.items) result
        (and_group pools.now index (groups_seen groups.old.items) (view item.now)) }
    ensures range { IfOk result
        (λ _. All (IsGroup (length pools.now)) (groups_seen groups.new.items)) }
{
    let entry = entry_at(Part::Group, index, item)?;
    let group = read_group(alloc, pools, groups, &entry)?;
    groups.push(group).map_err(|_| ConfigFault::NoMemory)
}

fn users_from<'a>(
    alloc: Global,
    pools: &[Pool],
    groups: &[Group<'a>],
    items: &'a [Value],
) -> Result<Users, ConfigFault>
    requires few { length items.now ≤ users_max }
    requires pools { length pools.now ≤ pools_max }
    requires groups { All (IsGroup (length pools.now)) (groups_seen groups.now) }
    ensures read { Gives (λ users. users) result
        (users_from pools.now (groups_seen groups.now) (items_view items.now)) }
    ensures range { IfOk result (All (IsUser (length pools.now))) }
{
    let mut users = Users::new(alloc);
    for (place, item) in items.iter().enumerate() {
        let beside = Beside { pools, groups };
        add_user(alloc, &beside, place as u32 + 1, item, &mut users)?;
    }
    Ok(users)
}

// What a user's entry is read beside.
#[derive(Clone, Copy)]
struct Beside<'g, 'a> {
    pools: &'g [Pool],
    groups: &'g [Group<'a>],
}

// Adds the user that an item is.
#[tactic(auto, unfolding(crate::specs::Entries::and_entry))]
fn add_user<'a>(
    alloc: Global,
    beside: &Beside<'_, 'a>,
    index: u32,
    item: &'a Value,
    users: &mut Users,
) -> Result<(), ConfigFault>
    requires room { length users.old < users_max }
    requires pools { length beside.now.pools.now ≤ pools_max }
    requires groups { All (IsGroup (length beside.now.pools.now))
        (groups_seen beside.now.groups.now) }
    requires range { All (IsUser (length beside.now.pools.now)) users.old }
    ensures read { Gives (λ _. users.new) result (and_user beside.now.pools.now
        (groups_seen beside.now.groups.now) index users.old (view item.now)) }
    ensures range { IfOk result (λ _. All (IsUser (length beside.now.pools.now)) users.new) }
{
    let entry = entry_at(Part::User, index, item)?;
    let said = read_user(alloc, beside.pools, beside.groups, users, &entry)?;
    let user = said.into_user(alloc).map_err(|_| ConfigFault::NoMemory)?;
    users.add(user).map_err(|_| ConfigFault::NoMemory)
}
