//! The configuration of a server.
ghost use Rattle.std.specs.Prelude.{◌≡◌, ◌≤◌, All, IfOk, IfSome, false, length, ok_or};
ghost use Rattle.std.specs.Int.{IsInRange};
ghost use Rattle.toml.specs.Parse.{parse_document};
ghost use Rattle.toml.specs.View.{table_view};
ghost use Rattle.rad_config.specs.Configurations.{is_below, ordered_spans, overlap, pools_max, separate_pools};
ghost use Rattle.rad_config_fault.specs.Faults.{Gives};
ghost use Rattle.rad_config.specs.Ranges.{IsPool};
ghost use Rattle.rad_config.specs.Spans.{milliseconds};

use crate::entry::Entry;
use crate::keys::{HOLD, STALE, WINDOW};
use crate::lists::{read_clients, read_groups, read_pools, read_shares, read_users};
use crate::pool::Pool;
use crate::read_pool::some_overlap;
use crate::same::{same_pools, same_shares, same_users};
use crate::spans::{Spans, Times};
use crate::user::User;
use crate::users::Users;
use rad_auth::Clients;
use rad_config_fault::{ConfigFault, Part};
use std::alloc::Global;
use std::marker::Model;
use toml::Table;

/// What the configuration text of a server says: the spans of its memory, its clients, pools and users.
#[derive(Drop)]
pub struct Config {
    window: u32,
    hold: u32,
    stale: Option<u32>,
    clients: Clients,
    // The share of each client.
    shares: Vec<Option<u32>>,
    pools: Vec<Pool>,
    users: Users,
}

impl Model for Config {
    ghost use Rattle.rad_config.specs.Configurations.{Configuration};
    ghost use Rattle.rad_config.specs.Ranges.{IsConfiguration};

    ghost Value = { Configuration };

    ghost view = { λ config. record {
      window = config.window;
      hold = config.hold;
      stale = config.stale;
      clients = config.clients;
      shares = config.shares.items;
      pools = config.pools.items;
      users = config.users;
    } };

    ghost invariant = { λ config. IsConfiguration (record {
      window = config.window;
      hold = config.hold;
      stale = config.stale;
      clients = config.clients;
      shares = config.shares.items;
      pools = config.pools.items;
      users = config.users;
    }) };
}

impl Config {
    ghost use Rattle.std.specs.Prelude.{◌≡◌, ◌<◌, ◌↔◌, IsTrue, length, slice_get, IfSome, Some};
    ghost use Rattle.rad_config.specs.Configurations.{configuration_of, share_of, user_place};
    ghost use Rattle.rad_config_fault.specs.Faults.{Gives};
    ghost use Rattle.rad_config.specs.Ranges.{HasShare, IsConfiguration, IsPool, IsUser};
    ghost use Rattle.rad_config.specs.Spans.{spans_of};

    /// The configuration that a text says, or its first fault.
    ///
    /// The text is TOML; `docs/FORMATS.md` has the table of its keys. Checks are made in this order: `Syntax`; the keys at the top,
    /// then `HoldBelowWindow`, then `StaleBelowWindow`; the clients, and then their shares; the pools, then `PoolsOverlap`; the
    /// groups; the users. A list must be an array (`BadValue`), and not too long (`TooMany`); then each entry is checked in order,
    /// key by key in the table's order. If an allocation fails, `NoMemory` is returned before any later check.
    #[tactic(auto, unfolding(crate::specs::Configurations::configuration_of, crate::specs::Configurations::separate_pools))]
    pub fn read(alloc: Global, text: &str) -> Result<Config, ConfigFault>
        ensures { Gives (λ config. config) result (configuration_of text.now) }
    {
        let document = document(alloc, text)?;
        let spans = ordered_spans(&document)?;
        let clients = read_clients(alloc, &document)?;
        let shares = read_shares(alloc, &document)?;
        let pools = separate_pools(alloc, &document)?;
        let groups = read_groups(alloc, &pools, &document)?;
        let users = read_users(alloc, &pools, &groups, &document)?;
        let Times {
            window,
            hold,
            stale,
        } = spans;
        Ok(Config {
            window,
            hold,
            stale,
            clients,
            shares,
            pools,
            users,
        })
    }

    /// How long a repeated request gets the kept reply, in seconds: 1 to 3,600. An ended session keeps its address until this
    /// long after it was made.
    pub fn window(&self) -> u32
        ensures value { result ≡ self.now.window }
        ensures configuration { IsConfiguration self.now }
    {
        self.window
    }

    /// How long an address is held for a session that hasn't reported its start, and a challenge can be answered, in seconds:
    /// from `window` to 86,400.
    pub fn hold(&self) -> u32
        ensures value { result ≡ self.now.hold }
        ensures configuration { IsConfiguration self.now }
    {
        self.hold
    }

    /// How long an active session of which nothing is heard lives on, in seconds: from `window` to 604,800. If it is absent,
    /// such a session lives on until it is stopped.
    pub fn stale(&self) -> Option<u32>
        ensures value { result ≡ self.now.stale }
        ensures configuration { IsConfiguration self.now }
    {
        self.stale
    }

    /// The same spans in milliseconds.
    pub fn spans(&self) -> Spans
        ensures value { result ≡ spans_of self.now }
        ensures configuration { IsConfiguration self.now }
    {
        let Config {
            window,
            hold,
            stale,
            ..
        } = self;
        Spans {
            window: milliseconds(*window),
            hold: milliseconds(*hold),
            stale: stale.map(milliseconds),
        }
    }

    /// The clients in the order of the text.
    pub fn clients(&self) -> &Clients
        ensures value { result.now ≡ self.now.clients }
        ensures configuration { IsConfiguration self.now }
    {
        &self.clients
    }

    /// The percentage that the client at a place may have of the replies that can be kept, and of the challenges that can wait:
    /// 1 to 100. Without a share only the tables' sizes limit it.
    pub fn share(&self, client: u32) -> Option<u32>
        ensures value { result ≡ share_of self.now client }
        ensures range { HasShare result }
    {
        *self.shares.get(client as usize)?
    }

    /// The shares of the clients, in the order of the text.
    pub fn shares(&self) -> &[Option<u32>]
        ensures value { result.now ≡ self.now.shares }
        ensures configuration { IsConfiguration self.now }
    {
        &self.shares
    }

    /// The pools in the order of the text.
    pub fn pools(&self) -> &[Pool]
        ensures value { result.now ≡ self.now.pools }
        ensures configuration { IsConfiguration self.now }
    {
        &self.pools
    }

    /// The users in the order of the text.
    pub fn users(&self) -> &[User]
        ensures value { result.now ≡ self.now.users }
        ensures configuration { IsConfiguration self.now }
    {
        self.users.rows()
    }

    /// The place of the user with this name, octet for octet.
    pub fn user(&self, name: &[u8]) -> Option<u32>
        ensures value { result ≡ user_place self.now.users name.now }
        ensures within { IfSome result (λ place. place < length self.now.users) }
    {
        self.users.find(name)
    }

    /// The user at a place that is there.
    pub fn user_at(&self, place: u32) -> &User
        requires { place < length self.now.users }
        ensures value { slice_get self.now.users place ≡ Some result.now }
        ensures range { IsUser (length self.now.pools) result.now }
    {
        &self.users()[place as usize]
    }

    /// The pool at a place that is there.
    pub fn pool_at(&self, place: u32) -> &Pool
        requires { place < length self.now.pools }
        ensures value { slice_get self.now.pools place ≡ Some result.now }
        ensures range { IsPool result.now }
    {
        &self.pools()[place as usize]
    }

    /// Whether the other configuration says the same.
    pub fn same(&self, other: &Config) -> bool
        ensures { IsTrue result ↔ (self.now ≡ other.now) }
    {
        let Config {
            window,
            hold,
            stale,
            clients,
            shares,
            pools,
            users,
        } = self;
        *window == other.window
            && *hold == other.hold
            && *stale == other.stale
            && clients.same(&other.clients)
            && same_shares(shares, &other.shares)
            && same_pools(pools, &other.pools)
            && same_users(users.rows(), other.users.rows())
    }
}

// The document that the text is.
fn document(alloc: Global, text: &str) -> Result<Table, ConfigFault>
    ensures { Gives table_view result (ok_or (parse_document text.now) ConfigFault.Syntax) }
{
    toml::table_from_str(alloc, text).map_err(|error| {
        if error.is_memory() {
            ConfigFault::NoMemory
        } else {
            ConfigFault::Syntax
        }
    })
}

fn milliseconds(seconds: u32) -> u64
    ensures { result ≡ milliseconds seconds }
{
    u64::from(seconds) * 1_000
}

// Window, hold and stale; neither of the last two is below the window.
#[tactic(auto, unfolding(crate::specs::Configurations::ordered_spans))]
fn ordered_spans(document: &Table) -> Result<Times, ConfigFault>
    ensures read { Gives (λ spans. spans) result (ordered_spans (table_view document.now)) }
    ensures window { IfOk result (λ spans. IsInRange 1 3600 spans.window) }
    ensures hold { IfOk result (λ spans. IsInRange spans.window 86400 spans.hold) }
    ensures stale { IfOk result (λ spans. IfSome spans.stale (IsInRange spans.window 604800)) }
{
    let top = Entry {
        part: Part::Top,
        index: 0,
        table: document,
    };
    let window = top.number_or_default(&WINDOW)?;
    let hold = top.number_or_default(&HOLD)?;
    let stale = top.number(&STALE)?;
    if is_below(Some(hold), window) {
        return Err(ConfigFault::HoldBelowWindow);
    }
    if is_below(stale, window) {
        return Err(ConfigFault::StaleBelowWindow);
    }
    Ok(Times {
        window,
        hold,
        stale,
    })
}

// Whether a time is there, and below the window.
fn is_below(time: Option<u32>, window: u32) -> bool
    ensures { result ≡ is_below time window }
{
    time.is_some_and(|time| time < window)
}

// The pools of a document, no two of which share an address.
#[tactic(auto, unfolding(crate::specs::Configurations::separate_pools))]
fn separate_pools(alloc: Global, document: &Table) -> Result<Vec<Pool>, ConfigFault>
    ensures read { Gives (λ pools. pools.items) result (separate_pools (table_view document.now)) }
    ensures few { IfOk result (λ pools. length pools.items ≤ pools_max) }
    ensures range { IfOk result (λ pools. All IsPool pools.items) }
    ensures apart { IfOk result (λ pools. overlap pools.items ≡ false) }
{
    let pools = read_pools(alloc, document)?;
    if some_overlap(&pools) {
        return Err(ConfigFault::PoolsOverlap);
    }
    Ok(pools)
}
