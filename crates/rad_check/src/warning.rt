//! Warnings.
ghost use Rattle.std.specs.Prelude.{◌≡◌, is_some};
ghost use Rattle.std.specs.List.{list_any};
ghost use Rattle.rad_check.specs.Warnings.{applies, are_unshared, gives_addresses, has_address, has_pool, is_held_briefly};

use rad_config::{Config, User};

/// A `hold` below this, in seconds, is short where there are addresses: a session whose Start comes later loses its address.
pub const SHORT_HOLD: u32 = 120;

/// What may be wrong with a configuration, though it can be served.
#[derive(Clone, Copy, Debug, PartialEq, Eq)]
pub enum Warning {
    /// There are no clients: every datagram is discarded.
    NoClient,
    /// There are no users: every log-in is rejected.
    NoUser,
    /// There are pools, or users with an address of their own, and `hold` is below `SHORT_HOLD`.
    ShortHold,
    /// There are several clients, and none has a share: one of them can fill what all need.
    NoShare,
    /// No user has the pool at this place.
    IdlePool(u32),
}

impl Warning {
    /// Whether it applies to a configuration.
    pub fn applies(self, config: &Config) -> bool
        ensures { result ≡ applies config.now self }
    {
        match self {
            Warning::NoClient => config.clients().is_empty(),
            Warning::NoUser => config.users().is_empty(),
            Warning::ShortHold => is_held_briefly(config),
            Warning::NoShare => are_unshared(config),
            Warning::IdlePool(place) => !has_user(config, place),
        }
    }
}

// Whether there are addresses, which are held for less than `SHORT_HOLD`.
fn is_held_briefly(config: &Config) -> bool
    ensures { result ≡ is_held_briefly config.now }
{
    gives_addresses(config) && config.hold() < SHORT_HOLD
}

// Whether sessions may have addresses.
fn gives_addresses(config: &Config) -> bool
    ensures { result ≡ gives_addresses config.now }
{
    !config.pools().is_empty() || some_address(config)
}

// Whether a user has an address of their own.
fn some_address(config: &Config) -> bool
    ensures { result ≡ list_any has_address config.now.users }
{
    config.users().iter().any(|user| has_address(user))
}

fn has_address(user: &User) -> bool
    ensures { result ≡ has_address user.now }
{
    user.address.is_some()
}

// Whether there are several clients, of which none has a share.
fn are_unshared(config: &Config) -> bool
    ensures { result ≡ are_unshared config.now }
{
    config.clients().len() > 1 && !some_share(config)
}

// Whether a client has a share.
fn some_share(config: &Config) -> bool
    ensures { result ≡ list_any is_some config.now.shares }
{
    config.shares().iter().any(|share| is_some(share))
}

fn is_some(share: &Option<u32>) -> bool
    ensures { result ≡ is_some share.now }
{
    share.is_some()
}

// Whether a user has the pool at a place.
fn has_user(config: &Config, place: u32) -> bool
    ensures { result ≡ list_any (has_pool place) config.now.users }
{
    config.users().iter().any(|user| has_pool(user, place))
}

fn has_pool(user: &User, place: u32) -> bool
    ensures { result ≡ has_pool place user.now }
{
    match user.pool {
        Some(own) => own == place,
        None => false,
    }
}
