//! Whether shares, pools and users are equal.
ghost use Rattle.std.specs.Prelude.{◌≡◌, ◌↔◌, IsTrue};

use crate::pool::Pool;
use crate::user::{User, same_user};

/// Whether both lists have the same pools in the same order.
pub fn same_pools(pools: &[Pool], others: &[Pool]) -> bool
    ensures { IsTrue result ↔ (pools.now ≡ others.now) }
{
    pools.len() == others.len()
        && pools
            .iter()
            .zip(others)
            .all(|(pool, other)| same_pool(pool, other))
}

/// Whether both lists have the same shares in the same order.
pub fn same_shares(shares: &[Option<u32>], others: &[Option<u32>]) -> bool
    ensures { IsTrue result ↔ (shares.now ≡ others.now) }
{
    shares.len() == others.len()
        && shares
            .iter()
            .zip(others)
            .all(|(share, other)| share == other)
}

/// Whether both lists have the same users in the same order.
pub fn same_users(users: &[User], others: &[User]) -> bool
    ensures { IsTrue result ↔ (users.now ≡ others.now) }
{
    users.len() == others.len()
        && users
            .iter()
            .zip(others)
            .all(|(user, other)| same_user(user, other))
}

fn same_pool(pool: &Pool, other: &Pool) -> bool
    ensures { IsTrue result ↔ (pool.now ≡ other.now) }
{
    pool.first == other.first && pool.last == other.last && pool.name.same(&other.name)
}
