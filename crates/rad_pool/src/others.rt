//! How many sessions have each address of no pool, as a user's own. An address that none has is not there.
ghost use Rattle.std.specs.Prelude.{◌≡◌, ◌≤◌, ◌<◌, ◌+◌, ◌-◌, ◌^◌, ◌==◌, ℕ, cond};
ghost use Rattle.indexmap.specs.IndexMap.{spare};
ghost use Rattle.rad_pool.specs.Others.{uses_of};

use indexmap::IndexMap;
use rad_rows::HashKey;

/// How many sessions have an address, ended ones included, and the number of the one that got it last.
#[derive(Clone, Copy)]
pub(crate) struct Uses {
    pub(crate) count: u64,
    pub(crate) last: u64,
}

/// One session more has an address. Memory was made ready for it.
pub(crate) fn add(others: &mut IndexMap<u32, Uses, HashKey>, address: u32, number: u64)
    requires { 0 < spare others.old }
    ensures { (other : ℕ) → uses_of others.old.entries other + 1 < 2 ^ 64 →
        uses_of others.new.entries other
        ≡ uses_of others.old.entries other + cond (address == other) 1 0 }
{
    if let Some(uses) = others.get_mut(&address) {
        uses.count = uses.count.saturating_add(1);
        uses.last = number;
        return;
    }
    let first = Uses {
        count: 1,
        last: number,
    };
    let _room = others.insert(address, first);
}

/// One session less has an address.
pub(crate) fn remove(others: &mut IndexMap<u32, Uses, HashKey>, address: u32)
    ensures is { (other : ℕ) → uses_of others.new.entries other
        ≡ uses_of others.old.entries other - cond (address == other) 1 0 }
    ensures room { spare others.old ≤ spare others.new }
{
    let Some(uses) = others.get_mut(&address) else {
        return;
    };
    uses.count = uses.count.saturating_sub(1);
    if uses.count == 0 {
        others.swap_remove(&address);
    }
}

/// How many sessions have an address.
pub(crate) fn get(others: &IndexMap<u32, Uses, HashKey>, address: u32) -> Uses
    ensures { result.count ≡ uses_of others.now.entries address }
{
    match others.get(&address) {
        Some(uses) => *uses,
        None => Uses { count: 0, last: 0 },
    }
}
