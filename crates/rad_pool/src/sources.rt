//! How many open sessions each source has.
ghost use Rattle.std.specs.Prelude.{◌≡◌, ◌≤◌, ◌<◌, ◌+◌, ◌-◌, ◌^◌, ◌==◌, ◌&&◌, ℕ, cond};
ghost use Rattle.indexmap.specs.IndexMap.{spare};
ghost use Rattle.rad_pool.specs.Sessions.{is_open};
ghost use Rattle.rad_pool.specs.Sources.{HasNoZero, count_at};

use crate::session::Phase;
use indexmap::IndexMap;
use rad_rows::HashKey;

/// One open session more of a source. Memory was made ready for it.
pub(crate) fn add_open(counts: &mut IndexMap<u32, u64, HashKey>, source: u32)
    requires { 0 < spare counts.old }
    ensures is { (other : ℕ) → count_at counts.old.entries source + 1 < 2 ^ 64 →
        count_at counts.new.entries other
        ≡ count_at counts.old.entries other + cond (source == other) 1 0 }
    ensures only { HasNoZero counts.old.entries → HasNoZero counts.new.entries }
{
    if let Some(count) = counts.get_mut(&source) {
        *count = count.saturating_add(1);
        return;
    }
    let _room = counts.insert(source, 1);
}

/// One open session less of a source, if the session of this phase was open. A source without one is taken out.
pub(crate) fn remove_open(counts: &mut IndexMap<u32, u64, HashKey>, source: u32, phase: Phase)
    ensures is { (other : ℕ) → count_at counts.new.entries other
        ≡ count_at counts.old.entries other - cond ((source == other) && is_open phase) 1 0 }
    ensures only { HasNoZero counts.old.entries → HasNoZero counts.new.entries }
    ensures room { spare counts.old ≤ spare counts.new }
{
    if phase == Phase::Ended {
        return;
    }
    let Some(count) = counts.get_mut(&source) else {
        return;
    };
    *count = count.saturating_sub(1);
    if *count == 0 {
        counts.swap_remove(&source);
    }
}
