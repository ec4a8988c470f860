//! The moment at which a server goes on.
ghost use Rattle.std.specs.Prelude.{◌≡◌, ◌≤◌, pos, min, IfOk, OnOk};
ghost use Rattle.sqlite_value.specs.Order.{column};
ghost use Rattle.sqlite_value.specs.declared.value.Value.TheVariants.{Int};
ghost use Rattle.sqlite_trees.specs.Tree.{Trees};
ghost use Rattle.sqlite_trees.specs.View.{IsClean, doubt};
ghost use Rattle.sqlite_trees.specs.declared.store.Shape.TheVariants.{Table};
ghost use Rattle.rad_journal.specs.Rows.{at_moment, at_wall, entries_of, table};
ghost use Rattle.rad_journal.specs.Stores.{OnlyReads};
ghost use Rattle.rad_state.specs.Moments.{IsMoment, by_wall, in_boot, last_of, moment_of};

use crate::meta::Meta;
use crate::open_fault::OpenFault;
use rad_config::MOMENT_MAX;
use sqlite_trees::store::{Direction, Store};
use sqlite_value::row::Row;
use sqlite_value::value::ValueRef;
use std::alloc::Global;

// The number of the journal's tree.
const JOURNAL: u32 = 0;

// The columns of an entry's row.
const WALL: usize = 1;

const MOMENT: usize = 2;

/// The times of the last entry, or of the beginning of a generation that has none.
#[derive(Clone, Copy)]
pub struct Last {
    /// The wall time, in milliseconds since 1970.
    pub wall: u64,
    /// The moment, in milliseconds.
    pub moment: u64,
}

/// What the clocks show now.
#[derive(Clone, Copy)]
pub struct Clocks {
    /// The boot's id.
    pub boot: [u8; 16],
    /// The time since that boot, in milliseconds.
    pub running: u64,
    /// The wall time, in milliseconds since 1970.
    pub wall: u64,
}

/// The moment now, given the meta of a generation and the times up to which it goes.
///
/// In the same boot the boot clock has gone on, and after another boot the wall clock has, by 0 where it was set back. The moment
/// is no earlier than those times', also where the boot clock shows less, and never above `MOMENT_MAX`.
pub fn next_moment(meta: &Meta, last: Last, now: &Clocks) -> u64
    requires last { last.moment ≤ MOMENT_MAX }
    requires running { now.now.running ≤ MOMENT_MAX }
    ensures moment { IsMoment meta.now last now.now result }
    ensures later { last.moment ≤ result }
    ensures bounded { result ≤ MOMENT_MAX }
{
    let moment = if meta.boot == now.boot {
        in_boot(meta.zero, now.running).max(last.moment)
    } else {
        by_wall(last, now.wall)
    };
    moment.min(MOMENT_MAX)
}

// The moment in the boot whose clock showed `zero` at moment 0, as far as it may be.
fn in_boot(zero: i64, running: u64) -> u64
    requires { running ≤ MOMENT_MAX }
    ensures { min result MOMENT_MAX ≡ min (in_boot zero running) MOMENT_MAX }
{
    let since = (running as i64).saturating_sub(zero);
    u64::try_from(since).unwrap_or(0)
}

// The moment after the last entry's, by the wall clock, as far as it may be.
fn by_wall(last: Last, wall: u64) -> u64
    requires { last.moment ≤ MOMENT_MAX }
    ensures capped { min result MOMENT_MAX ≡ min (by_wall last wall) MOMENT_MAX }
    ensures later { last.moment ≤ result }
{
    last.moment.saturating_add(wall.saturating_sub(last.wall))
}

/// The times of the last entry in a store's first table, if there is one.
///
/// `Damaged`: its row has no such times, or its moment is above `MOMENT_MAX`.
pub fn read_last<S: Store>(alloc: Global, store: &mut S) -> Result<Option<Last>, OpenFault>
    requires shape { IsClean (S.view store.old) → (S.view store.old).shape table ≡ Table }
    ensures last { IfOk result (λ last. IsClean (S.view store.new)
        → last ≡ last_of (entries_of ((S.view store.old).trees table))) }
    ensures bounded { IfOk result (λ last. moment_of last ≤ MOMENT_MAX) }
    ensures same { OnOk result (IsClean (S.view store.new)
        → OnlyReads (S.view store.old) (S.view store.new)) }
    ensures clean { doubt (S.view store.old).is_clean ≤ doubt (S.view store.new).is_clean }
    ensures outcomes { (db : Trees) → S.recovers store.new db → S.recovers store.old db }
{
    let key = Row::new(alloc);
    let mut row = Row::new(alloc);
    store.seek(0, JOURNAL, &key, Direction::Backward)?;
    if !store.next(0, &mut row)? {
        return Ok(None);
    }
    let last = times(&row)?;
    Ok(Some(last))
}

// The times of an entry's row.
fn times(row: &Row) -> Result<Last, OpenFault>
    ensures wall { IfOk result (λ last. column row.now at_wall ≡ Int (pos last.wall)) }
    ensures moment { IfOk result (λ last. column row.now at_moment ≡ Int (pos last.moment)) }
    ensures bounded { IfOk result (λ last. last.moment ≤ MOMENT_MAX) }
{
    let wall = number(row, WALL)?;
    let moment = number(row, MOMENT)?;
    if MOMENT_MAX < moment {
        return Err(OpenFault::Damaged);
    }
    Ok(Last { wall, moment })
}

// The number in a column, from 0 up.
fn number(row: &Row, at: usize) -> Result<u64, OpenFault>
    ensures { IfOk result (λ n. column row.now at ≡ Int (pos n)) }
{
    let ValueRef::Int(n) = row.get(at) else {
        return Err(OpenFault::Damaged);
    };
    match u64::try_from(n) {
        Ok(n) => Ok(n),
        Err(_) => Err(OpenFault::Damaged),
    }
}
