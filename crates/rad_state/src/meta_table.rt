//! The meta in a store's table.
ghost use Rattle.std.specs.Prelude.{◌≡◌, ◌⊎◌, ◌≤◌, Err, IfOk, OnOk};
ghost use Rattle.sqlite_disk.specs.Disk.{MoreFaults};
ghost use Rattle.sqlite_trees.specs.Tree.{Trees};
ghost use Rattle.sqlite_trees.specs.View.{IsClean, doubt};
ghost use Rattle.sqlite_trees.specs.declared.store.Shape.TheVariants.{Table};
ghost use Rattle.rad_journal.specs.Stores.{OnlyReads};
ghost use Rattle.rad_state.specs.Metas.{AreNoMetas, meta_rows, meta_table};
ghost use Rattle.rad_state.specs.declared.open_fault.OpenFault.TheVariants.{Damaged};

use crate::meta::{Meta, meta_in};
use crate::open_fault::OpenFault;
use sqlite_trees::store::{Direction, Store};
use sqlite_value::row::Row;
use std::alloc::Global;

/// The number of the table's tree.
pub(crate) const META: u32 = 3;

/// The meta of a store's second table, if it has one.
///
/// `Damaged`: the table has another row or more than one, or what was read is not what was written.
pub(crate) fn read_meta<S: Store>(alloc: Global, store: &mut S) -> Result<Option<Meta>, OpenFault>
    requires shape { IsClean (S.view store.old)
        → (S.view store.old).shape meta_table ≡ Table }
    ensures found { IfOk result (λ meta. IsClean (S.view store.new)
        → (S.view store.old).trees meta_table ≡ meta_rows meta) }
    ensures damaged { result ≡ Err Damaged → IsClean (S.view store.new)
        → MoreFaults (S.faults store.old) (S.faults store.new)
        ⊎ AreNoMetas ((S.view store.old).trees meta_table) }
    ensures same { OnOk result (IsClean (S.view store.new)
        → OnlyReads (S.view store.old) (S.view store.new)) }
    ensures clean { doubt (S.view store.old).is_clean ≤ doubt (S.view store.new).is_clean }
    ensures outcomes { (db : Trees) → S.recovers store.new db → S.recovers store.old db }
{
    let key = Row::new(alloc);
    let mut row = Row::new(alloc);
    store.seek(0, META, &key, Direction::Forward)?;
    if !store.next(0, &mut row)? {
        return Ok(None);
    }
    let meta = meta_in(alloc, &row)?;
    if store.next(0, &mut row)? {
        return Err(OpenFault::Damaged);
    }
    Ok(Some(meta))
}
