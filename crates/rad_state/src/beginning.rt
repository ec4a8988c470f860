//! The beginning of a generation in a store.
ghost use Rattle.std.specs.Prelude.{◌≡◌, ◌≤◌, OnOk};
ghost use Rattle.sqlite_trees.specs.Tree.{put_row};
ghost use Rattle.sqlite_trees.specs.View.{IsClean, IsQuiet, KeepsSchema, OnlyWrites, SetsTree, doubt};
ghost use Rattle.sqlite_trees.specs.declared.store.Shape.TheVariants.{Table};
ghost use Rattle.rad_journal.specs.Stores.{IsFresh};
ghost use Rattle.rad_state.specs.Metas.{meta_row, meta_table};
ghost use Rattle.rad_state.specs.Stores.{Begins, IsBlank, LeavesBeginning};

use crate::meta::{Meta, fill};
use crate::meta_table::META;
use rad_journal::JournalFault;
use rad_server::Server;
use sqlite_trees::store::Store;
use sqlite_value::row::Row;
use std::alloc::Global;

/// Writes the beginning of a generation into a blank store: the snapshot of a server and the meta, in one commit.
///
/// A crash leaves both or no meta. After an error the store has to be opened again. `NoRoom`: the disk has none, or the
/// configuration is too long for a row. `Full`: a number or a moment is 2 ^ 63 or more.
pub fn write_generation<S: Store>(
    alloc: Global,
    store: &mut S,
    meta: &Meta,
    server: &Server,
) -> Result<(), JournalFault>
    requires blank { IsClean (S.view store.old) → IsBlank (S.view store.old) }
    ensures fresh { OnOk result (IsClean (S.view store.new) → IsFresh (S.view store.new)) }
    ensures begins { OnOk result (IsClean (S.view store.new)
        → Begins (S.view store.new).committed meta.now server.now.state) }
    ensures crash { IsClean (S.view store.new)
        → LeavesBeginning (S.recovers store.new) meta.now server.now.state }
    ensures clean { doubt (S.view store.old).is_clean ≤ doubt (S.view store.new).is_clean }
{
    rad_snapshot::write(alloc, store, server)?;
    put(alloc, store, meta)?;
    store.commit()?;
    Ok(())
}

// Puts the meta's row, with no commit.
fn put<S: Store>(alloc: Global, store: &mut S, meta: &Meta) -> Result<(), JournalFault>
    requires { IsClean (S.view store.old) → (S.view store.old).shape meta_table ≡ Table }
    ensures ok { OnOk result (IsClean (S.view store.new) → SetsTree (S.view store.old)
        (S.view store.new) meta_table (put_row (meta_row meta.now))) }
    ensures frame { OnOk result (IsClean (S.view store.new)
        → OnlyWrites (S.view store.old) (S.view store.new)) }
    ensures schema { KeepsSchema (S.view store.old) (S.view store.new) }
    ensures quiet { IsQuiet S.view S.faults S.recovers S.is_shielded store.old store.new }
{
    let mut row = Row::new(alloc);
    fill(&mut row, meta)?;
    store.put(META, &row)?;
    Ok(())
}
