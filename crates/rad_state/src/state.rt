//! A state that was just opened.
ghost use Rattle.std.specs.Prelude.{◌≡◌, ◌≤◌, ◌^◌, is_some, IfOk, IfSome, IsSome, IsTrue, None, Ok, OnOk, Some, option_copied};
ghost use Rattle.sqlite_trees.specs.View.{IsClean, doubt};
ghost use Rattle.rad_config.specs.Configurations.{configuration_of_octets};
ghost use Rattle.rad_journal.specs.Rows.{entries_of, table};
ghost use Rattle.rad_state.specs.Fits.{Fits};
ghost use Rattle.rad_state.specs.Generations.{OneBase, Says};
ghost use Rattle.rad_state.specs.Metas.{meta_rows, meta_table};
ghost use Rattle.rad_state.specs.Moments.{last_of, moment_of};
ghost use Rattle.rad_state.specs.Stores.{IsOpened};
ghost use Rattle.rad_state.specs.declared.meta.Meta.{Meta};

use crate::meta::Meta;
use crate::meta_table::read_meta;
use crate::moments::{Last, read_last};
use crate::open_fault::OpenFault;
use rad_config::{Config, MOMENT_MAX};
use rad_journal::StoreJournal;
use rad_server::{HashKey, Server};
use rad_snapshot::snapshots_differ;
use sqlite_trees::store::Store;
use std::alloc::Global;

/// A store that was just opened, with the meta and the times of the last entry that it has kept.
#[derive(Drop)]
pub struct State<S: Store> {
    store: S,
    found: Option<Meta>,
    last: Option<Last>,
    ghost opened: { IsClean (S.view store) → IsOpened (S.view store) },
    ghost metas: { IsClean (S.view store)
        → (S.view store).committed meta_table ≡ meta_rows found },
    ghost times: { IsClean (S.view store)
        → last ≡ last_of (entries_of ((S.view store).committed table)) },
    ghost bounded: { moment_of last ≤ 2 ^ 62 },
    ghost begun: { found ≡ None → last ≡ None },
}

impl<S: Store + Drop> State<S> {
    ghost use Rattle.sqlite_trees.specs.Tree.{Trees};

    /// The state of a store that was just opened, if what it has kept can be gone on from.
    ///
    /// `OtherFormat`, `OtherRules`: as `Meta::check` says of the meta, where there is one. `Damaged`: the table of the meta has
    /// another row or more than one, the last entry's row has no times, or there are entries and no meta.
    pub fn open(alloc: Global, store: S) -> Result<State<S>, OpenFault>
        requires { IsClean (S.view store) → IsOpened (S.view store) }
        ensures fits { IfOk result (λ state.
            IfSome state.found (λ meta. Fits meta (is_some state.last))) }
        ensures begun { IfOk result (λ state. state.found ≡ None → state.last ≡ None) }
        ensures times { IfOk result (λ state. IsClean (S.view state.store)
            → state.last ≡ last_of (entries_of ((S.view store).committed table))) }
        ensures metas { IfOk result (λ state. IsClean (S.view state.store)
            → (S.view store).committed meta_table ≡ meta_rows state.found) }
        ensures kept { IfOk result (λ state. IsClean (S.view state.store)
            → (S.view state.store).committed ≡ (S.view store).committed) }
        ensures clean { IfOk result (λ state.
            doubt (S.view store).is_clean ≤ doubt (S.view state.store).is_clean) }
        ensures crash { IfOk result (λ state. (db : Trees)
            → S.recovers state.store db → S.recovers store db) }
    {
        let mut store = store;
        let found = read_meta(alloc, &mut store)?;
        let last = read_last(alloc, &mut store)?;
        check(&found, last.is_some())?;
        Ok(State { store, found, last })
    }

    /// The meta that was kept, if a generation is whole here.
    pub fn found(&self) -> Option<&Meta>
        ensures { option_copied result ≡ self.now.found }
    {
        self.found.as_ref()
    }

    /// The times of the last entry, if there is one.
    pub fn last(&self) -> Option<Last>
        ensures last { result ≡ self.now.last }
        ensures bounded { moment_of result ≤ MOMENT_MAX }
    {
        self.last
    }

    /// The server at which the generation begins, under its configuration, and its journal.
    ///
    /// The key is for the hashes of the server's tables, as `Server::open_keyed` says. `Damaged`: a row is none of an entry or of
    /// the snapshot, or not the next one's. `Snapshot`: the server refuses a row. `JournalFull`: there are more than
    /// `rad_journal::ENTRIES_MAX` entries.
    pub fn into_parts<'c>(
        self,
        alloc: Global,
        config: &'c Config,
        key: HashKey,
    ) -> Result<(Server<'c>, StoreJournal<S>), OpenFault>
        ensures configuration { IfOk result (λ parts. parts.0.configuration ≡ config.now) }
        ensures says { IfOk result (λ parts. IsClean (S.view parts.1.store)
            → (meta : Meta) → self.found ≡ Some meta
            → configuration_of_octets meta.configuration ≡ Ok config.now
            → Says (S.view self.store).committed parts.0) }
        ensures opened { IfOk result (λ parts. IsClean (S.view parts.1.store)
            → IsTrue (S.view parts.1.store).is_open × IsSome parts.1.count) }
        ensures kept { IfOk result (λ parts. IsClean (S.view parts.1.store)
            → entries_of ((S.view parts.1.store).committed table)
            ≡ entries_of ((S.view self.store).committed table)) }
        ensures clean { IfOk result (λ parts.
            doubt (S.view self.store).is_clean ≤ doubt (S.view parts.1.store).is_clean) }
        ensures crash { IfOk result (λ parts. (db : Trees)
            → S.recovers parts.1.store db → S.recovers self.store db) }
    {
        let State {
            store,
            found: _,
            last: _,
        } = self;
        let mut store = store;
        let server = rad_snapshot::read(alloc, &mut store, config, key)?;
        server.state_is_lawful();
        Ok((server, StoreJournal::open(alloc, store)?))
    }
}

// Whether what was kept can be gone on from: without a meta, if nothing was.
fn check(found: &Option<Meta>, has_entries: bool) -> Result<(), OpenFault>
    ensures fits { OnOk result (IfSome found.now (λ meta. Fits meta has_entries)) }
    ensures none { OnOk result (found.now ≡ None → ¬ IsTrue has_entries) }
{
    match found {
        Some(meta) => meta.check(has_entries),
        None if has_entries => Err(OpenFault::Damaged),
        None => Ok(()),
    }
}

/// A file says of one server alone that its generation begins there.
///
/// The call costs nothing: it does nothing at run time.
pub fn bases_differ()
    ensures { OneBase }
{
    snapshots_differ();
}
