//! Stores in memory with the tables of a generation, and what two exchanges leave there.
ghost use Rattle.std.specs.Prelude.{◌≡◌, ◌≤◌, true, IfOk, IfSome, IsSome, IsTrue, OnSome};
ghost use Rattle.sqlite_trees.specs.Memory.{memory_view};
ghost use Rattle.sqlite_trees.specs.View.{IsClean};
ghost use Rattle.sqlite_trees.specs.declared.store.Shape.TheVariants.{Table};
ghost use Rattle.rad_config.specs.Spans.{moment_max};
ghost use Rattle.rad_journal.specs.Stores.{IsFresh};
ghost use Rattle.rad_snapshot.specs.Snapshots.{AreEmpty, HasTables};
ghost use Rattle.rad_state.specs.Fits.{Fits};
ghost use Rattle.rad_state.specs.Metas.{meta_table};
ghost use Rattle.rad_state.specs.Stores.{IsBlank, IsOpened};

use crate::requests::{NEMO, START, Sent, admit};
use rad_config::Config;
use rad_journal::{Journal, Kept, StoreJournal};
use rad_packet::Octets;
use rad_server::{Book, Server};
use rad_state::{FORMAT, Meta, RULES, write_generation};
use sqlite_trees::memory::MemStore;
use sqlite_trees::store::{Shape, Store};
use std::alloc::{AllocError, Global};
use test_common::{CAMPUS, DRAW, table};

/// The wall time of the exchanges, in milliseconds since 1970.
pub(crate) const WALL: u64 = 1_700_000_000_000;

/// The moment of the last exchange, in milliseconds.
pub(crate) const LAST_MOMENT: u64 = 5000;

/// A book with nemo's log-in and a Start.
pub(crate) fn two_exchanges<'c>(alloc: Global, config: &'c Config) -> Option<Book<'c>> {
    let server = Server::open(alloc, config).ok()?;
    let mut book = Book::open(alloc, &server).ok()?;
    if exchanges(&mut book, NEMO, 0) && exchanges(&mut book, START, LAST_MOMENT) {
        return Some(book);
    }
    None
}

fn exchanges(book: &mut Book, sent: Sent, moment: u64) -> bool
    requires { moment ≤ moment_max }
{
    match admit(book.server().config().clients(), sent) {
        Some(request) => book.exchange(1, &request, moment, DRAW).is_ok(),
        None => false,
    }
}

/// What is kept of the two.
pub(crate) fn kept_of(alloc: Global, book: &Book) -> Option<Vec<Kept>> {
    if book.history().len() != 2 {
        return None;
    }
    rad_journal::keep(alloc, WALL, 0, book.history(), &[true, true]).ok()
}

pub(crate) fn are_same(one: &Kept, other: &Kept) -> bool {
    one.wall == other.wall
        && one.moment == other.moment
        && one.source == other.source
        && one.port == other.port
        && one.door == other.door
        && one.draw == other.draw
        && one.octets.octets() == other.octets.octets()
        && one.answer.octets() == other.answer.octets()
}

/// A meta of the program's numbers, with this text of a configuration.
pub(crate) fn meta(alloc: Global, text: &[u8]) -> Result<Meta, AllocError>
    ensures fits { IfOk result (λ meta. Fits meta true) }
    ensures configuration { IfOk result (λ meta. meta.configuration ≡ text.now) }
{
    Ok(Meta {
        format: FORMAT,
        rules: RULES,
        configuration: Octets::of(alloc, text)?,
        boot: [9; 16],
        zero: -5000,
        wall: WALL as i64,
    })
}

/// A store that was just made: the tables of a generation, with no row.
pub(crate) fn blank(alloc: Global) -> Result<MemStore, AllocError>
    ensures blank { IfOk result (λ store. IsBlank (memory_view store)) }
    ensures empty { IfOk result (λ store. AreEmpty (memory_view store).trees) }
{
    let tables = [
        table("exchange"),
        table("accounting"),
        table("grants"),
        table("meta"),
        table("session"),
        table("reply"),
        table("challenge"),
        table("snapshot"),
    ];
    let store = MemStore::new(alloc, &tables)?;
    Ok(store)
}

/// Whether a store has the four tables of a snapshot.
pub(crate) fn has_tables<S: Store>(store: &S) -> bool
    ensures { IsTrue result → HasTables (S.view store.now) }
{
    store.shape(4) == Shape::Table
        && store.shape(5) == Shape::Table
        && store.shape(6) == Shape::Table
        && store.shape(7) == Shape::Table
}

/// The store, if it has the table of a meta and those of a snapshot.
pub(crate) fn with_tables<S: Store + Drop>(store: S) -> Option<S>
    ensures same { IfSome result (λ it. it ≡ store) }
    ensures meta { OnSome result ((S.view store).shape meta_table ≡ Table) }
    ensures snapshot { OnSome result (HasTables (S.view store)) }
{
    if store.shape(3) != Shape::Table || !has_tables(&store) {
        return None;
    }
    Some(store)
}

// The journal of a store that was just opened, with these entries more.
fn journal_with<S: Store + Drop>(alloc: Global, store: S, kept: &[Kept]) -> Option<StoreJournal<S>>
    requires { IsClean (S.view store) → IsFresh (S.view store) }
    ensures { IfSome result (λ journal. IsClean (S.view journal.store)
        → IsTrue (S.view journal.store).is_open × IsSome journal.count) }
{
    let mut journal = StoreJournal::open(alloc, store).ok()?;
    journal.commit(kept).ok()?;
    Some(journal)
}

// A blank store, in which a generation has begun at a server and kept these entries.
fn begun<S: Store + Drop>(alloc: Global, mut store: S, server: &Server, kept: &[Kept]) -> Option<S>
    requires { IsClean (S.view store) → IsBlank (S.view store) }
    ensures { IfSome result (λ it. IsClean (S.view it) → IsOpened (S.view it)) }
{
    let meta = meta(alloc, CAMPUS.as_bytes()).ok()?;
    write_generation(alloc, &mut store, &meta, server).ok()?;
    let journal = journal_with(alloc, store, kept)?;
    let (store, _count) = journal.into_store()?;
    with_tables(store)
}

/// The store of a generation that begins at a server and has these entries.
pub(crate) fn state_with(alloc: Global, server: &Server, kept: &[Kept]) -> Option<MemStore>
    ensures { IfSome result (λ store.
        IsClean (memory_view store) → IsOpened (memory_view store)) }
{
    begun(alloc, blank(alloc).ok()?, server, kept)
}

/// The journal of a store without a generation, with these entries.
pub(crate) fn open_journal(alloc: Global, kept: &[Kept]) -> Option<StoreJournal<MemStore>> {
    journal_with(alloc, blank(alloc).ok()?, kept)
}
