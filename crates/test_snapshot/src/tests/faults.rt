//! Snapshots that were changed by hand.
use super::holds;
use super::servers::{TEXT, busy};
use super::stores::{gets, puts, read_back, takes, written};
use rad_config::Config;
use rad_journal::JournalFault;
use rad_server::RowFault;
use rad_snapshot::{SnapshotFault, SnapshotTable};
use sqlite_trees::store::Store;
use sqlite_value::row::Row;
use sqlite_value::value::ValueRef;
use std::alloc::{AllocError, Global};
use std::test::Fail;

/// What is done to a snapshot, by the numbers of a tree and of rows.
#[derive(Clone, Copy)]
enum Change {
    /// A row is taken out.
    Without(u32, i64),
    /// A row gets the columns of another.
    Doubled(u32, i64, i64),
    /// Two rows exchange their columns.
    Exchanged(u32, i64, i64),
    /// A column of a row gets another value.
    With(u32, i64, usize, ValueRef<'static>),
}

/// What is reported then.
#[derive(Clone, Copy)]
enum Wanted {
    Damaged,
    /// The row at a place is refused.
    Refused(SnapshotTable, u32, RowFault),
}

/// The trees of a snapshot, as `blank` has them in a store.
const SESSION: u32 = 4;

const REPLY: u32 = 5;

const CHALLENGE: u32 = 6;

const SNAPSHOT: u32 = 7;

/// A change, what is reported then, and what it is.
type Case = (Change, Wanted, &'static str);

// The row with another value in a column.
fn row_with(
    alloc: Global,
    row: &Row,
    other: usize,
    value: ValueRef<'_>,
) -> Result<Row, AllocError> {
    let mut changed = Row::new(alloc);
    for at in 0..row.len() {
        changed.push(if at == other { value } else { row.get(at) })?;
    }
    Ok(changed)
}

// Whether the row gets another value in a column.
fn sets<S: Store>(
    alloc: Global,
    store: &mut S,
    tree: u32,
    row: &Row,
    column: usize,
    value: ValueRef<'_>,
) -> bool {
    match row_with(alloc, row, column, value) {
        Ok(changed) => puts(store, tree, &changed),
        Err(_) => false,
    }
}

// Whether a change is made.
fn changes<S: Store>(alloc: Global, store: &mut S, change: Change) -> bool {
    let mut row = Row::new(alloc);
    let mut other = Row::new(alloc);
    match change {
        Change::Without(tree, rowid) => takes(store, tree, rowid),
        Change::Doubled(tree, from, to) => {
            gets(store, tree, from, &mut row)
                && sets(alloc, store, tree, &row, 0, ValueRef::Int(to))
        }
        Change::Exchanged(tree, one, two) => {
            gets(store, tree, one, &mut row)
                && gets(store, tree, two, &mut other)
                && sets(alloc, store, tree, &row, 0, ValueRef::Int(two))
                && sets(alloc, store, tree, &other, 0, ValueRef::Int(one))
        }
        Change::With(tree, rowid, column, value) => {
            gets(store, tree, rowid, &mut row) && sets(alloc, store, tree, &row, column, value)
        }
    }
}

// What reading the snapshot of a server that is busy reports after a change.
fn fault_after(alloc: Global, config: &Config, change: Change) -> Option<SnapshotFault> {
    let server = busy(alloc, config)?;
    let mut store = written(alloc, &server).ok()?;
    if !changes(alloc, &mut store, change) {
        return None;
    }
    read_back(alloc, &mut store, config).err()
}

// Whether it reports what it must.
fn reports(alloc: Global, config: &Config, change: Change, wanted: Wanted) -> bool {
    let wanted = match wanted {
        Wanted::Damaged => SnapshotFault::Journal(JournalFault::Damaged),
        Wanted::Refused(table, place, fault) => SnapshotFault::Row {
            table,
            place,
            fault,
        },
    };
    fault_after(alloc, config, change) == Some(wanted)
}

#[test]
fn rows_at_fault_are_refused(rt: HostRuntime) -> Result<(), Fail> {
    const SESSIONS: SnapshotTable = SnapshotTable::Sessions;
    const CASES: &[Case] = &[
        (
            Change::Without(SESSION, 3),
            Wanted::Damaged,
            "a session left out",
        ),
        (
            Change::Without(REPLY, 1),
            Wanted::Damaged,
            "the first reply left out",
        ),
        (
            Change::Without(SNAPSHOT, 1),
            Wanted::Damaged,
            "no row of numbers",
        ),
        (
            Change::Exchanged(SESSION, 2, 5),
            Wanted::Refused(SESSIONS, 3, RowFault::Number),
            "two sessions exchanged",
        ),
        (
            Change::Doubled(SESSION, 2, 3),
            Wanted::Refused(SESSIONS, 3, RowFault::Number),
            "a session twice",
        ),
        (
            Change::Doubled(REPLY, 2, 3),
            Wanted::Refused(SnapshotTable::Replies, 3, RowFault::Key),
            "a reply twice",
        ),
        (
            Change::Doubled(SNAPSHOT, 1, 2),
            Wanted::Damaged,
            "two rows of numbers",
        ),
        (
            Change::With(SESSION, 4, 1, ValueRef::Blob(&[7])),
            Wanted::Damaged,
            "a blob for a number",
        ),
        (
            Change::With(SESSION, 4, 2, ValueRef::Int(2)),
            Wanted::Refused(SESSIONS, 4, RowFault::Client),
            "a client that isn't there",
        ),
        (
            Change::With(SESSION, 4, 6, ValueRef::Int(3)),
            Wanted::Damaged,
            "a fourth phase",
        ),
        (
            Change::With(REPLY, 1, 3, ValueRef::Int(65_536)),
            Wanted::Damaged,
            "a port of 17 bits",
        ),
        (
            Change::With(REPLY, 1, 5, ValueRef::Int(256)),
            Wanted::Damaged,
            "an Identifier of 9 bits",
        ),
        (
            Change::With(REPLY, 1, 8, ValueRef::Blob(&[80, 18, 0])),
            Wanted::Damaged,
            "malformed attributes",
        ),
        (
            Change::With(SESSION, 1, 5, ValueRef::Null),
            Wanted::Refused(SnapshotTable::Replies, 1, RowFault::Session),
            "an address lost",
        ),
        (
            Change::With(CHALLENGE, 2, 2, ValueRef::Blob(&[1; 15])),
            Wanted::Damaged,
            "a draw of 15 octets",
        ),
        (
            Change::With(SNAPSHOT, 1, 1, ValueRef::Int(8_000)),
            Wanted::Refused(SESSIONS, 1, RowFault::Moments),
            "a clock before a session was seen",
        ),
        (
            Change::With(SNAPSHOT, 1, 1, ValueRef::Int(i64::MAX)),
            Wanted::Refused(SnapshotTable::Numbers, 1, RowFault::Moments),
            "a clock beyond the last moment",
        ),
        (
            Change::With(SNAPSHOT, 1, 2, ValueRef::Int(2)),
            Wanted::Refused(SnapshotTable::Numbers, 1, RowFault::Number),
            "a last number below a session's",
        ),
    ];
    let alloc = rt.alloc();
    let config = Config::read(alloc, TEXT)?;
    for (change, wanted, what) in CASES.iter() {
        holds(&rt, reports(alloc, &config, *change, *wanted), what);
    }
    Ok(())
}
