//! Recording entries beside their rows: of each Accounting-Request a row of another table, and of each session that is granted one
//! of a third.
ghost use Rattle.std.specs.Prelude.{◌≡◌, ◌+◌, ◌-◌, ◌++◌, ◌≤◌, ◌<◌, ◌^◌, if◌then◌else◌, List, length, None, Some, IfOk, OnOk};
ghost use Rattle.sqlite_trees.specs.Tree.{Trees};
ghost use Rattle.sqlite_trees.specs.View.{IsClean, IsQuiet, KeepsSchema, OnlyWrites, doubt};
ghost use Rattle.sqlite_trees.specs.declared.store.Shape.TheVariants.{Table};
ghost use Rattle.rad_journal.specs.Records.{accepted, grant_of, occasion_of, record_of, records_of, register_tree, report_of};
ghost use Rattle.rad_journal.specs.Stores.{IsRecorded, LeavesRest};
ghost use Rattle.rad_journal.specs.declared.kept.Kept.{Kept};

use crate::append::small;
use crate::journal::JournalFault;
use crate::kept::Kept;
use crate::register::Register;
use rad_accounting::Occasion;
use rad_packet::code::{ACCESS_ACCEPT, ACCOUNTING_REQUEST};
use rad_packet::{Attributes, Packet};
use rad_server::Report;
use sqlite_trees::store::Store;
use sqlite_value::row::Row;

/// Puts the records of entries that are numbered after so many into a register, with no commit.
pub(crate) fn record_all<S: Store>(
    store: &mut S,
    row: &mut Row,
    register: Register,
    count: u32,
    entries: &[Kept],
) -> Result<(), JournalFault>
    requires shape { IsClean (S.view store.old)
        → (S.view store.old).shape (register_tree register) ≡ Table }
    requires few { count + length entries.now < 2 ^ 32 - 1 }
    ensures schema { KeepsSchema (S.view store.old) (S.view store.new) }
    ensures clean { doubt (S.view store.old).is_clean ≤ doubt (S.view store.new).is_clean }
    ensures outcomes { (db : Trees) → S.recovers store.new db → S.recovers store.old db }
    ensures frame { OnOk result (IsClean (S.view store.new)
        → OnlyWrites (S.view store.old) (S.view store.new)) }
    ensures recorded { OnOk result (IsClean (S.view store.new) → (before : List Kept)
        → length before ≡ count
        → (S.view store.old).trees (register_tree register) ≡ records_of register before
        → (S.view store.new).trees (register_tree register)
        ≡ records_of register (before ++ entries.now)) }
    ensures rest { OnOk result (IsClean (S.view store.new)
        → LeavesRest (S.view store.old) (S.view store.new) (register_tree register)) }
{
    let mut number = count;
    for i in 0..entries.len() {
        number += 1;
        record(store, row, register, number, &entries[i])?;
    }
    Ok(())
}

// Puts the record of the entry with a number into a register, if it has one there.
fn record<S: Store>(
    store: &mut S,
    row: &mut Row,
    register: Register,
    number: u32,
    entry: &Kept,
) -> Result<(), JournalFault>
    requires { IsClean (S.view store.old)
        → (S.view store.old).shape (register_tree register) ≡ Table }
    ensures ok { OnOk result (IsClean (S.view store.new) → IsRecorded (S.view store.old)
        (S.view store.new) register (record_of register number entry.now)) }
    ensures frame { OnOk result (IsClean (S.view store.new)
        → OnlyWrites (S.view store.old) (S.view store.new)) }
    ensures schema { KeepsSchema (S.view store.old) (S.view store.new) }
    ensures clean { doubt (S.view store.old).is_clean ≤ doubt (S.view store.new).is_clean }
    ensures outcomes { (db : Trees) → S.recovers store.new db → S.recovers store.old db }
{
    if fill(row, register, number, entry)? {
        store.put(register.tree(), row)?;
    }
    Ok(())
}

/// Makes the record that the entry with a number has in a register, if it has one there. Returns whether it has.
pub(crate) fn fill(
    row: &mut Row,
    register: Register,
    number: u32,
    entry: &Kept,
) -> Result<bool, JournalFault>
    ensures { IfOk result (λ has. record_of register number entry.now
        ≡ (if has then Some row.new else None)) }
{
    match register {
        Register::Accounting => fill_report(row, number, entry),
        Register::Grants => fill_grant(row, number, entry),
    }
}

// The record of an Accounting-Request.
fn fill_report(row: &mut Row, number: u32, entry: &Kept) -> Result<bool, JournalFault>
    ensures { IfOk result (λ has. report_of number entry.now
        ≡ (if has then Some row.new else None)) }
{
    let Ok(packet) = Packet::read(entry.octets.octets()) else {
        return Ok(false);
    };
    if packet.code() != ACCOUNTING_REQUEST {
        return Ok(false);
    }
    let occasion = occasion(number, entry, entry.session)?;
    rad_accounting::fill(row, &occasion, &packet)?;
    Ok(true)
}

// The record of a session that is granted.
fn fill_grant(row: &mut Row, number: u32, entry: &Kept) -> Result<bool, JournalFault>
    ensures { IfOk result (λ has. grant_of number entry.now
        ≡ (if has then Some row.new else None)) }
{
    let Some(attributes) = accepted(entry.answer.octets()) else {
        return Ok(false);
    };
    let Ok(packet) = Packet::read(entry.octets.octets()) else {
        return Ok(false);
    };
    let granted = Report::of(attributes);
    if granted.number.is_none() {
        return Ok(false);
    }
    let occasion = occasion(number, entry, granted.number)?;
    rad_accounting::fill_grant(row, &occasion, granted.address, &packet)?;
    Ok(true)
}

// The attributes of an answer that is kept, if it is an Access-Accept.
fn accepted(answer: &[u8]) -> Option<Attributes<'_>>
    ensures { result ≡ accepted answer.now }
{
    let (code, octets) = answer.split_first()?;
    if *code != ACCESS_ACCEPT {
        return None;
    }
    Attributes::read(octets)
}

// When and from whom the request of an entry came, and the session that it names or is granted.
fn occasion(number: u32, entry: &Kept, session: Option<u64>) -> Result<Occasion, JournalFault>
    ensures { IfOk result (λ occasion. occasion ≡ occasion_of number entry.now session) }
{
    let session = match session {
        Some(session) => Some(small(session)?),
        None => None,
    };
    Ok(Occasion {
        entry: number,
        time: small(entry.wall)?,
        client: entry.client,
        source: entry.source,
        session,
    })
}
