//! Rows of kept replies, and the index that finds them.
ghost use Rattle.std.specs.Prelude.{◌≡◌, ℕ, ◌+◌, ◌≤◌, ◌&&◌, ◌++◌, ◌∷◌, [], All, count_by, filter, find, not, option_copied};
ghost use Rattle.std.specs.Prelude.{option_map, IsOk, None, OnErr, OnOk, Some};
ghost use Rattle.std.specs.List.{list_any};
ghost use Rattle.rad_config.specs.Spans.{moment_max};
ghost use Rattle.rad_recent.specs.Index.{HoldsIndex, IsIndexed, is_row_live, replies_of};
ghost use Rattle.rad_recent.specs.Notes.{one_of};
ghost use Rattle.rad_recent.specs.Recent.{is_of, is_reply_live, is_reply_to, same_key};

use crate::index::{self, Index};
use crate::kept::Kept;
use crate::key::Key;
use crate::numbered::{self, Numbered};
use rad_rows::Rows;
use std::alloc::AllocError;

/// The row of the live reply to a request with this key and these octets.
pub(crate) fn find<'a>(
    rows: &'a Rows<Numbered, u64>,
    index: &Index,
    key: &Key,
    octets: &[u8],
    now: u64,
) -> Option<&'a Numbered>
    requires moment { now ≤ moment_max }
    requires indexed { All (IsIndexed index.now.map.entries) rows.now.rows }
    ensures { option_map (λ row. row.kept) (option_copied result)
        ≡ find (is_reply_to key.now octets.now)
        (filter (is_reply_live rows.now.spans now) (replies_of rows.now.rows)) }
{
    rows.numbers_rise();
    let Some(number) = index::find(&index.map, key) else {
        return None;
    };
    let Some(row) = rows.get(number) else {
        return None;
    };
    if !is_reply_to(row, key, octets, rows.spans(), now) {
        return None;
    }
    Some(row)
}

/// The client whose share the reply of a key takes, live or not; None if there is no such reply, or it takes nobody's.
pub(crate) fn client_of(rows: &Rows<Numbered, u64>, index: &Index, key: &Key) -> Option<u32>
    requires { All (IsIndexed index.now.map.entries) rows.now.rows }
    ensures { (client : ℕ) → count_by (is_of client)
        (filter (λ reply. not (same_key key.now reply.key)) (replies_of rows.now.rows))
        + one_of client result ≡ count_by (is_of client) (replies_of rows.now.rows) }
{
    rows.numbers_rise();
    let Some(number) = index::find(&index.map, key) else {
        return None;
    };
    let Some(row) = rows.get(number) else {
        return None;
    };
    row.kept.client
}

/// Whether there is a reply to a request with this key, live or not.
pub(crate) fn has_row(rows: &Rows<Numbered, u64>, index: &Index, key: &Key) -> bool
    requires { All (IsIndexed index.now.map.entries) rows.now.rows }
    ensures { result ≡ list_any (λ reply. same_key reply.key key.now) (replies_of rows.now.rows) }
{
    let Some(number) = index::find(&index.map, key) else {
        return false;
    };
    rows.get(number).is_some()
}

// Whether this is the live reply to a request with this key and these octets.
fn is_reply_to(row: &Numbered, key: &Key, octets: &[u8], window: u64, now: u64) -> bool
    requires { now ≤ moment_max }
    ensures { result ≡ (is_row_live window now row.now
        && is_reply_to key.now octets.now row.now.kept) }
{
    numbered::is_live(row, window, now)
        && key.is(&row.kept.key)
        && octets == row.kept.octets.octets()
}

/// Makes memory ready for the row of a key.
pub(crate) fn make_room(
    rows: &mut Rows<Numbered, u64>,
    index: &mut Index,
    key: &Key,
) -> Result<(), AllocError>
    requires { HoldsIndex rows.old index.old }
    ensures holds { HoldsIndex rows.new index.new }
    ensures rows { rows.new.rows ≡ rows.old.rows }
    ensures spans { rows.new.spans ≡ rows.old.spans }
    ensures ready { OnOk result (index.new.ready ≡ Some key.now) }
    ensures still { index.old.ready ≡ Some key.now → IsOk result }
    ensures unready { OnErr result (index.new.ready ≡ index.old.ready) }
{
    if rows.last() == u64::MAX {
        return Err(AllocError);
    }
    rows.room()?;
    index.map.reserve(1)?;
    index.ready = Some(*key);
    Ok(())
}

/// Removes the row of a key.
pub(crate) fn remove(rows: &mut Rows<Numbered, u64>, index: &mut Index, key: &Key)
    requires { HoldsIndex rows.old index.old }
    ensures holds { HoldsIndex rows.new index.new }
    ensures rows { replies_of rows.new.rows
        ≡ filter (λ reply. not (same_key key.now reply.key)) (replies_of rows.old.rows) }
    ensures spans { rows.new.spans ≡ rows.old.spans }
    ensures ready { index.new.ready ≡ index.old.ready }
{
    if let Some(number) = index::forget(index, key) {
        rows.remove(number);
    }
}

/// Puts a reply last, for whose key memory is ready. The row of its key goes.
pub(crate) fn push(rows: &mut Rows<Numbered, u64>, index: &mut Index, kept: Kept)
    requires holds { HoldsIndex rows.old index.old }
    requires ready { index.old.ready ≡ Some kept.key }
    ensures holds { HoldsIndex rows.new index.new }
    ensures rows { replies_of rows.new.rows
        ≡ filter (λ reply. not (same_key kept.key reply.key)) (replies_of rows.old.rows)
        ++ kept ∷ [] }
    ensures spans { rows.new.spans ≡ rows.old.spans }
    ensures ready { index.new.ready ≡ None }
{
    rows.numbers_rise();
    let number = rows.last() + 1;
    if let Some(before) = index::note(&mut index.map, kept.key, number) {
        rows.remove(before);
    }
    index.ready = None;
    rows.push(Numbered { number, kept });
}
