//! Rows as a plain list: each question walks over all of it.
ghost use Rattle.std.specs.Prelude.{◌≡◌, ◌≤◌, ◌<◌, All, filter, find, length, map, option_copied, remove, vec_len, IfNone, IfSome};
ghost use Rattle.std.specs.Vec.{vec_capacity};
ghost use Rattle.rad_rows.specs.Blocks.{LivesUntil};
ghost use Rattle.rad_rows.specs.Rows.{Tells, change_row, has_number, has_other, moment_max};

use crate::row::{Change, Row, Tally};

// Whether a row is live at a moment.
fn is_live<T: Row<S>, S>(row: &T, spans: &S, now: u64) -> bool
    requires { now ≤ moment_max }
    ensures { result ≡ T.is_live spans.now now row.now }
{
    now < row.ends(spans)
}

/// Removes the rows that aren't live at a moment, tells the tally of each, and returns a bound of the others.
pub(crate) fn sweep<T: Row<S>, S, G: Tally<T>>(
    rows: &mut Vec<T>,
    spans: &S,
    tally: &mut G,
    now: u64,
) -> u64
    requires { now ≤ moment_max }
    ensures items { rows.new.items ≡ filter (T.is_live spans.now now) rows.old.items }
    ensures told { Tells G.told T.is_live spans.now now rows.old.items tally.old tally.new }
    ensures bound { All (LivesUntil T.is_live spans.now result) rows.new.items }
    ensures capacity { vec_capacity rows.new ≡ vec_capacity rows.old }
{
    let mut bound: u64 = u64::MAX;
    let mut kept: usize = 0;
    for at in 0..rows.len() {
        let row = &rows[at];
        let ends = row.ends(spans);
        if now < ends {
            bound = bound.min(ends);
            rows.swap(kept, at);
            kept += 1;
        } else {
            tally.leave(row);
        }
    }
    rows.truncate(kept);
    bound
}

/// Tells the tally of each row that isn't live at a moment.
pub(crate) fn tell<T: Row<S>, S, G: Tally<T>>(rows: &[T], spans: &S, tally: &mut G, now: u64)
    requires { now ≤ moment_max }
    ensures { Tells G.told T.is_live spans.now now rows.now tally.old tally.new }
{
    for row in rows {
        if !is_live(row, spans, now) {
            tally.leave(row);
        }
    }
}

/// The row of this number.
pub(crate) fn find<T: Row<S>, S>(rows: &[T], number: u64) -> Option<&T>
    ensures { option_copied result ≡ find (has_number T.number number) rows.now }
{
    for row in rows {
        if row.number() == number {
            return Some(row);
        }
    }
    None
}

/// Removes the row of this number.
pub(crate) fn remove<T: Row<S>, S>(rows: &mut Vec<T>, number: u64)
    ensures items { rows.new.items ≡ filter (has_other T.number number) rows.old.items }
    ensures len { vec_len rows.new ≤ vec_len rows.old }
    ensures capacity { vec_capacity rows.new ≡ vec_capacity rows.old }
{
    while let Some(at) = position(rows, number) {
        rows.remove(at);
    }
}

// The place of the first row of this number.
fn position<T: Row<S>, S>(rows: &[T], number: u64) -> Option<usize>
    ensures found { IfSome result (λ at. (at < length rows.now) ×
        (filter (has_other T.number number) (remove rows.now at)
        ≡ filter (has_other T.number number) rows.now)) }
    ensures none { IfNone result (filter (has_other T.number number) rows.now ≡ rows.now) }
{
    for (at, row) in rows.iter().enumerate() {
        if row.number() == number {
            return Some(at);
        }
    }
    None
}

/// Changes the row of this number, and returns it as it was. The bound stays one.
pub(crate) fn change<T: Row<S> + Copy, S, C: Change<T>>(
    rows: &mut Vec<T>,
    spans: &S,
    bound: &mut u64,
    number: u64,
    by: &C,
) -> Option<T>
    requires { All (LivesUntil T.is_live spans.now bound.old) rows.old.items }
    ensures was { result ≡ find (has_number T.number number) rows.old.items }
    ensures items { rows.new.items
        ≡ map (change_row T.number number (C.to by.now)) rows.old.items }
    ensures bound { All (LivesUntil T.is_live spans.now bound.new) rows.new.items }
    ensures len { vec_len rows.new ≡ vec_len rows.old }
    ensures capacity { vec_capacity rows.new ≡ vec_capacity rows.old }
{
    let was = find(rows, number).copied();
    for row in rows.iter_mut() {
        change_one(row, spans, bound, number, by);
    }
    was
}

// Changes the row if it has this number. The bound stays one, and comes no later.
#[inline(always)]
fn change_one<T: Row<S>, S, C: Change<T>>(
    row: &mut T,
    spans: &S,
    bound: &mut u64,
    number: u64,
    by: &C,
)
    requires { LivesUntil T.is_live spans.now bound.old row.old }
    ensures row { row.new ≡ change_row T.number number (C.to by.now) row.old }
    ensures bound { LivesUntil T.is_live spans.now bound.new row.new }
    ensures earlier { bound.new ≤ bound.old }
{
    if row.number() != number {
        return;
    }
    by.change(row);
    *bound = (*bound).min(row.ends(spans));
}

/// Changes each row, and returns a bound.
pub(crate) fn change_all<T: Row<S>, S, C: Change<T>>(rows: &mut Vec<T>, spans: &S, by: &C) -> u64
    ensures items { rows.new.items ≡ map (C.to by.now) rows.old.items }
    ensures bound { All (LivesUntil T.is_live spans.now result) rows.new.items }
    ensures len { vec_len rows.new ≡ vec_len rows.old }
    ensures capacity { vec_capacity rows.new ≡ vec_capacity rows.old }
{
    let mut bound: u64 = u64::MAX;
    for row in rows.iter_mut() {
        by.change(row);
        bound = bound.min(row.ends(spans));
    }
    bound
}
