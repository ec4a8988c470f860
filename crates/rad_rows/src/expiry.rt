//! What is done to the rows that aren't live at a moment. It goes into the groups and blocks alone whose bound has come.
ghost use Rattle.std.specs.Prelude.{◌≡◌, ◌≤◌, All, length};
ghost use Rattle.rad_rows.specs.Blocks.{cut_block};
ghost use Rattle.rad_rows.specs.Entries.{HasSpans, IsGrouped, all_rows, on_blocks};
ghost use Rattle.rad_rows.specs.Rows.{Tells, moment_max};

use crate::block::Block;
use crate::bounds::Bounds;
use crate::row::{Row, Tally};
use indexmap::IndexMap;

/// Tells the tally of each row that isn't live at a moment. The rows stay.
pub(crate) fn tell_dead<T: Row<S>, S: Copy, G: Tally<T>>(
    blocks: &IndexMap<u64, Block<T, S>>,
    bounds: &Bounds,
    spans: &S,
    tally: &mut G,
    now: u64,
)
    requires now { now ≤ moment_max }
    requires spans { All (HasSpans spans.now) blocks.now.entries }
    requires grouped { IsGrouped T.is_live 0 bounds.now blocks.now.entries }
    ensures { Tells G.told T.is_live spans.now now
        (all_rows blocks.now.entries) tally.old tally.new }
{
    let len = blocks.len();
    let mut at = bounds.next_due(now, 0, len);
    while at < len {
        blocks[at].tell_dead(tally, now);
        at = bounds.next_due(now, at + 1, len);
    }
}

/// Removes the rows that aren't live at a moment, of `count` rows, tells the tally of each, and returns how many are left.
pub(crate) fn sweep<T: Row<S>, S: Copy, G: Tally<T>>(
    blocks: &mut IndexMap<u64, Block<T, S>>,
    bounds: &mut Bounds,
    spans: &S,
    tally: &mut G,
    now: u64,
    count: usize,
) -> usize
    requires now { now ≤ moment_max }
    requires spans { All (HasSpans spans.now) blocks.old.entries }
    requires count { count ≡ length (all_rows blocks.old.entries) }
    requires grouped { IsGrouped T.is_live 0 bounds.old blocks.old.entries }
    ensures entries { blocks.new.entries
        ≡ on_blocks (cut_block T.is_live now) blocks.old.entries }
    ensures told { Tells G.told T.is_live spans.now now
        (all_rows blocks.old.entries) tally.old tally.new }
    ensures count { result ≡ length (all_rows blocks.new.entries) }
    ensures grouped { IsGrouped T.is_live 0 bounds.new blocks.new.entries }
{
    let len = blocks.len();
    let mut count = count;
    let mut at = bounds.next_due(now, 0, len);
    while at < len {
        let block = &mut blocks[at];
        let before = block.len();
        block.sweep(tally, now);
        let after = block.len();
        count -= before - after;
        bounds.renew(at, block.bound());
        at = bounds.next_due(now, at + 1, len);
    }
    bounds.settle(now);
    count
}
