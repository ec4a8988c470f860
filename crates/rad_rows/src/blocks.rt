//! What is done to the block that a number belongs to, and to the row of blocks.
ghost use Rattle.std.specs.Prelude.{◌≡◌, ℕ, ◌<◌, ◌-◌, ◌*◌, ◌++◌, ◌∷◌, [], All, OnErr, OnOk, false, filter, find, length};
ghost use Rattle.std.specs.Prelude.{option_copied, slice_get, true};
ghost use Rattle.indexmap.specs.IndexMap.{keys};
ghost use Rattle.rad_rows.specs.Blocks.{block_changed, block_mapped, block_without};
ghost use Rattle.rad_rows.specs.Entries.{Ascends, IsGrouped, IsPlaced, IsSound, IsUpTo, all_rows, has_room_at, has_rows, is_at_key};
ghost use Rattle.rad_rows.specs.Entries.{key_of, on_blocks};
ghost use Rattle.rad_rows.specs.Rows.{has_number};

use crate::block::{BLOCK, Block};
use crate::bounds::Bounds;
use crate::row::{Change, Row};
use indexmap::IndexMap;
use std::alloc::AllocError;

/// So many blocks may come before those without rows are looked for.
pub(crate) const BLOCKS_MIN: usize = 16;

/// The row of this number.
pub(crate) fn find<T: Row<S>, S: Copy>(
    blocks: &IndexMap<u64, Block<T, S>>,
    number: u64,
) -> Option<&T>
    requires placed { All (IsPlaced T.number) blocks.now.entries }
    requires ascends { Ascends 0 (keys blocks.now) }
    ensures { option_copied result
        ≡ find (has_number T.number number) (all_rows blocks.now.entries) }
{
    let key = number / BLOCK;
    let Some(at) = blocks.get_index_of(&key) else {
        return None;
    };
    blocks[at].find(number)
}

/// Removes the row of this number, and returns how many of the `count` rows are left.
pub(crate) fn remove<T: Row<S>, S: Copy>(
    blocks: &mut IndexMap<u64, Block<T, S>>,
    number: u64,
    count: usize,
) -> usize
    requires placed { All (IsPlaced T.number) blocks.old.entries }
    requires ascends { Ascends 0 (keys blocks.old) }
    requires count { count ≡ length (all_rows blocks.old.entries) }
    ensures entries { blocks.new.entries
        ≡ on_blocks (block_without T.number number) blocks.old.entries }
    ensures count { result ≡ length (all_rows blocks.new.entries) }
{
    let key = number / BLOCK;
    let Some(at) = blocks.get_index_of(&key) else {
        return count;
    };
    let block = &mut blocks[at];
    let before = block.len();
    block.remove(number);
    let after = block.len();
    count - (before - after)
}

/// Changes the row of this number, and returns it as it was.
pub(crate) fn change<T: Row<S> + Copy, S: Copy, C: Change<T>>(
    blocks: &mut IndexMap<u64, Block<T, S>>,
    bounds: &mut Bounds,
    number: u64,
    by: &C,
) -> Option<T>
    requires placed { All (IsPlaced T.number) blocks.old.entries }
    requires ascends { Ascends 0 (keys blocks.old) }
    requires grouped { IsGrouped T.is_live 0 bounds.old blocks.old.entries }
    ensures was { result ≡ find (has_number T.number number) (all_rows blocks.old.entries) }
    ensures entries { blocks.new.entries
        ≡ on_blocks (block_changed T.number number (C.to by.now)) blocks.old.entries }
    ensures grouped { IsGrouped T.is_live 0 bounds.new blocks.new.entries }
{
    let key = number / BLOCK;
    let Some(at) = blocks.get_index_of(&key) else {
        return None;
    };
    let block = &mut blocks[at];
    let was = block.change(number, by);
    bounds.lower(at, block.bound());
    was
}

/// Changes each row. The next sweep finds the bounds anew.
pub(crate) fn change_all<T: Row<S>, S: Copy, C: Change<T>>(
    blocks: &mut IndexMap<u64, Block<T, S>>,
    bounds: &mut Bounds,
    by: &C,
)
    requires { IsGrouped T.is_live 0 bounds.old blocks.old.entries }
    ensures entries { blocks.new.entries
        ≡ on_blocks (block_mapped (C.to by.now)) blocks.old.entries }
    ensures grouped { IsGrouped T.is_live 0 bounds.new blocks.new.entries }
{
    for at in 0..blocks.len() {
        blocks[at].change_all(by);
    }
    bounds.forget();
}

/// Puts a row last.
pub(crate) fn push<T: Row<S>, S: Copy>(
    blocks: &mut IndexMap<u64, Block<T, S>>,
    bounds: &mut Bounds,
    spans: &S,
    row: T,
)
    requires sound { IsSound T.number spans.now (key_of (T.number row)) blocks.old.entries }
    requires room { has_room_at (key_of (T.number row)) blocks.old.entries ≡ true }
    requires grouped { IsGrouped T.is_live 0 bounds.old blocks.old.entries }
    ensures sound { IsSound T.number spans.now (key_of (T.number row)) blocks.new.entries }
    ensures rows { all_rows blocks.new.entries ≡ all_rows blocks.old.entries ++ row ∷ [] }
    ensures grouped { IsGrouped T.is_live 0 bounds.new blocks.new.entries }
{
    let at = blocks.len() - 1;
    let block = &mut blocks[at];
    block.push(row);
    bounds.lower(at, block.bound());
}

/// Makes the block of this key the last, with memory for one more row. If memory is refused, the blocks without rows are taken out,
/// and it tries once more.
pub(crate) fn make_room<T: Row<S>, S: Copy>(
    blocks: &mut IndexMap<u64, Block<T, S>>,
    bounds: &mut Bounds,
    spans: &S,
    key: u64,
) -> Result<(), AllocError>
    requires sound { IsSound T.number spans.now key blocks.old.entries }
    requires grouped { IsGrouped T.is_live 0 bounds.old blocks.old.entries }
    ensures sound { IsSound T.number spans.now key blocks.new.entries }
    ensures grouped { IsGrouped T.is_live 0 bounds.new blocks.new.entries }
    ensures rows { all_rows blocks.new.entries ≡ all_rows blocks.old.entries }
    ensures ready { OnOk result (has_room_at key blocks.new.entries ≡ true) }
{
    if try_room(blocks, bounds, spans, key).is_ok() {
        return Ok(());
    }
    let _limit = compact(blocks, bounds, spans, key, 0);
    try_room(blocks, bounds, spans, key)
}

/// The same with one try, and nothing is taken out.
pub(crate) fn try_room<T: Row<S>, S: Copy>(
    blocks: &mut IndexMap<u64, Block<T, S>>,
    bounds: &mut Bounds,
    spans: &S,
    key: u64,
) -> Result<(), AllocError>
    requires sound { IsSound T.number spans.now key blocks.old.entries }
    requires grouped { IsGrouped T.is_live 0 bounds.old blocks.old.entries }
    ensures sound { IsSound T.number spans.now key blocks.new.entries }
    ensures grouped { IsGrouped T.is_live 0 bounds.new blocks.new.entries }
    ensures rows { all_rows blocks.new.entries ≡ all_rows blocks.old.entries }
    ensures ready { OnOk result (has_room_at key blocks.new.entries ≡ true) }
    // After an error no block is new.
    ensures unready { OnErr result ((top : ℕ) →
        All (IsUpTo top) blocks.old.entries → All (IsUpTo top) blocks.new.entries) }
{
    bounds.grow(blocks.len())?;
    if is_last(blocks, key) {
        reserve(blocks, bounds, spans, key)
    } else {
        add(blocks, bounds, spans, key)
    }
}

// Whether the last block is that of this key.
fn is_last<T: Row<S>, S: Copy>(blocks: &IndexMap<u64, Block<T, S>>, key: u64) -> bool
    ensures { result
        ≡ is_at_key key (slice_get blocks.now.entries (length blocks.now.entries - 1)) }
{
    match blocks.last() {
        Some((last, _)) => *last == key,
        None => false,
    }
}

// Makes memory ready for one more row in the last block, which is that of this key.
fn reserve<T: Row<S>, S: Copy>(
    blocks: &mut IndexMap<u64, Block<T, S>>,
    bounds: &Bounds,
    spans: &S,
    key: u64,
) -> Result<(), AllocError>
    requires sound { IsSound T.number spans.now key blocks.old.entries }
    requires last { is_at_key key
        (slice_get blocks.old.entries (length blocks.old.entries - 1)) ≡ true }
    requires grouped { IsGrouped T.is_live 0 bounds.now blocks.old.entries }
    ensures { IsSound T.number spans.now key blocks.new.entries
        × (all_rows blocks.new.entries ≡ all_rows blocks.old.entries)
        × IsGrouped T.is_live 0 bounds.now blocks.new.entries
        × OnOk result (has_room_at key blocks.new.entries ≡ true) }
{
    let at = blocks.len() - 1;
    let block = &mut blocks[at];
    block.reserve()
}

// Puts an empty block of this key last.
fn add<T: Row<S>, S: Copy>(
    blocks: &mut IndexMap<u64, Block<T, S>>,
    bounds: &Bounds,
    spans: &S,
    key: u64,
) -> Result<(), AllocError>
    requires sound { IsSound T.number spans.now key blocks.old.entries }
    requires last { is_at_key key
        (slice_get blocks.old.entries (length blocks.old.entries - 1)) ≡ false }
    requires grouped { IsGrouped T.is_live 0 bounds.now blocks.old.entries }
    requires enough { length blocks.old.entries < 64 * length bounds.now }
    ensures { IsSound T.number spans.now key blocks.new.entries
        × (all_rows blocks.new.entries ≡ all_rows blocks.old.entries)
        × IsGrouped T.is_live 0 bounds.now blocks.new.entries
        × OnOk result (has_room_at key blocks.new.entries ≡ true)
        × OnErr result (blocks.new.entries ≡ blocks.old.entries) }
{
    let block = Block::open(*blocks.allocator(), *spans)?;
    match blocks.insert(key, block) {
        Ok(_) => Ok(()),
        Err(_) => Err(AllocError),
    }
}

/// Takes out the blocks without rows where there are more than `limit` blocks, and returns the next limit.
///
/// The limit is an eighth more than the blocks that the last walk left. So the walks cost each block that comes the same, however
/// many there are, and no walk frees more than a ninth of them.
pub(crate) fn compact<T: Row<S>, S: Copy>(
    blocks: &mut IndexMap<u64, Block<T, S>>,
    bounds: &mut Bounds,
    spans: &S,
    key: u64,
    limit: usize,
) -> usize
    requires sound { IsSound T.number spans.now key blocks.old.entries }
    requires grouped { IsGrouped T.is_live 0 bounds.old blocks.old.entries }
    ensures sound { IsSound T.number spans.now key blocks.new.entries }
    ensures grouped { IsGrouped T.is_live 0 bounds.new blocks.new.entries }
    ensures rows { all_rows blocks.new.entries ≡ all_rows blocks.old.entries }
{
    if blocks.len() <= limit {
        return limit;
    }
    keep_with_rows(blocks);
    // Blocks have other places now. The next sweep finds the bounds anew.
    bounds.forget();
    let len = blocks.len();
    len.saturating_add(len / 8).saturating_add(BLOCKS_MIN)
}

// Keeps the blocks with rows alone, in their order.
fn keep_with_rows<T: Row<S>, S: Copy>(blocks: &mut IndexMap<u64, Block<T, S>>)
    ensures { blocks.new.entries ≡ filter has_rows blocks.old.entries }
{
    blocks.retain(
        |_key: &u64, block: &mut Block<T, S>| -> bool
            ensures { (result ≡ has_rows (_key.now, block.old)) × (block.new ≡ block.old) }
        { block.len() != 0 },
    );
}
