//! Which row a key has.
ghost use Rattle.std.specs.Prelude.{◌≡◌, ◌<◌, [], cond, None, Some};
ghost use Rattle.indexmap.specs.IndexMap.{hasher_of, spare};
ghost use Rattle.rad_recent.specs.Index.{Forgets};
ghost use Rattle.rad_recent.specs.Numbers.{number_at};
ghost use Rattle.rad_recent.specs.Recent.{same_key};

use crate::key::Key;
use indexmap::IndexMap;
use rad_rows::HashKey;
use std::alloc::Global;

/// The number of each key's row. Those who send requests choose their keys, so the hash has a key of its own.
pub(crate) type NumberMap = IndexMap<Key, u64, HashKey>;

/// The number of each key's row, and the key for which memory is ready.
#[derive(Drop)]
pub(crate) struct Index {
    pub(crate) map: NumberMap,
    pub(crate) ready: Option<Key>,
}

impl Index {
    /// No key has a number yet.
    pub(crate) fn open(alloc: Global, key: HashKey) -> Index
        ensures empty { result.map.entries ≡ [] }
        ensures key { hasher_of result.map ≡ key }
        ensures ready { result.ready ≡ None }
    {
        Index {
            map: IndexMap::with_hasher(alloc, key),
            ready: None,
        }
    }
}

/// The number that a key has.
pub(crate) fn find(map: &NumberMap, key: &Key) -> Option<u64>
    ensures { result ≡ number_at map.now.entries key.now }
{
    map.get(key).copied()
}

/// Gives a key this number, where there is room for one more, and returns the one that it had.
pub(crate) fn note(map: &mut NumberMap, key: Key, number: u64) -> Option<u64>
    requires { 0 < spare map.old }
    ensures before { result ≡ number_at map.old.entries key }
    ensures noted { (other : Key) → number_at map.new.entries other
        ≡ cond (same_key key other) (Some number) (number_at map.old.entries other) }
{
    map.insert(key, number).unwrap()
}

/// Takes a key out, and returns the number that it had.
pub(crate) fn forget(index: &mut Index, key: &Key) -> Option<u64>
    ensures before { result ≡ number_at index.old.map.entries key.now }
    ensures forgotten { Forgets index.old key.now index.new }
{
    index.map.swap_remove(key)
}
