//! A folder with a file for each generation.
ghost use Rattle.std.specs.Prelude.{◌≡◌, ◌≢◌, ◌⊎◌, ◌<◌, ℕ, IfOk, IfSome, IsOk, MatchOption, OnOk};
ghost use Rattle.sqlite_trees.specs.View.{IsClean};
ghost use Rattle.rad_state.specs.Stores.{IsBlank, IsOpened};

use crate::open_fault::OpenFault;
use sqlite_trees::store::Store;
use std::alloc::Global;

/// A folder with a file for each generation, numbered from 1.
///
/// For implementers: a file that a failed `create` may have left has no meta.
pub trait Folder<S: Store> {
    /// A file of this number may be there, and have a meta.
    ghost has: { Self → ℕ → Type 0 };

    /// The number of the newest file, with a meta or without, if there is one.
    fn newest(&self) -> Option<u32>
        ensures newest { MatchOption result ((number : ℕ) → ¬ has self.now number)
            (λ newest. (number : ℕ) → newest < number → ¬ has self.now number) };

    /// The number of the oldest file, if there is one.
    fn oldest(&self) -> Option<u32>;

    /// How many files there are.
    fn count(&self) -> usize;

    /// Whether the file with a number is older than any that is to be kept.
    fn is_too_old(&self, _number: u32) -> bool {
        false
    }

    /// Whether somebody asks for another generation, until one is made.
    fn is_asked(&self) -> bool {
        false
    }

    /// Makes a blank file with a number that no file has. At `Ok` it is still there after a crash.
    fn create(&mut self, alloc: Global, number: u32) -> Result<S, OpenFault>
        requires free { ¬ has self.old number }
        ensures blank { IfOk result (λ store. IsClean (S.view store) → IsBlank (S.view store)) }
        ensures made { OnOk result (has self.new number) }
        ensures others { (other : ℕ) → has self.old other → has self.new other }
        ensures only { (other : ℕ) → has self.new other
            → has self.old other ⊎ (IsOk result × (other ≡ number)) };

    /// Opens the file with a number.
    fn open(&mut self, alloc: Global, number: u32) -> Result<S, OpenFault>
        ensures opened { IfOk result (λ store.
            IsClean (S.view store) → IsOpened (S.view store)) }
        ensures others { (other : ℕ) → has self.old other → has self.new other }
        ensures only { (other : ℕ) → has self.new other → has self.old other };

    /// Removes the file with a number.
    fn remove(&mut self, number: u32) -> Result<(), OpenFault>
        ensures gone { OnOk result (¬ has self.new number) }
        ensures others { (other : ℕ) → other ≢ number
            → has self.old other → has self.new other }
        ensures only { (other : ℕ) → has self.new other → has self.old other };

    /// Takes the file with a number, in which no generation was begun as far as it can be read, out of the folder.
    ///
    /// For implementers: it may be damaged, so it's better kept under another name.
    fn set_aside(&mut self, number: u32) -> Result<(), OpenFault>
        ensures gone { OnOk result (¬ has self.new number) }
        ensures others { (other : ℕ) → other ≢ number
            → has self.old other → has self.new other }
        ensures only { (other : ℕ) → has self.new other → has self.old other }
    {
        self.remove(number)
    }
}
