//! The numbers of the files in a folder.
ghost use Rattle.std.specs.Prelude.{◌≡◌, ◌≢◌, ◌⊎◌, ◌<◌, ℕ, Contains, IsOk, MatchOption, OnErr, OnOk};

use std::alloc::{AllocError, Global};
use std::marker::Model;

/// The numbers of the files in a folder, in no order. Contracts see the list.
#[derive(Drop)]
pub struct Numbers {
    items: Vec<u32>,
}

impl Model for Numbers {
    ghost use Rattle.std.specs.Prelude.{ℕ, List};

    ghost Value = { List ℕ };

    ghost view = { λ numbers. numbers.items.items };
}

impl Numbers {
    /// No number.
    pub fn new(alloc: Global) -> Numbers {
        Numbers {
            items: Vec::new(alloc),
        }
    }

    /// The highest number, if there is one.
    pub fn newest(&self) -> Option<u32>
        ensures { MatchOption result ((number : ℕ) → ¬ Contains self.now number)
            (λ newest. (number : ℕ) → newest < number → ¬ Contains self.now number) }
    {
        self.items.iter().copied().max()
    }

    /// The lowest number, if there is one.
    pub fn oldest(&self) -> Option<u32> {
        self.items.iter().copied().min()
    }

    /// The highest number below this one, if there is one.
    pub fn before(&self, number: u32) -> Option<u32> {
        self.items
            .iter()
            .copied()
            .filter(|other| *other < number)
            .max()
    }

    /// How many there are.
    pub fn count(&self) -> usize {
        self.items.len()
    }

    /// Adds a number.
    pub fn add(&mut self, number: u32) -> Result<(), AllocError>
        ensures added { OnOk result (Contains self.new number) }
        ensures others { (other : ℕ) → Contains self.old other → Contains self.new other }
        ensures only { (other : ℕ) → Contains self.new other
            → Contains self.old other ⊎ (IsOk result × (other ≡ number)) }
        ensures unchanged { OnErr result (self.new ≡ self.old) }
    {
        self.items.push(number)?;
        Ok(())
    }

    /// Takes a number out, if it is there.
    pub fn remove(&mut self, number: u32)
        ensures gone { ¬ Contains self.new number }
        ensures others { (other : ℕ) → other ≢ number
            → Contains self.old other → Contains self.new other }
        ensures only { (other : ℕ) → Contains self.new other → Contains self.old other }
    {
        self.items.retain(|other| *other != number);
    }
}
