//! Octets that copies can share.
ghost use Rattle.std.specs.Prelude.{◌≡◌, ◌++◌, ◌↔◌, IfOk, IsTrue, OnErr, OnOk};

use std::alloc::{AllocError, Global};
use std::marker::Model;
use std::mem;
use std::sync::Arc;

/// Octets on the heap. Once they are shared, by `of` or `share`, so are their copies. Contracts see them as a list.
#[derive(Drop)]
pub struct Octets {
    store: Store,
}

// The octets, owned or shared. Shared ones don't change.
#[derive(Drop)]
enum Store {
    Own(Vec<u8>),
    Shared(Arc<Vec<u8>, Global>),
}

impl Model for Octets {
    ghost use Rattle.std.specs.Prelude.{ℕ, List};
    ghost use Rattle.rad_packet.specs.Stores.{stored};

    ghost Value = { List ℕ };

    ghost view = { λ octets. stored octets.store };
}

impl Octets {
    /// These octets, not shared. It takes no memory.
    pub fn new(octets: Vec<u8>) -> Octets
        ensures { result ≡ octets.items }
    {
        Octets {
            store: Store::Own(octets),
        }
    }

    /// A copy of these octets, shared from the start.
    pub fn of(alloc: Global, octets: &[u8]) -> Result<Octets, AllocError>
        ensures { IfOk result (λ copy. copy ≡ octets.now) }
    {
        let octets = Arc::new(alloc, octets.to_vec(alloc)?)?;
        Ok(Octets {
            store: Store::Shared(octets),
        })
    }

    /// The octets.
    pub fn octets(&self) -> &[u8]
        ensures { result.now ≡ self.now }
    {
        match &self.store {
            Store::Own(octets) => octets,
            Store::Shared(shared) => {
                let octets: &Vec<u8> = shared;
                octets
            }
        }
    }

    /// Shares the octets with the copies that are made from here on.
    ///
    /// If memory is refused, they stay as they were, not shared.
    pub fn share(&mut self) -> Result<(), AllocError>
        ensures { self.new ≡ self.old }
    {
        let Store::Own(octets) = &mut self.store else {
            return Ok(());
        };
        let alloc = *octets.allocator();
        let octets = mem::replace(octets, Vec::new(alloc));
        match Arc::new(alloc, octets) {
            Ok(octets) => {
                self.store = Store::Shared(octets);
                Ok(())
            }
            Err(refused) => {
                self.store = Store::Own(refused.value);
                Err(AllocError)
            }
        }
    }

    /// The same octets. A copy of shared octets takes no memory.
    pub fn copy(&self) -> Result<Octets, AllocError>
        ensures { IfOk result (λ copy. copy ≡ self.now) }
    {
        let store = match &self.store {
            Store::Own(octets) => Store::Own(octets.clone()?),
            Store::Shared(octets) => Store::Shared(Arc::try_clone(octets)?),
        };
        Ok(Octets { store })
    }

    /// Whether the other octets are the same.
    pub fn same(&self, other: &Octets) -> bool
        ensures { IsTrue result ↔ (self.now ≡ other.now) }
    {
        self.octets() == other.octets()
    }

    /// Appends two parts.
    ///
    /// Octets that are shared are copied first, and those who share them keep what they had. If memory is refused, the octets are
    /// unchanged.
    pub(crate) fn append(&mut self, first: &[u8], second: &[u8]) -> Result<(), AllocError>
        ensures appended { OnOk result (self.new ≡ self.old ++ first.now ++ second.now) }
        ensures unchanged { OnErr result (self.new ≡ self.old) }
    {
        match &mut self.store {
            Store::Own(octets) => append(octets, first, second),
            Store::Shared(shared) => {
                let shared: &Vec<u8> = shared;
                let mut octets = shared.clone()?;
                append(&mut octets, first, second)?;
                self.store = Store::Own(octets);
                Ok(())
            }
        }
    }
}

// Appends two parts to the octets, which are unchanged if memory is refused.
fn append(octets: &mut Vec<u8>, first: &[u8], second: &[u8]) -> Result<(), AllocError>
    ensures appended { OnOk result
        (octets.new.items ≡ octets.old.items ++ first.now ++ second.now) }
    ensures unchanged { OnErr result (octets.new.items ≡ octets.old.items) }
{
    octets.reserve(first.len() + second.len())?;
    octets.extend_from_slice(first)?;
    octets.extend_from_slice(second)
}
