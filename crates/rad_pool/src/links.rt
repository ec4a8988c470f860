//! Which sessions of a source are open: a chain of their numbers, newest first. It says where to look, so that the others needn't
//! be looked at. Whoever follows it looks at the sessions themselves: contracts say nothing of it but its room.
ghost use Rattle.std.specs.Prelude.{IfOk};
ghost use Rattle.rad_pool.specs.Links.{HasLinkRoom, KeepsLinkRoom};

use indexmap::IndexMap;
use rad_rows::HashKey;
use std::alloc::{AllocError, Global};

/// The open sessions before and after one in its source's chain.
#[derive(Clone, Copy)]
pub(crate) struct Neighbours {
    older: Option<u64>,
    newer: Option<u64>,
}

/// The chain of each source that has open sessions.
#[derive(Drop)]
pub(crate) struct Links {
    // The newest open session of each source.
    pub(crate) newest: IndexMap<u32, u64, HashKey>,
    // The neighbours of each open session.
    pub(crate) neighbours: IndexMap<u64, Neighbours>,
}

impl Links {
    /// No session is open. The key is for the sources, which come from the network.
    pub(crate) fn open(alloc: Global, key: HashKey) -> Links {
        Links {
            newest: IndexMap::with_hasher(alloc, key),
            neighbours: IndexMap::new(alloc),
        }
    }

    /// Equal chains.
    pub(crate) fn copy(&self) -> Result<Links, AllocError> {
        Ok(Links {
            newest: self.newest.clone()?,
            neighbours: self.neighbours.clone()?,
        })
    }

    /// The newest open session of a source.
    pub(crate) fn newest_of(&self, source: u32) -> Option<u64> {
        self.newest.get(&source).copied()
    }

    /// A session comes, and is the newest of its source. Memory was made ready for it.
    pub(crate) fn add(&mut self, source: u32, number: u64) {
        let older = self.newest_of(source);
        self.set_newer(older, Some(number));
        let neighbours = Neighbours { older, newer: None };
        let _linked = self.neighbours.insert(number, neighbours);
        let _newest = self.newest.insert(source, number);
    }

    /// An open session ends or goes. Its memory is ready for another.
    pub(crate) fn remove(&mut self, source: u32, number: u64)
        ensures { KeepsLinkRoom self.old self.new }
    {
        let Some(gone) = self.neighbours.swap_remove(&number) else {
            return;
        };
        self.set_newer(gone.older, gone.newer);
        match gone.newer {
            Some(newer) => self.set_older(newer, gone.older),
            None => self.set_newest(source, gone.older),
        }
    }

    // The session after another one, if there is such another one.
    fn set_newer(&mut self, number: Option<u64>, newer: Option<u64>)
        ensures { KeepsLinkRoom self.old self.new }
    {
        let Some(number) = number else {
            return;
        };
        if let Some(neighbours) = self.neighbours.get_mut(&number) {
            neighbours.newer = newer;
        }
    }

    // The session before another one.
    fn set_older(&mut self, number: u64, older: Option<u64>)
        ensures { KeepsLinkRoom self.old self.new }
    {
        if let Some(neighbours) = self.neighbours.get_mut(&number) {
            neighbours.older = older;
        }
    }

    // The newest session of a source; without one the source goes.
    fn set_newest(&mut self, source: u32, number: Option<u64>)
        ensures { KeepsLinkRoom self.old self.new }
    {
        let Some(number) = number else {
            self.newest.swap_remove(&source);
            return;
        };
        if let Some(newest) = self.newest.get_mut(&source) {
            *newest = number;
        }
    }
}
