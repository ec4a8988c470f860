//! How many open sessions each user and each source has, how many of any phase each user has, and how many sessions have each
//! address.
ghost use Rattle.std.specs.Prelude.{◌≡◌, ◌==◌, ◌<◌, [], All, IfOk, IsOk, List, OnOk, count_by, length, map, replicate};
ghost use Rattle.indexmap.specs.IndexMap.{hasher_of, spare};
ghost use Rattle.rad_config.specs.Ranges.{IsPool};
ghost use Rattle.rad_places.specs.Places.{uses_at};
ghost use Rattle.rad_pool.specs.Counts.{Comes, Ends, GainsOne, GainsOther, HasLowUses, HasRoom, HoldsCounts, IsCounted, Leaves};
ghost use Rattle.rad_pool.specs.Counts.{LosesAt, LosesOne, LosesOther, is_outside, places_come, places_left};
ghost use Rattle.rad_pool.specs.Grants.{has_address};
ghost use Rattle.rad_pool.specs.Sources.{HasNoZero, count_at};
ghost use Rattle.rad_pool.specs.declared.session.Session.{Session};

use crate::links::Links;
use crate::others::Uses;
use crate::session::{Phase, Session};
use crate::{others, sources};
use indexmap::IndexMap;
use rad_config::{Config, Pool};
use rad_places::Places;
use rad_rows::{HashKey, Tally};
use std::alloc::{AllocError, Global};

/// Counts for the sources, and for the users and the pools of the configuration that the table was opened with.
#[derive(Drop)]
pub(crate) struct Counts {
    /// How many Pending and Active sessions each user has.
    pub(crate) users: Vec<u64>,
    /// How many sessions each user has, ended ones included.
    pub(crate) grants: Vec<u64>,
    /// How many Pending and Active sessions each source has. A source that has none is not there.
    pub(crate) sources: IndexMap<u32, u64, HashKey>,
    /// Which these are.
    pub(crate) links: Links,
    /// How many sessions, ended ones included, have each address, and the number of the one that got it last.
    pub(crate) pools: Vec<Places>,
    /// The same of each address that is of none of the pools. One that no session has is not there.
    pub(crate) others: IndexMap<u32, Uses, HashKey>,
}

impl Counts {
    /// The counts of no sessions. The key is for the sources, which come from the network.
    pub(crate) fn open(alloc: Global, config: &Config, key: HashKey) -> Result<Counts, AllocError>
        ensures counts { IfOk result (HoldsCounts []) }
        ensures key { IfOk result (λ counts. hasher_of counts.sources ≡ key) }
    {
        let users = zeros(alloc, config.users().len())?;
        let grants = zeros(alloc, config.users().len())?;
        let sources = IndexMap::with_hasher(alloc, key);
        let pools = open_pools(alloc, config.pools())?;
        let others = IndexMap::with_hasher(alloc, key);
        Ok(Counts {
            users,
            grants,
            sources,
            links: Links::open(alloc, key),
            pools,
            others,
        })
    }

    /// Equal counts.
    pub(crate) fn copy(&self) -> Result<Counts, AllocError>
        ensures users { IfOk result (λ copy. copy.users.items ≡ self.now.users.items) }
        ensures grants { IfOk result (λ copy. copy.grants.items ≡ self.now.grants.items) }
        ensures sources { IfOk result (λ copy. copy.sources.entries ≡ self.now.sources.entries) }
        ensures pools { IfOk result (λ copy. copy.pools.items ≡ self.now.pools.items) }
        ensures others { IfOk result (λ copy. copy.others.entries ≡ self.now.others.entries) }
    {
        let users = self.users.clone()?;
        let grants = self.grants.clone()?;
        let sources = self.sources.clone()?;
        let links = self.links.copy()?;
        let pools = copy_pools(&self.pools)?;
        let others = self.others.clone()?;
        Ok(Counts {
            users,
            grants,
            sources,
            links,
            pools,
            others,
        })
    }

    /// Makes memory ready for one more session.
    pub(crate) fn room(&mut self) -> Result<(), AllocError>
        ensures users { self.new.users ≡ self.old.users }
        ensures grants { self.new.grants ≡ self.old.grants }
        ensures sources { self.new.sources.entries ≡ self.old.sources.entries }
        ensures pools { self.new.pools ≡ self.old.pools }
        ensures others { self.new.others.entries ≡ self.old.others.entries }
        ensures ready { OnOk result (HasRoom self.new) }
        ensures kept { HasRoom self.old → IsOk result }
        ensures still { HasRoom self.old → HasRoom self.new }
    {
        self.sources.reserve(1)?;
        self.others.reserve(1)?;
        self.links.newest.reserve(1)?;
        self.links.neighbours.reserve(1)
    }

    /// A session comes, which is Pending. Memory was made ready for its source and its address.
    pub(crate) fn come(&mut self, session: &Session)
        requires room { 0 < spare self.old.sources }
        requires others { 0 < spare self.old.others }
        requires pools { All HasLowUses self.old.pools.items }
        ensures { Comes self.old session.now self.new }
    {
        add_one(&mut self.users, session.user as usize);
        add_one(&mut self.grants, session.user as usize);
        sources::add_open(&mut self.sources, session.source);
        self.links.add(session.source, session.number);
        come_to_others(&mut self.others, &self.pools, session);
        come_to_pools(&mut self.pools, session.address, session.number);
    }

    /// The session that was found, if one was, ends. It keeps its address.
    pub(crate) fn end(&mut self, found: Option<Session>)
        ensures { Ends self.old found self.new }
    {
        if let Some(session) = found {
            remove_open(&mut self.users, session.user as usize, session.phase);
            sources::remove_open(&mut self.sources, session.source, session.phase);
            self.links.remove(session.source, session.number);
        }
    }

    /// How many sessions have an address, ended ones included, and the number of the one that got it last.
    pub(crate) fn uses(&self, address: u32) -> Uses
        ensures { (sessions : List Session) → HoldsCounts sessions self.now →
            result.count ≡ count_by (has_address address) sessions }
    {
        for places in &self.pools {
            if let Some(place) = places.place_of(address) {
                return uses_in(places, place);
            }
        }
        others::get(&self.others, address)
    }

    /// Whether no session of a source is open.
    pub(crate) fn none_open(&self, source: u32) -> bool
        requires { HasNoZero self.now.sources.entries }
        ensures { result ≡ (count_at self.now.sources.entries source == 0) }
    {
        !self.sources.contains_key(&source)
    }
}

/// The sessions that `expire` removes.
impl Tally<Session> for Counts {
    ghost told = { λ old session new. Leaves old session new };

    fn leave(&mut self, session: &Session) {
        remove_open(&mut self.users, session.user as usize, session.phase);
        remove_one(&mut self.grants, session.user as usize);
        sources::remove_open(&mut self.sources, session.source, session.phase);
        self.links.remove(session.source, session.number);
        leave_others(&mut self.others, &self.pools, session);
        leave_pools(&mut self.pools, session.address);
    }
}

fn zeros(alloc: Global, len: usize) -> Result<Vec<u64>, AllocError>
    ensures { IfOk result (λ counts. counts.items ≡ replicate len 0) }
{
    vec![in alloc; 0; len]
}

// One session more at a place.
fn add_one(counts: &mut [u64], place: usize)
    ensures { GainsOne place counts.old counts.new }
{
    if place < counts.len() {
        counts[place] = counts[place].saturating_add(1);
    }
}

// One open session less at a place, if the session of this phase was open.
fn remove_open(counts: &mut [u64], place: usize, phase: Phase)
    ensures { LosesAt place phase counts.old counts.new }
{
    if phase != Phase::Ended {
        remove_one(counts, place);
    }
}

// One session less at a place.
fn remove_one(counts: &mut [u64], place: usize)
    ensures { LosesOne place counts.old counts.new }
{
    if place < counts.len() {
        counts[place] = counts[place].saturating_sub(1);
    }
}

fn open_pools(alloc: Global, pools: &[Pool]) -> Result<Vec<Places>, AllocError>
    requires { All IsPool pools.now }
    ensures { IfOk result (λ counted. All (IsCounted []) counted.items) }
{
    let mut counted = Vec::new(alloc);
    for pool in pools {
        let places = Places::open(alloc, pool.first, pool.last - pool.first + 1)?;
        counted.push(places)?;
    }
    Ok(counted)
}

fn copy_pools(pools: &Vec<Places>) -> Result<Vec<Places>, AllocError>
    ensures { IfOk result (λ copy. copy.items ≡ pools.now.items) }
{
    let mut copy = Vec::with_capacity(*pools.allocator(), pools.len())?;
    for places in pools {
        copy.push(places.copy()?)?;
    }
    Ok(copy)
}

// The uses of the address at a place of a pool.
fn uses_in(places: &Places, place: usize) -> Uses
    requires { place < length places.now.uses }
    ensures { result.count ≡ uses_at place places.now }
{
    Uses {
        count: places.uses(place),
        last: places.note(place),
    }
}

// Whether an address is of none of the pools.
fn is_outside(pools: &[Places], address: u32) -> bool
    ensures { result ≡ is_outside pools.now address }
{
    for places in pools {
        if places.place_of(address).is_some() {
            return false;
        }
    }
    true
}

// A session comes, perhaps with an address of none of the pools.
fn come_to_others(others: &mut IndexMap<u32, Uses, HashKey>, pools: &[Places], session: &Session)
    requires { 0 < spare others.old }
    ensures { GainsOther pools.now session.now others.old.entries others.new.entries }
{
    let Some(address) = session.address else {
        return;
    };
    if is_outside(pools, address) {
        others::add(others, address, session.number);
    }
}

// A session goes, perhaps with an address of none of the pools.
fn leave_others(others: &mut IndexMap<u32, Uses, HashKey>, pools: &[Places], session: &Session)
    ensures { LosesOther pools.now session.now others.old others.new }
{
    let Some(address) = session.address else {
        return;
    };
    if is_outside(pools, address) {
        others::remove(others, address);
    }
}

fn come_to_pools(pools: &mut Vec<Places>, address: Option<u32>, number: u64)
    requires { All HasLowUses pools.old.items }
    ensures { pools.new.items ≡ map (places_come address number) pools.old.items }
{
    for places in pools.iter_mut() {
        come_to(places, address, number);
    }
}

// A session comes, perhaps with an address of this pool.
fn come_to(places: &mut Places, address: Option<u32>, number: u64)
    requires { HasLowUses places.old }
    ensures { places.new ≡ places_come address number places.old }
{
    let Some(address) = address else {
        return;
    };
    let Some(place) = places.place_of(address) else {
        return;
    };
    places.add_use(place);
    places.set_note(place, number);
}

fn leave_pools(pools: &mut Vec<Places>, address: Option<u32>)
    ensures { pools.new.items ≡ map (places_left address) pools.old.items }
{
    for places in pools.iter_mut() {
        leave(places, address);
    }
}

// A session goes, perhaps with an address of this pool.
fn leave(places: &mut Places, address: Option<u32>)
    ensures { places.new ≡ places_left address places.old }
{
    let Some(address) = address else {
        return;
    };
    let Some(place) = places.place_of(address) else {
        return;
    };
    places.remove_use(place);
}
