//! What serves: in memory, or over the generations of a state.
ghost use Rattle.std.specs.Prelude.{◌≡◌, ◌<◌, ◌≤◌, ◌-ℤ◌, ℕ, pos, true, [], IfOk, IfSome, IsSome, IsTrue, MatchOption, None, Ok};
ghost use Rattle.std.specs.Prelude.{Some};
ghost use Rattle.sqlite_trees.specs.View.{IsClean};
ghost use Rattle.rad_config.specs.Configurations.{configuration_of_octets};
ghost use Rattle.rad_config.specs.Spans.{moment_max};
ghost use Rattle.rad_journal.specs.Restores.{IsRestored};
ghost use Rattle.rad_journal.specs.Stores.{kept_in};
ghost use Rattle.rad_serve.specs.Lives.{GoesOn, IsLedTo, carried_server};
ghost use Rattle.rad_state.specs.Fits.{Fits};
ghost use Rattle.rad_state.specs.Moments.{moment_of};
ghost use Rattle.rad_state.specs.Generations.{Generation, Holds, IsInUse, fresh_server};
ghost use Rattle.rad_state.specs.declared.meta.Meta.{Meta};

use crate::given::random_of;
use crate::moments::{Moments, clocks};
use crate::restored::{MARK, push_restored};
use crate::serve_error::ServeError;
use crate::watched_journal::WatchedJournal;
use rad_carry::carry;
use rad_config::{Config, read_configuration};
use rad_journal::{NoJournal, StoreJournal, restore};
use rad_packet::Octets;
use rad_server::{HashKey, Server};
use rad_shell::Service;
use rad_state::{
    Clocks, FORMAT, FileGenerations, Folder, Keeping, Last, Meta, OneGeneration, OpenFault, RULES,
    State, bases_differ, next_moment,
};
use rand_chacha::ChaCha20Rng;
use sqlite_trees::store::Store;
use std::alloc::{AllocError, AllocGlobal, Global};
use std::rt::Files;
use std::time::Clock;

/// A service, the source of its draws, its clock, and what keeps its entries.
#[derive(Drop)]
pub(crate) struct Life<'c, K, J> {
    pub service: Service<'c>,
    pub random: ChaCha20Rng,
    pub moments: Moments,
    pub keeping: Keeping<K, J>,
}

/// A configuration, its text, and the seed of the draws.
#[derive(Clone, Copy)]
pub(crate) struct Configured<'t, 'c> {
    pub text: &'t [u8],
    pub config: &'c Config,
    pub seed: [u8; 32],
    ghost reads: { configuration_of_octets text.now ≡ Ok config.now },
}

/// A folder of generations, how many files of it are kept, and the number of the newest, or 0.
#[derive(Drop)]
pub(crate) struct Numbered<F> {
    pub folder: F,
    pub files_max: u32,
    pub number: u32,
}

/// The meta of a generation, and the configuration under which its entries were answered.
#[derive(Drop)]
pub(crate) struct Before {
    pub meta: Meta,
    pub config: Config,
}

/// A server to which a generation leads, the journal of the generation, and the beginning of the life that goes on from it.
#[derive(Drop)]
pub(crate) struct Led<'c, S: Store> {
    pub server: Server<'c>,
    pub journal: StoreJournal<S>,
    pub beginning: Beginning,
}

/// What the clocks show at the beginning of a life, and its clock.
#[derive(Clone, Copy)]
pub(crate) struct Beginning {
    clocks: Clocks,
    moments: Moments,
    ghost running: { clocks.running ≤ moment_max },
    ghost first: { moments.first ≤ moment_max },
}

/// A life that begins with nothing, and keeps nothing.
pub(crate) fn in_memory<'c>(
    alloc: Global,
    config: &'c Config,
    seed: [u8; 32],
) -> Result<Life<'c, OneGeneration<'c>, NoJournal>, ServeError> {
    let (random, key) = random_of(seed, 0);
    Ok(Life {
        service: Service::open_keyed(alloc, config, key)?,
        random,
        moments: Moments::of_system(),
        keeping: Keeping {
            generations: OneGeneration { config },
            journal: NoJournal,
        },
    })
}

/// The newest whole generation of a folder, with its number. Files after it, in which none was begun, are set aside.
pub(crate) fn newest_whole<S: Store + Drop, F: Folder<S>>(
    alloc: Global,
    folder: &mut F,
) -> Result<Option<(u32, State<S>)>, OpenFault>
    ensures newest { IfOk result (λ found. MatchOption found
        ((number : ℕ) → ¬ F.has folder.new number)
        (λ found. (later : ℕ) → found.0 < later → ¬ F.has folder.new later)) }
    ensures whole { IfOk result (λ found. IfSome found (λ found. IsSome found.1.found)) }
{
    for _ in 0..=u32::MAX {
        let Some(number) = folder.newest() else {
            return Ok(None);
        };
        if let Some(state) = whole(alloc, folder, number)? {
            return Ok(Some((number, state)));
        }
        folder.set_aside(number)?;
    }
    Err(OpenFault::Damaged)
}

// The generation in a file, if one is whole there.
fn whole<S: Store + Drop, F: Folder<S>>(
    alloc: Global,
    folder: &mut F,
    number: u32,
) -> Result<Option<State<S>>, OpenFault>
    ensures only { (other : ℕ) → F.has folder.new other → F.has folder.old other }
    ensures whole { IfOk result (λ found. IfSome found (λ state. IsSome state.found)) }
{
    let store = match folder.open(alloc, number) {
        Err(OpenFault::Unfinished) => return Ok(None),
        opened => opened?,
    };
    let state = State::open(alloc, store)?;
    if state.found().is_none() {
        return Ok(None);
    }
    Ok(Some(state))
}

/// The first life over a folder without a generation: it begins with nothing, and its generation is the first.
pub(crate) fn first<'c, R: Files + Clock + AllocGlobal, S: Store + Drop, F: Folder<S> + Drop>(
    rt: &R,
    numbered: Numbered<F>,
    given: Configured<'_, 'c>,
) -> Result<Life<'c, FileGenerations<'c, S, F>, StoreJournal<S>>, ServeError>
    requires newest { (later : ℕ) → numbered.number < later → ¬ F.has numbered.folder later }
    ensures fresh { IfOk result (λ life. life.service
        ≡ carried_server given.entry.config.now (fresh_server given.entry.config.now)) }
    ensures in_use { IfOk result (λ life. IsClean (S.view life.keeping.journal.store)
        → IsInUse (F.has life.keeping.generations.folder) life.keeping.generations.number
        (S.recovers life.keeping.journal.store) given.entry.config.now life.service) }
    ensures kept { IfOk result (λ life. IsClean (S.view life.keeping.journal.store)
        → kept_in (S.view life.keeping.journal.store) ≡ []) }
    ensures open { IfOk result (λ life. IsClean (S.view life.keeping.journal.store)
        → IsTrue (S.view life.keeping.journal.store).is_open × IsSome life.keeping.journal.count) }
{
    let clocks = clocks(rt).ok_or(ServeError::Clocks)?;
    let moments = Moments::from(rt, 0);
    let (_, key) = random_of(given.seed, numbered.number);
    let before = Server::open_keyed(rt.alloc(), given.config, key)?;
    let beginning = Beginning { clocks, moments };
    // Nothing was restored, so nothing is told.
    let mut untold = String::new(rt.alloc());
    begin(rt.alloc(), numbered, beginning, &before, given, &mut untold)
}

/// The life that goes on from a generation, and the journal that leads to what it takes over.
pub(crate) fn over<
    'c,
    R: Files + Clock + Eprint + AllocGlobal,
    S: Store + Drop,
    F: Folder<S> + Drop,
>(
    rt: &R,
    numbered: Numbered<F>,
    newest: State<S>,
    given: Configured<'_, 'c>,
    lines: &mut String,
) -> Result<
    (
        Life<'c, FileGenerations<'c, S, F>, StoreJournal<S>>,
        StoreJournal<S>,
    ),
    ServeError,
>
    requires newest { (later : ℕ) → numbered.number < later → ¬ F.has numbered.folder later }
    ensures goes_on { IfOk result (λ lives. IsClean (S.view lives.1.store)
        → (left : Generation) → Holds (S.view newest.store).committed left
        → GoesOn left given.entry.config.now lives.0.service) }
    ensures in_use { IfOk result (λ lives. IsClean (S.view lives.0.keeping.journal.store)
        → IsInUse (F.has lives.0.keeping.generations.folder) lives.0.keeping.generations.number
        (S.recovers lives.0.keeping.journal.store) given.entry.config.now lives.0.service) }
    ensures kept { IfOk result (λ lives. IsClean (S.view lives.0.keeping.journal.store)
        → kept_in (S.view lives.0.keeping.journal.store) ≡ []) }
    ensures open { IfOk result (λ lives. IsClean (S.view lives.0.keeping.journal.store)
        → IsTrue (S.view lives.0.keeping.journal.store).is_open
        × IsSome lives.0.keeping.journal.count) }
    ensures later { IfOk result (λ lives. moment_of newest.last ≤ lives.0.moments.first) }
{
    let before = before_of(rt.alloc(), &newest)?;
    let (_, key) = random_of(given.seed, numbered.number);
    let Led {
        server,
        journal,
        beginning,
    } = led_to(rt, newest, &before, key)?;
    let life = begin(rt.alloc(), numbered, beginning, &server, given, lines)?;
    Ok((life, journal))
}

/// The server to which a generation leads, under its configuration, at the moment now. How far it is, is told.
pub(crate) fn led_to<'c, R: Files + Clock + Eprint + AllocGlobal, S: Store + Drop>(
    rt: &R,
    newest: State<S>,
    before: &'c Before,
    key: HashKey,
) -> Result<Led<'c, S>, ServeError>
    requires meta { newest.found ≡ Some before.now.meta }
    requires text { configuration_of_octets before.now.meta.configuration ≡ Ok before.now.config }
    ensures led { IfOk result (λ led. IsClean (S.view led.journal.store)
        → (left : Generation) → Holds (S.view newest.store).committed left
        → IsLedTo left led.server) }
    ensures later { IfOk result (λ led. moment_of newest.last ≤ led.beginning.moments.first) }
{
    let clocks = clocks(rt).ok_or(ServeError::Clocks)?;
    // Read with the clocks: moments that began later would lag behind those of the next life.
    let now = Moments::from(rt, 0);
    let last = times_of(newest.last(), before.meta.wall);
    let (mut server, journal) = restored(rt, newest, &before.config, key)?;
    server.state_is_lawful();
    let last = Last {
        moment: last.moment.max(server.clock()),
        ..last
    };
    let moments = Moments {
        first: next_moment(&before.meta, last, &clocks),
        ..now
    };
    server.pass(moments.first);
    server.state_is_lawful();
    Ok(Led {
        server,
        journal,
        beginning: Beginning { clocks, moments },
    })
}

// The times of the last entry, or those at which a generation without entries began.
fn times_of(last: Option<Last>, wall: i64) -> Last
    requires { moment_of last ≤ moment_max }
    ensures later { moment_of last ≤ result.moment }
    ensures bounded { result.moment ≤ moment_max }
{
    match last {
        Some(last) => last,
        None => Last {
            wall: u64::try_from(wall).unwrap_or(0),
            moment: 0,
        },
    }
}

/// The meta of a state, and its configuration.
pub(crate) fn before_of<S: Store + Drop>(
    alloc: Global,
    state: &State<S>,
) -> Result<Before, ServeError>
    ensures meta { IfOk result (λ before. state.now.found ≡ Some before.meta) }
    ensures text { IfOk result (λ before.
        configuration_of_octets before.meta.configuration ≡ Ok before.config) }
{
    let meta = meta_of(alloc, state)?;
    match read_configuration(alloc, meta.configuration.octets()) {
        Ok(config) => Ok(Before { meta, config }),
        Err(fault) => Err(ServeError::OtherConfig(fault)),
    }
}

// A copy of the meta of a state.
fn meta_of<S: Store + Drop>(alloc: Global, state: &State<S>) -> Result<Meta, ServeError>
    ensures { IfOk result (λ meta. state.now.found ≡ Some meta) }
{
    let Some(meta) = state.found() else {
        return Err(ServeError::State(OpenFault::Damaged));
    };
    Ok(Meta {
        configuration: Octets::of(alloc, meta.configuration.octets())?,
        ..*meta
    })
}

// The server at which a generation begins, stepped through its entries under its configuration; and its journal.
fn restored<'c, R: Clock + Eprint + AllocGlobal, S: Store + Drop>(
    rt: &R,
    state: State<S>,
    config: &'c Config,
    key: HashKey,
) -> Result<(Server<'c>, StoreJournal<S>), ServeError>
    requires text { (meta : Meta) → state.found ≡ Some meta
        → configuration_of_octets meta.configuration ≡ Ok config.now }
    ensures restored { IfOk result (λ ended. IsClean (S.view ended.1.store)
        → (left : Generation) → Holds (S.view state.store).committed left
        → IsRestored left.base left.entries ended.0
        × (ended.0.configuration ≡ left.base.configuration)) }
{
    bases_differ();
    let (server, journal) = state.into_parts(rt.alloc(), config, key)?;
    let count = journal.count().unwrap_or(0);
    let mut journal = WatchedJournal::new(rt, journal, count);
    let mut server = server;
    restore(rt.alloc(), &mut journal, &mut server)?;
    Ok((server, journal.into_journal()))
}

// The life of a configuration that takes over what a server remembers, in the next file of a folder.
fn begin<'c, S: Store + Drop, F: Folder<S> + Drop>(
    alloc: Global,
    numbered: Numbered<F>,
    beginning: Beginning,
    before: &Server,
    given: Configured<'_, 'c>,
    lines: &mut String,
) -> Result<Life<'c, FileGenerations<'c, S, F>, StoreJournal<S>>, ServeError>
    requires newest { (later : ℕ) → numbered.number < later → ¬ F.has numbered.folder later }
    ensures carried { IfOk result (λ life. life.service
        ≡ carried_server given.entry.config.now before.now) }
    ensures in_use { IfOk result (λ life. IsClean (S.view life.keeping.journal.store)
        → IsInUse (F.has life.keeping.generations.folder) life.keeping.generations.number
        (S.recovers life.keeping.journal.store) given.entry.config.now life.service) }
    ensures kept { IfOk result (λ life. IsClean (S.view life.keeping.journal.store)
        → kept_in (S.view life.keeping.journal.store) ≡ []) }
    ensures open { IfOk result (λ life. IsClean (S.view life.keeping.journal.store)
        → IsTrue (S.view life.keeping.journal.store).is_open × IsSome life.keeping.journal.count) }
    ensures moments { IfOk result (λ life. life.moments ≡ beginning.moments) }
{
    let Numbered {
        folder,
        files_max,
        number,
    } = numbered;
    let (random, key) = random_of(given.seed, number.saturating_add(1));
    let carried = carry(alloc, before, given.config, key)?;
    // Before the generation begins, so that no session is left out without a line.
    push_restored(lines, MARK, before.config().users(), &carried)?;
    let meta = new_meta(alloc, beginning, given.text)?;
    let Keeping {
        generations,
        journal,
    } = FileGenerations::start(alloc, folder, files_max, number, meta, &carried.server)?;
    Ok(Life {
        service: Service::of(alloc, carried.server),
        random,
        moments: beginning.moments,
        keeping: Keeping {
            generations,
            journal,
        },
    })
}

// The meta of the generation with which a life of a configuration begins.
fn new_meta(alloc: Global, beginning: Beginning, text: &[u8]) -> Result<Meta, AllocError>
    ensures fits { IfOk result (λ meta. Fits meta true) }
    ensures configuration { IfOk result (λ meta. meta.configuration ≡ text.now) }
    ensures boot { IfOk result (λ meta. meta.boot ≡ beginning.clocks.boot) }
    ensures zero { IfOk result (λ meta. meta.zero
        ≡ pos beginning.clocks.running -ℤ pos beginning.moments.first) }
{
    let Beginning { clocks, moments } = beginning;
    Ok(Meta {
        format: FORMAT,
        rules: RULES,
        configuration: Octets::of(alloc, text)?,
        boot: clocks.boot,
        zero: clocks.running as i64 - moments.first as i64,
        wall: i64::try_from(clocks.wall).unwrap_or(i64::MAX),
    })
}
