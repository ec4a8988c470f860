//! What a server would take over from a state, and what it would leave out.
ghost use Rattle.std.specs.Prelude.{IfOk};
ghost use Rattle.sqlite_trees.specs.View.{IsClean};
ghost use Rattle.rad_serve.specs.Lives.{GoesOn};
ghost use Rattle.rad_state.specs.Generations.{Generation, Holds};

use crate::given::random_of;
use crate::life::{Led, before_of, led_to, newest_whole};
use crate::restored::push_restored;
use crate::serve_error::ServeError;
use rad_carry::{Carried, carry};
use rad_config::Config;
use rad_journal::StoreJournal;
use rad_server::HashKey;
use rad_state::{Folder, State};
use sqlite_trees::store::Store;
use std::alloc::AllocGlobal;
use std::rt::Files;
use std::time::Clock;

/// What a start would tell that goes on from a folder's newest whole generation under this configuration; none if there is no
/// generation.
///
/// Each line is as a start has it, but for the mark. No generation begins, but files after the newest whole one are set aside as
/// the folder does it. The first octets of the seed key the hashes of tables. `State`, `OtherConfig`, `Restore`: as
/// `serve_with_state` says.
pub fn preview<R: Files + Clock + Eprint + AllocGlobal, S: Store + Drop, F: Folder<S> + Drop>(
    rt: &R,
    folder: F,
    config: &Config,
    seed: [u8; 32],
) -> Result<Option<String>, ServeError> {
    let mut folder = folder;
    let Some((number, newest)) = newest_whole(rt.alloc(), &mut folder)? else {
        return Ok(None);
    };
    let (_, key) = random_of(seed, number);
    let mut lines = String::new(rt.alloc());
    let _taken = taken_over(rt, newest, config, key, &mut lines)?;
    Ok(Some(lines))
}

// What a server of a configuration takes over from a generation, and the journal that leads to it.
fn taken_over<'c, R: Files + Clock + Eprint + AllocGlobal, S: Store + Drop>(
    rt: &R,
    newest: State<S>,
    config: &'c Config,
    key: HashKey,
    lines: &mut String,
) -> Result<(Carried<'c>, StoreJournal<S>), ServeError>
    ensures goes_on { IfOk result (λ taken. IsClean (S.view taken.1.store)
        → (left : Generation) → Holds (S.view newest.store).committed left
        → GoesOn left config.now taken.0.server) }
{
    let before = before_of(rt.alloc(), &newest)?;
    let Led {
        server,
        journal,
        ..
    } = led_to(rt, newest, &before, key)?;
    let carried = carry(rt.alloc(), &server, config, key)?;
    push_restored(lines, "", before.config.users(), &carried)?;
    Ok((carried, journal))
}
