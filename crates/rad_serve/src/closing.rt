//! The end of a state under the rules of this program.
ghost use Rattle.std.specs.Prelude.{◌<◌, ℕ};

use crate::life::{Configured, Numbered, before_of, newest_whole, over};
use crate::serve_error::ServeError;
use rad_state::{Folder, State};
use sqlite_trees::store::Store;
use std::alloc::AllocGlobal;
use std::rt::Files;
use std::time::Clock;

/// Begins a generation with what the newest whole one of a folder leads to, under its own configuration. Its number; none if the
/// folder has no generation.
///
/// It has no entries, so that a program with other rules can go on from it. No file with a generation is removed. The first octets
/// of the seed key the hashes of tables; nothing else is drawn. The errors are those of `serve_with_state`.
pub fn close_state<R: Files + Clock + Eprint + AllocGlobal, S: Store + Drop, F: Folder<S> + Drop>(
    rt: &R,
    folder: F,
    seed: [u8; 32],
) -> Result<Option<u32>, ServeError> {
    let mut folder = folder;
    let Some((number, newest)) = newest_whole(rt.alloc(), &mut folder)? else {
        return Ok(None);
    };
    let before = before_of(rt.alloc(), &newest)?;
    let numbered = Numbered {
        folder,
        files_max: u32::MAX,
        number,
    };
    let given = Configured {
        text: before.meta.configuration.octets(),
        config: &before.config,
        seed,
    };
    begin_over(rt, numbered, newest, given)?;
    Ok(Some(number.saturating_add(1)))
}

// Begins the next generation with what the newest one leads to.
fn begin_over<R: Files + Clock + Eprint + AllocGlobal, S: Store + Drop, F: Folder<S> + Drop>(
    rt: &R,
    numbered: Numbered<F>,
    newest: State<S>,
    given: Configured,
) -> Result<(), ServeError>
    requires newest { (later : ℕ) → numbered.number < later → ¬ F.has numbered.folder later }
{
    let mut lines = String::new(rt.alloc());
    let _lives = over(rt, numbered, newest, given, &mut lines)?;
    Ok(())
}
