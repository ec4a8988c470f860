//! The law of the state.
ghost use Rattle.rad_server.specs.Lawful.{OpeningIsLawful, PassingKeepsTheLaw, RestoreIsTheLaw, RestoreRebuilds, StepKeepsTheLaw};

use rad_pool::lawful_sessions;
use rad_recent::{lawful_challenges, lawful_replies};

/// The state before the first request is lawful, and with a configuration in its ranges the step for a request that may be answered
/// leads from a lawful state to a lawful one, at any moment up to `MOMENT_MAX` and with any draw of 16 octets. So does time that
/// passes.
///
/// The call costs nothing: it does nothing at run time. A proof about many steps calls it to use the law.
pub fn lawful_steps()
    ensures opening { OpeningIsLawful }
    ensures step { StepKeepsTheLaw }
    ensures passing { PassingKeepsTheLaw }
{
    lawful_sessions();
    lawful_replies();
    lawful_challenges();
}

/// A row is put back into a lawful state just where the state with it is lawful and no number is given twice; and the rows of a
/// lawful state, put back in their order into a server that remembers nothing and whose clock is that state's, give that state.
///
/// So no state that a server can reach is refused: `lawful_steps` says that each is lawful. The call costs nothing: it does nothing
/// at run time.
pub fn rows_rebuild()
    ensures law { RestoreIsTheLaw }
    ensures rebuilt { RestoreRebuilds }
{
    lawful_sessions();
    lawful_replies();
    lawful_challenges();
}
