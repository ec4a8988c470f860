//! The laws of histories.
ghost use Rattle.rad_server.specs.Repeats.{RunsRepeat};
ghost use Rattle.rad_server.specs.Runs.{FreshAreEnough, HistoriesAfterTime, LikeAfterTime, RunsAreLawful, StepsAfterTime};

use crate::lawful::lawful_steps;
use rad_auth::admitted_are_answerable;

/// In every history that a server runs from a lawful state, each repeat gets its reply again.
///
/// The call costs nothing: it does nothing at run time.
pub fn runs_repeat()
    ensures { RunsRepeat }
{
    admitted_are_answerable();
}

/// Every history that a server runs from a lawful state leads through lawful states alone.
///
/// The call costs nothing: it does nothing at run time.
pub fn runs_are_lawful()
    ensures { RunsAreLawful }
{
    admitted_are_answerable();
    lawful_steps();
}

/// The fresh entries of a history lead to a state that no later step can tell from the one that all of them lead to.
///
/// The call costs nothing: it does nothing at run time.
pub fn fresh_are_enough()
    ensures { FreshAreEnough }
{
    admitted_are_answerable();
    lawful_steps();
}

/// No step can tell whether time passed before it, so histories with time between them are one history.
///
/// The call costs nothing: it does nothing at run time.
pub fn time_passes_unseen()
    ensures steps { StepsAfterTime }
    ensures histories { HistoriesAfterTime }
    ensures alike { LikeAfterTime }
{}
