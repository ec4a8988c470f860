//! Where what is kept leads to.
ghost use Rattle.rad_journal.specs.Leads.{FreshAreKept, KeptLastOverTime, KeptLeadOn};

use crate::keeping::kept_are_restored;
use rad_server::{fresh_are_enough, time_passes_unseen};

/// What is kept of histories is enough: it leads to a server that no later step can tell from the one to which the histories lead.
///
/// The call costs nothing: it does nothing at run time.
pub fn kept_is_enough()
    ensures fresh { FreshAreKept }
    ensures on { KeptLeadOn }
    ensures time { KeptLastOverTime }
{
    fresh_are_enough();
    kept_are_restored();
    time_passes_unseen();
}
