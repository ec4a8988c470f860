//! The law of snapshots.
ghost use Rattle.rad_snapshot.specs.Snapshots.{OneSnapshotOneState};

use rad_server::rows_rebuild;

/// Two lawful states of one configuration have different snapshots, unless they are equal.
///
/// The call costs nothing: it does nothing at run time.
pub fn snapshots_differ()
    ensures { OneSnapshotOneState }
{
    rows_rebuild();
}
