//! The tables of a snapshot.
ghost use Rattle.std.specs.Prelude.{◌≡◌};
ghost use Rattle.rad_snapshot.specs.Snapshots.{tree_of};

/// A table of a snapshot.
#[derive(Clone, Copy, Debug, PartialEq, Eq)]
pub enum SnapshotTable {
    /// The sessions, oldest first.
    Sessions,
    /// The kept replies, oldest first.
    Replies,
    /// The challenges that wait, oldest first.
    Challenges,
    /// One row: the clock, and the last numbers that were given to a session and to a challenge.
    Numbers,
}

impl SnapshotTable {
    // The number of its tree.
    pub(crate) fn tree(self) -> u32
        ensures { result ≡ tree_of self }
    {
        match self {
            SnapshotTable::Sessions => 4,
            SnapshotTable::Replies => 5,
            SnapshotTable::Challenges => 6,
            SnapshotTable::Numbers => 7,
        }
    }
}
