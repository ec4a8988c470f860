//! The tables of a journal beside its entries.
ghost use Rattle.std.specs.Prelude.{◌≡◌};
ghost use Rattle.rad_journal.specs.Records.{register_tree};

/// A table of records, each of which has the number of its entry.
#[derive(Clone, Copy, Debug, PartialEq, Eq)]
pub enum Register {
    /// The Accounting-Requests.
    Accounting,
    /// The sessions that are granted.
    Grants,
}

impl Register {
    /// The number of its tree.
    pub fn tree(self) -> u32
        ensures { result ≡ register_tree self }
    {
        match self {
            Register::Accounting => 1,
            Register::Grants => 2,
        }
    }
}
