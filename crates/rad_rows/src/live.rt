//! How many rows are live.
ghost use Rattle.std.specs.Prelude.{◌≡◌, ◌-◌};

use crate::row::Tally;

/// How many rows there are, of which those that aren't live are taken off.
#[derive(Clone, Copy)]
pub(crate) struct Live {
    pub(crate) count: usize,
}

impl<T> Tally<T> for Live {
    ghost told = { λ old row new. new.count ≡ old.count - 1 };

    fn leave(&mut self, _row: &T) {
        self.count = self.count.saturating_sub(1);
    }
}
