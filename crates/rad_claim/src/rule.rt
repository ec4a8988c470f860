//! The rule of the claim word, and the steps that keep it.
ghost use Rattle.rad_claim.specs.Draws.{WordIsBounded};

use crate::view::{Size, View};
use atomic_table::{Join, Play, Split, TableRule};

/// The numbers drawn are those below the word, each once.
pub struct Draws;

impl TableRule<(), View, Size> for Draws {
    ghost use Rattle.rad_claim.specs.Draws.{AreDraws, unlent};

    ghost holds = { λ size state. AreDraws size state.words state.views };

    ghost first = { λ size. unlent size.seats };
}

/// A number is drawn: the word goes up by one, and the seat has the number that the word was.
pub struct Draw;

impl Play<(), View> for Draw {
    ghost use Rattle.rad_claim.specs.Draws.{IsDraw};

    ghost then = { λ step before number after. IsDraw before number after };
}

/// A seat is split off. `Claims::open` takes this step, while no seat is lent.
pub struct Lend;

impl Split<View> for Lend {
    ghost use Rattle.rad_claim.specs.Draws.{others_of, first_of};

    ghost left = { others_of };

    ghost right = { first_of };
}

/// A seat is taken back. `Claims::close` takes this step, once all seats are handed in.
pub struct TakeBack;

impl Join<View> for TakeBack {
    ghost use Rattle.rad_claim.specs.Draws.{both_of, spent};

    ghost both = { both_of };

    ghost spent = { spent };
}

/// As long as the rule holds, the word is at most the number of batches and of seats together. So it never wraps around.
///
/// The call costs nothing: it does nothing at run time.
pub fn word_is_bounded()
    ensures { WordIsBounded }
{}
