//! The laws of what is carried.
ghost use Rattle.rad_carry.specs.Laws.{CarriedIsLawful, CarriedIsTheSame, NoneIsLeftOut};

use rad_server::{lawful_steps, rows_rebuild};

/// What is carried of a lawful state is lawful under the new configuration; and to the same configuration all is carried.
///
/// So no address belongs to two sessions afterwards, and no number is given twice. The call costs nothing: it does nothing at run
/// time.
pub fn carried_is_lawful()
    ensures lawful { CarriedIsLawful }
    ensures same { CarriedIsTheSame }
    ensures none { NoneIsLeftOut }
{
    lawful_steps();
    rows_rebuild();
}
