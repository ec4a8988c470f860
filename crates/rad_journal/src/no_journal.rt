//! A journal that keeps nothing.
ghost use Rattle.std.specs.Prelude.{◌≡◌, List, [], false, refl};
ghost use Rattle.std.proofs.Common.{◌∙◌, ap, sym};
ghost use Rattle.rad_journal.specs.Records.{records_of};
ghost use Rattle.rad_journal.specs.declared.kept.Kept.{Kept};

use crate::journal::{Journal, JournalFault, Reopen};
use crate::kept::Kept;
use std::alloc::Global;

/// A journal that keeps nothing: each commit succeeds, and a crash leaves no entry.
#[derive(Clone, Copy, Debug)]
pub struct NoJournal;

impl Journal for NoJournal {
    ghost keeps = { false };

    ghost kept = { λ _. [] };

    ghost may_leave = { λ _ left. left ≡ [] };

    ghost leaves_beside = { λ _ _. Unit {0} };

    ghost may_record = { λ _ left rows. (left ≡ []) × (rows ≡ (λ _. [])) };

    ghost is_clean = { λ _. Unit {0} };

    ghost is_open = { λ _. Unit {0} };

    ghost has_failed = { λ _ _. ⊥ };

    ghost records = { λ _ left is. ((λ _. []), (is, refl)) };

    ghost recorded = { λ _ _ left rows is register. ap (λ r. r register) is.1
        ∙ ap (λ (l : List Kept). records_of register l) (sym is.0) };

    ghost settled = { λ _ _ left is. is };

    ghost stays = { λ _ _ _. refl };

    fn keeps(&self) -> bool {
        false
    }

    fn commit(&mut self, _entries: &[Kept]) -> Result<(), JournalFault> {
        Ok(())
    }

    fn entry(&mut self, _alloc: Global, _place: u32) -> Result<Option<Kept>, JournalFault> {
        Ok(None)
    }
}

impl Reopen for NoJournal {
    fn crash_and_reopen(&mut self, _alloc: Global) -> Result<(), JournalFault> {
        Ok(())
    }
}
