//! Generations of what a server keeps.
ghost use Rattle.std.specs.Prelude.{◌≡◌, ◌⊎◌, [], OnErr, OnOk};
ghost use Rattle.std.proofs.Common.{◌∙◌, ap, sym};
ghost use Rattle.rad_config.specs.Configurations.{Configuration};
ghost use Rattle.rad_journal.specs.Stores.{Beside};
ghost use Rattle.rad_server.specs.Servers.{Server};
ghost use Rattle.rad_state.specs.Generations.{Generation, LeavesOf, fresh_server, just_begun};

use rad_config::Config;
use rad_journal::{Journal, JournalFault};
use rad_server::Server;
use std::alloc::Global;

/// Generations, of which a crash leaves the newest: each begins at a server, its base, and a journal has what is kept since.
///
/// For callers: once a call has failed, no entry may be added until they are opened again.
///
/// For implementers: whatever a failed call may have left on the disk is in `may_leave`.
pub trait Generations<J: Journal> {
    /// The generation that the next open may find after a crash at this moment.
    ghost may_leave: { Self → J → Generation → Type 0 };

    /// The base of whatever a crash leaves.
    ghost has_base: { Self → J → Server → Type 0 };

    /// The configuration of each base.
    ghost configuration: { Self → Configuration };

    /// No wrong answer of the disk has been taken as true so far, beside those that the journal knows of.
    ghost is_clean: { Self → Type 0 };

    /// If inhabited: a journal that is clean after `begin` was clean before it.
    ghost reaches_back: { Type 0 };

    /// If inhabited: there is one generation, and no other ever begins.
    ghost is_alone: { Type 0 };

    /// Whether a new generation is due, when the server's clock shows this moment. No promise is made about the answer.
    fn is_due(&self, journal: &J, clock: u64) -> bool;

    /// Begins a new generation at a server of the same configuration, with a journal of its own.
    ///
    /// For a crash it is one step: a crash leaves the generation before, with all its entries, or the new one. After an error the
    /// journal is the one before, and a crash may leave either.
    fn begin(&mut self, alloc: Global, journal: &mut J, server: &Server) -> Result<(), JournalFault>
        ensures clean { is_clean self.new → is_clean self.old }
        ensures back { reaches_back → J.is_clean journal.new → J.is_clean journal.old }
        ensures kept { OnOk result (is_clean self.new → J.is_clean journal.new
            → J.kept journal.new ≡ []) }
        ensures base { OnOk result (is_clean self.new → J.is_clean journal.new
            → server.now.configuration ≡ configuration self.old
            → has_base self.new journal.new server.now) }
        ensures open { OnOk result (is_clean self.new → J.is_clean journal.new
            → J.is_open journal.new) }
        ensures other { OnOk result (is_alone → ⊥) }
        ensures configuration { configuration self.new ≡ configuration self.old }
        ensures same { OnErr result (journal.new ≡ journal.old) }
        ensures crash { is_clean self.new → J.is_clean journal.new
            → (base : Server) → has_base self.old journal.old base
            → server.now.configuration ≡ configuration self.old
            → (left : Generation) → may_leave self.new journal.new left
            → ((left.base ≡ base) × J.may_leave journal.old left.entries)
            ⊎ ((is_alone → ⊥) × (left ≡ just_begun server.now)) }
        ensures survives { OnErr result (is_clean self.new → J.is_clean journal.new
            → J.is_open journal.old → (base : Server) → has_base self.old journal.old base
            → (left : Generation) × may_leave self.new journal.new left) };

    /// A base has the configuration.
    ghost configured: { (it : Self) (journal : J) (base : Server) → has_base it journal base
        → base.configuration ≡ configuration it };

    /// What a crash leaves has this base, and entries that it may leave of the journal.
    ghost leaves_base: { (it : Self) (journal : J) (base : Server) → has_base it journal base
        → (left : Generation) → may_leave it journal left
        → (left.base ≡ base) × J.may_leave journal left.entries };

    /// While the journal is open, a crash does leave what was kept.
    ghost stays: { (it : Self) (journal : J) (base : Server) → is_clean it → J.is_clean journal
        → J.is_open journal → has_base it journal base
        → may_leave it journal (record { base = base; entries = J.kept journal }) };

    /// Calls of the journal don't change the base.
    ghost keeps_base: { (it : Self) (old new : J) (base : Server) → has_base it old base
        → ((beside : Beside) → J.leaves_beside old beside → J.leaves_beside new beside)
        → has_base it new base };
}

/// What keeps a server's entries: generations, and the journal of the newest one.
#[derive(Drop)]
pub struct Keeping<K, J> {
    pub generations: K,
    pub journal: J,
}

/// One generation that goes on for ever. Its base is a server that has just opened.
#[derive(Clone, Copy)]
pub struct OneGeneration<'c> {
    /// The configuration of that server.
    pub config: &'c Config,
}

impl<'c, J: Journal> Generations<J> for OneGeneration<'c> {
    ghost may_leave = { λ it journal. LeavesOf it.config.now (J.may_leave journal) };

    ghost has_base = { λ it journal base. base ≡ fresh_server it.config.now };

    ghost configuration = { λ it. it.config.now };

    ghost is_clean = { λ _. Unit {0} };

    ghost reaches_back = { Unit {0} };

    ghost is_alone = { Unit {0} };

    ghost configured = { λ it journal base is. ap (λ (b : Server). b.configuration) is };

    ghost leaves_base = { λ it journal base is left may. (may.0 ∙ sym is, may.1) };

    ghost stays = { λ it journal base _ clean is_open is. (is, J.stays journal clean is_open) };

    ghost keeps_base = { λ it old new base is kept. is };

    fn is_due(&self, _journal: &J, _clock: u64) -> bool {
        false
    }

    fn begin(
        &mut self,
        _alloc: Global,
        _journal: &mut J,
        _server: &Server,
    ) -> Result<(), JournalFault> {
        Err(JournalFault::Full)
    }
}
