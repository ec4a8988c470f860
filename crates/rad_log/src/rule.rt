//! The rule of the log's word, and the steps that keep it.
use atomic_table::{Join, Play, Split, TableRule};
use std::collections::LinkedList;

/// What one taking of the lock appended to the history, and the number under which it was published. No value is made, since only
/// proofs see takings.
pub struct Taking<T> {
    pub number: u64,
    pub entries: LinkedList<T>,
}

/// What a seat knows: the keeper knows all takings, a ticket its own. No value is made, since only proofs see views.
pub struct View<T> {
    pub keeps: bool,
    pub log: LinkedList<Taking<T>>,
    pub claims: bool,
    pub taking: Taking<T>,
}

/// One keeper at most knows the log, and each taking that is claimed stands in it.
pub struct Takings;

impl<T> TableRule<Vec<T>, View<T>, ()> for Takings {
    ghost use Rattle.std.specs.Prelude.{[]};
    ghost use Rattle.rad_log.specs.Logs.{IsKept, keeper_of};

    ghost holds = { λ key state. IsKept state.views };

    ghost first = { λ key. keeper_of [] };
}

/// What a history has more than the log is put last in the log, as one taking.
pub struct Publish;

impl<T> Play<Vec<T>, View<T>> for Publish {
    ghost use Rattle.rad_log.specs.Logs.{IsPublished};

    ghost then = { λ step before number after. IsPublished step.first step.said before after };
}

/// A ticket of the last taking is split off the keeper.
pub struct SplitOff;

impl<T> Split<View<T>> for SplitOff {
    ghost use Rattle.rad_log.specs.Logs.{claim_in, without_claim};

    ghost left = { without_claim };

    ghost right = { claim_in };
}

/// The keeper takes a ticket back.
pub struct TakeBack;

impl<T> Join<View<T>> for TakeBack {
    ghost use Rattle.rad_log.specs.Logs.{spent, with_claim_of};

    ghost both = { with_claim_of };

    ghost spent = { spent };
}

/// What is claimed stands in the log.
pub struct Find;

impl<T> Play<Vec<T>, View<T>> for Find {
    ghost use Rattle.rad_log.specs.Logs.{IsFound};

    ghost then = { λ step before number after. IsFound before after };
}
