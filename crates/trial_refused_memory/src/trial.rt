//! How a call is judged in which an allocation may be refused.

use rad_server::HashKey;
use std::alloc::{AllocError, Global};

/// The key of a table's hash.
pub(crate) const HASH_KEY: HashKey = HashKey { low: 1, high: 2 };

/// The octets of an allocation that is no use but to mark that from here on allocations are counted, and one may be refused.
/// `trials/refused_memory/refuse.c` knows the number.
const FIRST_MARK: usize = 1_000_003;

/// The same, where that ends.
const LAST_MARK: usize = 1_000_033;

/// How a run is judged.
#[derive(Clone, Copy)]
pub(crate) enum Verdict {
    /// All is as it must be.
    Right,
    /// The values that a call needs aren't there, though no memory is refused yet.
    Unready,
    /// A call that was refused memory changed a value.
    Changed,
    /// A call gives something else than it gives with all its memory.
    Other,
    /// A call reports a fault that is not the memory's.
    Fault,
    /// A call reports that memory was refused, where none is.
    Refused,
    /// A replay reports no fault, though its configuration has one.
    NoFault,
    /// A replay wrote lines, and then reports a fault.
    LinesBeforeFault,
}

impl Verdict {
    /// How a call is judged that is done: by whether it gave what it must.
    pub fn of(is_right: bool) -> Verdict {
        if is_right {
            Verdict::Right
        } else {
            Verdict::Other
        }
    }

    /// What is printed of it.
    pub fn text(self) -> &'static str {
        match self {
            Verdict::Right => "right",
            Verdict::Unready => "wrong: not ready for the call",
            Verdict::Changed => "wrong: a change by a refusal",
            Verdict::Other => "wrong: another result",
            Verdict::Fault => "wrong: another fault",
            Verdict::Refused => "wrong: refused without a refusal",
            Verdict::NoFault => "wrong: no fault",
            Verdict::LinesBeforeFault => "wrong: lines before a fault",
        }
    }
}

/// How a call ended.
#[derive(Clone, Copy, Debug, PartialEq, Eq)]
pub(crate) enum Called {
    Done,
    /// Memory was refused.
    Refused,
    /// It reported another fault.
    Failed,
}

impl Called {
    /// How a call ended whose only fault is that memory was refused.
    pub fn by(is_done: bool) -> Called {
        if is_done {
            Called::Done
        } else {
            Called::Refused
        }
    }
}

/// A call, the value on which it is made, and what it gave.
pub(crate) trait Trial: Drop {
    /// The same call, on an equal value.
    fn copy(&self) -> Option<Self>;

    /// Whether the values are the same, and what was given.
    fn is_like(&self, other: &Self) -> bool;

    fn call(&mut self) -> Called;
}

/// From here on allocations may be refused.
pub(crate) fn begin(alloc: Global) {
    mark(alloc, FIRST_MARK);
}

/// From here on none is.
pub(crate) fn end(alloc: Global) {
    mark(alloc, LAST_MARK);
}

/// Whether a call is made for the first time, or again after a refusal.
#[derive(Clone, Copy)]
pub(crate) enum Time {
    First,
    Again,
}

impl Time {
    /// From here on allocations may be refused, the first time.
    pub fn begin(self, alloc: Global) {
        if matches!(self, Time::First) {
            begin(alloc);
        }
    }

    /// From here on none is.
    pub fn end(self, alloc: Global) {
        if matches!(self, Time::First) {
            end(alloc);
        }
    }
}

fn mark(alloc: Global, size: usize) {
    let _mark = Vec::<u8>::with_capacity(alloc, size).is_ok();
}

/// Makes the call of a trial, in which memory may be refused. A refusal must change nothing, and in the end, made once more after a
/// refusal, the call must have done and given what it does and gives to an equal value without one.
pub(crate) fn judge<T: Trial>(alloc: Global, trial: Option<T>) -> Verdict {
    match trial {
        Some(mut trial) => judge_ready(alloc, &mut trial),
        None => Verdict::Unready,
    }
}

fn judge_ready<T: Trial>(alloc: Global, trial: &mut T) -> Verdict {
    match (trial.copy(), done(trial.copy())) {
        (Some(before), Some(whole)) => judge_between(alloc, trial, &before, &whole),
        _ => Verdict::Unready,
    }
}

// The trial, once its call is made.
fn done<T: Trial>(trial: Option<T>) -> Option<T> {
    let mut trial = trial?;
    match trial.call() {
        Called::Done => Some(trial),
        _ => None,
    }
}

fn judge_between<T: Trial>(alloc: Global, trial: &mut T, before: &T, whole: &T) -> Verdict {
    begin(alloc);
    let called = trial.call();
    end(alloc);
    match called {
        Called::Done => Verdict::of(trial.is_like(whole)),
        Called::Refused => judge_refused(trial, before, whole),
        Called::Failed => Verdict::Fault,
    }
}

fn judge_refused<T: Trial>(trial: &mut T, before: &T, whole: &T) -> Verdict {
    if !trial.is_like(before) {
        return Verdict::Changed;
    }
    match trial.call() {
        Called::Done => Verdict::of(trial.is_like(whole)),
        _ => Verdict::Other,
    }
}

/// Makes a call that uses up its value. Once it was refused memory, the same call on a new value must be right.
pub(crate) fn judge_anew<F: Fn(Time) -> Verdict>(call: F) -> Verdict
    requires { F.IsAlwaysCallable call }
{
    match call(Time::First) {
        Verdict::Refused => call(Time::Again),
        verdict => verdict,
    }
}

/// Whether two calls gave the same, or neither gave anything.
pub(crate) fn are_alike<T, F: Fn(&T, &T) -> bool>(
    one: &Option<T>,
    other: &Option<T>,
    is_same: F,
) -> bool
    requires { F.IsAlwaysCallable is_same }
{
    match (one, other) {
        (Some(one), Some(other)) => is_same(one, other),
        (None, None) => true,
        _ => false,
    }
}

/// Keeps what a call gave.
pub(crate) fn keep<T: Drop>(given: &mut Option<T>, value: Result<T, AllocError>) -> Called {
    match value {
        Ok(value) => {
            *given = Some(value);
            Called::Done
        }
        Err(_) => Called::Refused,
    }
}
