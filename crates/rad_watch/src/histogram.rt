//! Histograms, as Prometheus counts them.

use std::fmt::Display;
use std::io;
use std::io::Write;

/// The most bounds that a histogram has.
pub(crate) const BOUNDS: usize = 6;

/// A bound, and how it is printed.
pub(crate) type Bound = (u64, &'static str);

/// How many values lie below each of some bounds, how many there are, and what they come to.
#[derive(Clone, Copy, Debug)]
pub(crate) struct Histogram {
    // They rise.
    bounds: &'static [Bound],
    // How many values are at most the bound and above the one before.
    counts: [u64; BOUNDS],
    number: u64,
    sum: u64,
}

impl Histogram {
    /// No values yet, and at most `BOUNDS` bounds, which rise.
    pub fn new(bounds: &'static [Bound]) -> Histogram {
        Histogram {
            bounds,
            counts: [0; BOUNDS],
            number: 0,
            sum: 0,
        }
    }

    /// Counts a value.
    pub fn add(&mut self, value: u64) {
        self.number = self.number.saturating_add(1);
        self.sum = self.sum.saturating_add(value);
        let place = self.bounds.iter().position(|bound| value <= bound.0);
        if let Some(count) = place.and_then(|place| self.counts.get_mut(place)) {
            *count = count.saturating_add(1);
        }
    }

    /// What all values come to.
    pub fn sum(&self) -> u64 {
        self.sum
    }

    /// Appends the samples of a histogram of this name. Their sum is printed as the caller says.
    pub fn write<S: Display + Drop>(
        &self,
        text: &mut Vec<u8>,
        name: &str,
        sum: S,
    ) -> io::Result<()> {
        let mut below: u64 = 0;
        for (bound, count) in self.bounds.iter().zip(&self.counts) {
            below = below.saturating_add(*count);
            let label = bound.1;
            writeln!(text, "{name}_bucket{{le=\"{label}\"}} {below}")?;
        }
        let number = self.number;
        writeln!(text, "{name}_bucket{{le=\"+Inf\"}} {number}")?;
        writeln!(text, "{name}_sum {sum}")?;
        writeln!(text, "{name}_count {number}")
    }
}
