//! The statistics of the half-bits of a list, for each class of half-bits.

use crate::covered::sums_in;
use crate::tally::Tally;

/// The statistics of the durations of half-bits, for each class in which a decoder puts them (NMRA
/// S-9.1).
#[repr(C)]
#[derive(Clone, Copy, Debug, PartialEq, Eq)]
pub struct Classes {
    /// The statistics of the half-bits that are shorter than half of a one: at most 51
    /// microseconds.
    pub below: Tally,
    /// The statistics of the half-bits of the class One: 52 to 64 microseconds.
    pub ones: Tally,
    /// The statistics of the half-bits between half of a one and half of a zero: 65 to 89
    /// microseconds.
    pub between: Tally,
    /// The statistics of the half-bits of the class Zero: 90 to 10000 microseconds.
    pub zeros: Tally,
    /// The statistics of the half-bits that are longer than half of a zero: at least 10001
    /// microseconds.
    pub above: Tally,
}

impl Classes {
    ghost use Rattle.std.specs.Prelude.{◌≡◌, ◌<◌, ◌+◌, ◌^◌, ℕ, List, [], ◌++◌, length, replicate, IsTrue, false};
    ghost use Rattle.dcc_timing.specs.Classes.{AreClasses};
    ghost use Rattle.dcc_timing.specs.Inner.Counts.{classes_count};

    /// Creates the statistics of the empty list of half-bits.
    pub(crate) fn new() -> Classes
        ensures classes { AreClasses result [] }
        ensures count { classes_count result ≡ 0 }
    {
        Classes {
            below: Tally::new(),
            ones: Tally::new(),
            between: Tally::new(),
            zeros: Tally::new(),
            above: Tally::new(),
        }
    }

    /// Adds `n` half-bits of `us` microseconds.
    #[inline(always)]
    pub(crate) fn add(&mut self, us: u16, n: u32)
        requires some { 0 < n }
        requires room { classes_count self.old + n < 2 ^ 40 }
        ensures classes { (halves : List ℕ) → AreClasses self.old halves
            → AreClasses self.new (halves ++ replicate n us) }
        ensures count { classes_count self.new ≡ classes_count self.old + n }
    {
        match us {
            0..=51 => self.below.add(u64::from(us), n),
            52..=64 => self.ones.add(u64::from(us), n),
            65..=89 => self.between.add(u64::from(us), n),
            90..=10000 => self.zeros.add(u64::from(us), n),
            _ => self.above.add(u64::from(us), n),
        }
    }

    /// Adds the half-bits `halves`.
    pub(crate) fn add_all(&mut self, halves: &[u16])
        requires { classes_count self.old + length halves.now < 2 ^ 40 }
        ensures classes { (durations : List ℕ) → AreClasses self.old durations
            → AreClasses self.new (durations ++ halves.now) }
        ensures count { classes_count self.new ≡ classes_count self.old + length halves.now }
    {
        if self.add_covered(halves) {
            return;
        }
        for (i, us) in halves.iter().enumerate() {
            self.add(*us, 1);
        }
    }

    /// Adds the half-bits `halves` if each of them is in the range of the ones or in the range of the
    /// zeros so far, and returns true. Otherwise returns false, and nothing changes. Then only counts
    /// and sums change, which a loop without branches computes.
    fn add_covered(&mut self, halves: &[u16]) -> bool
        requires { classes_count self.old + length halves.now < 2 ^ 40 }
        ensures classes { IsTrue result → (durations : List ℕ) → AreClasses self.old durations
            → AreClasses self.new (durations ++ halves.now) }
        ensures count { IsTrue result → classes_count self.new ≡ classes_count self.old + length halves.now }
        ensures left { result ≡ false → self.new ≡ self.old }
    {
        if halves.len() > 1000 {
            return false;
        }
        let Some(ones) = self.ones.span() else {
            return false;
        };
        let Some(zeros) = self.zeros.span() else {
            return false;
        };
        let part = sums_in(halves, ones, zeros);
        if (part.ones + part.zeros) as usize != halves.len() {
            return false;
        }
        self.ones.add_covered(part.ones, part.ones_sum);
        self.zeros.add_covered(part.zeros, part.sum - part.ones_sum);
        true
    }
}
