//! The statistics of the bits of packets.

ghost use Rattle.std.specs.Prelude.{◌≡◌};
ghost use Rattle.dcc_timing.specs.Classes.{is_half_of_one, is_half_of_zero};

use crate::covered::{Span, add_if, is_in};
use crate::tally::Tally;

/// The statistics of the bits of the packets in a list of half-bits (NMRA S-9.1).
#[repr(C)]
#[derive(Clone, Copy, Debug, PartialEq, Eq)]
pub struct Bits {
    /// The statistics of the differences between the two half-bits of each one, in microseconds.
    pub differences: Tally,
    /// The statistics of the durations of zeros, in microseconds. The duration of a zero is the sum
    /// of its two half-bits.
    pub sums: Tally,
}

impl Bits {
    ghost use Rattle.std.specs.Prelude.{◌≡◌, ◌<◌, ◌≤◌, ◌+◌, ◌^◌, ℕ, List, [], ◌∷◌, ◌++◌, length, IsTrue, false};
    ghost use Rattle.dcc_timing.specs.PacketBits.{AreBits, pairs};
    ghost use Rattle.dcc_timing.specs.Inner.Counts.{bits_count};

    /// Creates the statistics of an empty list of bits.
    pub(crate) fn new() -> Bits
        ensures bits { AreBits result [] }
        ensures count { bits_count result ≡ 0 }
    {
        Bits {
            differences: Tally::new(),
            sums: Tally::new(),
        }
    }

    /// Adds the bits that the half-bits `halves` form, with two half-bits for each bit. `add_at_once`
    /// has the contract of `add`. It is faster on a processor with vectors, and slower on a Cortex-M3.
    #[inline(never)]
    pub(crate) fn add_at_once(&mut self, halves: &[u16])
        requires { bits_count self.old + length halves.now < 2 ^ 40 }
        ensures bits { (bits : List (ℕ × ℕ)) → AreBits self.old bits → AreBits self.new (bits ++ pairs halves.now) }
        ensures count { bits_count self.new ≤ bits_count self.old + length halves.now }
    {
        if !self.add_covered(halves) {
            self.add(halves);
        }
    }

    /// Adds the bits that the half-bits `halves` form, with two half-bits for each bit.
    #[inline(never)]
    pub(crate) fn add(&mut self, halves: &[u16])
        requires { bits_count self.old + length halves.now < 2 ^ 40 }
        ensures bits { (bits : List (ℕ × ℕ)) → AreBits self.old bits → AreBits self.new (bits ++ pairs halves.now) }
        ensures count { bits_count self.new ≤ bits_count self.old + length halves.now }
    {
        let mut place = 0;
        'bits: while halves.len() - place > 1 {
            self.add_bit(halves[place], halves[place + 1]);
            place += 2;
        }
    }

    /// Adds the bits of `halves` if each of them is a one or a zero in the range of the ones or of the
    /// zeros so far, and returns true. Otherwise returns false, and nothing changes. Then only counts
    /// and sums change, which a loop without branches computes.
    fn add_covered(&mut self, halves: &[u16]) -> bool
        requires { bits_count self.old + length halves.now < 2 ^ 40 }
        ensures bits { IsTrue result → (bits : List (ℕ × ℕ)) → AreBits self.old bits
            → AreBits self.new (bits ++ pairs halves.now) }
        ensures count { IsTrue result → bits_count self.new ≤ bits_count self.old + length halves.now }
        ensures left { result ≡ false → self.new ≡ self.old }
    {
        if halves.len() > 1000 {
            return false;
        }
        let Some(ones) = self.differences.span() else {
            return false;
        };
        let Some(zeros) = self.sums.span() else {
            return false;
        };
        let part = sums_of_bits(halves, ones, zeros);
        if (part.ones + part.zeros) as usize != halves.len() / 2 {
            return false;
        }
        self.differences.add_covered(part.ones, part.differences);
        self.sums.add_covered(part.zeros, part.durations);
        true
    }

    /// Adds the bit that consists of the two half-bits `first` and `second`.
    fn add_bit(&mut self, first: u16, second: u16)
        requires { bits_count self.old + 1 < 2 ^ 40 }
        ensures bits { (bits : List (ℕ × ℕ)) → AreBits self.old bits → AreBits self.new (bits ++ (first, second) ∷ []) }
        ensures count { bits_count self.new ≤ bits_count self.old + 1 }
    {
        if is_half_of_one(first) && is_half_of_one(second) {
            self.differences
                .add(u64::from(first.max(second) - first.min(second)), 1);
        }
        if is_half_of_zero(first) && is_half_of_zero(second) {
            self.sums.add(u64::from(first) + u64::from(second), 1);
        }
    }
}

/// Returns true if a half-bit of `us` microseconds is half of a one for a decoder.
pub(crate) fn is_half_of_one(us: u16) -> bool
    ensures { result ≡ is_half_of_one us }
{
    (52..=64).contains(&us)
}

/// Returns true if a half-bit of `us` microseconds is half of a zero for a decoder.
fn is_half_of_zero(us: u16) -> bool
    ensures { result ≡ is_half_of_zero us }
{
    (90..=10000).contains(&us)
}

ghost use Rattle.std.specs.Prelude.{◌≤◌, ◌*◌, length, map, sum};
ghost use Rattle.std.specs.List.{filter};
ghost use Rattle.dcc_timing.specs.Inner.Ranges.{is_one_in, is_zero_in};
ghost use Rattle.dcc_timing.specs.PacketBits.{bit_duration, difference, pairs};

/// The counts and the sums of the bits of a packet with two ranges.
#[derive(Clone, Copy)]
struct BitSums {
    /// The number of ones whose difference is in the range of the differences.
    ones: u32,
    /// The number of zeros whose duration is in the range of the durations.
    zeros: u32,
    /// The sum of the differences of these ones.
    differences: u32,
    /// The sum of the durations of these zeros.
    durations: u32,
}

/// Returns the counts and the sums of the bits that `halves` form, for the ranges `ones` of the
/// differences and `zeros` of the durations.
#[inline(always)]
fn sums_of_bits(halves: &[u16], ones: Span, zeros: Span) -> BitSums
    requires { length halves.now ≤ 1000 }
    ensures ones { result.ones ≡ length (filter (is_one_in ones) (pairs halves.now)) }
    ensures zeros { result.zeros ≡ length (filter (is_zero_in zeros) (pairs halves.now)) }
    ensures differences { result.differences ≡ sum (map difference (filter (is_one_in ones) (pairs halves.now))) }
    ensures durations { result.durations ≡ sum (map bit_duration (filter (is_zero_in zeros) (pairs halves.now))) }
    ensures few_ones { result.ones ≤ 500 }
    ensures few_zeros { result.zeros ≤ 500 }
    ensures small_differences { result.differences ≤ 131070 * result.ones }
    ensures small_durations { result.durations ≤ 131070 * result.zeros }
{
    let mut part = BitSums {
        ones: 0,
        zeros: 0,
        differences: 0,
        durations: 0,
    };
    for i in 0..halves.len() / 2 {
        let first = halves[2 * i];
        let second = halves[2 * i + 1];
        let one = is_one_in(ones, first, second);
        part.ones = add_if(one, part.ones, 1);
        part.differences = add_if(one, part.differences, difference(first, second));
        let zero = is_zero_in(zeros, first, second);
        part.zeros = add_if(zero, part.zeros, 1);
        part.durations = add_if(zero, part.durations, duration(first, second));
    }
    part
}

/// Returns true if the half-bits `first` and `second` form a one whose difference is in the range
/// `ones`.
#[inline(always)]
fn is_one_in(ones: Span, first: u16, second: u16) -> bool
    ensures { result ≡ is_one_in ones (first, second) }
{
    is_half_of_one(first)
        && is_half_of_one(second)
        && is_in(ones, first.max(second) - first.min(second))
}

/// Returns true if the half-bits `first` and `second` form a zero whose duration is in the range
/// `zeros`.
#[inline(always)]
fn is_zero_in(zeros: Span, first: u16, second: u16) -> bool
    ensures { result ≡ is_zero_in zeros (first, second) }
{
    let duration = duration(first, second);
    is_half_of_zero(first)
        && is_half_of_zero(second)
        && u32::from(zeros.least) <= duration
        && duration <= u32::from(zeros.most)
}

/// Returns the difference between the half-bits `first` and `second`, in microseconds.
#[inline(always)]
fn difference(first: u16, second: u16) -> u32
    ensures difference { result ≡ difference (first, second) }
    ensures small { result ≤ 65535 }
{
    u32::from(first.max(second) - first.min(second))
}

/// Returns the duration of the bit with the half-bits `first` and `second`, in microseconds.
#[inline(always)]
fn duration(first: u16, second: u16) -> u32
    ensures duration { result ≡ bit_duration (first, second) }
    ensures small { result ≤ 131070 }
{
    u32::from(first) + u32::from(second)
}
