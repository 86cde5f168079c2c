//! A timing as a C struct.

ghost use Rattle.std.specs.Prelude.{◌≡◌, ◌≤◌, MatchResult};
ghost use Rattle.dcc_c.specs.Timings.{timing_answer, timing_numbers};

use dcc_wire::Timing;

/// The timing of a station as a C struct: the durations of half-bits in microseconds, and the
/// number of ones in a preamble.
#[repr(C)]
#[derive(Clone, Copy, Drop)]
pub struct DccTiming {
    /// The duration of each half-bit of a one, 55 to 61.
    pub one: u16,
    /// The duration of the first half-bit of a zero, 95 to 9900.
    pub zero_first: u16,
    /// The duration of the second half-bit of a zero, 95 to 9900. Both half-bits of a zero together
    /// take at most 12000.
    pub zero_second: u16,
    /// The number of ones in a preamble, 14 to 40.
    pub preamble: u8,
}

/// Returns the timing with the fields of `timing`, or the number of its first error, 6 to 8 for H6
/// to H8.
pub(crate) fn timing_of(timing: &DccTiming) -> Result<Timing, u8>
    ensures { MatchResult result
        (λ made. (timing.now ≡ timing_numbers made) × (timing_answer timing.now ≡ 0))
        (λ number. (number ≡ timing_answer timing.now) × (1 ≤ number)) }
{
    Timing::new(
        timing.one,
        timing.zero_first,
        timing.zero_second,
        timing.preamble,
    )
    .map_err(|fault| fault.number())
}
