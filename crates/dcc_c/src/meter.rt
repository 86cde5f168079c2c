//! Functions on the statistics of a track, in memory that the caller owns.

ghost use Rattle.std.specs.Prelude.{◌≡◌, ◌<◌, ◌≤◌, ◌+◌, ◌^◌, ◌++◌, [], ℕ, List, length, replicate};
ghost use Rattle.dcc_lost.specs.MeasuresTrack.{MeasuresTrack};
ghost use Rattle.dcc_c.specs.Statistics.{AreStatistics};

use dcc_lost::TrackFigures;
use dcc_timing::{Bits, Classes, Outcomes};

/// The statistics of a track as a C struct: those that the command `dcc timing` writes.
#[repr(C)]
#[derive(Clone, Copy, Drop)]
pub struct DccStatistics {
    /// The duration of all half-bits together, in microseconds.
    pub time: u64,
    /// The longest time from the end of a packet to the end of the next packet, in microseconds.
    pub gap: u64,
    /// The statistics of the half-bits of each class.
    pub classes: Classes,
    /// The statistics of the bits of packets.
    pub bits: Bits,
    /// The number of packets, and the number of refusals with each error.
    pub outcomes: Outcomes,
    /// The number of half-bits.
    pub halves: u32,
    /// The number of lost packets, at most 4294967295.
    pub lost: u32,
    /// The shortest preamble of the packets that are seen or lost, in half-bits and at most 65535.
    pub preamble: u16,
    /// True if a packet is seen or lost. Otherwise `preamble` is 0.
    pub has_preamble: bool,
    /// True if at least two packets are seen. Otherwise `gap` is 0.
    pub has_gap: bool,
}

/// Makes a meter new: the meter has then taken no half-bit.
#[unsafe(no_mangle)]
pub extern "C" fn dcc_meter_new(meter: &mut TrackFigures)
    ensures { MeasuresTrack meter.new [] }
{
    meter.clear();
}

/// Takes `n` half-bits of `us` microseconds and returns 1. If the meter would then have taken 2^32
/// or more half-bits, the function returns 0 and takes none.
#[unsafe(no_mangle)]
pub extern "C" fn dcc_meter_push_run(meter: &mut TrackFigures, us: u16, n: u32) -> u8
    ensures history { ∥ ((halves : List ℕ) × MeasuresTrack meter.old halves) ∥₁ }
    ensures takes { result ≡ 1 → (halves : List ℕ) → MeasuresTrack meter.old halves
        → MeasuresTrack meter.new (halves ++ replicate n us) }
    ensures fits { (halves : List ℕ) → MeasuresTrack meter.old halves → length halves + n < 2 ^ 32 → result ≡ 1 }
    ensures full { (halves : List ℕ) → MeasuresTrack meter.old halves → 2 ^ 32 ≤ length halves + n → result ≡ 0 }
    ensures left { result ≡ 0 → meter.new ≡ meter.old }
    ensures bit { result ≤ 1 }
{
    if meter.try_push_run(us, n) { 1 } else { 0 }
}

/// Takes the half-bits of an array in order and returns 1. If the meter would then have taken 2^32 or
/// more half-bits, the function returns 0 and takes none.
#[unsafe(no_mangle)]
pub extern "C" fn dcc_meter_push_many(meter: &mut TrackFigures, halves: &[u16]) -> u8
    ensures history { ∥ ((track : List ℕ) × MeasuresTrack meter.old track) ∥₁ }
    ensures takes { result ≡ 1 → (track : List ℕ) → MeasuresTrack meter.old track
        → MeasuresTrack meter.new (track ++ halves.now) }
    ensures fits { (track : List ℕ) → MeasuresTrack meter.old track → length track + length halves.now < 2 ^ 32
        → result ≡ 1 }
    ensures full { (track : List ℕ) → MeasuresTrack meter.old track → 2 ^ 32 ≤ length track + length halves.now
        → result ≡ 0 }
    ensures left { result ≡ 0 → meter.new ≡ meter.old }
    ensures bit { result ≤ 1 }
{
    if halves.len() > (u32::MAX - meter.timings().halves()) as usize {
        return 0;
    }
    let mut at = 0;
    'halves: while at < halves.len() {
        let _taken = meter.try_push_run(halves[at], 1);
        at += 1;
    }
    1
}

/// Writes the statistics of all half-bits that the meter has taken.
#[unsafe(no_mangle)]
pub extern "C" fn dcc_meter_read(meter: &TrackFigures, statistics: &mut DccStatistics)
    ensures { (halves : List ℕ) → MeasuresTrack meter.now halves → AreStatistics statistics.new halves }
{
    let timings = meter.timings();
    let gap = timings.longest_gap();
    let preamble = meter.shortest_preamble();
    *statistics = DccStatistics {
        time: timings.time(),
        gap: gap.unwrap_or(0),
        classes: *timings.classes(),
        bits: *timings.bits(),
        outcomes: *timings.outcomes(),
        halves: timings.halves(),
        lost: meter.lost(),
        preamble: preamble.unwrap_or(0),
        has_preamble: preamble.is_some(),
        has_gap: gap.is_some(),
    };
}
