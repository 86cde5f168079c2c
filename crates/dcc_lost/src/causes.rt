//! The causes for which packets are lost.

ghost use Rattle.std.specs.Prelude.{◌≡◌, ◌≤◌, ◌<◌, ◌+◌, map, length, Some, get_or};
ghost use Rattle.std.specs.List.{filter};
ghost use Rattle.dcc_wire.specs.Framing.{ones_at_end};
ghost use Rattle.dcc_lost.specs.Nearest.{nearest_class};
ghost use Rattle.dcc_lost.specs.Causes.{is_off_one, is_off_zero, off_limits, short_preamble};

use crate::nearest::is_nearest_one;
use dcc_wire::Frame;

/// A packet that a decoder does not hear, with its causes.
#[derive(Clone, Copy, Debug, PartialEq, Eq)]
pub struct LostPacket {
    /// The bytes of the packet.
    pub frame: Frame,
    /// The preamble of the packet if it is too short, otherwise `None`.
    pub preamble: Option<ShortPreamble>,
    /// The half-bits of ones outside the limits 52 to 64 microseconds, or `None` if there are none.
    pub ones: Option<OffLimits>,
    /// The half-bits of zeros outside the limits 90 to 10000 microseconds, or `None` if there are
    /// none.
    pub zeros: Option<OffLimits>,
}

/// A preamble that is too short for a decoder.
#[derive(Clone, Copy, Debug, PartialEq, Eq)]
pub struct ShortPreamble {
    /// The number of half-bits of ones directly before the body that no outcome uses, fewer than 20.
    pub ones: u8,
    /// The number of half-bits from the end of the last refusal to the end of the packet. The
    /// number is `None` unless this refusal uses the half-bit directly before the `ones` half-bits,
    /// and this half-bit has the nearest class One.
    pub since_refusal: Option<u8>,
}

/// Half-bits outside the limits of a decoder.
#[derive(Clone, Copy, Debug, PartialEq, Eq)]
pub struct OffLimits {
    /// The number of half-bits.
    pub count: u32,
    /// The shortest duration of these half-bits, in microseconds.
    pub least: u16,
    /// The longest duration of these half-bits, in microseconds.
    pub most: u16,
}

/// Returns true if a half-bit of `us` microseconds has the nearest class One and is outside the
/// limits of a decoder for half of a one.
fn is_off_one(us: u16) -> bool
    ensures { result ≡ is_off_one us }
{
    matches!(us, 26..=51 | 65..=76)
}

/// Returns true if a half-bit of `us` microseconds has the nearest class Zero and is outside the
/// limits of a decoder for half of a zero.
fn is_off_zero(us: u16) -> bool
    ensures { result ≡ is_off_zero us }
{
    matches!(us, 77..=89 | 10001..=20000)
}

/// Returns the number of half-bits of ones at the end of a list. A half-bit counts as half of a one
/// if its nearest class is One.
pub(crate) fn ones_at_end(halves: &[u16]) -> usize
    ensures ones { result ≡ ones_at_end (map nearest_class halves.now) }
    ensures few { result ≤ length halves.now }
{
    let mut ones = 0;
    'ones: while ones < halves.len() {
        if !is_nearest_one(halves[halves.len() - 1 - ones]) {
            return ones;
        }
        ones += 1;
    }
    ones
}

ghost use Rattle.std.specs.Prelude.{ℕ, Bool, List, ◌++◌, ◌∷◌, [], IfSome};

/// Adds a half-bit of `us` microseconds to the figures `off` of some half-bits, if `counts` is
/// true. Returns the new figures.
fn noted(off: Option<OffLimits>, us: u16, counts: bool) -> Option<OffLimits>
    requires { IfSome off (λ figures. figures.count ≤ 1000) }
    ensures { (has_kind : ℕ → Bool) (durations : List ℕ) → off ≡ off_limits (filter has_kind durations)
        → counts ≡ has_kind us → result ≡ off_limits (filter has_kind (durations ++ us ∷ [])) }
{
    if !counts {
        return off;
    }
    Some(match off {
        None => OffLimits {
            count: 1,
            least: us,
            most: us,
        },
        Some(figures) => OffLimits {
            count: figures.count + 1,
            least: figures.least.min(us),
            most: figures.most.max(us),
        },
    })
}

/// Returns the figures of the half-bits of ones, and the figures of the half-bits of zeros. The
/// figures count only half-bits outside the limits of a decoder.
pub(crate) fn off_limits(halves: &[u16]) -> (Option<OffLimits>, Option<OffLimits>)
    requires { length halves.now ≤ 1000 }
    ensures ones { result.0 ≡ off_limits (filter is_off_one halves.now) }
    ensures zeros { result.1 ≡ off_limits (filter is_off_zero halves.now) }
{
    let mut ones = None;
    let mut zeros = None;
    'halves: for us in halves {
        ones = noted(ones, *us, is_off_one(*us));
        zeros = noted(zeros, *us, is_off_zero(*us));
    }
    (ones, zeros)
}

ghost use Rattle.std.specs.Prelude.{Option};

/// Returns the preamble of a body if it is too short, otherwise `None`. The body comes after `ones`
/// half-bits of ones, and no outcome uses the last `unused` half-bits before it. The parameter
/// `since` is the number of half-bits after the last outcome, if this outcome is a refusal.
#[tactic(auto, unfolding(crate::specs::Causes::short_preamble))]
pub(crate) fn short_preamble(ones: usize, unused: u16, since: Option<u8>) -> Option<ShortPreamble>
    ensures { result ≡ short_preamble ones unused since }
{
    let left = ones.min(usize::from(unused));
    if left >= 20 {
        return None;
    }
    Some(ShortPreamble {
        ones: left as u8,
        since_refusal: if usize::from(unused) < ones {
            since
        } else {
            None
        },
    })
}

/// Returns the first of `numbers`, or 0 if the list is empty.
pub(crate) fn first_or_zero(numbers: &[u16]) -> u16
    ensures { result ≡ get_or numbers.now 0 0 }
{
    if numbers.is_empty() { 0 } else { numbers[0] }
}
