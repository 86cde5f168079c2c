//! The causes of a packet, from the last durations of a list.

ghost use Rattle.std.specs.Prelude.{◌≡◌, ◌≤◌, ◌+◌, ◌*◌, ℕ, List, length, sum};
ghost use Rattle.dcc_timing.specs.Numbers.{keep_last};
ghost use Rattle.dcc_timing.specs.Recent.{recent_numbers};
ghost use Rattle.dcc_lost.specs.Causes.{ones_before_body};
ghost use Rattle.dcc_lost.specs.JoinedLost.{causes_of, exact};

use crate::causes::{LostPacket, off_limits, ones_at_end, short_preamble};
use dcc_timing::LastNumbers;
use dcc_wire::Frame;

/// Returns the packet with the frame `frame` and its causes, and the number of half-bits of ones
/// directly before its body, at most 20. The body is the end of `durations`. No outcome uses the last
/// `unused` half-bits before the body. The parameter `since` is the number of half-bits after the last
/// outcome, if this outcome is a refusal.
pub(crate) fn causes_of(
    durations: &LastNumbers,
    unused: u16,
    since: Option<u8>,
    frame: Frame,
) -> (LostPacket, usize)
    ensures lost { (numbers : List ℕ) → recent_numbers durations.now ≡ keep_last 130 numbers
        → result.0 ≡ causes_of numbers unused since frame }
    ensures ones { (numbers : List ℕ) → recent_numbers durations.now ≡ keep_last 130 numbers
        → result.1 ≡ ones_before_body (18 * length frame + 2) numbers }
    ensures few { result.1 ≤ 20 }
{
    let body = 18 * frame.bytes().len() + 2;
    let last = durations.last(body + 20);
    let before = ones_at_end(&last[..last.len().saturating_sub(body)]);
    let (ones, zeros) = off_limits(durations.last(body + before));
    let lost = LostPacket {
        frame,
        preamble: short_preamble(before, unused, since),
        ones,
        zeros,
    };
    (lost, before)
}

/// Returns `since`, or `None` if it is 255, which stands for any greater number.
#[tactic(auto, unfolding(crate::specs::JoinedLost::exact))]
pub(crate) fn exact(since: Option<u8>) -> Option<u8>
    ensures { result ≡ exact since }
{
    match since {
        None | Some(255) => None,
        Some(since) => Some(since),
    }
}

/// Returns the sum of `numbers`.
pub(crate) fn sum_of(numbers: &[u16]) -> u32
    requires { length numbers.now ≤ 1000 }
    ensures { result ≡ sum numbers.now }
{
    let mut total = 0;
    'numbers: for number in numbers {
        total += u32::from(*number);
    }
    total
}
