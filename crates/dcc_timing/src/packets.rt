//! The statistics of the packets in a list of half-bits.

ghost use Rattle.std.specs.Prelude.{◌≡◌, ◌≤◌, IfSome};
ghost use Rattle.dcc_timing.specs.Inner.Steps.{bits_shown};

use crate::bits::Bits;
use crate::gaps::Gaps;
use crate::recent::LastNumbers;
use dcc_wire::Seen;

/// The statistics of the bits of the packets in a list of half-bits, and the longest time between
/// packets.
#[repr(C)]
#[derive(Clone, Copy, Debug)]
pub(crate) struct Packets {
    pub(crate) bits: Bits,
    pub(crate) gaps: Gaps,
}

impl Packets {
    ghost use Rattle.std.specs.Prelude.{◌≡◌, ◌<◌, ◌≤◌, ◌+◌, ◌^◌, ℕ, List, [], ◌++◌, IfSome};
    ghost use Rattle.dcc_timing.specs.PacketBits.{AreBits};
    ghost use Rattle.dcc_timing.specs.Inner.Counts.{bits_count};
    ghost use Rattle.dcc_timing.specs.Inner.Steps.{bits_shown, bits_among, end_among};
    ghost use Rattle.dcc_timing.specs.KeptGaps.{AreGaps};
    ghost use Rattle.dcc_timing.specs.Recent.{recent_numbers};

    /// Creates the statistics of the empty list of half-bits.
    pub(crate) fn new() -> Packets
        ensures bits { AreBits result.bits [] }
        ensures gaps { AreGaps result.gaps [] }
        ensures count { bits_count result.bits ≡ 0 }
    {
        Packets {
            bits: Bits::new(),
            gaps: Gaps::new(),
        }
    }

    /// Adds an outcome that ends at the time `end`, in microseconds. The list `recent` ends with
    /// the last half-bit of this outcome. If `at_once` is true, the bits of a packet are added by
    /// [`Bits::add_at_once`].
    #[inline(always)]
    pub(crate) fn add(&mut self, seen: &Seen, end: u64, recent: &LastNumbers, at_once: bool)
        requires { bits_count self.old.bits + 130 < 2 ^ 40 }
        ensures bits { (bits : List (ℕ × ℕ)) → AreBits self.old.bits bits
            → AreBits self.new.bits (bits ++ bits_among (bits_shown seen.now) (recent_numbers recent.now)) }
        ensures gaps { (ends : List ℕ) → AreGaps self.old.gaps ends
            → AreGaps self.new.gaps (ends ++ end_among (bits_shown seen.now) end) }
        ensures count { bits_count self.new.bits ≤ bits_count self.old.bits + 130 }
        ensures few { IfSome (bits_shown seen.now) (λ halves. halves ≤ 130) }
    {
        match bits_of(seen) {
            Some(halves) => {
                self.gaps.add(end);
                if at_once {
                    self.bits.add_at_once(recent.last(halves));
                } else {
                    self.bits.add(recent.last(halves));
                }
            }
            None => (),
        }
    }
}

/// Returns the number of half-bits of a packet that the statistics cover: the last ten ones of the
/// preamble, and the body. Returns `None` if the outcome is no packet.
#[inline(always)]
fn bits_of(seen: &Seen) -> Option<usize>
    ensures bits { result ≡ bits_shown seen.now }
    ensures few { IfSome result (λ halves. halves ≤ 130) }
{
    match seen {
        Seen::Packet(frame) => Some(22 + 18 * frame.bytes().len()),
        Seen::Nothing => None,
        Seen::Refused(_) => None,
    }
}
