//! The longest time between packets.

/// The longest time from the end of a packet to the end of the next packet.
#[repr(C)]
#[derive(Clone, Copy, Debug)]
pub(crate) struct Gaps {
    /// The number of packets, at most 2.
    packets: u64,
    /// The time at which the last packet ended, in microseconds. Before the first packet it is 0.
    end: u64,
    /// The longest time between packets, in microseconds. Before the second packet it is 0.
    longest: u64,
}

impl Gaps {
    ghost use Rattle.std.specs.Prelude.{◌≡◌, ℕ, List, [], ◌∷◌, ◌++◌};
    ghost use Rattle.dcc_timing.specs.Numbers.{most, steps};
    ghost use Rattle.dcc_timing.specs.KeptGaps.{AreGaps};

    /// Creates the state before the first packet.
    pub(crate) fn new() -> Gaps
        ensures { AreGaps result [] }
    {
        Gaps {
            packets: 0,
            end: 0,
            longest: 0,
        }
    }

    /// Adds a packet that ends at the time `end`, in microseconds.
    pub(crate) fn add(&mut self, end: u64)
        ensures { (ends : List ℕ) → AreGaps self.old ends → AreGaps self.new (ends ++ end ∷ []) }
    {
        self.longest = longer(self.packets, self.longest, end.saturating_sub(self.end));
        self.packets = self.packets.saturating_add(1).min(2);
        self.end = end;
    }

    /// Returns the longest time from the end of a packet to the end of the next packet, in
    /// microseconds. Returns `None` if there are fewer than two packets.
    pub(crate) fn longest(&self) -> Option<u64>
        ensures { (ends : List ℕ) → AreGaps self.now ends → result ≡ most (steps ends) }
    {
        if self.packets < 2 {
            return None;
        }
        Some(self.longest)
    }
}

ghost use Rattle.std.specs.Prelude.{◌≡◌, ◌≢◌, max};

/// Returns the longest time between packets after a time `gap` from the last packet to a new packet.
/// Before, there were `packets` packets, and `longest` was the longest time. Without packets before,
/// the result is `longest`.
fn longer(packets: u64, longest: u64, gap: u64) -> u64
    ensures first { packets ≡ 0 → result ≡ longest }
    ensures next { packets ≢ 0 → result ≡ max longest gap }
{
    if packets == 0 {
        longest
    } else {
        longest.max(gap)
    }
}
