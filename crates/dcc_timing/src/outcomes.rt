//! The counts of packets and of refusals in a list of half-bits.

use dcc_wire::{Fault, Seen};

/// The number of packets in a list of half-bits, and the number of refusals with each error (NMRA
/// S-9.2).
#[repr(C)]
#[derive(Clone, Copy, Debug, PartialEq, Eq)]
pub struct Outcomes {
    /// The number of packets.
    pub packets: u32,
    /// The number of refusals H1, because of a bad half-bit.
    pub bad_halves: u32,
    /// The number of refusals H2, because the half-bits of a bit differ in their class.
    pub split_bits: u32,
    /// The number of refusals H3, because the body has fewer than 3 bytes.
    pub too_short: u32,
    /// The number of refusals H4, because the body has more than 6 bytes.
    pub too_long: u32,
    /// The number of refusals H5, because the error byte is wrong.
    pub error_bytes: u32,
}

impl Outcomes {
    ghost use Rattle.std.specs.Prelude.{◌≡◌, ◌<◌, ◌≤◌, ◌+◌, ◌^◌, ℕ, List, [], ◌++◌};
    ghost use Rattle.dcc_wire.specs.declared.seen.Seen.{Seen as SeenOf};
    ghost use Rattle.dcc_wire.specs.Framing.{report_at};
    ghost use Rattle.dcc_timing.specs.Outcomes.{AreOutcomes};
    ghost use Rattle.dcc_timing.specs.Inner.Counts.{outcomes_count};

    /// Creates the counts of an empty list, which are all 0.
    pub(crate) fn new() -> Outcomes
        ensures outcomes { AreOutcomes result [] }
        ensures count { outcomes_count result ≡ 0 }
    {
        Outcomes {
            packets: 0,
            bad_halves: 0,
            split_bits: 0,
            too_short: 0,
            too_long: 0,
            error_bytes: 0,
        }
    }

    /// Counts the outcome of a half-bit. `Nothing` changes no count.
    #[inline(always)]
    #[tactic(auto, unfolding(dcc_wire::specs::Framing::report_at))]
    pub(crate) fn add(&mut self, seen: &Seen)
        requires { outcomes_count self.old + 1 < 2 ^ 32 }
        ensures outcomes { (outcomes : List (ℕ × SeenOf)) (place : ℕ) → AreOutcomes self.old outcomes
            → AreOutcomes self.new (outcomes ++ report_at place seen.now) }
        ensures count { outcomes_count self.new ≤ outcomes_count self.old + 1 }
    {
        match seen {
            Seen::Nothing => (),
            Seen::Packet(_) => self.packets += 1,
            Seen::Refused(Fault::BadHalf) => self.bad_halves += 1,
            Seen::Refused(Fault::SplitBit) => self.split_bits += 1,
            Seen::Refused(Fault::TooShort) => self.too_short += 1,
            Seen::Refused(Fault::TooLong) => self.too_long += 1,
            Seen::Refused(Fault::ErrorByte(_)) => self.error_bytes += 1,
        }
    }
}
