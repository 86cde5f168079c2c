//! The framer, which finds packets in half-bits.

use crate::kept::KeptFramer;
use crate::{Half, Seen};
use std::marker::Model;

/// Finds the packets in half-bits that come one at a time (NMRA S-9.2; RCN-211).
///
/// Between bodies the framer counts half-bits of ones. If a half-bit of a zero directly follows 20
/// or more half-bits of ones, this half-bit is the first half-bit of a start bit. From the start
/// bit on, every two half-bits form a bit. So it does not matter with which half-bit of a signal
/// the framer begins. After each outcome the framer looks for the next preamble.
#[derive(Drop)]
pub struct Framer {
    pub(crate) kept: KeptFramer,
}

impl Model for Framer {
    ghost use Rattle.dcc_wire.specs.Framing.{Rest};
    ghost use Rattle.dcc_wire.specs.Kept.{IsKept, kept_rest};

    ghost Value = { Rest };

    ghost view = { λ f. kept_rest f.kept };

    ghost invariant = { λ f. IsKept f.kept };
}

impl Framer {
    ghost use Rattle.std.specs.Prelude.{◌≡◌, ◌≢◌, ℕ, List, ◌++◌, [], ◌∷◌, length};
    ghost use Rattle.dcc_wire.specs.Outcomes.{ones_left};
    ghost use Rattle.dcc_wire.specs.Framing.{Hunting, StandsFor, is_hunting, seen, report_at};
    ghost use Rattle.dcc_wire.specs.Kept.{kept_rest};

    /// Creates a framer that has taken no half-bit.
    #[tactic(auto, using(crate::proofs::FramerSteps::nothing_yet))]
    pub fn new() -> Framer
        ensures { StandsFor result [] }
    {
        Framer {
            kept: KeptFramer::new(),
        }
    }

    /// Takes a half-bit of `us` microseconds. Returns the outcome that ends with this half-bit, or
    /// [`Seen::Nothing`].
    ///
    /// After an outcome the framer looks for a preamble. If the outcome ended with an end bit, the
    /// two half-bits of the end bit count for the next preamble.
    #[tactic(auto, unfolding(crate::specs::Framing::StandsFor), using(crate::proofs::FramerSteps::pushes))]
    #[inline(always)]
    pub fn push(&mut self, us: u16) -> Seen
        // The framer represents at least one list of half-bits.
        ensures history { (durations : List ℕ) × StandsFor self.old durations }
        // If the framer represents a list before the call, it then represents this list with the
        // half-bit at the end.
        ensures stands { (durations : List ℕ) → StandsFor self.old durations
            → StandsFor self.new (durations ++ us ∷ []) }
        // The list with this half-bit has the outcomes of the list before the call, and then the
        // result, at its last half-bit. `Nothing` adds no outcome.
        ensures sees { (durations : List ℕ) → StandsFor self.old durations →
            seen (durations ++ us ∷ []) ≡ seen durations ++ report_at (length durations) result }

        ensures hunts { result ≢ Seen.Nothing → self.new ≡ Hunting (ones_left result) }
    {
        self.kept.take_half(Half::of(us))
    }

    /// Returns true if the framer is between bodies: it counts half-bits of ones.
    #[inline(always)]
    pub fn is_hunting(&self) -> bool
        ensures { result ≡ is_hunting self.now }
    {
        self.kept.is_hunting()
    }

    /// Returns the state of the framer as plain numbers, and does not change the framer.
    pub fn keep(&self) -> KeptFramer
        ensures { kept_rest result ≡ self.now }
    {
        self.kept
    }
}
