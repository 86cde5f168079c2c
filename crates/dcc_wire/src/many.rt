//! Functions that push a list of half-bits to a framer.

use crate::kept::{KeptFramer, begins_body, counted};
use crate::{Framer, Half, Seen};

/// The outcome of a list of half-bits.
#[derive(Clone, Copy, Debug, PartialEq, Eq)]
pub struct ManySeen {
    /// The first outcome that ends in the list, or [`Seen::Nothing`].
    pub seen: Seen,
    /// The number of the last half-bit of the outcome, counted from 1 in the list. Without an outcome
    /// `at` is the number of half-bits of the list.
    pub at: usize,
}

impl Framer {
    ghost use Rattle.std.specs.Prelude.{◌≡◌, ◌≢◌, ◌<◌, ◌≤◌, ◌+◌, ◌-◌, ℕ, List, ◌++◌, length, take};
    ghost use Rattle.dcc_wire.specs.Framing.{Hunting, StandsFor, seen, report_at};
    ghost use Rattle.dcc_wire.specs.Outcomes.{ones_left};
    ghost use Rattle.dcc_wire.specs.Inner.Lists.{PassesList, PushesSome};

    /// Takes half-bits of `halves`, as calls of [`Framer::push`] do, up to the first half-bit that has
    /// an outcome. Without an outcome the function takes all of them.
    pub fn push_many(&mut self, halves: &[u16]) -> ManySeen
        // The framer represents at least one list of half-bits.
        ensures history { (durations : List ℕ) × StandsFor self.old durations }
        // If the framer represents a list before the call, it then represents this list with the
        // taken half-bits at the end.
        ensures stands { (durations : List ℕ) → StandsFor self.old durations
            → StandsFor self.new (durations ++ take result.at halves.now) }
        // The list with the taken half-bits has the outcomes of the list before the call, and then
        // `result.seen` at its last half-bit. `Nothing` adds no outcome.
        ensures sees { (durations : List ℕ) → StandsFor self.old durations →
            seen (durations ++ take result.at halves.now) ≡ seen durations
            ++ report_at (length durations + result.at - 1) result.seen }
        // The half-bits before half-bit `result.at` have no outcome.
        ensures before { (durations : List ℕ) → StandsFor self.old durations
            → seen (durations ++ take (result.at - 1) halves.now) ≡ seen durations }

        ensures nothing { result.seen ≡ Seen.Nothing → result.at ≡ length halves.now }
        ensures something { result.seen ≢ Seen.Nothing → 1 ≤ result.at }
        ensures some { 0 < length halves.now → 1 ≤ result.at }
        ensures within { result.at ≤ length halves.now }
        ensures hunts { result.seen ≢ Seen.Nothing → self.new ≡ Hunting (ones_left result.seen) }
    {
        let _ = &self.kept;
        let mut at = 0;
        'halves: while at < halves.len() {
            let some = self.push_some_of(&halves[at..]);
            at += some.at;
            if !some.seen.is_nothing() {
                return ManySeen {
                    seen: some.seen,
                    at,
                };
            }
        }
        ManySeen {
            seen: Seen::Nothing,
            at,
        }
    }

    /// Takes at least one half-bit of `halves`, at most up to the first half-bit that has an outcome.
    #[inline(always)]
    fn push_some_of(&mut self, halves: &[u16]) -> ManySeen
        requires { 0 < length halves.now }
        ensures { PushesSome self.old halves.now result self.new }
    {
        let at = self.kept.pass_some(halves);
        if at == halves.len() {
            return ManySeen {
                seen: Seen::Nothing,
                at,
            };
        }
        let seen = self.push(halves[at]);
        ManySeen { seen, at: at + 1 }
    }
}

impl KeptFramer {
    ghost use Rattle.std.specs.Prelude.{◌≤◌, length, take};
    ghost use Rattle.dcc_wire.specs.Kept.{IsKept, kept_rest};
    ghost use Rattle.dcc_wire.specs.Inner.Lists.{PassesList};

    /// Takes half-bits at the beginning of `halves` that have no outcome. Returns their number.
    #[inline(always)]
    pub fn pass_some(&mut self, halves: &[u16]) -> usize
        ensures is { IsKept self.new }
        ensures passes { PassesList (kept_rest self.old) (take result halves.now) (kept_rest self.new) }
        ensures count { result ≤ length halves.now }
    {
        if self.in_body {
            return self.pass_bits(halves);
        }
        let hunted = hunt(self.ones, halves);
        self.ones = hunted.ones;
        hunted.at
    }
}

/// The half-bits between bodies at the beginning of a list.
#[derive(Clone, Copy)]
struct Hunted {
    /// The number of half-bits of ones, counted up to 20, after these half-bits.
    ones: u8,
    /// The number of these half-bits.
    at: usize,
}

ghost use Rattle.std.specs.Prelude.{◌≤◌, length, take};
ghost use Rattle.dcc_wire.specs.Framing.{Hunting};
ghost use Rattle.dcc_wire.specs.Inner.Lists.{PassesList};

/// Takes the half-bits at the beginning of `halves` up to the first one that begins a body. The
/// number of half-bits of ones before them, counted up to 20, is `ones`.
#[inline(always)]
fn hunt(ones: u8, halves: &[u16]) -> Hunted
    ensures passes { PassesList (Hunting ones) (take result.at halves.now) (Hunting result.ones) }
    ensures count { result.at ≤ length halves.now }
{
    let mut hunted = Hunted { ones, at: 0 };
    'halves: while hunted.at < halves.len() {
        let half = Half::of(halves[hunted.at]);
        if begins_body(hunted.ones, half) {
            return hunted;
        }
        hunted.ones = counted(hunted.ones, half);
        hunted.at += 1;
    }
    hunted
}
