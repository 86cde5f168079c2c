//! Functions that push a run of equal half-bits to a framer.

use crate::{Framer, Half, Seen};

/// The outcome of a run of equal half-bits.
#[derive(Clone, Copy, Debug, PartialEq, Eq)]
pub struct RunSeen {
    /// The outcome that ends in the run, or [`Seen::Nothing`].
    pub seen: Seen,
    /// The number of the last half-bit of the outcome, counted from 1 in the run. Without an
    /// outcome `at` is the number of half-bits of the run.
    pub at: u32,
}

impl Framer {
    ghost use Rattle.std.specs.Prelude.{◌≡◌, ◌≢◌, ◌<◌, ◌≤◌, ◌+◌, ◌-◌, ℕ, List, ◌++◌, length, replicate};
    ghost use Rattle.dcc_wire.specs.Framing.{Hunting, StandsFor, seen, report_at};
    ghost use Rattle.dcc_wire.specs.Half.{class_of};
    ghost use Rattle.dcc_wire.specs.Outcomes.{ones_left};
    ghost use Rattle.dcc_wire.specs.Runs.{PushesRun, rest_after_run};

    /// Takes one or two of `n` half-bits of `us` microseconds. The function takes both half-bits of
    /// a bit if `n` is at least 2 and a bit of a body comes next, otherwise one half-bit.
    #[inline(always)]
    fn push_some(&mut self, us: u16, n: u32) -> RunSeen
        requires { 0 < n }
        ensures stands { (durations : List ℕ) → StandsFor self.old durations
            → StandsFor self.new (durations ++ replicate result.at us) }
        ensures sees { (durations : List ℕ) → StandsFor self.old durations →
            seen (durations ++ replicate result.at us) ≡ seen durations
            ++ report_at (length durations + result.at - 1) result.seen }
        ensures before { (durations : List ℕ) → StandsFor self.old durations
            → seen (durations ++ replicate (result.at - 1) us) ≡ seen durations }
        ensures some { (1 ≤ result.at) × (result.at ≤ n) }
        ensures hunts { result.seen ≢ Seen.Nothing → self.new ≡ Hunting (ones_left result.seen) }
    {
        if n > 1 {
            if let Some(seen) = self.kept.take_bit(Half::of(us)) {
                return RunSeen { seen, at: 2 };
            }
        }
        let seen = self.push(us);
        RunSeen { seen, at: 1 }
    }

    /// Takes `n` half-bits of `us` microseconds, as `n` calls of [`Framer::push`] do. At most one
    /// of these half-bits has an outcome, since equal half-bits cannot form a preamble and a start
    /// bit.
    ///
    /// The function takes at most 110 half-bits, as many as one body has, one or two at a time.
    /// When no later half-bit of the run can begin a body, the function takes all later half-bits
    /// in one step.
    #[inline(always)]
    pub fn push_run(&mut self, us: u16, n: u32) -> RunSeen
        // The framer represents at least one list of half-bits.
        ensures history { (durations : List ℕ) × StandsFor self.old durations }
        // If the framer represents a list before the call, it then represents this list with the
        // half-bits at the end.
        ensures stands { (durations : List ℕ) → StandsFor self.old durations
            → StandsFor self.new (durations ++ replicate n us) }
        // The list with these half-bits has the outcomes of the list before the call, and then
        // `result.seen`, at half-bit `result.at` of the run. `Nothing` adds no outcome.
        ensures sees { (durations : List ℕ) → StandsFor self.old durations →
            seen (durations ++ replicate n us) ≡ seen durations
            ++ report_at (length durations + result.at - 1) result.seen }
        // The half-bits of the run before half-bit `result.at` have no outcome.
        ensures before { (durations : List ℕ) → StandsFor self.old durations
            → seen (durations ++ replicate (result.at - 1) us) ≡ seen durations }

        ensures nothing { result.seen ≡ Seen.Nothing → result.at ≡ n }
        ensures something { result.seen ≢ Seen.Nothing → (1 ≤ result.at) × (result.at ≤ n) }

        // After an outcome the framer looks for a preamble in the rest of the half-bits.
        ensures hunts { result.seen ≢ Seen.Nothing
            → self.new ≡ rest_after_run (Hunting (ones_left result.seen)) (class_of us) (n - result.at) }
    {
        if n == 1 {
            let seen = self.push(us);
            return RunSeen { seen, at: 1 };
        }
        // the prover knows the invariant of a type if the code names one of the fields
        let _ = &self.kept;
        self.push_by_bits(us, n)
    }

    /// Takes `n` half-bits of `us` microseconds, one or two at a time.
    fn push_by_bits(&mut self, us: u16, n: u32) -> RunSeen
        ensures { PushesRun self.old us n result self.new }
    {
        let half = Half::of(us);
        let mut at = 0;
        while !self.kept.is_quiet(half) {
            if at == n {
                return RunSeen {
                    seen: Seen::Nothing,
                    at,
                };
            }
            let some = self.push_some(us, n - at);
            let seen = some.seen;
            at += some.at;
            if !seen.is_nothing() {
                self.kept.skip(half, n - at);
                return RunSeen { seen, at };
            }
        }
        self.kept.skip(half, n - at);
        RunSeen {
            seen: Seen::Nothing,
            at: n,
        }
    }
}

ghost use Rattle.std.specs.Prelude.{◌≡◌};
ghost use Rattle.dcc_wire.specs.Runs.{ones_after};

/// Returns the number of half-bits of ones, counted up to 20, after `ones` half-bits of ones and
/// `n` half-bits of the class `half`, which begin no body.
pub(crate) fn count_on(ones: u8, half: Half, n: u32) -> u8
    ensures { result ≡ ones_after ones half n }
{
    if n == 0 {
        return ones;
    }
    match half {
        Half::One => n.saturating_add(u32::from(ones)).min(20) as u8,
        Half::Zero | Half::Bad => 0,
    }
}
