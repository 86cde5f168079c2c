//! Functions on framers, in memory that the caller owns.

ghost use Rattle.std.specs.Prelude.{◌≡◌, ◌≢◌, ◌≤◌, ◌+◌, ◌-◌, ◌++◌, ◌∷◌, [], ℕ, List, length, replicate};
ghost use Rattle.dcc_wire.specs.Framing.{Hunting, StandsFor, seen, report_at};
ghost use Rattle.dcc_wire.specs.Half.{class_of};
ghost use Rattle.dcc_wire.specs.Kept.{kept_rest};
ghost use Rattle.dcc_wire.specs.Outcomes.{ones_left};
ghost use Rattle.dcc_wire.specs.Runs.{rest_after_run};
ghost use Rattle.dcc_c.specs.Outcomes.{outcome_numbers, outcome_seen, seen_at_answer};

use crate::outcome::{DccOutcome, outcome_of};
use dcc_wire::KeptFramer;

/// Creates a framer that has taken no half-bit.
#[unsafe(no_mangle)]
pub extern "C" fn dcc_framer_new() -> KeptFramer
    ensures { StandsFor (kept_rest result) [] }
{
    KeptFramer::new()
}

/// Takes a half-bit of `us` microseconds, as `Framer::push` does. If an outcome ends with this
/// half-bit, the function writes this outcome and returns 1. If no outcome ends, the function
/// returns 0.
#[tactic(auto, unfolding(dcc_wire::specs::Framing::report_at))]
#[unsafe(no_mangle)]
pub extern "C" fn dcc_push(framer: &mut KeptFramer, us: u16, outcome: &mut DccOutcome) -> u8
    ensures history { (halves : List ℕ) × StandsFor (kept_rest framer.old) halves }
    ensures stands { (halves : List ℕ) → StandsFor (kept_rest framer.old) halves
        → StandsFor (kept_rest framer.new) (halves ++ us ∷ []) }
    ensures sees { (halves : List ℕ) → StandsFor (kept_rest framer.old) halves →
        seen (halves ++ us ∷ []) ≡ seen halves ++ report_at (length halves) (seen_at_answer result outcome.new) }
    ensures hunts { result ≢ 0 → kept_rest framer.new ≡ Hunting (ones_left (seen_at_answer result outcome.new)) }
    ensures at { result ≢ 0 → outcome.new.at ≡ 1 }
    ensures numbers { result ≢ 0 → outcome.new ≡ outcome_numbers outcome.new.at (outcome_seen outcome.new) }
    ensures bit { result ≤ 1 }
    ensures kept { result ≡ 0 → outcome.new ≡ outcome.old }
{
    if framer.pass(us) {
        return 0;
    }
    push_apart(framer, us, outcome)
}

/// Takes a half-bit that ends an outcome, and returns 1. This function is separate from the code
/// that runs for each half-bit.
#[inline(never)]
pub(crate) fn push_apart(framer: &mut KeptFramer, us: u16, outcome: &mut DccOutcome) -> u8
    requires { (halves : List ℕ) → StandsFor (kept_rest framer.old) halves → seen (halves ++ us ∷ []) ≢ seen halves }
    ensures history { (halves : List ℕ) × StandsFor (kept_rest framer.old) halves }
    ensures stands { (halves : List ℕ) → StandsFor (kept_rest framer.old) halves
        → StandsFor (kept_rest framer.new) (halves ++ us ∷ []) }
    ensures sees { (halves : List ℕ) → StandsFor (kept_rest framer.old) halves →
        seen (halves ++ us ∷ []) ≡ seen halves ++ report_at (length halves) (seen_at_answer result outcome.new) }
    ensures hunts { result ≢ 0 → kept_rest framer.new ≡ Hunting (ones_left (seen_at_answer result outcome.new)) }
    ensures at { result ≢ 0 → outcome.new.at ≡ 1 }
    ensures numbers { result ≢ 0 → outcome.new ≡ outcome_numbers outcome.new.at (outcome_seen outcome.new) }
    ensures bit { result ≤ 1 }
    ensures kept { result ≡ 0 → outcome.new ≡ outcome.old }
    ensures ends { result ≡ 1 }
{
    *outcome = outcome_of(1, &framer.push_shown(us));
    1
}

/// Takes `n` half-bits of `us` microseconds, as `n` calls of `dcc_push` do. At most one of these
/// half-bits ends an outcome.
///
/// If an outcome ends, the function writes the outcome with the number of its last half-bit,
/// counted from 1 in the run, and returns 1. If no outcome ends, the function returns 0.
#[tactic(auto, unfolding(dcc_wire::specs::Framing::report_at))]
#[unsafe(no_mangle)]
pub extern "C" fn dcc_push_run(
    framer: &mut KeptFramer,
    us: u16,
    n: u32,
    outcome: &mut DccOutcome,
) -> u8
    ensures history { (halves : List ℕ) × StandsFor (kept_rest framer.old) halves }
    ensures stands { (halves : List ℕ) → StandsFor (kept_rest framer.old) halves →
        StandsFor (kept_rest framer.new) (halves ++ replicate n us) }
    ensures sees { (halves : List ℕ) → StandsFor (kept_rest framer.old) halves →
        seen (halves ++ replicate n us)
        ≡ seen halves ++ report_at (length halves + outcome.new.at - 1) (seen_at_answer result outcome.new) }
    ensures before { result ≢ 0 → (halves : List ℕ) → StandsFor (kept_rest framer.old) halves →
        seen (halves ++ replicate (outcome.new.at - 1) us) ≡ seen halves }
    ensures something { result ≢ 0 → (1 ≤ outcome.new.at) × (outcome.new.at ≤ n) }
    ensures hunts { result ≢ 0 → kept_rest framer.new
        ≡ rest_after_run (Hunting (ones_left (seen_at_answer result outcome.new))) (class_of us) (n - outcome.new.at) }
    ensures numbers { result ≢ 0 → outcome.new ≡ outcome_numbers outcome.new.at (outcome_seen outcome.new) }
    ensures bit { result ≤ 1 }
    ensures kept { result ≡ 0 → outcome.new ≡ outcome.old }
{
    // `history` holds even if `n` is 0. The contract of this call gives a list of half-bits.
    let _history = { *framer }.pass(us);
    let mut ended = 0;
    let mut at = 0;
    'run: while at < n {
        if framer.stays(us) {
            return ended;
        }
        at += 1;
        if framer.pass(us) {
            continue 'run;
        }
        ended = push_apart(framer, us, outcome);
        outcome.at = at;
    }
    ended
}
