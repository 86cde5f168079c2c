//! The function that takes the half-bits of an array.

ghost use Rattle.std.specs.Prelude.{◌≡◌, ◌≢◌, ◌≤◌, ◌+◌, ◌-◌, ◌++◌, ℕ, List, length, take};
ghost use Rattle.dcc_wire.specs.Framing.{Hunting, StandsFor, seen, report_at};
ghost use Rattle.dcc_wire.specs.Kept.{kept_rest};
ghost use Rattle.dcc_wire.specs.Outcomes.{ones_left};
ghost use Rattle.dcc_c.specs.Outcomes.{outcome_numbers, outcome_seen, seen_at_answer};

use crate::framer::push_apart;
use crate::outcome::DccOutcome;
use dcc_wire::KeptFramer;

/// Takes half-bits of an array, as calls of `dcc_push` do, up to the first half-bit that ends an
/// outcome. The function writes to `taken` how many half-bits it took.
///
/// If an outcome ends, the function writes the outcome and returns 1. If no outcome ends, the
/// function takes all half-bits and returns 0.
#[unsafe(no_mangle)]
pub extern "C" fn dcc_push_many(
    framer: &mut KeptFramer,
    halves: &[u16],
    outcome: &mut DccOutcome,
    taken: &mut u64,
) -> u8
    ensures stands { (track : List ℕ) → StandsFor (kept_rest framer.old) track
        → StandsFor (kept_rest framer.new) (track ++ take taken.new halves.now) }
    ensures sees { (track : List ℕ) → StandsFor (kept_rest framer.old) track →
        seen (track ++ take taken.new halves.now)
        ≡ seen track ++ report_at (length track + taken.new - 1) (seen_at_answer result outcome.new) }
    ensures before { result ≢ 0 → (track : List ℕ) → StandsFor (kept_rest framer.old) track →
        seen (track ++ take (taken.new - 1) halves.now) ≡ seen track }
    ensures within { taken.new ≤ length halves.now }
    ensures something { result ≢ 0 → 1 ≤ taken.new }
    ensures nothing { result ≡ 0 → taken.new ≡ length halves.now }
    ensures hunts { result ≢ 0 → kept_rest framer.new ≡ Hunting (ones_left (seen_at_answer result outcome.new)) }
    ensures at { result ≢ 0 → outcome.new.at ≡ 1 }
    ensures numbers { result ≢ 0 → outcome.new ≡ outcome_numbers outcome.new.at (outcome_seen outcome.new) }
    ensures bit { result ≤ 1 }
    ensures kept { result ≡ 0 → outcome.new ≡ outcome.old }
{
    let mut at = 0;
    'halves: while at < halves.len() {
        let us = halves[at];
        at += 1;
        if framer.pass(us) {
            continue 'halves;
        }
        let ended = push_apart(framer, us, outcome);
        *taken = at as u64;
        return ended;
    }
    *taken = at as u64;
    0
}
