//! Bodies in the nearest classes of half-bits.

ghost use Rattle.std.specs.Prelude.{◌≡◌, ◌↔◌, IsTrue, map, get_or, ◌<◌, length, Some};
ghost use Rattle.dcc_wire.specs.Framing.{Hunting};
ghost use Rattle.dcc_wire.specs.Inner.Steps.{answer_of};
ghost use Rattle.dcc_wire.specs.Kept.{kept_rest};
ghost use Rattle.dcc_wire.specs.Outcomes.{outcome_of};
ghost use Rattle.dcc_lost.specs.Nearest.{nearest_class};
ghost use Rattle.dcc_lost.specs.Lost.{frame_after_ones, packet_of_length};

use crate::nearest::{corrected, is_nearest_zero, ones_before};
use dcc_wire::{Frame, Half, KeptFramer, Seen};

/// Returns the outcome of the body that begins with the first of `halves`, whose half-bits have
/// their nearest classes. Returns `Nothing` if the body is unfinished.
fn outcome_of(halves: &[u16]) -> Seen
    requires some { 0 < length halves.now }
    requires zero { nearest_class (get_or halves.now 0 0) ≡ Half.Zero }
    ensures { result ≡ answer_of (outcome_of (map nearest_class halves.now)) }
{
    let mut framer = after_preamble();
    'halves: for us in halves {
        let seen = framer.push(corrected(*us));
        if !seen.is_nothing() {
            return seen;
        }
    }
    Seen::Nothing
}

/// Returns a framer that has taken 20 half-bits of ones.
fn after_preamble() -> KeptFramer
    ensures { kept_rest result ≡ Hunting 20 }
{
    let mut framer = KeptFramer::new();
    let mut ones = 0u32;
    'ones: while ones < 20 {
        let _ = framer.push(58);
        ones += 1;
    }
    framer
}

/// Returns the frame of `n` bytes whose body follows the first 8 half-bits of `halves`. Returns
/// `None` if one of these 8 half-bits is not half of a one.
#[inline(always)]
pub(crate) fn frame_after_ones(halves: &[u16], n: usize) -> Option<Frame>
    ensures { result ≡ frame_after_ones n halves.now }
{
    // most half-bits begin no body
    if !is_zero_at(halves, 8) {
        return None;
    }
    if ones_before(halves) < 8 {
        return None;
    }
    frame_of_body(&halves[8..], n)
}

/// Returns true if `halves` has a half-bit at `place`, counted from 0, and the nearest class of
/// this half-bit is Zero.
#[inline(always)]
fn is_zero_at(halves: &[u16], place: usize) -> bool
    ensures { IsTrue result ↔ ((place < length halves.now) × (nearest_class (get_or halves.now place 0) ≡ Half.Zero)) }
{
    place < halves.len() && is_nearest_zero(halves[place])
}

/// Returns the frame of `n` bytes whose body begins with the first half-bit of `body`, whose
/// half-bits have their nearest classes.
#[inline(never)]
fn frame_of_body(body: &[u16], n: usize) -> Option<Frame>
    ensures { result ≡ packet_of_length n (outcome_of (map nearest_class body.now)) }
{
    if !is_zero_at(body, 0) {
        return None;
    }
    of_length(&outcome_of(body), n)
}

/// Returns the frame of an outcome that is a packet of `n` bytes. Returns `None` for any other
/// outcome.
#[tactic(auto, unfolding(crate::specs::Lost::packet_of_length))]
fn of_length(seen: &Seen, n: usize) -> Option<Frame>
    ensures { result ≡ packet_of_length n (Some (0, seen.now)) }
{
    match seen {
        Seen::Packet(frame) => {
            if frame.bytes().len() == n {
                Some(*frame)
            } else {
                None
            }
        }
        Seen::Nothing => None,
        Seen::Refused(_) => None,
    }
}
