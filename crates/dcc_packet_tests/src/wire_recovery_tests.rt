//! Packets that are sent after noise, and half-bits that are measured with an error.

use crate::checks::{check, check_at};
use crate::noise::Noise;
use crate::plain::{Outcome, answers, outcomes};
use crate::rows::{push_frame, push_times};
use dcc_wire::{Frame, Halves, Seen, Timing};
use std::alloc::Global;
use std::process::Abort;

/// Outcomes, each with the number of its last half-bit, from 1.
type Outcomes = Vec<(usize, Outcome)>;

/// Returns a frame of bytes that are often 0 or 255.
fn frame(rt: &impl Abort, noise: &mut Noise) -> Frame {
    let mut bytes = [0; 5];
    for byte in &mut bytes {
        *byte = any_byte(noise);
    }
    let len = noise.below(4) as usize + 2;
    Frame::with_error_byte(&bytes[..len]).expect(rt, "a frame")
}

fn any_byte(noise: &mut Noise) -> u8 {
    match noise.below(3) {
        0 => 0,
        1 => 255,
        _ => noise.below(256) as u8,
    }
}

/// Returns a timing with `preamble` ones in the preamble.
fn timing(rt: &impl Abort, noise: &mut Noise, preamble: u8) -> Timing {
    let one = noise.below(7) as u16 + 55;
    let zero = noise.below(2) as u16 * 9805 + 95;
    let other = noise.below(2000) as u16 + 95;
    Timing::new(one, zero, other, preamble).expect(rt, "a timing")
}

/// Appends the half-bits of a packet, and returns the packet as an outcome at its last half-bit.
fn send(rt: &impl Abort, track: &mut Vec<u16>, frame: Frame, timing: Timing) -> (usize, Outcome) {
    push_frame(track, frame, timing).expect(rt, "memory");
    let outcome = Outcome::of(&Seen::Packet(frame)).expect(rt, "an outcome");
    (track.len(), outcome)
}

/// Asserts that the framer and the simple search find exactly the given outcomes.
fn shows(rt: &impl Abort, alloc: Global, track: &[u16], wanted: &[(usize, Outcome)]) {
    let answers = answers(alloc, track).expect(rt, "memory");
    check(rt, answers.as_slice() == wanted, "other outcomes");
    let outcomes = outcomes(alloc, track).expect(rt, "memory");
    check(
        rt,
        outcomes.as_slice() == wanted,
        "other outcomes of the search",
    );
}

#[test]
fn errors_of_3_microseconds_lose_no_packet(rt: HostRuntime) {
    let mut noise = Noise { state: 3 };
    for _ in 0..200u32 {
        send_with_errors(&rt, rt.alloc(), &mut noise);
    }
}

/// Asserts that four packets are seen if each half-bit is measured with an error of up to 3
/// microseconds.
fn send_with_errors(rt: &impl Abort, alloc: Global, noise: &mut Noise) {
    let mut track = Vec::new(alloc);
    let mut sent = Vec::new(alloc);
    for _ in 0..4u32 {
        let preamble = noise.below(27) as u8 + 14;
        let timing = timing(rt, noise, preamble);
        let outcome = send(rt, &mut track, frame(rt, noise), timing);
        sent.push(outcome).expect(rt, "memory");
    }
    for us in track.iter_mut() {
        *us = us.saturating_sub(3).saturating_add(noise.below(7) as u16);
    }
    check(rt, sent.len() == 4, "four packets");
    shows(rt, alloc, track.as_slice(), sent.as_slice());
}

/// Returns the number of packets that are seen if a station sends one packet with ones of `one`
/// microseconds, and each half-bit of a one is measured as `measured` microseconds.
fn seen_with_error(rt: &impl Abort, alloc: Global, one: u16, measured: u16) -> usize {
    let frame = Frame::with_error_byte(&[3, 98]).expect(rt, "a frame");
    let timing = Timing::new(one, 100, 100, 14).expect(rt, "a timing");
    let mut track = Vec::new(alloc);
    send(rt, &mut track, frame, timing);
    for us in track.iter_mut() {
        if *us == one {
            *us = measured;
        }
    }
    outcomes(alloc, track.as_slice()).expect(rt, "memory").len()
}

/// The errors of 3 microseconds, and of 6 microseconds with nominal half-bits, are the largest ones.
#[test]
fn larger_errors_lose_a_packet(rt: HostRuntime) {
    for (one, error) in [(55, 3), (61, 3), (58, 6)] {
        let (less, more) = (one - error, one + error);
        let kept = (
            seen_with_error(&rt, rt.alloc(), one, less),
            seen_with_error(&rt, rt.alloc(), one, more),
        );
        check_at(&rt, kept == (1, 1), u32::from(one));
    }
    for (one, measured) in [(55, 51), (61, 65), (58, 51), (58, 65)] {
        let seen = seen_with_error(&rt, rt.alloc(), one, measured);
        check_at(&rt, seen == 0, u32::from(measured));
    }
}

/// After noise with an open body, the first packet is lost. The second packet is seen.
#[test]
fn noise_can_cost_the_first_packet(rt: HostRuntime) {
    let mut track = Vec::new(rt.alloc());
    push_times(&mut track, 58, 20).expect(&rt, "memory");
    push_times(&mut track, 100, 2).expect(&rt, "memory");
    let frame = Frame::with_error_byte(&[3, 98]).expect(&rt, "a frame");
    let first = send(&rt, &mut track, frame, Timing::main());
    let second = send(&rt, &mut track, frame, Timing::main());
    let shown = answers(rt.alloc(), track.as_slice()).expect(&rt, "memory");
    check(&rt, !shown.as_slice().contains(&first), "the first packet");
    check(&rt, shown.as_slice().contains(&second), "the second packet");
}

/// Returns noise: the first half-bits of a packet, or any half-bits.
fn any_half_bits(rt: &impl Abort, alloc: Global, noise: &mut Noise) -> Vec<u16> {
    let mut halves = Vec::new(alloc);
    let kind = noise.below(3);
    if kind == 0 {
        let timing = timing(rt, noise, 14);
        let frame = frame(rt, noise);
        for us in Halves::new(frame, timing).take(noise.below(110) as usize + 28) {
            halves.push(us).expect(rt, "memory");
        }
    } else {
        for _ in 0..noise.below(160) {
            halves.push(one_of(noise, kind)).expect(rt, "memory");
        }
    }
    halves
}

/// Returns the duration of a half-bit. If `kind` is 2, one in five half-bits is bad, otherwise no
/// half-bit is bad.
fn one_of(noise: &mut Noise, kind: u32) -> u16 {
    match noise.below(if kind == 2 { 5 } else { 4 }) {
        0 | 1 => 58,
        2 | 3 => 100,
        _ => 70,
    }
}

/// Returns the outcomes of half-bits that 18 half-bits of ones follow, by the simple search.
fn before_ones(rt: &impl Abort, alloc: Global, halves: &[u16]) -> Outcomes {
    let mut longer = Vec::new(alloc);
    longer.extend_from_slice(halves).expect(rt, "memory");
    push_times(&mut longer, 58, 18).expect(rt, "memory");
    outcomes(alloc, longer.as_slice()).expect(rt, "memory")
}

/// The effect of noise on the packet after it.
#[derive(Clone, Copy, PartialEq, Eq)]
enum Effect {
    /// The noise ends without an unfinished body.
    Complete,
    /// An unfinished body ends before the packet's last 18 half-bits of ones.
    Cut,
    /// An unfinished body ends later, and the packet is lost.
    Lost,
}

/// Returns the effect of the noise `track` on a packet whose preamble has `ones` ones. The outcomes
/// `wanted` are those of the noise, and of a body that is unfinished after it.
fn effect_of(
    rt: &impl Abort,
    alloc: Global,
    track: &[u16],
    wanted: &[(usize, Outcome)],
    ones: u8,
) -> Effect {
    let inside = outcomes(alloc, track).expect(rt, "memory").len();
    let end = track.len().saturating_add(usize::from(ones) * 2);
    match wanted.get(inside) {
        None => Effect::Complete,
        Some((number, _)) => {
            if number.saturating_add(18) > end {
                Effect::Lost
            } else {
                Effect::Cut
            }
        }
    }
}

/// Asserts that at most the first of three packets after noise is lost. Returns the effect of the
/// noise.
fn send_after_noise(rt: &impl Abort, alloc: Global, noise: &mut Noise) -> Effect {
    let mut track = any_half_bits(rt, alloc, noise);
    let mut wanted = before_ones(rt, alloc, track.as_slice());
    let ones = noise.below(7) as u8 + 14;
    let effect = effect_of(rt, alloc, track.as_slice(), wanted.as_slice(), ones);
    let timing = timing(rt, noise, ones);
    for number in 0..3u32 {
        let outcome = send(rt, &mut track, frame(rt, noise), timing);
        if number > 0 || effect != Effect::Lost {
            wanted.push(outcome).expect(rt, "memory");
        }
    }
    shows(rt, alloc, track.as_slice(), wanted.as_slice());
    effect
}

#[test]
fn noise_costs_at_most_the_first_packet(rt: HostRuntime) {
    let mut noise = Noise { state: 5 };
    let (mut complete, mut cut, mut lost) = (0u32, 0u32, 0u32);
    for _ in 0..1500u32 {
        match send_after_noise(&rt, rt.alloc(), &mut noise) {
            Effect::Complete => complete = complete.saturating_add(1),
            Effect::Cut => cut = cut.saturating_add(1),
            Effect::Lost => lost = lost.saturating_add(1),
        }
    }
    check_at(&rt, complete > 100, complete);
    check_at(&rt, cut > 100, cut);
    check_at(&rt, lost > 20, lost);
}

#[test]
fn one_of_three_copies_is_seen(rt: HostRuntime) {
    let mut noise = Noise { state: 7 };
    for replaced in 0..600u32 {
        send_copies(&rt, rt.alloc(), &mut noise, replaced % 3);
    }
}

/// Sends a packet and two copies of another packet, with noise as the copy `replaced` of three.
/// Asserts that the first copy is seen, if it is before the noise, otherwise the last copy.
fn send_copies(rt: &impl Abort, alloc: Global, noise: &mut Noise, replaced: u32) {
    let mut track = Vec::new(alloc);
    let timing = timing(rt, noise, 14);
    let mut seen = send(rt, &mut track, frame(rt, noise), timing);
    let copy = frame(rt, noise);
    for number in 0..3u32 {
        if number == replaced {
            let halves = any_half_bits(rt, alloc, noise);
            track
                .extend_from_slice(halves.as_slice())
                .expect(rt, "memory");
        } else {
            let outcome = send(rt, &mut track, copy, timing);
            if number == 0 || replaced == 0 {
                seen = outcome;
            }
        }
    }
    let shown = answers(alloc, track.as_slice()).expect(rt, "memory");
    check_at(rt, shown.as_slice().contains(&seen), replaced);
}
