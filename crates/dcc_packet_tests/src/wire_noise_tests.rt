//! Tests with noisy tracks, on which the framer is compared with a simple search of the whole list.

use crate::checks::{check, check_at};
use crate::noise::Noise;
use crate::plain::{answers, outcomes};
use crate::rows::{halves_of, push_times};
use std::alloc::{AllocError, Global};
use std::process::Abort;

/// Asserts that the framer and the simple search find equal outcomes. Returns the number of
/// outcomes.
fn agree(rt: &impl Abort, alloc: Global, durations: &[u16]) -> usize {
    let answers = answers(alloc, durations).expect(rt, "memory");
    let wanted = outcomes(alloc, durations).expect(rt, "memory");
    check(
        rt,
        answers.as_slice() == wanted.as_slice(),
        "other outcomes",
    );
    answers.len()
}

#[test]
fn each_half_of_two_packets_is_changed_in_turn(rt: HostRuntime) {
    let durations = halves_of(&rt, rt.alloc(), "=036261 =ff00ff");
    check(&rt, durations.len() == 168, "two packets");
    for place in 0..durations.len() {
        for us in [58, 100, 70] {
            agree_on_changed(&rt, rt.alloc(), &durations, place, us);
        }
    }
}

/// Asserts that the framer and the simple search find equal outcomes if the half-bit at `place` has
/// the duration `us`.
fn agree_on_changed(rt: &impl Abort, alloc: Global, durations: &Vec<u16>, place: usize, us: u16) {
    let mut changed = durations.clone().expect(rt, "memory");
    match changed.get_mut(place) {
        Some(half) => *half = us,
        None => check(rt, false, "no half-bit"),
    }
    agree(rt, alloc, changed.as_slice());
}

#[test]
fn every_list_of_eight_halves_behind_a_preamble(rt: HostRuntime) {
    let mut lists = 0u32;
    // the number of lists of each length
    let lengths = [1u32, 3, 9, 27, 81, 243, 729, 2187, 6561];
    for (len, count) in lengths.iter().enumerate() {
        for number in 0..*count {
            let durations = list(&rt, rt.alloc(), len, number);
            agree(&rt, rt.alloc(), durations.as_slice());
            lists = lists.wrapping_add(1);
        }
    }
    // 1 + 3 + 9 + .. + 6561
    check_at(&rt, lists == 9841, lists);
}

/// Returns a preamble and `len` more half-bits. The digits of `number` to the base 3 are the
/// classes of these half-bits.
fn list(rt: &impl Abort, alloc: Global, len: usize, number: u32) -> Vec<u16> {
    let mut durations = halves_of(rt, alloc, "58*28");
    let mut classes = number;
    for _ in 0..len {
        durations.push(of_class(classes % 3)).expect(rt, "memory");
        classes /= 3;
    }
    durations
}

/// Returns the duration of a half-bit of a one, of a half-bit of a zero, or of a bad half-bit.
fn of_class(class: u32) -> u16 {
    match class {
        0 => 58,
        1 => 100,
        _ => 70,
    }
}

/// Appends a preamble of 18 to 25 ones, up to seven bytes, and an end bit. Three of four packets
/// have the right error byte.
fn push_packet(durations: &mut Vec<u16>, noise: &mut Noise) -> Result<(), AllocError> {
    let ones = noise.below(8) + 18;
    for _ in 0..ones {
        push_bit(durations, true)?;
    }
    let bytes = noise.below(7);
    let mut xor = 0;
    for _ in 0..bytes {
        let byte = noise.below(256) as u8;
        xor ^= byte;
        push_byte(durations, byte)?;
    }
    if noise.below(4) != 0 {
        push_byte(durations, xor)?;
    }
    push_bit(durations, true)
}

/// Appends the half-bits of a zero and of the eight bits of a byte.
fn push_byte(durations: &mut Vec<u16>, byte: u8) -> Result<(), AllocError> {
    push_bit(durations, false)?;
    for place in 0..8u8 {
        push_bit(durations, (byte << place) & 128 != 0)?;
    }
    Ok(())
}

/// Appends the two half-bits of a bit.
fn push_bit(durations: &mut Vec<u16>, bit: bool) -> Result<(), AllocError> {
    push_times(durations, if bit { 58 } else { 100 }, 2)
}

/// Returns the half-bits of 5,000 packets. One in `one_in` half-bits has another duration, mostly
/// near the limits of ones and zeros.
fn noisy(alloc: Global, one_in: u32) -> Result<Vec<u16>, AllocError> {
    let mut durations = Vec::new(alloc);
    let mut noise = Noise { state: 1 };
    for _ in 0..5000u32 {
        push_packet(&mut durations, &mut noise)?;
    }
    for us in durations.iter_mut() {
        if one_in > 0 && noise.below(one_in) == 0 {
            *us = any_duration(&mut noise);
        }
    }
    Ok(durations)
}

fn any_duration(noise: &mut Noise) -> u16 {
    match noise.below(4) {
        0 => 58,
        1 => 100,
        2 => noise.below(128) as u16,
        _ => noise.below(65536) as u16,
    }
}

/// Asserts that the framer and the simple search agree on 5,000 packets of which one in `one_in`
/// half-bits has another duration.
fn agree_through_noise(rt: &impl Abort, alloc: Global, one_in: u32) {
    let durations = noisy(alloc, one_in).expect(rt, "memory");
    let outcomes = agree(rt, alloc, durations.as_slice());
    check_at(rt, outcomes > 100, one_in);
}

// each test has its own time limit
#[test]
fn five_thousand_packets_with_one_in_1000_halves_changed(rt: HostRuntime) {
    agree_through_noise(&rt, rt.alloc(), 1000);
}

#[test]
fn five_thousand_packets_with_one_in_100_halves_changed(rt: HostRuntime) {
    agree_through_noise(&rt, rt.alloc(), 100);
}

#[test]
fn five_thousand_packets_with_one_in_10_halves_changed(rt: HostRuntime) {
    agree_through_noise(&rt, rt.alloc(), 10);
}

#[test]
fn five_thousand_packets_with_one_in_3_halves_changed(rt: HostRuntime) {
    agree_through_noise(&rt, rt.alloc(), 3);
}
