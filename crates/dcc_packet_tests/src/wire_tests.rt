//! Tests of the rules of the standard with worked examples, whose half-bits are written as runs.
//! `examples/rows/show.txt` has most of these examples as captures.

use crate::checks::{check, check_at};
use crate::plain::{answers, are_told, outcomes};
use crate::rows::{column, frame_of, halves_of};
use dcc_wire::{Fault, Frame, FrameFault, Half, Halves, Timing, TimingFault};
use std::alloc::Global;
use std::process::Abort;

/// Asserts that a new framer and the simple search find exactly the outcomes `want` in these
/// half-bits. An outcome is written as `84:036261`, with the number of its last half-bit, counted
/// from 1.
fn halves_show(rt: &impl Abort, alloc: Global, halves: &[u16], want: &str) {
    let seen = answers(alloc, halves).expect(rt, "memory");
    check(rt, are_told(seen.as_slice(), want), want);
    let plain = outcomes(alloc, halves).expect(rt, "memory");
    check(rt, are_told(plain.as_slice(), want), want);
}

/// The columns of a row are the name, half-bits, and the expected outcomes. The runs of some rows
/// are the bodies `03 62 61`, `03 7F 7C`, `FF 00 FF`, `03 62 60` and `03 03`. The runs of one row
/// are six bytes `01` and the zero of a seventh byte.
///
/// After a body that is cut off, only 12 half-bits of the next preamble are left. So the framer
/// does not find the next packet, but finds the packet after the next packet.
const SEEN: &str = "\
    no halves | |
    a packet at its last half | 58*28 100*14 58*4 100*4 58*4 100*6 58*2 100*6 58*4 100*8 58*4 | 84:036261
    bad halves before a preamble | 70*100 58*28 100*14 58*4 100*4 58*4 100*6 58*2 100*6 58*4 100*8 58*4 | 184:036261
    a body that is cut off | 58*28 100*2 =036261 =036261 | 48:H3 198:036261
    nineteen ones | 58*19 100*14 58*4 100*4 58*4 100*6 58*2 100*6 58*4 100*8 58*4 |
    twenty ones | 58*20 100*14 58*4 100*4 58*4 100*6 58*2 100*6 58*4 100*8 58*4 | 76:036261
    twenty one ones | 58*21 100*14 58*4 100*4 58*4 100*6 58*2 100*6 58*4 100*8 58*4 | 77:036261
    twenty nine ones | 58*29 100*14 58*4 100*4 58*4 100*6 58*2 100*6 58*4 100*8 58*4 | 85:036261
    nine ones between | =036261 58*18 100*14 58*4 100*4 58*14 100*4 58*10 100*4 58*2 | 84:036261 158:037f7c
    eight ones between | =036261 58*16 100*14 58*4 100*4 58*14 100*4 58*10 100*4 58*2 | 84:036261
    eight ones behind an idle packet | 58*28 100*2 58*16 100*20 58*18 58*16 100*14 58*4 100*4 58*14 100*4 58*10 100*4 58*2 | 84:ff00ff
    a wrong error byte | 58*28 100*14 58*4 100*4 58*4 100*6 58*2 100*6 58*4 100*10 58*2 | 84:H5:036260
    two bytes | 58*28 100*14 58*4 100*14 58*6 | 66:H3
    a seventh byte | 58*28 100*16 58*2 100*16 58*2 100*16 58*2 100*16 58*2 100*16 58*2 100*16 58*2 100*2 | 138:H4
    a bad half | 58*28 100 100 70 | 31:H1
    a bit that is split | 58*28 100 100 58 100 | 32:H2
    a start bit that is split | 58*28 100 58 | 30:H2
    the service track | 58*40 100*14 58*4 100*4 58*4 100*6 58*2 100*6 58*4 100*8 58*4 | 96:036261
    two packets that are sent | =036261 =ff00ff | 84:036261 168:ff00ff";

/// Checks a row of `SEEN`.
fn row_shows(rt: &impl Abort, alloc: Global, row: &str) {
    let halves = halves_of(rt, alloc, column(row, 1));
    halves_show(rt, alloc, halves.as_slice(), column(row, 2));
}

#[test]
fn what_halves_show(rt: HostRuntime) {
    for row in SEEN.lines() {
        row_shows(&rt, rt.alloc(), row);
    }
}

#[test]
fn a_packet_that_is_cut_shows_nothing(rt: HostRuntime) {
    let whole = halves_of(&rt, rt.alloc(), "=036261");
    check(&rt, whole.len() == 84, "84 half-bits");
    for cut in 0..84usize {
        match whole.as_slice().get(..cut) {
            Some(front) => halves_show(&rt, rt.alloc(), front, ""),
            None => check(&rt, false, "84 half-bits"),
        }
    }
}

/// Checks that a packet consists of the half-bits of its preamble and its body, in the timings of
/// both tracks.
#[test]
fn what_is_sent(rt: HostRuntime) {
    for (timing, want) in [
        (
            Timing::main(),
            "58*28 100*14 58*4 100*4 58*4 100*6 58*2 100*6 58*4 100*8 58*4",
        ),
        (
            Timing::service(),
            "58*40 100*14 58*4 100*4 58*4 100*6 58*2 100*6 58*4 100*8 58*4",
        ),
    ] {
        is_sent(&rt, rt.alloc(), timing, want);
    }
}

/// Asserts that the packet `03 62 61` in the given timing has the half-bits `want`.
fn is_sent(rt: &impl Abort, alloc: Global, timing: Timing, want: &str) {
    let frame = Frame::of(&[3, 0x62, 0x61]).expect(rt, "a frame");
    let sent: Vec<u16> = Halves::new(frame, timing)
        .collect(alloc)
        .expect(rt, "memory");
    let want = halves_of(rt, alloc, want);
    check(rt, sent.as_slice() == want.as_slice(), "other half-bits");
}

/// Durations in microseconds, and the class of a half-bit with each duration.
const CLASSES: [(u16, Half); 10] = [
    (0, Half::Bad),
    (51, Half::Bad),
    (52, Half::One),
    (64, Half::One),
    (65, Half::Bad),
    (89, Half::Bad),
    (90, Half::Zero),
    (10000, Half::Zero),
    (10001, Half::Bad),
    (65535, Half::Bad),
];

#[test]
fn halves_are_told_apart_by_their_length(rt: HostRuntime) {
    for (us, class) in CLASSES {
        check_at(&rt, is_of_class(us, class), u32::from(us));
    }
}

fn is_of_class(us: u16, class: Half) -> bool {
    Half::of(us) == class
}

/// Bytes, and the number of the error, or 0 if the bytes form a frame.
const FRAMES: [(&[u8], u8); 5] = [
    (&[3, 0x61], 1),
    (&[1, 2, 3, 4, 5, 6, 0], 1),
    (&[3, 0x62, 0x60], 2),
    (&[3, 0x62, 0x61], 0),
    (&[1, 2, 3, 4, 5, 1], 0),
];

/// Bytes, and the frame of these bytes with their error byte, in hex. The text is empty if the
/// bytes are too few or too many for a frame.
const WITH_ERROR_BYTE: [(&[u8], &str); 5] = [
    (&[0xFF, 0x00], "ff00ff"),
    (&[0x03, 0x62], "036261"),
    (&[1, 2, 3, 4, 5], "010203040501"),
    (&[3], ""),
    (&[1, 2, 3, 4, 5, 6], ""),
];

#[test]
fn frames_are_checked_for_length_and_then_for_their_error_byte(rt: HostRuntime) {
    for (bytes, refusal) in FRAMES {
        check_at(&rt, is_refused(bytes, refusal), u32::from(refusal));
    }
    for (bytes, hex) in WITH_ERROR_BYTE {
        check(&rt, has_error_byte(bytes, hex), hex);
    }
}

/// Returns true if the bytes have the error with this number, or form a frame if the number is 0.
fn is_refused(bytes: &[u8], refusal: u8) -> bool {
    match Frame::of(bytes) {
        Ok(frame) => refusal == 0 && frame.bytes() == bytes,
        Err(fault) => fault.number() == refusal,
    }
}

/// Checks a row of `WITH_ERROR_BYTE`.
fn has_error_byte(bytes: &[u8], hex: &str) -> bool {
    match Frame::with_error_byte(bytes) {
        Ok(made) => is_frame_of(made, hex),
        Err(fault) => fault.number() == 1 && frame_of(hex).is_none(),
    }
}

fn is_frame_of(made: Frame, hex: &str) -> bool {
    match frame_of(hex) {
        Some(frame) => made.is(&frame),
        None => false,
    }
}

/// The columns of a row are the values of a timing, and the number of its error, or 0 without an
/// error. The values are the duration of a half-bit of a one, the durations of the two half-bits of
/// a zero, and the number of ones in a preamble.
const TIMINGS: [(u16, u16, u16, u8, u8); 7] = [
    (54, 94, 100, 14, 6),
    (58, 94, 100, 14, 7),
    (58, 9900, 2100, 14, 0),
    (58, 9900, 2101, 14, 7),
    (58, 100, 100, 13, 8),
    (58, 100, 100, 40, 0),
    (58, 100, 100, 41, 8),
];

#[test]
fn timings_are_checked_in_order(rt: HostRuntime) {
    for row in TIMINGS {
        check_at(&rt, is_timing_row(row), u32::from(row.0));
    }
}

/// Checks a row of `TIMINGS`.
fn is_timing_row(row: (u16, u16, u16, u8, u8)) -> bool {
    let (one, first, second, preamble, refusal) = row;
    match Timing::new(one, first, second, preamble) {
        Ok(_) => refusal == 0,
        Err(fault) => fault.number() == refusal,
    }
}

#[test]
fn refusals_have_their_numbers(rt: HostRuntime) {
    for (fault, number) in [
        (Fault::BadHalf, 1),
        (Fault::SplitBit, 2),
        (Fault::TooShort, 3),
        (Fault::TooLong, 4),
    ] {
        check_at(&rt, has_number(fault, number), u32::from(number));
    }
    check(&rt, frame_faults() == (1, 2), "frames");
    check(&rt, timing_faults() == (6, 7, 8), "timings");
}

fn has_number(fault: Fault, number: u8) -> bool {
    fault.number() == number
}

fn frame_faults() -> (u8, u8) {
    (FrameFault::Length.number(), FrameFault::XorNotZero.number())
}

fn timing_faults() -> (u8, u8, u8) {
    (
        TimingFault::One.number(),
        TimingFault::Zero.number(),
        TimingFault::Preamble.number(),
    )
}
