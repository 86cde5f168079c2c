//! Tests of fleets that hear packets: half-bit by half-bit, in runs and in pieces. In one test two
//! fleets of different types hear whole tracks. `examples/rows/run.txt` has decoder texts of fleets
//! after a track.

use crate::checks::{check, check_at};
use crate::regs_examples::{STEP_1, STOP, cvs, holds};
use crate::rows::halves_of;
use dcc_order::*;
use dcc_packet::Board;
use dcc_regs::{
    BoardDecoder, Decoder, LocoDecoder, PackedBoard, PackedLoco, Register, same_registers,
};
use dcc_wire::{Framer, Seen};
use std::alloc::Global;
use std::process::Abort;

/// Returns a locomotive decoder at short address 3 with 28 speed steps.
fn s3() -> LocoDecoder {
    LocoDecoder::new(&cvs(2))
}

fn boxed_s3(rt: &impl Abort, alloc: Global) -> Box<dyn Decoder> {
    Box::new(alloc, s3()).expect(rt, "memory")
}

#[test]
fn fleets_may_be_written_where_they_hear(rt: HostRuntime) {
    let mut framer = Framer::new();
    check(
        &rt,
        is_nothing(hear(&mut [], &mut framer, 58)),
        "no decoder",
    );
    check(
        &rt,
        hear_run(&mut [], &mut framer, 58, 9).at == 9,
        "no decoder",
    );
    let seen = hear(&mut [boxed_s3(&rt, rt.alloc())], &mut framer, 58);
    check(&rt, is_nothing(seen), "a box");
    let run = hear_run(&mut [boxed_s3(&rt, rt.alloc())], &mut framer, 58, 9);
    check(&rt, run.at == 9, "a box");
    check(
        &rt,
        is_nothing(hear_half(&mut [s3()], &mut framer, 58)),
        "a decoder",
    );
    check(
        &rt,
        hear_half_run(&mut [s3()], &mut framer, 58, 9).at == 9,
        "a decoder",
    );
}

fn is_nothing(seen: Seen) -> bool {
    seen == Seen::Nothing
}

/// The runs of the packet `03 62 61` in the timing of the main track, which have 84 half-bits.
const SPEED_STEP_1: [(u16, u32); 11] = [
    (58, 28),
    (100, 14),
    (58, 4),
    (100, 4),
    (58, 4),
    (100, 6),
    (58, 2),
    (100, 6),
    (58, 4),
    (100, 8),
    (58, 4),
];

#[test]
fn a_track_may_come_in_runs(rt: HostRuntime) {
    let mut framer = Framer::new();
    let mut fleet: [Box<dyn Decoder>; 1] = [boxed_s3(&rt, rt.alloc())];
    let mut last = 0;
    for (us, n) in SPEED_STEP_1 {
        holds(&rt, &*fleet[0], Register::Speed, STOP);
        last = hear_one_run(&mut fleet, &mut framer, us, n);
    }
    check_at(&rt, last == 4, last);
    holds(&rt, &*fleet[0], Register::Speed, STEP_1);
}

/// Lets a fleet hear a run. Returns the number of the half-bit with which an outcome ends.
fn hear_one_run(fleet: &mut [Box<dyn Decoder>; 1], framer: &mut Framer, us: u16, n: u32) -> u32 {
    hear_run(fleet, framer, us, n).at
}

#[test]
fn a_track_may_come_in_halves_and_pieces(rt: HostRuntime) {
    let durations = halves_of(&rt, rt.alloc(), "=036261");
    check(&rt, durations.len() == 84, "84 half-bits");
    for cut in [0, 1, 29, 50, 83, 84] {
        hear_cut(&rt, rt.alloc(), durations.as_slice(), cut);
    }
}

/// Lets a fleet hear the first `cut` half-bits one by one, and then the others as a piece.
fn hear_cut(rt: &impl Abort, alloc: Global, halves: &[u16], cut: usize) {
    let mut framer = Framer::new();
    let mut fleet: [Box<dyn Decoder>; 1] = [boxed_s3(rt, alloc)];
    match halves.split_at_checked(cut) {
        Some((first, second)) => {
            for us in first {
                hear_one_half(&mut fleet, &mut framer, *us);
            }
            hear_second(&mut fleet, &mut framer, second);
        }
        None => check(rt, false, "too few half-bits"),
    }
    holds(rt, &*fleet[0], Register::Speed, STEP_1);
}

fn hear_one_half(fleet: &mut [Box<dyn Decoder>; 1], framer: &mut Framer, us: u16) {
    hear(fleet, framer, us);
}

fn hear_second(fleet: &mut [Box<dyn Decoder>; 1], framer: &mut Framer, halves: &[u16]) {
    hear_piece(fleet, framer, halves);
}

/// The columns of a row are two tracks and two truth values. The first value is true if the
/// locomotive decoders that hear the tracks end equal. The second value is true if the accessory
/// decoders end equal. The tracks of the third row set a speed, a function, a pending write, an
/// output and the position of its pair.
const TRACKS: [(&str, &str, bool, bool); 6] = [
    ("", "", true, true),
    (
        "=036261 =ff00ff =039093 =8cfd71",
        "=8cfd71 =039093 =036261 =036261",
        true,
        true,
    ),
    (
        "=036261 =039093 =03ec1c06f5 =8cfd71",
        "=036261 =039093 =03ec1c06f5 =8cfd71",
        true,
        true,
    ),
    (
        "=036261 =039093 =03ec1c06f5 =8cfd71",
        "=036261 =039093 =03ec1c06f5 =8cfd71 =039192",
        false,
        true,
    ),
    (
        "=036261 =037f7c =8cfd71",
        "=037f7c =036261 =8cfd71",
        false,
        true,
    ),
    // the second track also has a packet to long address 3, a packet with a wrong error byte, and
    // bad half-bits
    (
        "=036261 =8cfd71",
        "=036261 =8cfd71 =c00362a1 70*9 58*28 100*14 58*4 100*4 58*4 100*6 58*2 100*6 58*4 100*10 58*2",
        true,
        true,
    ),
];

/// Creates two fleets of a locomotive decoder and an accessory decoder, whose decoders have
/// different types. The first fleet hears `track`, and the second fleet hears `other` in pieces.
/// Returns two truth values: true if the locomotive decoders end equal, and true if the accessory
/// decoders end equal.
fn end_equal(rt: &impl Abort, alloc: Global, track: &[u16], other: &[u16]) -> (bool, bool) {
    let mut left = plain_fleet(rt, alloc);
    let mut right = packed_fleet(rt, alloc);
    hear_both(&mut left, &mut right, track, other);
    check(
        rt,
        !same_registers(&*left[0], &*left[1]),
        "two kinds of decoders",
    );
    (
        same_registers(&*left[0], &*right[0]),
        same_registers(&*left[1], &*right[1]),
    )
}

type Fleet = [Box<dyn Decoder>; 2];

fn hear_both(left: &mut Fleet, right: &mut Fleet, track: &[u16], other: &[u16]) {
    let (first, second) = other.split_at(other.len() / 3);
    hear_two_tracks(left, right, &[track], &[first, second]);
}

fn plain_fleet(rt: &impl Abort, alloc: Global) -> Fleet {
    let board = Board::new(12).expect(rt, "a board");
    let board = BoardDecoder::new(board).expect(rt, "a board");
    let board = Box::new(alloc, board).expect(rt, "memory");
    [boxed_s3(rt, alloc), board]
}

fn packed_fleet(rt: &impl Abort, alloc: Global) -> Fleet {
    let loco = Box::new(alloc, PackedLoco::new(&cvs(2))).expect(rt, "memory");
    let board = Board::new(12).expect(rt, "a board");
    let board = PackedBoard::new(board).expect(rt, "a board");
    let board = Box::new(alloc, board).expect(rt, "memory");
    [loco, board]
}

#[test]
fn two_tracks_are_heard(rt: HostRuntime) {
    for (track, other, locos, boards) in TRACKS {
        let left = halves_of(&rt, rt.alloc(), track);
        let right = halves_of(&rt, rt.alloc(), other);
        let equal = end_equal(&rt, rt.alloc(), left.as_slice(), right.as_slice());
        check(&rt, equal == (locos, boards), other);
    }
}
