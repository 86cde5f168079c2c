//! Tests of runs of half-bits: worked examples, and runs compared with single half-bits.

use crate::checks::{check, check_at};
use dcc_wire::{Fault, Frame, Framer, Halves, RunSeen, Seen, Timing};
use std::process::Abort;

/// A duration in microseconds, and the number of half-bits with this duration.
type Run = (u16, u32);

/// The columns of a row are runs, and one more run after these runs. Then come the outcome of the
/// last run, and the number of the half-bit of this run with which the outcome ends.
const RUNS: [(&[Run], Run, Seen, u32); 11] = [
    (&[], (58, 4_294_967_295), Seen::Nothing, 4_294_967_295),
    (&[], (100, 4_294_967_295), Seen::Nothing, 4_294_967_295),
    (&[], (58, 0), Seen::Nothing, 0),
    (&[(58, 28)], (100, 0), Seen::Nothing, 0),
    (&[(58, 28)], (100, 109), Seen::Nothing, 109),
    (&[(58, 28)], (100, 110), TOO_LONG, 110),
    (&[(58, 28)], (100, 1000), TOO_LONG, 110),
    (&[(58, 28)], (100, 4_294_967_295), TOO_LONG, 110),
    (
        &[(58, 28), (100, 2)],
        (70, 3),
        Seen::Refused(Fault::BadHalf),
        1,
    ),
    (
        &[(58, 28), (100, 1)],
        (58, 50),
        Seen::Refused(Fault::SplitBit),
        1,
    ),
    (
        &[(58, 28), (100, 18)],
        (58, 50),
        Seen::Refused(Fault::TooShort),
        2,
    ),
];

const TOO_LONG: Seen = Seen::Refused(Fault::TooLong);

#[test]
fn a_run_shows_a_refusal_at_the_number_of_its_half_or_nothing(rt: HostRuntime) {
    for (before, run, seen, at) in RUNS {
        let mut framer = Framer::new();
        for run in before {
            push_run(&mut framer, *run);
        }
        let last = push_run(&mut framer, run);
        check_at(&rt, last == RunSeen { seen, at }, run.1);
    }
}

/// Pushes a run. As this function has no contract, the prover needs less time for its callers.
fn push_run(framer: &mut Framer, run: Run) -> RunSeen {
    framer.push_run(run.0, run.1)
}

/// The runs of the packet `03 62 61` in the timing of the main track.
const SPEED_STEP_1: [Run; 11] = [
    (58, 28),
    (100, 14),
    (58, 4),
    (100, 4),
    (58, 4),
    (100, 6),
    (58, 2),
    (100, 6),
    (58, 4),
    (100, 8),
    (58, 4),
];

#[test]
fn a_packet_may_come_in_runs(rt: HostRuntime) {
    let mut framer = Framer::new();
    let mut last = RunSeen {
        seen: Seen::Nothing,
        at: 0,
    };
    for run in SPEED_STEP_1 {
        check_at(&rt, !has_ended(&last), run.1);
        last = push_run(&mut framer, run);
    }
    let seen = Seen::Packet(speed_step_1(&rt));
    check(&rt, last == RunSeen { seen, at: 4 }, "a packet");
}

/// Returns true if an outcome ends in the run.
fn has_ended(run: &RunSeen) -> bool {
    !run.seen.is_nothing()
}

/// Returns the frame of the packet `03 62 61`.
fn speed_step_1(rt: &impl Abort) -> Frame {
    Frame::of(&[3, 0x62, 0x61]).expect(rt, "a frame")
}

#[test]
fn ones_behind_the_end_bit_of_a_run_are_counted(rt: HostRuntime) {
    for (n, last) in [(21, false), (22, true), (1000, true)] {
        let mut framer = Framer::new();
        for run in &SPEED_STEP_1[..10] {
            push_run(&mut framer, *run);
        }
        // four half-bits of ones end the packet, and the last two of them are its end bit
        let run = push_run(&mut framer, (58, n));
        check_at(&rt, run.at == 4 && has_ended(&run), n);
        push_run(&mut framer, (100, 1));
        let split = push_run(&mut framer, (58, 1));
        check_at(&rt, has_ended(&split) == last, n);
    }
}

/// Pushes a run to the framer as single half-bits. Returns the outcome that ends in the run.
fn push_one_by_one(rt: &impl Abort, framer: &mut Framer, run: Run) -> RunSeen {
    let mut shown = RunSeen {
        seen: Seen::Nothing,
        at: run.1,
    };
    for i in 0..run.1 {
        if let Some(seen) = outcome_of(framer, run.0) {
            check_at(rt, !has_ended(&shown), i);
            shown = RunSeen {
                seen,
                at: i.saturating_add(1),
            };
        }
    }
    shown
}

/// Pushes a half-bit. Returns the outcome that ends with this half-bit.
fn outcome_of(framer: &mut Framer, us: u16) -> Option<Seen> {
    let seen = framer.push(us);
    if seen.is_nothing() { None } else { Some(seen) }
}

#[test]
fn a_run_shows_what_its_halves_show_one_by_one(rt: HostRuntime) {
    let frame = speed_step_1(&rt);
    for cut in [0, 1, 19, 20, 27, 28, 29, 30, 45, 46, 47, 81, 82, 83, 84] {
        for us in [58, 100, 70] {
            for n in [0, 1, 2, 3, 18, 20, 75, 140] {
                compare(&rt, frame, cut, (us, n));
            }
        }
    }
}

/// Asserts that a run after the first `cut` half-bits of a packet gives the same outcome as its
/// half-bits. Both framers find a whole packet after the run, or neither of them does.
fn compare(rt: &impl Abort, frame: Frame, cut: usize, run: Run) {
    let mut in_runs = Framer::new();
    let mut one_by_one = Framer::new();
    for half in Halves::new(frame, Timing::main()).take(cut) {
        check_at(rt, are_alike(&mut in_runs, &mut one_by_one, half), run.1);
    }
    let shown = push_one_by_one(rt, &mut one_by_one, run);
    check_at(rt, push_run(&mut in_runs, run) == shown, run.1);
    for half in Halves::new(frame, Timing::main()) {
        check_at(rt, are_alike(&mut in_runs, &mut one_by_one, half), run.1);
    }
}

/// Pushes a half-bit to both framers. Returns true if both outcomes are equal.
fn are_alike(one: &mut Framer, other: &mut Framer, half: u16) -> bool {
    one.push(half) == other.push(half)
}
