//! Tests of packets that a decoder does not hear: worked examples, runs against their single
//! half-bits, long runs, and figures.

use dcc_lost::{LostFinder, LostPacket, OffLimits, ShortPreamble, TrackFigures};
use dcc_wire::Frame;
use std::process::Abort;
use std::test::Fail;

/// A duration, and the number of half-bits with this duration.
type Run = (u16, u32);

/// The runs of the body of `03 62 61`, with ones of 58 and zeros of 100 microseconds.
const SPEED_STEP_1: [Run; 10] = [
    (100, 14),
    (58, 4),
    (100, 4),
    (58, 4),
    (100, 6),
    (58, 2),
    (100, 6),
    (58, 4),
    (100, 8),
    (58, 4),
];

/// The runs of the body of `cf cf 3f 85 ba`, which ends with the body of `cf 3f 85 ba`.
const LONG: [Run; 24] = [
    (100, 2),
    (58, 4),
    (100, 4),
    (58, 8),
    (100, 2),
    (58, 4),
    (100, 4),
    (58, 8),
    (100, 6),
    (58, 12),
    (100, 2),
    (58, 2),
    (100, 8),
    (58, 2),
    (100, 2),
    (58, 2),
    (100, 2),
    (58, 2),
    (100, 2),
    (58, 6),
    (100, 2),
    (58, 2),
    (100, 2),
    (58, 2),
];

/// Pushes runs, and returns the last packet that is lost.
fn push_all(finder: &mut LostFinder, runs: &[Run]) -> Option<LostPacket> {
    let mut last = None;
    for (us, n) in runs {
        let run = finder.push_run(*us, *n);
        if run.lost.is_some() {
            last = run.lost;
        }
    }
    last
}

#[test]
fn a_short_preamble_is_the_cause(rt: HostRuntime) -> Result<(), Fail> {
    let frame = Frame::of(&[3, 0x62, 0x61])?;
    for (n, ones) in [(7, 0), (8, 8), (16, 16), (19, 19), (20, 0), (28, 0)] {
        let mut finder = LostFinder::new();
        finder.push_run(58, n);
        let preamble = Some(ShortPreamble {
            ones,
            since_refusal: None,
        });
        let lost = LostPacket {
            frame,
            preamble,
            ones: None,
            zeros: None,
        };
        let expected = if ones == 0 { None } else { Some(lost) };
        assert!(rt; push_all(&mut finder, &SPEED_STEP_1) == expected, "{n}");
    }
    Ok(())
}

#[test]
fn half_bits_outside_the_limits_are_the_cause(rt: HostRuntime) -> Result<(), Fail> {
    let mut finder = LostFinder::new();
    finder.push_run(66, 28);
    let lost = LostPacket {
        frame: Frame::of(&[3, 0x62, 0x61])?,
        preamble: None,
        ones: Some(OffLimits {
            count: 20,
            least: 66,
            most: 66,
        }),
        zeros: None,
    };
    assert!(rt; push_all(&mut finder, &SPEED_STEP_1) == Some(lost));
    Ok(())
}

#[test]
fn the_longest_packet_is_lost(rt: HostRuntime) -> Result<(), Fail> {
    let mut finder = LostFinder::new();
    finder.push_run(58, 16);
    let lost = push_all(&mut finder, &LONG).map(|lost| lost.frame);
    assert!(rt; lost == Some(Frame::of(&[0xcf, 0xcf, 0x3f, 0x85, 0xba])?));
    Ok(())
}

#[test]
fn a_run_is_as_its_half_bits(rt: HostRuntime) {
    for (us, n) in [
        (58, 1000),
        (100, 1000),
        (70, 1000),
        (5, 1000),
        (85, 399),
        (58, 401),
    ] {
        let mut by_runs = LostFinder::new();
        let mut one_by_one = LostFinder::new();
        for _ in 0..2 {
            let run = by_runs.push_run(us, n);
            assert!(rt; run.lost.is_none());
            assert!(rt; run.at == n);
            for _ in 0..n {
                assert!(rt; one_by_one.push(us).is_none());
            }
            by_runs.push_run(100, 1);
            one_by_one.push(100);
            by_runs.push_run(58, 16);
            for _ in 0..16 {
                one_by_one.push(58);
            }
            compare(&rt, &mut by_runs, &mut one_by_one, &SPEED_STEP_1);
        }
    }
}

/// Pushes runs to one finder and their single half-bits to another, and compares the lost packets.
fn compare(rt: &impl Abort, by_runs: &mut LostFinder, one_by_one: &mut LostFinder, runs: &[Run]) {
    for (us, n) in runs {
        let mut last = None;
        for _ in 0..*n {
            let lost = one_by_one.push(*us);
            if lost.is_some() {
                last = lost;
            }
        }
        assert!(rt; by_runs.push_run(*us, *n).lost == last, "{us} {n}");
    }
}

/// Returns the figures of a list of runs.
fn figures_of(runs: &[Run]) -> (u32, Option<u16>) {
    let mut figures = TrackFigures::new();
    for (us, n) in runs {
        let _ = figures.try_push_run(*us, *n);
    }
    (figures.lost(), figures.shortest_preamble())
}

#[test]
fn preambles_are_counted_beyond_twenty(rt: HostRuntime) {
    for (n, lost, shortest) in [
        (7, 0, None),
        (8, 1, Some(8)),
        (19, 1, Some(19)),
        (20, 0, Some(20)),
        (28, 0, Some(28)),
        (65534, 0, Some(65534)),
        (65536, 0, Some(65535)),
        (70000, 0, Some(65535)),
    ] {
        let mut figures = TrackFigures::new();
        let _ = figures.try_push_run(58, n);
        for (us, n) in &SPEED_STEP_1 {
            let _ = figures.try_push_run(*us, *n);
        }
        assert!(rt; figures.lost() == lost, "{n}");
        assert!(rt; figures.shortest_preamble() == shortest, "{n}");
    }
}

#[test]
fn an_end_bit_counts_for_the_next_preamble(rt: HostRuntime) {
    let mut figures = TrackFigures::new();
    for ones in [28, 30, 14, 26] {
        let _ = figures.try_push_run(58, ones);
        for (us, n) in &SPEED_STEP_1 {
            let _ = figures.try_push_run(*us, *n);
        }
    }
    // the last two half-bits of the body are the end bit, so the third preamble has 16 half-bits
    assert!(rt; figures.lost() == 1);
    assert!(rt; figures.shortest_preamble() == Some(16));
}

#[test]
fn half_bits_without_a_packet_have_no_preamble(rt: HostRuntime) {
    assert!(rt; figures_of(&[]) == (0, None));
    assert!(rt; figures_of(&[(58, 100000), (100, 100000), (5, 3)]) == (0, None));
}

#[test]
fn figures_of_a_run_are_as_of_its_half_bits(rt: HostRuntime) {
    for us in [58, 100, 70, 5] {
        for n in [0, 1, 15, 19, 21, 66_500] {
            let mut by_runs = TrackFigures::new();
            let mut one_by_one = TrackFigures::new();
            for (us, n) in &[(us, n), (100, 1), (58, 19)] {
                let _ = by_runs.try_push_run(*us, *n);
                for _ in 0..*n {
                    let _ = one_by_one.try_push_run(*us, 1);
                }
            }
            for (us, n) in &SPEED_STEP_1 {
                let _ = by_runs.try_push_run(*us, *n);
                for _ in 0..*n {
                    let _ = one_by_one.try_push_run(*us, 1);
                }
            }
            assert!(rt; by_runs.lost() == one_by_one.lost());
            assert!(rt; by_runs.shortest_preamble() == one_by_one.shortest_preamble());
        }
    }
}

#[test]
fn a_preamble_is_counted_up_to_65535(rt: HostRuntime) {
    for us in [58, 100, 70, 5] {
        let mut figures = TrackFigures::new();
        assert!(rt; figures.try_push_run(us, 70_000));
        assert!(rt; !figures.try_push_run(us, 4_294_967_295));
        for (us, n) in &SPEED_STEP_1 {
            assert!(rt; figures.try_push_run(*us, *n));
        }
        assert!(rt; figures.timings().halves() == 70_056);
        let shortest = match us {
            58 | 70 => Some(65535),
            _ => None,
        };
        assert!(rt; figures.shortest_preamble() == shortest, "{us}");
    }
}
