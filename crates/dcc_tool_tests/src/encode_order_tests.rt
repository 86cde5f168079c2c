//! Tests of the order in which `encode` reads and writes, with and without a station. No contract
//! states the order of reads and writes.

use crate::checks::check;
use crate::fakes::{Counting, Track, WatchingLines};
use dcc_tool::{Encode, Input, Limits, encode};
use std::alloc::Global;
use std::process::Abort;

/// Two encodings, each with an input line: a packet line of 5 bytes, and a line of 7 bytes that
/// requests a packet from a station. The output for each line is a line of 7 bytes.
const LINES: [(Encode, &[u8]); 2] = [
    (
        Encode {
            hex: true,
            service: false,
            station: None,
        },
        b"idle\n",
    ),
    (
        Encode {
            hex: true,
            service: false,
            station: Some((4, 4, 1)),
        },
        b"send 1\n",
    ),
];

fn repeated(rt: &impl Abort, alloc: Global, line: &[u8], count: u32) -> Vec<u8> {
    let mut lines = Vec::new(alloc);
    for _ in 0..count {
        lines.extend_from_slice(line).expect(rt, "memory");
    }
    lines
}

/// Encodes the lines `lines`. The reader sets `late` if a line was not written in time. Each read
/// gives at most `each` bytes.
fn watch(
    rt: &impl Abort,
    alloc: Global,
    track: &Track,
    how: Encode,
    lines: &[u8],
    line_len: usize,
    each: usize,
) {
    let reader = WatchingLines {
        lines,
        line_len,
        each,
        at: 0,
        track,
    };
    let mut input = Input::new(reader, Limits::full());
    let mut writer = Counting { track };
    let answer = encode(alloc, &mut input, &mut writer, how);
    check(rt, answer == Ok(()), "an error");
}

#[test]
fn each_line_is_out_before_the_next_read(rt: HostRuntime) {
    for (how, line) in LINES {
        let lines = repeated(&rt, rt.alloc(), line, 120);
        for each in [1, 4, 5, 6, 7, 11, 35, 512] {
            let track = Track::new();
            let text = lines.as_slice();
            watch(&rt, rt.alloc(), &track, how, text, line.len(), each);
            check(
                &rt,
                !track.late.get(),
                "a line was held while the reader was asked for more",
            );
            check(&rt, track.written.get() == 7 * 120, "120 lines");
        }
    }
}

#[test]
fn lines_of_one_read_go_out_together(rt: HostRuntime) {
    for (how, line) in LINES {
        let lines = repeated(&rt, rt.alloc(), line, 700);
        let track = Track::new();
        let text = lines.as_slice();
        watch(&rt, rt.alloc(), &track, how, text, line.len(), 512);
        check(&rt, track.written.get() == 7 * 700, "700 lines");
        check(
            &rt,
            track.writes.get() <= track.reads.get(),
            "no more calls than reads of 512 bytes",
        );
    }
}
