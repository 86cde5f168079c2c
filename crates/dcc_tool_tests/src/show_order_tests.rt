//! Tests of the order in which `show` reads and writes. No contract states the order of reads and
//! writes.

use crate::checks::check;
use crate::fakes::{Counting, Track, Watching};
use dcc_tool::{Counted, Input, Limits, Source, show};
use std::alloc::Global;
use std::process::Abort;

/// Returns the text of `count` blocks of 31 half-bits, with one word for each half-bit. The output
/// has one line for each block. The first three lines have 14 bytes each, and later lines are
/// longer.
fn blocks(rt: &impl Abort, alloc: Global, count: u32) -> Vec<u8> {
    let mut text = Vec::new(alloc);
    for _ in 0..count {
        for _ in 0..28u32 {
            text.extend_from_slice(b"58 ").expect(rt, "memory");
        }
        text.extend_from_slice(b"100 100 70 ").expect(rt, "memory");
    }
    text
}

/// Performs `show` with a writer that counts its calls.
fn watch<R: Source + Drop>(rt: &impl Abort, reader: R, track: &Track) {
    let mut input = Input::new(reader, Limits::full());
    let mut writer = Counting { track };
    let answer = show(&mut input, &mut writer, false);
    check(rt, answer == Ok(()), "an error");
}

#[test]
fn each_line_is_out_before_the_next_read(rt: HostRuntime) {
    let text = blocks(&rt, rt.alloc(), 3);
    let track = Track::new();
    let words = text.as_slice();
    let reader = Watching {
        words,
        track: &track,
    };
    watch(&rt, reader, &track);
    check(
        &rt,
        !track.late.get(),
        "a line was held while the reader was asked for more",
    );
    check(
        &rt,
        track.reads.get() == 94,
        "a call for each of 93 words, and one at the end",
    );
    check(&rt, track.writes.get() == 3, "a call for each line");
}

#[test]
fn lines_of_one_read_go_out_together(rt: HostRuntime) {
    let text = blocks(&rt, rt.alloc(), 30);
    let track = Track::new();
    watch(&rt, Counted::new(text.as_slice()), &track);
    check(&rt, track.written.get() == 3 * 14 + 27 * 15, "30 lines");
    check(
        &rt,
        track.writes.get() <= 7,
        "no more calls than reads of 512 bytes",
    );
}
