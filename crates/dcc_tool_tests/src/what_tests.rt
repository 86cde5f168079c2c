//! Tests of the sentences of `what`.

use crate::checks::check;
use crate::fakes::{Giving, Taking};
use dcc_tool::{Counted, Input, Limits, ToolFault, what};
use std::alloc::Global;
use std::process::Abort;

/// Returns true if `sentence` is the sentence about an input.
fn is_said(rt: &impl Abort, alloc: Global, bytes: &[u8], sentence: &[u8]) -> bool {
    let mut input = Input::new(Counted::new(bytes), Limits::full());
    let mut writer = Counted::new(Vec::new(alloc));
    what(alloc, &mut input, &mut writer).expect(rt, "a sentence");
    writer.inner.as_slice() == sentence
}

/// Checks files that are known by their first bytes.
#[test]
fn files_are_known_by_their_first_bytes(rt: HostRuntime) {
    let rows: [(&[u8], &[u8]); 6] = [
        (
            b"PK\x03\x04\x14\0",
            b"a zip archive, as sigrok writes: tools/to-capture makes a capture of it\n",
        ),
        (
            b"\x1f\x8b\x08",
            b"a file that gzip has compressed: gzip -d restores it\n",
        ),
        (
            b"\xef\xbb\xbf58 58\n",
            b"a text with a byte order mark: save it as UTF-8 without this mark\n",
        ),
        (
            b"\xff\xfe5\08\0",
            b"a text in UTF-16: save it as UTF-8 without a byte order mark\n",
        ),
        (
            b"\xfe\xff\x005\x008",
            b"a text in UTF-16: save it as UTF-8 without a byte order mark\n",
        ),
        (
            b"PK\x03",
            b"no capture, and no packet lines: packet lines with error P10 on line 1\n",
        ),
    ];
    for (bytes, sentence) in rows {
        check(&rt, is_said(&rt, rt.alloc(), bytes, sentence), "a row");
    }
}

/// Checks words that are no runs: their line, their place, and their bytes.
#[test]
fn a_wrong_word_is_shown_with_its_place(rt: HostRuntime) {
    let rows: [(&[u8], &[u8]); 6] = [
        (
            b"58 58 x",
            b"a capture with a wrong word: line 1, word 3: x\n",
        ),
        (
            b"58\n# a comment\n\t58  5.8 # 7\n",
            b"a capture with a wrong word: line 3, word 2: 5.8\n",
        ),
        (
            b"58\r\n58\xff\\\x01\r\n",
            b"a capture with a wrong word: line 2, word 1: 58\\xff\\x5c\\x01\n",
        ),
        (
            b"58 58*0",
            b"a capture with a wrong word: line 1, word 2: 58*0\n",
        ),
        (
            b"58 123456789012345678901234567890123",
            b"a capture with a wrong word: line 1, word 2: 12345678901234567890123456789012..\n",
        ),
        (
            b"58\n---\n58",
            b"two captures, which `dcc same` compares, with --- on line 2\n",
        ),
    ];
    for (bytes, sentence) in rows {
        check(&rt, is_said(&rt, rt.alloc(), bytes, sentence), "a row");
    }
}

/// Checks the errors of `what`. After a failed read, a limit that is exceeded, or a failed write,
/// nothing was written.
#[test]
fn errors_of_what(rt: HostRuntime) {
    let mut input = Input::new(Giving::new(b"58 58", 1, 2, false), Limits::full());
    for _ in 0..2u32 {
        let mut writer = Taking::new(rt.alloc(), 1000, 1000);
        let answer = what(rt.alloc(), &mut input, &mut writer);
        check(&rt, answer == Err(ToolFault::Read), "a failed read");
        check(&rt, writer.taken.is_empty(), "nothing is written");
    }
    let limits = Limits {
        halves: 9,
        bytes: 4,
    };
    is_refused(&rt, rt.alloc(), limits, 1000, ToolFault::TooMuch);
    is_refused(&rt, rt.alloc(), Limits::full(), 0, ToolFault::Write);
}

/// Asserts that `what` returns this error and writes nothing. The writer takes 4 bytes in a call,
/// and fails after `writes` calls.
fn is_refused(rt: &impl Abort, alloc: Global, limits: Limits, writes: u32, fault: ToolFault) {
    let mut input = Input::new(Counted::new(b"58 58".as_slice()), limits);
    let mut writer = Taking::new(alloc, 4, writes);
    let answer = what(alloc, &mut input, &mut writer);
    check(rt, answer == Err(fault), "another error");
    check(rt, writer.taken.is_empty(), "an output");
}
