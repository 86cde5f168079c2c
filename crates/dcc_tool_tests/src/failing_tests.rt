//! Tests in which each read and each write fails in turn. The tests check the results and the
//! written bytes.

use crate::calls::{CAPTURE, Call, hex};
use crate::checks::check;
use crate::fakes::{Giving, Taking};
use dcc_tool::{Input, Limits, ToolFault};
use std::alloc::Global;
use std::process::Abort;

const LINES: &[u8] = b"loco s3 speed28 f 4\n# idle\n\nidle\nloco l1000 cv write 29 6\n";

const COMMANDS: &[u8] = b"loco s3 speed28 f 4\nsend 2\nidle\nloco s3 reset\nsend 3\n";

/// The decoder text of a locomotive decoder at short address 3, and a capture of `03 62 61`.
const FLEET: &[u8] =
    b"dcc-decoders 2\nloco s3\nspeed stop f\non\nstates\npending none\ncv 1 3\ncv 29 2\nend\n\
    58*28 100*14 58*4 100*4 58*4 100*6 58*2 100*6 58*4 100*8 58*4\n";

/// Two captures, of which the second has one more packet, which is idle.
const CAPTURES: &[u8] = b"58*28 100*14 58*4 100*4 58*4 100*6 58*2 100*6 58*4 100*8 58*4\n---\n\
    58*28 100*2 58*16 100*20 58*18\n\
    58*28 100*14 58*4 100*4 58*4 100*6 58*2 100*6 58*4 100*8 58*4\n";

/// Two captures, with a comment on the line `---` between them.
const DASHES: &[u8] = b"58 58\n---  #c\n58 58\n";

/// The output of `timing` for `CAPTURE`, which has two packets and one refusal.
const FIGURES: &[u8] =
    b"halves 252\ntime 18816\npackets 2\nrefused H1 0\nrefused H2 0\nrefused H3 0\nrefused H4 0\nrefused H5 1\n\
    lost 0\npreamble least 28\ngap most 5796\n\
    ones count 152\nones least 58\nones most 58\nones mean 58.00\nones station 55 61\nones decoder 52 64\n\
    differences count 46\ndifferences least 0\ndifferences most 0\ndifferences mean 0.00\ndifferences station 3\ndifferences decoder 6\n\
    zeros count 100\nzeros least 100\nzeros most 100\nzeros mean 100.00\nzeros station 95 9900\nzeros decoder 90 10000\n\
    sums count 30\nsums least 200\nsums most 200\nsums mean 200.00\nsums station 12000\n\
    below count 0\nbelow least none\nbelow most none\nbelow mean none\n\
    between count 0\nbetween least none\nbetween most none\nbetween mean none\n\
    above count 0\nabove least none\nabove most none\nabove mean none\n";

/// An operation, its input, and the output that it must write.
type Played = (Call, &'static [u8], &'static [u8]);

fn calls() -> [Played; 10] {
    [
        (
            Call::Show { words: false },
            CAPTURE.as_bytes(),
            b"84 036261\n168 ff00ff\n252 refused H5 036260\n",
        ),
        (
            Call::Show { words: true },
            CAPTURE.as_bytes(),
            b"84 loco s3 speed28 f 4\n168 idle\n252 refused H5 036260\n",
        ),
        (
            Call::ShowPlain,
            CAPTURE.as_bytes(),
            b"84 locomotive 3: step 1 of 28, forward\n168 idle\n252 refused H5 036260\n",
        ),
        (Call::Timing, CAPTURE.as_bytes(), FIGURES),
        (hex(None), LINES, b"036261\nff00ff\nc3e8ec1c06dd\n"),
        (
            hex(Some((16, 32, 1))),
            COMMANDS,
            b"036261\n036261\n# refused C3\n030003\nff00ff\nff00ff\n",
        ),
        (
            Call::Run,
            FLEET,
            b"dcc-decoders 2\nloco s3\nspeed 28 1 f\non\nstates\npending none\ncv 1 3\ncv 29 2\nend\n",
        ),
        (Call::Same, CAPTURE.as_bytes(), b"alike\n"),
        (Call::SameInput, CAPTURES, b"alike\n"),
        (Call::SameInput, DASHES, b"alike\n"),
    ]
}

/// Returns true for `show`, `show_plain` and `encode`. If the input has an error, these operations
/// write the results of the input before the error. All other operations then write nothing.
fn lists_up_to_a_fault(call: Call) -> bool {
    match call {
        Call::Show { .. } | Call::ShowPlain | Call::Encode(_) => true,
        Call::Timing | Call::Run | Call::Same | Call::SameInput => false,
    }
}

/// Performs an operation with a reader that fails after `calls_left` calls. Returns true if the
/// whole input was read. If a read fails, the function asserts that only whole lines of the output
/// were written, and that a second call returns the error again.
fn play_behind_reads(
    rt: &impl Abort,
    alloc: Global,
    played: Played,
    each: usize,
    calls_left: u32,
) -> bool {
    let (call, text, want) = played;
    let mut input = Input::new(Giving::new(text, each, calls_left, false), Limits::full());
    let mut writer = Taking::new(alloc, 1000, 1000);
    let answer = call.play(rt, alloc, &mut input, &mut writer);
    let written = writer.taken.as_slice();
    if answer.is_ok() {
        check(rt, written == want, "another output");
        return true;
    }
    check(rt, answer == Err(ToolFault::Read), "another error");
    check(rt, is_part(call, written, want), "no part of the output");
    fails_again(rt, alloc, call, &mut input);
    false
}

/// Returns true if an operation can write `written` of its output `want` before a failed read.
fn is_part(call: Call, written: &[u8], want: &[u8]) -> bool {
    let whole_lines = lists_up_to_a_fault(call) && written.ends_with(b"\n");
    (written.is_empty() || whole_lines) && want.starts_with(written)
}

/// Asserts that a second call returns the error of a failed read and writes nothing.
fn fails_again(rt: &impl Abort, alloc: Global, call: Call, input: &mut Input<Giving>) {
    let mut writer = Taking::new(alloc, 1000, 1000);
    let again = call.play(rt, alloc, input, &mut writer);
    check(rt, again == Err(ToolFault::Read), "another error");
    check(rt, writer.taken.is_empty(), "an output");
}

/// Checks each operation with readers that fail after 0 to 99 reads. With 99 reads each operation
/// reads its whole input.
#[test]
fn each_read_fails_in_turn(rt: HostRuntime) {
    for played in calls() {
        let each = if played.1.len() < 30 { 1 } else { 7 };
        let mut whole = 0;
        for calls_left in 0..100u32 {
            if play_behind_reads(&rt, rt.alloc(), played, each, calls_left) {
                whole = whole.max(calls_left);
            } else {
                check(&rt, whole == 0, "a later read fails");
            }
        }
        check(&rt, whole == 99, "99 reads");
    }
}

/// Performs an operation with this writer. Returns true if the whole output was written. If a write
/// fails, the function asserts that a prefix of the output was written.
fn play_to(rt: &impl Abort, alloc: Global, played: Played, mut writer: Taking) -> bool {
    let (call, text, want) = played;
    let mut input = Input::new(Giving::new(text, 512, 1000, false), Limits::full());
    let answer = call.play(rt, alloc, &mut input, &mut writer);
    let taken = writer.taken.as_slice();
    if answer.is_ok() {
        check(rt, taken == want, "another output");
        return true;
    }
    check(rt, answer == Err(ToolFault::Write), "another error");
    check(rt, want.starts_with(taken), "no part of the output");
    check(rt, writer.each > 0 || taken.is_empty(), "an output");
    false
}

/// Checks each operation with writers that fail after any number of writes, up to a few more than
/// the operation makes.
#[test]
fn each_write_fails_in_turn(rt: HostRuntime) {
    for played in calls() {
        for each in [1, 3, 1000] {
            play_to_failing(&rt, rt.alloc(), played, each);
        }
        let writer = Taking::new(rt.alloc(), 0, 1000);
        check(
            &rt,
            !play_to(&rt, rt.alloc(), played, writer),
            "no byte is taken",
        );
    }
}

/// Checks an operation with writers that take at most `each` bytes.
fn play_to_failing(rt: &impl Abort, alloc: Global, played: Played, each: usize) {
    let enough = u32::try_from(played.2.len())
        .unwrap_or(1000)
        .saturating_add(10);
    let mut whole = false;
    for calls_left in 0..enough {
        let writer = Taking::new(alloc, each, calls_left);
        if play_to(rt, alloc, played, writer) {
            whole = true;
        } else {
            check(rt, !whole, "a later write fails");
        }
    }
    check(rt, whole, "no whole output");
}
