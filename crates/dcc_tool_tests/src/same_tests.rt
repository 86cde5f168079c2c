//! Tests of the operation `same`: verdicts, limits, and readers and writers that fail.

use crate::calls::{pair, text_of, told};
use crate::checks::check;
use crate::fakes::{Giving, Taking};
use crate::rows::{column, number};
use dcc_order::Verdict;
use dcc_tool::{Counted, Input, Limits, ToolFault, read_who, same};
use std::alloc::Global;
use std::process::Abort;

/// Each row has these columns:
///
/// 1. The name of the row.
///
/// 2. The decoder.
///
/// 3. The first and the second capture, in two columns.
///
/// 4. The limits of half-bits and of bytes of the first input.
///
/// 5. The number of bytes that a read of the second capture gives, and the number of reads before a
/// read fails.
///
/// 6. The number of bytes that a write takes, and the number of writes before a write fails.
///
/// 7. The text that the operation must have written.
///
/// 8. The error that the operation must return.
const ROWS: &str = "\
    no packets | s3 | / |  |  |  |  | alike/
    idle and refused ones count for nothing | s3 | S/ | I/S/B |  |  |  | alike/
    a repeat neither | s3 | S/F/ | S/S/F |  |  |  | alike/
    the other way round | s3 | S/F/ | F/S |  |  |  | order 0/
    one more | s3 | S/ | S/F |  |  |  | members 0/
    another one | s3 | S/ | F |  |  |  | members 0/
    one write or two | s3 | T/ | T/T |  |  |  | writes/
    a speed behind two writes | s3 | T/T/S/ | T/T |  |  |  | members 2/
    a board hears none of them | b12 | S/ | F |  |  |  | alike/
    packets that are not heard | b13 | S/ | S |  |  |  | alike/
    a bad word behind the first difference | s3 | S/ | F/58x |  |  |  |  | U2 line 2: bad number
    and of the first | s3 | F/58x/ | S |  |  |  |  | U2 line 2: bad number
    a limit of the first | s3 | S/ | S | 83 1000 |  |  |  | U7 input too long
    a failed read of the second | s3 | S/ | S |  | 7 3 |  |  | U4 read failed
    three bytes of a verdict | s3 | S/ | S |  |  | 1 3 | ali | U5 write failed
    no run | s3 | S/ | 58*2/58 58*3 # c/58*0 |  |  |  |  | U2 line 3: bad number";

/// Returns true if the text `words` is the text of the verdict.
fn is_told(verdict: Verdict, words: &str) -> bool {
    let (kind, block) = match verdict {
        Verdict::Alike => ("alike", 0),
        Verdict::Writes => ("writes", 0),
        Verdict::Members(block) => ("members", block),
        Verdict::Order(block) => ("order", block),
    };
    match words.split_once(' ') {
        None => words == kind,
        Some((told, at)) => told == kind && number(at) == block,
    }
}

/// The input with the first capture.
type First<'a> = Input<Counted<&'a [u8]>>;

/// Compares the two captures of a row, and checks the results. After an error the function compares
/// again, and checks that the error is the same and nothing is written.
fn compare(rt: &impl Abort, alloc: Global, row: &str) {
    let left = text_of(rt, alloc, column(row, 2));
    let right = text_of(rt, alloc, column(row, 3));
    let (halves, bytes) = pair(column(row, 4), (16_777_216, 67_108_864));
    let mut first = Input::new(Counted::new(left.as_slice()), Limits { halves, bytes });
    let (each, reads) = pair(column(row, 5), (512, 1000));
    let reader = Giving::new(right.as_slice(), each as usize, reads, false);
    let mut second = Input::new(reader, Limits::full());
    let (takes, writes) = pair(column(row, 6), (1000, 1000));
    let mut writer = Taking::new(alloc, takes as usize, writes);
    let answer = play_same(rt, alloc, row, &mut first, &mut second, &mut writer);
    has_written(rt, alloc, row, &writer);
    check(rt, is_answer(rt, alloc, row, answer), row);
    if answer.is_err() {
        let again = play_same(rt, alloc, row, &mut first, &mut second, &mut writer);
        check(rt, column(row, 8).starts_with("U5") || again == answer, row);
        has_written(rt, alloc, row, &writer);
    }
}

/// Compares two inputs for the decoder of a row.
fn play_same(
    rt: &impl Abort,
    alloc: Global,
    row: &str,
    first: &mut First,
    second: &mut Input<Giving>,
    writer: &mut Taking,
) -> Result<Verdict, ToolFault> {
    let who = read_who(column(row, 1)).expect(rt, row);
    same(alloc, first, second, writer, who)
}

/// Asserts that the text of a row was written.
fn has_written(rt: &impl Abort, alloc: Global, row: &str, writer: &Taking) {
    let written = text_of(rt, alloc, column(row, 7));
    check(rt, writer.taken.as_slice() == written.as_slice(), row);
}

/// Returns true if a row has this verdict or this error.
fn is_answer(
    rt: &impl Abort,
    alloc: Global,
    row: &str,
    answer: Result<Verdict, ToolFault>,
) -> bool {
    match answer {
        Ok(verdict) => is_told(verdict, column(row, 7).trim_end_matches('/')),
        Err(fault) => told(rt, alloc, &Err(fault)).as_str() == column(row, 8),
    }
}

#[test]
fn two_captures(rt: HostRuntime) {
    for row in ROWS.lines() {
        compare(&rt, rt.alloc(), row);
    }
}
