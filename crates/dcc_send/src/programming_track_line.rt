//! Functions that write the lines of a reading on the programming track.
ghost use Rattle.std.specs.Prelude.{◌≡◌};
ghost use Rattle.dcc_send.specs.ProgrammingTrackReading.{answer_text, answered_line, value_line};

use dcc_io::{Line, append, append_decimal, append_hex};
use dcc_wire::Frame;

/// Returns the line of a question with its answer: the frame of the question in hex, and `yes` or
/// `no`.
pub(crate) fn answered_line(frame: &Frame, yes: bool) -> Line
    ensures { result.items ≡ answered_line frame.now yes }
{
    let mut line = Line::new();
    append_hex(&mut line, frame.bytes());
    append(&mut line, answer_text(yes));
    line
}

fn answer_text(yes: bool) -> &'static [u8]
    ensures { result.now ≡ answer_text yes }
{
    if yes { b" yes\n" } else { b" no\n" }
}

/// Returns the line of the result of a reading: `value` and the number, or `no answer`.
#[tactic(auto, using(dcc_io::proofs::DecimalLemmas::decimal_is_short))]
pub(crate) fn value_line(value: Option<u8>) -> Line
    ensures { result.items ≡ value_line value }
{
    let mut line = Line::new();
    match value {
        Some(value) => {
            append(&mut line, b"value ");
            append_decimal(&mut line, u32::from(value));
            append(&mut line, b"\n");
        }
        None => append(&mut line, b"no answer\n"),
    }
    line
}
