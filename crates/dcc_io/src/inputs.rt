//! Functions that read an input item by item: words and their half-bits, lines, and the values of
//! lines. The crates that depend on this crate use these functions. The crate `dcc_tool` does not
//! re-export them.
ghost use Rattle.std.specs.Prelude.{◌≡◌, ◌≢◌, None, Err, IfSome, MatchResult};
ghost use Rattle.dcc_io.specs.AllBytes.{GivesAllBytes, LacksBytes};
ghost use Rattle.dcc_io.specs.Faults.{as_tool_fault};
ghost use Rattle.dcc_io.specs.InputState.{ReadHasFailure};
ghost use Rattle.dcc_io.specs.KeptAnswers.{AnswersKept, KeepsFault};
ghost use Rattle.dcc_io.specs.LineEnd.{SkipsToLineEnd};
ghost use Rattle.dcc_io.specs.NextLine.{AnswersLine};

use crate::fault::{KeptFault, ToolFault};
use crate::input::Input;
pub use crate::input::{
    count_run, line_of_next_byte, next_word, take_buffered_halves, take_buffered_run,
};
pub use crate::said_line::{ParsedLine, next_item, take_buffered_item};
use crate::stream::Source;
use crate::text_line::TextLine;
pub use crate::word::run_of;
use dcc_packet::PacketFault;
use std::alloc::Global;

/// Stores and returns the error U2 for the line `line`, which has a wrong word. After the call the
/// input is not read further. If an error is stored already, the function returns this error.
pub fn refuse_number<R: Source>(input: &mut Input<R>, line: u64) -> KeptFault
    ensures kept { IfSome input.old.fault (λ kept. (result ≡ kept) × (input.new ≡ input.old)) }
    ensures refuses { input.old.fault ≡ None → KeepsFault input.old (KeptFault.Number line) result input.new }
{
    keep(input, KeptFault::Number { line })
}

/// Skips to the end of the line, or to the end of the next word. Returns true if no word follows on
/// the line. If the function returns an error, `input` stores this error.
pub fn ends_line<R: Source>(input: &mut Input<R>) -> Result<bool, KeptFault>
    ensures kept { AnswersKept input.old result input.new }
    ensures reads { input.old.fault ≡ None → SkipsToLineEnd input.old result input.new }
{
    match input.fault() {
        Some(fault) => Err(fault),
        None => input.ends_line(),
    }
}

/// Returns the next line of a text with its number, which counts from 1. Returns `None` at the end
/// of the input. If the function returns an error, `input` stores this error.
///
/// Errors: U3 with P10 if the line has more than 512 bytes, or a byte that is not ASCII.
pub fn next_line<R: Source>(input: &mut Input<R>) -> Result<Option<TextLine>, KeptFault>
    ensures kept { AnswersKept input.old result input.new }
    ensures reads { input.old.fault ≡ None → AnswersLine input.old result input.new }
{
    match input.fault() {
        Some(kept) => Err(kept),
        None => input.next_line(),
    }
}

/// Returns all bytes that are left in the input, without the line feed that the input appends.
///
/// Errors: U4 if a read fails. U7 if the input exceeds its limit of bytes. U6 if an allocation fails.
pub fn read_all<R: Source>(alloc: Global, input: &mut Input<R>) -> Result<Vec<u8>, ToolFault>
    ensures kept { IfSome input.old.fault (λ fault. (result ≡ Err (as_tool_fault fault)) × (input.new ≡ input.old)) }
    ensures cause { ReadHasFailure input.old.fault input.old.failures }
    ensures reads { input.old.fault ≡ None → MatchResult result
        (λ bytes. GivesAllBytes input.old bytes.items input.new)
        (λ fault. LacksBytes input.old fault input.new) }
{
    if let Some(fault) = input.fault() {
        return Err(ToolFault::from(fault));
    }
    input.read_all(alloc)
}

/// Stores and returns the error U3 with `fault` for the line `line`. After the call the input is
/// not read further. If an error is stored already, the function returns this error.
pub fn refuse_line<R: Source>(input: &mut Input<R>, line: u64, fault: PacketFault) -> KeptFault
    ensures kept { IfSome input.old.fault (λ kept. (result ≡ kept) × (input.new ≡ input.old)) }
    ensures refuses { input.old.fault ≡ None → KeepsFault input.old (KeptFault.Line line fault) result input.new }
{
    keep(input, KeptFault::Line { line, fault })
}

/// Stores and returns the error U7. After the call the input is not read further. If an error is
/// stored already, the function returns this error.
pub fn refuse_too_much<R: Source>(input: &mut Input<R>) -> KeptFault
    ensures kept { IfSome input.old.fault (λ kept. (result ≡ kept) × (input.new ≡ input.old)) }
    ensures refuses { input.old.fault ≡ None → KeepsFault input.old KeptFault.TooMuch result input.new }
{
    keep(input, KeptFault::TooMuch)
}

/// Stores `fault`, unless an error is stored already. Returns the stored error.
fn keep<R: Source>(input: &mut Input<R>, fault: KeptFault) -> KeptFault
    requires { fault ≢ KeptFault.Read }
    ensures kept { IfSome input.old.fault (λ kept. (result ≡ kept) × (input.new ≡ input.old)) }
    ensures refuses { input.old.fault ≡ None → KeepsFault input.old fault result input.new }
{
    match input.fault() {
        Some(kept) => kept,
        None => input.refuse(fault),
    }
}
