//! The trait of the values that a line of text can have.
ghost use Rattle.std.specs.Prelude.{◌≡◌, ℕ, List, None, Ok, Some, IfSome, IfNone};
ghost use Rattle.dcc_packet.specs.Spelling.{spelling};
ghost use Rattle.dcc_packet.specs.Words.{words};
ghost use Rattle.dcc_io.specs.PacketLines.{Saying, packet_words};
ghost use Rattle.dcc_io.specs.KeptAnswers.{AnswersKept};
ghost use Rattle.dcc_io.specs.PacketRead.{AnswersSaid, ReadsSaid, map_parsed};

use crate::fault::KeptFault;
use crate::input::Input;
use crate::stream::Source;
use crate::text_line::TextLine;
use dcc_packet::{Packet, PacketFault};

/// The value of a line of text.
pub trait ParsedLine: Drop {
    // an item of a text for which a line stands
    ghost Item: { Type 0 };

    // the value that the words of a line have
    ghost Said: { Type 0 };

    // the definition of how words are parsed as a value, and of the items for which the line stands
    ghost saying: { Saying Item Said };

    // the value of the words from which this Rust value was parsed
    ghost as_said: { Self → Said };

    /// Returns the value of the words of a line, or the first error of these words.
    fn from_line(line: &[u8]) -> Result<Self, PacketFault>
        ensures { map_parsed as_said result ≡ saying.said (words line.now) };
}

impl ParsedLine for Packet {
    ghost Item = { List ℕ };

    ghost Said = { List ℕ };

    ghost saying = { packet_words };

    ghost as_said = { spelling };

    fn from_line(line: &[u8]) -> Result<Packet, PacketFault> {
        Packet::from_line_bytes(line)
    }
}

/// Returns the value of the next line that is neither blank nor a comment. Returns `None` at the
/// end of the input. If the function returns an error, `input` stores this error.
pub fn next_item<R: Source, L: ParsedLine>(input: &mut Input<R>) -> Result<Option<L>, KeptFault>
    ensures kept { AnswersKept input.old result input.new }
    ensures reads { input.old.fault ≡ None → AnswersSaid L.saying L.as_said input.old result input.new }
{
    match input.fault() {
        Some(fault) => Err(fault),
        None => read_lines(input),
    }
}

/// Removes the next line and returns its value, if the buffer contains the complete line and the
/// line is neither blank nor a comment. Most lines of an input are returned by this function, which
/// neither reads from the reader nor copies the line.
///
/// Returns `None`, and removes nothing, for any other line. The caller then calls [`next_item`],
/// which handles comments, errors and incomplete lines.
pub fn take_buffered_item<R: Source, L: ParsedLine>(input: &mut Input<R>) -> Option<L>
    ensures some { IfSome result (λ says. AnswersSaid L.saying L.as_said input.old (Ok (Some says)) input.new) }
    ensures none { IfNone result (input.new ≡ input.old) }
    ensures kept { IfSome input.old.fault (λ fault. result ≡ None) }
{
    if input.fault().is_some() {
        return None;
    }
    let line = input.whole_line()?;
    let len = line.len();
    match L::from_line(line) {
        Ok(says) if input.take_line(len) => Some(says),
        Ok(_) | Err(_) => None,
    }
}

/// Returns the value of the next line that is neither blank nor a comment. Returns `None` at the
/// end of the input.
fn read_lines<R: Source, L: ParsedLine>(input: &mut Input<R>) -> Result<Option<L>, KeptFault>
    requires { input.old.fault ≡ None }
    ensures { AnswersSaid L.saying L.as_said input.old result input.new }
{
    'lines: loop {
        if input.take_skipped_line() {
            continue;
        }
        match input.next_line()? {
            Some(line) => {
                if !line.is_skipped() {
                    return read_item(input, &line);
                }
            }
            None => return Ok(None),
        }
    }
}

/// Returns the value of the words of a line. If the words have an error, the function stores and
/// returns this error.
fn read_item<R: Source, L: ParsedLine>(
    input: &mut Input<R>,
    line: &TextLine,
) -> Result<Option<L>, KeptFault>
    ensures { ReadsSaid L.saying L.as_said input.old line.now result input.new }
{
    match L::from_line(line.text.as_bytes()) {
        Ok(says) => Ok(Some(says)),
        Err(fault) => Err(input.refuse(KeptFault::Line {
            line: line.number,
            fault,
        })),
    }
}
