//! The operation `show_plain`, which lists a capture in plain words.
ghost use Rattle.std.specs.Prelude.{◌≡◌, ℕ, List, None, IfSome};
ghost use Rattle.dcc_io.specs.Faults.{as_tool_fault};
ghost use Rattle.dcc_io.specs.InputState.{ReadHasFailure};
ghost use Rattle.dcc_listen.specs.PlainListing.{IsPlainLine, ShowsPlain};

use arrayvec::ArrayVec;
use dcc_capture::{LineForm, list_outcomes, outcome_line};
use dcc_io::{Failed, HeldLines, Input, Sink, Source, ToolFault, append, append_decimal};
use dcc_plain::plain_text;
use dcc_wire::{Frame, Seen};

/// Writes a line for each outcome of a capture, with packets in plain words. The line begins with the
/// number of the last half-bit of the outcome, counted from 1.
///
/// A line has the speed steps, functions, turnouts or CVs of the packet, for example `84 locomotive
/// 3: step 1 of 28, forward`. A frame in no row of the table of packets can be a service packet, and
/// has the words of this packet, for example `84 on a programming track: CV1 := 10`. Any other frame
/// has its packet line, for example `84 frame 010203040501`. The line of a refusal is the line that
/// `show` writes. The function writes a complete line before it reads more input.
///
/// Errors: U2 at a word that is no run. U4 if a read fails. U7 if the input exceeds a limit. U5 if
/// a write fails. After U2, U4 or U7 the listing of the capture before the error was written, and
/// `input` stores the error. After U5 a prefix of the listing was written. If an error of the
/// capture was found before the write failed, `input` stores this error.
pub fn show_plain<R: Source, W: Sink>(input: &mut Input<R>, writer: &mut W) -> Result<(), ToolFault>
    // If an error is stored, the function returns this error, and reads and writes nothing.
    ensures kept { IfSome input.old.fault
        (λ fault. (result ≡ Err (as_tool_fault fault)) × (input.new ≡ input.old) × (writer.new ≡ writer.old)) }
    ensures cause { ReadHasFailure input.old.fault input.old.failures }

    // If no error is stored, the function writes the listing of the capture up to the first error.
    ensures shows { input.old.fault ≡ None
        → ShowsPlain input.old (W.state writer.old) result
        input.new (W.state writer.new) }
{
    if let Some(fault) = input.fault() {
        return Err(ToolFault::from(fault));
    }
    list_outcomes(input, writer, &PlainLines)
}

/// A line with capacity for a number, a space, a text in plain words, and a line feed.
type PlainLine = ArrayVec<u8, 267>;

/// The lines of `show_plain`.
#[derive(Drop)]
struct PlainLines;

impl LineForm for PlainLines {
    ghost is_line = { λ form. IsPlainLine };

    #[inline(never)]
    fn hold<W: Sink>(
        &self,
        held: &mut HeldLines,
        half: u32,
        seen: &Seen,
        writer: &mut W,
    ) -> Result<(), Failed> {
        match seen {
            Seen::Packet(frame) => held.hold(plain_line(half, frame).as_slice(), writer),
            Seen::Nothing => held.hold(outcome_line(half, seen, false).as_slice(), writer),
            Seen::Refused(_) => held.hold(outcome_line(half, seen, false).as_slice(), writer),
        }
    }
}

/// Returns the line of a packet. The parameter `half` is the number of the last half-bit of the
/// packet, counted from 1.
#[tactic(auto, using(dcc_io::proofs::DecimalLemmas::decimal_is_short))]
fn plain_line(half: u32, frame: &Frame) -> PlainLine
    ensures { IsPlainLine half (Seen.Packet frame.now) result.items }
{
    let mut line = PlainLine::new();
    append_decimal(&mut line, half);
    append(&mut line, b" ");
    append(&mut line, plain_text(frame).as_slice());
    append(&mut line, b"\n");
    line
}
