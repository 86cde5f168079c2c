//! A function that returns the value of the next line, for a caller with buffered output lines.
ghost use Rattle.std.specs.Prelude.{◌≡◌, None};
ghost use Rattle.dcc_io.specs.PacketRead.{AnswersSaid};
ghost use Rattle.dcc_send.specs.Inner.Held.{TakesNext};

use dcc_io::inputs::{ParsedLine, next_item, take_buffered_item};
use dcc_io::{Failed, HeldLines, Input, KeptFault, Sink, Source};

/// Returns the value of the next line that is neither blank nor a comment. Returns `None` at the
/// end of the input. The function writes the buffered lines before it reads more input, and before
/// the input stores an error of a line.
pub(crate) fn next_line<R: Source, W: Sink, L: ParsedLine>(
    input: &mut Input<R>,
    held: &mut HeldLines,
    writer: &mut W,
) -> Result<Result<Option<L>, KeptFault>, Failed>
    requires { input.old.fault ≡ None }
    ensures { TakesNext (AnswersSaid L.saying L.as_said) input.old (W.state writer.old)
        held.old result
        input.new held.new (W.state writer.new) }
{
    if let Some(said) = take_buffered_item(input) {
        return Ok(Ok(Some(said)));
    }
    held.write_out(writer)?;
    Ok(next_item(input))
}
