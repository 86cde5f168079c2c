//! The operation `what`.
ghost use Rattle.std.specs.Prelude.{◌≡◌, None, Err, IfSome};
ghost use Rattle.dcc_io.specs.Faults.{as_tool_fault};
ghost use Rattle.dcc_io.specs.InputState.{ReadHasFailure};
ghost use Rattle.dcc_what.specs.Said.{WritesSentence};

use crate::reading::kind_of;
use crate::sentence::sentence;
use dcc_io::inputs::read_all;
use dcc_io::{Input, Sink, Source, ToolFault, write_all};
use std::alloc::Global;

/// Writes a sentence that says what the input is: a capture with its number of half-bits, a decoder
/// text, packet lines, or a file that another program reads. For a wrong word of a capture, the
/// sentence has the line of the word, its place in the line, and the word.
///
/// The function reads the whole input first, and allocates memory for it.
///
/// Errors: U4 if a read fails. U7 if the input exceeds its limit of bytes. U6 if an allocation fails.
/// U5 if a write fails. After U4, U6 or U7 nothing was written, and after U4 or U7 `input` stores the
/// error. After U5 a prefix of the sentence was written.
pub fn what<R: Source, W: Sink>(
    alloc: Global,
    input: &mut Input<R>,
    writer: &mut W,
) -> Result<(), ToolFault>
    // If an error is stored, the function returns this error, and reads and writes nothing.
    ensures kept { IfSome input.old.fault
        (λ fault. (result ≡ Err (as_tool_fault fault)) × (input.new ≡ input.old) × (writer.new ≡ writer.old)) }
    ensures cause { ReadHasFailure input.old.fault input.old.failures }

    // If no error is stored, the function writes the sentence about the bytes of the input.
    ensures says { input.old.fault ≡ None
        → WritesSentence input.old (W.state writer.old) result input.new (W.state writer.new) }
{
    let bytes = read_all(alloc, input)?;
    let kind = kind_of(alloc, bytes.as_slice())?;
    Ok(write_all(writer, sentence(bytes.as_slice(), kind).as_slice())?)
}
