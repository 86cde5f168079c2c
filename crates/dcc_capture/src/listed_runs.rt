//! Functions that read the runs of a capture for an operation that writes lines.
ghost use Rattle.std.specs.Prelude.{◌≡◌, ◌≢◌, ◌⊎◌, [], None, OnOk};
ghost use Rattle.dcc_io.specs.Held.{HoldsOrFails};
ghost use Rattle.dcc_io.specs.Words.{ended_words};
ghost use Rattle.dcc_capture.specs.HeldRuns.{ReadsRun, WritesRest};

use crate::runs::read_run;
use dcc_io::inputs::take_buffered_run;
use dcc_io::{Failed, HeldLines, Input, KeptFault, Run, Sink, Source, ToolFault};

/// Returns the next run. Returns `None` at the end of the capture. The function writes the buffered
/// lines before it reads more input.
pub fn next_listed_run<R: Source, W: Sink>(
    input: &mut Input<R>,
    held: &mut HeldLines,
    writer: &mut W,
) -> Result<Result<Option<Run>, KeptFault>, Failed>
    requires { input.old.fault ≡ None }
    ensures { ReadsRun input.old (W.state writer.old) held.old result input.new held.new
        (W.state writer.new) }
{
    if let Some(run) = take_buffered_run(input) {
        return Ok(Ok(Some(run)));
    }
    write_before_read(held, input, writer)?;
    Ok(read_run(input))
}

/// Writes the buffered lines, unless the next word is buffered. So each line of a live track is
/// shown as soon as its half-bit has come, and the lines of a long recording are written together.
fn write_before_read<R: Source, W: Sink>(
    held: &mut HeldLines,
    input: &Input<R>,
    writer: &mut W,
) -> Result<(), Failed>
    ensures holds { HoldsOrFails (W.state writer.old) held.old result held.new
        (W.state writer.new) }
    ensures waits { OnOk result ((held.new ≡ []) ⊎ (ended_words input.now.place input.now.ahead ≢ [])) }
{
    if held.is_empty() || input.has_buffered_word() {
        return Ok(());
    }
    held.write_out(writer)
}

/// Writes the buffered lines and returns the result `answer`.
///
/// Errors: U5 if the write fails.
pub fn write_rest<W: Sink>(
    held: &mut HeldLines,
    writer: &mut W,
    answer: Result<(), ToolFault>,
) -> Result<(), ToolFault>
    ensures { WritesRest (W.state writer.old) held.old answer result
        (W.state writer.new) }
{
    held.write_out(writer)?;
    answer
}
