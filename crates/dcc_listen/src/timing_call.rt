//! The operation `timing`, which writes the statistics of a capture.
ghost use Rattle.std.specs.Prelude.{◌≡◌, None, IfSome};
ghost use Rattle.dcc_io.specs.Faults.{as_tool_fault};
ghost use Rattle.dcc_io.specs.InputState.{ReadHasFailure};
ghost use Rattle.dcc_listen.specs.Timed.{MeasuresCapture, Times};

use crate::AT_ONCE;
use crate::timing_text::timing_text;
use dcc_capture::read_run;
use dcc_io::inputs::take_buffered_halves;
use dcc_io::{Input, KeptFault, Sink, Source, ToolFault, write_all};
use dcc_lost::TrackFigures;

/// Writes the statistics of a capture. Each line has a name, and then a number, two limits or the
/// word `none`. The limits are those of NMRA S-9.1 for a station and for a decoder.
///
/// The statistics cover all half-bits, so they are written after the whole capture was read.
///
/// Errors: U2 at a word that is no run. U4 if a read fails. U7 if the input exceeds a limit. U5 if
/// a write fails. After U2, U4 or U7 nothing was written, and `input` stores the error. After U5 a
/// prefix of the text was written.
#[inline(never)]
pub fn timing<R: Source, W: Sink>(input: &mut Input<R>, writer: &mut W) -> Result<(), ToolFault>
    // If an error is stored, the function returns this error, and reads and writes nothing.
    ensures kept { IfSome input.old.fault
        (λ fault. (result ≡ Err (as_tool_fault fault)) × (input.new ≡ input.old) × (writer.new ≡ writer.old)) }
    ensures cause { ReadHasFailure input.old.fault input.old.failures }

    // If no error is stored, the function writes the statistics of the capture, or returns the
    // first error of the capture.
    ensures times { input.old.fault ≡ None
        → Times input.old (W.state writer.old) result input.new (W.state writer.new) }
{
    if let Some(fault) = input.fault() {
        return Err(ToolFault::from(fault));
    }
    let figures = measure(input)?;
    Ok(write_all(writer, timing_text(&figures).as_slice())?)
}

/// Reads a capture to its end, and returns all its statistics. Most words are durations that the
/// buffer contains completely.
#[inline(never)]
pub fn measure<R: Source>(input: &mut Input<R>) -> Result<TrackFigures, KeptFault>
    requires { input.old.fault ≡ None }
    ensures { MeasuresCapture input.old result input.new }
{
    // the limit allows fewer than 2^32 half-bits
    let most = input.halves_left();
    let mut figures = TrackFigures::new();
    let mut halves = [0; AT_ONCE];
    'runs: loop {
        let count = take_buffered_halves(input, &mut halves);
        if count > 0 {
            figures.push_all(&halves[..count]);
            continue;
        }
        match read_run(input)? {
            Some(run) => figures.push_run(run.us, run.n),
            None => return Ok(figures),
        }
    }
}
