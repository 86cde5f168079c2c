//! The operation `show`, which lists a capture.
ghost use Rattle.std.specs.Prelude.{◌≡◌, ◌<◌, ◌+◌, ◌^◌, ◌++◌, ℕ, List, None, IfSome, OnOk, length};
ghost use Rattle.dcc_wire.specs.declared.seen.Seen.{Seen as SeenOf};
ghost use Rattle.dcc_wire.specs.Framing.{StandsFor, report_at, seen};
ghost use Rattle.dcc_io.specs.Held.{HoldsOrFails};
ghost use Rattle.dcc_capture.specs.HeldRuns.{HoldsLines, HoldsListing};
ghost use Rattle.dcc_io.specs.Faults.{as_tool_fault};
ghost use Rattle.dcc_io.specs.InputState.{ReadHasFailure};
ghost use Rattle.dcc_capture.specs.Listing.{IsLine};
ghost use Rattle.dcc_capture.specs.Shown.{Shows, WritesLinesOfCapture};

use crate::listed_runs::{next_listed_run, write_rest};
use crate::listing::outcome_line;
use dcc_io::inputs::take_buffered_halves;
use dcc_io::{Failed, HeldLines, Input, Sink, Source, ToolFault};
use dcc_wire::{Framer, Seen};

/// The number of half-bits that are read before the framer takes them.
const AT_ONCE: usize = 256;

/// A form of the lines of a listing.
pub trait LineForm {
    // a list of bytes is the line of an outcome that ends with the half-bit of a number
    ghost is_line: { Self → ℕ → SeenOf → List ℕ → Type 0 };

    /// Appends the line of the outcome that ends with the half-bit with the number `half` to the
    /// buffer.
    fn hold<W: Sink>(
        &self,
        held: &mut HeldLines,
        half: u32,
        seen: &Seen,
        writer: &mut W,
    ) -> Result<(), Failed>
        ensures { (text : List ℕ) × is_line self.now half seen.now text
            × HoldsOrFails (W.state writer.old) (held.old ++ text) result held.new
            (W.state writer.new) };
}

/// The lines of `show`. A packet is written as a packet line if `words` is true, otherwise in hex.
#[derive(Drop)]
struct PacketLines {
    words: bool,
}

/// Writes a line for each outcome of a capture. The line begins with the number of the last
/// half-bit of the outcome, counted from 1.
///
/// The line of a packet has the bytes in hex, for example `84 036261`. If `words` is true, it has
/// the packet line, for example `84 loco s3 speed28 f 4`. The line of a refusal has its error H1 to
/// H5, for example `31 refused H1`. The error H5 is followed by the bytes, as in `84 refused H5
/// 036260` (NMRA S-9.2, RCN-211). The function writes a complete line before it reads more input.
///
/// Errors: U2 at a word that is no run. U4 if a read fails. U7 if the input exceeds a limit. U5 if
/// a write fails. After U2, U4 or U7 the listing of the capture before the error was written, and
/// `input` stores the error. After U5 a prefix of the listing was written. If an error of the
/// capture was found before the write failed, `input` stores this error.
pub fn show<R: Source, W: Sink>(
    input: &mut Input<R>,
    writer: &mut W,
    words: bool,
) -> Result<(), ToolFault>
    // If an error is stored, the function returns this error, and reads and writes nothing.
    ensures kept { IfSome input.old.fault
        (λ fault. (result ≡ Err (as_tool_fault fault)) × (input.new ≡ input.old) × (writer.new ≡ writer.old)) }
    ensures cause { ReadHasFailure input.old.fault input.old.failures }

    // If no error is stored, the function writes the listing of the capture up to the first error.
    ensures shows { input.old.fault ≡ None
        → Shows words input.old (W.state writer.old) result
        input.new (W.state writer.new) }
{
    if let Some(fault) = input.fault() {
        return Err(ToolFault::from(fault));
    }
    list_outcomes(input, writer, &PacketLines { words })
}

/// Writes the listing of a capture up to the first error, with lines of the form `form`. The function
/// writes a complete line before it reads more input.
pub fn list_outcomes<R: Source, W: Sink, F: LineForm>(
    input: &mut Input<R>,
    writer: &mut W,
    form: &F,
) -> Result<(), ToolFault>
    requires { input.old.fault ≡ None }
    ensures { WritesLinesOfCapture (F.is_line form.now) seen input.old (W.state writer.old) result input.new
        (W.state writer.new) }
{
    let most = input.halves_left();
    let mut framer = Framer::new();
    let mut held = HeldLines::new();
    let mut halves = [0; AT_ONCE];
    'runs: loop {
        let count = take_buffered_halves(input, &mut halves);
        if count > 0 {
            let before = most - input.halves_left() - count as u32;
            hold_halves(
                &mut framer,
                &halves[..count],
                before,
                &mut held,
                form,
                writer,
            )?;
            continue;
        }
        match next_listed_run(input, &mut held, writer)? {
            Ok(Some(run)) => {
                let shown = framer.push_run(run.us, run.n);
                let half = most - input.halves_left() - run.n + shown.at;
                hold_seen(&mut held, half, &shown.seen, form, writer)?;
            }
            Ok(None) => return write_rest(&mut held, writer, Ok(())),
            Err(fault) => return write_rest(&mut held, writer, Err(ToolFault::from(fault))),
        }
    }
}

/// Pushes half-bits to the framer, and appends the lines of their outcomes to the buffer. The number
/// `before` counts the half-bits of the capture before these half-bits.
fn hold_halves<W: Sink, F: LineForm>(
    framer: &mut Framer,
    halves: &[u16],
    before: u32,
    held: &mut HeldLines,
    form: &F,
    writer: &mut W,
) -> Result<(), Failed>
    requires { before + length halves.now < 2 ^ 32 }
    ensures stands { OnOk result ((durations : List ℕ) → StandsFor framer.old durations
        → StandsFor framer.new (durations ++ halves.now)) }
    ensures holds { (durations : List ℕ) → StandsFor framer.old durations → before ≡ length durations
        → HoldsListing (F.is_line form.now) seen durations halves.now (W.state writer.old) held.old result held.new
        (W.state writer.new) }
{
    let mut taken = 0;
    'halves: while taken < halves.len() {
        let shown = framer.push_many(&halves[taken..]);
        taken += shown.at;
        hold_seen(held, before + taken as u32, &shown.seen, form, writer)?;
    }
    Ok(())
}

/// Appends a line to the buffer if an outcome ends with the half-bit with the number `half`.
#[inline(always)]
#[tactic(auto, unfolding(dcc_wire::specs::Framing::report_at))]
fn hold_seen<W: Sink, F: LineForm>(
    held: &mut HeldLines,
    half: u32,
    seen: &Seen,
    form: &F,
    writer: &mut W,
) -> Result<(), Failed>
    requires { 0 < half }
    ensures { (place : ℕ) → half ≡ place + 1
        → HoldsLines (F.is_line form.now) (report_at place seen.now) (W.state writer.old)
        held.old result held.new (W.state writer.new) }
{
    match seen {
        Seen::Nothing => Ok(()),
        Seen::Packet(_) | Seen::Refused(_) => {
            // a copy, so that no memory is needed for a half-bit without an outcome
            let shown = *seen;
            form.hold(held, half, &shown, writer)
        }
    }
}

impl LineForm for PacketLines {
    ghost is_line = { λ form. IsLine form.words };

    #[inline(never)]
    fn hold<W: Sink>(
        &self,
        held: &mut HeldLines,
        half: u32,
        seen: &Seen,
        writer: &mut W,
    ) -> Result<(), Failed> {
        held.hold(outcome_line(half, seen, self.words).as_slice(), writer)
    }
}
