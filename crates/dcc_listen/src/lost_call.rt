//! The operation `lost`, which lists the packets that a decoder does not hear.
ghost use Rattle.std.specs.Prelude.{◌≡◌, ◌<◌, ◌+◌, ◌++◌, ◌^◌, ℕ, List, None, IfSome, OnOk, length, replicate};
ghost use Rattle.dcc_lost.specs.Causes.{packets_lost, report_lost};
ghost use Rattle.dcc_lost.specs.Reads.{Follows};
ghost use Rattle.dcc_io.specs.Faults.{as_tool_fault};
ghost use Rattle.dcc_io.specs.Held.{HoldsOrFails};
ghost use Rattle.dcc_io.specs.InputState.{ReadHasFailure};
ghost use Rattle.dcc_capture.specs.HeldRuns.{HoldsLines, HoldsListing};
ghost use Rattle.dcc_listen.specs.LostListing.{IsLostLine, ListsLost};

use crate::AT_ONCE;
use crate::lost_line::lost_line;
use dcc_capture::{next_listed_run, write_rest};
use dcc_io::inputs::take_buffered_halves;
use dcc_io::{Failed, HeldLines, Input, Run, Sink, Source, ToolFault};
use dcc_lost::{LostFinder, LostPacket};

/// Writes a line for each packet of a capture that a decoder does not hear. The line begins with the
/// number of the last half-bit of the packet, counted from 1, and ends with the causes.
///
/// A line has the bytes of the packet in hex, for example `72 lost 036261: preamble 16`. If `words`
/// is true, it has the packet line, for example `72 lost loco s3 speed28 f 4: preamble 16`. The
/// function writes a complete line before it reads more input.
///
/// Errors: U2 at a word that is no run. U4 if a read fails. U7 if the input exceeds a limit. U5 if
/// a write fails. After U2, U4 or U7 the lines of the capture before the error were written, and
/// `input` stores the error. After U5 a prefix of the lines was written. If an error of the capture
/// was found before the write failed, `input` stores this error.
pub fn lost<R: Source, W: Sink>(
    input: &mut Input<R>,
    writer: &mut W,
    words: bool,
) -> Result<(), ToolFault>
    // If an error is stored, the function returns this error, and reads and writes nothing.
    ensures kept { IfSome input.old.fault
        (λ fault. (result ≡ Err (as_tool_fault fault)) × (input.new ≡ input.old) × (writer.new ≡ writer.old)) }
    ensures cause { ReadHasFailure input.old.fault input.old.failures }

    // If no error is stored, the function writes the lines of the lost packets of the capture up to
    // the first error.
    ensures lists { input.old.fault ≡ None
        → ListsLost words input.old (W.state writer.old) result
        input.new (W.state writer.new) }
{
    if let Some(fault) = input.fault() {
        return Err(ToolFault::from(fault));
    }
    list(input, writer, words)
}

/// Writes the lines of the lost packets of a capture, up to the first error.
#[inline(never)]
fn list<R: Source, W: Sink>(
    input: &mut Input<R>,
    writer: &mut W,
    words: bool,
) -> Result<(), ToolFault>
    requires { input.old.fault ≡ None }
    ensures { ListsLost words input.old (W.state writer.old) result input.new (W.state writer.new) }
{
    let most = input.halves_left();
    let mut finder = LostFinder::new();
    let mut held = HeldLines::new();
    let mut halves = [0; AT_ONCE];
    'runs: loop {
        let count = take_buffered_halves(input, &mut halves);
        if count > 0 {
            let before = most - input.halves_left() - count as u32;
            list_halves(
                &mut finder,
                &halves[..count],
                before,
                words,
                &mut held,
                writer,
            )?;
            continue;
        }
        match next_listed_run(input, &mut held, writer)? {
            Ok(Some(run)) => {
                let before = most - input.halves_left() - run.n;
                list_run(&mut finder, before, run, words, &mut held, writer)?;
            }
            Ok(None) => return write_rest(&mut held, writer, Ok(())),
            Err(fault) => return write_rest(&mut held, writer, Err(ToolFault::from(fault))),
        }
    }
}

/// Appends the lines of the packets that are lost in the half-bits `halves` to the buffer. The
/// parameter `before` is the number of half-bits before these half-bits.
fn list_halves<W: Sink>(
    finder: &mut LostFinder,
    halves: &[u16],
    before: u32,
    words: bool,
    held: &mut HeldLines,
    writer: &mut W,
) -> Result<(), Failed>
    requires { before + length halves.now < 2 ^ 32 }
    ensures follows { OnOk result ((durations : List ℕ) → Follows finder.old durations
        → Follows finder.new (durations ++ halves.now)) }
    ensures holds { (durations : List ℕ) → Follows finder.old durations → before ≡ length durations
        → HoldsListing (IsLostLine words) packets_lost durations halves.now (W.state writer.old) held.old result
        held.new (W.state writer.new) }
{
    let mut taken = 0;
    'halves: while taken < halves.len() {
        let lost = finder.push(halves[taken]);
        taken += 1;
        hold_lost(held, before + taken as u32, &lost, words, writer)?;
    }
    Ok(())
}

/// Appends the lines of the packets that are lost in a run to the buffer. The parameter `before` is
/// the number of half-bits before the run.
fn list_run<W: Sink>(
    finder: &mut LostFinder,
    before: u32,
    run: Run,
    words: bool,
    held: &mut HeldLines,
    writer: &mut W,
) -> Result<(), Failed>
    requires { before + run.n < 2 ^ 32 }
    ensures follows { OnOk result ((durations : List ℕ) → Follows finder.old durations
        → Follows finder.new (durations ++ replicate run.n run.us)) }
    ensures holds { (durations : List ℕ) → Follows finder.old durations → before ≡ length durations
        → HoldsListing (IsLostLine words) packets_lost durations (replicate run.n run.us) (W.state writer.old)
        held.old result held.new (W.state writer.new) }
{
    let mut taken = 0;
    'pieces: while taken < run.n {
        let piece = finder.push_run(run.us, run.n - taken);
        taken += piece.at;
        hold_lost(held, before + taken, &piece.lost, words, writer)?;
    }
    Ok(())
}

/// Appends a line to the buffer if a packet is lost at the half-bit with the number `half`.
#[inline(always)]
#[tactic(auto, unfolding(dcc_lost::specs::Causes::report_lost))]
fn hold_lost<W: Sink>(
    held: &mut HeldLines,
    half: u32,
    lost: &Option<LostPacket>,
    words: bool,
    writer: &mut W,
) -> Result<(), Failed>
    ensures { (place : ℕ) → half ≡ place + 1
        → HoldsLines (IsLostLine words) (report_lost place lost.now) (W.state writer.old)
        held.old result held.new (W.state writer.new) }
{
    match lost {
        None => Ok(()),
        Some(packet) => hold_packet(held, half, packet, words, writer),
    }
}

/// Appends the line of the packet that is lost at the half-bit with the number `half` to the
/// buffer.
fn hold_packet<W: Sink>(
    held: &mut HeldLines,
    half: u32,
    packet: &LostPacket,
    words: bool,
    writer: &mut W,
) -> Result<(), Failed>
    ensures { (text : List ℕ) × IsLostLine words half packet.now text
        × HoldsOrFails (W.state writer.old) (held.old ++ text) result held.new
        (W.state writer.new) }
{
    held.hold(lost_line(half, packet, words).as_slice(), writer)
}
