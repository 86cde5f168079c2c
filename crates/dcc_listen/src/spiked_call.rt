//! The operation `lost_with_spikes`, which lists the packets that a decoder does not hear. The
//! half-bits are joined with the spikes next to them.
ghost use Rattle.std.specs.Prelude.{◌≡◌, ◌≢◌, ◌<◌, ◌+◌, ◌++◌, ◌^◌, ℕ, List, None, IfSome, OnOk, length, replicate};
ghost use Rattle.dcc_lost.specs.JoinedLost.{packets_closed, report_found};
ghost use Rattle.dcc_lost.specs.Joining.{Joins};
ghost use Rattle.dcc_io.specs.Faults.{as_tool_fault};
ghost use Rattle.dcc_io.specs.Held.{HoldsOrFails};
ghost use Rattle.dcc_io.specs.InputState.{ReadHasFailure};
ghost use Rattle.dcc_capture.specs.HeldRuns.{HoldsLines, HoldsListing};
ghost use Rattle.dcc_listen.specs.SpikedListing.{IsSpikedLine, ListsSpiked};
ghost use Rattle.dcc_listen.specs.Inner.SpikedRuns.{WritesEnd};

use crate::AT_ONCE;
use crate::spiked_line::spiked_line;
use dcc_capture::{next_listed_run, write_rest};
use dcc_io::inputs::take_buffered_halves;
use dcc_io::{Failed, HeldLines, Input, Run, Sink, Source, ToolFault};
use dcc_lost::{SpikeFinder, SpikedPacket};

/// Writes a line for each packet of a capture that a decoder does not hear, also for a packet with
/// spikes in it. A half-bit shorter than `limit` microseconds is a spike, and is joined with its
/// neighbours. The line begins with the number of the last half-bit of the packet in the capture,
/// counted from 1, and ends with the causes.
///
/// A line has the bytes of the packet in hex, for example `86 lost 036261: spikes 1`. If `words` is
/// true, it has the packet line. The next half-bit can be joined with the last half-bit of a
/// packet, so the function writes the line after this next half-bit. The function writes a complete
/// line before it reads more input.
///
/// Errors: U2 at a word that is no run. U4 if a read fails. U7 if the input exceeds a limit. U5 if
/// a write fails. After U2, U4 or U7 the lines of the capture before the error were written, and
/// `input` stores the error. After U5 a prefix of the lines was written. If an error of the capture
/// was found before the write failed, `input` stores this error.
pub fn lost_with_spikes<R: Source, W: Sink>(
    input: &mut Input<R>,
    writer: &mut W,
    words: bool,
    limit: u8,
) -> Result<(), ToolFault>
    // If an error is stored, the function returns this error, and reads and writes nothing.
    ensures kept { IfSome input.old.fault
        (λ fault. (result ≡ Err (as_tool_fault fault)) × (input.new ≡ input.old) × (writer.new ≡ writer.old)) }
    ensures cause { ReadHasFailure input.old.fault input.old.failures }

    // If no error is stored, the function writes the lines of the found packets of the capture up to
    // the first error.
    ensures lists { input.old.fault ≡ None
        → ListsSpiked words limit input.old (W.state writer.old) result
        input.new (W.state writer.new) }
{
    if let Some(fault) = input.fault() {
        return Err(ToolFault::from(fault));
    }
    list(input, writer, words, limit)
}

/// Writes the lines of the found packets of a capture, up to the first error.
fn list<R: Source, W: Sink>(
    input: &mut Input<R>,
    writer: &mut W,
    words: bool,
    limit: u8,
) -> Result<(), ToolFault>
    requires { input.old.fault ≡ None }
    ensures { ListsSpiked words limit input.old (W.state writer.old) result input.new (W.state writer.new) }
{
    let most = input.halves_left();
    let mut finder = SpikeFinder::new(limit);
    let mut held = HeldLines::new();
    let mut halves = [0; AT_ONCE];
    'runs: loop {
        let count = take_buffered_halves(input, &mut halves);
        let before = most - input.halves_left() - count as u32;
        if count > 0 {
            list_halves(
                &mut finder,
                &halves[..count],
                before,
                words,
                &mut held,
                writer,
            )?;
            continue;
        }
        match next_listed_run(input, &mut held, writer)? {
            Ok(Some(run)) => list_run(&mut finder, before, run, words, &mut held, writer)?,
            Ok(None) => return write_end(finder, before, words, &mut held, writer, Ok(())),
            Err(fault) => {
                let answer = Err(ToolFault::from(fault));
                return write_end(finder, before, words, &mut held, writer, answer);
            }
        }
    }
}

/// Appends the lines of the packets that the half-bits `halves` close to the buffer. The parameter
/// `before` is the number of half-bits before these half-bits.
fn list_halves<W: Sink>(
    finder: &mut SpikeFinder,
    halves: &[u16],
    before: u32,
    words: bool,
    held: &mut HeldLines,
    writer: &mut W,
) -> Result<(), Failed>
    requires { before + length halves.now < 2 ^ 32 }
    ensures joins { OnOk result ((limit : ℕ) (durations : List ℕ) → Joins limit finder.old durations
        → Joins limit finder.new (durations ++ halves.now)) }
    ensures holds { (limit : ℕ) (durations : List ℕ) → Joins limit finder.old durations → before ≡ length durations
        → HoldsListing (IsSpikedLine words) (packets_closed limit) durations halves.now (W.state writer.old) held.old
        result held.new (W.state writer.new) }
{
    let mut taken = 0;
    'halves: while taken < halves.len() {
        let found = finder.push(halves[taken]);
        hold_spiked(held, before + taken as u32, &found, words, writer)?;
        taken += 1;
    }
    Ok(())
}

/// Appends the lines of the packets that the half-bits of a run close to the buffer. The parameter
/// `before` is the number of half-bits before the run.
fn list_run<W: Sink>(
    finder: &mut SpikeFinder,
    before: u32,
    run: Run,
    words: bool,
    held: &mut HeldLines,
    writer: &mut W,
) -> Result<(), Failed>
    requires { before + run.n < 2 ^ 32 }
    ensures joins { OnOk result ((limit : ℕ) (durations : List ℕ) → Joins limit finder.old durations
        → Joins limit finder.new (durations ++ replicate run.n run.us)) }
    ensures holds { (limit : ℕ) (durations : List ℕ) → Joins limit finder.old durations → before ≡ length durations
        → HoldsListing (IsSpikedLine words) (packets_closed limit) durations (replicate run.n run.us)
        (W.state writer.old) held.old result held.new (W.state writer.new) }
{
    let mut taken = 0;
    'halves: while taken < run.n {
        let found = finder.push(run.us);
        hold_spiked(held, before + taken, &found, words, writer)?;
        taken += 1;
    }
    Ok(())
}

/// Appends the line of the packet that is found at the end of all half-bits, and then writes the
/// buffer. The parameter `all` is the number of half-bits. Returns `answer` if no write fails.
fn write_end<W: Sink>(
    finder: SpikeFinder,
    all: u32,
    words: bool,
    held: &mut HeldLines,
    writer: &mut W,
    answer: Result<(), ToolFault>,
) -> Result<(), ToolFault>
    ensures { (limit : ℕ) (durations : List ℕ) → Joins limit finder durations → all ≡ length durations
        → WritesEnd words limit durations (W.state writer.old) held.old answer result (W.state writer.new) }
{
    hold_spiked(held, all, &finder.end(), words, writer)?;
    write_rest(held, writer, answer)
}

/// Appends a line to the buffer if a packet is found at the end of `count` half-bits.
#[tactic(auto, unfolding(dcc_lost::specs::JoinedLost::report_found))]
fn hold_spiked<W: Sink>(
    held: &mut HeldLines,
    count: u32,
    found: &Option<SpikedPacket>,
    words: bool,
    writer: &mut W,
) -> Result<(), Failed>
    ensures { (found.now ≢ None → 0 < count)
        → HoldsLines (IsSpikedLine words) (report_found count found.now) (W.state writer.old)
        held.old result held.new (W.state writer.new) }
{
    match found {
        None => Ok(()),
        Some(packet) => hold_packet(held, count, packet, words, writer),
    }
}

/// Appends the line of the packet that is found at the half-bit with the number `half` to the
/// buffer.
fn hold_packet<W: Sink>(
    held: &mut HeldLines,
    half: u32,
    packet: &SpikedPacket,
    words: bool,
    writer: &mut W,
) -> Result<(), Failed>
    ensures { (text : List ℕ) × IsSpikedLine words half packet.now text
        × HoldsOrFails (W.state writer.old) (held.old ++ text) result held.new
        (W.state writer.new) }
{
    held.hold(spiked_line(half, packet, words).as_slice(), writer)
}
