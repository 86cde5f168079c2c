//! The operation `same_input`, which compares the two captures of one input for a decoder.
ghost use Rattle.std.specs.Prelude.{◌≡◌, List, IfOk, IfErr, IfSome};
ghost use Rattle.dcc_io.specs.Faults.{as_tool_fault};
ghost use Rattle.dcc_io.specs.InputState.{ReadHasFailure};
ghost use Rattle.dcc_packet.specs.declared.packet.Packet.{Packet};
ghost use Rattle.dcc_order.specs.Verdicts.{IsVerdict};
ghost use Rattle.dcc_listen.specs.ComparedBoth.{ComparesBoth};
ghost use Rattle.dcc_listen.specs.GatheredBoth.{BothFail, GatheredBoth};

use crate::first_capture::gather_first;
use crate::in_step::compare_in_step;
use crate::same_call::write_verdict;
use dcc_io::{Input, Sink, Source, ToolFault};
use dcc_order::Verdict;
use dcc_order::laws::{alike_is_the_verdict, alike_lists_leave_the_same};
use dcc_regs::Who;
use std::alloc::Global;

/// Reads two captures to their ends. A line with the only word `---` separates the captures. The
/// function writes the first difference of their packets for a decoder: `alike`, `writes`, `members
/// k` or `order k`. The function also returns the verdict. Nothing is written before both captures
/// have ended.
///
/// Errors: U2, U4 or U7 if a capture has an error, even after the first difference. U3 with P10 on
/// the line after the last line, if there is no line `---`. U2 if another word is on the line of
/// `---`, with the number of the line of the later word. U5 if a write fails. U6 if an allocation
/// fails.
pub fn same_input<R: Source, W: Sink>(
    alloc: Global,
    input: &mut Input<R>,
    writer: &mut W,
    who: Who,
) -> Result<Verdict, ToolFault>
    // If an error is stored, the function returns this error, and reads and writes nothing.
    ensures kept { IfSome input.old.fault
        (λ fault. (result ≡ Err (as_tool_fault fault)) × (input.new ≡ input.old) × (writer.new ≡ writer.old)) }
    ensures cause { ReadHasFailure input.old.fault input.old.failures }

    // If no error is stored, both captures are read up to the first error. If there is no error,
    // the verdict is written.
    ensures compares { ComparesBoth who input.old (W.state writer.old) result
        input.new (W.state writer.new) }
{
    if let Some(fault) = input.fault() {
        return Err(ToolFault::from(fault));
    }
    // these theorems say what Alike means for two lists
    alike_is_the_verdict();
    alike_lists_leave_the_same();
    let verdict = compare_both(alloc, input, who)?;
    write_verdict(writer, verdict)?;
    Ok(verdict)
}

/// Reads both captures to their ends, and returns the verdict on their packets. The packets of the
/// first capture are stored, because this capture comes before the second in the input.
///
/// Errors: those of [`same_input`] but U5.
pub fn compare_both<R: Source>(
    alloc: Global,
    input: &mut Input<R>,
    who: Who,
) -> Result<Verdict, ToolFault>
    ensures compared { IfOk result
        (λ verdict. (packets others : List Packet) × GatheredBoth input.old packets others input.new
        × IsVerdict who packets others verdict) }
    ensures fails { IfErr result (λ fault. BothFail input.old fault input.new) }
{
    let mut packets = gather_first(alloc, input)?.into_iter();
    compare_in_step(alloc, &mut packets, input, who)
}
