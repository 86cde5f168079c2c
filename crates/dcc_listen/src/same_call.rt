//! The operation `same`, which compares two captures for a decoder.
ghost use Rattle.std.specs.Prelude.{◌≡◌, None, IfSome};
ghost use Rattle.dcc_io.specs.Faults.{as_tool_fault};
ghost use Rattle.dcc_io.specs.InputState.{ReadHasFailure};
ghost use Rattle.dcc_listen.specs.Compared.{Compares};
ghost use Rattle.dcc_listen.specs.VerdictLine.{verdict_line as line_of};
ghost use Rattle.dcc_io.specs.WrittenBytes.{Writes};

use crate::in_step::compare_in_step;
use crate::verdict_line::verdict_line;
use dcc_io::{Failed, Input, Sink, Source, ToolFault, write_all};
use dcc_order::Verdict;
use dcc_order::laws::{alike_is_the_verdict, alike_lists_leave_the_same};
use dcc_regs::Who;
use std::alloc::Global;

/// Reads two captures to their ends, and writes the first difference of their packets for a
/// decoder: `alike`, `writes`, `members k` or `order k`. The function also returns the verdict.
///
/// Up to the verdict, the function reads the next packet from the capture that the comparer asks
/// for. After the verdict, the function reads both captures to their ends. At most one block of
/// each capture is stored. Nothing is written before both captures have ended.
///
/// Errors: U2, U4 or U7 if a capture has an error, even after the first difference. If both
/// captures have an error, `same` returns one of the two errors. U5 if a write fails. U6 if an
/// allocation fails.
pub fn same<L: Source, R: Source, W: Sink>(
    alloc: Global,
    left: &mut Input<L>,
    right: &mut Input<R>,
    writer: &mut W,
    who: Who,
) -> Result<Verdict, ToolFault>
    // If the first input stores an error, the function returns this error. Otherwise, if the second
    // input stores an error, the function returns the error of the second input. If an input stores
    // an error, nothing is read or written.
    ensures kept { IfSome left.old.fault (λ fault. (result ≡ Err (as_tool_fault fault))
        × (left.new ≡ left.old) × (right.new ≡ right.old) × (writer.new ≡ writer.old)) }
    ensures kept_second { left.old.fault ≡ None → IfSome right.old.fault (λ fault. (result ≡ Err (as_tool_fault fault))
        × (left.new ≡ left.old) × (right.new ≡ right.old) × (writer.new ≡ writer.old)) }
    ensures cause { ReadHasFailure left.old.fault left.old.failures }
    ensures cause_second { ReadHasFailure right.old.fault right.old.failures }

    // If no error is stored, both captures are read up to the first error. If there is no error,
    // the verdict is written.
    ensures compares { Compares who left.old right.old (W.state writer.old) result
        left.new right.new (W.state writer.new) }
{
    let left_fault = left.fault();
    let right_fault = right.fault();
    if let Some(fault) = left_fault {
        return Err(ToolFault::from(fault));
    }
    if let Some(fault) = right_fault {
        return Err(ToolFault::from(fault));
    }
    // these theorems say what Alike means for two lists
    alike_is_the_verdict();
    alike_lists_leave_the_same();
    let verdict = compare_in_step(alloc, left, right, who)?;
    write_verdict(writer, verdict)?;
    Ok(verdict)
}

/// Writes the line of a verdict, such as `members 2`.
pub(crate) fn write_verdict<W: Sink>(writer: &mut W, verdict: Verdict) -> Result<(), Failed>
    ensures { Writes (W.state writer.old) (line_of verdict) result (W.state writer.new) }
{
    write_all(writer, verdict_line(verdict).as_slice())
}
