//! A function that compares two lists of packets.

ghost use Rattle.std.specs.Prelude.{◌≡◌, ◌↔◌, ◌<◌, ◌^◌, IfOk, length};
ghost use Rattle.dcc_order.specs.AlikeLists.{AlikeFor};
ghost use Rattle.dcc_order.specs.InStep.{IsAt};
ghost use Rattle.dcc_order.specs.Laws.{LeaveTheSame};
ghost use Rattle.dcc_order.specs.Verdicts.{IsVerdict};

use crate::comparer::Comparer;
use crate::laws;
use crate::no_memory::NoMemory;
use crate::verdict::Verdict;
use crate::wants::Wants;
use dcc_packet::Packet;
use dcc_regs::Who;
use std::alloc::Global;

/// Returns the first difference of two lists of packets for the decoder `who`, or `Alike`. If the
/// lists are alike, the decoder has equal registers after both lists, for any registers at the
/// start.
///
/// The time is proportional to the number of packets times the number of different packets of a
/// block that set a register of the decoder. The function allocates memory for one block of each
/// list.
///
/// Errors: NoMemory if an allocation fails.
pub fn compare(
    alloc: Global,
    who: Who,
    left: &[Packet],
    right: &[Packet],
) -> Result<Verdict, NoMemory>
    requires left_fits { length left.now < 2 ^ 32 }
    requires right_fits { length right.now < 2 ^ 32 }
    ensures exact { IfOk result (IsVerdict who left.now right.now) }
    ensures alike_is { IfOk result (λ v. (v ≡ Verdict.Alike) ↔ AlikeFor who left.now right.now) }
    ensures alike { result ≡ Ok Verdict.Alike → LeaveTheSame who left.now right.now }
{
    laws::lists_in_step();
    let mut comparer = Comparer::new(alloc, who);
    'items: loop {
        match comparer.wants() {
            Wants::Left => comparer.give(item_at(left, comparer.given().0))?,
            Wants::Right => comparer.give(item_at(right, comparer.given().1))?,
            Wants::Done(verdict) => return Ok(verdict),
        }
    }
}

/// Returns the packet at `place`. Returns `None` at the end of the list.
fn item_at(packets: &[Packet], place: u32) -> Option<Packet>
    ensures { IsAt packets.now place result }
{
    packets.get(place as usize).copied()
}
