//! The comparison of two sides. A side is a capture or a list of packets. A packet is read from the
//! side that the comparer asks for.

// A failed allocation is returned by `match`: it is an error of the comparison, whose crate has no
// conversion to the errors of operations.
ghost use Rattle.std.specs.Prelude.{◌≡◌, ◌≤◌, ◌+◌, ◌++◌, ◌⊎◌, List, Option, IfOk, IfErr, OnOk, false, length, is_none};
ghost use Rattle.std.specs.Option.{option_to_list};
ghost use Rattle.dcc_packet.specs.declared.packet.Packet.{Packet as PacketOf};
ghost use Rattle.dcc_order.specs.Verdicts.{IsVerdict};
ghost use Rattle.dcc_listen.specs.Inner.InStep.{IsGiven};
ghost use Rattle.dcc_listen.specs.Inner.Sides.{OneStops, TakesAll, TakesSome};

use crate::side::{Progress, Side, pass_rest};
use dcc_io::ToolFault;
use dcc_order::{Comparer, Verdict, Wants};
use dcc_regs::Who;
use std::alloc::Global;

/// Reads two sides to their ends, and returns the verdict on their packets. The function reads the
/// next packet from the side that the comparer asks for, and stores at most one block of each side.
/// After the verdict it reads both sides to their ends to find errors.
pub(crate) fn compare_in_step<L: Side, R: Side>(
    alloc: Global,
    left: &mut L,
    right: &mut R,
    who: Who,
) -> Result<Verdict, ToolFault>
    requires left { L.is_open left.old }
    requires right { R.is_open right.old }
    ensures compared { IfOk result (λ verdict. (packets others : List PacketOf)
        × TakesAll (L.took left.old left.new) packets × TakesAll (R.took right.old right.new) others
        × IsVerdict who packets others verdict) }
    ensures fails { IfErr result (OneStops (L.fails left.old left.new) (L.took left.old left.new)
        (R.fails right.old right.new) (R.took right.old right.new)) }
{
    let mut left_progress = left.begin();
    let mut right_progress = right.begin();
    let mut comparer = Comparer::new(alloc, who);
    'packets: loop {
        match comparer.wants() {
            Wants::Left => give_next(&mut comparer, left, &mut left_progress)?,
            Wants::Right => give_next(&mut comparer, right, &mut right_progress)?,
            Wants::Done(verdict) => {
                pass_rest(left, &mut left_progress)?;
                pass_rest(right, &mut right_progress)?;
                return Ok(verdict);
            }
        }
    }
}

/// Reads the next packet of a side, and passes this packet, or the end of the side, to the
/// comparer.
fn give_next<S: Side>(
    comparer: &mut Comparer,
    side: &mut S,
    progress: &mut Progress,
) -> Result<(), ToolFault>
    requires open { S.is_open side.old }
    requires going { progress.old.ended ≡ false }
    requires counted { (start : S) × (packets : List PacketOf) × S.took start side.old packets progress.old
        × (comparer.old.wants ≡ Wants.Left → comparer.old.left.given ≡ length packets)
        × (comparer.old.wants ≡ Wants.Right → comparer.old.right.given ≡ length packets) }
    ensures given { OnOk result ((item : Option PacketOf) × IsGiven comparer.old item comparer.new
        × ((start : S) (packets : List PacketOf) → S.took start side.old packets progress.old
        → S.took start side.new (packets ++ option_to_list item) progress.new)
        × (progress.new.ended ≡ is_none item)
        × (S.left side.new progress.new + length (option_to_list item) ≤ S.left side.old progress.old)) }
    ensures open { OnOk result (S.is_open side.new) }
    ensures fails { IfErr result (λ fault. (start : S) (packets : List PacketOf)
        → S.took start side.old packets progress.old
        → S.fails start side.new fault ⊎ ((fault ≡ ToolFault.NoMemory) × TakesSome (S.took start side.new))) }
{
    let item = side.take_next(progress)?;
    match comparer.give(item) {
        Ok(()) => Ok(()),
        Err(_) => Err(ToolFault::NoMemory),
    }
}
