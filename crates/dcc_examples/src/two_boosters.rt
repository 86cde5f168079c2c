//! Two tracks of two boosters, which are compared packet by packet for a decoder. The comparer says
//! which track must be read next.

ghost use Rattle.std.specs.Prelude.{◌≤◌, ◌<◌, ◌^◌, IfOk, length, take};
ghost use Rattle.dcc_order.specs.InStep.{IsAt};
ghost use Rattle.dcc_order.specs.Verdicts.{IsVerdict};

use dcc_order::{Comparer, NoMemory, Verdict, Wants, laws};
use dcc_packet::Packet;
use dcc_regs::Who;
use std::alloc::Global;

/// Compares two tracks for a decoder, and stops at the verdict. Returns the verdict, and the number
/// of packets of each track that were read.
pub fn compare_in_step(
    alloc: Global,
    who: Who,
    left: &[Packet],
    right: &[Packet],
) -> Result<(Verdict, (u32, u32)), NoMemory>
    requires left_fits { length left.now < 2 ^ 32 }
    requires right_fits { length right.now < 2 ^ 32 }
    // The verdict is the verdict on the whole tracks.
    ensures whole { IfOk result (λ found. IsVerdict who left.now right.now found.0) }
    // The verdict is also the verdict on the packets that were read.
    ensures read { IfOk result
        (λ found. IsVerdict who (take found.1.0 left.now) (take found.1.1 right.now) found.0) }
    ensures left_read { IfOk result (λ found. found.1.0 ≤ length left.now) }
    ensures right_read { IfOk result (λ found. found.1.1 ≤ length right.now) }
{
    laws::lists_in_step();
    let mut comparer = Comparer::new(alloc, who);
    'packets: loop {
        match comparer.wants() {
            Wants::Left => comparer.give(next_left(&comparer, left))?,
            Wants::Right => comparer.give(next_right(&comparer, right))?,
            Wants::Done(verdict) => return Ok((verdict, comparer.given())),
        }
    }
}

/// Returns the next packet of the first track. Returns `None` at the end of this track.
fn next_left(comparer: &Comparer, track: &[Packet]) -> Option<Packet>
    ensures { IsAt track.now comparer.now.left.given result }
{
    track.get(comparer.given().0 as usize).copied()
}

/// Returns the next packet of the second track. Returns `None` at the end of this track.
fn next_right(comparer: &Comparer, track: &[Packet]) -> Option<Packet>
    ensures { IsAt track.now comparer.now.right.given result }
{
    track.get(comparer.given().1 as usize).copied()
}
