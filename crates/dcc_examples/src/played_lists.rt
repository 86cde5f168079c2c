//! A function that compares two lists of packets, and applies each list to one of two equal
//! decoders. If the lists are alike, the decoders are equal again.

ghost use Rattle.std.specs.Prelude.{◌≡◌, ◌↔◌, ◌<◌, ◌^◌, length, true, Ok, OnOk, IfOk};
ghost use Rattle.dcc_order.specs.AlikeLists.{AlikeFor};
ghost use Rattle.dcc_regs.specs.Result.{HasHeard};
ghost use Rattle.dcc_regs.specs.declared.register.Register.{Register};

use dcc_order::{NoMemory, Verdict, compare};
use dcc_packet::Packet;
use dcc_regs::{Decoder, apply_all};
use std::alloc::Global;

/// Applies each of two lists of packets to one of two decoders. Returns true if the lists are alike
/// for these decoders.
pub fn play_both<L: Decoder, R: Decoder>(
    alloc: Global,
    left: &mut L,
    right: &mut R,
    packets: &[Packet],
    others: &[Packet],
) -> Result<bool, NoMemory>
    requires left_fits { length packets.now < 2 ^ 32 }
    requires right_fits { length others.now < 2 ^ 32 }
    requires same_who { L.who left.old ≡ R.who right.old }
    requires same_registers { L.registers left.old ≡ R.registers right.old }
    // Each decoder has heard its list.
    ensures left { OnOk result (HasHeard packets.now (L.who left.old) (L.registers left.old) (L.who left.new)
        (L.registers left.new)) }
    ensures right { OnOk result (HasHeard others.now (R.who right.old) (R.registers right.old) (R.who right.new)
        (R.registers right.new)) }
    // The result is true if and only if the lists are alike.
    ensures alike { IfOk result (λ alike. (alike ≡ true) ↔ AlikeFor (L.who left.old) packets.now others.now) }
    // If the lists are alike, the decoders are equal again.
    ensures equal { result ≡ Ok true → (r : Register) → L.registers left.new r ≡ R.registers right.new r }
{
    let verdict = compare(alloc, left.who(), packets, others)?;
    apply_all(left, packets);
    apply_all(right, others);
    Ok(verdict == Verdict::Alike)
}
