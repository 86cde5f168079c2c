//! Functions that collect the packets of a capture.
ghost use Rattle.std.specs.Prelude.{◌≡◌, ◌≤◌, ◌++◌, ℕ, List, OnOk, length};
ghost use Rattle.dcc_packet.specs.declared.packet.Packet.{Packet};
ghost use Rattle.dcc_order.specs.Fleets.{AreShownBy};
ghost use Rattle.dcc_listen.specs.Taking.{HoldsPackets};

use dcc_packet::Packet;
use dcc_wire::{Framer, Seen};
use std::alloc::AllocError;

/// Appends the packet of the outcome `seen` to `packets`. If the outcome is no packet, nothing is
/// appended.
#[inline(always)]
pub(crate) fn hold_seen(packets: &mut Vec<Packet>, seen: &Seen) -> Result<(), AllocError>
    ensures { OnOk result
        ((shown : List Packet) × AreShownBy shown seen.now
        × (packets.new.items ≡ packets.old.items ++ shown) × (length shown ≤ 1)) }
{
    match seen {
        Seen::Packet(frame) => Ok(packets.push(Packet::read(frame))?),
        Seen::Nothing => Ok(()),
        Seen::Refused(_) => Ok(()),
    }
}

/// Pushes half-bits to the framer, and appends their packets to `packets`.
pub(crate) fn hold_halves(
    packets: &mut Vec<Packet>,
    framer: &mut Framer,
    halves: &[u16],
) -> Result<(), AllocError>
    ensures { OnOk result ((durations : List ℕ) → HoldsPackets framer.old packets.old.items durations
        → HoldsPackets framer.new packets.new.items (durations ++ halves.now)) }
{
    let mut taken = 0;
    'halves: while taken < halves.len() {
        let shown = framer.push_many(&halves[taken..]);
        taken += shown.at;
        hold_seen(packets, &shown.seen)?;
    }
    Ok(())
}
