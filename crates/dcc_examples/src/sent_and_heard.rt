//! A function that sends a packet in any timing to a decoder, which executes the packet.

ghost use Rattle.std.specs.Prelude.{◌≡◌, IfOk, OnOk};
ghost use Rattle.dcc_wire.specs.Sending.{sent};
ghost use Rattle.dcc_regs.specs.Result.{step};

use dcc_order::{hear_one, laws};
use dcc_packet::Packet;
use dcc_regs::Decoder;
use dcc_wire::{Frame, Halves, Timing};
use std::alloc::{AllocError, Global};

/// Sends a packet with the timing `timing`, and lets a decoder hear the half-bits of the packet.
pub fn transmit<D: Decoder>(
    alloc: Global,
    decoder: &mut D,
    packet: &Packet,
    timing: Timing,
) -> Result<(), AllocError>
    ensures { OnOk result (D.registers decoder.new ≡ step (D.who decoder.old) (D.registers decoder.old) packet.now) }
{
    laws::sent_packet_is_done();
    let halves = halves_of(alloc, packet.frame(), timing)?;
    hear_one(decoder, &[halves.as_slice()]);
    Ok(())
}

/// Returns the half-bits of a frame with the timing `timing`, as a vector.
fn halves_of(alloc: Global, frame: Frame, timing: Timing) -> Result<Vec<u16>, AllocError>
    ensures { IfOk result (λ halves. halves.items ≡ sent frame timing) }
{
    Halves::new(frame, timing).collect(alloc)
}
