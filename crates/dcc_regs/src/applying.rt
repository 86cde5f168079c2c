//! Functions that apply lists of packets to a decoder.

ghost use Rattle.dcc_regs.specs.Notes.{IsHeardAndTold};
ghost use Rattle.dcc_regs.specs.Result.{HasHeard};

use crate::decoder::Decoder;
use crate::heard::hears;
use crate::notify::{Notify, announce};
use dcc_packet::Packet;

/// Applies a list of packets to a decoder, in order. The decoder ignores each packet that it does
/// not hear.
///
/// A caller with its own loop can use the theorem
/// [`laws::one_more_packet_heard`](crate::laws::one_more_packet_heard) for each packet.
pub fn apply_all<D: Decoder>(decoder: &mut D, packets: &[Packet])
    ensures { HasHeard packets.now (D.who decoder.old) (D.registers decoder.old) (D.who decoder.new)
        (D.registers decoder.new) }
{
    for packet in packets {
        decoder.apply(packet);
    }
}

/// Applies a packet to a decoder. If the decoder hears the packet, the function notifies the
/// listener of this packet.
pub fn apply_and_announce<D: Decoder, N: Notify>(decoder: &mut D, packet: &Packet, listener: &mut N)
    ensures { IsHeardAndTold N.told packet.now (D.who decoder.old) (D.registers decoder.old) (D.who decoder.new)
        (D.registers decoder.new) listener.old listener.new }
{
    decoder.apply(packet);
    if hears(decoder.who(), packet) {
        announce(packet, listener);
    }
}
