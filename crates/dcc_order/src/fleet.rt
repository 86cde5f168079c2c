//! Functions that apply a packet to the decoders of a fleet.

ghost use Rattle.std.specs.Prelude.{[], ◌∷◌};
ghost use Rattle.dcc_regs.specs.Result.{HasHeard};
ghost use Rattle.dcc_order.specs.Fleets.{EachHears};

use dcc_packet::Packet;
use dcc_regs::Decoder;

/// Applies a packet to each decoder of a fleet.
pub fn hear_packet<D: Decoder>(decoders: &mut [D], packet: &Packet)
    ensures { EachHears D.who D.registers (packet.now ∷ []) decoders.old decoders.new }
{
    for decoder in decoders.iter_mut() {
        hear_one(decoder, packet);
    }
}

/// Applies a packet to a decoder.
fn hear_one<D: Decoder>(decoder: &mut D, packet: &Packet)
    ensures { HasHeard (packet.now ∷ []) (D.who decoder.old) (D.registers decoder.old) (D.who decoder.new)
        (D.registers decoder.new) }
{
    decoder.apply(packet);
}
