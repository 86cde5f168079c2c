//! The loop of a decoder: a framer finds the packets in half-bits, a locomotive decoder applies
//! these packets, and a listener is notified of these packets.

ghost use Rattle.std.specs.Prelude.{List};
ghost use Rattle.dcc_regs.specs.Cvs.{cv_in};
ghost use Rattle.dcc_regs.specs.Loco.{start_map, start_who};
ghost use Rattle.dcc_packet.specs.declared.packet.Packet.{Packet};
ghost use Rattle.dcc_regs.specs.Heard.{heard};
ghost use Rattle.dcc_order.specs.Hearing.{ArePackets, HasHeardHalves};
ghost use Rattle.dcc_order.specs.ToldTracks.{IsTold};

use crate::cab::Cab;
use dcc_order::laws;
use dcc_packet::Packet;
use dcc_regs::{Decoder, Notify, PackedLoco, apply_and_announce};
use dcc_wire::{Framer, Seen};

/// Lets a decoder hear a track, which is a list of half-bits in microseconds. After the call the
/// registers of the decoder are the `result` of the packets on the track.
///
/// The listener is notified of each packet that the decoder hears, by the callback for the kind of
/// this packet, and of nothing else.
pub fn hear_track<D: Decoder, N: Notify>(durations: &[u16], loco: &mut D, listener: &mut N)
    ensures heard { HasHeardHalves durations.now (D.who loco.old) (D.registers loco.old) (D.who loco.new)
        (D.registers loco.new) }
    ensures told { (packets : List Packet) → ArePackets packets durations.now
        → IsTold N.told (heard (D.who loco.old) packets) listener.old listener.new }
{
    laws::packets_are_told::<N>();
    let mut framer = Framer::new();
    for us in durations {
        let Seen::Packet(frame) = framer.push(*us) else {
            continue;
        };
        apply_and_announce(loco, &Packet::read(&frame), listener);
    }
}

/// Creates a locomotive decoder with the CVs `cvs`, which hears a track. The cab of the locomotive
/// prints the notifications. Returns the decoder.
pub fn run<R: Print>(rt: &R, cvs: &[u8; 1024], durations: &[u16]) -> PackedLoco
    ensures { HasHeardHalves durations.now (start_who (cv_in cvs.now)) (start_map (cv_in cvs.now))
        (⟦<PackedLoco as Decoder>⟧.who result) (⟦<PackedLoco as Decoder>⟧.registers result) }
{
    let mut loco = PackedLoco::new(cvs);
    hear_track(durations, &mut loco, &mut Cab(rt));
    loco
}
