//! A parked locomotive, which only speed packets on the track can move.

ghost use Rattle.std.specs.Prelude.{◌≡◌, ℕ, false, true, List};
ghost use Rattle.std.specs.List.{list_any};
ghost use Rattle.dcc_packet.specs.declared.packet.Packet.{Packet};
ghost use Rattle.dcc_regs.specs.Cvs.{cv_in};
ghost use Rattle.dcc_regs.specs.Heard.{heard};
ghost use Rattle.dcc_regs.specs.Loco.{start_map, start_who};
ghost use Rattle.dcc_regs.specs.Safety.{can_have_step, is_standing};
ghost use Rattle.dcc_regs.specs.declared.register.Register.TheVariants.{CvBit, Speed};
ghost use Rattle.dcc_order.specs.Hearing.{ArePackets, whole_track};

use dcc_order::{hear_one, laws};
use dcc_regs::{Decoder, PackedLoco};

/// Creates a locomotive decoder with the CVs `cvs`, lets the decoder hear a track in pieces, and
/// returns the decoder. The locomotive stands still if the track contains no speed packet to its
/// own address and no 128-step speed packet to all locomotives. Its CV8 has not changed.
pub fn park(cvs: &[u8; 1024], pieces: &[&[u16]]) -> PackedLoco
    ensures still { (packets : List Packet) → ArePackets packets (whole_track pieces.now)
        → list_any can_have_step (heard (start_who (cv_in cvs.now)) packets) ≡ false
        → is_standing (⟦<PackedLoco as Decoder>⟧.registers result Speed) ≡ true }
    ensures maker { (k : ℕ) → ⟦<PackedLoco as Decoder>⟧.registers result (CvBit 8 k)
        ≡ start_map (cv_in cvs.now) (CvBit 8 k) }
{
    laws::decoders_are_safe_on_any_track();
    let mut loco = PackedLoco::new(cvs);
    hear_one(&mut loco, pieces);
    loco
}
