//! The headline theorem for single decoders, with functions that let a decoder hear a track.

ghost use Rattle.std.specs.Prelude.{◌≡◌, ◌++◌, ◌∷◌, [], ℕ, List};
ghost use Rattle.dcc_wire.specs.Framing.{StandsFor};
ghost use Rattle.dcc_packet.specs.declared.packet.Packet.{Packet};
ghost use Rattle.dcc_regs.specs.Result.{HasHeard, RegisterMap};
ghost use Rattle.dcc_regs.specs.declared.register.Who.{Who};
ghost use Rattle.dcc_order.specs.Fleets.{AreShownBy};
ghost use Rattle.dcc_order.specs.Hearing.{HasHeardHalves, whole_track};
ghost use Rattle.dcc_order.specs.HearingLaws.{AlikeHalves};

use dcc_packet::Packet;
use dcc_regs::Decoder;
use dcc_wire::{Framer, Seen};

/// Two decoders hear two tracks, each through a new framer and in pieces of any length.
///
/// If the decoders were equal before, and the packets of the two tracks are alike for these
/// decoders, then the decoders are equal again. The decoders can have different types. For fleets,
/// use [`hear_two_tracks`](crate::hear_two_tracks).
pub fn hear_two<L: Decoder, R: Decoder>(
    left: &mut L,
    right: &mut R,
    pieces: &[&[u16]],
    others: &[&[u16]],
)
    // Each decoder has heard its track.
    ensures left { HasHeardHalves (whole_track pieces.now) (L.who left.old) (L.registers left.old)
        (L.who left.new) (L.registers left.new) }
    ensures right { HasHeardHalves (whole_track others.now) (R.who right.old) (R.registers right.old)
        (R.who right.new) (R.registers right.new) }

    // If the decoders were equal and the tracks are alike for them, they are equal again.
    ensures alike { L.who left.old ≡ R.who right.old → L.registers left.old ≡ R.registers right.old →
        AlikeHalves (L.who left.old) (whole_track pieces.now) (whole_track others.now) →
        L.registers left.new ≡ R.registers right.new }
{
    hear_one(left, pieces);
    hear_one(right, others);
}

/// A decoder hears a track through a new framer. The track can come in pieces of any length.
pub fn hear_one<D: Decoder>(decoder: &mut D, pieces: &[&[u16]])
    ensures { HasHeardHalves (whole_track pieces.now) (D.who decoder.old) (D.registers decoder.old)
        (D.who decoder.new) (D.registers decoder.new) }
{
    let mut framer = Framer::new();
    for piece in pieces {
        hear_its_piece(decoder, &mut framer, piece);
    }
}

/// A decoder hears a piece of its track, half-bit by half-bit.
fn hear_its_piece<D: Decoder>(decoder: &mut D, framer: &mut Framer, durations: &[u16])
    ensures stands { (halves : List ℕ) → StandsFor framer.old halves → StandsFor framer.new (halves ++ durations.now) }
    ensures since { (halves : List ℕ) → StandsFor framer.old halves → (start : Who) (registers : RegisterMap) →
        HasHeardHalves halves start registers (D.who decoder.old) (D.registers decoder.old) →
        HasHeardHalves (halves ++ durations.now) start registers (D.who decoder.new) (D.registers decoder.new) }
{
    for us in durations {
        hear_its_half(decoder, framer, *us);
    }
}

/// A decoder hears a half-bit of its track.
fn hear_its_half<D: Decoder>(decoder: &mut D, framer: &mut Framer, us: u16)
    ensures stands { (halves : List ℕ) → StandsFor framer.old halves → StandsFor framer.new (halves ++ us ∷ []) }
    ensures since { (halves : List ℕ) → StandsFor framer.old halves → (start : Who) (registers : RegisterMap) →
        HasHeardHalves halves start registers (D.who decoder.old) (D.registers decoder.old) →
        HasHeardHalves (halves ++ us ∷ []) start registers (D.who decoder.new) (D.registers decoder.new) }
{
    let seen = framer.push(us);
    take_seen(decoder, &seen);
}

/// Applies the packet of the outcome `seen` to a decoder. If the outcome is no packet, the decoder
/// does not change.
fn take_seen<D: Decoder>(decoder: &mut D, seen: &Seen)
    ensures { (shown : List Packet) × AreShownBy shown seen.now
        × HasHeard shown (D.who decoder.old) (D.registers decoder.old) (D.who decoder.new) (D.registers decoder.new) }
{
    match seen {
        Seen::Packet(frame) => decoder.apply(&Packet::read(frame)),
        Seen::Nothing => (),
        Seen::Refused(_) => (),
    }
}
