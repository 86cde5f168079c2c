//! The headline theorem: decoders that start equal, and hear two tracks that are alike for them,
//! end equal. A new framer hears each track from its first half-bit on.

ghost use Rattle.std.specs.List.{AllZip};
ghost use Rattle.std.specs.Prelude.{◌≡◌};
ghost use Rattle.dcc_order.specs.Fleets.{EachHearsHalves};
ghost use Rattle.dcc_order.specs.Hearing.{whole_track};
ghost use Rattle.dcc_order.specs.HearingLaws.{AlikeHalves};

use crate::hearing::hear_piece;
use dcc_regs::Decoder;
use dcc_wire::Framer;

/// Two fleets hear two tracks, each through a new framer and in pieces of any length.
///
/// Two decoders at the same place of the fleets form a pair. Let the decoders of each pair be equal
/// before, and let the packets of the two tracks be alike for these decoders. Then the decoders of
/// each pair are equal again. The two decoders of a pair can have different types.
pub fn hear_two_tracks<L: Decoder, R: Decoder>(
    left: &mut [L],
    right: &mut [R],
    pieces: &[&[u16]],
    others: &[&[u16]],
)
    // Each decoder has heard the track of its fleet.
    ensures left { EachHearsHalves L.who L.registers (whole_track pieces.now) left.old left.new }
    ensures right { EachHearsHalves R.who R.registers (whole_track others.now) right.old right.new }

    // Two decoders that were equal before the call are equal again, if the tracks are alike for
    // them.
    ensures alike { AllZip
        (λ one other. (L.who one ≡ R.who other) × (L.registers one ≡ R.registers other)
        × AlikeHalves (L.who one) (whole_track pieces.now) (whole_track others.now))
        left.old right.old →
        AllZip (λ one other. L.registers one ≡ R.registers other) left.new right.new }
{
    hear_track(left, pieces);
    hear_track(right, others);
}

/// A fleet hears a track through a new framer. The track can come in pieces of any length.
pub fn hear_track<D: Decoder>(decoders: &mut [D], pieces: &[&[u16]])
    ensures { EachHearsHalves D.who D.registers (whole_track pieces.now) decoders.old decoders.new }
{
    let mut framer = Framer::new();
    for piece in pieces {
        hear_piece(decoders, &mut framer, piece);
    }
}
