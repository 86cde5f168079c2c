//! Two decoders of different types with equal CVs, which are equal again after two tracks that are
//! alike for them.

ghost use Rattle.std.specs.Prelude.{◌≡◌};
ghost use Rattle.dcc_order.specs.Hearing.{HasHeardHalves, whole_track};
ghost use Rattle.dcc_order.specs.HearingLaws.{AlikeHalves};
ghost use Rattle.dcc_regs.specs.Cvs.{cv_in};
ghost use Rattle.dcc_regs.specs.Loco.{start_map, start_who};

use crate::counted_decoder::CountedDecoder;
use dcc_order::hear_two;
use dcc_regs::{Decoder, LocoDecoder, PackedLoco};

/// Creates two decoders with the CVs `cvs`, and lets each decoder hear its track. Returns the
/// decoders.
pub fn hear_alike(
    cvs: &[u8; 1024],
    pieces: &[&[u16]],
    others: &[&[u16]],
) -> (CountedDecoder<LocoDecoder>, PackedLoco)
    requires { AlikeHalves (start_who (cv_in cvs.now)) (whole_track pieces.now) (whole_track others.now) }
    ensures heard { HasHeardHalves (whole_track pieces.now) (start_who (cv_in cvs.now)) (start_map (cv_in cvs.now))
        (⟦<LocoDecoder as Decoder>⟧.who result.0.inner) (⟦<LocoDecoder as Decoder>⟧.registers result.0.inner) }
    ensures equal { ⟦<LocoDecoder as Decoder>⟧.registers result.0.inner ≡ ⟦<PackedLoco as Decoder>⟧.registers result.1 }
{
    let mut one = CountedDecoder {
        inner: LocoDecoder::new(cvs),
        packets: 0,
    };
    let mut other = PackedLoco::new(cvs);
    hear_two(&mut one, &mut other, pieces, others);
    (one, other)
}
