//! The C struct of a locomotive decoder on both tracks, and the functions on it.

ghost use Rattle.std.specs.Prelude.{◌≡◌, ◌≢◌, false};
ghost use Rattle.dcc_packet.specs.Cvs.{cv_in};
ghost use Rattle.dcc_regs.specs.Loco.{start_map, start_who};
ghost use Rattle.dcc_track.specs.declared.answer.TrackAnswer.{TrackAnswer};
ghost use Rattle.dcc_track.specs.LocoDecoders.{loco_on_tracks};
ghost use Rattle.dcc_track.specs.Track.{HearsFrame, TrackState, kept_on_main, new_track, service_ended};
ghost use Rattle.dcc_c.specs.Decoders.{IsDecoder};
ghost use Rattle.dcc_c.specs.Frames.{frame_answer};
ghost use Rattle.dcc_c.specs.TrackAnswers.{answer_numbers};

use crate::frame::frame_of;
use crate::possible_loco::PossibleLoco;
use crate::track_answer::DccAnswer;
use crate::track_part::TrackPart;

/// The state of a locomotive decoder on both tracks as a C struct. In `dcc.h` the struct has the
/// `DccLoco` of `loco` and the fields of `part` as its own fields, at the same places. A struct of
/// zeros is a decoder without an address, whose CVs are 0.
#[repr(C)]
#[derive(Drop)]
pub struct DccDecoder {
    loco: PossibleLoco,
    part: TrackPart,
}

/// Initialises a locomotive decoder that is powered up with the CVs `cvs`. The first byte of `cvs`
/// is CV1. The decoder is not in service mode and can hear both tracks.
#[unsafe(no_mangle)]
pub extern "C" fn dcc_decoder_new(decoder: &mut DccDecoder, cvs: &[u8; 1024])
    ensures new { IsDecoder decoder.new
        (new_track (loco_on_tracks (start_who (cv_in cvs.now)) (start_map (cv_in cvs.now))) false) }
    ensures cvs { decoder.new.loco.loco.cvs ≡ cvs.now }
{
    decoder.loco.start(cvs);
    decoder.part.clear();
}

/// Powers a locomotive decoder up, as `dcc_decoder_new` does with the CVs in `decoder.loco.cvs`.
/// The CVs do not change.
#[unsafe(no_mangle)]
pub extern "C" fn dcc_decoder_power_up(decoder: &mut DccDecoder)
    ensures new { IsDecoder decoder.new
        (new_track (loco_on_tracks (start_who (cv_in decoder.old.loco.loco.cvs))
        (start_map (cv_in decoder.old.loco.loco.cvs))) false) }
    ensures cvs { decoder.new.loco.loco.cvs ≡ decoder.old.loco.loco.cvs }
{
    decoder.loco.power_up();
    decoder.part.clear();
}

/// Hears the frame `frame` of either track, and writes the answer of the decoder to `answer`.
/// Returns 0 on success, and 1 (L1) or 2 (L2) if `frame` is no frame. If the result is not 0,
/// nothing changes.
#[unsafe(no_mangle)]
pub extern "C" fn dcc_decoder_hear(
    decoder: &mut DccDecoder,
    frame: &[u8],
    answer: &mut DccAnswer,
) -> u8
    ensures answers { result ≡ frame_answer frame.now }
    ensures hears { frame_answer frame.now ≡ 0 → (before : TrackState) → IsDecoder decoder.old before →
        (after : TrackState) × (told : TrackAnswer) × IsDecoder decoder.new after
        × HearsFrame before frame.now after told × (answer.new ≡ answer_numbers told) }
    ensures decoder { ∥ ((before : TrackState) × IsDecoder decoder.old before) ∥₁ }
    ensures kept { result ≢ 0 → (decoder.new ≡ decoder.old) × (answer.new ≡ answer.old) }
{
    match frame_of(frame) {
        Ok(frame) => {
            *answer = decoder.part.hear(&mut decoder.loco, &frame);
            0
        }
        Err(number) => number,
    }
}

/// Ends service mode. If a service packet changed a CV since service mode began, the decoder
/// powers up with its CVs. A caller calls this function if no packet of service mode comes for 20
/// ms (NMRA S-9.2.3).
#[unsafe(no_mangle)]
pub extern "C" fn dcc_decoder_end_service(decoder: &mut DccDecoder)
    ensures ends { (before : TrackState) → IsDecoder decoder.old before → IsDecoder decoder.new (service_ended before) }
    ensures decoder { ∥ ((before : TrackState) × IsDecoder decoder.old before) ∥₁ }
{
    decoder.part.end_service(&mut decoder.loco);
}

/// Keeps the decoder on the main track if `main_only` is true. If the decoder is in service mode,
/// service mode ends first, as `dcc_decoder_end_service` ends it. If `main_only` is false, the
/// decoder can hear both tracks.
#[unsafe(no_mangle)]
pub extern "C" fn dcc_decoder_set_main_only(decoder: &mut DccDecoder, main_only: bool)
    ensures keeps { (before : TrackState) → IsDecoder decoder.old before
        → IsDecoder decoder.new (kept_on_main before main_only) }
    ensures decoder { ∥ ((before : TrackState) × IsDecoder decoder.old before) ∥₁ }
{
    decoder.part.set_main_only(&mut decoder.loco, main_only);
}
