//! The C struct of an accessory decoder on both tracks, and the functions on it.

ghost use Rattle.std.specs.Prelude.{◌≡◌, ◌≢◌, Some, false};
ghost use Rattle.dcc_regs.specs.declared.board_state.BoardState.{BoardState};
ghost use Rattle.dcc_regs.specs.Board.{board_registers, made};
ghost use Rattle.dcc_regs.specs.BoardState.{board_map};
ghost use Rattle.dcc_track.specs.declared.answer.TrackAnswer.{TrackAnswer};
ghost use Rattle.dcc_track.specs.BoardsWithCvs.{board_on_tracks};
ghost use Rattle.dcc_track.specs.DecoderState.{after_power_up, board_in_cvs};
ghost use Rattle.dcc_track.specs.Track.{HearsFrame, TrackState, kept_on_main, new_track, service_ended};
ghost use Rattle.dcc_c.specs.BoardDecoders.{IsBoardDecoder};
ghost use Rattle.dcc_c.specs.Frames.{frame_answer};
ghost use Rattle.dcc_c.specs.TrackAnswers.{answer_numbers};

use crate::frame::frame_of;
use crate::possible_board::PossibleBoard;
use crate::track_answer::DccAnswer;
use crate::track_part::TrackPart;
use dcc_track::Programmable;

/// The state of an accessory decoder on both tracks as a C struct. In `dcc.h` the struct has the
/// `DccBoard` and the CVs of `board` and the fields of `part` as its own fields, at the same
/// places. A struct of zeros is a decoder with the address 0, whose outputs are off and whose CVs
/// are 0.
#[repr(C)]
#[derive(Drop)]
pub struct DccBoardDecoder {
    board: PossibleBoard,
    part: TrackPart,
}

/// Initialises an accessory decoder that is powered up with the CVs `cvs`. The first byte of `cvs`
/// is CV1. The address is in CV1 and CV9. All outputs are off, all positions false and all aspects
/// 0. The decoder is not in service mode and can hear both tracks.
#[unsafe(no_mangle)]
pub extern "C" fn dcc_board_decoder_new(decoder: &mut DccBoardDecoder, cvs: &[u8; 1024])
    ensures new { (state : BoardState) × (Some state.board ≡ board_in_cvs cvs.now)
        × (board_map state ≡ board_registers made)
        × IsBoardDecoder decoder.new (new_track (board_on_tracks state cvs.now) false) }
    ensures cvs { decoder.new.board.cvs ≡ cvs.now }
{
    decoder.board.start(cvs);
    decoder.part.clear();
}

/// Powers an accessory decoder up with the CVs in `decoder.board.cvs`. The CVs, the positions and
/// the aspects do not change. The decoder is not in service mode and can hear both tracks.
#[unsafe(no_mangle)]
pub extern "C" fn dcc_board_decoder_power_up(decoder: &mut DccBoardDecoder)
    ensures new { (before : TrackState) → IsBoardDecoder decoder.old before
        → IsBoardDecoder decoder.new (new_track (after_power_up before.decoder) false) }
    ensures decoder { ∥ ((before : TrackState) × IsBoardDecoder decoder.old before) ∥₁ }
    ensures cvs { decoder.new.board.cvs ≡ decoder.old.board.cvs }
{
    decoder.board.restart();
    decoder.part.clear();
}

/// Hears the frame `frame` of either track, and writes the answer of the decoder to `answer`.
/// Returns 0 on success, and 1 (L1) or 2 (L2) if `frame` is no frame. If the result is not 0,
/// nothing changes.
#[unsafe(no_mangle)]
pub extern "C" fn dcc_board_decoder_hear(
    decoder: &mut DccBoardDecoder,
    frame: &[u8],
    answer: &mut DccAnswer,
) -> u8
    ensures answers { result ≡ frame_answer frame.now }
    ensures hears { frame_answer frame.now ≡ 0 → (before : TrackState) → IsBoardDecoder decoder.old before →
        (after : TrackState) × (told : TrackAnswer) × IsBoardDecoder decoder.new after
        × HearsFrame before frame.now after told × (answer.new ≡ answer_numbers told) }
    ensures decoder { ∥ ((before : TrackState) × IsBoardDecoder decoder.old before) ∥₁ }
    ensures kept { result ≢ 0 → (decoder.new ≡ decoder.old) × (answer.new ≡ answer.old) }
{
    match frame_of(frame) {
        Ok(frame) => {
            *answer = decoder.part.hear(&mut decoder.board, &frame);
            0
        }
        Err(number) => number,
    }
}

/// Ends service mode. If a service packet changed a CV since service mode began, the decoder
/// powers up with its CVs. A caller calls this function if no packet of service mode comes for 20
/// ms (NMRA S-9.2.3).
#[unsafe(no_mangle)]
pub extern "C" fn dcc_board_decoder_end_service(decoder: &mut DccBoardDecoder)
    ensures ends { (before : TrackState) → IsBoardDecoder decoder.old before
        → IsBoardDecoder decoder.new (service_ended before) }
    ensures decoder { ∥ ((before : TrackState) × IsBoardDecoder decoder.old before) ∥₁ }
{
    decoder.part.end_service(&mut decoder.board);
}

/// Keeps the decoder on the main track if `main_only` is true. If the decoder is in service mode,
/// service mode ends first, as `dcc_board_decoder_end_service` ends it. If `main_only` is false,
/// the decoder can hear both tracks.
#[unsafe(no_mangle)]
pub extern "C" fn dcc_board_decoder_set_main_only(decoder: &mut DccBoardDecoder, main_only: bool)
    ensures keeps { (before : TrackState) → IsBoardDecoder decoder.old before
        → IsBoardDecoder decoder.new (kept_on_main before main_only) }
    ensures decoder { ∥ ((before : TrackState) × IsBoardDecoder decoder.old before) ∥₁ }
{
    decoder.part.set_main_only(&mut decoder.board, main_only);
}
