//! Tests of a decoder that hears the main track and the programming track.

use crate::checks::check;
use crate::regs_examples::{FIVE_ON, TO_S10, cvs};
use crate::rows::{column, number};
use dcc_packet::{Address, CvNumber, Packet};
use dcc_regs::{BoardState, Decoder, LocoDecoder, PackedLoco, Register, Speed, Value, Who};
use dcc_track::{BoardWithCvs, Programmable, TrackAnswer, TrackDecoder};
use std::process::Abort;

/// Each row is a packet line that a locomotive with the address 3 hears. The next columns are `+` if
/// the decoder acknowledges the frame and `-` if not, the CV that changes or 0, and then the address
/// and the speed step of the decoder. The frame 7c000a76 writes 10 to CV1, 74001460 compares CV1 with
/// 20, 7c070873 writes CV8, and 7c00037f writes 3 to CV1.
const BOTH_TRACKS: &str = "\
    loco s3 speed28 f 20 | - | 0 | 3 | 17
    frame 7c000a76 | - | 0 | 3 | 17
    frame 7c000a76 | - | 0 | 3 | 17
    frame 000000 | - | 0 | 3 | 0
    frame 7c000a76 | - | 0 | 3 | 0
    frame 7c000a76 | + | 1 | 3 | 0
    frame 7c000a76 | + | 0 | 3 | 0
    idle | - | 0 | 10 | 0
    loco s3 speed28 f 20 | - | 0 | 10 | 0
    loco s10 speed28 f 12 | - | 0 | 10 | 9
    loco s10 cv write 1 20 | - | 0 | 10 | 9
    loco s10 cv write 1 20 | - | 1 | 10 | 9
    loco s10 cv write 1 20 | - | 0 | 10 | 9
    frame 000000 | - | 0 | 10 | 0
    frame 74001460 | - | 0 | 10 | 0
    frame 74001460 | + | 0 | 10 | 0
    frame 7c070873 | - | 0 | 10 | 0
    frame 7c070873 | - | 0 | 10 | 0
    idle | - | 0 | 10 | 0
    loco s20 speed28 f 12 | - | 0 | 10 | 0
    loco s10 speed28 f 12 | - | 0 | 10 | 9
    frame 000000 | - | 0 | 10 | 0
    frame 7c00037f | - | 0 | 10 | 0
    frame 7c00037f | + | 1 | 10 | 0
    frame 000000 | - | 0 | 10 | 0
    frame 000000 | - | 0 | 10 | 0
    loco s3 speed28 f 12 | - | 0 | 3 | 9
    loco s10 speed28 f 20 | - | 0 | 3 | 9";

/// Hears the frame of a packet line.
fn hear<D: Programmable>(rt: &impl Abort, track: &mut TrackDecoder<D>, line: &str) -> TrackAnswer {
    let packet = Packet::from_line(line).expect(rt, line);
    track.hear(&packet.frame())
}

/// Returns the number of the CV, or 0 if there is none.
fn number_of(cv: Option<CvNumber>) -> u16 {
    match cv {
        Some(cv) => cv.number(),
        None => 0,
    }
}

/// Returns true if the columns 1 and 2 of a row have this answer.
fn is_answer(answer: &TrackAnswer, row: &str) -> bool {
    let yes = column(row, 1) == "+";
    let changed = u32::from(number_of(answer.changed));
    answer.acknowledged == yes && changed == number(column(row, 2))
}

/// Returns the short address of a locomotive decoder, or 0 if it has none.
fn short_address(who: Who) -> u32 {
    match who {
        Who::Loco(Some(Address::Short(own))) => u32::from(own.number()),
        _ => 0,
    }
}

/// Returns the speed step of a locomotive decoder, or 0 if it stands still.
fn speed_step<D: Decoder>(decoder: &D) -> u32 {
    match decoder.get(Register::Speed) {
        Some(Value::Speed(Speed::Step28(step))) => u32::from(step),
        _ => 0,
    }
}

/// Returns true if the columns 3 and 4 of a row have the address and the speed step of the decoder.
fn is_decoder<D: Programmable + Decoder>(decoder: &D, row: &str) -> bool {
    let address = short_address(decoder.identity());
    address == number(column(row, 3)) && speed_step(decoder) == number(column(row, 4))
}

/// Checks the rows of `BOTH_TRACKS`.
fn check_both_tracks<D: Programmable + Decoder>(rt: &impl Abort, track: &mut TrackDecoder<D>) {
    for row in BOTH_TRACKS.lines() {
        let answer = hear(rt, track, column(row, 0));
        check(rt, is_answer(&answer, row), row);
        check(rt, is_decoder(decoder_of(track), row), row);
    }
}

fn decoder_of<D: Programmable>(track: &TrackDecoder<D>) -> &D {
    track.decoder()
}

#[test]
fn frames_of_both_tracks(rt: HostRuntime) {
    let mut packed = packed_track();
    check_both_tracks(&rt, &mut packed);
    let mut plain = TrackDecoder::with_loco(LocoDecoder::new(&cvs(2)));
    check_both_tracks(&rt, &mut plain);
}

/// Returns a new decoder at short address 3 with 28 speed steps.
fn packed_track() -> TrackDecoder<PackedLoco> {
    TrackDecoder::with_packed_loco(PackedLoco::new(&cvs(2)))
}

/// Hears a frame, which the decoder must not acknowledge.
fn hear_silently<D: Programmable>(rt: &impl Abort, track: &mut TrackDecoder<D>, line: &str) {
    check(rt, !hear(rt, track, line).acknowledged, line);
}

#[test]
fn service_mode_ends_without_a_frame(rt: HostRuntime) {
    let mut track = packed_track();
    hear_silently(&rt, &mut track, "loco s3 speed28 f 20");
    track.end_service();
    check(&rt, speed_step(track.decoder()) == 17, "step 17");
    hear_silently(&rt, &mut track, "frame 000000");
    check(&rt, track.is_in_service(), "in service");
    hear_silently(&rt, &mut track, "frame 7c000a76");
    check(
        &rt,
        hear(&rt, &mut track, "frame 7c000a76").acknowledged,
        "a write",
    );
    track.end_service();
    check(&rt, !track.is_in_service(), "not in service");
    check(
        &rt,
        short_address(track.decoder().identity()) == 10,
        "address 10",
    );
    hear_silently(&rt, &mut track, "loco s10 speed28 f 20");
    check(&rt, speed_step(track.decoder()) == 17, "step 17");
}

/// The frame 7c3f85c6 is a speed packet for the short address 124, and the service packet that writes
/// 133 to CV64.
#[test]
fn the_main_track_is_kept(rt: HostRuntime) {
    let cv = CvNumber::new(64).expect(&rt, "a CV");
    let mut track = packed_track();
    hear(&rt, &mut track, "frame 000000");
    track.set_main_only(true);
    check(&rt, !track.is_in_service(), "not in service");
    for line in ["frame 000000", "frame 7c3f85c6", "frame 7c3f85c6"] {
        check(&rt, hears_change(&rt, &mut track, line) == (false, 0), line);
    }
    check(&rt, track.decoder().read_cv(cv) == 0, "CV64");
    hear(&rt, &mut track, TO_S10);
    check(&rt, hears_change(&rt, &mut track, TO_S10).1 == 1, TO_S10);
    track.set_main_only(false);
    hear(&rt, &mut track, "frame 000000");
    hear(&rt, &mut track, "frame 7c3f85c6");
    let answer = hears_change(&rt, &mut track, "frame 7c3f85c6");
    check(&rt, answer == (true, 64), "a write of CV64");
    check(&rt, track.decoder().read_cv(cv) == 133, "CV64");
}

/// Hears a frame. Returns true if the decoder acknowledges it, and the number of the CV that
/// changes, or 0.
fn hears_change<D: Programmable>(
    rt: &impl Abort,
    track: &mut TrackDecoder<D>,
    line: &str,
) -> (bool, u16) {
    let answer = hear(rt, track, line);
    (answer.acknowledged, number_of(answer.changed))
}

/// Each row is a packet line that an accessory decoder hears, which has the address 12 at the start.
/// The next columns are `+` or `-` for the acknowledgement, the CV that changes or 0, and then the
/// address and the outputs as a number. The frame 94f86c turns on output 0 of board 20, bf8837 of all
/// boards, and 7c001468 writes 20 to CV1. The frames 7c003f43 and 7c080773 write 63 to CV1 and 7 to
/// CV9, which is the address 511.
const BOARD_ON_BOTH_TRACKS: &str = "\
    frame 8cfd71 | - | 0 | 12 | 32
    frame 94f86c | - | 0 | 12 | 32
    frame 000000 | - | 0 | 12 | 0
    frame 8cfd71 | - | 0 | 12 | 32
    frame 000000 | - | 0 | 12 | 0
    frame 7c001468 | - | 0 | 12 | 0
    frame 7c001468 | + | 1 | 12 | 0
    frame 94f86c | - | 0 | 20 | 1
    frame 8cfd71 | - | 0 | 20 | 1
    frame 000000 | - | 0 | 20 | 0
    frame 7c003f43 | - | 0 | 20 | 0
    frame 7c003f43 | + | 1 | 20 | 0
    frame 7c080773 | - | 0 | 20 | 0
    frame 7c080773 | + | 9 | 20 | 0
    idle | - | 0 | 511 | 0
    frame 8cfd71 | - | 0 | 511 | 0
    frame 94f86c | - | 0 | 511 | 0
    frame bf8837 | - | 0 | 511 | 1
    frame 000000 | - | 0 | 511 | 0";

/// Returns true if the columns 3 and 4 of a row have the address and the outputs of this state.
fn is_board(state: &BoardState, row: &str) -> bool {
    let address = u32::from(state.board.number());
    address == number(column(row, 3)) && u32::from(state.outs) == number(column(row, 4))
}

fn state_of(track: &TrackDecoder<BoardWithCvs>) -> BoardState {
    track.decoder().state()
}

#[test]
fn boards_on_both_tracks(rt: HostRuntime) {
    let mut values = [0; 1024];
    values[0] = 12;
    let mut track = TrackDecoder::new(BoardWithCvs::new(&values));
    for row in BOARD_ON_BOTH_TRACKS.lines() {
        let answer = hear(&rt, &mut track, column(row, 0));
        check(&rt, is_answer(&answer, row), row);
        check(&rt, is_board(&state_of(&track), row), row);
    }
    is_kept(&rt, &track);
    hear(&rt, &mut track, FIVE_ON);
    check(&rt, state_of(&track).outs == 0, FIVE_ON);
}

/// Checks the state and the CVs of a decoder after the rows of `BOARD_ON_BOTH_TRACKS`.
fn is_kept(rt: &impl Abort, track: &TrackDecoder<BoardWithCvs>) {
    let state = state_of(track);
    let positions = [false, false, true, false];
    check(rt, state.positions == positions, "positions");
    check(
        rt,
        first_and_ninth(track.decoder()) == (63, 7),
        "CV1 and CV9",
    );
    let again = BoardWithCvs::restore(&state, track.decoder().cvs());
    check(rt, again.state().board.number() == 511, "address 511");
    check(rt, first_and_ninth(&again).1 == 7, "CV9");
}

/// Returns the values of CV1 and CV9.
fn first_and_ninth(decoder: &BoardWithCvs) -> (u8, u8) {
    (decoder.cvs()[0], decoder.cvs()[8])
}
