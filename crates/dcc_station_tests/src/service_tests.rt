//! Tests of service mode: worked examples, and a comparison of frames of four bytes with the bit
//! patterns of the table.

use crate::checks::{check, check_at};
use crate::rows::{column, frame_of, is_hex, number};
use dcc_packet::{BitPlace, CvNumber};
use dcc_service::{
    CvReader, CvWriter, Reading, ServiceDecoder, ServicePacket, Writing, ask, question_frames,
};
use dcc_wire::Frame;
use std::process::Abort;

/// Returns a new decoder with `value` in CV1 and 0 in all other CVs.
fn with_cv1(value: u8) -> ServiceDecoder {
    let mut cvs = [0; 1024];
    cvs[0] = value;
    ServiceDecoder::new(&cvs)
}

/// The columns of a row are the name, CV1 at the start, frames, and CV1 at the end. The sign `+`
/// stands before a frame that the decoder acknowledges, and `-` stands before any other frame. The
/// frame 7c000a76 writes CV1, 7c070873 writes CV8, and 74000a7e verifies CV1. A decoder never
/// writes CV8.
const STEPS: &str = "\
    the second copy of a write | 3 | -000000 -7c000a76 +7c000a76 +7c000a76 | 10
    an idle packet ends service | 3 | -000000 -7c000a76 +7c000a76 +7c000a76 -ff00ff -7c000a76 -7c000a76 | 10
    CV8 is not written | 3 | -000000 -7c000a76 +7c000a76 -ff00ff -7c000a76 -7c000a76 -000000 -7c070873 -7c070873 | 10
    out of service | 10 | -74000a7e -74000a7e | 10
    in service | 10 | -74000a7e -74000a7e -000000 -74000a7e +74000a7e +74000a7e | 10
    another packet between | 10 | -000000 -74000a7e -7c070873 -74000a7e +74000a7e | 10
    a reset in service | 10 | -000000 -74000a7e -000000 -74000a7e +74000a7e | 10
    the reset of an address ends service | 10 | -000000 -74000a7e +74000a7e -030003 -74000a7e -74000a7e | 10";

#[test]
fn frames_in_turn(rt: HostRuntime) {
    for row in STEPS.lines() {
        let mut decoder = with_cv1(column(row, 1).parse::<u8>().expect(&rt, row));
        for step in column(row, 2).split_whitespace() {
            let yes = step.starts_with('+');
            let frame = frame_of(step.trim_start_matches(['+', '-'])).expect(&rt, row);
            check(&rt, is_acknowledged(&mut decoder, &frame) == yes, row);
        }
        check(&rt, u32::from(cv1(&decoder)) == number(column(row, 3)), row);
        check(&rt, cv8(&decoder) == 0, row);
    }
}

fn is_acknowledged(decoder: &mut ServiceDecoder, frame: &Frame) -> bool {
    decoder.apply(frame)
}

fn cv1(decoder: &ServiceDecoder) -> u8 {
    decoder.cvs()[0]
}

fn cv8(decoder: &ServiceDecoder) -> u8 {
    decoder.cvs()[7]
}

fn cv_of(rt: &impl Abort, number: u16) -> CvNumber {
    CvNumber::new(number).expect(rt, "a CV")
}

fn place_of(rt: &impl Abort, number: u8) -> BitPlace {
    BitPlace::new(number).expect(rt, "a place")
}

/// Checks questions, which send three resets and then the frame of a packet five times.
#[test]
fn questions(rt: HostRuntime) {
    let (cv, last) = (cv_of(&rt, 1), cv_of(&rt, 8));
    let place = place_of(&rt, 7);
    let mut decoder = with_cv1(10);
    let write = ServicePacket::Write { cv, value: 11 };
    send_frames(&rt, &mut decoder, &write, true);
    check(&rt, cv1(&decoder) == 11 && cv8(&decoder) == 0, "CV1");
    let write = ServicePacket::Write { cv: last, value: 3 };
    send_frames(&rt, &mut decoder, &write, false);
    check(&rt, cv1(&decoder) == 11 && cv8(&decoder) == 0, "CV8");
    let one = true;
    let question = ServicePacket::BitWrite { cv, place, one };
    check(
        &rt,
        is_answered(&mut decoder, &question),
        "a bit is written",
    );
    check(&rt, cv1(&decoder) == 139, "bit 7");
    let one = false;
    let question = ServicePacket::BitVerify { cv, place, one };
    check(
        &rt,
        !is_answered(&mut decoder, &question),
        "a bit is compared",
    );
    check(&rt, cv1(&decoder) == 139, "bit 7");
}

/// Sends the eight frames of a question. Asserts that the decoder acknowledges the last four of
/// them if `answered` is true, otherwise none of them.
fn send_frames(
    rt: &impl Abort,
    decoder: &mut ServiceDecoder,
    question: &ServicePacket,
    answered: bool,
) {
    let mut count = 0u8;
    for frame in question_frames(question) {
        let yes = answered && count > 3;
        check_at(
            rt,
            is_acknowledged(decoder, &frame) == yes,
            u32::from(count),
        );
        count = count.wrapping_add(1);
    }
    check_at(rt, count == 8, u32::from(count));
}

fn is_answered(decoder: &mut ServiceDecoder, question: &ServicePacket) -> bool {
    ask(decoder, question)
}

#[test]
fn packets_have_their_frames(rt: HostRuntime) {
    let (first, last) = (cv_of(&rt, 1), cv_of(&rt, 1024));
    let value = 255;
    has_frame(&rt, ServicePacket::Write { cv: last, value }, "7fffff7f");
    let value = 10;
    has_frame(&rt, ServicePacket::Verify { cv: first, value }, "74000a7e");
    let (cv, place, one) = (last, place_of(&rt, 5), true);
    has_frame(&rt, ServicePacket::BitWrite { cv, place, one }, "7bfffd79");
    let (cv, place) = (first, place_of(&rt, 0));
    has_frame(&rt, ServicePacket::BitVerify { cv, place, one }, "7800e890");
}

/// Asserts that the packet has this frame, and that it is the packet of this frame.
fn has_frame(rt: &impl Abort, packet: ServicePacket, hex: &str) {
    let frame = packet.frame();
    check(rt, is_hex(frame.bytes(), hex), hex);
    let read = ServicePacket::read(&frame).expect(rt, hex);
    check(rt, read.is(&packet), hex);
}

/// Returns true if the first and the last byte before the error byte match a pattern of the table.
/// Each pattern is a mask and a value.
fn is_in_table(first: u8, last: u8) -> bool {
    let is_byte = first & 0b1111_1100 == 0b0111_1100 || first & 0b1111_1100 == 0b0111_0100;
    let is_bit = first & 0b1111_1100 == 0b0111_1000 && last & 0b1110_0000 == 0b1110_0000;
    is_byte || is_bit
}

#[test]
fn exactly_the_frames_of_the_table_are_read(rt: HostRuntime) {
    for first in 0..=255u8 {
        for last in 0..=255u8 {
            let bytes = [first, 0x1C, last, first ^ 0x1C ^ last];
            let is_wanted = is_in_table(first, last);
            check_at(&rt, is_read(&rt, bytes) == is_wanted, u32::from(first));
        }
    }
    for hex in ["ff00ff", "03ec1c06f5"] {
        let frame = frame_of(hex).expect(&rt, hex);
        check(&rt, read_frame(&frame).is_none(), hex);
    }
}

fn read_frame(frame: &Frame) -> Option<ServicePacket> {
    ServicePacket::read(frame)
}

/// Returns true if the bytes are read as a packet, and asserts that this packet has these bytes.
fn is_read(rt: &impl Abort, bytes: [u8; 4]) -> bool {
    let frame = Frame::of(&bytes).expect(rt, "a frame");
    match read_frame(&frame) {
        Some(packet) => {
            check(
                rt,
                packet.frame().bytes() == bytes.as_slice(),
                "other bytes",
            );
            true
        }
        None => false,
    }
}

/// Reads CV1 of a decoder, or of an empty track if `decoder` is `None`. Returns the value and the
/// number of questions.
fn read_cv1(mut reader: CvReader, mut decoder: Option<ServiceDecoder>) -> (Option<u8>, u32) {
    for count in 1..=9u32 {
        let question = reader.question();
        let yes = match &mut decoder {
            Some(decoder) => ask(decoder, &question),
            None => false,
        };
        match reader.answer(yes) {
            Reading::More(next) => reader = next,
            Reading::Value(value) => return (Some(value), count),
            Reading::NoAnswer => return (None, count),
        }
    }
    (None, 10)
}

/// Checks that nine questions find each value of a CV, and that a reading whose last answer is no
/// has no value.
#[test]
fn readings(rt: HostRuntime) {
    let cv = cv_of(&rt, 1);
    for value in 0..=255u8 {
        let read = read_cv1(CvReader::new(cv), Some(with_cv1(value)));
        check_at(&rt, read == (Some(value), 9), u32::from(value));
    }
    check(
        &rt,
        read_cv1(CvReader::new(cv), None) == (None, 9),
        "an empty track",
    );
    let mut reader = CvReader::new(cv);
    for _ in 0..8u32 {
        reader = next_reader(reader).expect(&rt, "a ninth question is left");
    }
    check(
        &rt,
        matches!(reader.answer(false), Reading::NoAnswer),
        "no value",
    );
}

/// Answers a question with yes. Returns the reader with the next question.
fn next_reader(reader: CvReader) -> Option<CvReader> {
    match reader.answer(true) {
        Reading::More(next) => Some(next),
        Reading::Value(_) | Reading::NoAnswer => None,
    }
}

/// Sends the questions of a writing to a decoder, or to an empty track if `decoder` is `None`.
/// Returns true if the writing ends with `Done`, and the number of questions.
fn write(mut writer: CvWriter, mut decoder: Option<&mut ServiceDecoder>) -> (bool, u32) {
    for count in 1..=2u32 {
        let question = writer.question();
        let yes = match &mut decoder {
            Some(decoder) => ask(decoder, &question),
            None => false,
        };
        match writer.answer(yes) {
            Writing::More(next) => writer = next,
            Writing::Done => return (true, count),
            Writing::Failed => return (false, count),
        }
    }
    (false, 3)
}

/// Checks that two questions write each value to a CV, that CV7 and CV8 never change, and that a
/// writing on an empty track fails.
#[test]
fn writings(rt: HostRuntime) {
    let (first, seventh, eighth) = (cv_of(&rt, 1), cv_of(&rt, 7), cv_of(&rt, 8));
    let mut decoder = with_cv1(3);
    for value in 0..=255u8 {
        check_at(
            &rt,
            is_done(&rt, &mut decoder, first, value),
            u32::from(value),
        );
        check_at(&rt, first_cvs(&decoder) == (value, 0), u32::from(value));
        // CV7 and CV8 are 0
        check_at(
            &rt,
            is_done(&rt, &mut decoder, seventh, value) == (value == 0),
            7,
        );
        check_at(
            &rt,
            is_done(&rt, &mut decoder, eighth, value) == (value == 0),
            8,
        );
        check_at(&rt, fixed_cvs(&decoder) == (0, 0), u32::from(value));
    }
    check(
        &rt,
        write(CvWriter::new(first, 255), None) == (false, 2),
        "an empty track",
    );
}

/// Writes a value to a CV by two questions. Returns true if the writing ends with `Done`.
fn is_done(rt: &impl Abort, decoder: &mut ServiceDecoder, cv: CvNumber, value: u8) -> bool {
    let (done, count) = write(CvWriter::new(cv, value), Some(decoder));
    check_at(rt, count == 2, count);
    done
}

/// Returns the values of CV1 and CV2.
fn first_cvs(decoder: &ServiceDecoder) -> (u8, u8) {
    (decoder.cvs()[0], decoder.cvs()[1])
}

/// Returns the values of CV7 and CV8.
fn fixed_cvs(decoder: &ServiceDecoder) -> (u8, u8) {
    (decoder.cvs()[6], decoder.cvs()[7])
}

/// Checks the frames of the two questions, and that only the second answer is the result.
#[test]
fn a_writing_asks_two_questions(rt: HostRuntime) {
    let cv = cv_of(&rt, 1);
    for first in [false, true] {
        for second in [false, true] {
            let writer = CvWriter::new(cv, 10);
            asks(&rt, &writer, false, "7c000a76");
            let writer = next_writer(writer, first).expect(&rt, "a second question is left");
            asks(&rt, &writer, true, "74000a7e");
            check(&rt, ends_with_done(writer, second) == second, "a result");
        }
    }
    let restored = CvWriter::restore(cv, 11, true);
    check(
        &rt,
        is_hex(restored.question().frame().bytes(), "74000b7f"),
        "74000b7f",
    );
    let restored = CvWriter::restore(cv, 11, false);
    check(
        &rt,
        is_hex(restored.question().frame().bytes(), "7c000b77"),
        "7c000b77",
    );
}

/// Asserts that the writer of 10 to CV1 asks the question with this frame.
fn asks(rt: &impl Abort, writer: &CvWriter, verifying: bool, hex: &str) {
    let told = (writer.cv().number(), writer.value(), writer.is_verifying());
    check(rt, told == (1, 10, verifying), hex);
    check(rt, is_hex(writer.question().frame().bytes(), hex), hex);
}

/// Answers the first question. Returns the writer with the second question.
fn next_writer(writer: CvWriter, yes: bool) -> Option<CvWriter> {
    match writer.answer(yes) {
        Writing::More(writer) => Some(writer),
        Writing::Done | Writing::Failed => None,
    }
}

fn ends_with_done(writer: CvWriter, yes: bool) -> bool {
    matches!(writer.answer(yes), Writing::Done)
}
