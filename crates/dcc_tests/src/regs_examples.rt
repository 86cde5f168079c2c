//! Functions and packets that several worked examples use. A packet is written as the packet line
//! `frame` with its bytes in hex.

use dcc_packet::{Board, Packet};
use dcc_regs::{
    BoardDecoder, Decoder, LocoDecoder, PackedBoard, PackedLoco, Register, Speed, Value,
    same_registers,
};
use std::process::Abort;

pub const ON: Value = Value::Flag(true);

pub const OFF: Value = Value::Flag(false);

pub const FORWARD: Value = Value::Forward(true);

pub const REVERSE: Value = Value::Forward(false);

pub const NOTHING: Value = Value::Pending(None);

pub const STOP: Value = Value::Speed(Speed::Stop);

pub const STEP_1: Value = Value::Speed(Speed::Step28(1));

/// The packet that writes 6 to CV29 of locomotive 3.
pub const WRITE: &str = "frame 03ec1c06f5";

/// The packet that writes 10 to CV1 of locomotive 3.
pub const TO_S10: &str = "frame 03ec000ae5";

/// The packet that turns on output 5 of board 12.
pub const FIVE_ON: &str = "frame 8cfd71";

/// Returns CVs with 3 in CV1, `cv29` in CV29, and 0 in all other CVs.
pub fn cvs(cv29: u8) -> [u8; 1024] {
    let mut cvs = [0; 1024];
    cvs[0] = 3;
    cvs[28] = cv29;
    cvs
}

/// Applies the packets of the packet lines `lines` to a decoder, one after the other.
pub fn hear(rt: &impl Abort, decoder: &mut dyn Decoder, lines: &[&str]) {
    for line in lines {
        hear_line(rt, decoder, line);
    }
}

fn hear_line(rt: &impl Abort, decoder: &mut dyn Decoder, line: &str) {
    let packet = Packet::from_line(line).expect(rt, line);
    decoder.apply(&packet);
}

/// Asserts that two decoders, which have heard the packets of `lines`, have equal registers.
pub fn are_same(rt: &impl Abort, one: &dyn Decoder, other: &dyn Decoder, lines: &[&str]) {
    assert!(rt; same_registers(one, other), "{lines:?}");
}

/// Returns a `LocoDecoder` with the given CVs that has heard the packets of `lines`. Asserts that a
/// `PackedLoco` has equal registers after these packets.
pub fn heard_by_loco(rt: &impl Abort, cvs: &[u8; 1024], lines: &[&str]) -> LocoDecoder {
    let mut plain = LocoDecoder::new(cvs);
    hear(rt, &mut plain, lines);
    let mut packed = PackedLoco::new(cvs);
    hear(rt, &mut packed, lines);
    are_same(rt, &plain, &packed, lines);
    plain
}

/// Returns a `BoardDecoder` for board 12 that has heard the packets of `lines`. Asserts that a
/// `PackedBoard` has equal registers after these packets.
pub fn heard_by_board(rt: &impl Abort, lines: &[&str]) -> BoardDecoder {
    let board = Board::new(12).expect(rt, "a board");
    let mut plain = BoardDecoder::new(board).expect(rt, "a board");
    hear(rt, &mut plain, lines);
    let mut packed = PackedBoard::new(board).expect(rt, "a board");
    hear(rt, &mut packed, lines);
    are_same(rt, &plain, &packed, lines);
    plain
}

/// Asserts that the register `register` of the decoder has the value `value`.
pub fn holds(rt: &impl Abort, decoder: &dyn Decoder, register: Register, value: Value) {
    assert!(rt; decoder.get(register) == Some(value), "{register:?}");
}

/// Asserts that the decoder has none of the registers in the list.
pub fn lacks(rt: &impl Abort, decoder: &dyn Decoder, registers: &[Register]) {
    for register in registers {
        has_not(rt, decoder, *register);
    }
}

fn has_not(rt: &impl Abort, decoder: &dyn Decoder, register: Register) {
    assert!(rt; decoder.get(register) == None, "{register:?}");
}
