//! Tests of accessory decoders with worked examples, for `BoardDecoder` and `PackedBoard`.

use crate::regs_examples::*;
use dcc_packet::Board;
use dcc_regs::{PackedBoard, Register, Value};
use std::process::Abort;

/// Turns on output 4 of board 12. The next two packets are for all boards.
const FOUR_ON: &str = "frame 8cfc70";

const ZERO_ON_FOR_ALL: &str = "frame bf8837";

const RESET: &str = "frame 000000";

const ASPECTS_FOR_ALL: &str = "frame bf0705bd";

const SIDE_0: Value = Value::Number(0);

const SIDE_1: Value = Value::Number(1);

/// Packet lines that board 12 hears, a register, and the value that this register must then have.
type BoardRow = (&'static [&'static str], Register, Value);

const BOARDS: [BoardRow; 24] = [
    (&["idle"], Register::Out(5), OFF),
    (&["idle"], Register::Position(2), SIDE_0),
    (&[FIVE_ON], Register::Out(5), ON),
    (&[FIVE_ON], Register::Position(2), SIDE_1),
    (&[FIVE_ON, FOUR_ON], Register::Out(4), ON),
    (&[FIVE_ON, FOUR_ON], Register::Position(2), SIDE_0),
    (&[FIVE_ON, FOUR_ON], Register::Out(5), ON),
    (&[FIVE_ON, ZERO_ON_FOR_ALL], Register::Out(0), ON),
    (&[FIVE_ON, ZERO_ON_FOR_ALL], Register::Position(0), SIDE_0),
    (
        &[FIVE_ON, FOUR_ON, ZERO_ON_FOR_ALL, RESET],
        Register::Out(5),
        OFF,
    ),
    (
        &[FIVE_ON, FOUR_ON, ZERO_ON_FOR_ALL, RESET],
        Register::Out(0),
        OFF,
    ),
    (
        &[FIVE_ON, FOUR_ON, ZERO_ON_FOR_ALL, RESET],
        Register::Out(4),
        OFF,
    ),
    (
        &[FIVE_ON, FOUR_ON, ZERO_ON_FOR_ALL, RESET],
        Register::Position(2),
        SIDE_0,
    ),
    (
        &[FIVE_ON, FOUR_ON, ZERO_ON_FOR_ALL, RESET],
        Register::Position(0),
        SIDE_0,
    ),
    (
        &[FIVE_ON, FOUR_ON, ZERO_ON_FOR_ALL, RESET],
        Register::Position(1),
        SIDE_0,
    ),
    (
        &[FIVE_ON, FOUR_ON, ZERO_ON_FOR_ALL, RESET],
        Register::Position(3),
        SIDE_0,
    ),
    (&[FIVE_ON, RESET], Register::Position(2), SIDE_1),
    // a board does not hear a reset to one locomotive
    (&[FIVE_ON, "frame 030003"], Register::Out(5), ON),
    (&[ASPECTS_FOR_ALL], Register::Aspect(0), Value::Number(5)),
    (&[ASPECTS_FOR_ALL], Register::Aspect(1), Value::Number(5)),
    (&[ASPECTS_FOR_ALL], Register::Aspect(2), Value::Number(5)),
    (&[ASPECTS_FOR_ALL], Register::Aspect(3), Value::Number(5)),
    // signal 51 is the fourth signal of board 12, and signal 52 is the first signal of board 13
    (
        &["signal 51 7", "signal 52 9"],
        Register::Aspect(3),
        Value::Number(7),
    ),
    (
        &["signal 51 7", "signal 52 9", RESET],
        Register::Aspect(0),
        Value::Number(0),
    ),
];

#[test]
fn boards(rt: HostRuntime) {
    for (lines, register, value) in BOARDS {
        holds(&rt, &heard_by_board(&rt, lines), register, value);
    }
}

/// Checks that power-up turns the outputs off and leaves all other registers unchanged.
#[test]
fn boards_at_power_up(rt: HostRuntime) {
    let mut plain = heard_by_board(&rt, &SET);
    let mut packed = packed_board(&rt);
    hear(&rt, &mut packed, &SET);
    plain.power_up();
    packed.power_up();
    are_same(&rt, &plain, &packed, &SET);
    holds(&rt, &plain, Register::Out(5), OFF);
    holds(&rt, &plain, Register::Position(2), SIDE_1);
    holds(&rt, &plain, Register::Aspect(3), Value::Number(7));
    lacks(&rt, &plain, &NONE);
    lacks(&rt, &packed, &NONE);
    lacks(&rt, &heard_by_board(&rt, &["frame 00dd8558"]), &NONE);
}

/// Packets that set an output, the position of its pair, and an aspect.
const SET: [&str; 2] = [FIVE_ON, "signal 51 7"];

/// Registers that no accessory decoder has.
const NONE: [Register; 5] = [
    Register::Out(8),
    Register::Position(4),
    Register::Aspect(4),
    Register::Speed,
    Register::State(5),
];

fn packed_board(rt: &impl Abort) -> PackedBoard {
    let board = Board::new(12).expect(rt, "a board");
    PackedBoard::new(board).expect(rt, "a board")
}
