//! Tests of locomotive decoders with worked examples, for `LocoDecoder` and `PackedLoco`.

use crate::checks::{check, check_at};
use crate::regs_examples::*;
use dcc_packet::{CvNumber, Packet};
use dcc_regs::{Decoder, LocoDecoder, PackedLoco, Register, Speed, Value, same_registers};
use std::process::Abort;

/// A speed with direction forward and bits 01001: step 3 of 14 with F0 on, or step 6 of 28.
const STEP: &str = "frame 037477";

/// Turns F1 on and the other functions of group 0 off.
const F1_ON: &str = "frame 038182";

/// Sets bit 1 of CV29 to 0, which selects 14 speed steps. The next packet sets this bit to 1, which
/// selects 28 speed steps.
const TO_14: &str = "frame 03e81cf106";

const TO_28: &str = "frame 03e81cf90e";

const STEP_3_OF_14: Value = Value::Speed(Speed::Step14(3));

const STEP_6: Value = Value::Speed(Speed::Step28(6));

const STEP_28: Value = Value::Speed(Speed::Step28(28));

const EMERGENCY: Value = Value::Speed(Speed::Emergency);

/// The registers of a new locomotive decoder with CV29 = 2, apart from its functions and most CVs.
const NEW: [(Register, Value); 6] = [
    (Register::Speed, STOP),
    (Register::Direction, FORWARD),
    (Register::Pending, NOTHING),
    (Register::CvBit(29, 1), ON),
    (Register::CvBit(1, 1), ON),
    (Register::CvBit(1, 2), OFF),
];

/// Registers that no locomotive decoder has.
const NONE: [Register; 7] = [
    Register::Function(69),
    Register::CvBit(0, 0),
    Register::CvBit(1025, 0),
    Register::CvBit(1, 8),
    Register::Out(0),
    Register::State(0),
    Register::State(128),
];

#[test]
fn new_locomotives(rt: HostRuntime) {
    is_new(&rt, &heard_by_loco(&rt, &cvs(2), &[]));
    lacks(&rt, &PackedLoco::new(&cvs(2)), &NONE);
}

/// Asserts that the decoder has the registers of a new locomotive decoder.
fn is_new(rt: &impl Abort, decoder: &dyn Decoder) {
    for n in 0..69 {
        holds(rt, decoder, Register::Function(n), OFF);
    }
    for (register, value) in NEW {
        holds(rt, decoder, register, value);
    }
    lacks(rt, decoder, &NONE);
}

/// The value of CV29 of a decoder, packet lines that it hears, a register, and the value that this
/// register must then have.
type LocoRow = (u8, &'static [&'static str], Register, Value);

const REGISTERS: [LocoRow; 34] = [
    (2, &["frame 036261"], Register::Speed, STEP_1),
    (2, &["frame 036261"], Register::Direction, FORWARD),
    (2, &["frame 037f7c"], Register::Speed, STEP_28),
    // a packet to long address 3 or to short address 4 is for another decoder
    (2, &["frame c00362a1"], Register::Speed, STOP),
    (2, &["frame 046266"], Register::Speed, STOP),
    // one packet in both speed modes
    (2, &[STEP], Register::Speed, STEP_6),
    (2, &[STEP], Register::Function(0), OFF),
    (0, &[STEP, F1_ON], Register::Speed, STEP_3_OF_14),
    (0, &[STEP, F1_ON], Register::Function(0), ON),
    (0, &[STEP, F1_ON], Register::Function(1), ON),
    (0, &[F1_ON, STEP], Register::Function(0), ON),
    (0, &[F1_ON, STEP], Register::Function(1), ON),
    // a broadcast stop leaves the direction unchanged if its bit C is 1, and sets the direction if
    // C is 0
    (2, &["frame 005151"], Register::Speed, EMERGENCY),
    (2, &["frame 005151"], Register::Direction, FORWARD),
    (2, &["frame 005151", "frame 004040"], Register::Speed, STOP),
    (
        2,
        &["frame 005151", "frame 004040"],
        Register::Direction,
        REVERSE,
    ),
    (0, &[F1_ON, STEP], Register::Speed, STEP_3_OF_14),
    (2, &["frame 039093"], Register::Function(0), ON),
    (2, &["frame 039093"], Register::Function(1), OFF),
    (
        2,
        &["frame 039f9c", "frame 039093"],
        Register::Function(4),
        OFF,
    ),
    // in 14 speed steps group 0 does not set F0
    (0, &["frame 039093"], Register::Function(0), OFF),
    (2, &["frame 03de815c"], Register::Function(13), ON),
    (2, &["frame 03de815c"], Register::Function(14), OFF),
    (2, &["frame 03de815c"], Register::Function(20), ON),
    (2, &["frame 03dc805f"], Register::Function(68), ON),
    // a reset turns all functions off and sets the speed to stop
    (
        2,
        &["frame 03dc805f", "frame 030003"],
        Register::Function(68),
        OFF,
    ),
    (
        2,
        &["frame 039093", "frame 030003"],
        Register::Function(0),
        OFF,
    ),
    (2, &["frame 036261", "frame 000000"], Register::Speed, STOP),
    (
        2,
        &["frame 034241", "frame 030003"],
        Register::Direction,
        FORWARD,
    ),
    // the packet that turns F0 on turns F1 to F4 off
    (
        2,
        &["frame 039f9c", "frame 039093"],
        Register::Function(1),
        OFF,
    ),
    (
        2,
        &["frame 039f9c", "frame 039093"],
        Register::Function(2),
        OFF,
    ),
    (
        2,
        &["frame 039f9c", "frame 039093"],
        Register::Function(3),
        OFF,
    ),
    // the speed mode at the time of a packet decides how the packet is read
    (
        2,
        &[STEP, TO_14, TO_14, STEP, TO_28, TO_28, STEP],
        Register::Function(0),
        ON,
    ),
    (
        2,
        &[STEP, TO_14, TO_14, TO_28, TO_28, STEP],
        Register::Function(0),
        OFF,
    ),
];

#[test]
fn registers(rt: HostRuntime) {
    for (cv29, lines, register, value) in REGISTERS {
        holds(&rt, &heard_by_loco(&rt, &cvs(cv29), lines), register, value);
    }
}

/// Packets that turn F0, F13, F20, F68 and binary state 5 on, for the decoder at short address 3.
const MANY_ON: [&str; 4] = [
    "frame 039093",
    "frame 03de815c",
    "frame 03dc805f",
    "frame 03dd855b",
];

/// Checks that a reset turns all functions and binary states off. A decoder at short address 3 must
/// not hear a packet to long address 3.
#[test]
fn a_reset_leaves_a_new_locomotive(rt: HostRuntime) {
    let new = LocoDecoder::new(&cvs(2));
    let mut decoder = heard_by_loco(&rt, &cvs(2), &MANY_ON);
    check(&rt, !are_equal(&new, &decoder), "many on");
    hear(&rt, &mut decoder, &["frame 030003"]);
    check(&rt, are_equal(&new, &decoder), "a reset");
    hear(&rt, &mut decoder, &["frame c00362a1"]);
    check(
        &rt,
        are_equal(&new, &decoder),
        "a packet to another decoder",
    );
    check(
        &rt,
        are_equal(&new, &LocoDecoder::new(&cvs(2))),
        "a new decoder",
    );
    let lit = heard_by_loco(&rt, &cvs(2), &["frame 039093"]);
    check(&rt, !are_equal(&new, &lit), "F0 on");
    check(&rt, !are_equal(&new, &heard_by_board(&rt, &[])), "a board");
}

fn are_equal(one: &dyn Decoder, other: &dyn Decoder) -> bool {
    same_registers(one, other)
}

/// The value of CV29, packet lines that the decoder at short address 3 gets, a truth value, and a
/// list of binary states. If the truth value is true, exactly the states in the list must be on. If
/// the truth value is false, exactly the states that are not in the list must be on.
type StateRow = (u8, &'static [&'static str], bool, &'static [u8]);

const STATES: [StateRow; 12] = [
    (2, &[], true, &[]),
    (2, &["frame 03dd855b"], true, &[5]),
    (2, &["frame 03dd855b", "frame 03dd05db"], true, &[]),
    (2, &["frame 03dd805e"], false, &[]),
    (2, &["frame 03dd805e", "frame 03dd05db"], false, &[5]),
    (2, &["frame 03dd805e", "frame 030003"], true, &[]),
    (2, &["frame 03dd805e", "frame 000000"], true, &[]),
    (
        2,
        &["frame 03dd855b", "loco s3 state 127 on"],
        true,
        &[5, 127],
    ),
    // a decoder with 14 speed steps hears binary states too, and a broadcast sets them too
    (0, &["frame 03dd855b"], true, &[5]),
    (2, &["frame 00dd8558"], true, &[5]),
    // packets to other locomotives, and packets of other kinds, change no binary state
    (2, &["loco s4 state 5 on", "loco l3 state 5 on"], true, &[]),
    (
        2,
        &["frame 03dd855b", "frame 036261", "frame 039093", WRITE],
        true,
        &[5],
    ),
];

#[test]
fn states(rt: HostRuntime) {
    for (cv29, lines, listed, numbers) in STATES {
        let mut decoder = heard_by_loco(&rt, &cvs(cv29), lines);
        has_states(&rt, &decoder, listed, numbers);
        decoder.power_up();
        has_states(&rt, &decoder, true, &[]);
    }
}

/// Asserts that exactly the states in the list `numbers` are on, if `listed` is true, otherwise
/// exactly the states that are not in the list.
fn has_states(rt: &impl Abort, decoder: &dyn Decoder, listed: bool, numbers: &[u8]) {
    for n in 1..128 {
        let on = numbers.contains(&n) == listed;
        holds(rt, decoder, Register::State(n), Value::Flag(on));
    }
}

/// Packet lines that a decoder with CV29 = 2 hears, the number of a CV, and the value that this CV
/// must then have.
type CvRow = (&'static [&'static str], u16, u8);

const WRITES: [CvRow; 13] = [
    (&[WRITE], 29, 2),
    (&[WRITE, WRITE], 29, 6),
    (&[WRITE, WRITE, WRITE], 29, 6),
    // a packet that the decoder does not hear leaves the write pending
    (&[WRITE, "frame ff00ff", "frame 046266", WRITE], 29, 6),
    // each packet that the decoder hears cancels the pending write
    (&[WRITE, F1_ON, WRITE], 29, 2),
    (&[WRITE, "frame 006060", WRITE], 29, 2),
    (&[WRITE, "frame 006262", WRITE], 29, 2),
    (&["frame 03e81cfd0a", "frame 03e81cfd0a"], 29, 34),
    (&["frame 03ec0708e0", "frame 03ec0708e0"], 8, 0),
    (&["frame 03efffffec", "frame 03efffffec"], 1024, 255),
    (&[WRITE, "frame 03dd855b", WRITE], 29, 2),
    (&[WRITE, "loco s4 state 5 on", WRITE], 29, 6),
    (&[TO_S10, TO_S10], 1, 10),
];

#[test]
fn writes(rt: HostRuntime) {
    for (lines, number, value) in WRITES {
        let decoder = heard_by_loco(&rt, &cvs(2), lines);
        check_at(&rt, has_cv(&rt, &decoder, number, value), u32::from(number));
    }
    let pending = Packet::from_line(WRITE).expect(&rt, WRITE);
    holds(
        &rt,
        &heard_by_loco(&rt, &cvs(2), &[WRITE]),
        Register::Pending,
        Value::Pending(Some(pending)),
    );
}

fn has_cv(rt: &impl Abort, decoder: &LocoDecoder, number: u16, value: u8) -> bool {
    let cv = CvNumber::new(number).expect(rt, "a CV");
    decoder.cv(cv) == value && decoder.cv_byte(number) == value
}

#[test]
fn packed_writes(rt: HostRuntime) {
    let mut packed = PackedLoco::new(&cvs(2));
    hear(&rt, &mut packed, &[WRITE, WRITE]);
    let cv = CvNumber::new(29).expect(&rt, "a CV");
    check(&rt, packed.cv(cv) == 6 && packed.cv_byte(29) == 6, "CV29");
    check(&rt, packed.cv_byte(1025) == 0, "no CV");
}
