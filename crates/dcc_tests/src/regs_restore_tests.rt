//! Tests that save and restore states with the plain and the packed type of each decoder, and tests
//! of states that no decoder can have.

use crate::checks::{check, check_at};
use crate::regs_examples::*;
use dcc_packet::{Address, Board, CvNumber, Packet, PacketFault};
use dcc_regs::{
    BoardDecoder, BoardState, Decoder, LocoDecoder, LocoState, PackedBoard, PackedLoco, Register,
    Speed, Value, Who,
};
use std::process::Abort;

/// An address, a speed, functions and binary states as bits, and the packet line of the pending
/// packet. The line is empty if no packet is pending.
type StateRow = (Option<Address>, Speed, u128, u128, &'static str);

/// Returns the state of a row. CV29 is 2 and CV1024 is 200. The direction is forward if and only if
/// no function is on.
fn state_of(rt: &impl Abort, row: StateRow) -> LocoState {
    let (address, speed, functions, states, line) = row;
    let mut cvs = cvs(2);
    cvs[1023] = 200;
    LocoState {
        address,
        speed,
        forward: functions == 0,
        functions,
        states,
        pending: pending(rt, line),
        cvs,
    }
}

fn pending(rt: &impl Abort, line: &str) -> Option<Packet> {
    match line {
        "" => None,
        line => Some(Packet::from_line(line).expect(rt, line)),
    }
}

/// Returns short address 3.
fn short(rt: &impl Abort) -> Option<Address> {
    Some(Address::short(3).expect(rt, "an address"))
}

/// Returns long address 1000.
fn long(rt: &impl Abort) -> Option<Address> {
    Some(Address::long(1000).expect(rt, "an address"))
}

/// Checks that `LocoDecoder` and `PackedLoco` reject states that no decoder can have.
#[test]
fn refused_locomotives(rt: HostRuntime) {
    let short = short(&rt);
    let stop = Speed::Stop;
    let rows: [StateRow; 13] = [
        (Some(Address::Broadcast), stop, 0, 0, ""),
        (short, Speed::Step14(0), 0, 0, ""),
        (short, Speed::Step14(15), 0, 0, ""),
        (short, Speed::Step28(29), 0, 0, ""),
        (short, Speed::Step126(127), 0, 0, ""),
        (short, stop, 1 << 69, 0, ""),
        (short, stop, 0, 1, ""),
        (short, stop, 0, 3, ""),
        (short, stop, 0, u128::MAX, ""),
        (short, stop, 0, 0, "frame 036261"),
        (short, stop, 0, 0, "frame 04ec1c06f2"),
        (short, stop, 0, 0, "loco all cv write 29 6"),
        (None, stop, 0, 0, WRITE),
    ];
    for row in rows {
        is_refused(&rt, row);
    }
}

fn is_refused(rt: &impl Abort, row: StateRow) {
    let state = state_of(rt, row);
    check(rt, !state.is_possible(), row.4);
    check(rt, plain_fault(&state) == 13, row.4);
    check(rt, packed_fault(&state) == 13, row.4);
}

/// Returns the number of the error of `LocoDecoder::restore`, or 0.
fn plain_fault(state: &LocoState) -> u8 {
    match LocoDecoder::restore(state) {
        Ok(_) => 0,
        Err(fault) => fault.number(),
    }
}

/// Returns the number of the error of `PackedLoco::restore`, or 0.
fn packed_fault(state: &LocoState) -> u8 {
    match PackedLoco::restore(state) {
        Ok(_) => 0,
        Err(fault) => fault.number(),
    }
}

/// Checks that `LocoDecoder` and `PackedLoco` accept possible states and return them unchanged.
#[test]
fn restored_locomotives(rt: HostRuntime) {
    let short = short(&rt);
    let rows: [StateRow; 7] = [
        (short, Speed::Stop, 0, 0, ""),
        (None, Speed::Stop, 0, 0, ""),
        (short, Speed::Stop, 1 << 68, 0, ""),
        (short, Speed::Step126(126), 1 << 68, 0, ""),
        (short, Speed::Stop, 0, 0, WRITE),
        (short, Speed::Stop, 0, 1 << 127 | 1 << 5, ""),
        (
            long(&rt),
            Speed::Step126(126),
            1 << 68 | 5,
            1 << 127 | 2,
            "loco l1000 cv write 29 6",
        ),
    ];
    for row in rows {
        is_restored(&rt, &state_of(&rt, row));
    }
}

/// Asserts that decoders of both types can be restored from a state, and that they are in this
/// state.
fn is_restored(rt: &impl Abort, state: &LocoState) {
    let plain = LocoDecoder::restore(state).expect(rt, "a state");
    is_as_stated(rt, &plain, state);
    check(rt, plain.who() == Who::Loco(state.address), "an address");
    check(rt, has_cvs(rt, &plain), "CV1 and CV1024");
    is_same(rt, &plain.state(), state);
    let packed = PackedLoco::restore(state).expect(rt, "a state");
    are_same(rt, &plain, &packed, &[]);
    is_same(rt, &packed.state(), state);
}

fn has_cvs(rt: &impl Abort, decoder: &LocoDecoder) -> bool {
    let first = CvNumber::new(1).expect(rt, "a CV");
    let last = CvNumber::new(1024).expect(rt, "a CV");
    decoder.cv(first) == 3 && decoder.cv(last) == 200
}

/// Asserts that the registers of the decoder have the values of this state. Only the functions 0, 2
/// and 68 and the binary states 1, 5 and 127 can be on.
fn is_as_stated(rt: &impl Abort, decoder: &dyn Decoder, state: &LocoState) {
    holds(rt, decoder, Register::Speed, Value::Speed(state.speed));
    let direction = Value::Forward(state.forward);
    holds(rt, decoder, Register::Direction, direction);
    let pending = Value::Pending(state.pending);
    holds(rt, decoder, Register::Pending, pending);
    for n in 0..69u8 {
        let on = state.functions >> n & 1 == 1;
        holds(rt, decoder, Register::Function(n), Value::Flag(on));
    }
    for n in 1..128u8 {
        let on = state.states >> n & 1 == 1;
        holds(rt, decoder, Register::State(n), Value::Flag(on));
    }
}

fn is_same(rt: &impl Abort, one: &LocoState, other: &LocoState) {
    check(rt, one.address == other.address, "another address");
    check(rt, one.speed == other.speed, "another speed");
    check(rt, one.forward == other.forward, "another direction");
    check(rt, one.functions == other.functions, "other functions");
    check(rt, one.states == other.states, "other states");
    check(rt, one.pending == other.pending, "another pending packet");
    check(rt, one.cvs == other.cvs, "other CVs");
}

/// Returns a state of a board in which the outputs 0 and 7 are on and the positions of the pairs 1
/// and 3 are true.
fn board_state(board: Board) -> BoardState {
    BoardState {
        board,
        outs: 0x81,
        positions: [false, true, false, true],
        aspects: [0, 1, 2, 255],
    }
}

/// Checks that `BoardDecoder` and `PackedBoard` reject board 511, which is the broadcast.
#[test]
fn refused_boards(rt: HostRuntime) {
    let all = Board::new(511).expect(&rt, "a board");
    let state = board_state(all);
    check(&rt, is_fault_3(BoardDecoder::new(all).err()), "new");
    check(
        &rt,
        is_fault_3(BoardDecoder::restore(&state).err()),
        "restore",
    );
    check(&rt, is_fault_3(PackedBoard::new(all).err()), "packed new");
    check(
        &rt,
        is_fault_3(PackedBoard::restore(&state).err()),
        "packed restore",
    );
}

fn is_fault_3(refusal: Option<PacketFault>) -> bool {
    match refusal {
        Some(fault) => fault.number() == 3,
        None => false,
    }
}

/// The registers of board 12 in the state `board_state`, with their values.
const RESTORED: [(Register, Value); 8] = [
    (Register::Out(0), ON),
    (Register::Out(1), OFF),
    (Register::Out(7), ON),
    (Register::Position(0), Value::Number(0)),
    (Register::Position(1), Value::Number(1)),
    (Register::Position(2), Value::Number(0)),
    (Register::Position(3), Value::Number(1)),
    (Register::Aspect(3), Value::Number(255)),
];

#[test]
fn restored_boards(rt: HostRuntime) {
    let state = board_state(Board::new(12).expect(&rt, "a board"));
    let plain = BoardDecoder::restore(&state).expect(&rt, "a state");
    let packed = PackedBoard::restore(&state).expect(&rt, "a state");
    are_same(&rt, &plain, &packed, &[]);
    has_restored(&rt, &plain);
    is_same_board(&rt, &plain.state(), &state);
    is_same_board(&rt, &packed.state(), &state);
}

fn has_restored(rt: &impl Abort, decoder: &dyn Decoder) {
    for (register, value) in RESTORED {
        holds(rt, decoder, register, value);
    }
}

/// Asserts that a state is the state `state` of board 12.
fn is_same_board(rt: &impl Abort, given: &BoardState, state: &BoardState) {
    check_at(rt, given.board.number() == 12, 12);
    check(rt, given.outs == state.outs, "other outputs");
    check(rt, given.positions == state.positions, "other positions");
    check(rt, given.aspects == state.aspects, "other aspects");
}
