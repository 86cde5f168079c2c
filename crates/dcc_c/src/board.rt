//! The C struct of an accessory decoder, and the functions on it.

ghost use Rattle.std.specs.Prelude.{◌≡◌, ◌≢◌, true, false, nat_le, Some, Ok, Err, IfOk, IfErr, IfSome};
ghost use Rattle.dcc_packet.specs.declared.accessory.Board.{Board};
ghost use Rattle.dcc_packet.specs.declared.packet.Packet.{Packet};
ghost use Rattle.dcc_packet.specs.Spelling.{spelling};
ghost use Rattle.dcc_wire.specs.Frames.{IsFrame};
ghost use Rattle.dcc_regs.specs.declared.board_state.BoardState.{BoardState};
ghost use Rattle.dcc_regs.specs.declared.register.Who.{Who};
ghost use Rattle.dcc_regs.specs.Board.{board_registers, made};
ghost use Rattle.dcc_regs.specs.Heard.{hears as is_heard_by};
ghost use Rattle.dcc_c.specs.Applied.{HasApplied};
ghost use Rattle.dcc_c.specs.Boards.{is_single, board_numbers};
ghost use Rattle.dcc_regs.specs.BoardState.{board_map, board_who};
ghost use Rattle.dcc_c.specs.Frames.{frame_answer};

use crate::frame::{check_frame, frame_of};
use dcc_packet::{Board, Packet, PacketFault};
use dcc_regs::{BoardState, Decoder, PackedBoard, Who, hears};

/// The state of an accessory decoder as a C struct.
#[repr(C)]
#[derive(Clone, Copy, Drop)]
pub struct DccBoard {
    /// The address of the decoder, 0 to 510.
    pub number: u16,
    /// The outputs: bit n is one if output n, 0 to 7, is on.
    pub outs: u8,
    /// The positions of the four pairs. Element n is true if output 2n + 1 was the last output of
    /// pair n that was turned on.
    pub positions: [bool; 4],
    /// The aspects of the four signals, each 0 to 255.
    pub aspects: [u8; 4],
}

/// Initialises an accessory decoder with all outputs off, all positions false and all aspects 0.
/// Returns 0 on success, and 3 (P3) if `number` is not 0 to 510. If the result is not 0, nothing is
/// written.
#[unsafe(no_mangle)]
pub extern "C" fn dcc_board_new(board: &mut DccBoard, number: u16) -> u8
    ensures made { nat_le number 510 ≡ true
        → (state : BoardState) × (state.board.number ≡ number) × (board.new ≡ board_numbers state)
        × (board_map state ≡ board_registers made) × (result ≡ 0) }
    ensures refused { nat_le number 510 ≡ false → result ≡ 3 }
    ensures kept { nat_le number 510 ≡ false → board.new ≡ board.old }
{
    match new(number) {
        Ok(state) => {
            *board = numbers(&state);
            0
        }
        Err(fault) => fault.number(),
    }
}

fn new(number: u16) -> Result<BoardState, PacketFault>
    ensures made { nat_le number 510 ≡ true → (state : BoardState) × (result ≡ Ok state) × (state.board.number ≡ number)
        × (board_map state ≡ board_registers made) }
    ensures refused { nat_le number 510 ≡ false → result ≡ Err PacketFault.Board }
{
    match PackedBoard::new(Board::new(number)?) {
        Ok(decoder) => Ok(decoder.state()),
        Err(fault) => Err(fault),
    }
}

/// Applies the packet of the frame `frame`. The decoder ignores a packet that it does not hear.
/// Returns 0 on success, 1 (L1) or 2 (L2) if `frame` is no frame, and 13 (P13) if the fields of
/// `board` are not a possible state of a decoder. If the result is not 0, nothing changes.
#[unsafe(no_mangle)]
pub extern "C" fn dcc_board_apply(board: &mut DccBoard, frame: &[u8]) -> u8
    ensures no_frame { frame_answer frame.now ≢ 0 → result ≡ frame_answer frame.now }
    ensures applies { frame_answer frame.now ≡ 0 → (before : BoardState) → is_single before ≡ true
        → board.old ≡ board_numbers before →
        (packet : Packet) × (after : BoardState) × (spelling packet ≡ frame.now) × (is_single after ≡ true)
        × (board.new ≡ board_numbers after) × (result ≡ 0)
        × HasApplied packet (board_who before) (board_map before) (board_who after) (board_map after) }
    ensures decoder { result ≡ 0
        → (before : BoardState) × (is_single before ≡ true) × (board.old ≡ board_numbers before) }
    ensures refused { result ≢ 0 → result ≢ frame_answer frame.now → result ≡ 13 }
    ensures kept { result ≢ 0 → board.new ≡ board.old }
{
    match frame_of(frame) {
        Ok(frame) => match after(board, &Packet::read(&frame)) {
            Some(state) => {
                *board = numbers(&state);
                0
            }
            None => PacketFault::State.number(),
        },
        Err(number) => number,
    }
}

/// Writes true to `heard` if the decoder hears the packet of the frame `frame`, otherwise false.
/// Returns 0 on success, and 1 (L1) or 2 (L2) if `frame` is no frame. Returns 13 (P13) if the
/// address of the decoder is not 0 to 511. If the result is not 0, nothing is written.
#[unsafe(no_mangle)]
pub extern "C" fn dcc_board_hears(board: &DccBoard, frame: &[u8], heard: &mut bool) -> u8
    ensures no_frame { frame_answer frame.now ≢ 0 → result ≡ frame_answer frame.now }
    ensures tells { frame_answer frame.now ≡ 0 → nat_le board.now.number 511 ≡ true →
        (own : Board) × (packet : Packet) × (own.number ≡ board.now.number) × (spelling packet ≡ frame.now)
        × (heard.new ≡ is_heard_by (Who.Board own) packet) × (result ≡ 0) }
    ensures board { result ≡ 0 → nat_le board.now.number 511 ≡ true }
    ensures refused { result ≢ 0 → result ≢ frame_answer frame.now → result ≡ 13 }
    ensures untold { result ≢ 0 → heard.new ≡ heard.old }
{
    match check_frame(frame) {
        Ok(()) => match own_board(board) {
            Ok(own) => {
                *heard = hears_frame(own, frame);
                0
            }
            Err(refusal) => refusal.number(),
        },
        Err(number) => number,
    }
}

/// Returns true if the board `own` hears the packet of the frame `frame`. No board hears a frame
/// that is in no row.
#[inline(always)]
fn hears_frame(own: Board, frame: &[u8]) -> bool
    requires { IsFrame frame.now }
    ensures { (packet : Packet) × (spelling packet ≡ frame.now)
        × (result ≡ is_heard_by (Who.Board own) packet) }
{
    match Packet::of_row(frame) {
        Some(packet) => hears(Who::Board(own), &packet),
        None => false,
    }
}

/// Returns the address of the decoder with the fields of `board`.
///
/// Errors: P13 if the address is not 0 to 511.
fn own_board(board: &DccBoard) -> Result<Board, PacketFault>
    ensures board { IfOk result (λ own. (own.number ≡ board.now.number) × (nat_le board.now.number 511 ≡ true)) }
    ensures fault { IfErr result (λ fault. (fault ≡ PacketFault.State) × (nat_le board.now.number 511 ≡ false)) }
{
    if board.number > 511 {
        return Err(PacketFault::State);
    }
    Board::new(board.number)
}

/// Returns the state of the decoder with the fields of `board` after the packet `packet`. Returns
/// `None` if the fields of `board` are not a possible state of a decoder.
fn after(board: &DccBoard, packet: &Packet) -> Option<BoardState>
    ensures decoder { IfSome result
        (λ _. (before : BoardState) × (is_single before ≡ true) × (board.now ≡ board_numbers before)) }
    ensures applies { (before : BoardState) → is_single before ≡ true → board.now ≡ board_numbers before →
        (after : BoardState) × (result ≡ Some after) × (is_single after ≡ true)
        × HasApplied packet.now (board_who before) (board_map before) (board_who after) (board_map after) }
{
    heard(&state_of(board)?, packet)
}

/// Returns the state of a decoder after `packet`, if its state before is `before`. Returns `None`
/// if no decoder can be in the state `before`.
fn heard(before: &BoardState, packet: &Packet) -> Option<BoardState>
    ensures possible { IfSome result (λ _. is_single before.now ≡ true) }
    ensures applies { is_single before.now ≡ true →
        (after : BoardState) × (result ≡ Some after) × (is_single after ≡ true)
        × HasApplied packet.now (board_who before.now) (board_map before.now) (board_who after) (board_map after) }
{
    match PackedBoard::restore(before) {
        Ok(mut decoder) => {
            decoder.apply(packet);
            Some(decoder.state())
        }
        Err(_) => None,
    }
}

/// Returns the C struct with the values of the state `state`.
pub(crate) fn numbers(state: &BoardState) -> DccBoard
    ensures { result ≡ board_numbers state.now }
{
    DccBoard {
        number: state.board.number(),
        outs: state.outs,
        positions: state.positions,
        aspects: state.aspects,
    }
}

/// Returns the state with the values of the C struct `board`. Returns `None` if its address is
/// above 511.
pub(crate) fn state_of(board: &DccBoard) -> Option<BoardState>
    ensures found { (state : BoardState) → board.now ≡ board_numbers state → result ≡ Some state }
    ensures numbers { IfSome result (λ state. board.now ≡ board_numbers state) }
{
    Some(BoardState {
        board: single(board.number)?,
        outs: board.outs,
        positions: board.positions,
        aspects: board.aspects,
    })
}

fn single(number: u16) -> Option<Board>
    ensures found { (board : Board) → number ≡ board.number → result ≡ Some board }
    ensures number { IfSome result (λ board. number ≡ board.number) }
{
    Board::new(number).ok()
}
