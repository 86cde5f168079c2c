//! The state of an accessory decoder with CVs after a packet and after power-up. The caller stores
//! the state and the CVs.

ghost use Rattle.std.specs.Prelude.{◌≡◌, Some, List, ℕ, nat_le, true};
ghost use Rattle.dcc_regs.specs.Board.{board_registers, made};
ghost use Rattle.dcc_regs.specs.BoardState.{board_map, board_who};
ghost use Rattle.dcc_regs.specs.Heard.{hears as is_heard_by};
ghost use Rattle.dcc_regs.specs.Result.{step};
ghost use Rattle.dcc_regs.specs.declared.register.Who.TheVariants.{Board as BoardWho};
ghost use Rattle.dcc_packet.specs.declared.packet.Packet.{Packet};
ghost use Rattle.dcc_track.specs.BoardsWithCvs.{board_on_tracks};
ghost use Rattle.dcc_track.specs.DecoderState.{after_packet, after_power_up, board_in_cvs};

use dcc_packet::{Board, Packet};
use dcc_regs::{BoardState, Decoder, PackedBoard, Who, hears};

/// Returns the state of an accessory decoder that was powered up with the CVs `cvs`. The first
/// byte of `cvs` is CV1. All outputs are off, all positions 0 and all aspects 0.
pub fn board_with_cvs(cvs: &[u8; 1024]) -> BoardState
    ensures board { Some result.board ≡ board_in_cvs cvs.now }
    ensures registers { board_map result ≡ board_registers made }
{
    BoardState {
        board: board_in_cvs(cvs),
        outs: 0,
        positions: [false; 4],
        aspects: [0; 4],
    }
}

/// Returns the state of an accessory decoder after one packet of the main track. The state was
/// `state` before. The decoder ignores a packet that it does not hear. A decoder with the address
/// 511 hears only the packets that each accessory decoder hears.
pub fn board_after_packet(state: &BoardState, packet: &Packet) -> BoardState
    ensures { (cvs : List ℕ) → board_on_tracks result cvs ≡ after_packet (board_on_tracks state.now cvs) packet.now }
{
    if hears(Who::Board(state.board), packet) {
        heard(state, packet)
    } else {
        *state
    }
}

/// Returns the state of an accessory decoder after it has powered up with the CVs `cvs`. The state
/// was `state` before.
pub fn board_after_power_up(state: &BoardState, cvs: &[u8; 1024]) -> BoardState
    ensures { board_on_tracks result cvs.now ≡ after_power_up (board_on_tracks state.now cvs.now) }
{
    let mut after = *state;
    after.board = board_in_cvs(cvs);
    after.outs = 0;
    after
}

/// Returns the address in the CVs `cvs`: the lower six bits of CV1, and the lower three bits of
/// CV9 above them (NMRA S-9.2.2).
fn board_in_cvs(cvs: &[u8; 1024]) -> Board
    ensures { Some result ≡ board_in_cvs cvs.now }
{
    match Board::new(u16::from(cvs[8] % 8) * 64 + u16::from(cvs[0] % 64)) {
        Ok(board) => board,
        Err(_) => unreachable!(),
    }
}

/// Returns the address `board`, or the address 0 if `board` is 511. A decoder with this address
/// hears each packet that a decoder with the address `board` hears.
fn hearing_address(board: Board) -> Board
    ensures few { nat_le result.number 510 ≡ true }
    ensures hears { (p : Packet) → is_heard_by (BoardWho board) p ≡ true → is_heard_by (BoardWho result) p ≡ true }
{
    match Board::new(board.number() % 511) {
        Ok(board) => board,
        Err(_) => unreachable!(),
    }
}

/// Returns the state of an accessory decoder after a packet that it hears. The state was `state`
/// before.
fn heard(state: &BoardState, packet: &Packet) -> BoardState
    requires { is_heard_by (board_who state.now) packet.now ≡ true }
    ensures board { result.board ≡ state.now.board }
    ensures registers { board_map result ≡ step (board_who state.now) (board_map state.now) packet.now }
{
    let mut own = *state;
    own.board = hearing_address(state.board);
    match PackedBoard::restore(&own) {
        Ok(mut decoder) => {
            decoder.apply(packet);
            let mut after = decoder.state();
            after.board = state.board;
            after
        }
        Err(_) => unreachable!(),
    }
}
