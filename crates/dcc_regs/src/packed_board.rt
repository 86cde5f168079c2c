//! An accessory decoder that stores its outputs and positions as bits of two bytes.
ghost use Rattle.std.specs.Prelude.{◌≡◌, ℕ, ◌<◌, ◌≤◌, ◌↔◌, unwrap_or, slice_index_or, false, true, nat_le, IsOk};
ghost use Rattle.std.specs.Prelude.{IfOk, IfErr};

use crate::board::{are_bytes, set_aspects};
use crate::board_state::{BoardState, sides_of};
use crate::decoder::Decoder;
use crate::heard::hears;
use crate::loco_state::packed;
use crate::outputs::{outs_set, positions_set};
use crate::register::{Register, Value, Who};
use dcc_packet::{Board, Packet, PacketFault};

/// An accessory decoder with the contract of `BoardDecoder`. Bit n of `outs` is output n. Bit n of
/// `positions`, 0 to 3, is one if output 2n + 1 was the last output of pair n that was turned on.
#[derive(Drop)]
pub struct PackedBoard {
    board: Board,
    outs: u8,
    positions: u8,
    aspects: [u8; 4],
    ghost is_board: { nat_le board.number 510 ≡ true },
}

impl PackedBoard {
    ghost use Rattle.dcc_regs.specs.BoardState.{board_map, board_who};
    ghost use Rattle.dcc_regs.specs.Board.{board_powered_up, board_registers, made};
    ghost use Rattle.dcc_regs.specs.declared.register.Who.TheVariants.{Board as BoardWho};

    /// Creates an accessory decoder with all outputs off, all positions 0 and all aspects 0.
    ///
    /// Errors: P3 if the address is 511, which is the broadcast.
    pub fn new(board: Board) -> Result<PackedBoard, PacketFault>
        ensures valid { IsOk result ↔ (nat_le board.number 510 ≡ true) }
        ensures fault { IfErr result (λ fault. fault ≡ PacketFault.Board) }
        ensures who { IfOk result (λ d. ⟦<PackedBoard as Decoder>⟧.who d ≡ BoardWho board) }
        ensures registers { IfOk result (λ d. ⟦<PackedBoard as Decoder>⟧.registers d ≡ board_registers made) }
    {
        if board.number() <= 510 {
            Ok(PackedBoard {
                board,
                outs: 0,
                positions: 0,
                aspects: [0; 4],
            })
        } else {
            Err(PacketFault::Board)
        }
    }

    /// Creates the decoder with the state `state`.
    ///
    /// Errors: P3 if the address is 511, which is the broadcast.
    pub fn restore(state: &BoardState) -> Result<PackedBoard, PacketFault>
        ensures valid { IsOk result ↔ (nat_le state.now.board.number 510 ≡ true) }
        ensures fault { IfErr result (λ fault. fault ≡ PacketFault.Board) }
        ensures who { IfOk result (λ d. ⟦<PackedBoard as Decoder>⟧.who d ≡ board_who state.now) }
        ensures registers { IfOk result (λ d. ⟦<PackedBoard as Decoder>⟧.registers d ≡ board_map state.now) }
    {
        if state.board.number() <= 510 {
            Ok(PackedBoard {
                board: state.board,
                outs: state.outs,
                positions: packed(&state.positions) as u8,
                aspects: state.aspects,
            })
        } else {
            Err(PacketFault::Board)
        }
    }

    /// Returns the state of the decoder as plain data. For this state `restore` returns an equal
    /// decoder.
    pub fn state(&self) -> BoardState
        ensures possible { nat_le result.board.number 510 ≡ true }
        ensures who { ⟦<PackedBoard as Decoder>⟧.who self.now ≡ board_who result }
        ensures registers { ⟦<PackedBoard as Decoder>⟧.registers self.now ≡ board_map result }
    {
        BoardState {
            board: self.board,
            outs: self.outs,
            positions: sides_of(self.positions),
            aspects: self.aspects,
        }
    }

    /// Powers the decoder up: all outputs are off, and positions and aspects do not change.
    pub fn power_up(&mut self)
        ensures who { ⟦<PackedBoard as Decoder>⟧.who self.new ≡ ⟦<PackedBoard as Decoder>⟧.who self.old }
        ensures registers { ⟦<PackedBoard as Decoder>⟧.registers self.new ≡ board_powered_up
            (⟦<PackedBoard as Decoder>⟧.registers self.old) }
    {
        self.outs = 0;
    }
}

impl Decoder for PackedBoard {
    ghost use Rattle.dcc_regs.specs.PackedBoard.{packed_content};
    ghost use Rattle.dcc_regs.specs.Board.{board_registers};
    ghost use Rattle.dcc_regs.specs.declared.register.Who.TheVariants.{Board as BoardWho};

    ghost who = { λ d. BoardWho d.board };

    ghost registers = { λ d. board_registers (packed_content d) };

    fn who(&self) -> Who {
        are_bytes(&self.aspects);
        Who::Board(self.board)
    }

    // inlined, since a call of its own takes 16 bytes of stack more
    #[inline(always)]
    fn apply(&mut self, packet: &Packet) {
        if hears(self.who(), packet) {
            self.outs = outs_set(packet).over(self.outs);
            self.positions = positions_set(packet).over(self.positions);
            set_aspects(&mut self.aspects, packet);
        }
    }

    fn get(&self, register: Register) -> Option<Value> {
        match register {
            Register::Out(n) if n <= 7 => Some(Value::Flag(self.outs >> n & 1 == 1)),
            Register::Position(n) if n <= 3 => Some(Value::Number(self.positions >> n & 1)),
            Register::Aspect(n) if n <= 3 => Some(Value::Number(self.aspects[n as usize])),
            _ => None,
        }
    }
}
