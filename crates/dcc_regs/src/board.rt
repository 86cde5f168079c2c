//! An accessory decoder that stores its outputs and positions as truth values.
ghost use Rattle.std.specs.Prelude.{◌≡◌, ℕ, ◌<◌, ◌≤◌, ◌↔◌, unwrap_or, slice_index, slice_index_or, false, true};
ghost use Rattle.std.specs.Prelude.{nat_le, IsOk, IfOk, IfErr, ◌≢◌};
ghost use Rattle.dcc_regs.specs.Outputs as table;

use crate::board_state::{BoardState, outs_of, sides_of};
use crate::decoder::Decoder;
use crate::heard::hears;
use crate::loco_state::packed;
use crate::outputs::{aspects_set, outs_set, positions_set};
use crate::register::{Register, Value, Who};
use dcc_packet::{Board, Packet, PacketFault};

/// An accessory decoder. Element n of `positions` is true if output 2n + 1 was the last output of
/// pair n that was turned on.
#[derive(Drop)]
pub struct BoardDecoder {
    board: Board,
    outs: [bool; 8],
    positions: [bool; 4],
    aspects: [u8; 4],
    ghost is_board: { nat_le board.number 510 ≡ true },
}

impl BoardDecoder {
    ghost use Rattle.dcc_regs.specs.BoardState.{board_map, board_who};
    ghost use Rattle.dcc_regs.specs.Board.{board_powered_up, board_registers, made};
    ghost use Rattle.dcc_regs.specs.declared.register.Who.TheVariants.{Board as BoardWho};

    /// Creates an accessory decoder with all outputs off, all positions false and all aspects 0.
    ///
    /// Errors: P3 if the address is 511, which is the broadcast.
    pub fn new(board: Board) -> Result<BoardDecoder, PacketFault>
        ensures valid { IsOk result ↔ (nat_le board.number 510 ≡ true) }
        ensures fault { IfErr result (λ fault. fault ≡ PacketFault.Board) }
        ensures who { IfOk result (λ d. ⟦<BoardDecoder as Decoder>⟧.who d ≡ BoardWho board) }
        ensures registers { IfOk result (λ d. ⟦<BoardDecoder as Decoder>⟧.registers d ≡ board_registers made) }
    {
        if board.number() <= 510 {
            Ok(BoardDecoder {
                board,
                outs: [false; 8],
                positions: [false; 4],
                aspects: [0; 4],
            })
        } else {
            Err(PacketFault::Board)
        }
    }

    /// Creates the decoder with the state `state`.
    ///
    /// Errors: P3 if the address is 511, which is the broadcast.
    pub fn restore(state: &BoardState) -> Result<BoardDecoder, PacketFault>
        ensures valid { IsOk result ↔ (nat_le state.now.board.number 510 ≡ true) }
        ensures fault { IfErr result (λ fault. fault ≡ PacketFault.Board) }
        ensures who { IfOk result (λ d. ⟦<BoardDecoder as Decoder>⟧.who d ≡ board_who state.now) }
        ensures registers { IfOk result (λ d. ⟦<BoardDecoder as Decoder>⟧.registers d ≡ board_map state.now) }
    {
        if state.board.number() <= 510 {
            Ok(BoardDecoder {
                board: state.board,
                outs: outs_of(state.outs),
                positions: state.positions,
                aspects: state.aspects,
            })
        } else {
            Err(PacketFault::Board)
        }
    }

    /// Returns the state of the decoder as plain data. For this state `restore` returns an equal
    /// decoder.
    pub fn state(&self) -> BoardState
        ensures possible { nat_le result.board.number 510 ≡ true }
        ensures who { ⟦<BoardDecoder as Decoder>⟧.who self.now ≡ board_who result }
        ensures registers { ⟦<BoardDecoder as Decoder>⟧.registers self.now ≡ board_map result }
    {
        BoardState {
            board: self.board,
            outs: packed(&self.outs) as u8,
            positions: self.positions,
            aspects: self.aspects,
        }
    }

    /// Powers the decoder up: all outputs are off, and positions and aspects do not change.
    pub fn power_up(&mut self)
        ensures who { ⟦<BoardDecoder as Decoder>⟧.who self.new ≡ ⟦<BoardDecoder as Decoder>⟧.who self.old }
        ensures registers { ⟦<BoardDecoder as Decoder>⟧.registers self.new ≡ board_powered_up
            (⟦<BoardDecoder as Decoder>⟧.registers self.old) }
    {
        self.outs = [false; 8];
    }
}

/// Sets each aspect that a heard packet sets.
pub fn set_aspects(aspects: &mut [u8; 4], packet: &Packet)
    ensures { (n : ℕ) → n ≤ 3
        → slice_index aspects.new n ≡ unwrap_or (table.aspect_set packet.now n) (slice_index aspects.old n) }
{
    let set = aspects_set(packet);
    for n in 0..4u8 {
        let at = n as usize;
        aspects[at] = set.at(n).unwrap_or(aspects[at]);
    }
}

/// Lemma: the aspects are below 256. The function does nothing at run time.
pub fn are_bytes(aspects: &[u8])
    ensures { (n : ℕ) → slice_index aspects.now n < 256 }
{}

impl Decoder for BoardDecoder {
    ghost use Rattle.dcc_regs.specs.BoardDecoder.{board_content};
    ghost use Rattle.dcc_regs.specs.Board.{board_registers};
    ghost use Rattle.dcc_regs.specs.declared.register.Who.TheVariants.{Board as BoardWho};

    ghost who = { λ d. BoardWho d.board };

    ghost registers = { λ d. board_registers (board_content d) };

    fn who(&self) -> Who {
        are_bytes(&self.aspects);
        Who::Board(self.board)
    }

    fn apply(&mut self, packet: &Packet) {
        if hears(self.who(), packet) {
            self.outs = outs_of(outs_set(packet).over(packed(&self.outs) as u8));
            self.positions = sides_of(positions_set(packet).over(packed(&self.positions) as u8));
            set_aspects(&mut self.aspects, packet);
        }
    }

    fn get(&self, register: Register) -> Option<Value> {
        match register {
            Register::Out(n) if n <= 7 => Some(Value::Flag(self.outs[n as usize])),
            Register::Position(n) if n <= 3 => Some(Value::Number(
                self.positions[n as usize] as u8,
            )),
            Register::Aspect(n) if n <= 3 => Some(Value::Number(self.aspects[n as usize])),
            _ => None,
        }
    }
}
