//! A custom accessory decoder with fields of its own. All theorems about decoders hold for this
//! type.

ghost use Rattle.std.specs.Prelude.{◌≡◌, ◌<◌, ℕ, nat_le, slice_index, true};
ghost use Rattle.dcc_order.specs.Fleets.{EachHearsHalves};
ghost use Rattle.dcc_order.specs.Hearing.{whole_track};

use dcc_order::hear_track;
use dcc_packet::{Address, Board, Packet, What};
use dcc_regs::{Decoder, Register, Value, Who, hears, laws};

/// An accessory decoder. Element n of `sides` is true if output 2n + 1 was the last output of pair
/// n that was turned on.
#[derive(Drop)]
pub struct OwnBoard {
    pub board: Board,
    pub outs: [bool; 8],
    pub sides: [bool; 4],
    pub aspects: [u8; 4],
    ghost is_board: { nat_le board.number 510 ≡ true },
    ghost are_bytes: { (n : ℕ) → slice_index aspects n < 256 },
}

impl OwnBoard {
    ghost use Rattle.dcc_regs.specs.Board.{TakesPacket};
    ghost use Rattle.dcc_examples.specs.OwnBoard.{own_content};

    /// Applies a packet that the decoder hears. An output that is turned on sets the element of its
    /// pair in `sides`.
    fn take(&mut self, packet: &Packet)
        ensures takes { TakesPacket packet.now (own_content self.old) (own_content self.new) }
        ensures same { self.new.board ≡ self.old.board }
    {
        match packet {
            Packet::Accessory { output, on, .. } => {
                let output = output.number();
                self.outs[output as usize] = *on;
                if *on {
                    self.sides[output as usize / 2] = output % 2 == 1;
                }
            }
            Packet::Signal { address, aspect } => {
                if address.number() == 2047 {
                    self.aspects = [*aspect; 4];
                } else {
                    self.aspects[address.number() as usize % 4] = *aspect;
                }
            }
            Packet::Loco {
                to: Address::Broadcast,
                what: What::Reset,
            } => self.outs = [false; 8],
            _ => (),
        }
    }
}

impl Decoder for OwnBoard {
    ghost use Rattle.dcc_regs.specs.Board.{board_registers};
    ghost use Rattle.dcc_regs.specs.declared.register.Who.TheVariants.{Board as BoardWho};
    ghost use Rattle.dcc_examples.specs.OwnBoard.{own_content};

    ghost who = { λ d. BoardWho d.board };

    ghost registers = { λ d. board_registers (own_content d) };

    fn who(&self) -> Who {
        laws::boards_take_packets();
        Who::Board(self.board)
    }

    fn apply(&mut self, packet: &Packet) {
        laws::boards_take_packets();
        if hears(Who::Board(self.board), packet) {
            self.take(packet);
        }
    }

    fn get(&self, register: Register) -> Option<Value> {
        match register {
            Register::Out(n) if n <= 7 => Some(Value::Flag(self.outs[n as usize])),
            Register::Position(n) if n <= 3 => Some(Value::Number(self.sides[n as usize] as u8)),
            Register::Aspect(n) if n <= 3 => Some(Value::Number(self.aspects[n as usize])),
            _ => None,
        }
    }
}

/// Lets a fleet of these decoders hear a track, which can come in pieces. After the call each
/// decoder has the result of the packets that it hears.
pub fn hear(boards: &mut [OwnBoard], pieces: &[&[u16]])
    ensures { EachHearsHalves ⟦<OwnBoard as Decoder>⟧.who ⟦<OwnBoard as Decoder>⟧.registers (whole_track pieces.now)
        boards.old boards.new }
{
    hear_track(boards, pieces);
}
