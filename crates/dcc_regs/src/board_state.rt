//! The state of an accessory decoder as plain data.

ghost use Rattle.std.specs.Prelude.{◌≡◌, ℕ, ◌<◌, ◌≤◌, slice_index_or, false};
ghost use Rattle.dcc_packet.specs.Bits.{is_one};

use dcc_packet::Board;

/// The state of an accessory decoder as plain data.
#[derive(Clone, Copy)]
pub struct BoardState {
    /// The address of the decoder.
    pub board: Board,
    /// The outputs: bit n is one if output n, 0 to 7, is on.
    pub outs: u8,
    /// The positions of the four pairs. Element n is true if output 2n + 1 was the last output of
    /// pair n that was turned on.
    pub positions: [bool; 4],
    /// The aspects of the four signals, each 0 to 255.
    pub aspects: [u8; 4],
}

/// Returns an array in which element n is true if bit n of `bits` is one, for the outputs 0 to 7.
pub fn outs_of(bits: u8) -> [bool; 8]
    ensures { (n : ℕ) → n ≤ 7 → slice_index_or result n false ≡ is_one bits n }
{
    let mut outs = [false; 8];
    for n in 0..8 {
        outs[n] = bits >> n & 1 == 1;
    }
    outs
}

/// Returns an array in which element n is true if bit n of `bits` is one, for the pairs 0 to 3.
pub fn sides_of(bits: u8) -> [bool; 4]
    ensures { (n : ℕ) → n ≤ 3 → slice_index_or result n false ≡ is_one bits n }
{
    let mut sides = [false; 4];
    for n in 0..4 {
        sides[n] = bits >> n & 1 == 1;
    }
    sides
}
