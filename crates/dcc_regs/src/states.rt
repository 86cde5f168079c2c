//! Functions that return the binary states that a packet turns on and off (RCN-212, short form).

ghost use Rattle.std.specs.Prelude.{◌≡◌, ℕ, ◌≤◌, ◌&&◌, ◌||◌, ◌==◌};
ghost use Rattle.dcc_packet.specs.Bits.{is_one};
ghost use Rattle.dcc_regs.specs.Effects.{masked_bit};
ghost use Rattle.dcc_regs.specs.States as table;

use crate::masked::Masked;
use dcc_packet::{Packet, What};

/// Returns a word in which bit n is one if `number` stands for binary state n. The number 0 stands
/// for the states 1 to 127, and any other number for the state with this number.
fn state_mask(number: u8) -> u128
    requires { number ≤ 127 }
    ensures { (n : ℕ) → is_one result n ≡ (table.is_binary_state n && (number == 0 || n == number)) }
{
    if number == 0 {
        u128::MAX - 1
    } else {
        1 << number
    }
}

/// Returns the binary states that a packet sets. Bit n is binary state n, 1 to 127.
#[inline(always)]
pub fn states_set(packet: &Packet) -> Masked
    ensures { (n : ℕ) → masked_bit result.mask result.bits n ≡ table.state_set packet.now n }
{
    match packet {
        Packet::Loco {
            what: What::Reset,
            ..
        } => Masked::new(state_mask(0), false),
        Packet::Loco {
            what: What::BinaryState { number, on },
            ..
        } => Masked::new(state_mask(number.number()), *on),
        _ => Masked::nothing(),
    }
}
