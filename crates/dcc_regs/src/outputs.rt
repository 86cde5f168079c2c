//! Functions that return the outputs, positions and aspects that a packet sets in an accessory
//! decoder (RCN-213).

ghost use Rattle.std.specs.Prelude.{◌≡◌, ℕ, ◌&&◌, ◌||◌, ◌==◌, ◌%◌, nat_le};
ghost use Rattle.dcc_packet.specs.Bits.{is_one};
ghost use Rattle.dcc_regs.specs.Effects.{masked_bit, where_one};
ghost use Rattle.dcc_regs.specs.Outputs as table;

use crate::aspects::Aspects;
use crate::masked_byte::MaskedByte;
use dcc_packet::{Address, Packet, What};

/// Returns the outputs that a packet sets. Bit n is output n, 0 to 7.
pub fn outs_set(packet: &Packet) -> MaskedByte
    ensures { (n : ℕ) → masked_bit result.mask result.bits n ≡ table.out_set packet.now n }
{
    match packet {
        Packet::Loco {
            to: Address::Broadcast,
            what: What::Reset,
        } => MaskedByte::new(255, false),
        Packet::Accessory { output, on, .. } => MaskedByte::new(1 << output.number(), *on),
        _ => MaskedByte::nothing(),
    }
}

/// Returns the positions that a packet sets. Bit n is the pair of the outputs 2n and 2n + 1, and is
/// one if the packet turns output 2n + 1 on.
pub fn positions_set(packet: &Packet) -> MaskedByte
    ensures { (n : ℕ) → masked_bit result.mask result.bits n ≡ table.position_set packet.now n }
{
    match packet {
        Packet::Accessory {
            output,
            on: true,
            ..
        } => {
            let output = output.number();
            MaskedByte::new(1 << output / 2, output % 2 == 1)
        }
        _ => MaskedByte::nothing(),
    }
}

/// Returns a byte in which bit n is one if `address` is the address of signal n of a board, 0 to 3,
/// or the broadcast 2047.
fn signals_of(address: u16) -> u8
    ensures { (n : ℕ) → is_one result n ≡ ((address == 2047 && nat_le n 3) || n == address % 4) }
{
    if address == 2047 {
        15
    } else {
        1 << (address % 4)
    }
}

/// Returns the aspects that a packet sets. Bit n is signal n of a board, 0 to 3.
pub fn aspects_set(packet: &Packet) -> Aspects
    ensures { (n : ℕ) → where_one result.mask result.aspect n ≡ table.aspect_set packet.now n }
{
    match packet {
        Packet::Signal { address, aspect } => {
            Aspects {
                mask: signals_of(address.number()),
                aspect: *aspect,
            }
        }
        _ => Aspects::nothing(),
    }
}
