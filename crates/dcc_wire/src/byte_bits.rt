//! The bits of half-bits, up to the end of a byte.

use crate::half::bit_of_two;

/// The first bits of a byte, with the zero before the byte.
#[derive(Clone, Copy)]
pub(crate) struct ByteBits {
    /// The number whose lowest bits are these bits.
    pub(crate) shift: u8,
    /// The number of bits, at most 9.
    pub(crate) count: u8,
    /// The number of half-bits that formed bits.
    pub(crate) at: usize,
}

ghost use Rattle.std.specs.Prelude.{◌≡◌, ◌<◌, ◌≤◌, ◌*◌, ◌^◌, ◌++◌, List, Bool, length, map, take};
ghost use Rattle.dcc_wire.specs.Bodies.{bits_of, halves_of};
ghost use Rattle.dcc_wire.specs.Half.{class_of};

/// Appends the bits at the beginning of `halves` to the lowest `count` bits of `shift`, until there
/// are the nine bits of a byte, or no zero comes before the byte. Both numbers are local, so that
/// the compiler keeps them in registers.
#[inline(always)]
pub(crate) fn bits_of_byte(shift: u8, count: u8, halves: &[u16]) -> ByteBits
    requires part { count ≤ 8 }
    requires zero_first { 2 * shift < 2 ^ count }
    ensures bits { (bits : List Bool) × (halves_of bits ≡ map class_of (take result.at halves.now))
        × (bits_of result.count result.shift ≡ bits_of count shift ++ bits) }
    ensures part { result.count ≤ 9 }
    ensures zero_first { 2 * result.shift < 2 ^ result.count }
    ensures count { result.at ≤ length halves.now }
    ensures none { result.at ≡ 0 → (result.count ≡ count) × (result.shift ≡ shift) }
{
    let mut byte = ByteBits {
        shift,
        count,
        at: 0,
    };
    'bits: while byte.count < 9 && byte.at + 1 < halves.len() {
        let Some(bit) = bit_of_two(halves[byte.at], halves[byte.at + 1]) else {
            return byte;
        };
        if bit && byte.count == 0 {
            return byte;
        }
        byte.shift = 2 * byte.shift + u8::from(bit);
        byte.count += 1;
        byte.at += 2;
    }
    byte
}
