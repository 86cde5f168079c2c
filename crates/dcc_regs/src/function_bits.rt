//! Functions that return the functions of a decoder that a packet turns on and off (RCN-212, NMRA
//! S-9.2.1).

ghost use Rattle.std.specs.Prelude.{◌≡◌, ℕ, ◌≤◌, ◌^◌, ◌-◌, Some, None, if◌then◌else◌};
ghost use Rattle.dcc_regs.specs.Effects.{masked_bit};
ghost use Rattle.dcc_regs.specs.FunctionBits as table;

use crate::masked::Masked;
use crate::register::SpeedMode;
use dcc_packet::{Address, Group, GroupBits, Packet, What};

/// Returns the function of the lowest bit of a group (NMRA S-9.2.1, RCN-212). For the group of F0
/// this function is F1, since the highest bit of the group is F0.
pub fn first_function(group: Group) -> u8
    ensures first { result ≡ (table.group_functions group).0 }
    ensures small { result ≤ 61 }
{
    match group {
        Group::F0 => 1,
        Group::F5 => 5,
        Group::F9 => 9,
        Group::F13 => 13,
        Group::F21 => 21,
        Group::F29 => 29,
        Group::F37 => 37,
        Group::F45 => 45,
        Group::F53 => 53,
        Group::F61 => 61,
    }
}

/// Returns a byte with a one for each bit of a group that is a function other than F0.
pub fn ones_of(group: Group) -> u8
    ensures { result ≡ 2 ^ (table.group_functions group).1 - 1 }
{
    match group {
        Group::F0 | Group::F5 | Group::F9 => 15,
        _ => 255,
    }
}

/// Returns true if a bit of `group` is F0 in speed mode `mode`.
fn has_f0(mode: SpeedMode, group: Group) -> bool
    ensures { table.function_place mode group 0 ≡ (if result then Some 4 else None) }
{
    matches!((mode, group), (SpeedMode::Steps28, Group::F0))
}

/// Returns the functions that `bits`, the bits of a function group, set in speed mode `mode`.
#[inline(always)]
fn group_set(mode: SpeedMode, bits: GroupBits) -> Masked
    ensures { (n : ℕ) → masked_bit result.mask result.bits n ≡ table.group_bit mode bits n }
{
    let group = bits.group();
    let first = first_function(group);
    let f0 = u128::from(has_f0(mode, group));
    Masked {
        mask: u128::from(ones_of(group)) << first | f0,
        bits: u128::from(bits.bits()) << first | u128::from(bits.bits() >> 4) & f0,
    }
}

/// Returns the functions that a packet sets. Bit n is function n, 0 to 68.
#[inline(always)]
pub fn functions_set(mode: SpeedMode, packet: &Packet) -> Masked
    ensures { (n : ℕ) → masked_bit result.mask result.bits n ≡ table.function_set mode packet.now n }
{
    let Packet::Loco { to, what } = packet else {
        return Masked::nothing();
    };
    match (what, to, mode) {
        (What::Reset, _, _) => Masked::new((1 << 69) - 1, false),
        (What::Speed28 { .. }, Address::Broadcast, _) => Masked::nothing(),
        (What::Speed28 { bits, .. }, _, SpeedMode::Steps14) => {
            Masked::new(1, bits.bits() % 2 == 1)
        }
        (What::Functions(bits), _, _) => group_set(mode, *bits),
        _ => Masked::nothing(),
    }
}
