//! The state of a locomotive decoder as plain data.

ghost use Rattle.std.specs.Prelude.{◌≡◌, ℕ, ◌<◌, ◌≤◌, ◌^◌, ◌%◌, length, slice_index_or, false};
ghost use Rattle.dcc_packet.specs.Bits.{is_one};

use crate::loco_registers::LocoRegisters;
use crate::register::Speed;
use dcc_packet::{Address, Packet};

/// The state of a locomotive decoder as plain data.
#[derive(Clone, Copy)]
pub struct LocoState {
    /// The active address, or `None` if the decoder has no address.
    pub address: Option<Address>,
    /// The speed of the locomotive.
    pub speed: Speed,
    /// True if the direction is forward.
    pub forward: bool,
    /// The functions: bit n is one if function n, 0 to 68, is on.
    pub functions: u128,
    /// The binary states: bit n is one if binary state n, 1 to 127, is on. Bit 0 of `states` is
    /// unused.
    pub states: u128,
    /// The pending write, which is the last packet that the decoder heard if this packet is a CV
    /// write to the active address.
    pub pending: Option<Packet>,
    /// The values of CV1 to CV1024. The first byte of `cvs` is CV1.
    pub cvs: [u8; 1024],
}

impl LocoState {
    ghost use Rattle.dcc_regs.specs.LocoRegisters.{registers_in};
    ghost use Rattle.dcc_regs.specs.LocoState.{is_state};

    /// Returns true if a decoder can be in this state.
    pub fn is_possible(&self) -> bool
        ensures { result ≡ is_state self.now }
    {
        self.registers().is_possible()
    }

    /// Returns the registers of the state without the CVs.
    pub fn registers(&self) -> LocoRegisters
        ensures { result ≡ registers_in self.now }
    {
        LocoRegisters {
            address: self.address,
            speed: self.speed,
            forward: self.forward,
            functions: self.functions,
            states: self.states,
            pending: self.pending,
        }
    }
}

/// Returns an array in which element n is true if bit n of `bits` is one, for the functions 0 to
/// 68.
pub fn functions_of(bits: u128) -> [bool; 69]
    ensures { (n : ℕ) → n ≤ 68 → slice_index_or result n false ≡ is_one bits n }
{
    let mut functions = [false; 69];
    for n in 0..69 {
        functions[n] = bits >> n & 1 == 1;
    }
    functions
}

/// Returns an array in which element n is true if bit n of `bits` is one, for the binary states.
pub fn states_of(bits: u128) -> [bool; 128]
    ensures { (n : ℕ) → n ≤ 127 → slice_index_or result n false ≡ is_one bits n }
{
    let mut states = [false; 128];
    for n in 0..128 {
        states[n] = bits >> n & 1 == 1;
    }
    states
}

/// Returns the number in which bit n is one if element n of `flags` is true.
pub fn packed(flags: &[bool]) -> u128
    requires { length flags.now ≤ 128 }
    ensures bits { (n : ℕ) → n < length flags.now → is_one result n ≡ slice_index_or flags.now n false }
    ensures small { result < 2 ^ length flags.now }
{
    let mut bits = 0;
    for n in 0..flags.len() {
        bits |= (flags[n] as u128) << n;
    }
    bits
}

/// Returns the number with the bits of F0 to F68, and with all other bits 0.
pub fn functions_in(bits: u128) -> u128
    ensures bits { (n : ℕ) → n ≤ 68 → is_one result n ≡ is_one bits n }
    ensures small { result < 2 ^ 69 }
{
    bits & ((1 << 69) - 1)
}

/// Returns the number with the bits of binary states 1 to 127, and with bit 0 equal to 0.
pub fn states_in(bits: u128) -> u128
    ensures bits { (n : ℕ) → 1 ≤ n → is_one result n ≡ is_one bits n }
    ensures even { result % 2 ≡ 0 }
{
    bits - bits % 2
}
