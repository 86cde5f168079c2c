//! A function that sets the registers of a locomotive decoder in the fields of its C struct.

ghost use Rattle.std.specs.Prelude.{◌≡◌, ◌≤◌, ◌<◌, ◌^◌, ℕ, unwrap_or};
ghost use Rattle.dcc_packet.specs.Bits.{is_one};
ghost use Rattle.dcc_regs.specs.declared.loco_registers.LocoRegisters.{LocoRegisters};
ghost use Rattle.dcc_regs.specs.declared.register.Speed.{Speed};
ghost use Rattle.dcc_regs.specs.Effects.{masked_bit};
ghost use Rattle.dcc_c.specs.Inner.HeardLocos.{AreSet};
ghost use Rattle.dcc_c.specs.Locos.{register_numbers, speed_mode as mode_number, speed_step as step_number};
ghost use Rattle.dcc_c.specs.Locos.{words_of as words_in};

use crate::loco_numbers::{DccLocoRegisters, bits_of, speed_mode, speed_step, words_of};
use dcc_packet::Packet;
use dcc_regs::{
    Masked, Speed, SpeedMode, direction_set, functions_in, functions_set, speed_set, states_set,
};

/// Sets the speed, the direction, the functions and the binary states that a heard packet sets. The
/// parameter `mode` is the speed mode before the packet.
#[inline(always)]
pub(crate) fn set_registers(numbers: &mut DccLocoRegisters, mode: SpeedMode, packet: &Packet)
    ensures { (before : LocoRegisters) → before.functions < 2 ^ 69 → numbers.old ≡ register_numbers before
        → AreSet mode packet.now before numbers.new }
{
    put_speed(numbers, &speed_set(mode, packet));
    numbers.forward = direction_set(packet).unwrap_or(numbers.forward);
    set_functions(&mut numbers.functions, &functions_set(mode, packet));
    set_states(&mut numbers.states, &states_set(packet));
}

/// Writes a speed that a packet sets. `None` changes nothing.
#[inline(always)]
fn put_speed(numbers: &mut DccLocoRegisters, speed: &Option<Speed>)
    ensures { (old : Speed) → numbers.old.speed_mode ≡ mode_number old → numbers.old.step ≡ step_number old
        → numbers.new ≡ record numbers.old {
          speed_mode = mode_number (unwrap_or speed.now old);
          step = step_number (unwrap_or speed.now old);
        } }
{
    if let Some(speed) = speed {
        numbers.speed_mode = speed_mode(*speed);
        numbers.step = speed_step(*speed);
    }
}

/// Sets the functions that a packet sets.
#[inline(always)]
fn set_functions(words: &mut [u64; 2], set: &Masked)
    ensures { (old : ℕ) → words.old ≡ words_in old → old < 2 ^ 69 → (new : ℕ) × (words.new ≡ words_in new)
        × (new < 2 ^ 69)
        × ((n : ℕ) → n ≤ 68 → is_one new n ≡ unwrap_or (masked_bit set.now.mask set.now.bits n) (is_one old n)) }
{
    if set.is_nothing() {
        return;
    }
    let functions = functions_in(set.over(bits_of(words)));
    *words = words_of(functions);
}

/// Sets the binary states that a packet sets.
#[inline(always)]
fn set_states(words: &mut [u64; 2], set: &Masked)
    ensures { (old : ℕ) → words.old ≡ words_in old → (new : ℕ) × (words.new ≡ words_in new)
        × ((n : ℕ) → is_one new n ≡ unwrap_or (masked_bit set.now.mask set.now.bits n) (is_one old n)) }
{
    if set.is_nothing() {
        return;
    }
    let states = set.over(bits_of(words));
    *words = words_of(states);
}
