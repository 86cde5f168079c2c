//! The trait of decoders, with its contract.

ghost use Rattle.std.specs.Prelude.{◌≡◌, ◌≤◌, Option, None, false, if◌then◌else◌};
ghost use Rattle.dcc_regs.specs.Heard.{hears};
ghost use Rattle.dcc_regs.specs.Loco.{cv_held, holds_one};
ghost use Rattle.dcc_regs.specs.Possible.{IsPossible};
ghost use Rattle.dcc_regs.specs.Result.{step};
ghost use Rattle.dcc_regs.specs.Setting.{set_from};
ghost use Rattle.dcc_regs.specs.declared.register.Register.{Register};
ghost use Rattle.dcc_regs.specs.declared.register.Value.{Value};
ghost use Rattle.dcc_regs.specs.declared.register.Who.{Who};

use crate::register::{Register, Value, Who};
use dcc_packet::Packet;

/// A decoder. The meaning of a decoder is its kind and address, and a map from registers to values.
pub trait Decoder: Drop {
    /// The kind of the decoder and its active address.
    ghost who: { Self → Who };

    /// The value of each register, or `None` if the decoder has no such register.
    ghost registers: { Self → Register → Option Value };

    /// Returns the kind and the active address of the decoder. `restore` accepts this address.
    fn who(&self) -> Who
        ensures who { result ≡ who self.now }
        ensures possible { IsPossible (who self.now) (registers self.now) };

    /// Applies one packet. The decoder ignores a packet that it does not hear.
    fn apply(&mut self, packet: &Packet)
        ensures same_who { who self.new ≡ who self.old }
        ensures step { registers self.new ≡ step (who self.old) (registers self.old) packet.now }
        ensures unheard { hears (who self.old) packet.now ≡ false → registers self.new ≡ registers self.old }
        ensures kept { (r : Register) → set_from (registers self.old) packet.now r ≡ None
            → registers self.new r ≡ registers self.old r };

    /// Returns the value of a register. Returns `None` if the decoder has no such register.
    fn get(&self, register: Register) -> Option<Value>
        ensures { result ≡ registers self.now register };

    /// Returns the byte of a CV, whose bits are eight registers. A bit counts as 0 if the decoder
    /// does not have its register. The default body calls `get` for each bit. A decoder that stores
    /// bytes can return the byte directly.
    fn cv_byte(&self, cv: u16) -> u8
        ensures { result ≡ cv_held (registers self.now) cv }
    {
        weight(self.get(Register::CvBit(cv, 0)), 1)
            + weight(self.get(Register::CvBit(cv, 1)), 2)
            + weight(self.get(Register::CvBit(cv, 2)), 4)
            + weight(self.get(Register::CvBit(cv, 3)), 8)
            + weight(self.get(Register::CvBit(cv, 4)), 16)
            + weight(self.get(Register::CvBit(cv, 5)), 32)
            + weight(self.get(Register::CvBit(cv, 6)), 64)
            + weight(self.get(Register::CvBit(cv, 7)), 128)
    }
}

/// Returns `weight` if `value` is a bit that is one, otherwise 0.
fn weight(value: Option<Value>, weight: u8) -> u8
    ensures value { result ≡ (if holds_one value then weight else 0) }
    ensures at_most { result ≤ weight }
{
    match value {
        Some(Value::Flag(true)) => weight,
        _ => 0,
    }
}
