//! The effects of a packet as a value.

ghost use Rattle.std.specs.Prelude.{◌≡◌, ◌↔◌, ◌⊎◌, ℕ, None, IsTrue};
ghost use Rattle.dcc_regs.specs.Effects.{Differ, effect_on};
ghost use Rattle.dcc_regs.specs.Inner.EffectParts.{BoardsDiffer, LocosDiffer, NothingAtBoards, NothingAtLocos};
ghost use Rattle.dcc_regs.specs.Sets.{sets};
ghost use Rattle.dcc_regs.specs.Speeds.{direction_set, speed_set};
ghost use Rattle.dcc_regs.specs.declared.register.Register.{Register};

use crate::aspects::Aspects;
use crate::function_bits::functions_set;
use crate::masked::Masked;
use crate::masked_byte::MaskedByte;
use crate::outputs::{aspects_set, outs_set, positions_set};
use crate::register::{Speed, SpeedMode};
use crate::same::same_speed;
use crate::speeds::{direction_set, speed_set};
use crate::states::states_set;
use dcc_packet::Packet;

/// The effects of a packet on the decoders that hear it: the registers that the packet sets, with
/// their values. The effects do not include the bits of the CVs and the pending write.
#[derive(Clone, Copy)]
pub struct Effects {
    /// The speed, or `None` if the packet sets no speed.
    pub speed: Option<Speed>,
    /// The direction, true for forward, or `None` if the packet sets no direction.
    pub direction: Option<bool>,
    /// The functions: bit n is function n, 0 to 68.
    pub functions: Masked,
    /// The binary states: bit n is binary state n, 1 to 127.
    pub states: Masked,
    /// The outputs: bit n is output n, 0 to 7.
    pub outs: MaskedByte,
    /// The positions of the pairs of outputs: bit n is pair n, 0 to 3.
    pub positions: MaskedByte,
    /// The aspects of the signals 0 to 3.
    pub aspects: Aspects,
}

impl Effects {
    /// Returns the effects of a packet on a decoder in speed mode `mode`.
    pub fn of(packet: &Packet, mode: SpeedMode) -> Effects
        ensures { (r : Register) → effect_on result r ≡ sets mode packet.now r }
    {
        Effects {
            speed: effect_on_speed(mode, packet),
            direction: effect_on_direction(packet),
            functions: functions_set(mode, packet),
            states: states_set(packet),
            outs: outs_set(packet),
            positions: positions_set(packet),
            aspects: aspects_set(packet),
        }
    }

    /// Returns true if both effects set some register, to different values.
    pub fn differs_from(&self, other: &Effects) -> bool
        ensures { IsTrue result ↔ ((r : Register) × Differ (effect_on self.now r) (effect_on other.now r)) }
    {
        self.differs_at_locos(other) || self.differs_at_boards(other)
    }

    /// Returns true if both effects set some register of locomotive decoders, to different values.
    fn differs_at_locos(&self, other: &Effects) -> bool
        ensures { IsTrue result ↔ LocosDiffer self.now other.now }
    {
        speeds_differ(self.speed, other.speed)
            || directions_differ(self.direction, other.direction)
            || self.functions.differs_from(&other.functions)
            || self.states.differs_from(&other.states)
    }

    /// Returns true if both effects set some register of accessory decoders, to different values.
    fn differs_at_boards(&self, other: &Effects) -> bool
        ensures { IsTrue result ↔ BoardsDiffer self.now other.now }
    {
        self.outs.differs_from(&other.outs)
            || self.positions.differs_from(&other.positions)
            || self.aspects.differs_from(&other.aspects)
    }

    /// Returns true if the effects set no register.
    pub fn is_nothing(&self) -> bool
        ensures { IsTrue result ↔ ((r : Register) → effect_on self.now r ≡ None) }
    {
        self.is_nothing_at_locos() && self.is_nothing_at_boards()
    }

    /// Returns true if the effects set no register of locomotive decoders.
    fn is_nothing_at_locos(&self) -> bool
        ensures { IsTrue result ↔ NothingAtLocos self.now }
    {
        self.speed.is_none()
            && self.direction.is_none()
            && self.functions.is_nothing()
            && self.states.is_nothing()
    }

    /// Returns true if the effects set no register of accessory decoders.
    fn is_nothing_at_boards(&self) -> bool
        ensures { IsTrue result ↔ NothingAtBoards self.now }
    {
        self.outs.is_nothing() && self.positions.is_nothing() && self.aspects.is_nothing()
    }
}

/// Returns the speed that a packet sets. Returns `None` if the packet sets no speed.
// not inlined, so that `Effects::of` takes less stack
#[inline(never)]
fn effect_on_speed(mode: SpeedMode, packet: &Packet) -> Option<Speed>
    ensures { result ≡ speed_set mode packet.now }
{
    speed_set(mode, packet)
}

/// Returns the direction that a packet sets. Returns `None` if the packet sets no direction.
// not inlined, so that `Effects::of` takes less stack
#[inline(never)]
fn effect_on_direction(packet: &Packet) -> Option<bool>
    ensures { result ≡ direction_set packet.now }
{
    direction_set(packet)
}

/// Returns true if both speeds exist and are different.
fn speeds_differ(a: Option<Speed>, b: Option<Speed>) -> bool
    ensures { IsTrue result ↔ Differ a b }
{
    match (a, b) {
        (Some(a), Some(b)) => !same_speed(a, b),
        _ => false,
    }
}

/// Returns true if both directions exist and are different.
fn directions_differ(a: Option<bool>, b: Option<bool>) -> bool
    ensures { IsTrue result ↔ Differ a b }
{
    match (a, b) {
        (Some(a), Some(b)) => a != b,
        _ => false,
    }
}
