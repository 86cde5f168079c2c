//! Functions that return true if two packets conflict.

ghost use Rattle.std.specs.Prelude.{◌≡◌, ◌↔◌, IsTrue};
ghost use Rattle.dcc_regs.specs.Conflict.{Conflict};
ghost use Rattle.dcc_regs.specs.Inner.ConflictParts.{DifferIn};
ghost use Rattle.dcc_regs.specs.Sets.{SetsNothing};
ghost use Rattle.dcc_regs.specs.declared.register.SpeedMode.{SpeedMode};

use crate::effects::Effects;
use crate::hearers::heard_together;
use crate::register::SpeedMode;
use dcc_packet::Packet;

/// Returns true if, in speed mode `mode`, the packets `p` and `q` set a register to different
/// values.
fn differ_in(mode: SpeedMode, p: &Packet, q: &Packet) -> bool
    ensures { IsTrue result ↔ DifferIn mode p.now q.now }
{
    Effects::of(p, mode).differs_from(&Effects::of(q, mode))
}

/// Returns true if, in one of the two speed modes, the packets `p` and `q` set a register to
/// different values.
fn differ_in_some_mode(p: &Packet, q: &Packet) -> bool
    ensures { IsTrue result ↔ ((mode : SpeedMode) × DifferIn mode p.now q.now) }
{
    differ_in(SpeedMode::Steps28, p, q) || differ_in(SpeedMode::Steps14, p, q)
}

/// Returns true if two packets conflict: some decoder hears both packets and, in one of the two
/// speed modes, the packets set a register to different values. A CV access conflicts with no
/// packet.
pub fn conflict(p: &Packet, q: &Packet) -> bool
    ensures { IsTrue result ↔ Conflict p.now q.now }
{
    heard_together(p, q) && differ_in_some_mode(p, q)
}

/// Returns true if, in both speed modes, a packet sets no plain register. Such a packet conflicts
/// with no packet.
pub fn sets_nothing(packet: &Packet) -> bool
    ensures { IsTrue result ↔ SetsNothing packet.now }
{
    Effects::of(packet, SpeedMode::Steps28).is_nothing()
        && Effects::of(packet, SpeedMode::Steps14).is_nothing()
}
