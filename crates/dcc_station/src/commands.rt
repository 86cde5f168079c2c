//! Functions that return if a station sends or refreshes a packet, and how many copies it sends.

ghost use Rattle.std.specs.Prelude.{◌≡◌, ◌≢◌, ◌≤◌, IsTrue, ◌↔◌};
ghost use Rattle.dcc_packet.specs.declared.address.Address.TheVariants.{Broadcast};
ghost use Rattle.dcc_packet.specs.declared.packet.Packet.TheVariants.{Loco as ToLoco};
ghost use Rattle.dcc_regs.specs.Safety as safety;
ghost use Rattle.dcc_regs.specs.Writes as writes;
ghost use Rattle.dcc_station.specs.Commands as commands;
ghost use Rattle.dcc_station.specs.Sending as sending;

use dcc_packet::{Address, Packet, What};
use dcc_regs::is_own_write;

/// Returns true if the packet is a command that a station sends.
#[tactic(auto, unfolding(crate::specs::Commands::is_sendable))]
pub fn is_sendable(packet: &Packet) -> bool
    ensures { result ≡ commands.is_sendable packet.now }
{
    match packet {
        Packet::Idle => false,
        Packet::Other(_) => false,
        Packet::Loco {
            to: Address::Broadcast,
            what,
        } => !what.is_cv_access(),
        _ => true,
    }
}

/// Returns true if the station refreshes the command: the command sets the speed or functions of
/// one locomotive.
#[tactic(auto, unfolding(crate::specs::Commands::is_refreshed))]
pub fn is_refreshed(command: &Packet) -> bool
    ensures { result ≡ commands.is_refreshed command.now }
{
    match command {
        Packet::Loco { to, what } => is_refreshed_at(to, what),
        _ => false,
    }
}

/// Returns true if the station refreshes the instruction `what` to the address `to`.
#[tactic(auto, unfolding(crate::specs::Commands::is_refreshed))]
pub fn is_refreshed_at(to: &Address, what: &What) -> bool
    ensures { result ≡ commands.is_refreshed (ToLoco to.now what.now) }
{
    match to {
        Address::Broadcast => false,
        Address::Short(_) | Address::Long(_) => {
            matches!(
                what,
                What::Speed28 { .. } | What::Speed128 { .. } | What::Functions(_)
            )
        }
    }
}

/// Returns true if the command writes CV29 or a bit of CV29.
pub fn writes_cv29(command: &Packet) -> bool
    ensures { result ≡ writes.writes_cv29 command.now }
{
    match command {
        Packet::Loco {
            what: What::CvWrite { cv, .. } | What::CvBitWrite { cv, .. },
            ..
        } => cv.number() == 29,
        _ => false,
    }
}

/// Returns true if the packet sets the speed of a locomotive to a step, and not to a stop.
pub fn can_move(packet: &Packet) -> bool
    ensures { result ≡ safety.can_move packet.now }
{
    match packet {
        Packet::Loco { to, what } => can_move_at(to, what),
        _ => false,
    }
}

/// Returns true if the instruction `what` to the address `to` sets the speed to a step. A broadcast
/// with 28 steps sets the speed only to a stop.
fn can_move_at(to: &Address, what: &What) -> bool
    ensures { result ≡ safety.can_move (ToLoco to.now what.now) }
{
    match what {
        What::Speed28 { bits, .. } => is_for_one(to) && bits.bits() >= 4,
        What::Speed128 { bits, .. } => bits.bits() >= 2,
        _ => false,
    }
}

/// Returns true if the address is the address of one locomotive.
fn is_for_one(to: &Address) -> bool
    ensures { IsTrue result ↔ (to.now ≢ Broadcast) }
{
    !matches!(to, Address::Broadcast)
}

/// Returns the number of copies of a command that are sent in a row: `repeats`, or one more for an
/// own write.
pub fn copies(repeats: u8, command: &Packet) -> u8
    requires { repeats ≤ 8 }
    ensures { result ≡ sending.copies repeats command.now }
{
    if is_own_write(command) {
        repeats + 1
    } else {
        repeats
    }
}
