//! Functions that return the speed and the direction that a packet sets (RCN-212, NMRA S-9.2.1).

ghost use Rattle.std.specs.Prelude.{◌≡◌, ◌≤◌, IfSome, true};
ghost use Rattle.dcc_regs.specs.Loco.{is_speed};
ghost use Rattle.dcc_regs.specs.Speeds as table;

use crate::register::{Speed, SpeedMode};
use dcc_packet::{Address, Packet, What};

fn speed_of_28(bits: u8) -> Speed
    requires { bits ≤ 31 }
    ensures speed { result ≡ table.speed_of_28 bits }
    ensures step { is_speed result ≡ true }
{
    match bits {
        0 | 1 => Speed::Stop,
        2 | 3 => Speed::Emergency,
        _ => Speed::Step28(bits - 3),
    }
}

fn speed_of_14(bits: u8) -> Speed
    requires { bits ≤ 31 }
    ensures speed { result ≡ table.speed_of_14 bits }
    ensures step { is_speed result ≡ true }
{
    match bits / 2 {
        0 => Speed::Stop,
        1 => Speed::Emergency,
        step => Speed::Step14(step - 1),
    }
}

fn speed_of_126(bits: u8) -> Speed
    requires { bits ≤ 127 }
    ensures speed { result ≡ table.speed_of_126 bits }
    ensures step { is_speed result ≡ true }
{
    match bits {
        0 => Speed::Stop,
        1 => Speed::Emergency,
        _ => Speed::Step126(bits - 1),
    }
}

fn stop_of(bits: u8) -> Option<Speed>
    ensures speed { result ≡ table.stop_of bits }
    ensures step { IfSome result (λ speed. is_speed speed ≡ true) }
{
    match bits {
        0 | 1 => Some(Speed::Stop),
        2 | 3 => Some(Speed::Emergency),
        _ => None,
    }
}

/// Returns the speed that a packet sets. Returns `None` if the packet sets no speed.
#[inline(always)]
pub fn speed_set(mode: SpeedMode, packet: &Packet) -> Option<Speed>
    ensures speed { result ≡ table.speed_set mode packet.now }
    ensures step { IfSome result (λ speed. is_speed speed ≡ true) }
{
    let Packet::Loco { to, what } = packet else {
        return None
    };
    match (what, to, mode) {
        (What::Reset, _, _) => Some(Speed::Stop),
        (What::Speed28 { bits, .. }, Address::Broadcast, _) => stop_of(bits.bits()),
        (What::Speed28 { bits, .. }, _, SpeedMode::Steps28) => Some(speed_of_28(bits.bits())),
        (What::Speed28 { bits, .. }, _, SpeedMode::Steps14) => Some(speed_of_14(bits.bits())),
        (What::Speed128 { bits, .. }, _, _) => Some(speed_of_126(bits.bits())),
        _ => None,
    }
}

/// Returns the direction that a packet sets, true for forward. Returns `None` if the packet sets no
/// direction.
#[inline(always)]
pub fn direction_set(packet: &Packet) -> Option<bool>
    ensures { result ≡ table.direction_set packet.now }
{
    let Packet::Loco { to, what } = packet else {
        return None
    };
    match (what, to) {
        (What::Reset, _) => Some(true),
        (What::Speed28 { forward, bits }, Address::Broadcast) => {
            if matches!(bits.bits(), 0 | 2) {
                Some(*forward)
            } else {
                None
            }
        }
        (What::Speed28 { forward, .. } | What::Speed128 { forward, .. }, _) => Some(*forward),
        _ => None,
    }
}
