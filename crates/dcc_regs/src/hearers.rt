//! Functions that return true if some decoder hears both of two packets.

ghost use Rattle.std.specs.Prelude.{◌≡◌, ◌↔◌, IsTrue};
ghost use Rattle.dcc_regs.specs.Inner.ConflictParts.{HeardTogether, board_of_packet as board_number_of, meets};
ghost use Rattle.dcc_regs.specs.Inner.ConflictParts.{some_board};
ghost use Rattle.dcc_regs.specs.Inner.ConflictParts.{some_loco};

use crate::heard::{address_of, is_for_active, is_full_reset};
use dcc_packet::{Address, Packet};

/// Returns true if some locomotive decoder hears packets to both addresses.
fn addresses_meet(a: &Address, b: &Address) -> bool
    ensures { result ≡ meets a.now b.now }
{
    is_for_active(&Some(*a), b) || is_for_active(&Some(*b), a)
}

/// Returns true if some locomotive decoder hears both packets.
fn some_loco_hears(p: &Packet, q: &Packet) -> bool
    ensures { result ≡ some_loco p.now q.now }
{
    match (address_of(p), address_of(q)) {
        (Some(a), Some(b)) => addresses_meet(&a, &b),
        _ => false,
    }
}

/// Returns the address of accessory decoders to which a packet is sent, 511 for a broadcast.
/// Returns `None` if the packet is not sent to accessory decoders.
fn board_number(packet: &Packet) -> Option<u16>
    ensures { result ≡ board_number_of packet.now }
{
    match packet {
        Packet::Loco { to, what } => if is_full_reset(to, what) {
            Some(511)
        } else {
            None
        },
        Packet::Accessory { board, .. } => Some(board.number()),
        Packet::Signal { address, .. } => {
            let address = address.number();
            if address == 2047 || address < 2044 {
                Some(address / 4)
            } else {
                None
            }
        }
        _ => None,
    }
}

/// Returns true if some accessory decoder hears both packets.
fn some_board_hears(p: &Packet, q: &Packet) -> bool
    ensures { result ≡ some_board p.now q.now }
{
    match (board_number(p), board_number(q)) {
        (Some(a), Some(b)) => a == b || a == 511 || b == 511,
        _ => false,
    }
}

/// Returns true if some decoder hears both packets.
pub fn heard_together(p: &Packet, q: &Packet) -> bool
    ensures { IsTrue result ↔ HeardTogether p.now q.now }
{
    some_loco_hears(p, q) || some_board_hears(p, q)
}
