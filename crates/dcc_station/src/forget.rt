//! Functions that remove the entries of one address.

ghost use Rattle.std.specs.Prelude.{◌≡◌, take, drop, ◌++◌};
ghost use Rattle.circular_buffer.specs.Buffer.{buffer};
ghost use Rattle.dcc_station.specs.Sending as sending;
ghost use Rattle.dcc_station.specs.Sending.{without_address};

use crate::ring::PacketRing;
use dcc_packet::{Address, Packet};
use dcc_regs::address_of;

/// Removes the entries with the address `address`. The other entries keep their order. The function
/// moves each other entry once.
pub fn forget_address<R: PacketRing>(entries: &mut R, address: &Address)
    ensures { R.buffer entries.new
        ≡ buffer (without_address address.now (R.buffer entries.old).items) (R.buffer entries.old).capacity }
{
    for _at in 0..entries.len() {
        pass_first(entries, address);
    }
}

/// Moves the first entry to the end, or removes it if it has the address `address`.
fn pass_first<R: PacketRing>(entries: &mut R, address: &Address)
    ensures { R.buffer entries.new ≡ buffer
        (drop 1 (R.buffer entries.old).items ++ without_address address.now (take 1 (R.buffer entries.old).items))
        (R.buffer entries.old).capacity }
{
    if entries.front_has_address(address) {
        entries.pop_front();
    } else {
        entries.rotate();
    }
}

/// Returns true if the packet is sent to the address `address`.
pub(crate) fn has_address(packet: &Packet, address: &Address) -> bool
    ensures { result ≡ sending.has_address address.now packet.now }
{
    match address_of(packet) {
        Some(own) => own.is(address),
        None => false,
    }
}
