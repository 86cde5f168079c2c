//! The entries of a station, which are the packets that the station refreshes, and the effect of a
//! command on the entries.

ghost use Rattle.std.specs.Prelude.{◌≡◌, IsTrue, ◌↔◌, slice_get, drop, ◌++◌, ◌∷◌, [], IfSome, IfNone};
ghost use Rattle.circular_buffer.specs.Buffer.{buffer};
ghost use Rattle.dcc_packet.specs.declared.packet.Packet.TheVariants.{Loco as ToLoco};
ghost use Rattle.dcc_regs.specs.Heard as heard;
ghost use Rattle.dcc_station.specs.Sending.{Displaces, Leaves, Refreshes};

use crate::commands::{is_refreshed, writes_cv29};
use crate::left::is_left;
use crate::ring::PacketRing;
use dcc_packet::{Address, Packet, What};
use dcc_regs::{address_of, conflict};

/// Moves the first entry to the end and returns this entry. Returns `None` if there is no entry.
pub fn rotated<R: PacketRing>(entries: &mut R) -> Option<Packet>
    ensures front { result ≡ slice_get (R.buffer entries.old).items 0 }
    ensures entries { IfSome result (λ entry. R.buffer entries.new
        ≡ buffer (drop 1 (R.buffer entries.old).items ++ entry ∷ []) (R.buffer entries.old).capacity) }
    ensures none { IfNone result (R.buffer entries.new ≡ R.buffer entries.old) }
{
    let front = entries.front();
    entries.rotate();
    front
}

/// Updates the entries after the first copy of a command. The function removes the entries that the
/// command displaces. A command that sets the speed or functions of one locomotive then becomes the
/// last entry.
pub fn refresh_after<R: PacketRing>(entries: &mut R, command: &Packet)
    ensures entries { Refreshes (R.buffer entries.old).capacity command.now
        (R.buffer entries.old).items (R.buffer entries.new).items }
    ensures capacity { (R.buffer entries.new).capacity ≡ (R.buffer entries.old).capacity }
{
    remove_displaced(entries, command);
    if is_refreshed(command) {
        entries.push_back(*command);
    }
}

/// Removes the entries that a command displaces. The function moves each other entry at most once.
fn remove_displaced<R: PacketRing>(entries: &mut R, command: &Packet)
    ensures entries { Leaves command.now (R.buffer entries.old).items (R.buffer entries.new).items }
    ensures capacity { (R.buffer entries.new).capacity ≡ (R.buffer entries.old).capacity }
{
    let mut kept = 0;
    for at in 0..entries.len() {
        if !entries.is_displaced(at, command) {
            entries.move_forward(at, kept);
            kept += 1;
        }
    }
    entries.truncate(kept);
}

/// Returns true if the station removes the entry `entry` when it sends the command `command`.
pub fn displaces(command: &Packet, entry: &Packet) -> bool
    ensures { IsTrue result ↔ Displaces command.now entry.now }
{
    match entry {
        Packet::Loco { to, what } => displaces_loco(command, to, what),
        _ => displaces_by_registers(command, entry),
    }
}

/// Returns true if the station removes the entry with the instruction `what` to the address `to`
/// when it sends the command.
pub fn displaces_loco(command: &Packet, to: &Address, what: &What) -> bool
    ensures { IsTrue result ↔ Displaces command.now (ToLoco to.now what.now) }
{
    match is_left(command, to, what) {
        Some(left) => !left,
        None => displaces_by_registers(
            command,
            &Packet::Loco {
                to: *to,
                what: *what,
            },
        ),
    }
}

/// Returns the result of [`displaces`] for any two packets. The function compares registers, which
/// takes longer than [`displaces`].
pub fn displaces_by_registers(command: &Packet, entry: &Packet) -> bool
    ensures { IsTrue result ↔ Displaces command.now entry.now }
{
    if entry.is(command) {
        return true;
    }
    if conflict(command, entry) {
        return true;
    }
    if !writes_cv29(command) {
        return false;
    }
    has_address_of(entry, command)
}

/// Returns true if an entry and a command have the same address.
fn has_address_of(entry: &Packet, command: &Packet) -> bool
    ensures { IsTrue result ↔ (heard.address_of entry.now ≡ heard.address_of command.now) }
{
    match (address_of(entry), address_of(command)) {
        (Some(entry), Some(command)) => entry.is(&command),
        (None, None) => true,
        _ => false,
    }
}
