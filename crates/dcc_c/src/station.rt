//! Functions on command stations, in memory that the caller owns.

ghost use Rattle.std.specs.Prelude.{◌≡◌, ◌≢◌, ◌≤◌, ◌<◌, ◌∷◌, ◌++◌, [], List, length, filter, true, false, ◌↔◌};
ghost use Rattle.dcc_packet.specs.declared.packet.Packet.{Packet};
ghost use Rattle.dcc_packet.specs.Spelling.{spelling};
ghost use Rattle.dcc_regs.specs.Safety.{can_move};
ghost use Rattle.dcc_station.specs.Commands as commands;
ghost use Rattle.dcc_station.specs.Limits.{is_within_limits};
ghost use Rattle.dcc_station.specs.Refresh.{StationRepresents};
ghost use Rattle.dcc_station.specs.Sending.{Next, idle_sending, outgoing, with_command};
ghost use Rattle.dcc_station.specs.Sending.{stopped, stop_packet, not_withdrawn};
ghost use Rattle.dcc_station.specs.Stops.{StationObeys, partly_sent};
ghost use Rattle.dcc_c.specs.Frames.{frame_answer, frame_numbers};
ghost use Rattle.dcc_c.specs.Stations.{sending_of, FrameSpells};

use crate::frame::{DccFrame, frame_of};
use crate::station_numbers::DccStation;
use dcc_packet::Packet;
use dcc_station::{PacketRing, StationFault, are_within_limits, hand_out, stop_all, take_command};

/// Initialises a station with an empty queue and without entries. The parameter `queue` is the
/// capacity of the queue, 1 to 64. The parameter `slots` is the capacity of the entries, 1 to 128.
/// The parameter `repeats` is the number of copies of each command, 1 to 8.
///
/// Returns 0 on success, and 1 (C1) if a parameter is out of its limits. If the result is not 0,
/// nothing is written.
#[unsafe(no_mangle)]
pub extern "C" fn dcc_station_new(station: &mut DccStation, queue: u8, slots: u8, repeats: u8) -> u8
    ensures limit { (result ≡ 1) ↔ (is_within_limits queue slots repeats ≡ false) }
    ensures answer { result ≤ 1 }
    ensures made { result ≡ 0 → sending_of station.new ≡ idle_sending queue slots repeats }
    ensures stands { result ≡ 0 → StationRepresents (sending_of station.new) [] [] }
    ensures kept { result ≢ 0 → station.new ≡ station.old }
{
    if !are_within_limits(usize::from(queue), usize::from(slots), repeats) {
        return StationFault::Limit.number();
    }
    clear(station, queue, slots, repeats);
    0
}

/// Removes all commands and entries, and sets the capacities and the number of copies.
fn clear(station: &mut DccStation, queue: u8, slots: u8, repeats: u8)
    requires queue { queue ≤ 128 }
    requires slots { slots ≤ 128 }
    requires some { 0 < repeats }
    requires few { repeats ≤ 8 }
    ensures made { sending_of station.new ≡ idle_sending queue slots repeats }
    ensures stands { StationRepresents (sending_of station.new) [] [] }
{
    set_sizes(station, queue, slots, repeats);
}

fn set_sizes(station: &mut DccStation, queue: u8, slots: u8, repeats: u8)
    requires queue { queue ≤ 128 }
    requires slots { slots ≤ 128 }
    requires few { repeats ≤ 8 }
    ensures { sending_of station.new ≡ idle_sending queue slots repeats }
{
    station.commands.clear(queue);
    station.entries.clear(slots);
    station.stopping = false;
    station.sent = 0;
    station.repeats = repeats;
}

/// Appends the command of the frame `frame` to the queue. A station does not send an idle packet, a
/// frame that is in no row of the table of packets, or a broadcast CV access.
///
/// Returns 0 on success, and 1 (L1) or 2 (L2) if `frame` is no frame. Returns 3 (C3) if a station
/// does not send the packet, or 4 (C4) if the queue is full. If the result is not 0, nothing
/// changes.
#[unsafe(no_mangle)]
pub extern "C" fn dcc_station_command(station: &mut DccStation, frame: &[u8]) -> u8
    ensures no_frame { frame_answer frame.now ≢ 0 → result ≡ frame_answer frame.now }
    ensures ok { result ≡ 0 → (packet : Packet) × FrameSpells frame.now packet
        × (sending_of station.new ≡ with_command (sending_of station.old) packet) }
    ensures not_sendable { (result ≡ 3) ↔ ((packet : Packet) × FrameSpells frame.now packet
        × (commands.is_sendable packet ≡ false)) }
    ensures full { (result ≡ 4) ↔ ((packet : Packet) × FrameSpells frame.now packet
        × (commands.is_sendable packet ≡ true)
        × (length (sending_of station.old).waiting ≡ (sending_of station.old).queue)) }
    ensures accepts { (packet : Packet) → FrameSpells frame.now packet → commands.is_sendable packet ≡ true
        → length (sending_of station.old).waiting < (sending_of station.old).queue → result ≡ 0 }
    ensures stands { result ≡ 0 → (packet : Packet) × FrameSpells frame.now packet
        × ((commands packets : List Packet) → StationRepresents (sending_of station.old) commands packets
        → StationRepresents (sending_of station.new) (commands ++ packet ∷ []) packets) }
    ensures obeys { result ≡ 0 → (packet : Packet) × FrameSpells frame.now packet
        × ((commands packets : List Packet) → StationObeys (sending_of station.old) commands packets
        → StationObeys (sending_of station.new) (commands ++ packet ∷ []) packets) }
    ensures kept { result ≢ 0 → station.new ≡ station.old }
{
    match frame_of(frame) {
        Ok(frame) => accept(station, Packet::read(&frame)),
        Err(number) => number,
    }
}

/// Appends a command to the queue. Returns 0 on success, otherwise the number of the error.
fn accept(station: &mut DccStation, packet: Packet) -> u8
    ensures ok { result ≡ 0 → sending_of station.new ≡ with_command (sending_of station.old) packet }
    ensures not_sendable { (result ≡ 3) ↔ (commands.is_sendable packet ≡ false) }
    ensures full { (result ≡ 4) ↔ ((commands.is_sendable packet ≡ true)
        × (length (sending_of station.old).waiting ≡ (sending_of station.old).queue)) }
    ensures accepts { commands.is_sendable packet ≡ true
        → length (sending_of station.old).waiting < (sending_of station.old).queue → result ≡ 0 }
    ensures sendable { result ≡ 0 → (commands.is_sendable packet ≡ true)
        × (length (sending_of station.old).waiting < (sending_of station.old).queue) }
    ensures kept { result ≢ 0 → station.new ≡ station.old }
{
    match take_command(&mut station.commands, packet) {
        Ok(()) => 0,
        Err((refused, _)) => refused.number(),
    }
}

/// Writes the frame of the next packet, as `Station::next` does. The packet is a copy of the stop
/// if a stop waits, otherwise a copy of the first command of the queue. If no stop waits and the
/// queue is empty, the packet is the first entry, which moves to the end. If there is no entry
/// either, the packet is an idle packet.
#[unsafe(no_mangle)]
pub extern "C" fn dcc_station_next(station: &mut DccStation, frame: &mut DccFrame)
    ensures next { (packet : Packet) × (frame.new ≡ frame_numbers (spelling packet))
        × Next (sending_of station.old) packet (sending_of station.new) }
    ensures stands { (packet : Packet) × (frame.new ≡ frame_numbers (spelling packet))
        × ((commands packets : List Packet) → StationRepresents (sending_of station.old) commands packets
        → StationRepresents (sending_of station.new) commands (packets ++ packet ∷ [])) }
    ensures obeys { (packet : Packet) × (frame.new ≡ frame_numbers (spelling packet))
        × ((commands packets : List Packet) → StationObeys (sending_of station.old) commands packets
        → StationObeys (sending_of station.new) commands (packets ++ packet ∷ [])) }
{
    let mut packet = Packet::Idle;
    next(station, &mut packet);
    put_frame(&packet, frame);
}

/// Writes the frame of a packet to `frame`.
// not inlined, so that the frame takes no stack while entries are compared
#[inline(never)]
fn put_frame(packet: &Packet, frame: &mut DccFrame)
    ensures { frame.new ≡ frame_numbers (spelling packet.now) }
{
    *frame = DccFrame::of_frame(&packet.frame());
}

/// Writes the next packet of the station to `packet`.
fn next(station: &mut DccStation, packet: &mut Packet)
    ensures { Next (sending_of station.old) packet.new (sending_of station.new) }
{
    let repeats = station.repeats;
    hand_out(
        &mut station.commands,
        &mut station.stopping,
        &mut station.sent,
        &mut station.entries,
        repeats,
        packet,
    );
}

/// Stops all locomotives, as `Station::stop` does. The next packets of the station are the copies
/// of the emergency stop of all locomotives. The function removes the commands that set the speed
/// of a locomotive to a step, and returns their number. All other commands wait until the stop is
/// sent. If one of them was partly sent, all its copies are sent again. The stop takes no place in
/// the queue.
#[unsafe(no_mangle)]
pub extern "C" fn dcc_station_stop(station: &mut DccStation) -> u8
    ensures stops { sending_of station.new ≡ stopped (sending_of station.old) }
    ensures withdrawn { result ≡ length (filter can_move (sending_of station.old).waiting) }
    ensures obeys { (done packets : List Packet)
        → StationObeys (sending_of station.old) (done ++ outgoing (sending_of station.old)) packets
        → StationObeys (sending_of station.new) (done ++ filter can_move (partly_sent (sending_of station.old))
        ++ stop_packet ∷ not_withdrawn (sending_of station.old).waiting) packets }
{
    let (stopping, sent) = (&mut station.stopping, &mut station.sent);
    stop_all(&mut station.commands, stopping, sent) as u8
}

/// Returns the number of commands in the queue. A stop that waits does not count.
#[unsafe(no_mangle)]
pub extern "C" fn dcc_station_waiting(station: &DccStation) -> u8
    ensures { result ≡ length (sending_of station.now).waiting }
{
    station.commands.len() as u8
}

/// Returns the number of entries.
#[unsafe(no_mangle)]
pub extern "C" fn dcc_station_entries(station: &DccStation) -> u8
    ensures { result ≡ length (sending_of station.now).entries }
{
    station.entries.len() as u8
}
