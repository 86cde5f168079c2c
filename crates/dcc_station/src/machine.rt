//! Functions that execute the steps of a station, over any rings for the queue and the entries.

ghost use Rattle.std.specs.Prelude.{◌≡◌, ◌≤◌, ◌<◌, true, false, [], ◌∷◌, ◌++◌, length, drop, slice_get};
ghost use Rattle.std.specs.Prelude.{OnOk, OnErr, IfErr, IsTrue, ◌↔◌, ℕ, Bool};
ghost use Rattle.circular_buffer.specs.Buffer.{Buffer, buffer};
ghost use Rattle.dcc_station.specs.Commands as commands;
ghost use Rattle.dcc_station.specs.Rings.{sending_over};
ghost use Rattle.dcc_station.specs.Sending.{sent_once_more, with_stop, EntriesAfter, Next};

use crate::commands::{copies, is_sendable};
use crate::entries::{refresh_after, rotated};
use crate::fault::Refused;
use crate::ring::PacketRing;
use crate::stop::stop_packet;
use dcc_packet::Packet;

/// Appends a command to the queue. The function has the errors of `Station::command`.
pub fn take_command<Q: PacketRing>(waiting: &mut Q, packet: Packet) -> Result<(), (Refused, Packet)>
    ensures ok { OnOk result (Q.buffer waiting.new
        ≡ buffer ((Q.buffer waiting.old).items ++ packet ∷ []) (Q.buffer waiting.old).capacity) }
    ensures room { OnOk result ((commands.is_sendable packet ≡ true)
        × (length (Q.buffer waiting.old).items < (Q.buffer waiting.old).capacity)) }
    ensures err { OnErr result (waiting.new ≡ waiting.old) }
    ensures not_sendable { (result ≡ Err (Refused.NotSendable, packet)) ↔ (commands.is_sendable packet ≡ false) }
    ensures full { (result ≡ Err (Refused.QueueFull, packet)) ↔
        ((commands.is_sendable packet ≡ true)
        × (length (Q.buffer waiting.old).items ≡ (Q.buffer waiting.old).capacity)) }
    ensures comes_back { IfErr result (λ refused. refused.1 ≡ packet) }
{
    if !is_sendable(&packet) {
        return Err((Refused::NotSendable, packet));
    }
    if is_full(waiting) {
        return Err((Refused::QueueFull, packet));
    }
    add(waiting, packet);
    Ok(())
}

fn is_full<Q: PacketRing>(waiting: &Q) -> bool
    ensures full { IsTrue result ↔ (length (Q.buffer waiting.now).items ≡ (Q.buffer waiting.now).capacity) }
    ensures within { length (Q.buffer waiting.now).items ≤ (Q.buffer waiting.now).capacity }
{
    waiting.capacity() == waiting.len()
}

fn add<Q: PacketRing>(waiting: &mut Q, packet: Packet)
    requires { length (Q.buffer waiting.old).items < (Q.buffer waiting.old).capacity }
    ensures { Q.buffer waiting.new
        ≡ buffer ((Q.buffer waiting.old).items ++ packet ∷ []) (Q.buffer waiting.old).capacity }
{
    waiting.push_back(packet);
}

/// Writes the next packet to `packet`, as `Station::next` returns it, for a station with the
/// commands `waiting` and the entries `entries`. The parameter `stopping` is true while a stop
/// waits. The parameter `sent` is the number of copies of the stop or of the first command that
/// were sent. The parameter `repeats` is the number of copies of each command.
pub fn hand_out<Q: PacketRing, S: PacketRing>(
    waiting: &mut Q,
    stopping: &mut bool,
    sent: &mut u8,
    entries: &mut S,
    repeats: u8,
    packet: &mut Packet,
)
    requires few { repeats ≤ 8 }
    requires sent { sent.old ≤ 8 }
    ensures next { Next
        (sending_over (Q.buffer waiting.old) stopping.old sent.old (S.buffer entries.old) repeats) packet.new
        (sending_over (Q.buffer waiting.new) stopping.new sent.new (S.buffer entries.new) repeats) }
    ensures sent { sent.new ≤ 8 }
{
    // each function writes to `packet` and returns no packet, since a copy of a packet takes stack
    if put_first(waiting, *stopping, packet) {
        send(waiting, stopping, sent, entries, repeats, packet);
    } else {
        refresh(entries, packet);
    }
}

/// Writes the stop to `packet` if `stopping` is true, otherwise the first command of the queue.
/// Returns false if there is neither.
fn put_first<Q: PacketRing>(waiting: &Q, stopping: bool, packet: &mut Packet) -> bool
    ensures first { result ≡ true → slice_get (with_stop stopping (Q.buffer waiting.now).items) 0 ≡ Some packet.new }
    ensures none { result ≡ false → with_stop stopping (Q.buffer waiting.now).items ≡ [] }
{
    if stopping {
        *packet = stop_packet();
        return true;
    }
    match waiting.front() {
        Some(command) => {
            *packet = command;
            true
        }
        None => false,
    }
}

/// Updates the queue and the entries after a copy of the packet `packet`, which is the stop or the
/// first command of the queue.
fn send<Q: PacketRing, S: PacketRing>(
    waiting: &mut Q,
    stopping: &mut bool,
    sent: &mut u8,
    entries: &mut S,
    repeats: u8,
    packet: &Packet,
)
    requires first { slice_get (with_stop stopping.old (Q.buffer waiting.old).items) 0 ≡ Some packet.now }
    requires few { repeats ≤ 8 }
    requires sent { sent.old ≤ 8 }
    ensures next { Next
        (sending_over (Q.buffer waiting.old) stopping.old sent.old (S.buffer entries.old) repeats) packet.now
        (sending_over (Q.buffer waiting.new) stopping.new sent.new (S.buffer entries.new) repeats) }
    ensures sent { sent.new ≤ 8 }
{
    change_entries(entries, *sent, packet);
    count_copy(waiting, stopping, sent, repeats, packet);
}

/// Updates the entries if no copy of the command was sent before.
fn change_entries<S: PacketRing>(entries: &mut S, sent: u8, command: &Packet)
    ensures entries { EntriesAfter sent (S.buffer entries.old).capacity command.now
        (S.buffer entries.old).items (S.buffer entries.new).items }
    ensures capacity { (S.buffer entries.new).capacity ≡ (S.buffer entries.old).capacity }
{
    if sent == 0 {
        refresh_after(entries, command);
    }
}

/// Counts one more copy of the stop or of the first command. After the last copy, the function
/// removes the stop or this command.
fn count_copy<Q: PacketRing>(
    waiting: &mut Q,
    stopping: &mut bool,
    sent: &mut u8,
    repeats: u8,
    packet: &Packet,
)
    requires few { repeats ≤ 8 }
    requires sent { sent.old ≤ 8 }
    ensures counts { (entries : Buffer Packet) →
        sending_over (Q.buffer waiting.new) stopping.new sent.new entries repeats
        ≡ sent_once_more (sending_over (Q.buffer waiting.old) stopping.old sent.old entries repeats) packet.now
        (drop 1 (with_stop stopping.old (Q.buffer waiting.old).items)) entries.items }
    ensures sent { sent.new ≤ 8 }
{
    if *sent + 1 >= copies(repeats, packet) {
        remove_sent(waiting, stopping);
        *sent = 0;
    } else {
        *sent += 1;
    }
}

/// Removes the stop if it waits, otherwise the first command of the queue.
fn remove_sent<Q: PacketRing>(waiting: &mut Q, stopping: &mut bool)
    ensures left { Q.buffer waiting.new ≡ buffer
        (drop 1 (with_stop stopping.old (Q.buffer waiting.old).items)) (Q.buffer waiting.old).capacity }
    ensures no_stop { stopping.new ≡ false }
{
    if *stopping {
        *stopping = false;
    } else {
        waiting.pop_front();
    }
}

/// Moves the first entry to the end and writes this entry to `packet`. Writes an idle packet if
/// there is no entry.
fn refresh<S: PacketRing>(entries: &mut S, packet: &mut Packet)
    ensures { (waiting : Buffer Packet) (stopping : Bool) (sent repeats : ℕ) → with_stop stopping waiting.items ≡ []
        → Next (sending_over waiting stopping sent (S.buffer entries.old) repeats) packet.new
        (sending_over waiting stopping sent (S.buffer entries.new) repeats) }
{
    *packet = rotated(entries).unwrap_or(Packet::Idle);
}
