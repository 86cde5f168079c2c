//! The type of command stations.

ghost use Rattle.std.specs.Prelude.{◌≡◌, ◌≢◌, ◌≤◌, ◌<◌, ◌+◌, ◌&&◌, nat_le, true, false, List, [], ◌∷◌, ◌++◌, length};
ghost use Rattle.std.specs.Prelude.{filter, Some, IfOk, IfErr};
ghost use Rattle.std.specs.List.{AllByRecursion};
ghost use Rattle.std.specs.Prelude.{IsOk};
ghost use Rattle.std.specs.Prelude.{OnOk, OnErr, ◌↔◌};
ghost use Rattle.dcc_packet.specs.declared.packet.Packet.{Packet};
ghost use Rattle.dcc_regs.specs.Heard.{address_of};
ghost use Rattle.dcc_regs.specs.Safety.{can_move};
ghost use Rattle.dcc_station.specs.Commands as commands;
ghost use Rattle.dcc_station.specs.Limits.{is_within_limits};
ghost use Rattle.dcc_station.specs.Refresh.{StationRepresents};
ghost use Rattle.dcc_station.specs.Sending.{idle_sending, outgoing, with_command, forgotten, has_address, Next};
ghost use Rattle.dcc_station.specs.Sending.{stopped, stop_packet, not_withdrawn};
ghost use Rattle.dcc_station.specs.Stops.{StationObeys, partly_sent};
ghost use Rattle.dcc_station.specs.WaitingTimes.{copies_left};

use crate::fault::{Refused, StationFault};
use crate::fixed_ring::FixedRing;
use crate::forget::forget_address;
use crate::machine::{hand_out, take_command};
use crate::ring::PacketRing;
use crate::stop::stop_all;
use circular_buffer::HeapCircularBuffer;
use dcc_packet::{Address, Packet};
use std::alloc::{AllocError, Global};
use std::marker::Model;

/// A command station, with a queue of commands and a list of entries that it refreshes. The queue
/// and the list are rings.
///
/// The station sends the first command of the queue several times in a row, without another packet
/// between the copies. An own write gets one copy more than other commands. After its last copy the
/// command leaves the queue. While the queue is empty, the station sends the entries in turn,
/// because packets can be lost on the track and must be repeated (NMRA S-9.2). After its creation a
/// station does not allocate.
#[derive(Drop)]
pub struct StationOver<Q: PacketRing, S: PacketRing> {
    commands: Q,
    stopping: bool,
    sent: u8,
    entries: S,
    repeats: u8,
}

/// A command station whose sizes are chosen when it is created. The creation allocates.
pub type Station = StationOver<HeapCircularBuffer<Packet>, HeapCircularBuffer<Packet>>;

/// A command station that does not allocate. A `FixedStation` contains the arrays for `QUEUE`
/// commands and `SLOTS` entries.
pub type FixedStation<const QUEUE: usize, const SLOTS: usize> = StationOver<
    FixedRing<QUEUE>,
    FixedRing<SLOTS>,
>;

impl<Q: PacketRing, S: PacketRing> Model for StationOver<Q, S> {
    ghost use Rattle.std.specs.Prelude.{◌≤◌, ◌<◌};
    ghost use Rattle.dcc_station.specs.Rings.{sending_over};
    ghost use Rattle.dcc_station.specs.Sending.{Sending};

    ghost Value = { Sending };

    ghost view = { λ s. sending_over (Q.buffer s.commands) s.stopping s.sent (S.buffer s.entries) s.repeats };

    ghost invariant = { λ s. (0 < s.repeats) × (s.repeats ≤ 8) × (s.sent ≤ 8) };
}

/// Returns true if a station can have these sizes. The limits are 1 to 64 commands in the queue, 1
/// to 128 entries, and 1 to 8 copies of a command.
pub fn are_within_limits(queue: usize, slots: usize, repeats: u8) -> bool
    ensures { result ≡ is_within_limits queue slots repeats }
{
    (1..=64).contains(&queue) && (1..=128).contains(&slots) && (1..=8).contains(&repeats)
}

impl StationOver<HeapCircularBuffer<Packet>, HeapCircularBuffer<Packet>> {
    /// Creates a station with an empty queue and without entries. The parameter `queue` is the
    /// capacity of the queue, `slots` is the capacity of the entries, and `repeats` is the number
    /// of copies of a command.
    ///
    /// Errors: C1 if `queue` is not 1 to 64, `slots` is not 1 to 128, or `repeats` is not 1 to 8.
    /// C2 if an allocation fails.
    pub fn new(
        alloc: Global,
        queue: usize,
        slots: usize,
        repeats: u8,
    ) -> Result<Station, StationFault>
        ensures limit { (result ≡ Err StationFault.Limit) ↔ (is_within_limits queue slots repeats ≡ false) }
        ensures made { IfOk result (λ s. s ≡ idle_sending queue slots repeats) }
        ensures stands { IfOk result (λ s. StationRepresents s [] []) }
    {
        if !are_within_limits(queue, slots, repeats) {
            return Err(StationFault::Limit);
        }
        match Station::with_sizes(alloc, queue, slots, repeats) {
            Ok(station) => Ok(station),
            Err(_) => Err(StationFault::NoMemory),
        }
    }

    fn with_sizes(
        alloc: Global,
        queue: usize,
        slots: usize,
        repeats: u8,
    ) -> Result<Station, AllocError>
        requires some { 0 < repeats }
        requires few { repeats ≤ 8 }
        ensures made { IfOk result (λ s. s ≡ idle_sending queue slots repeats) }
        ensures stands { IfOk result (λ s. StationRepresents s [] []) }
    {
        let commands = HeapCircularBuffer::with_capacity(alloc, queue)?;
        let entries = HeapCircularBuffer::with_capacity(alloc, slots)?;
        Ok(StationOver::over(commands, entries, repeats))
    }
}

impl<const QUEUE: usize, const SLOTS: usize> StationOver<FixedRing<QUEUE>, FixedRing<SLOTS>> {
    /// Creates a station with an empty queue and without entries. The parameter `queue` is the
    /// capacity of the queue, `slots` is the capacity of the entries, and `repeats` is the number
    /// of copies of a command.
    ///
    /// Errors: C1 if `queue` is not 1 to 64 or is above `QUEUE`. C1 if `slots` is not 1 to 128 or
    /// is above `SLOTS`, or if `repeats` is not 1 to 8. The function never returns C2.
    pub fn new(
        queue: usize,
        slots: usize,
        repeats: u8,
    ) -> Result<FixedStation<QUEUE, SLOTS>, StationFault>
        ensures limit { (result ≡ Err StationFault.Limit)
            ↔ ((is_within_limits queue slots repeats && nat_le queue QUEUE && nat_le slots SLOTS) ≡ false) }
        ensures no_other { IfErr result (λ fault. fault ≡ StationFault.Limit) }
        ensures made { IfOk result (λ s. s ≡ idle_sending queue slots repeats) }
        ensures stands { IfOk result (λ s. StationRepresents s [] []) }
    {
        if !are_within_limits(queue, slots, repeats) || queue > QUEUE || slots > SLOTS {
            return Err(StationFault::Limit);
        }
        Ok(StationOver::over(FixedRing::new(queue), FixedRing::new(slots), repeats))
    }
}

impl<Q: PacketRing, S: PacketRing> StationOver<Q, S> {
    /// Creates a station over two empty rings, with `repeats` copies of each command.
    fn over(commands: Q, entries: S, repeats: u8) -> StationOver<Q, S>
        requires some { 0 < repeats }
        requires few { repeats ≤ 8 }
        requires none_waits { (Q.buffer commands).items ≡ [] }
        requires no_entries { (S.buffer entries).items ≡ [] }
        ensures made { result ≡ idle_sending (Q.buffer commands).capacity (S.buffer entries).capacity repeats }
        ensures stands { StationRepresents result [] [] }
    {
        StationOver {
            commands,
            stopping: false,
            sent: 0,
            entries,
            repeats,
        }
    }

    /// Appends a command to the queue.
    ///
    /// Errors: C3 if a station does not send the packet, which is then an idle packet, a frame in
    /// no row of the table of packets, or a broadcast CV access. C4 if a station sends the packet,
    /// but the queue is full. With an error the function also returns the packet, and the station
    /// is unchanged. A command that is partly sent is still in the queue.
    pub fn command(&mut self, packet: Packet) -> Result<(), (Refused, Packet)>
        ensures ok { OnOk result (self.new ≡ with_command self.old packet) }
        ensures err { OnErr result (self.new ≡ self.old) }
        ensures not_sendable { (result ≡ Err (Refused.NotSendable, packet)) ↔ (commands.is_sendable packet ≡ false) }
        ensures full { (result ≡ Err (Refused.QueueFull, packet)) ↔
            ((commands.is_sendable packet ≡ true) × (length self.old.waiting ≡ self.old.queue)) }
        ensures comes_back { IfErr result (λ refused. refused.1 ≡ packet) }
        ensures stands { OnOk result
            ((commands packets : List Packet) → StationRepresents self.old commands packets
            → StationRepresents self.new (commands ++ packet ∷ []) packets) }
        ensures obeys { OnOk result
            ((commands packets : List Packet) → StationObeys self.old commands packets
            → StationObeys self.new (commands ++ packet ∷ []) packets) }
    {
        take_command(&mut self.commands, packet)
    }

    /// Removes the entries with the address `address`. All other entries stay in their order. An
    /// entry never has the broadcast address.
    ///
    /// The queue does not change, also if it has commands with the address `address`. If a command
    /// is partly sent, the station still sends the remaining copies of this command. If no copy of
    /// a command was sent, this command can become an entry when its first copy is sent.
    pub fn forget(&mut self, address: Address)
        ensures forgets { self.new ≡ forgotten self.old address }
        ensures gone { AllByRecursion (λ (entry : Packet). address_of entry ≢ Some address) self.new.entries }
        ensures removed { length self.new.entries + length (filter (has_address address) self.old.entries)
            ≡ length self.old.entries }
        ensures waiting { self.new.waiting ≡ self.old.waiting }
        ensures copies { (before : List Packet) → copies_left self.new before ≡ copies_left self.old before }
        ensures stands { (commands packets : List Packet) → StationRepresents self.old commands packets
            → StationRepresents self.new commands packets }
        ensures obeys { (commands packets : List Packet) → StationObeys self.old commands packets
            → StationObeys self.new commands packets }
    {
        forget_address(&mut self.entries, &address);
    }

    /// Stops all locomotives. The next packets of the station are the copies of `loco all speed28 f
    /// 3`, the emergency stop of all locomotives. There are as many copies as of other commands,
    /// and they come before the commands in the queue. The stop takes no place in the queue, so the
    /// function also works if the queue is full. The directions of the locomotives stay (NMRA
    /// S-9.2.1, RCN-212).
    ///
    /// The function removes the commands that set the speed of a locomotive to a step, and returns
    /// their number. All other commands stay in the queue in their order: resets, stops, functions,
    /// binary states, CV accesses and commands to accessory decoders. If a command that stays was
    /// partly sent, all its copies are sent again after the stop, so the copies of a CV write stay
    /// in a row. If a stop already waits, the number of its copies starts again.
    ///
    /// The first copy of the stop removes the entries that conflict with the stop, as the first
    /// copy of a command does. So a locomotive that hears a copy of the stop, and all later packets,
    /// stands until the station accepts a command that sets a speed to a step.
    pub fn stop(&mut self) -> usize
        ensures stops { self.new ≡ stopped self.old }
        ensures withdrawn { result ≡ length (filter can_move self.old.waiting) }
        ensures obeys { (done packets : List Packet) → StationObeys self.old (done ++ outgoing self.old) packets
            → StationObeys self.new
            (done ++ filter can_move (partly_sent self.old) ++ stop_packet ∷ not_withdrawn self.old.waiting) packets }
    {
        stop_all(&mut self.commands, &mut self.stopping, &mut self.sent)
    }

    /// Returns the number of commands in the queue. A stop that waits does not count.
    pub fn waiting(&self) -> usize
        ensures { result ≡ length self.now.waiting }
    {
        self.commands.len()
    }

    /// Returns the number of entries.
    pub fn entries(&self) -> usize
        ensures { result ≡ length self.now.entries }
    {
        self.entries.len()
    }

    /// Returns the next packet. The packet is a copy of the stop if a stop waits, otherwise a copy
    /// of the first command of the queue. If no stop waits and the queue is empty, the packet is
    /// the first entry, which moves to the end. If there is no entry either, the packet is an idle
    /// packet.
    ///
    /// The first copy of a command removes the entries that equal the command or conflict with it.
    /// If the command writes CV29, the entries with the address of the command are removed too. A
    /// command that sets the speed or functions of one locomotive then becomes the last entry. If
    /// the entries are full, the first entry is removed.
    pub fn next(&mut self) -> Packet
        ensures next { Next self.old result self.new }
        ensures stands { (commands packets : List Packet) → StationRepresents self.old commands packets
            → StationRepresents self.new commands (packets ++ result ∷ []) }
        ensures obeys { (commands packets : List Packet) → StationObeys self.old commands packets
            → StationObeys self.new commands (packets ++ result ∷ []) }
    {
        let mut packet = Packet::Idle;
        hand_out(
            &mut self.commands,
            &mut self.stopping,
            &mut self.sent,
            &mut self.entries,
            self.repeats,
            &mut packet,
        );
        packet
    }
}
