//! The trait of rings of packets.

ghost use Rattle.std.specs.Prelude.{◌≡◌, ◌≤◌, ◌<◌, ◌∷◌, ◌++◌, [], length, take, drop, set, slice_get, Some, IsTrue};
ghost use Rattle.std.specs.Prelude.{◌↔◌, false};
ghost use Rattle.std.specs.Option.{option_map_or};
ghost use Rattle.dcc_packet.specs.declared.packet.Packet.{Packet};
ghost use Rattle.circular_buffer.specs.Buffer.{Buffer, keep_last};
ghost use Rattle.circular_buffer.specs.Buffer as rings;
ghost use Rattle.dcc_regs.specs.Safety as safety;
ghost use Rattle.dcc_station.specs.Sending as sending;
ghost use Rattle.dcc_station.specs.Sending.{Displaces};

use crate::commands::can_move;
use crate::entries::displaces;
use crate::forget::has_address;
use circular_buffer::HeapCircularBuffer;
use dcc_packet::{Address, Packet};

/// A list of packets with a capacity. Packets are appended at the end and removed from the front. A
/// station has two rings: one for the queue of commands, and one for the entries.
pub trait PacketRing: Drop {
    /// The packets of the ring from the front to the end, and its capacity.
    ghost buffer: { Self → Buffer Packet };

    /// Returns the number of packets.
    fn len(&self) -> usize
        ensures len { result ≡ length (buffer self.now).items }
        ensures within { result ≤ (buffer self.now).capacity };

    /// Returns the capacity of the ring.
    fn capacity(&self) -> usize
        ensures capacity { result ≡ (buffer self.now).capacity }
        ensures within { length (buffer self.now).items ≤ result };

    /// Returns the first packet. Returns `None` if the ring is empty.
    fn front(&self) -> Option<Packet>
        ensures { result ≡ slice_get (buffer self.now).items 0 };

    /// Returns true if the first packet is sent to the address `address`. Returns false if the ring is
    /// empty.
    fn front_has_address(&self, address: &Address) -> bool
        ensures { result
            ≡ option_map_or (sending.has_address address.now) (slice_get (buffer self.now).items 0) false };

    /// Returns true if the first packet sets the speed of a locomotive to a step. Returns false if the
    /// ring is empty.
    fn front_can_move(&self) -> bool
        ensures { result ≡ option_map_or safety.can_move (slice_get (buffer self.now).items 0) false };

    /// Removes the first packet. An empty ring does not change.
    fn pop_front(&mut self)
        ensures items { buffer self.new ≡ rings.buffer (drop 1 (buffer self.old).items) (buffer self.old).capacity };

    /// Appends a packet. If the ring is full, the function removes the first packet.
    fn push_back(&mut self, packet: Packet)
        ensures { buffer self.new ≡ rings.buffer
            (keep_last (buffer self.old).capacity ((buffer self.old).items
            ++ packet ∷ [])) (buffer self.old).capacity };

    /// Moves the first packet to the end. An empty ring does not change.
    fn rotate(&mut self)
        ensures { buffer self.new ≡ rings.buffer
            (drop 1 (buffer self.old).items ++ take 1 (buffer self.old).items) (buffer self.old).capacity };

    /// Returns true if a command displaces the packet at place `at`, counted from the front.
    fn is_displaced(&self, at: usize, command: &Packet) -> bool
        requires inside { at < length (buffer self.now).items }
        ensures displaces { (entry : Packet) → slice_get (buffer self.now).items at ≡ Some entry
            → (IsTrue result ↔ Displaces command.now entry) };

    /// Copies the packet at place `from` to place `to`, which must not come after `from`.
    fn move_forward(&mut self, from: usize, to: usize)
        requires order { to ≤ from }
        requires inside { from < length (buffer self.old).items }
        ensures items { (packet : Packet) → slice_get (buffer self.old).items from ≡ Some packet
            → buffer self.new ≡ rings.buffer (set (buffer self.old).items to packet) (buffer self.old).capacity };

    /// Removes all packets after the first `len` packets.
    fn truncate(&mut self, len: usize)
        ensures { buffer self.new ≡ rings.buffer (take len (buffer self.old).items) (buffer self.old).capacity };
}

impl PacketRing for HeapCircularBuffer<Packet> {
    ghost buffer = { λ b. b };

    fn len(&self) -> usize {
        HeapCircularBuffer::len(self)
    }

    fn capacity(&self) -> usize {
        HeapCircularBuffer::capacity(self)
    }

    fn front(&self) -> Option<Packet> {
        HeapCircularBuffer::front(self).copied()
    }

    fn front_has_address(&self, address: &Address) -> bool {
        match HeapCircularBuffer::front(self) {
            Some(packet) => has_address(packet, address),
            None => false,
        }
    }

    fn front_can_move(&self) -> bool {
        match HeapCircularBuffer::front(self) {
            Some(packet) => can_move(packet),
            None => false,
        }
    }

    fn pop_front(&mut self) {
        let _ = HeapCircularBuffer::pop_front(self);
    }

    fn push_back(&mut self, packet: Packet) {
        HeapCircularBuffer::push_back(self, packet);
    }

    fn rotate(&mut self) {
        // the length is at most the capacity, so the ring has a free place after the first packet
        // was removed
        let _len = HeapCircularBuffer::len(self);
        if let Some(front) = HeapCircularBuffer::pop_front(self) {
            HeapCircularBuffer::push_back(self, front);
        }
    }

    fn is_displaced(&self, at: usize, command: &Packet) -> bool {
        match HeapCircularBuffer::get(self, at) {
            Some(entry) => displaces(command, entry),
            None => false,
        }
    }

    fn move_forward(&mut self, from: usize, to: usize) {
        if let Some(packet) = HeapCircularBuffer::get(self, from).copied() {
            if let Some(place) = HeapCircularBuffer::get_mut(self, to) {
                *place = packet;
            }
        }
    }

    fn truncate(&mut self, len: usize) {
        self.truncate_back(len);
    }
}
