//! A ring of packets in an array.

ghost use Rattle.std.specs.Prelude.{◌≡◌, ◌≤◌, ◌<◌, ◌∷◌, ◌++◌, [], length, drop, slice_get, Some};
ghost use Rattle.circular_buffer.specs.Buffer.{buffer};
ghost use Rattle.circular_buffer.specs.Places.{Wraps};

use crate::commands::can_move;
use crate::entries::displaces;
use crate::forget::has_address;
use crate::ring::PacketRing;
use dcc_packet::{Address, Packet};
use std::marker::Model;

/// A ring of at most `CAP` packets in an array. A ring does not allocate.
#[derive(Drop)]
pub struct FixedRing<const CAP: usize> {
    packets: [Packet; CAP],
    start: usize,
    len: usize,
    capacity: usize,
}

impl<const CAP: usize> Model for FixedRing<CAP> {
    ghost use Rattle.std.specs.Prelude.{◌≡◌, ◌<◌, ◌≤◌, length};
    ghost use Rattle.dcc_packet.specs.declared.packet.Packet.{Packet};
    ghost use Rattle.circular_buffer.specs.Buffer.{Buffer, buffer};
    ghost use Rattle.dcc_station.specs.Rings.{ring_items};

    ghost Value = { Buffer Packet };

    ghost view = { λ r. buffer (ring_items r.start r.len r.packets) r.capacity };

    ghost invariant = { λ r. (r.start < CAP) × (r.len ≤ r.capacity) × (r.capacity ≤ CAP) × (0 < r.capacity)
        × (length r.packets ≡ CAP) };
}

impl<const CAP: usize> FixedRing<CAP> {
    /// Creates an empty ring with the capacity `capacity`, which is at least 1 and at most `CAP`.
    pub(crate) fn new(capacity: usize) -> FixedRing<CAP>
        requires some { 0 < capacity }
        requires room { capacity ≤ CAP }
        ensures { result ≡ buffer [] capacity }
    {
        FixedRing {
            packets: [Packet::Idle; CAP],
            start: 0,
            len: 0,
            capacity,
        }
    }

    /// Removes and returns the first packet. The ring must not be empty.
    fn take_front(&mut self) -> Packet
        requires { 0 < length self.old.items }
        ensures front { slice_get self.old.items 0 ≡ Some result }
        ensures others { self.new ≡ buffer (drop 1 self.old.items) self.old.capacity }
    {
        let front = self.packets[self.start];
        self.start = place_behind(self.start, 1, CAP);
        self.len -= 1;
        front
    }

    /// Appends a packet. The ring must not be full.
    fn add(&mut self, packet: Packet)
        requires { length self.old.items < self.old.capacity }
        ensures { self.new ≡ buffer (self.old.items ++ packet ∷ []) self.old.capacity }
    {
        let behind = place_behind(self.start, self.len, CAP);
        self.packets[behind] = packet;
        self.len += 1;
    }
}

/// Returns the place that is `by` places after `place`. The first place follows the last place.
fn place_behind(place: usize, by: usize, places: usize) -> usize
    requires inside { place < places }
    requires once { by ≤ places }
    ensures { Wraps place by places result }
{
    let to_end = places - place;
    if by < to_end { place + by } else { by - to_end }
}

impl<const CAP: usize> PacketRing for FixedRing<CAP> {
    ghost buffer = { λ r. r };

    // this method and the next method name the packets, since the checker rejects a method that
    // reads only the numbers
    fn len(&self) -> usize {
        let FixedRing {
            packets: _packets,
            len,
            ..
        } = self;
        *len
    }

    fn capacity(&self) -> usize {
        let FixedRing {
            packets: _packets,
            capacity,
            ..
        } = self;
        *capacity
    }

    fn front(&self) -> Option<Packet> {
        if self.len == 0 {
            return None;
        }
        self.packets.get(self.start).copied()
    }

    fn front_has_address(&self, address: &Address) -> bool {
        self.len > 0 && has_address(&self.packets[self.start], address)
    }

    fn front_can_move(&self) -> bool {
        self.len > 0 && can_move(&self.packets[self.start])
    }

    fn pop_front(&mut self) {
        if self.len == 0 {
            return;
        }
        let _front = self.take_front();
    }

    fn push_back(&mut self, packet: Packet) {
        if self.len == self.capacity {
            let _ = self.take_front();
        }
        self.add(packet);
    }

    fn rotate(&mut self) {
        if self.len == 0 {
            return;
        }
        let front = self.take_front();
        self.add(front);
    }

    fn is_displaced(&self, at: usize, command: &Packet) -> bool {
        displaces(command, &self.packets[place_behind(self.start, at, CAP)])
    }

    fn move_forward(&mut self, from: usize, to: usize) {
        let from = place_behind(self.start, from, CAP);
        let to = place_behind(self.start, to, CAP);
        self.packets[to] = self.packets[from];
    }

    fn truncate(&mut self, len: usize) {
        let _packets = &self.packets;
        self.len = self.len.min(len);
    }
}
