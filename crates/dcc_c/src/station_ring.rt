//! The C struct of a ring of packets, in memory that the caller owns.

ghost use Rattle.std.specs.Prelude.{◌≡◌, ◌≤◌, ◌<◌, length};
ghost use Rattle.circular_buffer.specs.Places.{Wraps};

use crate::kept_packet::KeptPacket;
use dcc_packet::{Address, Packet};
use dcc_station::PacketRing;

/// A ring of at most 128 packets, each stored as its frame. In the ring, the first place follows
/// the last place.
#[repr(C)]
#[derive(Clone, Copy, Drop)]
pub struct DccRing {
    packets: [KeptPacket; 128],
    start: u8,
    len: u8,
    capacity: u8,
    ghost fits: { (start < 128) × (len ≤ capacity) × (capacity ≤ 128) × (length packets ≡ 128) },
}

impl DccRing {
    ghost use Rattle.std.specs.Prelude.{◌≡◌, ◌≤◌, ◌<◌, ◌∷◌, ◌++◌, [], length, drop};
    ghost use Rattle.circular_buffer.specs.Buffer.{buffer};
    ghost use Rattle.dcc_c.specs.Stations.{ring_of};

    /// Removes all packets and sets the capacity of the ring. The place of the first packet does not
    /// matter in an empty ring.
    pub fn clear(&mut self, capacity: u8)
        requires { capacity ≤ 128 }
        ensures { ring_of self.new ≡ buffer [] capacity }
    {
        self.len = 0;
        self.capacity = capacity;
    }

    /// Removes the first packet. The ring must not be empty.
    fn remove_front(&mut self)
        requires { 0 < length (ring_of self.old).items }
        ensures { ring_of self.new ≡ buffer (drop 1 (ring_of self.old).items) (ring_of self.old).capacity }
    {
        self.start = place_behind(self.start, 1);
        self.len -= 1;
    }

    /// Appends a packet. The ring must not be full.
    fn add(&mut self, packet: KeptPacket)
        requires { length (ring_of self.old).items < (ring_of self.old).capacity }
        ensures { ring_of self.new ≡ buffer ((ring_of self.old).items ++ packet ∷ []) (ring_of self.old).capacity }
    {
        let behind = place_behind(self.start, self.len);
        self.packets[usize::from(behind)] = packet;
        self.len += 1;
    }
}

impl PacketRing for DccRing {
    ghost use Rattle.dcc_c.specs.Stations.{ring_of};

    ghost buffer = { ring_of };

    fn len(&self) -> usize {
        usize::from(self.len)
    }

    fn capacity(&self) -> usize {
        usize::from(self.capacity)
    }

    fn front(&self) -> Option<Packet> {
        if self.len == 0 {
            return None;
        }
        Some(self.packets[usize::from(self.start)].packet())
    }

    fn front_has_address(&self, address: &Address) -> bool {
        self.len > 0 && self.packets[usize::from(self.start)].has_address(address)
    }

    fn front_can_move(&self) -> bool {
        self.len > 0 && self.packets[usize::from(self.start)].can_move()
    }

    fn pop_front(&mut self) {
        if self.len == 0 {
            return;
        }
        self.remove_front();
    }

    fn push_back(&mut self, packet: Packet) {
        if self.capacity == 0 {
            return;
        }
        if self.len == self.capacity {
            self.remove_front();
        }
        self.add(KeptPacket::of(&packet));
    }

    fn rotate(&mut self) {
        if self.len == 0 {
            return;
        }
        let front = self.packets[usize::from(self.start)];
        self.remove_front();
        self.add(front);
    }

    fn is_displaced(&self, at: usize, command: &Packet) -> bool {
        let place = place_behind(self.start, at as u8);
        self.packets[usize::from(place)].is_displaced_by(command)
    }

    fn move_forward(&mut self, from: usize, to: usize) {
        if from == to {
            return;
        }
        let from = place_behind(self.start, from as u8);
        let to = place_behind(self.start, to as u8);
        self.packets[usize::from(to)] = self.packets[usize::from(from)];
    }

    fn truncate(&mut self, len: usize) {
        if len < usize::from(self.len) {
            self.len = len as u8;
        }
    }
}

/// Returns the place in the ring that is `by` places after `place`.
fn place_behind(place: u8, by: u8) -> u8
    requires inside { place < 128 }
    requires once { by ≤ 128 }
    ensures { Wraps place by 128 result }
{
    (place + by) % 128
}
