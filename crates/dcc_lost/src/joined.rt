//! A finder of lost packets in half-bits that are joined with the spikes next to them.

ghost use Rattle.std.specs.Prelude.{◌≡◌, ℕ, List};
ghost use Rattle.dcc_lost.specs.Joining.{IsClosed};
ghost use Rattle.dcc_lost.specs.Joined.{joined};
ghost use Rattle.dcc_lost.specs.JoinedLost.{is_past, packet_found, with_spikes};
ghost use Rattle.dcc_lost.specs.Unused.{Hears};
ghost use Rattle.dcc_wire.specs.Framing.{is_hunting};
ghost use Rattle.dcc_wire.specs.Kept.{kept_rest};
ghost use Rattle.dcc_lost.specs.Finding.{since_of};

use crate::causes::{LostPacket, first_or_zero};
use crate::finder::{has_start_bits, longest_frame_at_end};
use crate::heard::Heard;
use crate::nearest::is_nearest_one;
use crate::rings::{causes_of, exact, sum_of};
use dcc_timing::LastNumbers;
use dcc_wire::{Frame, Seen};

/// A packet that a decoder does not hear, found in joined half-bits.
#[derive(Clone, Copy, Debug, PartialEq, Eq)]
pub struct SpikedPacket {
    /// The packet, with the causes of its joined half-bits.
    pub lost: LostPacket,
    /// The number of spikes in the half-bits of the packet and in at most 20 joined half-bits of
    /// ones directly before the packet.
    pub spikes: u32,
}

/// Finds the packets that a decoder does not hear, in half-bits that are joined with the spikes next
/// to them. The half-bits come one at a time.
#[derive(Drop)]
pub struct SpikeFinder {
    /// Half-bits shorter than this number of microseconds are spikes.
    limit: u16,
    heard: Heard,
    closed: ClosedHalves,
    newest: NewestHalf,
}

/// The last joined half-bits, except the newest one. Each list has one number for each of them.
#[derive(Drop)]
struct ClosedHalves {
    /// The durations.
    durations: LastNumbers,
    /// The numbers of spikes.
    spikes: LastNumbers,
    /// The numbers of half-bits directly before the joined half-bit that no outcome uses.
    unused: LastNumbers,
    /// The number 1 if a packet was seen that ends within the joined half-bit, otherwise 0.
    packets: LastNumbers,
}

/// The newest joined half-bit.
#[derive(Clone, Copy)]
struct NewestHalf {
    /// The sum of the durations, at most 65535.
    us: u16,
    /// The number of spikes, at most 65535.
    spikes: u16,
    /// The number of half-bits directly before the joined half-bit that no outcome uses.
    unused: u16,
    /// The number 1 if a packet was seen that ends within the joined half-bit, otherwise 0.
    packets: u16,
    /// True if the joined half-bit takes in the next half-bit.
    takes_next: bool,
}

impl NewestHalf {
    ghost use Rattle.std.specs.Prelude.{◌≡◌, ◌+◌, min, not, true, false, if◌then◌else◌};
    ghost use Rattle.dcc_timing.specs.Outcomes.{is_packet};

    /// Creates an empty joined half-bit, which takes in the next half-bit. No outcome uses the last
    /// `unused` half-bits before it.
    fn new(unused: u8) -> NewestHalf
        ensures us { result.us ≡ 0 }
        ensures spikes { result.spikes ≡ 0 }
        ensures unused { result.unused ≡ unused }
        ensures packets { result.packets ≡ 0 }
        ensures takes { result.takes_next ≡ true }
    {
        NewestHalf {
            us: 0,
            spikes: 0,
            unused: u16::from(unused),
            packets: 0,
            takes_next: true,
        }
    }

    /// Takes in a half-bit of `us` microseconds. The parameter `seen` is the outcome that ends with
    /// this half-bit.
    fn take_in(&mut self, us: u16, is_spike: bool, seen: &Seen)
        ensures us { self.new.us ≡ min 65535 (self.old.us + us) }
        ensures spikes { self.new.spikes
            ≡ (if is_spike then min 65535 (self.old.spikes + 1) else self.old.spikes) }
        ensures unused { self.new.unused ≡ self.old.unused }
        ensures packets { self.new.packets ≡ (if is_packet (0, seen.now) then 1 else self.old.packets) }
        ensures takes { self.new.takes_next ≡ (if is_spike then not self.old.takes_next else false) }
    {
        self.us = self.us.saturating_add(us);
        self.takes_next = is_spike && !self.takes_next;
        if is_spike {
            self.spikes = self.spikes.saturating_add(1);
        }
        if let Seen::Packet(_) = seen {
            self.packets = 1;
        }
    }
}

impl ClosedHalves {
    ghost use Rattle.std.specs.Prelude.{◌≡◌, ◌++◌, [], ◌∷◌};
    ghost use Rattle.dcc_timing.specs.Numbers.{keep_last};
    ghost use Rattle.dcc_timing.specs.Recent.{recent_numbers};
    ghost use Rattle.dcc_lost.specs.Joining.{IsClosed};

    /// Creates the lists before the first joined half-bit.
    fn new() -> ClosedHalves
        ensures durations { recent_numbers result.durations ≡ [] }
        ensures spikes { recent_numbers result.spikes ≡ [] }
        ensures unused { recent_numbers result.unused ≡ [] }
        ensures packets { recent_numbers result.packets ≡ [] }
    {
        ClosedHalves {
            durations: LastNumbers::new(),
            spikes: LastNumbers::new(),
            unused: LastNumbers::new(),
            packets: LastNumbers::new(),
        }
    }

    /// Appends a joined half-bit.
    fn push(&mut self, half: NewestHalf)
        ensures durations { recent_numbers self.new.durations
            ≡ keep_last 130 (recent_numbers self.old.durations ++ half.us ∷ []) }
        ensures spikes { recent_numbers self.new.spikes
            ≡ keep_last 130 (recent_numbers self.old.spikes ++ half.spikes ∷ []) }
        ensures unused { recent_numbers self.new.unused
            ≡ keep_last 130 (recent_numbers self.old.unused ++ half.unused ∷ []) }
        ensures packets { recent_numbers self.new.packets
            ≡ keep_last 130 (recent_numbers self.old.packets ++ half.packets ∷ []) }
    {
        self.durations.push(half.us);
        self.spikes.push(half.spikes);
        self.unused.push(half.unused);
        self.packets.push(half.packets);
    }
}

impl SpikeFinder {
    ghost use Rattle.std.specs.Prelude.{◌≡◌, ◌≢◌, ◌<◌, ◌++◌, [], ◌∷◌, ℕ, List, None, length, true};
    ghost use Rattle.dcc_lost.specs.Joined.{joined};
    ghost use Rattle.dcc_lost.specs.JoinedLost.{packet_found, packets_closed, report_found};
    ghost use Rattle.dcc_lost.specs.Joining.{IsClosed, IsNewest, Joins};

    /// Creates a finder that has read no half-bit. A half-bit shorter than `limit` microseconds is a
    /// spike.
    pub fn new(limit: u8) -> SpikeFinder
        ensures { Joins limit result [] }
    {
        SpikeFinder {
            limit: u16::from(limit),
            heard: Heard::new(),
            closed: ClosedHalves::new(),
            newest: NewestHalf::new(0),
        }
    }

    /// Takes a half-bit of `us` microseconds. If this half-bit closes a joined half-bit, the function
    /// returns the packet that is found at the end of this joined half-bit, or `None`. The half-bit
    /// `us` is then not part of the packet: the packet ends with the half-bit before it.
    pub fn push(&mut self, us: u16) -> Option<SpikedPacket>
        // If the finder has read a list, it has then read the list with this half-bit at its end.
        ensures reads { (limit : ℕ) (durations : List ℕ) → Joins limit self.old durations
            → Joins limit self.new (durations ++ us ∷ []) }
        // A list whose end is a packet is not empty.
        ensures some { (limit : ℕ) (durations : List ℕ) → Joins limit self.old durations → result ≢ None
            → 0 < length durations }
        // The longer list has this packet at the last place of the old list, and the packets of the old list.
        ensures grows { (limit : ℕ) (durations : List ℕ) → Joins limit self.old durations
            → packets_closed limit (durations ++ us ∷ [])
            ≡ packets_closed limit durations ++ report_found (length durations) result }
    {
        let is_spike = us < self.limit;
        if is_spike || self.newest.takes_next {
            let seen = self.heard.push(us);
            self.newest.take_in(us, is_spike, &seen);
            return None;
        }
        let found = self.close();
        let seen = self.heard.push(us);
        self.newest.take_in(us, false, &seen);
        found
    }

    /// Returns the packet that is found at the end of all half-bits, or `None`. The call takes the
    /// finder, which has read its last half-bit.
    pub fn end(mut self) -> Option<SpikedPacket>
        ensures some { (limit : ℕ) (durations : List ℕ) → Joins limit self durations → result ≢ None
            → 0 < length durations }
        ensures found { (limit : ℕ) (durations : List ℕ) → Joins limit self durations
            → result ≡ packet_found limit durations }
    {
        self.close()
    }

    /// Closes the newest joined half-bit and begins an empty one. Returns the packet that is found at
    /// the end of the closed one, or `None`.
    fn close(&mut self) -> Option<SpikedPacket>
        ensures limit { self.new.limit ≡ self.old.limit }
        ensures heard { self.new.heard ≡ self.old.heard }
        ensures closed { (limit : ℕ) (durations : List ℕ) → Joins limit self.old durations
            → IsClosed limit (joined limit durations) self.new.closed }
        ensures newest { (limit : ℕ) (durations : List ℕ) → Joins limit self.old durations
            → IsNewest limit durations [] true self.new.newest }
        ensures found { (limit : ℕ) (durations : List ℕ) → Joins limit self.old durations
            → result ≡ packet_found limit durations }
    {
        self.closed.push(self.newest);
        self.newest = NewestHalf::new(self.heard.unused());
        packet_at_end(&self.heard, &self.closed)
    }
}

/// Returns the packet that is found at the end of the half-bits that `heard` has read. The list
/// `closed` has all their joined half-bits.
fn packet_at_end(heard: &Heard, closed: &ClosedHalves) -> Option<SpikedPacket>
    ensures { (limit : ℕ) (durations : List ℕ)
        → Hears (kept_rest heard.now.framer) heard.now.unused (since_of heard.now.refused heard.now.since) durations
        → IsClosed limit (joined limit durations) closed.now → result ≡ packet_found limit durations }
{
    if !is_free_end(heard) {
        return None;
    }
    // most joined half-bits are no end of a packet
    if !is_nearest_one(first_or_zero(closed.durations.last(1))) {
        return None;
    }
    if !has_start_bits(closed.durations.last(56)) {
        return None;
    }
    match longest_frame_at_end(&closed.durations) {
        None => None,
        Some(frame) => unless_seen(heard, closed, frame),
    }
}

ghost use Rattle.std.specs.Prelude.{◌&&◌};

/// Returns true if no body is unfinished, and no refusal ended with the last half-bit.
fn is_free_end(heard: &Heard) -> bool
    ensures { result
        ≡ (is_hunting (kept_rest heard.now.framer) && is_past (since_of heard.now.refused heard.now.since)) }
{
    heard.is_hunting() && !matches!(heard.since_refusal(), Some(0))
}

ghost use Rattle.std.specs.Option.{option_map};
ghost use Rattle.dcc_lost.specs.JoinedLost.{unless_seen};

/// Returns the packet with the frame `frame`, whose body is the end of `closed`. If a packet was
/// seen that ends within this body, the result is `None`.
fn unless_seen(heard: &Heard, closed: &ClosedHalves, frame: Frame) -> Option<SpikedPacket>
    ensures { (limit : ℕ) (durations : List ℕ)
        → Hears (kept_rest heard.now.framer) heard.now.unused (since_of heard.now.refused heard.now.since) durations
        → IsClosed limit (joined limit durations) closed.now
        → result ≡ option_map (with_spikes limit durations) (unless_seen (joined limit durations) frame) }
{
    let body = 18 * frame.bytes().len() + 2;
    if sum_of(closed.packets.last(body)) > 0 {
        return None;
    }
    Some(with_spikes(heard, closed, frame))
}

/// Returns the packet with the frame `frame` and its causes. The body of the packet is the end of
/// `closed`.
fn with_spikes(heard: &Heard, closed: &ClosedHalves, frame: Frame) -> SpikedPacket
    ensures { (limit : ℕ) (durations : List ℕ)
        → Hears (kept_rest heard.now.framer) heard.now.unused (since_of heard.now.refused heard.now.since) durations
        → IsClosed limit (joined limit durations) closed.now → result ≡ with_spikes limit durations frame }
{
    let body = 18 * frame.bytes().len() + 2;
    let unused = first_or_zero(closed.unused.last(body));
    let (lost, ones) = causes_of(
        &closed.durations,
        unused,
        exact(heard.since_refusal()),
        frame,
    );
    SpikedPacket {
        lost,
        spikes: sum_of(closed.spikes.last(body + ones)),
    }
}
