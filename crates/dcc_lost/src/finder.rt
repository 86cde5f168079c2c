//! A finder of lost packets.

ghost use Rattle.std.specs.Prelude.{◌≡◌, ◌≤◌, ℕ, List};
ghost use Rattle.dcc_timing.specs.Recent.{recent_numbers};
ghost use Rattle.dcc_lost.specs.Finding.{HasRead, heard_state};

use crate::bodies::frame_after_ones;
use crate::causes::{LostPacket, first_or_zero, off_limits, ones_at_end, short_preamble};
use crate::heard::Heard;
use crate::nearest::{is_nearest_one, is_nearest_zero};
use dcc_timing::LastNumbers;
use dcc_wire::{Frame, Seen};

/// Finds the packets that a decoder does not hear, in half-bits that come one at a time. A finder
/// consists of plain numbers, so the memory of a C program can store it.
#[repr(C)]
#[derive(Drop)]
pub struct LostFinder {
    heard: Heard,
    recent: LastNumbers,
    /// For each half-bit of `recent`, the number of half-bits directly before it that no outcome
    /// uses.
    unused: LastNumbers,
    ghost history: { ∥ ((durations : List ℕ)
        × HasRead (heard_state heard) (recent_numbers recent) (recent_numbers unused) durations) ∥₁ },
}

/// The answer of a finder to a run of equal half-bits.
#[derive(Clone, Copy, Debug, PartialEq, Eq)]
pub struct LostRun {
    /// The packet that is lost in the run.
    pub lost: Option<LostPacket>,
    /// The number of half-bits that the finder took: up to the last half-bit of the lost packet, or
    /// all half-bits of the run.
    pub at: u32,
}

impl LostFinder {
    ghost use Rattle.std.specs.Prelude.{◌≡◌, ◌++◌, [], ◌∷◌, ◌≢◌, ◌≤◌, ◌+◌, ◌-◌, ◌↔◌, IsTrue, ℕ, List, None, length};
    ghost use Rattle.std.specs.Prelude.{replicate, if◌then◌else◌, true, false};
    ghost use Rattle.dcc_wire.specs.Framing.{is_hunting, report_at, seen};
    ghost use Rattle.dcc_wire.specs.Kept.{kept_rest};
    ghost use Rattle.dcc_lost.specs.Lost.{frame_lost, longest_frame_at_end};
    ghost use Rattle.dcc_lost.specs.Unused.{unused_at_end};
    ghost use Rattle.dcc_lost.specs.Causes.{packet_at_end, packet_lost, packets_lost, report_lost, with_causes};
    ghost use Rattle.dcc_lost.specs.Reads.{Follows};

    /// Creates a finder that has read no half-bit.
    pub fn new() -> LostFinder
        ensures { Follows result [] }
    {
        LostFinder {
            heard: Heard::new(),
            recent: LastNumbers::new(),
            unused: LastNumbers::new(),
        }
    }

    /// Forgets all half-bits.
    pub fn clear(&mut self)
        ensures { Follows self.new [] }
    {
        self.heard = Heard::new();
        self.recent.clear();
        self.unused.clear();
    }

    /// Takes a half-bit of `us` microseconds. Returns the packet that is lost at this half-bit, or
    /// `None`.
    #[inline(always)]
    pub fn push(&mut self, us: u16) -> Option<LostPacket>
        // The finder has read at least one list of half-bits.
        ensures history { ∥ ((durations : List ℕ) × Follows self.old durations) ∥₁ }
        // If it has read a list, it has then read the list with this half-bit at its end.
        ensures reads { (durations : List ℕ) → Follows self.old durations
            → Follows self.new (durations ++ us ∷ []) }
        // The result is the packet that is lost at this half-bit, with its causes.
        ensures lost { (durations : List ℕ) → Follows self.old durations
            → result ≡ packet_lost durations us }
        // The longer list has this lost packet at its last place, and the lost packets of the old list.
        ensures grows { (durations : List ℕ) → Follows self.old durations
            → packets_lost (durations ++ us ∷ []) ≡ packets_lost durations ++ report_lost (length durations) result }
    {
        if !self.take(us) {
            return None;
        }
        self.packet_at_end()
    }

    /// Takes a half-bit of `us` microseconds. Returns false if no packet is lost at this half-bit.
    /// If `take` returns true, the result of [`packet_at_end`](Self::packet_at_end) is lost at this
    /// half-bit.
    #[inline(always)]
    pub fn take(&mut self, us: u16) -> bool
        // The finder has read at least one list of half-bits.
        ensures history { ∥ ((durations : List ℕ) × Follows self.old durations) ∥₁ }
        // If it has read a list, it has then read the list with this half-bit at its end.
        ensures reads { (durations : List ℕ) → Follows self.old durations
            → Follows self.new (durations ++ us ∷ []) }
        ensures none { (durations : List ℕ) → Follows self.old durations → result ≡ false
            → packet_lost durations us ≡ None }
        ensures some { (durations : List ℕ) → Follows self.old durations → result ≡ true
            → packet_lost durations us ≡ packet_at_end (durations ++ us ∷ []) }
    {
        let seen = self.hear(us);
        self.can_be_lost(us, &seen)
    }

    /// Takes a half-bit of `us` microseconds. Returns the outcome that ends with this half-bit.
    #[inline(always)]
    fn hear(&mut self, us: u16) -> Seen
        ensures history { ∥ ((durations : List ℕ) × Follows self.old durations) ∥₁ }
        ensures reads { (durations : List ℕ) → Follows self.old durations
            → Follows self.new (durations ++ us ∷ []) }
        ensures sees { (durations : List ℕ) → Follows self.old durations
            → seen (durations ++ us ∷ []) ≡ seen durations ++ report_at (length durations) result }
    {
        let unused = self.heard.unused();
        self.unused.push(u16::from(unused));
        let seen = self.heard.push(us);
        self.recent.push(us);
        seen
    }

    /// Returns false if no packet is lost at the last half-bit that the finder has read. This
    /// half-bit has `us` microseconds, and `outcome` is its outcome.
    #[inline(always)]
    fn can_be_lost(&self, us: u16, outcome: &Seen) -> bool
        ensures none { (durations : List ℕ) → Follows self.now (durations ++ us ∷ [])
            → seen (durations ++ us ∷ []) ≡ seen durations ++ report_at (length durations) outcome.now
            → result ≡ false → frame_lost durations us ≡ None }
        ensures some { (durations : List ℕ) → Follows self.now (durations ++ us ∷ [])
            → seen (durations ++ us ∷ []) ≡ seen durations ++ report_at (length durations) outcome.now
            → result ≡ true → frame_lost durations us ≡ longest_frame_at_end (durations ++ us ∷ []) }
    {
        // most half-bits are no end of a packet
        if !outcome.is_nothing() {
            return false;
        }
        if !is_nearest_one(us) {
            return false;
        }
        self.can_end_packet()
    }

    /// Takes `n` half-bits of `us` microseconds, as `n` calls of [`push`](Self::push) do. The
    /// function stops after the first half-bit at which a packet is lost.
    pub fn push_run(&mut self, us: u16, n: u32) -> LostRun
        // The finder has read at least one list of half-bits.
        ensures history { ∥ ((durations : List ℕ) × Follows self.old durations) ∥₁ }
        // If the finder has read a list, it has then read the list with the taken half-bits at its end.
        ensures reads { (durations : List ℕ) → Follows self.old durations
            → Follows self.new (durations ++ replicate result.at us) }
        // The longer list has the lost packet at its last place, and no other lost packet after the old list.
        ensures grows { (durations : List ℕ) → Follows self.old durations
            → packets_lost (durations ++ replicate result.at us)
            ≡ packets_lost durations ++ report_lost (length durations + result.at - 1) result.lost }
        ensures nothing { result.lost ≡ None → result.at ≡ n }
        ensures something { result.lost ≢ None → (1 ≤ result.at) × (result.at ≤ n) }
    {
        let mut at = 0;
        'run: while at < n {
            let lost = self.push(us);
            at += 1;
            if lost.is_some() {
                return LostRun { lost, at };
            }
        }
        LostRun { lost: None, at }
    }

    /// Returns false if no packet is lost at the last half-bit that the finder has read.
    #[inline(always)]
    fn can_end_packet(&self) -> bool
        ensures no { (durations : List ℕ) → Follows self.now durations → result ≡ false
            → (if is_hunting (kept_rest self.now.heard.framer) then longest_frame_at_end durations else None) ≡ None }
        ensures yes { result ≡ true → is_hunting (kept_rest self.now.heard.framer) ≡ true }
    {
        if !self.heard.is_hunting() {
            return false;
        }
        has_start_bits(self.recent.last(56))
    }

    /// Returns the longest packet whose body ends with the last half-bit that the finder has read,
    /// after at least 8 half-bits of ones. The packet has the causes for which it is lost if no
    /// decoder hears it.
    #[inline(never)]
    pub fn packet_at_end(&self) -> Option<LostPacket>
        ensures { (durations : List ℕ) → Follows self.now durations → result ≡ packet_at_end durations }
    {
        match longest_frame_at_end(&self.recent) {
            None => None,
            Some(frame) => Some(self.with_causes(frame)),
        }
    }

    /// Returns the packet with the frame `frame` and with its causes. The packet is lost at the
    /// last half-bit that the finder has read.
    fn with_causes(&self, frame: Frame) -> LostPacket
        ensures { (durations : List ℕ) → Follows self.now durations
            → result ≡ with_causes durations frame }
    {
        let body = 18 * frame.bytes().len() + 2;
        let last = self.recent.last(body + 20);
        let before = ones_at_end(&last[..last.len().saturating_sub(body)]);
        let (ones, zeros) = off_limits(self.recent.last(body + before));
        let unused = first_or_zero(self.unused.last(body));
        LostPacket {
            frame,
            preamble: short_preamble(before, unused, self.heard.since_refusal()),
            ones,
            zeros,
        }
    }
}

ghost use Rattle.std.specs.Prelude.{◌↔◌, IsTrue, EachIndex, slice_index, replicate};
ghost use Rattle.dcc_lost.specs.Inner.{HasStartBits};
ghost use Rattle.dcc_lost.specs.Lost.{frame_at_end, longest_frame_at_end};

/// Returns true if the 56 half-bits `halves` can be the last three bytes of a body and its end bit.
/// A zero comes before each byte, so the half-bits at the places 0, 18 and 36 must have the nearest
/// class Zero.
#[inline(always)]
pub(crate) fn has_start_bits(halves: &[u16]) -> bool
    ensures { IsTrue result ↔ HasStartBits halves.now }
{
    halves.len() == 56
        && is_nearest_zero(halves[0])
        && is_nearest_zero(halves[18])
        && is_nearest_zero(halves[36])
}

/// Returns the longest frame whose body is the end of `recent`, after at least 8 half-bits of ones.
#[tactic(auto, unfolding(crate::specs::Lost::longest_frame_at_end))]
#[inline(always)]
pub(crate) fn longest_frame_at_end(recent: &LastNumbers) -> Option<Frame>
    ensures { result ≡ longest_frame_at_end (recent_numbers recent.now) }
{
    if let Some(frame) = frame_at_end(recent, 6) {
        return Some(frame);
    }
    if let Some(frame) = frame_at_end(recent, 5) {
        return Some(frame);
    }
    if let Some(frame) = frame_at_end(recent, 4) {
        return Some(frame);
    }
    frame_at_end(recent, 3)
}

/// Returns the frame of `n` bytes whose body is the end of `recent`, after at least 8 half-bits of
/// ones.
#[tactic(auto, unfolding(crate::specs::Lost::frame_at_end))]
#[inline(always)]
fn frame_at_end(recent: &LastNumbers, n: usize) -> Option<Frame>
    requires { n ≤ 6 }
    ensures { result ≡ frame_at_end n (recent_numbers recent.now) }
{
    frame_after_ones(recent.last(18 * n + 10), n)
}
