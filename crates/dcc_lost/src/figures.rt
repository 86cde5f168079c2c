//! All statistics of a list of half-bits: the statistics of the half-bits and of the packets that
//! are seen, the number of lost packets, and the shortest preamble.

ghost use Rattle.std.specs.Prelude.{ℕ, List};
ghost use Rattle.dcc_timing.specs.Recent.{recent_numbers};
ghost use Rattle.dcc_lost.specs.Figures.{AreTrackFigures, ended_preamble};

use crate::causes::first_or_zero;
use crate::finder::{has_start_bits, longest_frame_at_end};
use crate::nearest::{is_nearest_one, is_nearest_zero};
use dcc_timing::{LastNumbers, Timings};
use dcc_wire::{Fault, Frame, Seen};

/// All statistics of a list of half-bits: a [`Timings`], the number of lost packets in the list, and
/// the shortest preamble of the packets that are seen or lost there (NMRA S-9.1, S-9.2).
///
/// The list grows by half-bits and by runs of equal half-bits, and each statistic covers the whole
/// list so far. The statistics are plain numbers, so the memory of a C program can store them.
///
/// Invariant: a list of half-bits has these statistics.
#[repr(C)]
#[derive(Drop)]
pub struct TrackFigures {
    timings: Timings,
    ended: Ended,
    /// The number of half-bits of ones at the end of the list, at most 65535. A half-bit counts as
    /// half of a one if its nearest class is One.
    ones: u16,
    /// The number of half-bits at the end of the list that no outcome uses, at most 65535.
    unused: u16,
    /// The preamble directly before each of the last 130 half-bits.
    preambles: LastNumbers,
    ghost history: { ∥ ((durations : List ℕ)
        × AreTrackFigures timings ended ones unused (recent_numbers preambles) durations) ∥₁ },
}

/// The number of lost packets in a list of half-bits, and the shortest preamble of the packets that
/// are seen or lost there.
#[repr(C)]
#[derive(Clone, Copy, Debug)]
pub(crate) struct Ended {
    /// The number of lost packets, at most 4294967295.
    lost: u32,
    /// True if the list has a packet. The field `shortest` is then the shortest preamble, in
    /// half-bits and at most 65535.
    has_packet: bool,
    shortest: u16,
}

impl Ended {
    ghost use Rattle.std.specs.Prelude.{◌≡◌, ◌+◌, ◌++◌, ◌∷◌, [], ℕ, List, None, min, length, if◌then◌else◌};
    ghost use Rattle.std.specs.Option.{is_some, option_map};
    ghost use Rattle.dcc_wire.specs.Framing.{report_at, seen};
    ghost use Rattle.dcc_timing.specs.Measures.{Measures};
    ghost use Rattle.dcc_timing.specs.Numbers.{keep_last};
    ghost use Rattle.dcc_lost.specs.Figures.{preambles_from};
    ghost use Rattle.dcc_lost.specs.Inner.{frame_ended, lesser_of};
    ghost use Rattle.dcc_lost.specs.Lost.{frame_lost};
    ghost use Rattle.dcc_lost.specs.Preambles.{preamble_of};

    /// Creates the numbers of a list without packets.
    fn new() -> Ended
        ensures lost { result.lost ≡ 0 }
        ensures shortest { ended_preamble result ≡ None }
    {
        Ended {
            lost: 0,
            has_packet: false,
            shortest: 0,
        }
    }

    /// Counts the packet that ends with the last half-bit of the list, if there is such a packet.
    /// The half-bit has the outcome `outcome`, and `timings` are the statistics of the list. The
    /// numbers `preambles` are the preambles directly before the last 130 half-bits.
    #[inline(never)]
    fn count(&mut self, timings: &Timings, preambles: &LastNumbers, outcome: &Seen)
        ensures lost { (durations : List ℕ) (us : ℕ) → Measures timings.now (durations ++ us ∷ [])
            → seen (durations ++ us ∷ []) ≡ seen durations ++ report_at (length durations) outcome.now
            → self.new.lost
            ≡ min 4294967295 (self.old.lost + (if is_some (frame_lost durations us) then 1 else 0)) }
        ensures shortest { (durations : List ℕ) (us : ℕ) → Measures timings.now (durations ++ us ∷ [])
            → seen (durations ++ us ∷ []) ≡ seen durations ++ report_at (length durations) outcome.now
            → recent_numbers preambles.now ≡ keep_last 130 (preambles_from [] (durations ++ us ∷ []))
            → ended_preamble self.new ≡ lesser_of (ended_preamble self.old)
            (option_map (λ bytes. preamble_of (durations ++ us ∷ []) (length (durations ++ us ∷ []), bytes))
            (frame_ended outcome.now (frame_lost durations us))) }
    {
        let lost = frame_lost(timings, outcome);
        self.lost = self.lost.saturating_add(u32::from(lost.is_some()));
        self.shorten(preamble_before(preambles, frame_ended(outcome, lost)));
    }

    /// Takes the preamble of one more packet. If `preamble` is `None`, nothing changes.
    fn shorten(&mut self, preamble: Option<u16>)
        ensures lost { self.new.lost ≡ self.old.lost }
        ensures shortest { ended_preamble self.new ≡ lesser_of (ended_preamble self.old) preamble }
    {
        match preamble {
            None => (),
            Some(preamble) => {
                self.shortest = lesser(self.has_packet, self.shortest, preamble);
                self.has_packet = true;
            }
        }
    }
}

impl TrackFigures {
    ghost use Rattle.std.specs.Prelude.{◌≡◌, ◌<◌, ◌+◌, ◌^◌, ◌++◌, [], ◌∷◌, ℕ, List, min, length, replicate, false};
    ghost use Rattle.std.specs.Prelude.{◌≢◌, ◌≤◌, ◌↔◌, IsTrue, take};
    ghost use Rattle.dcc_wire.specs.Framing.{StandsFor, is_hunting, rest, seen};
    ghost use Rattle.dcc_wire.specs.Kept.{kept_rest};
    ghost use Rattle.dcc_timing.specs.Measures.{Measures};
    ghost use Rattle.dcc_timing.specs.Numbers.{keep_last};
    ghost use Rattle.dcc_lost.specs.Preambles.{lost_count, shortest_preamble};
    ghost use Rattle.dcc_lost.specs.MeasuresTrack.{MeasuresTrack};

    /// Creates the statistics of the empty list of half-bits.
    pub fn new() -> TrackFigures
        ensures { MeasuresTrack result [] }
    {
        TrackFigures {
            timings: Timings::new(),
            ended: Ended::new(),
            ones: 0,
            unused: 0,
            preambles: LastNumbers::new(),
        }
    }

    /// Removes all half-bits from the list.
    pub fn clear(&mut self)
        ensures { MeasuresTrack self.new [] }
    {
        self.timings.clear();
        self.ended = Ended::new();
        self.ones = 0;
        self.unused = 0;
        self.preambles.clear();
    }

    /// Appends a half-bit of `us` microseconds to the list. The longer list must have fewer than
    /// 2^32 half-bits.
    // each of the two usual classes has its own machine code
    #[inline(always)]
    pub fn push(&mut self, us: u16)
        requires { self.old.timings.halves + 1 < 2 ^ 32 }
        // Some list has the old statistics.
        ensures history { ∥ ((durations : List ℕ) × MeasuresTrack self.old durations) ∥₁ }
        // If a list has the old statistics, the list with this half-bit at its end has the new
        // statistics.
        ensures measures { (durations : List ℕ) → MeasuresTrack self.old durations
            → MeasuresTrack self.new (durations ++ us ∷ []) }
        ensures count { self.new.timings.halves ≡ self.old.timings.halves + 1 }
    {
        match us {
            52..=64 => self.push_inline(us, false),
            90..=10000 => self.push_inline(us, false),
            _ => self.push_apart(us),
        }
    }

    /// Appends the half-bits `halves` to the list. The longer list must have fewer than 2^32
    /// half-bits.
    pub fn push_all(&mut self, halves: &[u16])
        requires { self.old.timings.halves + length halves.now < 2 ^ 32 }
        // Some list has the old statistics.
        ensures history { ∥ ((durations : List ℕ) × MeasuresTrack self.old durations) ∥₁ }
        // If a list has the old statistics, the list with these half-bits at its end has the new
        // statistics.
        ensures measures { (durations : List ℕ) → MeasuresTrack self.old durations
            → MeasuresTrack self.new (durations ++ halves.now) }
        ensures count { self.new.timings.halves ≡ self.old.timings.halves + length halves.now }
    {
        let mut at = 0;
        'halves: while at < halves.len() {
            at += self.pass_some(&halves[at..]);
            if at < halves.len() {
                self.push_inline(halves[at], true);
                at += 1;
            }
        }
    }

    /// Appends half-bits at the beginning of `halves` that form bits of an unfinished body, or that
    /// belong to a preamble. Returns the number of these half-bits.
    #[inline(always)]
    fn pass_some(&mut self, halves: &[u16]) -> usize
        requires { self.old.timings.halves + length halves.now < 2 ^ 32 }
        ensures measures { (durations : List ℕ) → MeasuresTrack self.old durations
            → MeasuresTrack self.new (durations ++ take result halves.now) }
        ensures count { self.new.timings.halves ≡ self.old.timings.halves + result }
        ensures within { result ≤ length halves.now }
    {
        if self.timings.is_hunting() {
            self.pass_ones(halves)
        } else {
            self.pass_bits(halves)
        }
    }

    /// Appends half-bits of the class One at the beginning of `halves`, while no body is unfinished
    /// and no packet can be lost. Returns the number of these half-bits. The longer list must have
    /// fewer than 2^32 half-bits.
    fn pass_ones(&mut self, halves: &[u16]) -> usize
        requires { self.old.timings.halves + length halves.now < 2 ^ 32 }
        ensures measures { (durations : List ℕ) → MeasuresTrack self.old durations
            → MeasuresTrack self.new (durations ++ take result halves.now) }
        ensures count { self.new.timings.halves ≡ self.old.timings.halves + result }
        ensures within { result ≤ length halves.now }
    {
        let most = ones_without_end(self.timings.recent().last(130)).min(halves.len());
        let count = self.timings.pass_ones(&halves[..most]);
        if count == 0 {
            return count;
        }
        push_rising(&mut self.preambles, self.ones.min(self.unused), count);
        self.ones = self.ones.saturating_add(count as u16);
        self.unused = self.unused.saturating_add(count as u16);
        count
    }

    /// Appends half-bits at the beginning of `halves` that form bits of an unfinished body and do not
    /// end this body. Returns the number of these half-bits. No packet ends at them, and none of them
    /// can be in a preamble. The longer list must have fewer than 2^32 half-bits.
    #[inline(always)]
    fn pass_bits(&mut self, halves: &[u16]) -> usize
        requires { self.old.timings.halves + length halves.now < 2 ^ 32 }
        ensures measures { (durations : List ℕ) → MeasuresTrack self.old durations
            → MeasuresTrack self.new (durations ++ take result halves.now) }
        ensures count { self.new.timings.halves ≡ self.old.timings.halves + result }
        ensures within { result ≤ length halves.now }
    {
        let count = self.timings.pass_bits(halves);
        if count == 0 {
            return count;
        }
        // (a body uses all its half-bits, so the number of unused half-bits stays 0)
        self.preambles.take(0, count as u32);
        self.ones = ones_after(self.ones, &halves[..count]);
        count
    }

    /// Appends a half-bit of `us` microseconds to the list.
    #[inline(never)]
    fn push_apart(&mut self, us: u16)
        requires { self.old.timings.halves + 1 < 2 ^ 32 }
        ensures history { ∥ ((durations : List ℕ) × MeasuresTrack self.old durations) ∥₁ }
        ensures measures { (durations : List ℕ) → MeasuresTrack self.old durations
            → MeasuresTrack self.new (durations ++ us ∷ []) }
        ensures count { self.new.timings.halves ≡ self.old.timings.halves + 1 }
    {
        self.push_inline(us, false)
    }

    /// Appends a half-bit of `us` microseconds to the list. The parameter `at_once` changes only the
    /// speed, as in [`Timings::push_shown`].
    #[inline(always)]
    fn push_inline(&mut self, us: u16, at_once: bool)
        requires { self.old.timings.halves + 1 < 2 ^ 32 }
        ensures history { ∥ ((durations : List ℕ) × MeasuresTrack self.old durations) ∥₁ }
        ensures measures { (durations : List ℕ) → MeasuresTrack self.old durations
            → MeasuresTrack self.new (durations ++ us ∷ []) }
        ensures count { self.new.timings.halves ≡ self.old.timings.halves + 1 }
    {
        if !self.timings.pass(us) {
            self.push_shown(us, at_once);
            return;
        }
        self.preambles.push(self.ones.min(self.unused));
        self.ones = ones_next(self.ones, us);
        self.unused = unused_next(self.unused, &Seen::Nothing, self.timings.is_hunting());
        if !can_lose_packet(&self.timings, us) {
            return;
        }
        self.ended
            .count(&self.timings, &self.preambles, &Seen::Nothing);
    }

    /// Appends a half-bit of `us` microseconds that has an outcome to the list. The parameter `at_once`
    /// changes only the speed, as in [`Timings::push_shown`].
    #[inline(never)]
    fn push_shown(&mut self, us: u16, at_once: bool)
        requires room { self.old.timings.halves + 1 < 2 ^ 32 }
        requires shows { (halves : List ℕ) → StandsFor (kept_rest self.old.timings.framer) halves
            → seen (halves ++ us ∷ []) ≢ seen halves }
        ensures history { ∥ ((durations : List ℕ) × MeasuresTrack self.old durations) ∥₁ }
        ensures measures { (durations : List ℕ) → MeasuresTrack self.old durations
            → MeasuresTrack self.new (durations ++ us ∷ []) }
        ensures count { self.new.timings.halves ≡ self.old.timings.halves + 1 }
    {
        let preamble = self.ones.min(self.unused);
        let ones = ones_next(self.ones, us);
        let seen = self.timings.push_shown(us, at_once);
        self.preambles.push(preamble);
        self.ones = ones;
        self.unused = unused_next(self.unused, &seen, self.timings.is_hunting());
        self.ended.count(&self.timings, &self.preambles, &seen);
    }

    /// Appends `n` half-bits of `us` microseconds to the list. The longer list must have fewer than
    /// 2^32 half-bits.
    pub fn push_run(&mut self, us: u16, n: u32)
        requires { self.old.timings.halves + n < 2 ^ 32 }
        // Some list has the old statistics.
        ensures history { ∥ ((durations : List ℕ) × MeasuresTrack self.old durations) ∥₁ }
        // If a list has the old statistics, the list with these half-bits at its end has the new
        // statistics.
        ensures measures { (durations : List ℕ) → MeasuresTrack self.old durations
            → MeasuresTrack self.new (durations ++ replicate n us) }
        ensures count { self.new.timings.halves ≡ self.old.timings.halves + n }
    {
        let mut at = 0;
        'run: while at < n {
            self.push(us);
            at += 1;
        }
    }

    /// Appends `n` half-bits of `us` microseconds to the list, if the longer list has fewer than 2^32
    /// half-bits. Otherwise returns false, and nothing changes.
    pub fn try_push_run(&mut self, us: u16, n: u32) -> bool
        ensures history { ∥ ((durations : List ℕ) × MeasuresTrack self.old durations) ∥₁ }
        ensures measures { IsTrue result → (durations : List ℕ) → MeasuresTrack self.old durations
            → MeasuresTrack self.new (durations ++ replicate n us) }
        ensures fits { (durations : List ℕ) → MeasuresTrack self.old durations
            → IsTrue result ↔ (length durations + n < 2 ^ 32) }
        ensures left { result ≡ false → self.new ≡ self.old }
    {
        if self.timings.halves().checked_add(n).is_none() {
            return false;
        }
        self.push_run(us, n);
        true
    }

    /// Returns the statistics of the half-bits and of the packets that are seen.
    pub fn timings(&self) -> &Timings
        ensures { (durations : List ℕ) → MeasuresTrack self.now durations → Measures result.now durations }
    {
        &self.timings
    }

    /// Returns the number of lost packets, at most 4294967295.
    pub fn lost(&self) -> u32
        ensures { (durations : List ℕ) → MeasuresTrack self.now durations
            → result ≡ min 4294967295 (lost_count durations) }
    {
        self.ended.lost
    }

    /// Returns the shortest preamble of the packets that are seen or lost, in half-bits and at most
    /// 65535. Returns `None` if there are no such packets.
    pub fn shortest_preamble(&self) -> Option<u16>
        ensures { (durations : List ℕ) → MeasuresTrack self.now durations → result ≡ shortest_preamble durations }
    {
        if self.ended.has_packet {
            Some(self.ended.shortest)
        } else {
            None
        }
    }
}

ghost use Rattle.std.specs.Prelude.{◌≡◌, ◌≢◌, ◌++◌, [], ◌∷◌, min, length, false, None, if◌then◌else◌, ◌↔◌, IsTrue};
ghost use Rattle.dcc_wire.specs.Outcomes.{ones_left};
ghost use Rattle.std.specs.Option.{option_map};
ghost use Rattle.dcc_wire.specs.Framing.{is_hunting, report_at, rest, seen};
ghost use Rattle.dcc_timing.specs.Measures.{Measures};
ghost use Rattle.dcc_timing.specs.Numbers.{keep_last};
ghost use Rattle.dcc_lost.specs.Figures.{preambles_from};
ghost use Rattle.dcc_lost.specs.Inner.{frame_ended};
ghost use Rattle.dcc_lost.specs.Lost.{frame_lost};
ghost use Rattle.dcc_lost.specs.Preambles.{all_unused_at_end, nearest_ones_at_end, preamble_of};

/// Returns false if no packet is lost at the last half-bit of a list. This half-bit has `us`
/// microseconds and no outcome, and `timings` are the statistics of the list. Most half-bits are no
/// end of a packet.
#[inline(always)]
fn can_lose_packet(timings: &Timings, us: u16) -> bool
    ensures { (durations : List ℕ) → Measures timings.now (durations ++ us ∷ [])
        → seen (durations ++ us ∷ []) ≡ seen durations
        → result ≡ false → frame_lost durations us ≡ None }
{
    if !is_nearest_one(us) {
        return false;
    }
    if !timings.is_hunting() {
        return false;
    }
    has_start_bits(timings.recent().last(56))
}

/// Returns the frame of the packet that is lost at the last half-bit of a list. This half-bit has
/// the outcome `outcome`, and `timings` are the statistics of the list.
fn frame_lost(timings: &Timings, outcome: &Seen) -> Option<Frame>
    ensures { (durations : List ℕ) (us : ℕ) → Measures timings.now (durations ++ us ∷ [])
        → seen (durations ++ us ∷ []) ≡ seen durations ++ report_at (length durations) outcome.now
        → result ≡ frame_lost durations us }
{
    if !outcome.is_nothing() {
        return None;
    }
    if !timings.is_hunting() {
        return None;
    }
    longest_frame_at_end(timings.recent())
}

/// Returns the frame of the packet that ends with a half-bit: the packet of the outcome `seen`, or
/// the packet with the frame `lost`, which is lost at this half-bit.
fn frame_ended(seen: &Seen, lost: Option<Frame>) -> Option<Frame>
    ensures { result ≡ frame_ended seen.now lost }
{
    match seen {
        Seen::Packet(frame) => Some(*frame),
        Seen::Nothing | Seen::Refused(_) => lost,
    }
}

/// Returns the number of half-bits of ones at the end of a list, at most 65535, to which a half-bit
/// of `us` microseconds was appended. Before, the number was `ones`.
#[inline(always)]
fn ones_next(ones: u16, us: u16) -> u16
    ensures { (durations : List ℕ) → ones ≡ min 65535 (nearest_ones_at_end durations)
        → result ≡ min 65535 (nearest_ones_at_end (durations ++ us ∷ [])) }
{
    if is_nearest_one(us) {
        ones.saturating_add(1)
    } else {
        0
    }
}

ghost use Rattle.std.specs.Prelude.{◌<◌, ◌≤◌, ◌+◌, ℕ, List};
ghost use Rattle.dcc_timing.specs.Ones.{AllOnes};
ghost use Rattle.dcc_lost.specs.Inner.{BeginsBody, CanBeginBody, CanEndFrame, rising};
ghost use Rattle.dcc_lost.specs.Lost.{longest_frame_at_end};

/// Returns a number of half-bits of ones that can follow the half-bits `last`, so that none of them
/// ends a frame. The half-bits `last` are the last 130 half-bits of a list. Returns 0 if there are
/// fewer.
#[inline(always)]
fn ones_without_end(last: &[u16]) -> usize
    ensures quiet { (durations halves : List ℕ) → last.now ≡ keep_last 130 durations → AllOnes halves
        → 0 < length halves → length halves ≤ result → longest_frame_at_end (durations ++ halves) ≡ None }
    // The function returns less than 55 only if a frame can end with the next half-bit.
    ensures stops { length last.now ≡ 130 → result < 55 → CanEndFrame last.now result }
    ensures few { result ≤ 55 }
{
    if last.len() != 130 {
        return 0;
    }
    let mut count = 0;
    // (after 20 ones, a half-bit of a one stands where the last byte would begin)
    'ones: while count < 19 {
        if can_end_frame(last, count) {
            return count;
        }
        count += 1;
    }
    55
}

/// Returns true if a frame can end with the last of `n + 1` half-bits of ones that follow `last`. A
/// frame has zeros before its last three bytes, and a one before its body.
#[inline(always)]
fn can_end_frame(last: &[u16], n: usize) -> bool
    requires few { n < 19 }
    requires whole { length last.now ≡ 130 }
    ensures { IsTrue result ↔ CanEndFrame last.now n }
{
    is_nearest_zero(last[n + 75])
        && is_nearest_zero(last[n + 93])
        && is_nearest_zero(last[n + 111])
        && can_begin_body(last, n)
}

/// Returns true if a body of three to six bytes can begin that ends with the last of `n + 1` half-bits
/// of ones after `last`.
fn can_begin_body(last: &[u16], n: usize) -> bool
    requires few { n < 19 }
    requires whole { length last.now ≡ 130 }
    ensures { IsTrue result ↔ CanBeginBody last.now n }
{
    let mut bytes = 3;
    'bodies: while bytes <= 6 {
        if begins_body(last, n + 128 - 18 * bytes) {
            return true;
        }
        bytes += 1;
    }
    false
}

/// Returns true if the half-bit at the place `at` of `halves` has the nearest class One, and the next
/// half-bit has the nearest class Zero.
#[inline(always)]
fn begins_body(halves: &[u16], at: usize) -> bool
    requires { at + 1 < length halves.now }
    ensures { IsTrue result ↔ BeginsBody halves.now at }
{
    is_nearest_one(halves[at]) && is_nearest_zero(halves[at + 1])
}

/// Appends the `n` numbers from `first` on to `numbers`, each at most 65535.
#[inline(always)]
fn push_rising(numbers: &mut LastNumbers, first: u16, n: usize)
    requires { n ≤ 55 }
    ensures { (list : List ℕ) → recent_numbers numbers.old ≡ keep_last 130 list
        → recent_numbers numbers.new ≡ keep_last 130 (list ++ rising first n) }
{
    let mut rising = [0; 55];
    for i in 0..n {
        rising[i] = first.saturating_add(i as u16);
    }
    numbers.append(&rising[..n]);
}

/// Returns the number of half-bits of ones at the end of a list, at most 65535, to which the half-bits
/// `halves` were appended. Before, the number was `ones`.
#[inline(always)]
fn ones_after(ones: u16, halves: &[u16]) -> u16
    ensures { (durations : List ℕ) → ones ≡ min 65535 (nearest_ones_at_end durations)
        → result ≡ min 65535 (nearest_ones_at_end (durations ++ halves.now)) }
{
    let mut at = halves.len();
    'ones: while at > 0 {
        if !is_nearest_one(halves[at - 1]) {
            return (halves.len() - at).min(65535) as u16;
        }
        at -= 1;
    }
    ones.saturating_add(halves.len().min(65535) as u16)
}

/// Returns the number of half-bits at the end of a list that no outcome uses, at most 65535. A
/// half-bit with the outcome `outcome` was appended to the list, and before, the number was `unused`.
/// The parameter `hunts` is false if a body is unfinished at the end of the list.
#[inline(always)]
fn unused_next(unused: u16, outcome: &Seen, hunts: bool) -> u16
    ensures { (durations : List ℕ) (us : ℕ) → unused ≡ min 65535 (all_unused_at_end durations)
        → seen (durations ++ us ∷ []) ≡ seen durations ++ report_at (length durations) outcome.now
        → hunts ≡ is_hunting (rest (durations ++ us ∷ []))
        → result ≡ min 65535 (all_unused_at_end (durations ++ us ∷ [])) }
{
    if !hunts {
        return 0;
    }
    if outcome.is_nothing() {
        return unused.saturating_add(1);
    }
    ones_left(outcome)
}

/// Returns the number of half-bits at the end of an outcome that can be the first half-bits of a
/// preamble: the two half-bits of an end bit.
#[tactic(auto, unfolding(dcc_wire::specs::Outcomes::ones_left))]
fn ones_left(seen: &Seen) -> u16
    ensures { seen.now ≢ Seen.Nothing → result ≡ ones_left seen.now }
{
    match seen {
        Seen::Nothing => 0,
        Seen::Packet(_) | Seen::Refused(Fault::TooShort | Fault::ErrorByte(_)) => 2,
        Seen::Refused(Fault::BadHalf | Fault::SplitBit | Fault::TooLong) => 0,
    }
}

/// Returns the preamble of the packet with the frame `frame`, which is the end of a list. The
/// numbers `preambles` are the preambles directly before the last 130 half-bits of this list.
fn preamble_before(preambles: &LastNumbers, frame: Option<Frame>) -> Option<u16>
    ensures { (durations : List ℕ) → recent_numbers preambles.now ≡ keep_last 130 (preambles_from [] durations)
        → result ≡ option_map (λ bytes. preamble_of durations (length durations, bytes)) frame }
{
    match frame {
        None => None,
        Some(frame) => Some(first_or_zero(preambles.last(18 * frame.bytes().len() + 2))),
    }
}

/// Returns the lesser of two numbers if `has_other` is true, otherwise `number`.
fn lesser(has_other: bool, other: u16, number: u16) -> u16
    ensures { result ≡ (if has_other then min other number else number) }
{
    if has_other { other.min(number) } else { number }
}
