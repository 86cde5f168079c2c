//! The statistics of a list of half-bits, which grows by one half-bit or by a run of equal
//! half-bits.

ghost use Rattle.std.specs.Prelude.{◌≤◌, ◌*◌, ℕ, List};
ghost use Rattle.dcc_wire.specs.Kept.{kept_rest};
ghost use Rattle.dcc_timing.specs.Inner.Counts.{classes_count, outcomes_count, bits_count};
ghost use Rattle.dcc_timing.specs.Measured.{AreMeasured};
ghost use Rattle.dcc_timing.specs.Recent.{recent_numbers};

use crate::bits::{Bits, is_half_of_one};
use crate::classes::Classes;
use crate::outcomes::Outcomes;
use crate::packets::Packets;
use crate::recent::LastNumbers;
use dcc_wire::{KeptFramer, Seen};

/// The statistics of a list of half-bits, which show how near a track is to the limits of NMRA
/// S-9.1.
///
/// The list grows by half-bits and by runs of equal half-bits, and each statistic covers the whole
/// list so far.
///
/// Invariant: a list of half-bits has these statistics.
#[repr(C)]
#[derive(Drop)]
pub struct Timings {
    halves: u32,
    time: u64,
    classes: Classes,
    outcomes: Outcomes,
    packets: Packets,
    framer: KeptFramer,
    recent: LastNumbers,
    ghost time_fits: { time ≤ 65535 * halves },
    ghost classes_fit: { classes_count classes ≤ halves },
    ghost outcomes_fit: { outcomes_count outcomes ≤ halves },
    ghost bits_fit: { bits_count packets.bits ≤ 130 * halves },
    ghost history: { ∥ ((list : List ℕ)
        × AreMeasured halves time classes outcomes packets (kept_rest framer) (recent_numbers recent) list) ∥₁ },
}

impl Timings {
    ghost use Rattle.std.specs.Prelude.{◌≡◌, ◌<◌, ◌+◌, ◌^◌, ℕ, List, [], ◌++◌, length, replicate, sum};
    ghost use Rattle.std.specs.Prelude.{◌∷◌, ◌≢◌, ◌≤◌, ◌↔◌, IsTrue, true, false, get_or, take};
    ghost use Rattle.dcc_wire.specs.Passes.{PassesBody};
    ghost use Rattle.dcc_wire.specs.Framing.{Hunting, StandsFor, is_hunting, report_at, rest, seen};
    ghost use Rattle.dcc_wire.specs.declared.half.Half.TheVariants.{One};
    ghost use Rattle.dcc_wire.specs.Half.{class_of};
    ghost use Rattle.dcc_timing.specs.Numbers.{keep_last};
    ghost use Rattle.dcc_timing.specs.Classes.{AreClasses};
    ghost use Rattle.dcc_timing.specs.Outcomes.{AreOutcomes};
    ghost use Rattle.dcc_timing.specs.PacketBits.{AreBits, packet_bits_in};
    ghost use Rattle.dcc_timing.specs.Gaps.{longest_gap};
    ghost use Rattle.dcc_timing.specs.Measures.{Measures};
    ghost use Rattle.dcc_timing.specs.Ones.{AllOnes};

    /// Creates the statistics of the empty list of half-bits.
    pub fn new() -> Timings
        ensures { Measures result [] }
    {
        Timings {
            halves: 0,
            time: 0,
            classes: Classes::new(),
            outcomes: Outcomes::new(),
            packets: Packets::new(),
            framer: KeptFramer::new(),
            recent: LastNumbers::new(),
        }
    }

    /// Appends a half-bit of `us` microseconds to the list. Returns the outcome that ends with this
    /// half-bit. The longer list must have fewer than 2^32 half-bits.
    #[inline(always)]
    pub fn push(&mut self, us: u16) -> Seen
        requires { self.old.halves + 1 < 2 ^ 32 }
        // Some list has the old statistics.
        ensures history { ∥ ((halves : List ℕ) × Measures self.old halves) ∥₁ }
        // If a list has the old statistics, the list with this half-bit at its end has the new
        // statistics.
        ensures measures { (halves : List ℕ) → Measures self.old halves → Measures self.new (halves ++ us ∷ []) }
        // The result is the outcome of the last half-bit of the longer list.
        ensures sees { (halves : List ℕ) → Measures self.old halves
            → seen (halves ++ us ∷ []) ≡ seen halves ++ report_at (length halves) result }
        ensures count { self.new.halves ≡ self.old.halves + 1 }
    {
        if self.pass(us) {
            return Seen::Nothing;
        }
        self.push_shown(us, false)
    }

    /// Appends a half-bit of `us` microseconds to the list if this half-bit has no outcome, and
    /// returns true. Otherwise returns false, and nothing changes: the caller passes the half-bit to
    /// [`push_shown`](Self::push_shown). Most half-bits of a track have no outcome. The longer list
    /// must have fewer than 2^32 half-bits.
    #[inline(always)]
    pub fn pass(&mut self, us: u16) -> bool
        requires { self.old.halves + 1 < 2 ^ 32 }
        // Some list has the old statistics.
        ensures history { ∥ ((halves : List ℕ) × Measures self.old halves) ∥₁ }
        // If a list has the old statistics, the list with this half-bit at its end has the new
        // statistics, and no more outcomes.
        ensures measures { IsTrue result → (halves : List ℕ) → Measures self.old halves
            → Measures self.new (halves ++ us ∷ []) }
        ensures sees { IsTrue result → (halves : List ℕ) → Measures self.old halves
            → seen (halves ++ us ∷ []) ≡ seen halves }
        ensures count { IsTrue result → self.new.halves ≡ self.old.halves + 1 }
        ensures left { result ≡ false → self.new ≡ self.old }
        ensures shows { result ≡ false → (halves : List ℕ) → StandsFor (kept_rest self.old.framer) halves
            → seen (halves ++ us ∷ []) ≢ seen halves }
    {
        if !self.framer.pass(us) {
            return false;
        }
        count_half(
            &mut self.halves,
            &mut self.time,
            &mut self.classes,
            &mut self.recent,
            us,
        );
        true
    }

    /// Appends half-bits at the beginning of `halves` that form bits of an unfinished body and do not
    /// end this body. Returns the number of these half-bits. Returns 0 and changes nothing if no body
    /// is unfinished, or if the first half-bit of a bit has come already. The longer list must have
    /// fewer than 2^32 half-bits.
    pub fn pass_bits(&mut self, halves: &[u16]) -> usize
        requires { self.old.halves + length halves.now < 2 ^ 32 }
        // Some list has the old statistics.
        ensures history { ∥ ((list : List ℕ) × Measures self.old list) ∥₁ }
        // If a list has the old statistics, the list with these half-bits at its end has the new
        // statistics.
        ensures measures { (list : List ℕ) → Measures self.old list
            → Measures self.new (list ++ take result halves.now) }
        ensures passes { result ≢ 0 → PassesBody (kept_rest self.old.framer) (take result halves.now)
            (kept_rest self.new.framer) }
        ensures left { result ≡ 0 → self.new ≡ self.old }
        ensures count { self.new.halves ≡ self.old.halves + result }
        ensures within { result ≤ length halves.now }
    {
        let count = self.framer.pass_bits(halves);
        if count == 0 {
            return 0;
        }
        count_halves(
            &mut self.halves,
            &mut self.time,
            &mut self.classes,
            &mut self.recent,
            &halves[..count],
        );
        count
    }

    /// Appends the half-bits of the class One at the beginning of `halves`, up to the first half-bit
    /// of another class, if no body is unfinished. Returns the number of these half-bits. Returns 0
    /// and changes nothing if a body is unfinished. The longer list must have fewer than 2^32
    /// half-bits.
    pub fn pass_ones(&mut self, halves: &[u16]) -> usize
        requires { self.old.halves + length halves.now < 2 ^ 32 }
        // Some list has the old statistics.
        ensures history { ∥ ((list : List ℕ) × Measures self.old list) ∥₁ }
        // If a list has the old statistics, the list with these half-bits at its end has the new
        // statistics.
        ensures measures { (list : List ℕ) → Measures self.old list
            → Measures self.new (list ++ take result halves.now) }
        ensures ones { AllOnes (take result halves.now) }
        // If no body is unfinished, the first half-bit that is not appended has another class.
        ensures stops { is_hunting (kept_rest self.old.framer) ≡ true → result < length halves.now
            → class_of (get_or halves.now result 0) ≢ One }
        ensures hunts { result ≢ 0 → is_hunting (kept_rest self.old.framer) ≡ true }
        ensures left { result ≡ 0 → self.new ≡ self.old }
        ensures count { self.new.halves ≡ self.old.halves + result }
        ensures within { result ≤ length halves.now }
    {
        if !self.framer.is_hunting() {
            return 0;
        }
        let ones = take_ones(&mut self.framer, halves);
        if ones == 0 {
            return 0;
        }
        count_halves(
            &mut self.halves,
            &mut self.time,
            &mut self.classes,
            &mut self.recent,
            &halves[..ones],
        );
        ones
    }

    /// Appends a half-bit of `us` microseconds that has an outcome: a half-bit for which
    /// [`pass`](Self::pass) returned false. Returns this outcome. The longer list must have fewer than
    /// 2^32 half-bits. The parameter `at_once` changes only the speed: true is faster on a processor
    /// with vectors, and false is faster on a Cortex-M3.
    #[inline(always)]
    pub fn push_shown(&mut self, us: u16, at_once: bool) -> Seen
        requires room { self.old.halves + 1 < 2 ^ 32 }
        requires shows { (halves : List ℕ) → StandsFor (kept_rest self.old.framer) halves
            → seen (halves ++ us ∷ []) ≢ seen halves }
        // Some list has the old statistics.
        ensures history { ∥ ((halves : List ℕ) × Measures self.old halves) ∥₁ }
        // If a list has the old statistics, the list with this half-bit at its end has the new
        // statistics.
        ensures measures { (halves : List ℕ) → Measures self.old halves → Measures self.new (halves ++ us ∷ []) }
        // The result is the outcome of the last half-bit of the longer list.
        ensures sees { (halves : List ℕ) → Measures self.old halves
            → seen (halves ++ us ∷ []) ≡ seen halves ++ report_at (length halves) result }
        ensures something { result ≢ Seen.Nothing }
        ensures count { self.new.halves ≡ self.old.halves + 1 }
    {
        let seen = self.framer.push_shown(us);
        count_half(
            &mut self.halves,
            &mut self.time,
            &mut self.classes,
            &mut self.recent,
            us,
        );
        self.outcomes.add(&seen);
        self.packets.add(&seen, self.time, &self.recent, at_once);
        seen
    }

    /// Removes all half-bits from the list.
    pub fn clear(&mut self)
        ensures { Measures self.new [] }
    {
        self.halves = 0;
        self.time = 0;
        self.classes = Classes::new();
        self.outcomes = Outcomes::new();
        self.packets = Packets::new();
        self.framer = KeptFramer::new();
        self.recent.clear();
    }

    /// Returns the number of half-bits in the list.
    pub fn halves(&self) -> u32
        ensures value { result ≡ self.now.halves }
        ensures length { (halves : List ℕ) → Measures self.now halves → result ≡ length halves }
    {
        self.halves
    }

    /// Returns the duration of all half-bits together, in microseconds.
    pub fn time(&self) -> u64
        ensures { (halves : List ℕ) → Measures self.now halves → result ≡ sum halves }
    {
        self.time
    }

    /// Returns the number, the least, the greatest and the mean duration of the half-bits of each
    /// class.
    pub fn classes(&self) -> &Classes
        ensures { (halves : List ℕ) → Measures self.now halves → AreClasses result.now halves }
    {
        &self.classes
    }

    /// Returns the number of packets, and the number of refusals by each error.
    pub fn outcomes(&self) -> &Outcomes
        ensures { (halves : List ℕ) → Measures self.now halves → AreOutcomes result.now (seen halves) }
    {
        &self.outcomes
    }

    /// Returns the statistics of the bits of all packets.
    pub fn bits(&self) -> &Bits
        ensures { (halves : List ℕ) → Measures self.now halves → AreBits result.now (packet_bits_in halves) }
    {
        &self.packets.bits
    }

    /// Returns the longest time from the end of a packet to the end of the next packet, in
    /// microseconds. Returns `None` if there are fewer than two packets.
    #[tactic(auto, unfolding(crate::specs::Gaps::longest_gap))]
    pub fn longest_gap(&self) -> Option<u64>
        ensures { (halves : List ℕ) → Measures self.now halves → result ≡ longest_gap halves }
    {
        self.packets.gaps.longest()
    }

    /// Returns true if no body is unfinished at the end of the list: a packet can begin there only
    /// with its preamble.
    #[inline(always)]
    pub fn is_hunting(&self) -> bool
        ensures { (halves : List ℕ) → Measures self.now halves → result ≡ is_hunting (rest halves) }
    {
        self.framer.is_hunting()
    }

    /// Returns the last 130 half-bits of the list.
    #[inline(always)]
    pub fn recent(&self) -> &LastNumbers
        ensures { (halves : List ℕ) → Measures self.now halves → recent_numbers result.now ≡ keep_last 130 halves }
    {
        &self.recent
    }
}

ghost use Rattle.std.specs.Prelude.{◌≡◌, ◌<◌, ◌+◌, ◌^◌, [], ◌∷◌, ◌++◌};
ghost use Rattle.dcc_timing.specs.Classes.{AreClasses};
ghost use Rattle.dcc_timing.specs.Numbers.{keep_last};

/// Appends a half-bit of `us` microseconds to a list, whatever its outcome is. The list has `halves`
/// half-bits, the duration `time` and the statistics `classes`, and ends with `recent`.
#[inline(always)]
fn count_half(
    halves: &mut u32,
    time: &mut u64,
    classes: &mut Classes,
    recent: &mut LastNumbers,
    us: u16,
)
    requires few { halves.old + 1 < 2 ^ 32 }
    requires short { time.old ≤ 65535 * halves.old }
    requires room { classes_count classes.old + 1 < 2 ^ 40 }
    ensures halves { halves.new ≡ halves.old + 1 }
    ensures time { time.new ≡ time.old + us }
    ensures classes { (durations : List ℕ) → AreClasses classes.old durations
        → AreClasses classes.new (durations ++ us ∷ []) }
    ensures class_count { classes_count classes.new ≡ classes_count classes.old + 1 }
    ensures recent { recent_numbers recent.new ≡ keep_last 130 (recent_numbers recent.old ++ us ∷ []) }
{
    recent.push(us);
    *halves += 1;
    *time += u64::from(us);
    classes.add(us, 1);
}

ghost use Rattle.std.specs.Prelude.{length, sum};
ghost use Rattle.dcc_wire.specs.Framing.{StandsFor, seen, report_at};

/// Appends the half-bits `list` to a list, as [`count_half`] does for each of them.
#[inline(always)]
fn count_halves(
    halves: &mut u32,
    time: &mut u64,
    classes: &mut Classes,
    recent: &mut LastNumbers,
    list: &[u16],
)
    requires few { halves.old + length list.now < 2 ^ 32 }
    requires short { time.old ≤ 65535 * halves.old }
    requires room { classes_count classes.old + length list.now < 2 ^ 40 }
    ensures halves { halves.new ≡ halves.old + length list.now }
    ensures time { time.new ≡ time.old + sum list.now }
    ensures short { time.new ≤ 65535 * halves.new }
    ensures classes { (durations : List ℕ) → AreClasses classes.old durations
        → AreClasses classes.new (durations ++ list.now) }
    ensures class_count { classes_count classes.new ≡ classes_count classes.old + length list.now }
    ensures recent { (durations : List ℕ) → recent_numbers recent.old ≡ keep_last 130 durations
        → recent_numbers recent.new ≡ keep_last 130 (durations ++ list.now) }
{
    recent.append(list);
    *halves += list.len() as u32;
    *time += sum_of(list);
    classes.add_all(list);
}

/// Returns the sum of the half-bits `halves`.
#[inline(always)]
fn sum_of(halves: &[u16]) -> u64
    requires { length halves.now < 2 ^ 32 }
    ensures sum { result ≡ sum halves.now }
    ensures short { result ≤ 65535 * length halves.now }
{
    let mut sum = 0;
    for (i, us) in halves.iter().enumerate() {
        sum += u64::from(*us);
    }
    sum
}

ghost use Rattle.std.specs.Prelude.{◌≢◌, get_or, take, true};
ghost use Rattle.dcc_wire.specs.declared.half.Half.TheVariants.{One};
ghost use Rattle.dcc_wire.specs.Framing.{is_hunting};
ghost use Rattle.dcc_wire.specs.Half.{class_of};
ghost use Rattle.dcc_timing.specs.Ones.{AllOnes};

/// Takes the half-bits of the class One at the beginning of `halves`, as calls of `KeptFramer::pass`
/// do. Returns their number. The framer must have no unfinished body.
#[inline(always)]
fn take_ones(framer: &mut KeptFramer, halves: &[u16]) -> usize
    requires { is_hunting (kept_rest framer.old) ≡ true }
    ensures stands { (durations : List ℕ) → StandsFor (kept_rest framer.old) durations
        → StandsFor (kept_rest framer.new) (durations ++ take result halves.now) }
    ensures sees { (durations : List ℕ) → StandsFor (kept_rest framer.old) durations
        → seen (durations ++ take result halves.now) ≡ seen durations }
    ensures ones { AllOnes (take result halves.now) }
    ensures stops { result < length halves.now → class_of (get_or halves.now result 0) ≢ One }
    ensures left { result ≡ 0 → framer.new ≡ framer.old }
    ensures within { result ≤ length halves.now }
{
    let mut at = 0;
    'ones: while at < halves.len() {
        let us = halves[at];
        if !is_half_of_one(us) || !framer.pass(us) {
            return at;
        }
        at += 1;
    }
    at
}
