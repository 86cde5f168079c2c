//! A framer that is stored as plain numbers.

use crate::byte_bits::bits_of_byte;
use crate::bytes::PacketBytes;
use crate::run::count_on;
use crate::{Fault, Framer, Half, Seen};
use std::marker::Model;

/// The state of a framer as plain numbers. A `KeptFramer` can be copied, and can be stored where a
/// [`Framer`] cannot be stored, for example in the memory of a C program.
#[repr(C)]
#[derive(Clone, Copy)]
pub struct KeptFramer {
    /// True if a body is unfinished.
    pub(crate) in_body: bool,
    /// The number of half-bits of ones between bodies, counted up to 20.
    pub(crate) ones: u8,
    /// True if the first half-bit of the next bit of the body has come. The field `first` is the
    /// bit of this half-bit.
    has_first: bool,
    first: bool,
    /// The exclusive or of the complete bytes of the body. The fields `shift`, `count` and `bytes`
    /// are the bits after the complete bytes, the number of these bits, and the complete bytes.
    xor: u8,
    shift: u8,
    count: u8,
    bytes: PacketBytes,
}

impl Model for KeptFramer {
    ghost use Rattle.dcc_wire.specs.Kept.{Kept, IsKept};

    ghost Value = { Kept };

    ghost view = { λ k. record {
      in_body = k.in_body;
      ones = k.ones;
      has_first = k.has_first;
      first = k.first;
      xor = k.xor;
      shift = k.shift;
      count = k.count;
      bytes = k.bytes;
    } };

    // Invariant: some framer has this state.
    ghost invariant = { λ k. IsKept (record {
      in_body = k.in_body;
      ones = k.ones;
      has_first = k.has_first;
      first = k.first;
      xor = k.xor;
      shift = k.shift;
      count = k.count;
      bytes = k.bytes;
    }) };

    ghost inverse = { λ k. record {
      in_body = k.in_body;
      ones = k.ones;
      has_first = k.has_first;
      first = k.first;
      xor = k.xor;
      shift = k.shift;
      count = k.count;
      bytes = k.bytes;
    } };
}

impl KeptFramer {
    ghost use Rattle.std.specs.Prelude.{◌≡◌, ◌≢◌, ◌↔◌, ◌≤◌, ℕ, Bool, List, ◌++◌, [], ◌∷◌, Some, None, length, map};
    ghost use Rattle.std.specs.Prelude.{replicate, take, IsTrue, true, false, IfSome, IfNone};
    ghost use Rattle.dcc_wire.specs.Bodies.{halves_of};
    ghost use Rattle.dcc_wire.specs.Outcomes.{bytes_in, ones_left};
    ghost use Rattle.dcc_wire.specs.Packed.{packed_bits};
    ghost use Rattle.dcc_wire.specs.Passes.{PassesBody};
    ghost use Rattle.dcc_wire.specs.Half.{bit_of, class_of};
    ghost use Rattle.dcc_wire.specs.Runs.{IsQuietFor, rest_after_run, still_ones};
    ghost use Rattle.dcc_wire.specs.Kept.{IsKept, kept_rest};
    ghost use Rattle.dcc_wire.specs.Framing.{Hunting, StandsFor, is_hunting, seen, report_at};
    ghost use Rattle.dcc_wire.specs.Inner.Steps.{rest_after, answer_to};
    ghost use Rattle.dcc_wire.specs.Inner.KeptSteps.{Grows, HasRoomFor};
    ghost use Rattle.dcc_wire.specs.declared.half.Half.{Half as HalfOf};

    /// Creates the state of a framer that has taken no half-bit.
    #[tactic(auto, using(crate::proofs::FramerSteps::nothing_yet))]
    pub fn new() -> KeptFramer
        ensures is { IsKept result }
        ensures stands { StandsFor (kept_rest result) [] }
    {
        KeptFramer {
            in_body: false,
            ones: 0,
            has_first: false,
            first: false,
            xor: 0,
            shift: 0,
            count: 0,
            bytes: PacketBytes::none(),
        }
    }

    /// Takes a half-bit of `us` microseconds, with the contract of [`Framer::push`].
    #[tactic(auto, unfolding(crate::specs::Framing::StandsFor), using(crate::proofs::FramerSteps::pushes))]
    #[inline(always)]
    pub fn push(&mut self, us: u16) -> Seen
        ensures history { (durations : List ℕ) × StandsFor (kept_rest self.old) durations }
        ensures stands { (durations : List ℕ) → StandsFor (kept_rest self.old) durations
            → StandsFor (kept_rest self.new) (durations ++ us ∷ []) }
        ensures sees { (durations : List ℕ) → StandsFor (kept_rest self.old) durations →
            seen (durations ++ us ∷ []) ≡ seen durations ++ report_at (length durations) result }
        ensures hunts { result ≢ Seen.Nothing → kept_rest self.new ≡ Hunting (ones_left result) }
    {
        self.take_half(Half::of(us))
    }

    /// Takes a half-bit of `us` microseconds if it has no outcome. Most half-bits of a track have
    /// no outcome. Returns true if the function took the half-bit. If the result is false, nothing
    /// changes, and the caller passes the half-bit to [`push`](Self::push).
    #[tactic(auto, unfolding(crate::specs::Framing::StandsFor), using(crate::proofs::FramerSteps::pushes))]
    #[inline(always)]
    pub fn pass(&mut self, us: u16) -> bool
        ensures history { (durations : List ℕ) × StandsFor (kept_rest self.old) durations }
        ensures stands { IsTrue result → (durations : List ℕ) → StandsFor (kept_rest self.old) durations
            → StandsFor (kept_rest self.new) (durations ++ us ∷ []) }
        ensures sees { IsTrue result → (durations : List ℕ) → StandsFor (kept_rest self.old) durations
            → seen (durations ++ us ∷ []) ≡ seen durations }
        ensures left { result ≡ false → self.new ≡ self.old }
        ensures shows { result ≡ false → (durations : List ℕ) → StandsFor (kept_rest self.old) durations
            → seen (durations ++ us ∷ []) ≢ seen durations }
    {
        self.pass_half(Half::of(us))
    }

    /// Takes a half-bit of `us` microseconds that has an outcome: a half-bit for which
    /// [`pass`](Self::pass) returned false. `push_shown` has the contract of [`Framer::push`].
    #[tactic(auto, unfolding(crate::specs::Framing::StandsFor), using(crate::proofs::FramerSteps::pushes))]
    #[inline(always)]
    pub fn push_shown(&mut self, us: u16) -> Seen
        requires { (durations : List ℕ) → StandsFor (kept_rest self.old) durations
            → seen (durations ++ us ∷ []) ≢ seen durations }
        ensures history { (durations : List ℕ) × StandsFor (kept_rest self.old) durations }
        ensures stands { (durations : List ℕ) → StandsFor (kept_rest self.old) durations
            → StandsFor (kept_rest self.new) (durations ++ us ∷ []) }
        ensures sees { (durations : List ℕ) → StandsFor (kept_rest self.old) durations →
            seen (durations ++ us ∷ []) ≡ seen durations ++ report_at (length durations) result }
        ensures hunts { kept_rest self.new ≡ Hunting (ones_left result) }
        ensures something { result ≢ Seen.Nothing }
    {
        let _ = &self.in_body;
        self.take_apart(Half::of(us))
    }

    /// Returns true if half-bits of `us` microseconds change nothing, whatever their number: they
    /// have no outcome, and the state stays the same.
    #[tactic(auto, unfolding(crate::specs::Framing::StandsFor), using(crate::proofs::RunLemmas::skips_still))]
    pub fn stays(&self, us: u16) -> bool
        ensures still { IsTrue result ↔ (kept_rest self.now ≡ Hunting (still_ones (class_of us))) }
        ensures stands { IsTrue result → (durations : List ℕ) (n : ℕ) → StandsFor (kept_rest self.now) durations
            → StandsFor (kept_rest self.now) (durations ++ replicate n us) }
        ensures sees { IsTrue result → (durations : List ℕ) (n : ℕ) → StandsFor (kept_rest self.now) durations
            → seen (durations ++ replicate n us) ≡ seen durations }
    {
        self.is_still(Half::of(us))
    }

    /// Takes half-bits at the beginning of `halves` that form bits of an unfinished body and do not
    /// end this body. Returns the number of these half-bits. Returns 0 and changes nothing if no body
    /// is unfinished, or if the first half-bit of a bit has come already.
    #[inline(always)]
    pub fn pass_bits(&mut self, halves: &[u16]) -> usize
        ensures is { IsKept self.new }
        ensures passes { result ≢ 0 → PassesBody (kept_rest self.old) (take result halves.now) (kept_rest self.new) }
        ensures left { result ≡ 0 → self.new ≡ self.old }
        ensures count { result ≤ length halves.now }
    {
        if !self.in_body || self.has_first {
            return 0;
        }
        let mut at = 0;
        'bytes: while at < halves.len() {
            let more = self.pass_byte(&halves[at..]);
            if more == 0 {
                return at;
            }
            at += more;
        }
        at
    }

    /// Takes bits at the beginning of `halves`, at most up to the end of a byte. Returns the number of
    /// half-bits of these bits.
    #[inline(always)]
    fn pass_byte(&mut self, halves: &[u16]) -> usize
        requires in_body { self.old.in_body ≡ true }
        requires whole { self.old.has_first ≡ false }
        ensures is { IsKept self.new }
        ensures bits { (bits : List Bool) × (halves_of bits ≡ map class_of (take result halves.now))
            × (packed_bits self.new.bytes self.new.count self.new.shift
            ≡ packed_bits self.old.bytes self.old.count self.old.shift ++ bits) }
        ensures unfinished { bytes_in 6 (packed_bits self.new.bytes self.new.count self.new.shift) ≡ None }
        ensures in_body { self.new.in_body ≡ true }
        ensures whole { self.new.has_first ≡ false }
        ensures left { result ≡ 0 → self.new ≡ self.old }
        ensures count { result ≤ length halves.now }
    {
        if !self.bytes.has_room() {
            return 0;
        }
        let part = bits_of_byte(self.shift, self.count, halves);
        if part.count < 9 {
            self.shift = part.shift;
            self.count = part.count;
            return part.at;
        }
        self.bytes.push(part.shift);
        self.xor ^= part.shift;
        self.shift = 0;
        self.count = 0;
        part.at
    }

    /// Takes a half-bit of the class `half`. Returns the outcome that ends with this half-bit, or
    /// `Nothing`.
    #[inline(always)]
    pub(crate) fn take_half(&mut self, half: Half) -> Seen
        ensures is { IsKept self.new }
        ensures history { (durations : List ℕ) × StandsFor (kept_rest self.old) durations }
        ensures after { kept_rest self.new ≡ rest_after (kept_rest self.old) half }
        ensures answer { result ≡ answer_to (kept_rest self.old) half }
        ensures hunts { result ≢ Seen.Nothing → kept_rest self.new ≡ Hunting (ones_left result) }
    {
        if self.pass_half(half) {
            Seen::Nothing
        } else {
            self.take_apart(half)
        }
    }

    /// Takes a half-bit of the class `half` if it has no outcome. Returns true if the function took the
    /// half-bit.
    #[inline(always)]
    pub(crate) fn pass_half(&mut self, half: Half) -> bool
        ensures is { IsKept self.new }
        ensures history { (durations : List ℕ) × StandsFor (kept_rest self.old) durations }
        ensures grows { IsTrue result → Grows self.old half self.new }
        ensures left { result ≡ false → self.new ≡ self.old }
        ensures shows { result ≡ false → answer_to (kept_rest self.old) half ≢ Seen.Nothing }
    {
        match half {
            Half::One => self.pass_known(Half::One),
            Half::Zero => self.pass_known(Half::Zero),
            Half::Bad => self.pass_known(Half::Bad),
        }
    }

    /// Takes a half-bit of a class that the compiler knows, so that each class has its own machine
    /// code. Returns false if the half-bit ends the body.
    #[inline(always)]
    fn pass_known(&mut self, half: Half) -> bool
        ensures is { IsKept self.new }
        ensures history { (durations : List ℕ) × StandsFor (kept_rest self.old) durations }
        ensures grows { IsTrue result → Grows self.old half self.new }
        ensures left { result ≡ false → self.new ≡ self.old }
        ensures shows { result ≡ false → answer_to (kept_rest self.old) half ≢ Seen.Nothing }
    {
        if !self.in_body {
            self.hunt(half);
            return true;
        }
        let Some(bit) = half.bit() else {
            return false;
        };
        if !self.has_room_for(bit) {
            return false;
        }
        self.add(bit);
        true
    }

    /// Takes a half-bit while no body is unfinished.
    #[inline(always)]
    fn hunt(&mut self, half: Half)
        requires { self.old.in_body ≡ false }
        ensures { Grows self.old half self.new }
    {
        if begins_body(self.ones, half) {
            self.in_body = true;
            self.has_first = true;
            self.first = false;
            self.xor = 0;
            self.shift = 0;
            self.count = 0;
            self.bytes = PacketBytes::none();
        } else {
            self.ones = counted(self.ones, half);
        }
    }

    /// Returns true if the body is still unfinished after a half-bit of the bit `bit`.
    #[inline(always)]
    fn has_room_for(&self, bit: bool) -> bool
        requires { self.now.in_body ≡ true }
        ensures { IsTrue result ↔ HasRoomFor self.now bit }
    {
        if !self.has_first {
            return true;
        }
        self.first == bit && (self.count > 0 || !bit && self.bytes.has_room())
    }

    /// Takes a half-bit of the bit `bit` that leaves the body unfinished.
    #[inline(always)]
    fn add(&mut self, bit: bool)
        requires in_body { self.old.in_body ≡ true }
        requires room { HasRoomFor self.old bit }
        ensures { (half : HalfOf) → bit_of half ≡ Some bit → Grows self.old half self.new }
    {
        if !self.has_first {
            self.has_first = true;
            self.first = bit;
            return;
        }
        self.has_first = false;
        let shift = 2 * self.shift + u8::from(bit);
        if self.count < 8 {
            self.shift = shift;
            self.count += 1;
        } else {
            self.bytes.push(shift);
            self.xor ^= shift;
            self.shift = 0;
            self.count = 0;
        }
    }

    /// Takes a half-bit that ends the body, and returns the outcome.
    #[inline(always)]
    pub(crate) fn take_apart(&mut self, half: Half) -> Seen
        requires { answer_to (kept_rest self.old) half ≢ Seen.Nothing }
        ensures is { IsKept self.new }
        ensures history { (durations : List ℕ) × StandsFor (kept_rest self.old) durations }
        ensures after { kept_rest self.new ≡ rest_after (kept_rest self.old) half }
        ensures answer { result ≡ answer_to (kept_rest self.old) half }
        ensures hunts { result ≢ Seen.Nothing → kept_rest self.new ≡ Hunting (ones_left result) }
    {
        let seen = self.outcome(half);
        self.in_body = false;
        self.ones = seen.ones_left();
        seen
    }

    /// Returns the outcome of the body, which ends with a half-bit of the class `half`. This
    /// half-bit is bad, or is the second half-bit of a bit.
    #[inline(always)]
    fn outcome(&self, half: Half) -> Seen
        requires { answer_to (kept_rest self.now) half ≢ Seen.Nothing }
        ensures { result ≡ answer_to (kept_rest self.now) half }
    {
        let first = self.first;
        let Some(bit) = half.bit() else {
            return Seen::Refused(Fault::BadHalf);
        };
        if first != bit {
            return Seen::Refused(Fault::SplitBit);
        }
        if !bit {
            return Seen::Refused(Fault::TooLong);
        }
        Seen::at_end_bit(&self.bytes, self.xor)
    }

    /// Returns true if the framer is between bodies: it counts half-bits of ones.
    #[inline(always)]
    pub fn is_hunting(&self) -> bool
        ensures { result ≡ is_hunting (kept_rest self.now) }
    {
        !self.in_body
    }

    /// Returns the framer with this state. The framer represents the lists of half-bits that the
    /// state represents.
    pub fn framer(&self) -> Framer
        ensures { result ≡ kept_rest self.now }
    {
        let _ = &self.in_body;
        Framer { kept: *self }
    }

    /// Takes two half-bits of the class `half`, which form a bit of a body. Returns the outcome of
    /// the second half-bit. The first half-bit has no outcome. Returns `None`, and changes nothing, if
    /// the two half-bits form no bit of a body. This is so between bodies, after the first half-bit of
    /// a bit, and for a bad class.
    #[inline(always)]
    pub(crate) fn take_bit(&mut self, half: Half) -> Option<Seen>
        ensures is { IsKept self.new }
        ensures takes { self.old.in_body ≡ true → self.old.has_first ≡ false → bit_of half ≢ None → result ≢ None }
        ensures none { IfNone result (self.new ≡ self.old) }
        ensures first { IfSome result (λ seen. answer_to (kept_rest self.old) half ≡ Seen.Nothing) }
        ensures after { IfSome result
            (λ seen. kept_rest self.new ≡ rest_after (rest_after (kept_rest self.old) half) half) }
        ensures answer { IfSome result (λ seen. seen ≡ answer_to (rest_after (kept_rest self.old) half) half) }
        ensures hunts { IfSome result (λ seen. seen ≢ Seen.Nothing → kept_rest self.new ≡ Hunting (ones_left seen)) }
    {
        if self.has_first || !self.in_body {
            return None;
        }
        let Some(bit) = half.bit() else {
            return None;
        };
        self.add(bit);
        if self.pass_known(half) {
            return Some(Seen::Nothing);
        }
        Some(self.take_apart(half))
    }

    /// Returns true if no number of half-bits of the class `half` can begin a body.
    pub(crate) fn is_quiet(&self, half: Half) -> bool
        ensures { IsTrue result ↔ IsQuietFor (kept_rest self.now) half }
    {
        !self.in_body && (half != Half::Zero || self.ones < 20)
    }

    /// Takes `n` half-bits of the class `half`, which have no outcome.
    pub(crate) fn skip(&mut self, half: Half, n: u32)
        requires { IsQuietFor (kept_rest self.old) half }
        ensures is { IsKept self.new }
        ensures after { kept_rest self.new ≡ rest_after_run (kept_rest self.old) half n }
    {
        if !self.in_body {
            self.ones = count_on(self.ones, half, n);
        }
    }

    /// Returns true if half-bits of the class `half` change nothing, whatever their number.
    pub(crate) fn is_still(&self, half: Half) -> bool
        ensures { IsTrue result ↔ (kept_rest self.now ≡ Hunting (still_ones half)) }
    {
        !self.in_body && self.ones == still_ones(half)
    }
}

ghost use Rattle.std.specs.Prelude.{◌≡◌, ◌∷◌, [], false, IsTrue};
ghost use Rattle.dcc_wire.specs.Framing.{Hunting, InBody};
ghost use Rattle.dcc_wire.specs.Inner.Steps.{rest_after};
ghost use Rattle.dcc_wire.specs.Runs.{IsQuiet, still_ones};

/// Returns true if a half-bit of the class `half` begins a body after `ones` half-bits of ones. The
/// number `ones` is counted up to 20.
#[inline(always)]
#[tactic(auto, unfolding(crate::specs::Inner::Steps::rest_after))]
pub(crate) fn begins_body(ones: u8, half: Half) -> bool
    ensures yes { IsTrue result → rest_after (Hunting ones) half ≡ InBody (Half.Zero ∷ []) }
    ensures no { (result ≡ false) → IsQuiet ones half }
{
    half == Half::Zero && ones >= 20
}

/// Returns the number of half-bits of ones, counted up to 20, after `ones` half-bits of ones and
/// one half-bit of the class `half`, which begins no body.
#[inline(always)]
#[tactic(auto, unfolding(crate::specs::Inner::Steps::rest_after))]
pub(crate) fn counted(ones: u8, half: Half) -> u8
    requires { IsQuiet ones half }
    ensures { Hunting result ≡ rest_after (Hunting ones) half }
{
    if half != Half::One {
        return 0;
    }
    if ones < 20 { ones + 1 } else { 20 }
}

/// Returns the number of half-bits of ones, counted up to 20, that stays the same after half-bits of
/// the class `half`.
#[tactic(auto, unfolding(crate::specs::Runs::still_ones))]
fn still_ones(half: Half) -> u8
    ensures { result ≡ still_ones half }
{
    if half == Half::One { 20 } else { 0 }
}
