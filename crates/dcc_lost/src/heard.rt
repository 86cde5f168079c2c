//! A framer, and the half-bits that its outcomes do not use.

ghost use Rattle.std.specs.Prelude.{◌≡◌, ◌≤◌};

use dcc_wire::{Fault, KeptFramer, Seen};

/// A framer, and the numbers of half-bits that follow its last outcome.
#[repr(C)]
#[derive(Drop)]
pub struct Heard {
    framer: KeptFramer,
    /// The number of half-bits at the end of the pushed half-bits that no outcome uses, at most 20.
    /// The two half-bits of an end bit count as unused.
    unused: u8,
    /// True if the last outcome is a refusal. The field `since` is then the number of half-bits
    /// after this refusal, at most 255.
    refused: bool,
    since: u8,
    ghost few: { unused ≤ 20 },
}

impl Heard {
    ghost use Rattle.std.specs.Prelude.{◌≡◌, ◌≤◌, ◌↔◌, ◌++◌, [], ◌∷◌, ℕ, List, length, replicate, IsTrue, IfSome, true};
    ghost use Rattle.dcc_wire.specs.Framing.{Hunting, rest, seen, report_at};
    ghost use Rattle.dcc_wire.specs.Half.{class_of};
    ghost use Rattle.dcc_wire.specs.Kept.{kept_rest};
    ghost use Rattle.dcc_wire.specs.Runs.{IsQuiet};
    ghost use Rattle.dcc_lost.specs.Unused.{Hears, since_refusal, last_outcome, unused_at_end};
    ghost use Rattle.dcc_lost.specs.Finding.{since_of};
    ghost use Rattle.dcc_wire.specs.Framing.{is_hunting};
    ghost use Rattle.dcc_lost.specs.Inner.{unused_next, since_next};

    /// Creates the state before the first half-bit.
    pub(crate) fn new() -> Heard
        ensures { Hears (kept_rest result.framer) result.unused (since_of result.refused result.since) [] }
    {
        Heard {
            framer: KeptFramer::new(),
            unused: 0,
            refused: false,
            since: 0,
        }
    }

    /// Takes a half-bit of `us` microseconds. Returns the outcome that ends with this half-bit.
    #[inline(always)]
    pub(crate) fn push(&mut self, us: u16) -> Seen
        ensures hears { (durations : List ℕ)
            → Hears (kept_rest self.old.framer) self.old.unused (since_of self.old.refused self.old.since) durations
            → Hears (kept_rest self.new.framer) self.new.unused (since_of self.new.refused self.new.since)
            (durations ++ us ∷ []) }
        ensures sees { (durations : List ℕ)
            → Hears (kept_rest self.old.framer) self.old.unused (since_of self.old.refused self.old.since) durations
            → seen (durations ++ us ∷ []) ≡ seen durations ++ report_at (length durations) result }
    {
        let seen = self.framer.push(us);
        self.count(&seen);
        seen
    }

    /// Counts one more half-bit, for which the framer returned `seen`.
    #[inline(always)]
    #[tactic(auto, unfolding(crate::specs::Inner::unused_next, crate::specs::Inner::since_next))]
    fn count(&mut self, seen: &Seen)
        ensures framer { self.new.framer ≡ self.old.framer }
        ensures unused { self.new.unused ≡ unused_next self.old.unused seen.now }
        ensures since { since_of self.new.refused self.new.since
            ≡ since_next (since_of self.old.refused self.old.since) seen.now }
    {
        // most half-bits of a body change nothing
        if seen.is_nothing() && self.unused == 20 && !self.refused {
            return;
        }
        self.unused = unused_next(self.unused, seen);
        let since = since_next(self.since_refusal(), seen);
        self.refused = since.is_some();
        self.since = since.unwrap_or(0);
    }

    /// Returns true if no body is unfinished.
    pub(crate) fn is_hunting(&self) -> bool
        ensures { result ≡ is_hunting (kept_rest self.now.framer) }
    {
        self.framer.is_hunting()
    }

    /// Returns the number of half-bits at the end of the pushed half-bits that no outcome uses, at
    /// most 20.
    pub(crate) fn unused(&self) -> u8
        ensures unused { (durations : List ℕ)
            → Hears (kept_rest self.now.framer) self.now.unused (since_of self.now.refused self.now.since) durations
            → result ≡ unused_at_end durations }
        ensures few { result ≤ 20 }
    {
        if self.is_hunting() { self.unused } else { 0 }
    }

    /// Returns the number of half-bits after the last outcome, at most 255. Returns `None` if this
    /// outcome is not a refusal.
    pub(crate) fn since_refusal(&self) -> Option<u8>
        ensures { result ≡ since_of self.now.refused self.now.since }
    {
        if self.refused { Some(self.since) } else { None }
    }
}

ghost use Rattle.dcc_lost.specs.Inner.{unused_next, since_next};

/// Returns the number of unused half-bits at the end of the pushed half-bits, after a further
/// half-bit was pushed. Before this half-bit the number was `unused`. The framer returned `seen`
/// for this half-bit.
#[tactic(auto, unfolding(crate::specs::Inner::unused_next, dcc_wire::specs::Outcomes::ones_left))]
fn unused_next(unused: u8, seen: &Seen) -> u8
    requires { unused ≤ 20 }
    ensures next { result ≡ unused_next unused seen.now }
    ensures few { result ≤ 20 }
{
    match seen {
        Seen::Nothing => (unused + 1).min(20),
        Seen::Packet(_) | Seen::Refused(Fault::TooShort | Fault::ErrorByte(_)) => 2,
        Seen::Refused(Fault::BadHalf | Fault::SplitBit | Fault::TooLong) => 0,
    }
}

/// Returns the number of half-bits since the last refusal, counting a further half-bit for which
/// the framer returned `seen`. Before this half-bit the number was `since`.
#[tactic(auto, unfolding(crate::specs::Inner::since_next))]
fn since_next(since: Option<u8>, seen: &Seen) -> Option<u8>
    ensures { result ≡ since_next since seen.now }
{
    match seen {
        Seen::Nothing => next_of(since),
        Seen::Packet(_) => None,
        Seen::Refused(_) => Some(0),
    }
}

ghost use Rattle.std.specs.Prelude.{◌+◌, min};
ghost use Rattle.std.specs.Option.{option_map};

/// Returns the number after `since`, at most 255, or `None` if `since` is `None`.
fn next_of(since: Option<u8>) -> Option<u8>
    ensures { result ≡ option_map (λ n. min 255 (n + 1)) since }
{
    match since {
        None => None,
        Some(n) => Some(n.saturating_add(1)),
    }
}
