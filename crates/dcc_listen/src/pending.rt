//! Half-bits that were read from an input, and that no framer has taken yet.
ghost use Rattle.std.specs.Prelude.{◌≡◌, ◌≤◌, ◌++◌, ℕ, List, [], None, length, drop, slice_range};
ghost use Rattle.dcc_io.specs.Counted.{TakesHalves};

use crate::AT_ONCE;
use dcc_io::inputs::take_buffered_halves;
use dcc_io::{Input, Source};
use std::marker::Model;

/// Half-bits that were read from an input, and that no framer has taken yet.
#[derive(Drop)]
pub(crate) struct Pending {
    halves: [u16; AT_ONCE],
    start: usize,
    end: usize,
}

impl Model for Pending {
    ghost Value = { List ℕ };

    ghost view = { λ pending. slice_range pending.halves pending.start pending.end };

    ghost invariant = { λ pending. (pending.start ≤ pending.end) × (pending.end ≤ 256) };
}

impl Pending {
    /// Creates an empty list of half-bits.
    pub(crate) fn new() -> Pending
        ensures { result ≡ [] }
    {
        Pending {
            halves: [0; AT_ONCE],
            start: 0,
            end: 0,
        }
    }

    /// Returns the half-bits.
    pub(crate) fn as_slice(&self) -> &[u16]
        ensures { result.now ≡ self.now }
    {
        &self.halves[self.start..self.end]
    }

    /// Removes the first `count` half-bits.
    pub(crate) fn skip(&mut self, count: usize)
        requires { count ≤ length self.old }
        ensures { self.new ≡ drop count self.old }
    {
        self.start += count;
    }

    /// Appends half-bits that the buffer of `input` contains, if the list is empty. Most half-bits of
    /// a capture are read by this function.
    pub(crate) fn refill<R: Source>(&mut self, input: &mut Input<R>)
        requires { input.old.fault ≡ None }
        ensures { (given : List ℕ) × TakesHalves input.old given input.new × (self.new ≡ self.old ++ given) }
    {
        if self.start == self.end {
            self.start = 0;
            self.end = take_buffered_halves(input, &mut self.halves);
        }
    }
}
