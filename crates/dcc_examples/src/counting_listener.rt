//! A custom listener that counts accesses to CVs.

ghost use Rattle.std.specs.Prelude.{◌≡◌};
ghost use Rattle.dcc_examples.specs.Counting.{counted_after};

use dcc_packet::{Address, Board, GroupBits, OtherFrame, Output, SignalAddress, StateNumber, What};
use dcc_regs::Notify;

/// A listener with the number of accesses to CVs. The number of accesses stops at 2^32 - 1.
#[derive(Drop)]
pub struct Counter {
    pub accesses: u32,
}

impl Notify for Counter {
    ghost told = { λ old note new. new.accesses ≡ counted_after note old.accesses };

    fn cv_access(&mut self, _to: Address, _what: What) {
        self.accesses = self.accesses.saturating_add(1);
    }

    fn idle(&mut self) {}

    fn reset(&mut self, _to: Address) {}

    fn speed(&mut self, _to: Address, _what: What) {}

    fn functions(&mut self, _to: Address, _bits: GroupBits) {}

    fn state(&mut self, _to: Address, _number: StateNumber, _on: bool) {}

    fn turnout(&mut self, _board: Board, _output: Output, _on: bool) {}

    fn signal(&mut self, _address: SignalAddress, _aspect: u8) {}

    fn other(&mut self, _frame: OtherFrame) {}
}
