//! A cab, which is a listener that prints the packets that its decoder hears.

ghost use Rattle.std.specs.Prelude.{⊤};

use dcc_packet::{Address, Board, GroupBits, OtherFrame, Output, SignalAddress, StateNumber, What};
use dcc_regs::Notify;

/// A listener that prints speeds and functions. A listener on real hardware would control a motor
/// and lamps.
#[derive(Drop)]
pub struct Cab<'a, R>(pub &'a R);

impl<'a, R: Print> Notify for Cab<'a, R> {
    ghost told = { λ _ _ _. ⊤ }; // No clause can name what is printed.

    fn speed(&mut self, _to: Address, what: What) {
        let _ = println!(self.0; "motor: {what:?}");
    }

    fn functions(&mut self, _to: Address, bits: GroupBits) {
        let _ = println!(self.0; "lamps: {bits:?}");
    }

    fn idle(&mut self) {}

    fn reset(&mut self, _to: Address) {}

    fn state(&mut self, _to: Address, _number: StateNumber, _on: bool) {}

    fn cv_access(&mut self, _to: Address, _what: What) {}

    fn turnout(&mut self, _board: Board, _output: Output, _on: bool) {}

    fn signal(&mut self, _address: SignalAddress, _aspect: u8) {}

    fn other(&mut self, _frame: OtherFrame) {}
}
