//! The values in packet lines, and how they are written as words.
ghost use Rattle.dcc_packet.specs.LineFields.{board_field, output_field, signal_field, switch_field, bit_field};
ghost use Rattle.dcc_packet.specs.LineFields.{direction_field, small_field, number_field, address_field};
ghost use Rattle.dcc_packet.specs.LineFields.{speed28_field, speed128_field, functions_field, state_field, cv_field};
ghost use Rattle.dcc_packet.specs.LineFields.{no_fields, place_field};

use crate::field::{Field, Line};
use crate::line_word::{address, bit_state, direction, group, switch};
use crate::numeral::{number, small_number};
use crate::to_line_word::{
    direction_word, group_word, put_address, put_number, put_word, state_word, switch_word,
};
use crate::words::Words;
use crate::{
    Address, BitPlace, Board, CvNumber, GroupBits, Output, PacketFault, SignalAddress, SpeedBits28,
    SpeedBits128, StateNumber, What,
};

/// The word `on` or `off` of a line.
#[derive(Clone, Copy)]
pub struct Switch {
    /// True if the word is `on`.
    pub on: bool,
}

/// The direction of travel of a locomotive: the word `f` (forward) or `r` (reverse).
#[derive(Clone, Copy)]
pub struct Direction {
    /// True if the direction is forward.
    pub forward: bool,
}

/// A word `1` or `0`: the value of a bit of a CV, or the last output of a pair that was turned on.
#[derive(Clone, Copy)]
pub struct Bit {
    /// True if the word is `1`.
    pub one: bool,
}

/// An instruction that accesses a CV, as the words after `cv`.
#[derive(Clone, Copy)]
pub struct CvAccess {
    /// The instruction, which is an access to a CV.
    pub what: What,
}

/// The value `()` is written as no words.
impl Field for () {
    ghost field = { no_fields };

    ghost most = { 0 };

    fn take(_words: &mut Words) -> Result<(), PacketFault> {
        Ok(())
    }

    fn put(&self, _line: &mut Line) {}

    fn lemma_read_back() {}
}

impl Field for Address {
    ghost field = { address_field };

    ghost most = { 7 };

    fn take(words: &mut Words) -> Result<Address, PacketFault> {
        words.word().and_then(address)
    }

    fn put(&self, line: &mut Line) {
        put_address(line, self);
    }

    #[tactic(auto, using(crate::proofs::LineFieldsBack::address_is_back))]
    fn lemma_read_back() {}
}

impl Field for Board {
    ghost field = { board_field };

    ghost most = { 6 };

    fn take(words: &mut Words) -> Result<Board, PacketFault> {
        u16::take(words).and_then(Board::new)
    }

    fn put(&self, line: &mut Line) {
        put_number(line, self.number);
    }

    #[tactic(auto, using(crate::proofs::LineFieldsBack::board_is_back))]
    fn lemma_read_back() {}
}

impl Field for Output {
    ghost field = { output_field };

    ghost most = { 6 };

    fn take(words: &mut Words) -> Result<Output, PacketFault> {
        u8::take(words).and_then(Output::new)
    }

    fn put(&self, line: &mut Line) {
        put_number(line, u16::from(self.number));
    }

    #[tactic(auto, using(crate::proofs::LineFieldsBack::output_is_back))]
    fn lemma_read_back() {}
}

impl Field for SignalAddress {
    ghost field = { signal_field };

    ghost most = { 6 };

    fn take(words: &mut Words) -> Result<SignalAddress, PacketFault> {
        u16::take(words).and_then(SignalAddress::new)
    }

    fn put(&self, line: &mut Line) {
        put_number(line, self.number);
    }

    #[tactic(auto, using(crate::proofs::LineFieldsBack::signal_is_back))]
    fn lemma_read_back() {}
}

impl Field for Switch {
    ghost field = { switch_field };

    ghost most = { 4 };

    fn take(words: &mut Words) -> Result<Switch, PacketFault> {
        let on = words.word().and_then(switch)?;
        Ok(Switch { on })
    }

    fn put(&self, line: &mut Line) {
        put_word(line, switch_word(self.on));
    }

    #[tactic(auto, using(crate::proofs::LineFieldsBack::switch_is_back))]
    fn lemma_read_back() {}
}

impl Field for Direction {
    ghost field = { direction_field };

    ghost most = { 2 };

    fn take(words: &mut Words) -> Result<Direction, PacketFault> {
        let forward = words.word().and_then(direction)?;
        Ok(Direction { forward })
    }

    fn put(&self, line: &mut Line) {
        put_word(line, direction_word(self.forward));
    }

    #[tactic(auto, using(crate::proofs::LineFieldsBack::direction_is_back))]
    fn lemma_read_back() {}
}

impl Field for Bit {
    ghost field = { bit_field };

    ghost most = { 2 };

    fn take(words: &mut Words) -> Result<Bit, PacketFault> {
        let one = words.word().and_then(bit_state)?;
        Ok(Bit { one })
    }

    fn put(&self, line: &mut Line) {
        put_word(line, state_word(self.one));
    }

    #[tactic(auto, using(crate::proofs::LineFieldsBack::bit_is_back))]
    fn lemma_read_back() {}
}

impl Field for SpeedBits28 {
    ghost field = { speed28_field };

    ghost most = { 6 };

    fn take(words: &mut Words) -> Result<SpeedBits28, PacketFault> {
        u8::take(words).and_then(SpeedBits28::new)
    }

    fn put(&self, line: &mut Line) {
        put_number(line, u16::from(self.bits));
    }

    #[tactic(auto, using(crate::proofs::LineFieldsBack::speed28_is_back))]
    fn lemma_read_back() {}
}

impl Field for SpeedBits128 {
    ghost field = { speed128_field };

    ghost most = { 6 };

    fn take(words: &mut Words) -> Result<SpeedBits128, PacketFault> {
        u8::take(words).and_then(SpeedBits128::new)
    }

    fn put(&self, line: &mut Line) {
        put_number(line, u16::from(self.bits));
    }

    #[tactic(auto, using(crate::proofs::LineFieldsBack::speed128_is_back))]
    fn lemma_read_back() {}
}

impl Field for GroupBits {
    ghost field = { functions_field };

    ghost most = { 9 };

    fn take(words: &mut Words) -> Result<GroupBits, PacketFault> {
        let group = words.word().and_then(group)?;
        let bits = u8::take(words)?;
        GroupBits::new(group, bits)
    }

    fn put(&self, line: &mut Line) {
        put_word(line, group_word(self.group));
        put_number(line, u16::from(self.bits));
    }

    #[tactic(auto, using(crate::proofs::LineFieldsBack::functions_are_back))]
    fn lemma_read_back() {}
}

impl Field for StateNumber {
    ghost field = { state_field };

    ghost most = { 6 };

    fn take(words: &mut Words) -> Result<StateNumber, PacketFault> {
        u8::take(words).and_then(StateNumber::new)
    }

    fn put(&self, line: &mut Line) {
        put_number(line, u16::from(self.number));
    }

    #[tactic(auto, using(crate::proofs::LineFieldsBack::state_is_back))]
    fn lemma_read_back() {}
}

impl Field for CvNumber {
    ghost field = { cv_field };

    ghost most = { 6 };

    fn take(words: &mut Words) -> Result<CvNumber, PacketFault> {
        u16::take(words).and_then(CvNumber::new)
    }

    fn put(&self, line: &mut Line) {
        put_number(line, self.number);
    }

    #[tactic(auto, using(crate::proofs::LineFieldsBack::cv_is_back))]
    fn lemma_read_back() {}
}

impl Field for BitPlace {
    ghost field = { place_field };

    ghost most = { 6 };

    fn take(words: &mut Words) -> Result<BitPlace, PacketFault> {
        u8::take(words).and_then(BitPlace::new)
    }

    fn put(&self, line: &mut Line) {
        put_number(line, u16::from(self.place));
    }

    #[tactic(auto, using(crate::proofs::LineFieldsBack::place_is_back))]
    fn lemma_read_back() {}
}

impl Field for u8 {
    ghost field = { small_field };

    ghost most = { 6 };

    fn take(words: &mut Words) -> Result<u8, PacketFault> {
        words.word().and_then(small_number)
    }

    fn put(&self, line: &mut Line) {
        put_number(line, u16::from(*self));
    }

    #[tactic(auto, using(crate::proofs::LineFieldsBack::small_is_back))]
    fn lemma_read_back() {}
}

impl Field for u16 {
    ghost field = { number_field };

    ghost most = { 6 };

    fn take(words: &mut Words) -> Result<u16, PacketFault> {
        words.word().and_then(number)
    }

    fn put(&self, line: &mut Line) {
        put_number(line, *self);
    }

    #[tactic(auto, using(crate::proofs::LineFieldsBack::number_is_back))]
    fn lemma_read_back() {}
}
