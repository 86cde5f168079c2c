//! The words of instructions to multifunction decoders, after the address.
ghost use Rattle.std.specs.Prelude.{◌≡◌, true, IfOk};
ghost use Rattle.dcc_packet.specs.Fields.{ParsesAs};
ghost use Rattle.dcc_packet.specs.Forms.{is_said_by, read_by};
ghost use Rattle.dcc_packet.specs.InstructionForms.{cv_access_field, cv_access_forms, instruction_field};
ghost use Rattle.dcc_packet.specs.InstructionForms.{instruction_forms};

use crate::bytes_fit::lemma_value;
use crate::field::{Field, Line};
use crate::fields::{Bit, CvAccess, Direction, Switch};
use crate::form::put_form;
use crate::words::{Words, is_word};
use crate::{
    BitPlace, CvNumber, GroupBits, PacketFault, SpeedBits28, SpeedBits128, StateNumber, What,
};

impl Field for What {
    ghost field = { instruction_field };

    ghost most = { 28 };

    fn take(words: &mut Words) -> Result<What, PacketFault> {
        let keyword = words.word()?;
        let what = instruction(keyword, words)?;
        lemma_value(&what);
        Ok(what)
    }

    fn put(&self, line: &mut Line) {
        match self {
            What::Reset => put_form(line, "reset", &()),
            What::Speed28 { forward, bits } => {
                put_form(line, "speed28", &(Direction { forward: *forward }, *bits))
            }
            What::Speed128 { forward, bits } => {
                put_form(line, "speed128", &(Direction { forward: *forward }, *bits))
            }
            What::Functions(functions) => put_form(line, "functions", functions),
            What::BinaryState { number, on } => {
                put_form(line, "state", &(*number, Switch { on: *on }))
            }
            What::CvWrite { .. }
            | What::CvVerify { .. }
            | What::CvBitWrite { .. }
            | What::CvBitVerify { .. } => put_form(line, "cv", &CvAccess { what: *self }),
        }
    }

    #[tactic(auto, using(crate::proofs::InstructionFormsBack::instruction_is_back))]
    fn lemma_read_back() {}
}

/// Parses the words after `keyword` as an instruction, and removes these words.
fn instruction(keyword: &[u8], words: &mut Words) -> Result<What, PacketFault>
    ensures { ParsesAs (read_by instruction_forms keyword.now words.old) result words.new }
{
    if is_word(keyword, b"reset") {
        Ok(What::Reset)
    } else if is_word(keyword, b"speed28") {
        let (direction, bits) = <(Direction, SpeedBits28)>::take(words)?;
        Ok(What::Speed28 {
            forward: direction.forward,
            bits,
        })
    } else if is_word(keyword, b"speed128") {
        let (direction, bits) = <(Direction, SpeedBits128)>::take(words)?;
        Ok(What::Speed128 {
            forward: direction.forward,
            bits,
        })
    } else if is_word(keyword, b"functions") {
        Ok(What::Functions(GroupBits::take(words)?))
    } else if is_word(keyword, b"state") {
        let (number, switch) = <(StateNumber, Switch)>::take(words)?;
        Ok(What::BinaryState {
            number,
            on: switch.on,
        })
    } else if is_word(keyword, b"cv") {
        Ok(CvAccess::take(words)?.what)
    } else {
        Err(PacketFault::Word)
    }
}

impl Field for CvAccess {
    ghost field = { cv_access_field };

    ghost most = { 25 };

    fn take(words: &mut Words) -> Result<CvAccess, PacketFault> {
        let keyword = words.word()?;
        let what = cv_access(keyword, words)?;
        lemma_value(&what);
        Ok(CvAccess { what })
    }

    fn put(&self, line: &mut Line) {
        match &self.what {
            What::CvWrite { cv, value } => put_form(line, "write", &(*cv, *value)),
            What::CvVerify { cv, value } => put_form(line, "verify", &(*cv, *value)),
            What::CvBitWrite { cv, place, one } => {
                put_form(line, "bitwrite", &(*cv, (*place, Bit { one: *one })))
            }
            What::CvBitVerify { cv, place, one } => {
                put_form(line, "bitverify", &(*cv, (*place, Bit { one: *one })))
            }
            _ => (),
        }
    }

    #[tactic(auto, using(crate::proofs::InstructionFormsBack::cv_access_is_back))]
    fn lemma_read_back() {}
}

/// Parses the words after `cv` and `keyword` as an instruction, and removes these words.
fn cv_access(keyword: &[u8], words: &mut Words) -> Result<What, PacketFault>
    ensures is { ParsesAs (read_by cv_access_forms keyword.now words.old) result words.new }
    ensures said { IfOk result (λ what. is_said_by cv_access_forms what ≡ true) }
{
    if is_word(keyword, b"write") {
        let (cv, value) = <(CvNumber, u8)>::take(words)?;
        Ok(What::CvWrite { cv, value })
    } else if is_word(keyword, b"verify") {
        let (cv, value) = <(CvNumber, u8)>::take(words)?;
        Ok(What::CvVerify { cv, value })
    } else if is_word(keyword, b"bitwrite") {
        let (cv, (place, bit)) = <(CvNumber, (BitPlace, Bit))>::take(words)?;
        Ok(What::CvBitWrite {
            cv,
            place,
            one: bit.one,
        })
    } else if is_word(keyword, b"bitverify") {
        let (cv, (place, bit)) = <(CvNumber, (BitPlace, Bit))>::take(words)?;
        Ok(What::CvBitVerify {
            cv,
            place,
            one: bit.one,
        })
    } else {
        Err(PacketFault::Word)
    }
}
