//! Theorems about service mode.

ghost use Rattle.std.specs.Prelude.{◌≡◌, Option, Some};
ghost use Rattle.dcc_service.specs.declared.packet.ServicePacket.{ServicePacket};
ghost use Rattle.dcc_service.specs.Table.{service_spelling};
ghost use Rattle.dcc_service.specs.QuestionLaws.{QuestionsAreAnswered, OneStep, VerifiesTell, BitVerifiesTell};
ghost use Rattle.dcc_service.specs.QuestionLaws.{WritesAreDone, BitWritesAreDone, KeptCvsStay};
ghost use Rattle.dcc_service.specs.ReadingLaws.{DecodersTellTheTruth, ReadingLeavesTheCvs, TrueAnswersGiveValue};
ghost use Rattle.dcc_service.specs.ReadingLaws.{AllNoGivesNoValue, NumbersHaveTheirBits};
ghost use Rattle.dcc_service.specs.ReadingLaws.{QuestionsHaveTheirFrames, ReadingBegins, ReadingGoesOn};
ghost use Rattle.dcc_service.specs.ReadingLaws.{ReadingIsAnswered};
ghost use Rattle.dcc_service.specs.ReadingLaws.{ReadingKeepsTheCvs, ReadingTellsTheValue};
ghost use Rattle.dcc_service.specs.WritingLaws.{DoneIsTrue, KeptCvsAreCompared, WritingLeavesOthers, WritingsAreDone};
ghost use Rattle.dcc_service.specs.WritingLaws.{DoneIsWritten, FailedIsKept, WritingBegins, WritingGoesOn};

use crate::ServicePacket;
use crate::progress::is_reset;
use dcc_wire::Frame;

/// Theorem: if `read` gets the frame of a service packet, it returns this service packet.
pub fn read_after_frame(packet: &ServicePacket) -> Option<ServicePacket>
    ensures { result ≡ Some packet.now }
{
    ServicePacket::read(&packet.frame())
}

/// Theorem: service packets with equal frames are equal, so no frame encodes two service packets.
#[tactic(auto, using(crate::proofs::OneSpelling::one_packet))]
pub fn one_reading()
    ensures { (one other : ServicePacket) → service_spelling one ≡ service_spelling other → one ≡ other }
{}

/// Theorem: from each state of a decoder, a frame leads to exactly one state, with exactly one
/// answer.
pub fn one_step(frame: &Frame)
    ensures { OneStep frame.now }
{
    if is_reset(frame) {
        return;
    }
    let _ = ServicePacket::read(frame);
}

/// Theorem: a decoder in any state does not acknowledge the first four of the eight frames of a
/// question. The decoder acknowledges each of the last four frames if and only if it acknowledges
/// the service packet of the question.
pub fn questions_are_answered()
    ensures { QuestionsAreAnswered }
{}

/// Theorem: let a question compare a CV or a bit with a value. A decoder answers yes if and only if
/// the CV or the bit has this value. No CV changes.
pub fn verifies_tell_the_truth()
    ensures byte { VerifiesTell }
    ensures bit { BitVerifiesTell }
{}

/// Theorem: a decoder acknowledges the last four frames of a write to a CV other than CV7 and CV8.
/// After the write the CV or the bit has the written value, and all other CVs and bits are
/// unchanged.
pub fn writes_are_done()
    ensures byte { WritesAreDone }
    ensures bit { BitWritesAreDone }
{}

/// Theorem: a decoder acknowledges no frame of a write to CV7 or CV8, and all CVs are unchanged.
pub fn cv7_and_cv8_are_kept()
    ensures { KeptCvsStay }
{}

/// Theorem: let a decoder get the questions of a reading. Its answer to question k, from 0 to 7, is
/// yes if and only if bit k of the CV is one. Its answer to the last question is yes. No CV
/// changes.
pub fn decoders_tell_the_truth()
    ensures answers { DecodersTellTheTruth }
    ensures cvs { ReadingLeavesTheCvs }
{}

/// Theorem: a reading with the true answers for a value ends with this value. A reading whose
/// answers are all no ends without a value.
pub fn readings_tell_the_value()
    ensures value { TrueAnswersGiveValue }
    ensures silence { AllNoGivesNoValue }
{}

/// Theorem: bit k of the value that a reading returns is the answer to question k, counted from 0.
pub fn numbers_have_their_bits()
    ensures { NumbersHaveTheirBits }
{}

/// Theorem: the frame of the next question of a reading is `question_frame` of the answers so far.
pub fn questions_have_their_frames()
    ensures { QuestionsHaveTheirFrames }
{}

/// Theorem: let a caller send each question of a [`CvReader`](crate::CvReader) to a decoder. The
/// reading then ends with the value of the CV, and no CV changes. A caller with its own loop uses
/// this theorem. The clauses are about the start, each question with its answer, and the end.
pub fn readings_under_way()
    ensures begins { ReadingBegins }
    ensures goes_on { ReadingGoesOn }
    ensures keeps { ReadingKeepsTheCvs }
    ensures tells { ReadingTellsTheValue }
    ensures is_answered { ReadingIsAnswered }
{}

/// Theorem: let a decoder get the two questions of a writing, and let its acknowledgements be the
/// answers. If the result is `Done`, the CV has the written value. For each CV except CV7 and CV8
/// the result is `Done`. For CV7 and CV8 the result is `Done` if and only if the CV had the value
/// before. No other CV changes.
pub fn writings_tell_the_truth()
    ensures done { DoneIsTrue }
    ensures writable { WritingsAreDone }
    ensures kept { KeptCvsAreCompared }
    ensures others { WritingLeavesOthers }
{}

/// Theorem: let a caller send each question of a [`CvWriter`](crate::CvWriter) to a decoder. If the
/// writing ends with `Done`, the CV has the written value. The writing ends with `Failed` only for
/// CV7 or CV8 with another value. A caller with its own loop uses this theorem. The clauses are
/// about the start, the first question with its answer, and the end.
pub fn writings_under_way()
    ensures begins { WritingBegins }
    ensures goes_on { WritingGoesOn }
    ensures done { DoneIsWritten }
    ensures failed { FailedIsKept }
{}
