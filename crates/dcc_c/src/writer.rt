//! Functions that write a CV on a programming track.

ghost use Rattle.std.specs.Prelude.{◌≡◌, ◌≢◌, ◌≤◌, true, false, Some, IfSome};
ghost use Rattle.dcc_packet.specs.declared.cv.CvNumber.{CvNumber};
ghost use Rattle.dcc_service.specs.declared.writer.CvWriter.{CvWriter};
ghost use Rattle.dcc_service.specs.CvWritings.{writing_after, writing_question};
ghost use Rattle.dcc_service.specs.Table.{service_spelling};
ghost use Rattle.dcc_c.specs.Frames.{frame_numbers};
ghost use Rattle.dcc_c.specs.Readers.{is_cv};
ghost use Rattle.dcc_c.specs.Writers.{TellsWriting, writer_numbers};

use crate::frame::DccFrame;
use dcc_packet::{CvNumber, PacketFault};
use dcc_service::{CvWriter, Writing};

/// A writing of a CV, which asks two questions.
#[repr(C)]
#[derive(Clone, Copy, Drop)]
pub struct DccWriter {
    /// The number of the CV, 1 to 1024.
    pub cv: u16,
    /// The byte that is written.
    pub value: u8,
    /// True if the first question has its answer, so that the second question is next.
    pub is_verifying: bool,
}

/// Begins to write the byte `value` to the CV with the number `cv`. Returns 0 on success, and 6 (P6)
/// if `cv` is not 1 to 1024. If the result is not 0, nothing is written.
#[unsafe(no_mangle)]
pub extern "C" fn dcc_writer_new(writer: &mut DccWriter, cv: u16, value: u8) -> u8
    ensures made { is_cv cv ≡ true
        → (number : CvNumber) × (number.number ≡ cv) × (result ≡ 0)
        × (writer.new ≡ writer_numbers (record { cv = number; value = value; is_verifying = false })) }
    ensures refused { is_cv cv ≡ false → result ≡ 6 }
    ensures kept { is_cv cv ≡ false → writer.new ≡ writer.old }
{
    match CvNumber::new(cv) {
        Ok(cv) => {
            *writer = numbers(&CvWriter::new(cv, value));
            0
        }
        Err(fault) => fault.number(),
    }
}

/// Writes the frame of the next question to `question`: first a write of the byte, and then a verify
/// that the CV has the byte. Returns 0 on success, and 13 (P13) if the fields of `writer`
/// are not those of a writing. If the result is not 0, nothing is written. The caller sends three
/// resets, `00 00 00`, and then the frame in `question` five times (NMRA S-9.2.3).
#[unsafe(no_mangle)]
pub extern "C" fn dcc_writer_question(writer: &DccWriter, question: &mut DccFrame) -> u8
    ensures asks { (so_far : CvWriter) → writer.now ≡ writer_numbers so_far
        → (result ≡ 0) × (question.new ≡ frame_numbers (service_spelling (writing_question so_far))) }
    ensures writing { result ≡ 0 → (so_far : CvWriter) × (writer.now ≡ writer_numbers so_far) }
    ensures refused { result ≢ 0 → result ≡ 13 }
    ensures kept { result ≢ 0 → question.new ≡ question.old }
{
    match taken_up(writer) {
        Some(writer) => {
            *question = DccFrame::of_three(writer.question().bytes());
            0
        }
        None => PacketFault::State.number(),
    }
}

/// Applies the answer to the question. The parameter `yes` is true if the decoder acknowledged one
/// of the eight frames of the question. Returns 0 if the second question is left. The answer to the
/// first question does not matter. Returns 1 if the decoder acknowledged the second question, so
/// that the CV has the value. Returns 2 if the decoder did not acknowledge the second question.
/// Returns 13 (P13) if the fields of `writer` are not those of a writing. The writing changes only
/// if the result is 0.
#[unsafe(no_mangle)]
pub extern "C" fn dcc_writer_answer(writer: &mut DccWriter, yes: bool) -> u8
    ensures comes { (so_far : CvWriter) → writer.old ≡ writer_numbers so_far
        → TellsWriting (writing_after so_far yes) result writer.new }
    ensures writing { result ≢ 13 → (so_far : CvWriter) × (writer.old ≡ writer_numbers so_far) }
    ensures refused { 3 ≤ result → result ≡ 13 }
    ensures ended { result ≢ 0 → writer.new ≡ writer.old }
{
    match taken_up(writer) {
        Some(taken) => match taken.answer(yes) {
            Writing::More(more) => {
                *writer = numbers(&more);
                0
            }
            Writing::Done => 1,
            Writing::Failed => 2,
        },
        None => PacketFault::State.number(),
    }
}

/// Returns the C struct of a writing.
fn numbers(writer: &CvWriter) -> DccWriter
    ensures { result ≡ writer_numbers writer.now }
{
    DccWriter {
        cv: writer.cv().number(),
        value: writer.value(),
        is_verifying: writer.is_verifying(),
    }
}

/// Returns the writing with the fields of the C struct `writer`. Returns `None` if these fields are
/// not those of a writing.
fn taken_up(writer: &DccWriter) -> Option<CvWriter>
    ensures found { (so_far : CvWriter) → writer.now ≡ writer_numbers so_far → result ≡ Some so_far }
    ensures writing { IfSome result (λ so_far. writer.now ≡ writer_numbers so_far) }
{
    match CvNumber::new(writer.cv) {
        Ok(cv) => Some(CvWriter::restore(cv, writer.value, writer.is_verifying)),
        Err(_) => None,
    }
}
