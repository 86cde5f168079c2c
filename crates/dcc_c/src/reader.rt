//! Functions that read a CV on a programming track.

ghost use Rattle.std.specs.Prelude.{◌≡◌, ◌≢◌, ◌≤◌, ◌∷◌, ◌++◌, [], true, false, Some, IfSome};
ghost use Rattle.dcc_packet.specs.declared.cv.CvNumber.{CvNumber};
ghost use Rattle.dcc_service.specs.declared.packet.ServicePacket.{ServicePacket};
ghost use Rattle.dcc_service.specs.declared.reader.Reading.{Reading};
ghost use Rattle.dcc_service.specs.CvAnswers.{Asks, CvAnswers};
ghost use Rattle.dcc_service.specs.Readings.{ReadingEnds};
ghost use Rattle.dcc_service.specs.Table.{service_spelling};
ghost use Rattle.dcc_c.specs.Frames.{frame_numbers};
ghost use Rattle.dcc_c.specs.Readers.{IsReading, Tells, is_cv, reader_numbers};

use crate::frame::DccFrame;
use dcc_packet::{CvNumber, PacketFault};
use dcc_service::{CvReader, Reading};

/// A reading of a CV, which asks nine questions.
#[repr(C)]
#[derive(Clone, Copy, Drop)]
pub struct DccReader {
    /// The number of the CV, 1 to 1024.
    pub cv: u16,
    /// The number of answers, 0 to 8. After n answers, the bits 0 to n - 1 of the CV are known.
    pub known: u8,
    /// The value of the known bits. The unknown bits are 0.
    pub value: u8,
}

/// Begins to read the CV with the number `cv`. Returns 0 on success, and 6 (P6) if `cv` is not 1 to
/// 1024. If the result is not 0, nothing is written.
#[unsafe(no_mangle)]
pub extern "C" fn dcc_reader_new(reader: &mut DccReader, cv: u16) -> u8
    ensures made { is_cv cv ≡ true
        → (number : CvNumber) × (number.number ≡ cv) × (result ≡ 0)
        × IsReading reader.new (record { cv = number; answers = [] }) }
    ensures refused { is_cv cv ≡ false → result ≡ 6 }
    ensures kept { is_cv cv ≡ false → reader.new ≡ reader.old }
{
    match CvNumber::new(cv) {
        Ok(cv) => {
            *reader = numbers(&CvReader::new(cv));
            0
        }
        Err(fault) => fault.number(),
    }
}

/// Writes the frame of the next question to `question`. Returns 0 on success, and 13 (P13) if the
/// fields of `reader` are not those of a reading. If the result is not 0, nothing is written. The
/// caller sends three resets, `00 00 00`, and then the frame in `question` five times (NMRA
/// S-9.2.3).
#[unsafe(no_mangle)]
pub extern "C" fn dcc_reader_question(reader: &DccReader, question: &mut DccFrame) -> u8
    ensures asks { (so_far : CvAnswers) → IsReading reader.now so_far →
        (packet : ServicePacket) × Asks so_far packet × (result ≡ 0)
        × (question.new ≡ frame_numbers (service_spelling packet)) }
    ensures reading { result ≡ 0 → (so_far : CvAnswers) × IsReading reader.now so_far }
    ensures refused { result ≢ 0 → result ≡ 13 }
    ensures kept { result ≢ 0 → question.new ≡ question.old }
{
    match taken_up(reader) {
        Some(reader) => {
            *question = DccFrame::of_three(reader.question().bytes());
            0
        }
        None => PacketFault::State.number(),
    }
}

/// Applies the answer to the question. The parameter `yes` is true if the decoder acknowledged one
/// of the eight frames of the question. Returns 0 if a question is left. Returns 1 if the reading
/// ended with a value, and writes this value to `value`. Returns 2 (S1) if the decoder did not
/// acknowledge the last question, so that the value is unknown. Returns 13 (P13) if the fields of
/// `reader` are not those of a reading. The reading changes only if the result is 0.
#[unsafe(no_mangle)]
pub extern "C" fn dcc_reader_answer(reader: &mut DccReader, yes: bool, value: &mut u8) -> u8
    ensures comes { (so_far : CvAnswers) → IsReading reader.old so_far →
        (reading : Reading) × ReadingEnds so_far.cv (so_far.answers ++ yes ∷ []) reading
        × Tells reading result reader.new value.new }
    ensures reading { result ≢ 13 → (so_far : CvAnswers) × IsReading reader.old so_far }
    ensures refused { 3 ≤ result → result ≡ 13 }
    ensures ended { result ≢ 0 → reader.new ≡ reader.old }
    ensures untold { result ≢ 1 → value.new ≡ value.old }
{
    match taken_up(reader) {
        Some(taken) => match taken.answer(yes) {
            Reading::More(more) => {
                *reader = numbers(&more);
                0
            }
            Reading::Value(told) => {
                *value = told;
                1
            }
            Reading::NoAnswer => 2,
        },
        None => PacketFault::State.number(),
    }
}

/// Returns the C struct of a reading.
fn numbers(reader: &CvReader) -> DccReader
    ensures { result ≡ reader_numbers reader.now }
{
    DccReader {
        cv: reader.cv().number(),
        known: reader.known(),
        value: reader.value(),
    }
}

/// Returns the reading with the fields of the C struct `reader`. Returns `None` if these fields are
/// not those of a reading.
fn taken_up(reader: &DccReader) -> Option<CvReader>
    ensures found { (so_far : CvAnswers) → IsReading reader.now so_far → result ≡ Some so_far }
    ensures reading { IfSome result (IsReading reader.now) }
{
    CvReader::restore(CvNumber::new(reader.cv).ok()?, reader.known, reader.value)
}
