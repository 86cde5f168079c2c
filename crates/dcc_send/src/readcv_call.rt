//! The operation `readcv`, which reads a CV on the programming track.
ghost use Rattle.std.specs.Prelude.{◌≡◌, Option, None, Some, IfSome, OnOk, false};
ghost use Rattle.std.specs.Option.{option_map, option_map_or, option_copied_mut};
ghost use Rattle.dcc_service.specs.CvAnswers.{Asks};
ghost use Rattle.dcc_packet.specs.Cvs.{IsCvs};
ghost use Rattle.dcc_service.specs.Machine.{ServiceState, is_acknowledged};
ghost use Rattle.dcc_service.specs.Question.{after_question};
ghost use Rattle.dcc_send.specs.Loan.{left_in};
ghost use Rattle.dcc_send.specs.Inner.ProgrammingTrackAnswers.{TakesAnswer, AnswersQuestion};
ghost use Rattle.dcc_send.specs.ProgrammingTrackReading.{ReadsCv, after_reading};

use crate::programming_track_line::{answered_line, value_line};
use dcc_io::{Failed, Sink, ToolFault, write_all};
use dcc_packet::CvNumber;
use dcc_service::{CvReader, Reading, ServiceDecoder, ServicePacket, ask};

/// Reads a CV of the decoder on the programming track, or of an empty track (NMRA S-9.2.3, direct
/// mode). Writes a line for each of the nine questions, such as `7800e890 no` or `7800e991 yes`.
/// The last line is `value 10` or `no answer`.
///
/// The answer to a question is yes if the decoder acknowledges one of the eight frames of the
/// question. The function returns the value if the decoder acknowledges the last question.
/// Otherwise the function returns `None`, which is no error. No CV changes. Before the call the
/// decoder can be in service mode or not.
///
/// Errors: U5 if a write fails or writes no byte. After U5 a prefix of the text was written.
pub fn readcv<W: Sink>(
    decoder: Option<&mut ServiceDecoder>,
    cv: CvNumber,
    writer: &mut W,
) -> Result<Option<u8>, ToolFault>
    ensures reads { ReadsCv (option_map (λ d. d.cvs) (option_copied_mut decoder.entry)) cv (W.state writer.old)
        result (W.state writer.new) }
    ensures cvs { option_map (λ d. d.cvs) (left_in decoder.exit) ≡ option_map (λ d. d.cvs)
        (option_copied_mut decoder.entry) }

    // If the result is Ok, the decoder has heard all questions, of which the last compares the
    // byte.
    ensures asked { OnOk result
        (left_in decoder.exit ≡ option_map (λ d. after_reading d cv) (option_copied_mut decoder.entry)) }
{
    match decoder {
        Some(decoder) => read(decoder, cv, writer),
        None => read(&mut EmptyTrack, cv, writer),
    }
}

/// A programming track, with or without a decoder.
trait ProgrammingTrack {
    // the decoder on the track, if there is one
    ghost decoder: { Self → Option ServiceState };

    /// Sends a question to the track. Returns true if the decoder acknowledges the question.
    fn put(&mut self, question: &ServicePacket) -> bool
        ensures answer { result ≡ option_map_or (λ d. is_acknowledged question.now d.cvs) (decoder self.old) false }
        ensures after { decoder self.new ≡ option_map (λ d. after_question d question.now) (decoder self.old) }
        ensures cvs { IfSome (decoder self.old) (λ d. IsCvs d.cvs) };
}

impl ProgrammingTrack for ServiceDecoder {
    ghost decoder = { λ decoder. Some decoder };

    fn put(&mut self, question: &ServicePacket) -> bool {
        ask(self, question)
    }
}

/// A track without a decoder, on which no question is acknowledged.
#[derive(Drop)]
struct EmptyTrack;

impl ProgrammingTrack for EmptyTrack {
    ghost decoder = { λ track. None };

    fn put(&mut self, _question: &ServicePacket) -> bool {
        false
    }
}

/// Sends the questions about a CV to the track, and writes the lines of the questions and of the
/// result.
fn read<T: ProgrammingTrack, W: Sink>(
    track: &mut T,
    cv: CvNumber,
    writer: &mut W,
) -> Result<Option<u8>, ToolFault>
    ensures reads { ReadsCv (option_map (λ d. d.cvs) (T.decoder track.old)) cv (W.state writer.old) result
        (W.state writer.new) }
    ensures cvs { option_map (λ d. d.cvs) (T.decoder track.new) ≡ option_map (λ d. d.cvs) (T.decoder track.old) }
    ensures asked { OnOk result (T.decoder track.new ≡ option_map (λ d. after_reading d cv) (T.decoder track.old)) }
{
    let mut reader = CvReader::new(cv);
    'questions: loop {
        let question = reader.question();
        let yes = track.put(&question);
        match take_answer(reader, &question, yes, writer)? {
            Reading::More(next) => reader = next,
            Reading::Value(value) => return tell(Some(value), writer),
            Reading::NoAnswer => return tell(None, writer),
        }
    }
}

/// Writes the line of the question, and applies the answer `yes` to the reading.
fn take_answer<W: Sink>(
    reader: CvReader,
    question: &ServicePacket,
    yes: bool,
    writer: &mut W,
) -> Result<Reading, Failed>
    requires { Asks reader question.now }
    ensures { TakesAnswer reader yes (W.state writer.old) result (W.state writer.new) }
{
    write_all(writer, answered_line(&question.frame(), yes).as_slice())?;
    Ok(reader.answer(yes))
}

/// Writes the line of the value, or `no answer` if there is no value. Returns the value.
fn tell<W: Sink>(value: Option<u8>, writer: &mut W) -> Result<Option<u8>, ToolFault>
    ensures { AnswersQuestion value (W.state writer.old) result (W.state writer.new) }
{
    write_all(writer, value_line(value).as_slice())?;
    Ok(value)
}
