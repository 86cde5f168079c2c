//! A custom programmer, which reads a CV with the questions of a `CvReader` on a custom track.

ghost use Rattle.std.specs.Prelude.{◌≡◌, ℕ, List, Some};
ghost use Rattle.dcc_service.specs.Cvs.{cv_in};
ghost use Rattle.dcc_service.specs.ReadingLaws.{IsPut};

use dcc_packet::CvNumber;
use dcc_service::{CvReader, Reading, ServiceDecoder, ServicePacket, ask, laws};

/// A programming track with a decoder, for example a track of real hardware.
pub trait Track {
    /// The CVs of the decoder on the track.
    ghost cvs: { Self → List ℕ };

    /// Sends a question to the decoder. Returns true if the decoder acknowledges the question.
    fn put(&mut self, question: &ServicePacket) -> bool
        ensures { IsPut question.now (cvs self.old) (cvs self.new) result };
}

impl Track for ServiceDecoder {
    ghost cvs = { λ decoder. decoder.cvs };

    fn put(&mut self, question: &ServicePacket) -> bool {
        ask(self, question)
    }
}

/// Reads a CV and returns its value. No CV changes.
pub fn read_cv<T: Track>(track: &mut T, cv: CvNumber) -> Option<u8>
    ensures value { result ≡ Some (cv_in (T.cvs track.old) cv.number) }
    ensures kept { T.cvs track.new ≡ T.cvs track.old }
{
    laws::readings_under_way();
    let mut reader = CvReader::new(cv);
    'questions: loop {
        let yes = track.put(&reader.question());
        match reader.answer(yes) {
            Reading::More(next) => reader = next,
            Reading::Value(value) => return Some(value),
            Reading::NoAnswer => return None,
        }
    }
}
