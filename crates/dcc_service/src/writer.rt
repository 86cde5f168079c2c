//! A writing of a CV, which asks the decoder questions.

ghost use Rattle.std.specs.Prelude.{◌≡◌, true, false};

use crate::ServicePacket;
use dcc_packet::CvNumber;

/// A writing of a CV that has questions left. The first question writes a byte to the CV. The
/// second question verifies the CV: it compares the CV with this byte.
#[derive(Drop)]
pub struct CvWriter {
    cv: CvNumber,
    /// The byte that is written.
    value: u8,
    /// True if the first question has its answer, so that the second question is next.
    is_verifying: bool,
}

/// The state of a writing after an answer.
#[derive(Drop)]
pub enum Writing {
    /// A question is left, and the writing goes on.
    More(CvWriter),
    /// The decoder acknowledged the second question, so the CV has the byte.
    Done,
    /// The decoder did not acknowledge the second question. The CV has another value, or no
    /// decoder answered.
    Failed,
}

impl CvWriter {
    ghost use Rattle.std.specs.Prelude.{◌≡◌, true, false};
    ghost use Rattle.dcc_service.specs.CvWritings.{writing_after, writing_question};

    /// Creates a writing of the byte `value` to the CV `cv` without answers.
    pub fn new(cv: CvNumber, value: u8) -> CvWriter
        ensures { result ≡ record { cv = cv; value = value; is_verifying = false } }
    {
        CvWriter {
            cv,
            value,
            is_verifying: false,
        }
    }

    /// Creates a writing of the byte `value` to the CV `cv`. The parameter `is_verifying` is true if
    /// the first question has its answer.
    pub fn restore(cv: CvNumber, value: u8, is_verifying: bool) -> CvWriter
        ensures { result ≡ record { cv = cv; value = value; is_verifying = is_verifying } }
    {
        CvWriter {
            cv,
            value,
            is_verifying,
        }
    }

    /// Returns the CV that is written.
    pub fn cv(&self) -> CvNumber
        ensures { result ≡ self.now.cv }
    {
        self.cv
    }

    /// Returns the byte that is written.
    pub fn value(&self) -> u8
        ensures { result ≡ self.now.value }
    {
        self.value
    }

    /// Returns true if the first question has its answer, so that the second question is next.
    pub fn is_verifying(&self) -> bool
        ensures { result ≡ self.now.is_verifying }
    {
        self.is_verifying
    }

    /// Returns the service packet of the next question.
    pub fn question(&self) -> ServicePacket
        ensures { result ≡ writing_question self.now }
    {
        let (cv, value) = (self.cv, self.value);
        if self.is_verifying {
            ServicePacket::Verify { cv, value }
        } else {
            ServicePacket::Write { cv, value }
        }
    }

    /// Applies the answer to the next question, and returns the state of the writing. The parameter
    /// `yes` is true if the decoder acknowledged one of the eight frames. The answer to the first
    /// question does not matter, since the second question decides.
    pub fn answer(self, yes: bool) -> Writing
        ensures { result ≡ writing_after self yes }
    {
        if !self.is_verifying {
            return Writing::More(CvWriter::restore(self.cv, self.value, true));
        }
        if yes { Writing::Done } else { Writing::Failed }
    }
}
