//! A reading of a CV, which asks the decoder questions.

ghost use Rattle.std.specs.Prelude.{◌≡◌, ◌<◌, ◌≤◌, ◌+◌, ◌*◌, ◌^◌, ◌++◌, [], ◌∷◌, length};

use crate::ServicePacket;
use dcc_packet::{BitPlace, CvNumber};
use std::marker::Model;

/// A reading of a CV that has questions left. The first eight questions compare the bits 0 to 7 of
/// the CV with one. The last question compares the CV with the value that the eight answers form.
#[derive(Drop)]
pub struct CvReader {
    cv: CvNumber,
    /// The number of known bits, which are the bits 0 to `known - 1`.
    known: u8,
    /// The value of the known bits. The unknown bits are 0.
    value: u8,
}

impl Model for CvReader {
    ghost use Rattle.std.specs.Prelude.{◌≤◌, ◌<◌, ◌^◌};
    ghost use Rattle.dcc_service.specs.Bits.{bits_from_lowest};
    ghost use Rattle.dcc_service.specs.CvAnswers.{CvAnswers};

    ghost Value = { CvAnswers };

    ghost view = { λ r. record { cv = r.cv; answers = bits_from_lowest r.known r.value } };

    ghost invariant = { λ r. (r.known ≤ 8) × (r.value < 2 ^ r.known) };
}

/// The state of a reading after an answer.
#[derive(Drop)]
pub enum Reading {
    /// A question is left, and the reading goes on.
    More(CvReader),
    /// The reading ended with the value of the CV, which the decoder acknowledged.
    Value(u8),
    /// S1: the decoder did not acknowledge the value that the eight answers form, so the value of
    /// the CV is unknown.
    NoAnswer,
}

impl CvReader {
    ghost use Rattle.std.specs.Prelude.{◌≡◌, ◌↔◌, ◌<◌, ◌≤◌, ◌^◌, ◌++◌, [], ◌∷◌, length, IsSome, IfSome};
    ghost use Rattle.dcc_service.specs.Bits.{bits_from_lowest, number_from_lowest};
    ghost use Rattle.dcc_service.specs.CvAnswers.{Asks};
    ghost use Rattle.dcc_service.specs.Readings.{ReadingEnds};

    /// Creates a reading of the CV `cv` without answers.
    pub fn new(cv: CvNumber) -> CvReader
        ensures { result ≡ record { cv = cv; answers = [] } }
    {
        CvReader {
            cv,
            known: 0,
            value: 0,
        }
    }

    /// Creates a reading of the CV `cv` after `known` answers. The answers are the bits of `value`,
    /// the lowest bit first. Returns `None` if `known` is above 8, or if `value` has more than
    /// `known` bits.
    pub fn restore(cv: CvNumber, known: u8, value: u8) -> Option<CvReader>
        ensures valid { IsSome result ↔ ((known ≤ 8) × (value < 2 ^ known)) }
        ensures reading { IfSome result (λ r. r ≡ record { cv = cv; answers = bits_from_lowest known value }) }
    {
        if known > 8 || u16::from(value) >= 1 << known {
            return None;
        }
        Some(CvReader { cv, known, value })
    }

    /// Returns the CV that is read.
    pub fn cv(&self) -> CvNumber
        ensures { result ≡ self.now.cv }
    {
        self.cv
    }

    /// Returns the number of answers, 0 to 8. After n answers, the bits 0 to n - 1 of the CV are
    /// known.
    pub fn known(&self) -> u8
        ensures known { result ≡ length self.now.answers }
        ensures few { result ≤ 8 }
    {
        self.known
    }

    /// Returns the value of the known bits. The unknown bits are 0.
    pub fn value(&self) -> u8
        ensures { result ≡ number_from_lowest self.now.answers }
    {
        self.value
    }

    /// Returns the service packet of the next question.
    pub fn question(&self) -> ServicePacket
        ensures question { Asks self.now result }
        ensures few { length self.now.answers ≤ 8 }
    {
        match BitPlace::new(self.known) {
            Ok(place) => ServicePacket::BitVerify {
                cv: self.cv,
                place,
                one: true,
            },
            Err(_) => ServicePacket::Verify {
                cv: self.cv,
                value: self.value,
            },
        }
    }

    /// Applies the answer to the next question, and returns the state of the reading. The parameter
    /// `yes` is true if the decoder acknowledged one of the eight frames.
    pub fn answer(self, yes: bool) -> Reading
        ensures { ReadingEnds self.cv (self.answers ++ yes ∷ []) result }
    {
        if self.known < 8 {
            return Reading::More(CvReader {
                cv: self.cv,
                known: self.known + 1,
                value: self.value + (u8::from(yes) << self.known),
            });
        }
        if yes {
            Reading::Value(self.value)
        } else {
            Reading::NoAnswer
        }
    }
}
