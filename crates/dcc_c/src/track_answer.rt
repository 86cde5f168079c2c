//! The answer of a decoder on both tracks as a C struct.

ghost use Rattle.std.specs.Prelude.{◌≡◌};
ghost use Rattle.dcc_c.specs.TrackAnswers.{answer_numbers};

use crate::small_loco::number_of;
use dcc_track::TrackAnswer;

/// The answer of a decoder on both tracks to a frame, as a C struct.
#[repr(C)]
#[derive(Clone, Copy, Drop)]
pub struct DccAnswer {
    /// The number of the CV whose value changed, or 0 if no CV changed.
    pub changed: u16,
    /// True if the decoder acknowledges the frame.
    pub acknowledged: bool,
}

/// Returns the C struct of an answer.
pub(crate) fn answer_numbers(answer: &TrackAnswer) -> DccAnswer
    ensures { result ≡ answer_numbers answer.now }
{
    DccAnswer {
        changed: number_of(&answer.changed),
        acknowledged: answer.acknowledged,
    }
}
