//! A loop in which a decoder hears the frames of the main track and of the programming track.

ghost use Rattle.std.specs.Prelude.{◌≡◌, List};
ghost use Rattle.std.specs.List.{list_any};
ghost use Rattle.dcc_track.specs.Laws.{HearsFrames};
ghost use Rattle.dcc_track.specs.Track.{track_of};
ghost use Rattle.dcc_track.specs.declared.answer.TrackAnswer.{TrackAnswer};

use dcc_track::{Programmable, TrackDecoder, laws};
use dcc_wire::Frame;

/// Lets a decoder hear frames, one after the other. Returns true if the decoder acknowledges one of
/// the frames.
pub fn hear_frames<D: Programmable>(decoder: &mut TrackDecoder<D>, frames: &[Frame]) -> bool
    ensures { (answers : List TrackAnswer)
        × HearsFrames (track_of D.state decoder.old) frames.now (track_of D.state decoder.new) answers
        × (result ≡ list_any (λ (answer : TrackAnswer). answer.acknowledged) answers) }
{
    laws::frames_are_heard();
    let mut yes = false;
    for frame in frames {
        yes |= decoder.hear(frame).acknowledged;
    }
    yes
}
