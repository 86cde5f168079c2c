//! The rules by which the two parts of a decoder hear a frame.

ghost use Rattle.std.specs.Prelude.{◌≡◌, ◌↔◌, IsTrue, false, is_some, if◌then◌else◌};
ghost use Rattle.dcc_service.specs.Machine.{ServiceState, Step, reset_bytes};
ghost use Rattle.dcc_service.specs.Progress.{state_with_cvs};
ghost use Rattle.dcc_track.specs.DecoderState.{HasChanged, after_power_up};
ghost use Rattle.dcc_track.specs.Track.{HearsOnBoth, track_state};

use crate::answer::TrackAnswer;
use crate::main_track::hear_on_main;
use crate::programmable::Programmable;
use crate::serving::serve;
use dcc_service::ServiceProgress;
use dcc_wire::Frame;

/// Applies a frame to a decoder that can hear both tracks. The parameter `changed` is true if a
/// service packet changed a CV since service mode began.
pub(crate) fn hear_on_both<D: Programmable>(
    decoder: &mut D,
    progress: &mut ServiceProgress,
    changed: &mut bool,
    frame: &Frame,
) -> TrackAnswer
    ensures both { (served : ServiceState)
        × Step (state_with_cvs progress.old (D.state decoder.old).cvs) frame.now served result.acknowledged
        × HearsOnBoth
        (track_state (D.state decoder.old) progress.old changed.old false)
        (track_state (D.state decoder.new) progress.new changed.new false) frame.now served (is_some result.changed) }
    ensures changed { HasChanged (D.state decoder.old).cvs (D.state decoder.new).cvs result.changed }
{
    *changed = progress.in_service & *changed;
    let served = serve(decoder, progress, frame);
    if is_reset(frame) {
        return TrackAnswer {
            acknowledged: served.acknowledged,
            changed: hear_on_main(decoder, frame),
        };
    }
    if progress.in_service {
        *changed = *changed | served.changed.is_some();
        return served;
    }
    restart_if(decoder, *changed);
    *changed = false;
    TrackAnswer {
        acknowledged: served.acknowledged,
        changed: hear_on_main(decoder, frame),
    }
}

/// Powers the decoder up if `changed` is true.
pub(crate) fn restart_if<D: Programmable>(decoder: &mut D, changed: bool)
    ensures { D.state decoder.new ≡ (if changed then after_power_up (D.state decoder.old) else D.state decoder.old) }
{
    if changed {
        decoder.restart();
    }
}

/// Returns true if the frame is the broadcast reset `00 00 00`.
fn is_reset(frame: &Frame) -> bool
    ensures { IsTrue result ↔ (frame.now ≡ reset_bytes) }
{
    frame.bytes() == [0, 0, 0].as_slice()
}
