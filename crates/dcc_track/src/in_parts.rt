//! Functions on a decoder on both tracks whose parts the caller stores apart from each other.

ghost use Rattle.std.specs.Prelude.{◌≡◌, Bool};
ghost use Rattle.dcc_track.specs.Track.{HearsFrame, service_ended, track_state};

use crate::answer::TrackAnswer;
use crate::both_tracks::{hear_on_both, restart_if};
use crate::main_track::hear_on_main;
use crate::programmable::Programmable;
use dcc_service::ServiceProgress;
use dcc_wire::Frame;

/// Hears a frame of either track, as [`TrackDecoder::hear`](crate::TrackDecoder::hear) does. The
/// parameter `progress` is the state of service mode. The parameter `changed` is true if a service
/// packet changed a CV since service mode began. If `main_only` is true, the decoder stays on the
/// main track.
pub fn hear_in_parts<D: Programmable>(
    decoder: &mut D,
    progress: &mut ServiceProgress,
    changed: &mut bool,
    main_only: bool,
    frame: &Frame,
) -> TrackAnswer
    ensures { HearsFrame (track_state (D.state decoder.old) progress.old changed.old main_only) frame.now
        (track_state (D.state decoder.new) progress.new changed.new main_only) result }
{
    if main_only {
        return TrackAnswer {
            acknowledged: false,
            changed: hear_on_main(decoder, frame),
        };
    }
    hear_on_both(decoder, progress, changed, frame)
}

/// Ends service mode, as [`TrackDecoder::end_service`](crate::TrackDecoder::end_service) does. The
/// parameters are those of [`hear_in_parts`].
pub fn end_service_in_parts<D: Programmable>(
    decoder: &mut D,
    progress: &mut ServiceProgress,
    changed: &mut bool,
)
    ensures { (main_only : Bool) → track_state (D.state decoder.new) progress.new changed.new main_only
        ≡ service_ended (track_state (D.state decoder.old) progress.old changed.old main_only) }
{
    restart_if(decoder, progress.in_service & *changed);
    *progress = ServiceProgress::new();
    *changed = false;
}
