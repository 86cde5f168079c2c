//! The service part of a decoder on both tracks.

ghost use Rattle.std.specs.Prelude.{◌≡◌, ◌-◌, Some, slice_set};
ghost use Rattle.dcc_packet.specs.Cvs.{cv_in};
ghost use Rattle.dcc_service.specs.AccessedServiceCv.{Accesses};
ghost use Rattle.dcc_service.specs.Machine.{Step};
ghost use Rattle.dcc_service.specs.Progress.{state_with_cvs};
ghost use Rattle.dcc_track.specs.DecoderState.{HasChanged, HasCvs, with_new_cvs};

use crate::answer::TrackAnswer;
use crate::programmable::Programmable;
use dcc_packet::CvNumber;
use dcc_service::ServiceProgress;
use dcc_wire::Frame;

/// Applies a frame to the service part of a decoder. The function writes at most one CV.
pub(crate) fn serve<D: Programmable>(
    decoder: &mut D,
    progress: &mut ServiceProgress,
    frame: &Frame,
) -> TrackAnswer
    ensures step { Step (state_with_cvs progress.old (D.state decoder.old).cvs) frame.now
        (state_with_cvs progress.new (D.state decoder.new).cvs) result.acknowledged }
    ensures cvs { HasCvs (D.state decoder.old) }
    ensures decoder { D.state decoder.new ≡ with_new_cvs (D.state decoder.old) (D.state decoder.new).cvs }
    ensures changed { HasChanged (D.state decoder.old).cvs (D.state decoder.new).cvs result.changed }
{
    let _ = decoder.identity();
    match progress.accessed_cv(frame) {
        Some(cv) => serve_cv(decoder, progress, frame, cv),
        None => TrackAnswer {
            acknowledged: progress.apply_with_value(&mut 0, frame),
            changed: None,
        },
    }
}

/// Applies a frame that accesses the CV `cv` to the service part of a decoder.
fn serve_cv<D: Programmable>(
    decoder: &mut D,
    progress: &mut ServiceProgress,
    frame: &Frame,
    cv: CvNumber,
) -> TrackAnswer
    requires accesses { Accesses (state_with_cvs progress.old (D.state decoder.old).cvs) frame.now (Some cv) }
    requires cvs { HasCvs (D.state decoder.old) }
    ensures step { Step (state_with_cvs progress.old (D.state decoder.old).cvs) frame.now
        (state_with_cvs progress.new (D.state decoder.new).cvs) result.acknowledged }
    ensures decoder { D.state decoder.new ≡ with_new_cvs (D.state decoder.old) (D.state decoder.new).cvs }
    ensures changed { HasChanged (D.state decoder.old).cvs (D.state decoder.new).cvs result.changed }
{
    let before = decoder.read_cv(cv);
    let mut value = before;
    let acknowledged = progress.apply_with_value(&mut value, frame);
    TrackAnswer {
        acknowledged,
        changed: put_cv(decoder, cv, before, value),
    }
}

/// Sets the CV `cv` from `before` to `value`. Returns the CV if its value changes.
fn put_cv<D: Programmable>(decoder: &mut D, cv: CvNumber, before: u8, value: u8) -> Option<CvNumber>
    requires before { cv_in (D.state decoder.old).cvs cv.number ≡ before }
    requires cvs { HasCvs (D.state decoder.old) }
    ensures after { D.state decoder.new
        ≡ with_new_cvs (D.state decoder.old) (slice_set (D.state decoder.old).cvs (cv.number - 1) value) }
    ensures changed { HasChanged (D.state decoder.old).cvs (D.state decoder.new).cvs result }
{
    if value == before {
        return None;
    }
    decoder.set_cv(cv, value);
    Some(cv)
}
