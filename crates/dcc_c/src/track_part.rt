//! The part of a C struct of a decoder on both tracks that says on which track the decoder is.

ghost use Rattle.std.specs.Prelude.{◌≡◌, []};
ghost use Rattle.dcc_service.specs.declared.progress.ServiceProgress.{ServiceProgress};
ghost use Rattle.dcc_service.specs.Progress.{state_with_cvs};
ghost use Rattle.dcc_c.specs.Services.{small_service_numbers};

use crate::service::{DccSmallService, leave, progress_of, put};
use crate::track_answer::{DccAnswer, answer_numbers};
use dcc_service::ServiceProgress;
use dcc_track::{Programmable, end_service_in_parts, hear_in_parts};
use dcc_wire::Frame;

/// The state of service mode and the flags of a decoder on both tracks, as a C struct. In `dcc.h`
/// the structs of decoders on both tracks have these fields as their own fields.
#[repr(C)]
#[derive(Drop)]
pub struct TrackPart {
    service: DccSmallService,
    changed: bool,
    main_only: bool,
    ghost held: { ∥ ((progress : ServiceProgress)
        × (service ≡ small_service_numbers (state_with_cvs progress []))) ∥₁ },
}

impl TrackPart {
    ghost use Rattle.std.specs.Prelude.{◌≡◌, List, ℕ, false};
    ghost use Rattle.dcc_service.specs.Progress.{state_with_cvs};
    ghost use Rattle.dcc_track.specs.declared.answer.TrackAnswer.{TrackAnswer};
    ghost use Rattle.dcc_track.specs.DecoderState.{DecoderState};
    ghost use Rattle.dcc_track.specs.Track.{HearsFrame, TrackState, kept_on_main, new_track, service_ended};
    ghost use Rattle.dcc_c.specs.Services.{small_service_numbers};
    ghost use Rattle.dcc_c.specs.Decoders.{IsPart};
    ghost use Rattle.dcc_c.specs.TrackAnswers.{answer_numbers};

    /// Makes the part that of a decoder that is not in service mode and can hear both tracks.
    pub(crate) fn clear(&mut self)
        ensures { (decoder : DecoderState) → IsPart self.new (new_track decoder false) }
    {
        leave(&mut self.service);
        self.changed = false;
        self.main_only = false;
    }

    /// Hears a frame with the decoder `decoder`.
    pub(crate) fn hear<D: Programmable>(&mut self, decoder: &mut D, frame: &Frame) -> DccAnswer
        ensures { (before : TrackState) → IsPart self.old before → before.decoder ≡ D.state decoder.old →
            (after : TrackState) × (told : TrackAnswer) × IsPart self.new after
            × (after.decoder ≡ D.state decoder.new) × HearsFrame before frame.now after told
            × (result ≡ answer_numbers told) }
    {
        let mut progress = self.progress();
        let main_only = self.main_only;
        let told = hear_in_parts(decoder, &mut progress, &mut self.changed, main_only, frame);
        self.put(&progress);
        answer_numbers(&told)
    }

    /// Ends service mode of the decoder `decoder`.
    pub(crate) fn end_service<D: Programmable>(&mut self, decoder: &mut D)
        ensures { (before : TrackState) → IsPart self.old before → before.decoder ≡ D.state decoder.old →
            IsPart self.new (service_ended before) × ((service_ended before).decoder ≡ D.state decoder.new) }
    {
        let mut progress = self.progress();
        end_service_in_parts(decoder, &mut progress, &mut self.changed);
        self.put(&progress);
    }

    /// Keeps the decoder `decoder` on the main track if `main_only` is true.
    pub(crate) fn set_main_only<D: Programmable>(&mut self, decoder: &mut D, main_only: bool)
        ensures { (before : TrackState) → IsPart self.old before → before.decoder ≡ D.state decoder.old →
            IsPart self.new (kept_on_main before main_only)
            × ((kept_on_main before main_only).decoder ≡ D.state decoder.new) }
    {
        if main_only {
            self.end_service(decoder);
        }
        self.main_only = main_only;
    }

    /// Returns the state of service mode.
    fn progress(&self) -> ServiceProgress
        ensures { (before : TrackState) → IsPart self.now before → result ≡ before.progress }
    {
        match progress_of(&self.service) {
            Some(progress) => progress,
            None => unreachable!(),
        }
    }

    /// Writes the state of service mode.
    fn put(&mut self, progress: &ServiceProgress)
        ensures service { (cvs : List ℕ) → self.new.service ≡ small_service_numbers (state_with_cvs progress.now cvs) }
        ensures changed { self.new.changed ≡ self.old.changed }
        ensures main_only { self.new.main_only ≡ self.old.main_only }
    {
        put(&mut self.service, progress);
    }
}
