//! A decoder on the main track and on the programming track.

use crate::answer::TrackAnswer;
use crate::in_parts::{end_service_in_parts, hear_in_parts};
use crate::programmable::Programmable;
use dcc_service::ServiceProgress;
use dcc_wire::Frame;

/// A decoder that hears the main track and the programming track. It has a decoder of the type `D`,
/// and a service part, which is in service mode or not (NMRA S-9.2.3).
///
/// - Both parts hear the reset `00 00 00`, so a running locomotive stops. The reset enters service
///   mode.
/// - In service mode only the service part hears service packets.
/// - Any other frame ends service mode. If a service packet changed a CV since service mode began,
///   the decoder first powers up with its CVs, and so gets its new address. The decoder then hears
///   the frame as any other frame of the main track.
/// - Outside of service mode the decoder hears each frame.
///
/// Both parts have the same CVs.
#[derive(Drop)]
pub struct TrackDecoder<D: Programmable> {
    pub(crate) decoder: D,
    pub(crate) progress: ServiceProgress,
    pub(crate) changed: bool,
    pub(crate) main_only: bool,
}

impl<D: Programmable> TrackDecoder<D> {
    ghost use Rattle.std.specs.Prelude.{◌≡◌, false};
    ghost use Rattle.dcc_track.specs.Track.{HearsFrame, kept_on_main, new_track, service_ended, track_of};

    /// Creates a decoder that is not in service mode and can hear both tracks.
    ///
    /// For a [`PackedLoco`](dcc_regs::PackedLoco) use
    /// [`with_packed_loco`](TrackDecoder::with_packed_loco), and for a
    /// [`LocoDecoder`](dcc_regs::LocoDecoder) use [`with_loco`](TrackDecoder::with_loco). The prover
    /// refuses most callers that pass these types to a type parameter.
    pub fn new(decoder: D) -> TrackDecoder<D>
        ensures { track_of D.state result ≡ new_track (D.state decoder) false }
    {
        TrackDecoder {
            decoder,
            progress: ServiceProgress::new(),
            changed: false,
            main_only: false,
        }
    }

    /// Returns the decoder, with its registers and its CVs.
    pub fn decoder(&self) -> &D
        ensures { result.now ≡ self.now.decoder }
    {
        &self.decoder
    }

    /// Returns true if the decoder is in service mode.
    pub fn is_in_service(&self) -> bool
        ensures { result ≡ self.now.progress.in_service }
    {
        self.progress.in_service
    }

    /// Hears a frame of either track. The result says if the decoder acknowledges the frame, and which
    /// CV changed. At most one CV changes.
    pub fn hear(&mut self, frame: &Frame) -> TrackAnswer
        ensures { HearsFrame (track_of D.state self.old) frame.now (track_of D.state self.new) result }
    {
        hear_in_parts(
            &mut self.decoder,
            &mut self.progress,
            &mut self.changed,
            self.main_only,
            frame,
        )
    }

    /// Ends service mode. If a service packet changed a CV since service mode began, the decoder
    /// powers up with its CVs. A caller ends service mode if no packet of service mode comes for 20
    /// ms (NMRA S-9.2.3).
    pub fn end_service(&mut self)
        ensures { track_of D.state self.new ≡ service_ended (track_of D.state self.old) }
    {
        end_service_in_parts(&mut self.decoder, &mut self.progress, &mut self.changed);
    }

    /// Keeps the decoder on the main track if `main_only` is true. Then no frame enters service mode,
    /// and the decoder hears each frame. If the decoder is in service mode, service mode ends first, as
    /// [`end_service`](TrackDecoder::end_service) ends it. If `main_only` is false, the decoder can
    /// hear both tracks.
    ///
    /// On the main track, frames for the short addresses 116 to 127 look like service packets. After
    /// a reset, two copies of `7c3f85c6`, a speed packet for the address 124, would write CV64 of each
    /// decoder on the track that can enter service mode.
    pub fn set_main_only(&mut self, main_only: bool)
        ensures { track_of D.state self.new ≡ kept_on_main (track_of D.state self.old) main_only }
    {
        if main_only {
            self.end_service();
        }
        self.main_only = main_only;
    }
}
