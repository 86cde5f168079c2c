//! The plain locomotive decoder on both tracks.

ghost use Rattle.std.specs.Prelude.{◌≡◌};
ghost use Rattle.dcc_track.specs.LocoDecoders.{loco_on_tracks};

use crate::programmable::Programmable;
use crate::track::TrackDecoder;
use dcc_packet::{CvNumber, Packet};
use dcc_regs::{Decoder, LocoDecoder, Who, is_own_write};
use dcc_service::ServiceProgress;

impl TrackDecoder<LocoDecoder> {
    ghost use Rattle.std.specs.Prelude.{◌≡◌, false};
    ghost use Rattle.dcc_track.specs.Track.{new_track, track_of};

    /// Creates a decoder that is not in service mode and can hear both tracks, from a plain locomotive decoder.
    pub fn with_loco(decoder: LocoDecoder) -> TrackDecoder<LocoDecoder>
        ensures { track_of ⟦<LocoDecoder as Programmable>⟧.state result
            ≡ new_track (⟦<LocoDecoder as Programmable>⟧.state decoder) false }
    {
        TrackDecoder {
            decoder,
            progress: ServiceProgress::new(),
            changed: false,
            main_only: false,
        }
    }
}

impl Programmable for LocoDecoder {
    ghost state = { λ d. loco_on_tracks (⟦<LocoDecoder as Decoder>⟧.who d) (⟦<LocoDecoder as Decoder>⟧.registers d) };

    fn identity(&self) -> Who {
        self.who()
    }

    fn apply_packet(&mut self, packet: &Packet) {
        // (for the proof: the registers are possible, and a written value is a byte)
        let _ = self.who();
        let _ = is_own_write(packet);
        self.apply(packet);
    }

    fn read_cv(&self, cv: CvNumber) -> u8 {
        self.cv(cv)
    }

    fn set_cv(&mut self, cv: CvNumber, value: u8) {
        LocoDecoder::set_cv(self, cv, value);
        // (for the proof: the registers are possible)
        let _ = self.who();
    }

    fn restart(&mut self) {
        self.power_up();
    }
}
