//! The trait of decoders that can be on both tracks, with its contract.

ghost use Rattle.std.specs.Prelude.{◌≡◌, ◌-◌, slice_set};
ghost use Rattle.dcc_packet.specs.Cvs.{cv_in};
ghost use Rattle.dcc_track.specs.DecoderState.{DecoderState, HasCvs, after_packet, after_power_up, with_new_cvs};

use dcc_packet::{CvNumber, Packet};
use dcc_regs::Who;

/// A decoder with 1,024 CVs that can be written on the programming track. A `Programmable` is no
/// [`Decoder`](dcc_regs::Decoder), since its address changes if it powers up with new CVs.
pub trait Programmable: Drop {
    /// The kind of the decoder with its active address, the registers, and the CVs.
    ghost state: { Self → DecoderState };

    /// Returns the kind and the active address of the decoder.
    fn identity(&self) -> Who
        ensures who { result ≡ (state self.now).who }
        ensures cvs { HasCvs (state self.now) };

    /// Applies one packet of the main track. The decoder ignores a packet that it does not hear.
    fn apply_packet(&mut self, packet: &Packet)
        ensures { state self.new ≡ after_packet (state self.old) packet.now };

    /// Returns the value of the CV `cv`.
    fn read_cv(&self, cv: CvNumber) -> u8
        ensures { result ≡ cv_in (state self.now).cvs cv.number };

    /// Sets the CV `cv` to `value`. The active address stays until the decoder powers up.
    fn set_cv(&mut self, cv: CvNumber, value: u8)
        ensures { state self.new
            ≡ with_new_cvs (state self.old) (slice_set (state self.old).cvs (cv.number - 1) value) };

    /// Powers the decoder up with its CVs.
    fn restart(&mut self)
        ensures { state self.new ≡ after_power_up (state self.old) };
}
