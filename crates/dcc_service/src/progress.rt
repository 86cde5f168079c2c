//! The state of a decoder on the programming track without its CVs, and the effect of a frame on
//! this state and on the CVs.

ghost use Rattle.std.specs.Prelude.{◌≡◌, ◌↔◌, IsTrue};
ghost use Rattle.dcc_service.specs.Machine.{reset_bytes, acted_on, is_acknowledged};

use crate::ServicePacket;
use dcc_packet::{cv_value, write_cv};
use dcc_wire::Frame;

/// The state of a decoder on the programming track, without its CVs. A caller can store the CVs
/// anywhere.
#[derive(Clone, Copy)]
pub struct ServiceProgress {
    /// True if the decoder is in service mode.
    pub in_service: bool,
    /// The pending service packet, which the decoder executes if the packet comes again.
    pub pending: Option<ServicePacket>,
}

impl ServiceProgress {
    ghost use Rattle.std.specs.Prelude.{◌≡◌, ◌↔◌, IsTrue, IfSome, IfNone, Some, None, true, false, List, ℕ};
    ghost use Rattle.dcc_service.specs.AccessedServiceCv.{Executes};
    ghost use Rattle.dcc_service.specs.Machine.{Step};
    ghost use Rattle.dcc_service.specs.Progress.{state_with_cvs};
    ghost use Rattle.dcc_service.specs.declared.packet.ServicePacket.{ServicePacket};

    /// Creates the state of a decoder that is not in service mode.
    pub fn new() -> ServiceProgress
        ensures { result ≡ record { in_service = false; pending = None } }
    {
        ServiceProgress {
            in_service: false,
            pending: None,
        }
    }

    /// Applies a frame to a decoder with the CVs `cvs`, as `ServiceDecoder::apply` does. Returns
    /// true if the decoder acknowledges the frame.
    pub fn apply(&mut self, cvs: &mut [u8; 1024], frame: &Frame) -> bool
        ensures { Step (state_with_cvs self.old cvs.old) frame.now (state_with_cvs self.new cvs.new) result }
    {
        match self.due(frame) {
            Some(packet) => act(cvs, &packet),
            None => false,
        }
    }

    /// Applies a frame to the state without the CVs. Returns the packet that the decoder executes
    /// on its CVs. Returns `None` if the decoder executes no packet, and then does not acknowledge
    /// the frame.
    pub(crate) fn due(&mut self, frame: &Frame) -> Option<ServicePacket>
        ensures executed { IfSome result (λ packet. (cvs : List ℕ)
            → Executes (state_with_cvs self.old cvs) frame.now packet) }
        ensures stays { IfSome result (λ packet. self.new ≡ self.old) }
        ensures silent { IfNone result ((cvs : List ℕ)
            → Step (state_with_cvs self.old cvs) frame.now (state_with_cvs self.new cvs) false) }
        ensures none { IfNone result ((cvs : List ℕ) (packet : ServicePacket)
            → ¬ (Executes (state_with_cvs self.old cvs) frame.now packet)) }
    {
        if is_reset(frame) {
            self.begin();
            return None;
        }
        if !self.in_service {
            return None;
        }
        let Some(packet) = ServicePacket::read(frame) else {
            self.end();
            return None;
        };
        if self.awaits(&packet) {
            return Some(packet);
        }
        self.wait(packet);
        None
    }

    fn begin(&mut self)
        ensures { self.new ≡ record { in_service = true; pending = None } }
    {
        self.in_service = true;
        self.pending = None;
    }

    fn end(&mut self)
        ensures { self.new ≡ record { in_service = false; pending = None } }
    {
        self.in_service = false;
        self.pending = None;
    }

    fn wait(&mut self, packet: ServicePacket)
        ensures { self.new ≡ record self.old { pending = Some packet } }
    {
        self.pending = Some(packet);
    }

    /// Returns true if the packet equals the pending packet.
    pub(crate) fn awaits(&self, packet: &ServicePacket) -> bool
        ensures { IsTrue result ↔ (self.now.pending ≡ Some packet.now) }
    {
        match &self.pending {
            Some(pending) => pending.is(packet),
            None => false,
        }
    }
}

/// Executes the packet `packet` on the CVs `cvs`. Returns true if the decoder acknowledges the
/// packet.
fn act(cvs: &mut [u8; 1024], packet: &ServicePacket) -> bool
    ensures after { cvs.new ≡ acted_on packet.now cvs.old }
    ensures answer { result ≡ is_acknowledged packet.now cvs.old }
{
    match packet {
        ServicePacket::Write { cv, value } => write_cv(cvs, *cv, *value),
        ServicePacket::Verify { cv, value } => cv_value(cvs, *cv) == *value,
        ServicePacket::BitWrite { cv, place, one } => {
            let value = place.with_bit(cv_value(cvs, *cv), *one);
            write_cv(cvs, *cv, value)
        }
        ServicePacket::BitVerify { cv, place, one } => { place.is_set(cv_value(cvs, *cv)) == *one }
    }
}

/// Returns true if the frame is the broadcast reset `00 00 00`.
pub(crate) fn is_reset(frame: &Frame) -> bool
    ensures { IsTrue result ↔ (frame.now ≡ reset_bytes) }
{
    frame.bytes() == [0, 0, 0].as_slice()
}
