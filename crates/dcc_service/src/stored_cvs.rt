//! A decoder on the programming track whose CVs are stored by the caller, for example in EEPROM.
//! The caller passes the value of the one CV that a frame accesses, and gets the new value of this
//! CV.

ghost use Rattle.std.specs.Prelude.{◌≡◌, ℕ, ◌-◌, List, slice_set};
ghost use Rattle.dcc_packet.specs.Cvs.{cv_in};
ghost use Rattle.dcc_service.specs.AccessedServiceCv.{service_cv};
ghost use Rattle.dcc_service.specs.Machine.{acted_on, is_acknowledged};

use crate::{ServicePacket, ServiceProgress};
use dcc_packet::{CvNumber, write_value};
use dcc_wire::Frame;

impl ServiceProgress {
    ghost use Rattle.std.specs.Prelude.{◌≡◌, Option, None, List, ℕ};
    ghost use Rattle.dcc_packet.specs.declared.cv.CvNumber.{CvNumber};
    ghost use Rattle.dcc_packet.specs.StoredCvs.{HasValue, with_value};
    ghost use Rattle.dcc_service.specs.AccessedServiceCv.{Accesses};
    ghost use Rattle.dcc_service.specs.Machine.{Step};
    ghost use Rattle.dcc_service.specs.Progress.{state_with_cvs};

    /// Returns the CV that [`apply_with_value`](ServiceProgress::apply_with_value) accesses for this
    /// frame: the CV of the service packet that the decoder executes. Returns `None` if the decoder
    /// executes no packet.
    pub fn accessed_cv(&self, frame: &Frame) -> Option<CvNumber>
        ensures { (cvs : List ℕ) → Accesses (state_with_cvs self.now cvs) frame.now result }
    {
        let mut after = *self;
        match after.due(frame) {
            Some(packet) => Some(service_cv(&packet)),
            None => None,
        }
    }

    /// Applies a frame to a decoder in this state, whose CVs the caller stores. If the frame
    /// accesses a CV, `value` is the value of this CV, and the function writes the new value of the
    /// CV to `value`. If the frame accesses no CV, `value` does not change. Returns true if the
    /// decoder acknowledges the frame.
    pub fn apply_with_value(&mut self, value: &mut u8, frame: &Frame) -> bool
        ensures steps { (cvs : List ℕ) (cv : Option CvNumber) → Accesses (state_with_cvs self.old cvs) frame.now cv
            → HasValue cvs cv value.old → Step (state_with_cvs self.old cvs) frame.now
            (state_with_cvs self.new (with_value cvs cv value.new)) result }
        ensures value_stays { (cvs : List ℕ) → Accesses (state_with_cvs self.old cvs) frame.now None
            → value.new ≡ value.old }
    {
        match self.due(frame) {
            Some(packet) => act_on(value, &packet),
            None => false,
        }
    }
}

/// Returns the CV that the packet writes or compares.
fn service_cv(packet: &ServicePacket) -> CvNumber
    ensures { result ≡ service_cv packet.now }
{
    match packet {
        ServicePacket::Write { cv, .. }
        | ServicePacket::Verify { cv, .. }
        | ServicePacket::BitWrite { cv, .. }
        | ServicePacket::BitVerify { cv, .. } => *cv,
    }
}

/// Executes the packet `packet`. The parameter `value` is the value of the CV that the packet
/// names, and gets its new value. Returns true if the decoder acknowledges the packet.
fn act_on(value: &mut u8, packet: &ServicePacket) -> bool
    ensures after { (cvs : List ℕ) → cv_in cvs (service_cv packet.now).number ≡ value.old
        → slice_set cvs ((service_cv packet.now).number - 1) value.new ≡ acted_on packet.now cvs }
    ensures answer { (cvs : List ℕ) → cv_in cvs (service_cv packet.now).number ≡ value.old
        → result ≡ is_acknowledged packet.now cvs }
{
    match packet {
        ServicePacket::Write { cv, value: new } => write_value(value, *cv, *new),
        ServicePacket::Verify { value: wanted, .. } => *value == *wanted,
        ServicePacket::BitWrite { cv, place, one } => {
            let new = place.with_bit(*value, *one);
            write_value(value, *cv, new)
        }
        ServicePacket::BitVerify { place, one, .. } => { place.is_set(*value) == *one }
    }
}
