//! Functions of decoders on the programming track whose CVs the caller stores, for example in EEPROM.

ghost use Rattle.std.specs.Prelude.{◌≡◌, ◌≢◌, ◌==◌, not, false, Option, None, List, ℕ};
ghost use Rattle.dcc_packet.specs.declared.cv.CvNumber.{CvNumber};
ghost use Rattle.dcc_packet.specs.StoredCvs.{HasValue, with_value};
ghost use Rattle.dcc_service.specs.AccessedServiceCv.{Accesses};
ghost use Rattle.dcc_service.specs.Machine.{ServiceState, Step};
ghost use Rattle.dcc_c.specs.Frames.{frame_answer};
ghost use Rattle.dcc_c.specs.Services.{small_service_numbers};
ghost use Rattle.dcc_c.specs.SmallLocos.{cv_or_0};

use crate::frame::frame_of;
use crate::service::{DccSmallService, leave, progress_of, put};
use crate::small_loco::number_of;
use dcc_packet::PacketFault;

/// Initialises a decoder that is not in service mode.
#[unsafe(no_mangle)]
pub extern "C" fn dcc_small_service_new(service: &mut DccSmallService)
    ensures { (cvs : List ℕ) → service.new ≡ small_service_numbers
        (record { in_service = false; pending = None; cvs = cvs }) }
{
    leave(service);
}

/// Writes to `cv` the number of the CV that `dcc_small_service_apply` accesses for the frame
/// `frame`, or 0 if that function accesses no CV. Returns 0 on success, 1 (L1) or 2 (L2) if `frame`
/// is no frame, and 13 (P13) if the fields of `service` are not a possible state of a decoder. If
/// the result is not 0, nothing is written.
#[unsafe(no_mangle)]
pub extern "C" fn dcc_small_service_cv(service: &DccSmallService, frame: &[u8], cv: &mut u16) -> u8
    ensures no_frame { frame_answer frame.now ≢ 0 → result ≡ frame_answer frame.now }
    ensures tells { frame_answer frame.now ≡ 0 → (state : ServiceState) → service.now ≡ small_service_numbers state →
        (accessed : Option CvNumber) × Accesses state frame.now accessed × (cv.new ≡ cv_or_0 accessed) × (result ≡ 0) }
    ensures decoder { result ≡ 0 → (state : ServiceState) × (service.now ≡ small_service_numbers state) }
    ensures refused { result ≢ 0 → result ≢ frame_answer frame.now → result ≡ 13 }
    ensures untold { result ≢ 0 → cv.new ≡ cv.old }
{
    match frame_of(frame) {
        Ok(frame) => match progress_of(service) {
            Some(progress) => {
                *cv = number_of(&progress.accessed_cv(&frame));
                0
            }
            None => PacketFault::State.number(),
        },
        Err(number) => number,
    }
}

/// Applies the frame `frame`. If `dcc_small_service_cv` writes the number of a CV for this frame,
/// `value` must be the value of this CV. The function writes the new value of the CV to `value`.
/// The function writes true to `changed` if the new value differs from the value before, otherwise
/// false. The function writes true to `acknowledged` if the decoder acknowledges the frame,
/// otherwise false. Returns 0 on success, 1 (L1) or 2 (L2) if `frame` is no frame, and 13 (P13) if
/// the fields of `service` are not a possible state of a decoder. If the result is not 0, nothing
/// changes.
#[unsafe(no_mangle)]
pub extern "C" fn dcc_small_service_apply(
    service: &mut DccSmallService,
    frame: &[u8],
    value: &mut u8,
    changed: &mut bool,
    acknowledged: &mut bool,
) -> u8
    ensures no_frame { frame_answer frame.now ≢ 0 → result ≡ frame_answer frame.now }
    ensures steps { frame_answer frame.now ≡ 0 → (before : ServiceState) → service.old ≡ small_service_numbers before
        → (cv : Option CvNumber) → Accesses before frame.now cv → HasValue before.cvs cv value.old
        → (after : ServiceState) × (service.new ≡ small_service_numbers after)
        × (after.cvs ≡ with_value before.cvs cv value.new) × Step before frame.now after acknowledged.new }
    ensures answers { frame_answer frame.now ≡ 0 → (before : ServiceState) → service.old ≡ small_service_numbers before
        → (result ≡ 0) × (Accesses before frame.now None → value.new ≡ value.old) }
    ensures changed { result ≡ 0 → changed.new ≡ not (value.new == value.old) }
    ensures decoder { result ≡ 0 → (before : ServiceState) × (service.old ≡ small_service_numbers before) }
    ensures refused { result ≢ 0 → result ≢ frame_answer frame.now → result ≡ 13 }
    ensures kept { result ≢ 0 → service.new ≡ service.old }
    ensures untold { result ≢ 0
        → (value.new ≡ value.old) × (changed.new ≡ changed.old) × (acknowledged.new ≡ acknowledged.old) }
{
    let before = *value;
    match frame_of(frame) {
        Ok(frame) => match progress_of(service) {
            Some(mut progress) => {
                *acknowledged = progress.apply_with_value(value, &frame);
                *changed = *value != before;
                put(service, &progress);
                0
            }
            None => PacketFault::State.number(),
        },
        Err(number) => number,
    }
}
