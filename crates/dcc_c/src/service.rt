//! The C struct of a decoder on the programming track, and the functions on it.

ghost use Rattle.std.specs.Prelude.{◌≡◌, ◌≢◌, Option, None, Some, false, IfSome, List, ℕ};
ghost use Rattle.dcc_service.specs.declared.packet.ServicePacket.{ServicePacket};
ghost use Rattle.dcc_service.specs.Machine.{ServiceState, Step};
ghost use Rattle.dcc_service.specs.Progress.{state_with_cvs};
ghost use Rattle.dcc_c.specs.Frames.{frame_answer};
ghost use Rattle.dcc_c.specs.Services.{pending_bytes, service_numbers, small_service_numbers};

use crate::frame::DccFrame;
use dcc_packet::PacketFault;
use dcc_service::{ServicePacket, ServiceProgress};
use dcc_wire::Frame;

/// The state of a decoder on the programming track without its CVs as a C struct.
#[repr(C)]
#[derive(Clone, Copy, Drop)]
pub struct DccSmallService {
    /// True if the decoder is in service mode.
    pub in_service: bool,
    /// The frame of the pending service packet, or no bytes if no packet is pending.
    pub pending: DccFrame,
}

/// The state of a decoder on the programming track as a C struct. In `dcc.h` the struct has the
/// fields of `progress` as its own fields, at the same places.
#[repr(C)]
#[derive(Clone, Copy, Drop)]
pub struct DccService {
    /// The state without the CVs.
    pub progress: DccSmallService,
    /// The values of CV1 to CV1024. The first byte of `cvs` is CV1.
    pub cvs: [u8; 1024],
}

/// Initialises a decoder that is not in service mode, with the CVs `cvs`. The first byte of `cvs`
/// is CV1.
#[unsafe(no_mangle)]
pub extern "C" fn dcc_service_new(service: &mut DccService, cvs: &[u8; 1024])
    ensures { service.new ≡ service_numbers (record { in_service = false; pending = None; cvs = cvs.now }) }
{
    service.cvs.copy_from_slice(cvs);
    dcc_service_power_up(service);
}

/// Powers a decoder up, as `dcc_service_new` does with the CVs in `service.cvs`: the decoder is not in
/// service mode. The CVs do not change. The other fields can have any values.
#[unsafe(no_mangle)]
pub extern "C" fn dcc_service_power_up(service: &mut DccService)
    ensures new { service.new ≡ service_numbers
        (record { in_service = false; pending = None; cvs = service.old.cvs }) }
    ensures cvs { service.new.cvs ≡ service.old.cvs }
{
    leave(&mut service.progress);
}

/// Applies the frame `frame`. The function writes true to `acknowledged` if the decoder
/// acknowledges the frame, otherwise false. Returns 0 on success, 1 (L1) or 2 (L2) if `frame` is no
/// frame, and 13 (P13) if the fields of `service` are not a possible state of a decoder. If the
/// result is not 0, nothing changes.
#[unsafe(no_mangle)]
pub extern "C" fn dcc_service_apply(
    service: &mut DccService,
    frame: &[u8],
    acknowledged: &mut bool,
) -> u8
    ensures no_frame { frame_answer frame.now ≢ 0 → result ≡ frame_answer frame.now }
    ensures steps { frame_answer frame.now ≡ 0 → (before : ServiceState) → service.old ≡ service_numbers before →
        (after : ServiceState) × (service.new ≡ service_numbers after) × (result ≡ 0)
        × Step before frame.now after acknowledged.new }
    ensures decoder { result ≡ 0 → (before : ServiceState) × (service.old ≡ service_numbers before) }
    ensures refused { result ≢ 0 → result ≢ frame_answer frame.now → result ≡ 13 }
    ensures kept { result ≢ 0 → service.new ≡ service.old }
    ensures untold { result ≢ 0 → acknowledged.new ≡ acknowledged.old }
{
    match Frame::of(frame) {
        Ok(frame) => match progress_of(&service.progress) {
            Some(mut progress) => {
                *acknowledged = progress.apply(&mut service.cvs, &frame);
                put(&mut service.progress, &progress);
                0
            }
            None => PacketFault::State.number(),
        },
        Err(fault) => fault.number(),
    }
}

/// Takes a decoder out of service mode. Then no packet is pending.
pub(crate) fn leave(service: &mut DccSmallService)
    ensures { (cvs : List ℕ) → service.new ≡ small_service_numbers
        (record { in_service = false; pending = None; cvs = cvs }) }
{
    service.in_service = false;
    service.pending = DccFrame::none();
}

/// Writes the state of a decoder without its CVs to the fields of `service`.
pub(crate) fn put(service: &mut DccSmallService, progress: &ServiceProgress)
    ensures { (cvs : List ℕ) → service.new ≡ small_service_numbers (state_with_cvs progress.now cvs) }
{
    service.in_service = progress.in_service;
    service.pending = pending_bytes(&progress.pending);
}

fn pending_bytes(pending: &Option<ServicePacket>) -> DccFrame
    ensures { result ≡ pending_bytes pending.now }
{
    match pending {
        None => DccFrame::none(),
        Some(packet) => DccFrame::of_three(packet.bytes()),
    }
}

/// Returns the state of the decoder with the fields of `service`, without the CVs. Returns `None`
/// if the fields of `service` are not a possible state of a decoder.
pub(crate) fn progress_of(service: &DccSmallService) -> Option<ServiceProgress>
    ensures found { (state : ServiceState) → service.now ≡ small_service_numbers state
        → result ≡ Some (record { in_service = state.in_service; pending = state.pending }) }
    ensures numbers { IfSome result (λ progress. (cvs : List ℕ) → service.now ≡ small_service_numbers
        (state_with_cvs progress cvs)) }
{
    Some(ServiceProgress {
        in_service: service.in_service,
        pending: pending_of(&service.pending)?,
    })
}

/// Returns the pending packet with the frame `pending`. Returns `None` if `pending` is not the
/// struct of such a frame and not the struct without bytes.
fn pending_of(pending: &DccFrame) -> Option<Option<ServicePacket>>
    ensures found { (packet : Option ServicePacket) → pending.now ≡ pending_bytes packet → result ≡ Some packet }
    ensures numbers { IfSome result (λ packet. pending.now ≡ pending_bytes packet) }
{
    if pending.is_none() {
        return Some(None);
    }
    match Frame::of(pending.as_slice()) {
        Ok(frame) => {
            if !pending.is(&DccFrame::of_frame(&frame)) {
                return None;
            }
            match ServicePacket::read(&frame) {
                Some(packet) => Some(Some(packet)),
                None => None,
            }
        }
        Err(_) => None,
    }
}
