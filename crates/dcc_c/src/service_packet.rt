//! A service packet as a C struct with a field for each value.

ghost use Rattle.std.specs.Prelude.{◌≡◌, ◌≢◌, ◌⊎◌, Ok, IfOk};
ghost use Rattle.dcc_service.specs.declared.packet.ServicePacket.{ServicePacket};
ghost use Rattle.dcc_service.specs.Table.{service_spelling};
ghost use Rattle.dcc_c.specs.Frames.{frame_answer, frame_numbers};
ghost use Rattle.dcc_c.specs.ServicePackets.{bit_of_cv, service_packet_answer, service_packet_numbers};
ghost use Rattle.dcc_c.specs.ServicePackets.{service_packet_of};

use crate::frame::{DccFrame, frame_of};
use dcc_packet::{BitPlace, CvNumber, PacketFault};
use dcc_service::ServicePacket;

/// A service packet as a C struct. The fields that the kind of the packet does not use are 0 or
/// false.
#[repr(C)]
#[derive(Clone, Copy, Drop)]
pub struct DccServicePacket {
    /// The number of the CV, 1 to 1024.
    pub cv: u16,
    /// The kind of the packet: 6 for a write of a byte, 7 for a verify of a byte, 8 for a write of
    /// a bit, 9 for a verify of a bit.
    pub kind: u8,
    /// The byte that is written or compared, for kinds 6 and 7.
    pub value: u8,
    /// The place of the bit, for kinds 8 and 9. Place 0 is the lowest bit.
    pub place: u8,
    /// The value of the bit, for kinds 8 and 9.
    pub one: bool,
}

/// Writes the frame of the service packet `packet` to `frame`. Returns 0 on success, or the number of
/// the first error. The errors are 10 (P10) if the kind is not 6 to 9, 6 (P6) if the CV is not 1 to
/// 1024, and 7 (P7) if the kind is 8 or 9 and the place is above 7. If the result is not 0, nothing
/// is written. The function ignores the fields that the kind does not use.
#[unsafe(no_mangle)]
pub extern "C" fn dcc_service_frame(packet: &DccServicePacket, frame: &mut DccFrame) -> u8
    ensures answer { result ≡ service_packet_answer (service_packet_of packet.now) }
    ensures frame { IfOk (service_packet_of packet.now) (λ what. frame.new ≡ frame_numbers (service_spelling what)) }
    ensures kept { result ≢ 0 → frame.new ≡ frame.old }
{
    match packet_of(packet) {
        Ok(what) => {
            *frame = DccFrame::of_three(what.bytes());
            0
        }
        Err(fault) => fault.number(),
    }
}

/// Writes the service packet of the frame `frame` to `packet`. Returns 0 on success, 1 (L1) or 2
/// (L2) if `frame` is no frame, and 10 (P10) if no service packet has this frame. If the result is
/// not 0, nothing is written.
#[unsafe(no_mangle)]
pub extern "C" fn dcc_service_read(frame: &[u8], packet: &mut DccServicePacket) -> u8
    ensures no_frame { frame_answer frame.now ≢ 0 → result ≡ frame_answer frame.now }
    ensures found { (what : ServicePacket) → service_spelling what ≡ frame.now
        → (result ≡ 0) × (packet.new ≡ service_packet_numbers what) }
    ensures read { result ≡ 0
        → (what : ServicePacket) × (service_spelling what ≡ frame.now) × (service_packet_of packet.new ≡ Ok what) }
    ensures refused { result ≢ 0 → result ≢ frame_answer frame.now → result ≡ 10 }
    ensures kept { result ≢ 0 → packet.new ≡ packet.old }
{
    match frame_of(frame) {
        Ok(frame) => match ServicePacket::read(&frame) {
            Some(what) => {
                *packet = numbers(&what);
                0
            }
            None => PacketFault::Word.number(),
        },
        Err(number) => number,
    }
}

/// Returns the service packet with the fields of the C struct `fields`, or the first error.
fn packet_of(fields: &DccServicePacket) -> Result<ServicePacket, PacketFault>
    ensures { result ≡ service_packet_of fields.now }
{
    match fields.kind {
        6 | 7 => byte_access(fields),
        8 | 9 => bit_access(fields),
        _ => Err(PacketFault::Word),
    }
}

/// Returns the write or verify of a byte with the fields of the C struct `fields`, or the error of
/// its CV.
fn byte_access(fields: &DccServicePacket) -> Result<ServicePacket, PacketFault>
    requires { (fields.now.kind ≡ 6) ⊎ (fields.now.kind ≡ 7) }
    ensures { result ≡ service_packet_of fields.now }
{
    let value = fields.value;
    match CvNumber::new(fields.cv) {
        Ok(cv) if fields.kind == 6 => Ok(ServicePacket::Write { cv, value }),
        Ok(cv) => Ok(ServicePacket::Verify { cv, value }),
        Err(fault) => Err(fault),
    }
}

/// Returns the write or verify of a bit with the fields of the C struct `fields`, or its first
/// error.
fn bit_access(fields: &DccServicePacket) -> Result<ServicePacket, PacketFault>
    requires { (fields.now.kind ≡ 8) ⊎ (fields.now.kind ≡ 9) }
    ensures { result ≡ service_packet_of fields.now }
{
    let one = fields.one;
    match bit_of_cv(fields.cv, fields.place) {
        Ok((cv, place)) if fields.kind == 8 => Ok(ServicePacket::BitWrite { cv, place, one }),
        Ok((cv, place)) => Ok(ServicePacket::BitVerify { cv, place, one }),
        Err(fault) => Err(fault),
    }
}

/// Returns the bit of a CV with the numbers `cv` and `place`, or the first error.
pub(crate) fn bit_of_cv(cv: u16, place: u8) -> Result<(CvNumber, BitPlace), PacketFault>
    ensures exact { result ≡ bit_of_cv cv place }
    ensures numbers { IfOk result (λ bit. (bit.0.number ≡ cv) × (bit.1.place ≡ place)) }
{
    match CvNumber::new(cv) {
        Ok(cv) => match BitPlace::new(place) {
            Ok(place) => Ok((cv, place)),
            Err(fault) => Err(fault),
        },
        Err(fault) => Err(fault),
    }
}

/// Returns the C struct of a service packet.
fn numbers(packet: &ServicePacket) -> DccServicePacket
    ensures { result ≡ service_packet_numbers packet.now }
{
    match packet {
        ServicePacket::Write { cv, value } => fields_of(6, cv, *value, 0, false),
        ServicePacket::Verify { cv, value } => fields_of(7, cv, *value, 0, false),
        ServicePacket::BitWrite { cv, place, one } => fields_of(8, cv, 0, place.place(), *one),
        ServicePacket::BitVerify { cv, place, one } => fields_of(9, cv, 0, place.place(), *one),
    }
}

/// Returns the C struct with the given fields.
#[inline(always)]
fn fields_of(kind: u8, cv: &CvNumber, value: u8, place: u8, one: bool) -> DccServicePacket
    ensures { result ≡ record { cv = cv.now.number; kind = kind; value = value; place = place; one = one } }
{
    DccServicePacket {
        cv: cv.number(),
        kind,
        value,
        place,
        one,
    }
}
