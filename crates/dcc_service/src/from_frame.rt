//! Functions that return the service packet that a frame encodes.

ghost use Rattle.std.specs.Prelude.{◌≡◌, ◌≢◌, ◌≤◌, ◌<◌, ◌+◌, ◌*◌, ◌∷◌, [], Some, IfSome, IfNone};
ghost use Rattle.dcc_service.specs.Table.{access_bytes, service_bytes, service_spelling};
ghost use Rattle.dcc_service.specs.declared.packet.ServicePacket.{ServicePacket};

use crate::ServicePacket;
use dcc_packet::{BitPlace, CvNumber};
use dcc_wire::Frame;

impl ServicePacket {
    /// Returns the service packet that the frame encodes. Returns `None` if the frame is in no row
    /// of the table. No frame is in two rows (NMRA S-9.2.3, direct mode).
    pub fn read(frame: &Frame) -> Option<ServicePacket>
        ensures spelled { IfSome result (λ packet. service_spelling packet ≡ frame.now) }
        ensures only { (packet : ServicePacket) → service_spelling packet ≡ frame.now → result ≡ Some packet }
    {
        match *frame.bytes() {
            [first, low, last, _error_byte] => instruction(first, low, last),
            _ => None,
        }
    }
}

/// Returns the service packet of the three bytes before the error byte. Returns `None` if the bytes
/// encode no service packet.
fn instruction(first: u8, low: u8, last: u8) -> Option<ServicePacket>
    ensures found { IfSome result (λ packet. service_bytes packet ≡ first ∷ low ∷ last ∷ []) }
    ensures none { IfNone result ((packet : ServicePacket) → service_bytes packet ≢ first ∷ low ∷ last ∷ []) }
{
    let cv = cv_at(first & 3, low);
    match first & 0xFC {
        0x7C => Some(ServicePacket::Write { cv, value: last }),
        0x74 => Some(ServicePacket::Verify { cv, value: last }),
        0x78 => bit_access(cv, last),
        _ => None,
    }
}

/// Returns the bit access whose last byte is 111KDBBB. Returns `None` if `last` has another form.
fn bit_access(cv: CvNumber, last: u8) -> Option<ServicePacket>
    ensures found { IfSome result (λ packet. service_bytes packet ≡ access_bytes 0x78 cv last) }
    ensures none { IfNone result ((packet : ServicePacket) → service_bytes packet ≢ access_bytes 0x78 cv last) }
{
    let place = bit_place(last & 7);
    let one = bit_place(3).is_set(last);
    match last & 0xF0 {
        0xF0 => Some(ServicePacket::BitWrite { cv, place, one }),
        0xE0 => Some(ServicePacket::BitVerify { cv, place, one }),
        _ => None,
    }
}

/// Returns the CV whose number minus 1 has the high bits `high` and the low byte `low`.
fn cv_at(high: u8, low: u8) -> CvNumber
    requires { high < 4 }
    ensures { result.number ≡ 256 * high + low + 1 }
{
    match CvNumber::new(u16::from(high) * 256 + u16::from(low) + 1) {
        Ok(cv) => cv,
        Err(_) => unreachable!(),
    }
}

/// Returns the bit place with the number `place`.
fn bit_place(place: u8) -> BitPlace
    requires { place ≤ 7 }
    ensures { result.place ≡ place }
{
    match BitPlace::new(place) {
        Ok(place) => place,
        Err(_) => unreachable!(),
    }
}
