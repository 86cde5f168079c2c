//! Functions that return the frame of a service packet.

ghost use Rattle.std.specs.Prelude.{◌≡◌, ◌≤◌};
ghost use Rattle.dcc_service.specs.Table.{access_bytes, service_bytes, service_spelling};

use crate::ServicePacket;
use dcc_packet::CvNumber;
use dcc_wire::Frame;

impl ServicePacket {
    /// Returns the frame that encodes the packet. The frame has the bytes of the row of the packet
    /// in the table of service packets, and the error byte (NMRA S-9.2.3). `ServicePacket::read`
    /// returns the packet for this frame.
    pub fn frame(&self) -> Frame
        ensures { result ≡ service_spelling self.now }
    {
        match Frame::with_error_byte(&self.bytes()) {
            Ok(frame) => frame,
            Err(_) => unreachable!(),
        }
    }

    /// Returns the bytes of the frame that encodes the packet, without the error byte. They are the
    /// bytes of the row of the packet in the table of service packets (NMRA S-9.2.3).
    pub fn bytes(&self) -> [u8; 3]
        ensures { result ≡ service_bytes self.now }
    {
        match self {
            ServicePacket::Write { cv, value } => access(0x7C, cv, *value),
            ServicePacket::Verify { cv, value } => access(0x74, cv, *value),
            ServicePacket::BitWrite { cv, place, one } => {
                access(0x78, cv, place.access_bits(*one) | 0xF0)
            }
            ServicePacket::BitVerify { cv, place, one } => {
                access(0x78, cv, place.access_bits(*one) | 0xE0)
            }
        }
    }
}

/// Returns the bytes of an access to a CV, without the error byte. The parameter `kind` has the
/// upper six bits of the first byte, and `last` is the last byte.
fn access(kind: u8, cv: &CvNumber, last: u8) -> [u8; 3]
    requires { kind ≤ 0x7C }
    ensures { result ≡ access_bytes kind cv.now last }
{
    let from_zero = cv.number() - 1;
    let first = kind + (from_zero >> 8) as u8;
    let low = (from_zero & 0xFF) as u8;
    [first, low, last]
}
