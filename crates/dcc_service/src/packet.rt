//! The type of service packets (NMRA S-9.2.3, direct mode).

ghost use Rattle.std.specs.Prelude.{◌≡◌, ◌↔◌, IsTrue};

use dcc_packet::{BitPlace, CvNumber};

/// A service packet, which is an instruction to a decoder in service mode.
#[derive(Clone, Copy, Debug, PartialEq, Eq)]
pub enum ServicePacket {
    /// Writes a byte to a CV.
    Write {
        /// The number of the CV.
        cv: CvNumber,
        /// The byte that is written, 0 to 255.
        value: u8,
    },
    /// Compares a CV with a byte.
    Verify {
        /// The number of the CV.
        cv: CvNumber,
        /// The byte that the CV is compared with, 0 to 255.
        value: u8,
    },
    /// Writes a bit of a CV.
    BitWrite {
        /// The number of the CV.
        cv: CvNumber,
        /// The place of the bit. Place 0 is the lowest bit.
        place: BitPlace,
        /// The value that the bit gets, true for 1.
        one: bool,
    },
    /// Compares a bit of a CV with a value.
    BitVerify {
        /// The number of the CV.
        cv: CvNumber,
        /// The place of the bit. Place 0 is the lowest bit.
        place: BitPlace,
        /// The value that the bit is compared with, true for 1.
        one: bool,
    },
}

impl ServicePacket {
    /// Returns true if both packets are equal.
    // (compares fields, since a comparison of frames would have to create both frames)
    pub fn is(&self, other: &ServicePacket) -> bool
        ensures { IsTrue result ↔ (self.now ≡ other.now) }
    {
        match (self, other) {
            (
                ServicePacket::Write {
                    cv: own,
                    value: byte,
                },
                ServicePacket::Write { cv, value },
            )
            | (
                ServicePacket::Verify {
                    cv: own,
                    value: byte,
                },
                ServicePacket::Verify { cv, value },
            ) => { is_same_byte(own, *byte, cv, *value) }
            (
                ServicePacket::BitWrite {
                    cv: own,
                    place: at,
                    one: bit,
                },
                ServicePacket::BitWrite { cv, place, one },
            )
            | (
                ServicePacket::BitVerify {
                    cv: own,
                    place: at,
                    one: bit,
                },
                ServicePacket::BitVerify { cv, place, one },
            ) => { is_same_bit(own, at, *bit, cv, place, *one) }
            _ => false,
        }
    }
}

/// Returns true if the two CVs are equal and the two bytes are equal.
fn is_same_byte(own: &CvNumber, byte: u8, cv: &CvNumber, value: u8) -> bool
    ensures { IsTrue result ↔ ((own.now ≡ cv.now) × (byte ≡ value)) }
{
    own.number() == cv.number() && byte == value
}

/// Returns true if the two CVs, the two places and the two bits are equal.
fn is_same_bit(
    own: &CvNumber,
    at: &BitPlace,
    bit: bool,
    cv: &CvNumber,
    place: &BitPlace,
    one: bool,
) -> bool
    ensures { IsTrue result ↔ ((own.now ≡ cv.now) × (at.now ≡ place.now) × (bit ≡ one)) }
{
    (own.number() == cv.number()) & (at.place() == place.place()) & (bit == one)
}
