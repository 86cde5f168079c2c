//! A lost packet as a C struct.

ghost use Rattle.std.specs.Prelude.{◌≡◌};
ghost use Rattle.dcc_c.specs.LostPackets.{lost_numbers, off_limits_numbers, short_preamble_numbers};

use crate::frame::DccFrame;
use dcc_lost::{LostPacket, OffLimits, ShortPreamble};

/// The preamble of a lost packet as a C struct.
#[repr(C)]
#[derive(Clone, Copy, Drop)]
pub struct DccShortPreamble {
    /// True if the preamble is too short. If this field is false, the other fields are 0 and false.
    pub is_short: bool,
    /// The number of half-bits of ones directly before the body that no outcome uses, fewer than
    /// 20.
    pub ones: u8,
    /// True if the last refusal uses the half-bit directly before these half-bits of ones, and this
    /// half-bit has the nearest class One.
    pub after_refusal: bool,
    /// The number of half-bits from the end of this refusal to the end of the packet, at most 255.
    /// If `after_refusal` is false, the number is 0.
    pub since_refusal: u8,
}

/// Half-bits outside the limits of a decoder as a C struct.
#[repr(C)]
#[derive(Clone, Copy, Drop)]
pub struct DccOffLimits {
    /// The number of half-bits. If this number is 0, the other fields are 0.
    pub count: u32,
    /// The shortest duration of these half-bits, in microseconds.
    pub least: u16,
    /// The longest duration of these half-bits, in microseconds.
    pub most: u16,
}

/// A packet that a decoder does not hear, and its causes, as a C struct.
#[repr(C)]
#[derive(Clone, Copy, Drop)]
pub struct DccLostPacket {
    /// The bytes of the packet.
    pub frame: DccFrame,
    /// The preamble of the packet.
    pub preamble: DccShortPreamble,
    /// The half-bits of ones outside the limits 52 to 64 microseconds.
    pub ones: DccOffLimits,
    /// The half-bits of zeros outside the limits 90 to 10000 microseconds.
    pub zeros: DccOffLimits,
}

/// Returns the C struct of a lost packet.
pub(crate) fn lost_numbers(packet: &LostPacket) -> DccLostPacket
    ensures { result ≡ lost_numbers packet.now }
{
    DccLostPacket {
        frame: DccFrame {
            len: packet.frame.bytes().len() as u8,
            bytes: packet.frame.padded(),
        },
        preamble: short_preamble_numbers(packet.preamble),
        ones: off_limits_numbers(packet.ones),
        zeros: off_limits_numbers(packet.zeros),
    }
}

/// Returns the C struct of a preamble that is too short. If `preamble` is `None`, the struct is the
/// struct of a preamble that is long enough.
fn short_preamble_numbers(preamble: Option<ShortPreamble>) -> DccShortPreamble
    ensures { result ≡ short_preamble_numbers preamble }
{
    match preamble {
        None => DccShortPreamble {
            is_short: false,
            ones: 0,
            after_refusal: false,
            since_refusal: 0,
        },
        Some(short) => DccShortPreamble {
            is_short: true,
            ones: short.ones,
            after_refusal: short.since_refusal.is_some(),
            since_refusal: short.since_refusal.unwrap_or(0),
        },
    }
}

/// Returns the C struct of half-bits outside the limits of a decoder, or zeros if there are no such
/// half-bits.
fn off_limits_numbers(off: Option<OffLimits>) -> DccOffLimits
    ensures { result ≡ off_limits_numbers off }
{
    match off {
        None => DccOffLimits {
            count: 0,
            least: 0,
            most: 0,
        },
        Some(figures) => DccOffLimits {
            count: figures.count,
            least: figures.least,
            most: figures.most,
        },
    }
}
