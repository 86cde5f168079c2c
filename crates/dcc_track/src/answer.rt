//! The type of answers to frames.

use dcc_packet::CvNumber;

/// The answer of a decoder to a frame.
#[derive(Clone, Copy, Debug, PartialEq, Eq)]
pub struct TrackAnswer {
    /// True if the decoder acknowledges the frame. The caller then draws the current of the
    /// acknowledgement, for 6 ms (NMRA S-9.2.3).
    pub acknowledged: bool,
    /// The CV whose value changed, on either track, or `None` if no CV changed. A caller can store
    /// the new value, for example in EEPROM.
    pub changed: Option<CvNumber>,
}
