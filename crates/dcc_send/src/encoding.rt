//! The options of the operation `encode`.

/// The options of the operation `encode`.
#[derive(Clone, Copy, Debug, PartialEq, Eq)]
pub struct Encode {
    /// True if packets are written as bytes in hex, false if they are written as half-bits.
    pub hex: bool,

    /// True if the packets have the timing of service mode (NMRA S-9.2.3), false if they have the
    /// timing of the main track.
    pub service: bool,

    /// The sizes of the station that sends the packets, or `None` if each packet is written once.
    /// The sizes are the capacities of the queue and of the entries, and the number of copies of a
    /// command.
    pub station: Option<(usize, usize, u8)>,
}
