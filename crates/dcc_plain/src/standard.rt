//! The types of packets of the standard that the toolkit does not obey (NMRA S-9.2.1; RCN-211 to
//! RCN-214).

use dcc_packet::{Address, BitPlace, Board, Output, SignalAddress, SpeedBits128, What};

/// One to four bytes, in the order in which they are sent.
#[derive(Clone, Copy, Debug, PartialEq, Eq)]
pub enum FewBytes {
    /// One byte.
    One(u8),
    /// Two bytes.
    Two(u8, u8),
    /// Three bytes.
    Three(u8, u8, u8),
    /// Four bytes.
    Four(u8, u8, u8, u8),
}

/// An instruction to locomotive decoders that is in no row of the table of instructions.
#[derive(Clone, Copy, Debug, PartialEq, Eq)]
pub enum StandardWhat {
    /// A hard reset.
    HardReset,
    /// A factory test with one or two bytes. The lowest bit of the instruction is `upper`.
    FactoryTest {
        /// The lowest bit of the instruction byte.
        upper: bool,
        /// The first byte after the instruction byte.
        first: u8,
        /// The second byte after the instruction byte, if there is one.
        second: Option<u8>,
    },
    /// Sets decoder flags. The lowest bit of the instruction is `upper`.
    DecoderFlags {
        /// The lowest bit of the instruction byte.
        upper: bool,
        /// The byte after the instruction byte.
        flags: u8,
    },
    /// Sets bit 5 of CV29, which says that a decoder uses its long address.
    LongAddressUse {
        /// The value that the bit gets, true for 1.
        on: bool,
    },
    /// Requests an acknowledgement.
    Acknowledge,
    /// Sets the consist address.
    Consist {
        /// The address of the consist, 0 to 127. Address 0 means no consist.
        number: u8,
        /// True if the locomotive runs in opposite direction.
        reversed: bool,
    },
    /// Sets the speed, the direction, and functions from F0 on.
    Combined {
        /// The direction, true for forward.
        forward: bool,
        /// The speed bits, as in an instruction for 128 speed steps.
        speed: SpeedBits128,
        /// The functions, with F0 in the lowest bit of the first byte.
        functions: FewBytes,
    },
    /// Sets an analog output.
    Analog {
        /// The number of the output.
        output: u8,
        /// The value of the output.
        value: u8,
    },
    /// Sets special operating modes.
    OperatingModes {
        /// The byte with the modes.
        modes: u8,
    },
    /// Switches a binary state, in the long form.
    LongState {
        /// The number of the binary state, 0 to 32767. Number 0 stands for all binary states.
        number: u16,
        /// True for on.
        on: bool,
    },
    /// Writes CV23 or CV24, in the short form.
    ShortCv {
        /// True for CV24, false for CV23.
        is_24: bool,
        /// The byte that is written.
        value: u8,
    },
    /// Reads CVs (XPOM).
    ExtendedRead {
        /// The sequence number, 0 to 3.
        sequence: u8,
        /// The number of the first CV, 1 to 16777216.
        cv: u32,
    },
    /// Writes one to four CVs (XPOM).
    ExtendedWrite {
        /// The sequence number, 0 to 3.
        sequence: u8,
        /// The number of the first CV, 1 to 16777216.
        cv: u32,
        /// The bytes that are written.
        values: FewBytes,
    },
    /// Writes a bit of a CV (XPOM).
    ExtendedBitWrite {
        /// The sequence number, 0 to 3.
        sequence: u8,
        /// The number of the CV, 1 to 16777216.
        cv: u32,
        /// The place of the bit.
        place: BitPlace,
        /// The value that the bit gets, true for 1.
        one: bool,
    },
}

/// A packet of the standard that is in no row of the table of packets.
#[derive(Clone, Copy, Debug, PartialEq, Eq)]
pub enum StandardPacket {
    /// An instruction to locomotive decoders.
    Loco {
        /// The address.
        to: Address,
        /// The instruction.
        what: StandardWhat,
    },
    /// The model time.
    ModelTime {
        /// The minute, 0 to 59.
        minute: u8,
        /// The weekday, 0 for Monday to 6 for Sunday, or 7 for no weekday.
        weekday: u8,
        /// The hour, 0 to 23.
        hour: u8,
        /// True if the time was set.
        is_set: bool,
        /// How many times faster than real time the model time runs, 0 to 63.
        factor: u8,
    },
    /// The model date.
    ModelDate {
        /// The day, 1 to 31.
        day: u8,
        /// The month, 1 to 12.
        month: u8,
        /// The year, 0 to 4095.
        year: u16,
    },
    /// The system time.
    SystemTime {
        /// The time in milliseconds, modulo 65536.
        milliseconds: u16,
    },
    /// A packet to a board that switches nothing.
    BoardNothing {
        /// The board.
        board: Board,
        /// The pair of outputs, 0 to 3.
        pair: u8,
    },
    /// A packet to a signal that sets nothing.
    SignalNothing {
        /// The signal.
        address: SignalAddress,
    },
    /// An access to a CV of a board, or of an output of a board.
    BoardCv {
        /// The board.
        board: Board,
        /// The output, or `None` for the board.
        output: Option<Output>,
        /// The access to a CV.
        access: What,
    },
    /// An access to a CV of a signal.
    SignalCv {
        /// The signal.
        address: SignalAddress,
        /// The access to a CV.
        access: What,
    },
}
