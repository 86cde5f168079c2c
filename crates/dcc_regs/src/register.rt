//! The registers of decoders, and their values.

use dcc_packet::{Address, Board, Packet};

/// The speed of a locomotive decoder.
#[derive(Clone, Copy, Debug, PartialEq, Eq)]
pub enum Speed {
    /// The locomotive stops.
    Stop,
    /// The locomotive stops at once, without braking.
    Emergency,
    /// A speed step of 14 steps, 1 to 14.
    Step14(u8),
    /// A speed step of 28 steps, 1 to 28.
    Step28(u8),
    /// A speed step of 126 steps, 1 to 126.
    Step126(u8),
}

/// The name of a register. A decoder has only the registers of its kind.
#[derive(Clone, Copy, Debug, PartialEq, Eq)]
pub enum Register {
    /// The speed of a locomotive decoder.
    Speed,
    /// The direction of a locomotive decoder.
    Direction,
    /// A function of a locomotive decoder, 0 to 68.
    Function(u8),
    /// A binary state of a locomotive decoder, 1 to 127.
    State(u8),
    /// A bit of a CV. The numbers are the CV, 1 to 1024, and the place of the bit, 0 (the lowest)
    /// to 7.
    CvBit(u16, u8),
    /// The pending CV write of a locomotive decoder. The write takes effect if the decoder hears
    /// the same packet again.
    Pending,
    /// An output of an accessory decoder, 0 to 7.
    Out(u8),
    /// The position of one of the pairs of outputs 0 to 3. The position of pair n says which of the
    /// outputs 2n and 2n + 1 was turned on last.
    Position(u8),
    /// The aspect of a signal of an accessory decoder. The signals have the numbers 0 to 3.
    Aspect(u8),
}

/// The value of a register.
#[derive(Clone, Copy, Debug, PartialEq, Eq)]
pub enum Value {
    /// The value of `Speed`.
    Speed(Speed),
    /// The value of `Direction`, which is true for forward.
    Forward(bool),
    /// The value of `Function`, `State`, `CvBit` or `Out`, which is true for on or one.
    Flag(bool),
    /// The value of `Position`, 0 or 1, or of `Aspect`, 0 to 255.
    Number(u8),
    /// The value of `Pending`: the pending CV write, or `None`.
    Pending(Option<Packet>),
}

/// The kind of a decoder, with its address.
#[derive(Clone, Copy, Debug, PartialEq, Eq)]
pub enum Who {
    /// A locomotive decoder with its active address, or with `None` if it has no address. A decoder
    /// without an address hears only broadcasts.
    Loco(Option<Address>),
    /// An accessory decoder with its address.
    Board(Board),
}

/// The mode in which a decoder reads the speed instruction for 14 or 28 steps. Bit 1 of CV29 is one
/// for 28 steps (NMRA S-9.2.2).
#[derive(Clone, Copy, Debug, PartialEq, Eq)]
pub enum SpeedMode {
    /// The decoder reads 14 steps, and F0 is the lowest bit.
    Steps14,
    /// The decoder reads 28 steps.
    Steps28,
}
