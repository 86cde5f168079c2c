//! The type of packets (NMRA S-9.2.1; RCN-211 to RCN-214).

ghost use Rattle.std.specs.Prelude.{◌≡◌};
ghost use Rattle.dcc_wire.specs.Frames.{IsFrame};
ghost use Rattle.dcc_packet.specs.Rows.{HasRow};

use crate::{Address, Board, Output, SignalAddress, What};
use dcc_wire::Frame;

/// A frame that is in no row of the table of packets. Only `Packet::read` creates an `OtherFrame`.
#[derive(Clone, Copy, Debug, PartialEq, Eq)]
pub struct OtherFrame {
    pub(crate) frame: Frame,
    pub ghost valid: { IsFrame frame },
    pub ghost no_row: { ¬ (HasRow frame) },
}

impl OtherFrame {
    /// Returns the bytes of the frame, with the error byte last.
    pub fn bytes(&self) -> &[u8]
        ensures value { result.now ≡ self.now.frame }
        ensures valid { IsFrame result.now }
    {
        self.frame.bytes()
    }
}

/// A packet: the meaning of the bytes of a frame.
#[derive(Clone, Copy, Debug, PartialEq, Eq)]
pub enum Packet {
    /// An idle packet, which no decoder hears. Idle packets keep the track powered between other
    /// packets (RCN-211).
    Idle,
    /// An instruction to multifunction decoders (RCN-211, RCN-212, RCN-214).
    Loco {
        /// The address of the packet.
        to: Address,
        /// The instruction.
        what: What,
    },
    /// Switches an output of an accessory decoder on or off (RCN-213).
    Accessory {
        /// The address of the accessory decoder.
        board: Board,
        /// The output that is switched.
        output: Output,
        /// True if the output is switched on.
        on: bool,
    },
    /// Sets the aspect of a signal (RCN-213).
    Signal {
        /// The address of the signal.
        address: SignalAddress,
        /// The aspect, 0 to 255.
        aspect: u8,
    },
    /// A frame that is in no row of the table of packets.
    Other(OtherFrame),
}
