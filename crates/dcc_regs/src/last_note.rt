//! A listener that stores the last packet of which it was notified.

ghost use Rattle.std.specs.Prelude.{◌≡◌, Some, None};

use crate::notify::Notify;
use dcc_packet::{
    Address, Board, GroupBits, OtherFrame, Output, Packet, SignalAddress, StateNumber, What,
};
use std::marker::Model;

/// A listener that stores the last packet of which it was notified. A callback that gets an
/// instruction of the wrong kind changes nothing.
#[derive(Drop)]
pub struct LastNote {
    last: Option<Packet>,
}

impl Model for LastNote {
    ghost use Rattle.std.specs.Prelude.{Option};
    ghost use Rattle.dcc_packet.specs.declared.packet.Packet.{Packet};

    ghost Value = { Option Packet };

    ghost view = { λ n. n.last };
}

impl LastNote {
    /// Creates a listener that has stored no packet.
    pub fn new() -> LastNote
        ensures { result ≡ None }
    {
        LastNote { last: None }
    }

    /// Returns the last packet. Returns `None` if the listener was notified of no packet.
    pub fn last(&self) -> Option<Packet>
        ensures { result ≡ self.now }
    {
        self.last
    }
}

impl Notify for LastNote {
    ghost use Rattle.std.specs.Option.{option_or};
    ghost use Rattle.dcc_regs.specs.Notes.{packet_told};

    // a callback whose instruction is of another kind notifies of no packet, and changes nothing
    ghost told = { λ old note now. now ≡ option_or (packet_told note) old };

    fn idle(&mut self) {
        self.last = Some(Packet::Idle);
    }

    fn reset(&mut self, to: Address) {
        self.last = Some(Packet::Loco {
            to,
            what: What::Reset,
        });
    }

    fn speed(&mut self, to: Address, what: What) {
        if is_speed_instruction(&what) {
            self.last = Some(Packet::Loco { to, what });
        }
    }

    fn functions(&mut self, to: Address, bits: GroupBits) {
        self.last = Some(Packet::Loco {
            to,
            what: What::Functions(bits),
        });
    }

    fn state(&mut self, to: Address, number: StateNumber, on: bool) {
        self.last = Some(Packet::Loco {
            to,
            what: What::BinaryState { number, on },
        });
    }

    fn cv_access(&mut self, to: Address, what: What) {
        if what.is_cv_access() {
            self.last = Some(Packet::Loco { to, what });
        }
    }

    fn turnout(&mut self, board: Board, output: Output, on: bool) {
        self.last = Some(Packet::Accessory { board, output, on });
    }

    fn signal(&mut self, address: SignalAddress, aspect: u8) {
        self.last = Some(Packet::Signal { address, aspect });
    }

    fn other(&mut self, frame: OtherFrame) {
        self.last = Some(Packet::Other(frame));
    }
}

ghost use Rattle.dcc_regs.specs.Notes.{is_speed_instruction};

fn is_speed_instruction(what: &What) -> bool
    ensures { result ≡ is_speed_instruction what.now }
{
    match what {
        What::Speed28 { .. } | What::Speed128 { .. } => true,
        What::Reset
        | What::Functions(_)
        | What::BinaryState { .. }
        | What::CvWrite { .. }
        | What::CvVerify { .. }
        | What::CvBitWrite { .. }
        | What::CvBitVerify { .. } => false,
    }
}
