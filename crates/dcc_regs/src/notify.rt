//! The trait of listeners, which have a callback for each kind of packet.

ghost use Rattle.std.specs.Prelude.{◌≡◌};
ghost use Rattle.dcc_regs.specs.Notes.{Note, IdleCall, ResetCall, SpeedCall, FunctionsCall, StateCall, CvAccessCall};
ghost use Rattle.dcc_regs.specs.Notes.{TurnoutCall, SignalCall, OtherCall, note_of};

use dcc_packet::{
    Address, Board, GroupBits, OtherFrame, Output, Packet, SignalAddress, StateNumber, What,
};

/// A listener, which is notified of each packet by the callback for the kind of the packet.
pub trait Notify {
    /// The relation between the listener before and after a callback.
    ghost told: { Self → Note → Self → Type 0 };

    /// Notifies the listener of an idle packet.
    fn idle(&mut self)
        ensures { told self.old IdleCall self.new };

    /// Notifies the listener of a reset of locomotive decoders. If the address is the broadcast,
    /// accessory decoders hear the reset too.
    fn reset(&mut self, to: Address)
        ensures { told self.old (ResetCall to) self.new };

    /// Notifies the listener of an instruction that sets speed and direction, in 14, 28 or 126
    /// steps.
    fn speed(&mut self, to: Address, what: What)
        ensures { told self.old (SpeedCall to what) self.new };

    /// Notifies the listener of an instruction that switches a group of functions.
    fn functions(&mut self, to: Address, bits: GroupBits)
        ensures { told self.old (FunctionsCall to bits) self.new };

    /// Notifies the listener of an instruction that switches binary state `number`, or all binary
    /// states if `number` is 0.
    fn state(&mut self, to: Address, number: StateNumber, on: bool)
        ensures { told self.old (StateCall to number on) self.new };

    /// Notifies the listener of a write or a comparison of a CV or of a bit of a CV. Each copy of
    /// the packet makes one call.
    fn cv_access(&mut self, to: Address, what: What)
        ensures { told self.old (CvAccessCall to what) self.new };

    /// Notifies the listener of a packet that switches an output of an accessory decoder.
    fn turnout(&mut self, board: Board, output: Output, on: bool)
        ensures { told self.old (TurnoutCall board output on) self.new };

    /// Notifies the listener of a packet that sets the aspect of a signal.
    fn signal(&mut self, address: SignalAddress, aspect: u8)
        ensures { told self.old (SignalCall address aspect) self.new };

    /// Notifies the listener of a frame that is in no row of the table of packets.
    fn other(&mut self, frame: OtherFrame)
        ensures { told self.old (OtherCall frame) self.new };
}

/// Notifies the listener of a packet, by the callback for the kind of this packet.
pub fn announce<N: Notify>(packet: &Packet, notify: &mut N)
    ensures { N.told notify.old (note_of packet.now) notify.new }
{
    match packet {
        Packet::Idle => notify.idle(),
        Packet::Loco { to, what } => match what {
            What::Reset => notify.reset(*to),
            What::Speed28 { .. } | What::Speed128 { .. } => notify.speed(*to, *what),
            What::Functions(bits) => notify.functions(*to, *bits),
            What::BinaryState { number, on } => notify.state(*to, *number, *on),
            What::CvWrite { .. }
            | What::CvVerify { .. }
            | What::CvBitWrite { .. }
            | What::CvBitVerify { .. } => { notify.cv_access(*to, *what) }
        },
        Packet::Accessory { board, output, on } => notify.turnout(*board, *output, *on),
        Packet::Signal { address, aspect } => notify.signal(*address, *aspect),
        Packet::Other(frame) => notify.other(*frame),
    }
}
