//! The last packets that a decoder heard.

ghost use Rattle.std.specs.Prelude.{◌≡◌, ◌&&◌};
ghost use Rattle.dcc_regs.specs.Result.{is_repeated};
ghost use Rattle.dcc_order.specs.Comparisons.{heard_next, nothing_heard};

use dcc_packet::Packet;

/// The last packet that was heard, and true if the packet before the last packet was equal.
#[derive(Clone, Copy, Debug)]
pub struct LastHeard {
    packet: Option<Packet>,
    is_second: bool,
}

impl LastHeard {
    /// Creates the state before the first packet was heard.
    pub fn nothing() -> LastHeard
        ensures { result ≡ nothing_heard }
    {
        LastHeard {
            packet: None,
            is_second: false,
        }
    }

    /// Returns the state after one more packet was heard.
    pub fn and(self, packet: &Packet) -> LastHeard
        ensures { result ≡ heard_next self packet.now }
    {
        LastHeard {
            packet: Some(*packet),
            is_second: self.was(packet),
        }
    }

    /// Returns true if the last two packets that were heard equal `packet`.
    pub fn was_twice(&self, packet: &Packet) -> bool
        ensures { result ≡ (self.now.is_second && is_repeated self.now.packet packet.now) }
    {
        self.is_second && self.was(packet)
    }

    fn was(&self, packet: &Packet) -> bool
        ensures { result ≡ is_repeated self.now.packet packet.now }
    {
        match &self.packet {
            Some(last) => last.is(packet),
            None => false,
        }
    }
}
