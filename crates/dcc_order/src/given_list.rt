//! The number of packets that were given of a list, and the packets that were heard last.

ghost use Rattle.std.specs.Prelude.{◌≡◌, ◌<◌, ◌-◌, ◌^◌};
ghost use Rattle.dcc_order.specs.Comparisons.{nothing_heard, with_heard};

use crate::last_heard::LastHeard;
use dcc_packet::Packet;

/// The number of packets that were given of a list, and the last packets that the decoder heard of
/// them.
#[derive(Clone, Copy, Debug)]
pub struct GivenList {
    pub given: u32,
    pub last: LastHeard,
}

impl GivenList {
    /// Creates the state before the first packet was given.
    pub fn empty() -> GivenList
        ensures { result ≡ record { given = 0; last = nothing_heard } }
    {
        GivenList {
            given: 0,
            last: LastHeard::nothing(),
        }
    }

    /// Takes a packet that the decoder hears.
    pub fn hear(&mut self, packet: &Packet)
        requires { self.old.given < 2 ^ 32 - 1 }
        ensures { self.new ≡ with_heard self.old packet.now }
    {
        self.last = self.last.and(packet);
        self.given += 1;
    }
}
