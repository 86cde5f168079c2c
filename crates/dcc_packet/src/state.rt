//! The type of the number of a binary state (RCN-212).

ghost use Rattle.std.specs.Prelude.{◌≡◌, ◌↔◌, ◌<◌, ◌≤◌, IsOk, IfOk, IfErr};

use crate::PacketFault;

/// The number of a binary state in the short form, 0 to 127. Number 0 stands for all binary states
/// 1 to 127.
#[derive(Clone, Copy, Debug, PartialEq, Eq)]
pub struct StateNumber {
    pub(crate) number: u8,
    pub ghost in_range: { number ≤ 127 },
}

impl StateNumber {
    ghost use Rattle.dcc_packet.specs.Values.{state_of};

    /// Creates the number `number` of a binary state.
    ///
    /// Errors: P14 if `number` is above 127.
    pub fn new(number: u8) -> Result<StateNumber, PacketFault>
        ensures range { IsOk result ↔ (number ≤ 127) }
        ensures ok { IfOk result (λ state. state.number ≡ number) }
        ensures err { IfErr result (λ fault. fault ≡ PacketFault.StateNumber) }
        ensures exact { result ≡ state_of number }
    {
        if number > 127 {
            return Err(PacketFault::StateNumber);
        }
        Ok(StateNumber { number })
    }

    /// Returns the number of the binary state, 0 to 127.
    pub fn number(&self) -> u8
        ensures value { result ≡ self.now.number }
        ensures in_range { result ≤ 127 }
    {
        self.number
    }
}
