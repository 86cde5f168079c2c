//! Functions that read and write the bits of a byte.
ghost use Rattle.std.specs.Prelude.{◌≡◌, ◌≤◌, ◌<◌, ◌+◌, ◌*◌, ◌/◌, ◌%◌, ◌^◌, ◌==◌, ℕ, if◌then◌else◌};
ghost use Rattle.std.specs.Int.{bit_at};
ghost use Rattle.dcc_packet.specs.Bits.{is_one, with_bit};
ghost use Rattle.dcc_packet.specs.Rows.{bit};

use crate::BitPlace;

impl BitPlace {
    /// Returns true if the bit of `byte` at this place is one. Place 0 is the lowest bit.
    pub fn is_set(&self, byte: u8) -> bool
        ensures { bit result ≡ bit_at byte self.now.place }
    {
        is_set(byte, self.place)
    }

    /// Returns `byte` with the bit at this place set to `one` and all other bits unchanged. Place 0
    /// is the lowest bit.
    pub fn with_bit(&self, byte: u8, one: bool) -> u8
        ensures value { result ≡ with_bit byte self.now.place one }
        ensures bits { (k : ℕ) → k ≤ 7 → is_one result k ≡ (if k == self.now.place then one else is_one byte k) }
    {
        let mask = 1 << self.place;
        if one { byte | mask } else { byte & !mask }
    }

    /// Returns the lowest four bits DBBB of the last byte of a bit access, 0 to 15. D is 1 if `one`
    /// is true, and BBB is this place (NMRA S-9.2.1, S-9.2.3; RCN-214).
    pub fn access_bits(&self, one: bool) -> u8
        ensures value { result ≡ 8 * bit one + self.now.place }
        ensures in_range { result ≤ 15 }
    {
        bit(one) << 3 | self.place
    }
}

/// Returns true if the bit of `byte` at `place` is one.
pub(crate) fn is_set(byte: u8, place: u8) -> bool
    requires { place < 8 }
    ensures { bit result ≡ byte / 2 ^ place % 2 }
{
    byte >> place & 1 == 1
}

/// Returns 1 if `on` is true, otherwise 0.
pub(crate) fn bit(on: bool) -> u8
    ensures value { result ≡ bit on }
    ensures bound { result ≤ 1 }
{
    if on { 1 } else { 0 }
}
