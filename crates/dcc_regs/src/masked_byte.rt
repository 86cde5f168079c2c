//! Bytes of which a packet sets some bits.

ghost use Rattle.std.specs.Prelude.{◌≡◌, ◌↔◌, ℕ, None, unwrap_or, IsTrue};
ghost use Rattle.dcc_packet.specs.Bits.{is_one};
ghost use Rattle.dcc_regs.specs.Effects.{Differ, masked_bit, where_one};

/// The bits that a packet sets in a byte.
#[derive(Clone, Copy)]
pub struct MaskedByte {
    /// Bit n of `mask` is one if the packet sets bit n of the byte.
    pub mask: u8,
    /// Bit n of `bits` is the value of bit n of the byte, if the packet sets this bit.
    pub bits: u8,
}

impl MaskedByte {
    /// Creates the effect that sets each bit of `mask` to `on`.
    pub(crate) fn new(mask: u8, on: bool) -> MaskedByte
        ensures { (n : ℕ) → masked_bit result.mask result.bits n ≡ where_one mask on n }
    {
        MaskedByte {
            mask,
            bits: if on { 255 } else { 0 },
        }
    }

    /// Creates the effect that sets no bit.
    pub(crate) fn nothing() -> MaskedByte
        ensures { (n : ℕ) → masked_bit result.mask result.bits n ≡ None }
    {
        MaskedByte { mask: 0, bits: 0 }
    }

    /// Returns `byte` with the bits of `mask` set as in this effect, and with all other bits
    /// unchanged.
    pub(crate) fn over(&self, byte: u8) -> u8
        ensures { (n : ℕ) → is_one result n ≡ unwrap_or (masked_bit self.now.mask self.now.bits n) (is_one byte n) }
    {
        byte ^ (byte ^ self.bits) & self.mask
    }

    /// Returns true if both effects set some bit, to different values.
    pub(crate) fn differs_from(&self, other: &MaskedByte) -> bool
        ensures { IsTrue result ↔
            ((n : ℕ) × Differ (masked_bit self.now.mask self.now.bits n) (masked_bit other.now.mask other.now.bits n)) }
    {
        self.mask & other.mask & (self.bits ^ other.bits) != 0
    }

    /// Returns true if the effect sets no bit.
    pub(crate) fn is_nothing(&self) -> bool
        ensures { IsTrue result ↔ ((n : ℕ) → masked_bit self.now.mask self.now.bits n ≡ None) }
    {
        self.mask == 0
    }
}
