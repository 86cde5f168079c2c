//! Words of which a packet sets some bits.

ghost use Rattle.std.specs.Prelude.{◌≡◌, ◌↔◌, ℕ, None, unwrap_or, IsTrue};
ghost use Rattle.dcc_packet.specs.Bits.{is_one};
ghost use Rattle.dcc_regs.specs.Effects.{Differ, masked_bit, where_one};

/// The bits that a packet sets in a word of 128 bits.
#[derive(Clone, Copy)]
pub struct Masked {
    /// Bit n of `mask` is one if the packet sets bit n of the word.
    pub mask: u128,
    /// Bit n of `bits` is the value of bit n of the word, if the packet sets this bit.
    pub bits: u128,
}

impl Masked {
    /// Creates the effect that sets each bit of `mask` to `on`.
    #[inline(always)]
    pub(crate) fn new(mask: u128, on: bool) -> Masked
        ensures { (n : ℕ) → masked_bit result.mask result.bits n ≡ where_one mask on n }
    {
        Masked {
            mask,
            bits: if on { u128::MAX } else { 0 },
        }
    }

    /// Creates the effect that sets no bit.
    #[inline(always)]
    pub(crate) fn nothing() -> Masked
        ensures { (n : ℕ) → masked_bit result.mask result.bits n ≡ None }
    {
        Masked { mask: 0, bits: 0 }
    }

    /// Returns `word` with the bits of `mask` set as in this effect, and with all other bits
    /// unchanged.
    #[inline(always)]
    pub fn over(&self, word: u128) -> u128
        ensures { (n : ℕ) → is_one result n ≡ unwrap_or (masked_bit self.now.mask self.now.bits n) (is_one word n) }
    {
        // (most packets set no function or no state, and then take 10 instructions less)
        if self.mask == 0 {
            word
        } else {
            word ^ (word ^ self.bits) & self.mask
        }
    }

    /// Returns true if both effects set some bit, to different values.
    pub(crate) fn differs_from(&self, other: &Masked) -> bool
        ensures { IsTrue result ↔
            ((n : ℕ) × Differ (masked_bit self.now.mask self.now.bits n) (masked_bit other.now.mask other.now.bits n)) }
    {
        self.mask & other.mask & (self.bits ^ other.bits) != 0
    }

    /// Returns true if the effect sets no bit.
    #[inline(always)]
    pub fn is_nothing(&self) -> bool
        ensures { IsTrue result ↔ ((n : ℕ) → masked_bit self.now.mask self.now.bits n ≡ None) }
    {
        self.mask == 0
    }
}
