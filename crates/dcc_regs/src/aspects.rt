//! The aspects of signals that a packet sets.

ghost use Rattle.std.specs.Prelude.{◌≡◌, ◌↔◌, ◌≤◌, ℕ, None, IsTrue};
ghost use Rattle.dcc_regs.specs.Effects.{Differ, where_one};

/// The aspects that a packet sets.
#[derive(Clone, Copy)]
pub struct Aspects {
    /// Bit n of `mask` is one if the packet sets the aspect of signal n, 0 to 3.
    pub mask: u8,
    /// The aspect of each signal whose aspect the packet sets.
    pub aspect: u8,
}

impl Aspects {
    /// Creates the effect that sets no aspect.
    pub(crate) fn nothing() -> Aspects
        ensures { (n : ℕ) → where_one result.mask result.aspect n ≡ None }
    {
        Aspects { mask: 0, aspect: 0 }
    }

    /// Returns the aspect to which the packet sets signal `n`. Returns `None` if the packet does not
    /// set the aspect of this signal.
    pub(crate) fn at(&self, n: u8) -> Option<u8>
        requires { n ≤ 7 }
        ensures { result ≡ where_one self.now.mask self.now.aspect n }
    {
        if self.mask >> n & 1 == 1 {
            Some(self.aspect)
        } else {
            None
        }
    }

    /// Returns true if both effects set the aspect of some signal, to different values.
    pub(crate) fn differs_from(&self, other: &Aspects) -> bool
        ensures { IsTrue result ↔
            ((n : ℕ) × Differ (where_one self.now.mask self.now.aspect n)
            (where_one other.now.mask other.now.aspect n)) }
    {
        self.mask & other.mask != 0 && self.aspect != other.aspect
    }

    /// Returns true if the effect sets no aspect.
    pub(crate) fn is_nothing(&self) -> bool
        ensures { IsTrue result ↔ ((n : ℕ) → where_one self.now.mask self.now.aspect n ≡ None) }
    {
        self.mask == 0
    }
}
