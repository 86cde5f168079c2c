//! The classes of half-bits.

ghost use Rattle.std.specs.Prelude.{◌≡◌, ◌∷◌, [], IfNone, IfSome};
ghost use Rattle.dcc_wire.specs.Bodies.{halves_of};
ghost use Rattle.dcc_wire.specs.Half.{class_of};
ghost use Rattle.dcc_wire.specs.Outcomes.{bits_in};

/// The class of a half-bit for a decoder (NMRA S-9.1; RCN-210).
#[derive(Clone, Copy, Debug, PartialEq, Eq)]
pub enum Half {
    /// Half of a one: 52 to 64 microseconds.
    One,
    /// Half of a zero: 90 to 10000 microseconds.
    Zero,
    /// Any other duration.
    Bad,
}

impl Half {
    ghost use Rattle.dcc_wire.specs.Half.{class_of, bit_of};

    /// Returns the class of a half-bit of `us` microseconds.
    pub fn of(us: u16) -> Half
        ensures { result ≡ class_of us }
    {
        match us {
            52..=64 => Half::One,
            90..=10000 => Half::Zero,
            _ => Half::Bad,
        }
    }

    /// Returns true for half of a one, and false for half of a zero. Returns `None` for `Bad`.
    #[inline(always)]
    pub(crate) fn bit(self) -> Option<bool>
        ensures { result ≡ bit_of self }
    {
        if self == Half::Bad {
            None
        } else {
            Some(self == Half::One)
        }
    }
}

/// Returns the bit that two half-bits of `first` and `second` microseconds form. Returns `None` if
/// they form no bit.
#[inline(always)]
#[tactic(auto, unfolding(crate::specs::Bodies::halves_of, crate::specs::Outcomes::bits_in))]
pub(crate) fn bit_of_two(first: u16, second: u16) -> Option<bool>
    ensures some { IfSome result (λ bit. halves_of (bit ∷ []) ≡ class_of first ∷ class_of second ∷ []) }
    ensures none { IfNone result (bits_in (class_of first ∷ class_of second ∷ []) ≡ []) }
{
    // a branch for each class, so that the compiler tests the second half-bit for this class alone
    match Half::of(first) {
        Half::One => match Half::of(second) {
            Half::One => Some(true),
            Half::Zero | Half::Bad => None,
        },
        Half::Zero => match Half::of(second) {
            Half::Zero => Some(false),
            Half::One | Half::Bad => None,
        },
        Half::Bad => None,
    }
}
