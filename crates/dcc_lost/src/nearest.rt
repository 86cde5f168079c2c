//! The nearest classes of half-bits.

ghost use Rattle.std.specs.Prelude.{◌≡◌, ◌↔◌, ◌≤◌, IsTrue, length, map};
ghost use Rattle.dcc_wire.specs.Half.{class_of};
ghost use Rattle.dcc_wire.specs.Framing.{ones_before};
ghost use Rattle.dcc_lost.specs.Nearest.{nearest_class};

use dcc_wire::Half;

/// Returns true if the nearest class of a half-bit of `us` microseconds is One.
#[inline(always)]
pub(crate) fn is_nearest_one(us: u16) -> bool
    ensures { IsTrue result ↔ (nearest_class us ≡ Half.One) }
{
    (26..=76).contains(&us)
}

/// Returns true if the nearest class of a half-bit of `us` microseconds is Zero.
#[inline(always)]
pub(crate) fn is_nearest_zero(us: u16) -> bool
    ensures { IsTrue result ↔ (nearest_class us ≡ Half.Zero) }
{
    (77..=20000).contains(&us)
}

/// Returns a duration whose class is the nearest class of a half-bit of `us` microseconds.
#[inline(always)]
pub(crate) fn corrected(us: u16) -> u16
    ensures { class_of result ≡ nearest_class us }
{
    match us {
        26..=76 => 58,
        77..=20000 => 100,
        _ => 0,
    }
}

/// Returns the number of half-bits of ones at the beginning of a list. A half-bit counts as half of
/// a one if its nearest class is One.
#[inline(always)]
pub(crate) fn ones_before(halves: &[u16]) -> usize
    ensures ones { result ≡ ones_before (map nearest_class halves.now) }
    ensures few { result ≤ length halves.now }
{
    for (i, us) in halves.iter().enumerate() {
        if !is_nearest_one(*us) {
            return i;
        }
    }
    halves.len()
}
