//! The number of a bit.
ghost use Rattle.std.specs.Prelude.{◌≡◌, ◌≤◌};
ghost use Rattle.dcc_packet.specs.Rows.{bit};

/// Returns 1 if `on` is true, otherwise 0.
pub(crate) fn bit(on: bool) -> u8
    ensures value { result ≡ bit on }
    ensures bound { result ≤ 1 }
{
    if on { 1 } else { 0 }
}
