//! The C struct of a command station, in memory that the caller owns.

ghost use Rattle.std.specs.Prelude.{◌≤◌};

use crate::station_ring::DccRing;

/// A command station, which consists of a ring for the queue and a ring for the entries. The fields
/// of a `DccStation` are private. A struct of zeros is a station without capacity.
#[repr(C)]
#[derive(Clone, Copy, Drop)]
pub struct DccStation {
    pub(crate) commands: DccRing,
    pub(crate) entries: DccRing,
    pub(crate) stopping: bool,
    pub(crate) sent: u8,
    pub(crate) repeats: u8,
    ghost few: { (repeats ≤ 8) × (sent ≤ 8) },
}
