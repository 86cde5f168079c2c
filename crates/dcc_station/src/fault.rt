//! The errors of stations.

ghost use Rattle.std.specs.Prelude.{◌≡◌};
ghost use Rattle.dcc_station.specs.FaultNumbers.{refused_number, station_fault_number};

use thiserror::Error;

/// An error in the creation of a station.
#[derive(Clone, Copy, Debug, PartialEq, Eq, Error)]
pub enum StationFault {
    /// C1: a size is out of its limits. The limits are 1 to 64 commands in the queue, 1 to 128
    /// entries, and 1 to 8 copies of a command.
    #[error("C1: a size of the station is past its limits")]
    Limit,
    /// C2: an allocation failed.
    #[error("C2: no memory for the station")]
    NoMemory,
}

impl StationFault {
    /// Returns the number of the error code: 1 for C1, 2 for C2.
    pub fn number(&self) -> u8
        ensures { result ≡ station_fault_number self.now }
    {
        match self {
            StationFault::Limit => 1,
            StationFault::NoMemory => 2,
        }
    }
}

/// An error of a command that the station refuses.
#[derive(Clone, Copy, Debug, PartialEq, Eq, Error)]
pub enum Refused {
    /// C3: a station does not send the packet, which is an idle packet, a frame in no row of the
    /// table of packets, or a broadcast CV access.
    #[error("C3: the packet is no command")]
    NotSendable,
    /// C4: the queue is full.
    #[error("C4: the queue is full")]
    QueueFull,
}

impl Refused {
    /// Returns the number of the error code: 3 for C3, 4 for C4.
    pub fn number(&self) -> u8
        ensures { result ≡ refused_number self.now }
    {
        match self {
            Refused::NotSendable => 3,
            Refused::QueueFull => 4,
        }
    }
}
