//! The types of the errors of operations.
ghost use Rattle.std.specs.Prelude.{◌≡◌};
ghost use Rattle.dcc_io.specs.Faults.{tool_fault_number, as_tool_fault};
ghost use Rattle.dcc_io.specs.declared.fault.ToolFault.TheVariants.{Write, NoMemory};

use crate::stream::Failed;
use dcc_packet::PacketFault;
use std::alloc::AllocError;
use thiserror::Error;

/// An error of a command line.
#[derive(Clone, Copy, Debug, PartialEq, Eq, Error)]
pub enum Usage {
    /// The arguments have a wrong form.
    #[error("bad command line")]
    Words,

    /// The argument that names a decoder is wrong.
    #[error("bad who")]
    BadWho,

    /// The arguments that describe a station are out of the limits of a station.
    #[error("bad station")]
    BadStation,
}

/// An error of an operation. The text of an error is the line on standard error.
#[derive(Clone, Copy, Debug, PartialEq, Eq, Error)]
pub enum ToolFault {
    /// U1: the command line is wrong.
    #[error("dcc: U1 {0}")]
    Usage(Usage),

    /// U2: a word on the line `line` is no duration and no run, or follows `---`. Lines count from
    /// 1.
    #[error("dcc: U2 line {line}: bad number")]
    Number { line: u64 },

    /// U3: the line `line` has the error `fault`. Lines count from 1.
    #[error("dcc: U3 line {line}: P{}", .fault.number())]
    Line { line: u64, fault: PacketFault },

    /// U4: a read failed.
    #[error("dcc: U4 read failed")]
    Read,

    /// U5: a write failed, or wrote no byte.
    #[error("dcc: U5 write failed")]
    Write,

    /// U6: an allocation failed.
    #[error("dcc: U6 out of memory")]
    NoMemory,

    /// U7: the input has more half-bits, bytes or decoders than the limits allow.
    #[error("dcc: U7 input too long")]
    TooMuch,
}

impl ToolFault {
    /// Returns the number of the error code, from 1 for U1 to 7 for U7.
    pub fn number(&self) -> u8
        ensures { result ≡ tool_fault_number self.now }
    {
        match self {
            ToolFault::Usage(_) => 1,
            ToolFault::Number { .. } => 2,
            ToolFault::Line { .. } => 3,
            ToolFault::Read => 4,
            ToolFault::Write => 5,
            ToolFault::NoMemory => 6,
            ToolFault::TooMuch => 7,
        }
    }
}

/// An error that an input stores and returns from each later call.
///
/// Errors that an input cannot have, such as a failed write, are not values of this type.
#[derive(Clone, Copy, Debug, PartialEq, Eq)]
pub enum KeptFault {
    /// U2: a word on the line `line` is no duration and no run, or follows `---`.
    Number { line: u64 },
    /// U3: the line `line` has the error `fault`.
    Line { line: u64, fault: PacketFault },
    /// U4: a read failed.
    Read,
    /// U7: the input has more half-bits, bytes or decoders than the limits allow.
    TooMuch,
}

// converts a stored error of an input to the error of an operation
impl From<KeptFault> for ToolFault {
    ghost from_gives = { λ kept fault. fault ≡ as_tool_fault kept };

    fn from(kept: KeptFault) -> ToolFault {
        match kept {
            KeptFault::Number { line } => ToolFault::Number { line },
            KeptFault::Line { line, fault } => ToolFault::Line { line, fault },
            KeptFault::Read => ToolFault::Read,
            KeptFault::TooMuch => ToolFault::TooMuch,
        }
    }
}

// converts a failed write to the error U5 of an operation
impl From<Failed> for ToolFault {
    ghost from_gives = { λ failed fault. fault ≡ Write };

    fn from(_failed: Failed) -> ToolFault {
        ToolFault::Write
    }
}

// converts a failed allocation to the error U6 of an operation
impl From<AllocError> for ToolFault {
    ghost from_gives = { λ want fault. fault ≡ NoMemory };

    fn from(_want: AllocError) -> ToolFault {
        ToolFault::NoMemory
    }
}
