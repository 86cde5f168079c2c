//! A function that reports an error to the user.
ghost use Rattle.std.specs.Prelude.{◌≡◌};
ghost use Rattle.dcc_tool.specs.ExitStatus.{status_of};

use crate::ending::{Ending, exit_status};
use dcc_io::{ToolFault, Usage};

/// Writes the error of an operation to standard error, and returns the exit status.
pub fn report_end<R: Eprint>(rt: &R, outcome: &Result<Ending, ToolFault>) -> u8
    ensures { result ≡ status_of outcome.now }
{
    match outcome {
        // clap has written its own text for wrong arguments
        Ok(_) | Err(ToolFault::Usage(Usage::Words)) => (),
        Err(fault) => {
            let _ = eprintln!(rt; "{fault}");
        }
    }
    exit_status(outcome)
}
