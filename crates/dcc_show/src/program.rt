//! One run of the program, over any arguments, input, writer and standard error.
ghost use Rattle.std.specs.Prelude.{◌≡◌, None, Bool, Result};
ghost use Rattle.dcc_show.specs.Program.{DoesAsAsked, RequestsListing, listing_status};

use dcc_capture::show;
use dcc_io::{Input, Sink, Source, ToolFault, Usage};
use std::env::{Env, FillError};

/// Lists the capture of the input, and returns the exit status. The function writes an error to
/// standard error.
pub fn run<T: Env + Eprint, R: Source, W: Sink>(rt: &T, input: &mut Input<R>, writer: &mut W) -> u8
    requires { input.old.fault ≡ None }
    ensures { (asked : Result Bool ToolFault) × RequestsListing asked × (outcome : Result (Unit {0}) ToolFault)
        × DoesAsAsked asked input.old (W.state writer.old) outcome input.new (W.state writer.new)
        × (result ≡ listing_status outcome) }
{
    let outcome = list(in_words(rt), input, writer);
    if let Err(fault) = &outcome {
        let _ = eprintln!(rt; "{fault}");
    }
    exit_status(&outcome)
}

/// Lists the capture, with packets as packet lines if `asked` is true. If `asked` is an error of
/// the arguments, the function returns this error.
fn list<R: Source, W: Sink>(
    asked: Result<bool, ToolFault>,
    input: &mut Input<R>,
    writer: &mut W,
) -> Result<(), ToolFault>
    requires { input.old.fault ≡ None }
    ensures { DoesAsAsked asked input.old (W.state writer.old) result input.new (W.state writer.new) }
{
    match asked {
        Ok(words) => show(input, writer, words),
        Err(fault) => Err(fault),
    }
}

/// Returns true if the only argument is `--words`, and false if there is no argument.
///
/// Errors: U1 for other arguments.
fn in_words<T: Env>(rt: &T) -> Result<bool, ToolFault>
    ensures { RequestsListing result }
{
    let mut word = [0; 8];
    let len = match rt.arg(1, &mut word) {
        Ok(len) => len,
        Err(FillError::NotPresent) => return Ok(false),
        Err(_) => return Err(ToolFault::Usage(Usage::Words)),
    };
    match rt.arg(2, &mut [0; 8]) {
        Err(FillError::NotPresent) if word.get(..len) == Some(b"--words".as_slice()) => Ok(true),
        _ => Err(ToolFault::Usage(Usage::Words)),
    }
}

/// Returns the exit status: 0 if the whole listing was written, 2 for wrong arguments, and 3 for
/// any other error.
fn exit_status(outcome: &Result<(), ToolFault>) -> u8
    ensures { result ≡ listing_status outcome.now }
{
    match outcome {
        Ok(()) => 0,
        Err(ToolFault::Usage(_)) => 2,
        Err(_) => 3,
    }
}
