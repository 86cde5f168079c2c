//! A function that writes the text of clap for arguments that name no operation to execute.
ghost use Rattle.std.specs.Prelude.{◌≡◌, ◌≢◌, ◌⊎◌, Ok, Err};
ghost use Rattle.clap.specs.Words.{kind_of};

use clap::Error;
use clap::error::ErrorKind;
use dcc_io::{ToolFault, Usage};

/// Writes the text of clap: to standard output for `--help` and `--version`, otherwise to standard
/// error.
///
/// Errors: U1 for wrong arguments, U5 if the text for `--help` or `--version` cannot be written, U6
/// if clap failed to allocate.
pub fn print_clap_error<R: Print + Eprint>(rt: &R, error: &Error) -> Result<(), ToolFault>
    ensures no_memory { kind_of error.now ≡ ErrorKind.OutOfMemory → result ≡ Err ToolFault.NoMemory }
    ensures asked_for { (kind_of error.now ≡ ErrorKind.DisplayHelp) ⊎ (kind_of error.now ≡ ErrorKind.DisplayVersion)
        → (result ≡ Ok tt) ⊎ (result ≡ Err ToolFault.Write) }
    ensures wrong { kind_of error.now ≢ ErrorKind.OutOfMemory → kind_of error.now ≢ ErrorKind.DisplayHelp
        → kind_of error.now ≢ ErrorKind.DisplayVersion → result ≡ Err (ToolFault.Usage Usage.Words) }
{
    if error.kind() == ErrorKind::OutOfMemory {
        return Err(ToolFault::NoMemory);
    }
    let printed = error.print(rt);
    if error.use_stderr() {
        return Err(ToolFault::Usage(Usage::Words));
    }
    match printed {
        Ok(()) => Ok(()),
        Err(_) => Err(ToolFault::Write),
    }
}
