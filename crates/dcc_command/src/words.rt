//! A function that parses the arguments of the command line.
ghost use Rattle.std.specs.Prelude.{◌≡◌, IfOk, map};
ghost use Rattle.clap.specs.Words.{FailsBy, fault_of, subcommand_of, subcommand_rows_of};
ghost use Rattle.dcc_command.specs.CommandLine.{dcc_app};

use crate::command_line::command;
use clap::{ArgMatches, Error};
use std::alloc::Global;
use std::convert::AsStr;

/// Returns the parsed arguments. The first argument is the name of the program.
///
/// Errors: the error of clap if the arguments are wrong, if they request the help or the version,
/// or if an allocation fails.
pub fn taken<'a, S: AsStr>(alloc: Global, words: &'a [S]) -> Result<ArgMatches<'a>, Error>
    // The definition `fault_of` says which arguments are accepted, and which error other arguments
    // have.
    ensures takes { FailsBy (fault_of dcc_app (map S.text words.entry.now)) result }
    ensures finds { IfOk result (λ matches. subcommand_rows_of matches
        ≡ subcommand_of dcc_app (map S.text words.entry.now)) }
{
    command(alloc)?.try_get_matches_from(words)
}
