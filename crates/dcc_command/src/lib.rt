//! The command line of the program: the arguments that the program accepts, and the texts for
//! `--help`, `--version` and wrong arguments.
#![tactic(auto)]

mod command_line;
mod help_texts;
mod telling;
mod words;

pub use telling::print_clap_error;
pub use words::taken;
