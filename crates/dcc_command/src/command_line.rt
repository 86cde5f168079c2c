//! Functions that describe the command line of the program to clap.
ghost use Rattle.std.specs.Prelude.{◌≡◌, IfOk, false, codes};
ghost use Rattle.clap.specs.Words.{app_of, rule_of};
ghost use Rattle.clap.specs.declared.builder.command.Command.TheViews.{out-Command as fields_of};
ghost use Rattle.dcc_command.specs.CommandLine.{cv_rule, dcc_app, encode_app, encode_flags, flag_rule, readcv_app};
ghost use Rattle.dcc_command.specs.CommandLine.{lost_app, run_app};
ghost use Rattle.dcc_command.specs.CommandLine.{same_app, show_app, size_rule, spikes_rule, timing_app, top_app};
ghost use Rattle.dcc_command.specs.CommandLine.{what_app, who_rule};

use crate::help_texts;
use clap::{Arg, ArgAction, Command, value_parser};
use std::alloc::{AllocError, Global};

/// Returns the description of the program with its subcommands.
pub fn command<'a>(alloc: Global) -> Result<Command<'a>, AllocError>
    ensures { IfOk result (λ c. app_of c ≡ dcc_app) }
{
    top(alloc)
        .subcommand(show(alloc)?)?
        .subcommand(lost(alloc)?)?
        .subcommand(encode(alloc)?)?
        .subcommand(run(alloc))?
        .subcommand(same(alloc)?)?
        .subcommand(readcv(alloc)?)?
        .subcommand(timing(alloc))?
        .subcommand(what(alloc))
}

/// Returns the description of the program without its subcommands.
fn top<'a>(alloc: Global) -> Command<'a>
    ensures { app_of result ≡ top_app }
{
    Command::new(alloc, "dcc")
        .about("Digital Command Control: captures, packets and decoders")
        .version("0.2.0")
        .subcommand_required(true)
        .disable_help_subcommand(true)
}

fn show<'a>(alloc: Global) -> Result<Command<'a>, AllocError>
    ensures app { IfOk result (λ c. app_of c ≡ show_app) }
    ensures local { IfOk result (λ c. (fields_of c).has_globals ≡ false) }
{
    Command::new(alloc, "show")
        .about("Lists the packets and the refused packets of a capture")
        .after_help(help_texts::SHOW)
        .arg(flag(alloc, "words", "Write packets as packet lines, not in hex"))?
        .arg(flag(
            alloc,
            "plain",
            "Write packets in plain words: speed steps, functions, turnouts",
        ))
}

fn lost<'a>(alloc: Global) -> Result<Command<'a>, AllocError>
    ensures app { IfOk result (λ c. app_of c ≡ lost_app) }
    ensures local { IfOk result (λ c. (fields_of c).has_globals ≡ false) }
{
    Command::new(alloc, "lost")
        .about("Lists the packets of a capture that a decoder does not hear, with the causes")
        .after_help(help_texts::LOST)
        .arg(flag(alloc, "words", "Write packets as packet lines, not in hex"))?
        .arg(spikes(alloc))
}

/// Returns the subcommand `encode` with its flags.
fn encode_flags<'a>(alloc: Global) -> Result<Command<'a>, AllocError>
    ensures app { IfOk result (λ c. app_of c ≡ encode_flags) }
    ensures local { IfOk result (λ c. (fields_of c).has_globals ≡ false) }
{
    Command::new(alloc, "encode")
        .about("Writes the half-bits that a station sends for packet lines")
        .after_help(help_texts::ENCODE)
        .arg(flag(
            alloc,
            "hex",
            "Write the bytes of each packet, not its half-bits",
        ))?
        .arg(flag(alloc, "service", "Use the timing of service mode"))?
        .arg(flag(
            alloc,
            "station",
            "Use a station, which sends N packets for each line `send N`",
        ))
}

/// Returns the subcommand `encode` with its flags and the sizes of a station.
fn encode<'a>(alloc: Global) -> Result<Command<'a>, AllocError>
    ensures app { IfOk result (λ c. app_of c ≡ encode_app) }
    ensures local { IfOk result (λ c. (fields_of c).has_globals ≡ false) }
{
    encode_flags(alloc)?
        .arg(size(
            alloc,
            "queue",
            "Capacity of the queue of commands, 16 by default",
        ))?
        .arg(size(
            alloc,
            "slots",
            "Number of packets that are refreshed, 32 by default",
        ))?
        .arg(size(
            alloc,
            "repeats",
            "Number of copies of a command in a row, 2 by default",
        ))
}

fn run<'a>(alloc: Global) -> Command<'a>
    ensures app { app_of result ≡ run_app }
    ensures local { (fields_of result).has_globals ≡ false }
{
    Command::new(alloc, "run")
        .about("Applies a capture to the decoders of a decoder text, and writes their state")
        .after_help(help_texts::RUN)
}

fn same<'a>(alloc: Global) -> Result<Command<'a>, AllocError>
    ensures app { IfOk result (λ c. app_of c ≡ same_app) }
    ensures local { IfOk result (λ c. (fields_of c).has_globals ≡ false) }
{
    Command::new(alloc, "same")
        .about("Compares two captures, with a line --- between them, for a decoder")
        .after_help(help_texts::SAME)
        .arg(who(alloc))
}

fn readcv<'a>(alloc: Global) -> Result<Command<'a>, AllocError>
    ensures app { IfOk result (λ c. app_of c ≡ readcv_app) }
    ensures local { IfOk result (λ c. (fields_of c).has_globals ≡ false) }
{
    Command::new(alloc, "readcv")
        .about("Reads a CV of the first locomotive of a decoder text, on a programming track")
        .after_help(help_texts::READCV)
        .arg(cv(alloc))?
        .arg(flag(
            alloc,
            "empty",
            "Use an empty track, and read no decoder text",
        ))
}

fn timing<'a>(alloc: Global) -> Command<'a>
    ensures app { app_of result ≡ timing_app }
    ensures local { (fields_of result).has_globals ≡ false }
{
    Command::new(alloc, "timing")
        .about("Writes statistics that compare the half-bits of a capture with the limits")
        .after_help(help_texts::TIMING)
}

fn what<'a>(alloc: Global) -> Command<'a>
    ensures app { app_of result ≡ what_app }
    ensures local { (fields_of result).has_globals ≡ false }
{
    Command::new(alloc, "what")
        .about("Says in a sentence what an input is")
        .after_help(help_texts::WHAT)
}

/// Returns a flag of a subcommand, which has no value.
fn flag<'a>(alloc: Global, name: &'a str, help: &'a str) -> Arg<'a>
    ensures rule { rule_of result ≡ flag_rule name.entry.now }
    ensures local { result.global ≡ false }
{
    Arg::new(alloc, name)
        .long(name)
        .action(ArgAction::SetTrue)
        .help(help)
}

/// Returns an option of a subcommand with a value from 0 to 255.
fn size<'a>(alloc: Global, name: &'a str, help: &'a str) -> Arg<'a>
    ensures rule { rule_of result ≡ size_rule name.entry.now }
    ensures local { result.global ≡ false }
{
    Arg::new(alloc, name)
        .long(name)
        .value_parser(value_parser!(u8))
        .help(help)
}

/// Returns the option `--spikes`, which is the duration below which a half-bit is a spike.
fn spikes<'a>(alloc: Global) -> Arg<'a>
    ensures rule { rule_of result ≡ spikes_rule }
    ensures local { result.global ≡ false }
{
    Arg::new(alloc, "spikes")
        .long("spikes")
        .value_name("US")
        .action(ArgAction::Set)
        .value_parser(value_parser!(u8).range(1..=25))
        .help("Join half-bits shorter than US microseconds, 1 to 25, with their neighbours")
}

/// Returns the option `--who`, which names the decoder for which captures are compared.
fn who<'a>(alloc: Global) -> Arg<'a>
    ensures rule { rule_of result ≡ who_rule }
    ensures local { result.global ≡ false }
{
    Arg::new(alloc, "who")
        .long("who")
        .value_name("W")
        .required(true)
        .action(ArgAction::Set)
        .help("The decoder: s3, l1000, none or b12")
}

/// Returns the option `--cv`, which is the number of the CV that is read.
fn cv<'a>(alloc: Global) -> Arg<'a>
    ensures rule { rule_of result ≡ cv_rule }
    ensures local { result.global ≡ false }
{
    Arg::new(alloc, "cv")
        .long("cv")
        .required(true)
        .action(ArgAction::Set)
        .value_parser(value_parser!(u16).range(1..=1024))
        .help("The number of the CV, 1 to 1024")
}
