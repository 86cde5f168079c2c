//! One run of the program, over any arguments, input, writer and standard error.
ghost use Rattle.std.specs.Prelude.{◌≡◌, ◌⊎◌, Result, Ok, IfOk, IfErr, List, map, string_bytes};
ghost use Rattle.clap.specs.Words.{Text, kind_of};
ghost use Rattle.dcc_tool.specs.ExitStatus.{status_of};
ghost use Rattle.dcc.specs.Program.{AreWords, BeginsWithName, EndsFor, PerformsAsked, RunsCommandLine};

use crate::request::asked;
use clap::Error;
use dcc_command::print_clap_error;
use dcc_tool::{Ending, Input, Request, Sink, Source, ToolFault, Usage, perform, report_end};
use std::alloc::Global;
use std::env::{Env, FillError};
use std::{env, io};

/// Executes the subcommand that the arguments name, and returns the exit status. The subcommand
/// reads `input` and writes to `writer`. The runtime writes errors and the texts of clap.
pub fn run<T, R, W>(rt: &T, input: &mut Input<R>, writer: &mut W) -> u8
where
    T: Env + Print + Eprint + AllocGlobal,
    R: Source,
    W: Sink,
    ensures { (words : Result (List Text) ToolFault) × AreWords words × (outcome : Result Ending ToolFault)
        × RunsCommandLine words (record { input = input.old; writer = W.state writer.old }) outcome
        (record { input = input.new; writer = W.state writer.new }) × (result ≡ status_of outcome) }
{
    report_end(rt, &outcome(rt, input, writer))
}

/// Executes the subcommand that the arguments name, and returns its result.
fn outcome<T, R, W>(rt: &T, input: &mut Input<R>, writer: &mut W) -> Result<Ending, ToolFault>
where
    T: Env + Print + Eprint + AllocGlobal,
    R: Source,
    W: Sink,
    ensures { (words : Result (List Text) ToolFault) × AreWords words
        × RunsCommandLine words (record { input = input.old; writer = W.state writer.old }) result
        (record { input = input.new; writer = W.state writer.new }) }
{
    match words_of(rt) {
        Ok(words) => execute(rt, words.as_slice(), input, writer),
        Err(fault) => Err(fault),
    }
}

/// Executes the subcommand that the words of the command line name, and returns its result.
fn execute<T, R, W>(
    rt: &T,
    words: &[String],
    input: &mut Input<R>,
    writer: &mut W,
) -> Result<Ending, ToolFault>
where
    T: Print + Eprint + AllocGlobal,
    R: Source,
    W: Sink,
    ensures { RunsCommandLine (Ok (map string_bytes words.now))
        (record { input = input.old; writer = W.state writer.old }) result
        (record { input = input.new; writer = W.state writer.new }) }
{
    match asked(rt.alloc(), words) {
        Ok(request) => perform_asked(rt, request, input, writer),
        Err(error) => report_clap_error(rt, &error),
    }
}

/// Executes the request. If the arguments have an error, the function returns this error.
fn perform_asked<T, R, W>(
    rt: &T,
    asked: Result<Request, ToolFault>,
    input: &mut Input<R>,
    writer: &mut W,
) -> Result<Ending, ToolFault>
where
    T: Eprint + AllocGlobal,
    R: Source,
    W: Sink,
    ensures { PerformsAsked asked (record { input = input.old; writer = W.state writer.old }) result
        (record { input = input.new; writer = W.state writer.new }) }
{
    match asked {
        Ok(request) => perform(rt.alloc(), request, input, writer),
        Err(ToolFault::Usage(Usage::Words)) => {
            print_conflict(rt);
            Err(ToolFault::Usage(Usage::Words))
        }
        Err(fault) => Err(fault),
    }
}

/// Writes the text of clap, and returns the result of the program.
fn report_clap_error<T: Print + Eprint>(rt: &T, error: &Error) -> Result<Ending, ToolFault>
    ensures { EndsFor (kind_of error.now) result }
{
    match print_clap_error(rt, error) {
        Ok(()) => Ok(Ending::Done),
        Err(fault) => Err(fault),
    }
}

/// Writes the error of the only two options that exclude each other, in the form of clap. The
/// definition that the proof of clap uses has no such options, so clap accepts both.
fn print_conflict<T: Eprint>(rt: &T) {
    let _ = eprintln!(rt;
        "error: the argument '--plain' cannot be used with '--words'\n\n\
         Usage: dcc show --plain\n\n\
         For more information, try '--help'."
    );
}

/// Returns the arguments. The first argument is `dcc` in place of the name of the program, since
/// this name can be any path.
///
/// Errors: U1 if an argument is not UTF-8, U6 if an allocation fails.
fn words_of<T: Env + Eprint + AllocGlobal>(rt: &T) -> Result<Vec<String>, ToolFault>
    ensures words { IfOk result (λ words. BeginsWithName (map string_bytes words.items)) }
    ensures fault { IfErr result (λ fault. (fault ≡ ToolFault.Usage Usage.Words) ⊎ (fault ≡ ToolFault.NoMemory)) }
{
    let mut words = Vec::new(rt.alloc());
    let name = String::from_str(rt.alloc(), "dcc").map_err(|_| ToolFault::NoMemory)?;
    words.push(name).map_err(|_| ToolFault::NoMemory)?;
    match env::args(&BehindName { rt }) {
        Ok(behind) => {
            for word in behind {
                words.push(word).map_err(|_| ToolFault::NoMemory)?;
            }
            Ok(words)
        }
        Err(error) if error.kind() == io::ErrorKind::OutOfMemory => Err(ToolFault::NoMemory),
        Err(_) => {
            let fault = ToolFault::Usage(Usage::Words);
            let _ = eprintln!(rt; "{fault}");
            Err(fault)
        }
    }
}

/// The arguments of a runtime without the first argument. The first argument is the name of the
/// program, which is a path and need not be UTF-8.
#[derive(Drop)]
struct BehindName<'a, T> {
    rt: &'a T,
}

impl<'a, T: Env> Env for BehindName<'a, T> {
    fn arg(&self, i: usize, buf: &mut [u8]) -> Result<usize, FillError> {
        match i.checked_add(1) {
            Some(behind) => self.rt.arg(behind, buf),
            None => Err(FillError::NotPresent),
        }
    }

    fn var(&self, name: &str, buf: &mut [u8]) -> Result<usize, FillError> {
        self.rt.var(name, buf)
    }

    fn var_at(&self, i: usize, buf: &mut [u8]) -> Result<usize, FillError> {
        self.rt.var_at(i, buf)
    }
}

impl<'a, T: AllocGlobal> Alloc for BehindName<'a, T> {
    type A = Global;

    fn alloc(&self) -> Global {
        self.rt.alloc()
    }
}
