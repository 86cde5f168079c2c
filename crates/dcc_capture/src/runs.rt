//! Functions that read the runs of a capture.

ghost use Rattle.std.specs.Prelude.{◌≡◌, None};
ghost use Rattle.dcc_io.specs.KeptAnswers.{AnswersKept};
ghost use Rattle.dcc_capture.specs.Capture.{AnswersRun};

use dcc_io::inputs::{count_run, next_word, refuse_number, take_buffered_run};
use dcc_io::{Input, KeptFault, Run, Source};

/// Returns the run of the next word. Returns `None` at the end of the capture. If the function
/// returns an error, `input` stores this error.
#[inline(always)]
pub fn read_run<R: Source>(input: &mut Input<R>) -> Result<Option<Run>, KeptFault>
    ensures kept { AnswersKept input.old result input.new }
    ensures reads { input.old.fault ≡ None → AnswersRun input.old result input.new }
{
    match input.fault() {
        Some(fault) => Err(fault),
        None => run_of_next_word(input),
    }
}

/// Returns the run of the next word, for an input without a stored error. Most words that are no
/// durations are runs that the buffer contains completely.
#[inline(always)]
#[tactic(auto, using(crate::proofs::HalfLemmas::run_taken))]
fn run_of_next_word<R: Source>(input: &mut Input<R>) -> Result<Option<Run>, KeptFault>
    requires { input.old.fault ≡ None }
    ensures { AnswersRun input.old result input.new }
{
    match take_buffered_run(input) {
        Some(run) => Ok(Some(run)),
        None => run_of_read_word(input),
    }
}

/// Returns the run of the next word, and reads this word byte by byte.
#[inline(always)]
fn run_of_read_word<R: Source>(input: &mut Input<R>) -> Result<Option<Run>, KeptFault>
    requires { input.old.fault ≡ None }
    ensures { AnswersRun input.old result input.new }
{
    match next_word(input)? {
        Some((line, word)) => match word.run() {
            Some(run) => count_run(input, run),
            None => Err(refuse_number(input, line)),
        },
        None => Ok(None),
    }
}
