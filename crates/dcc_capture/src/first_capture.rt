//! Functions that read the runs of the first of two captures in one input.

ghost use Rattle.std.specs.Prelude.{◌≡◌, ◌==◌, ◌&&◌, not, ℕ, List, None};
ghost use Rattle.dcc_io.specs.Words.{is_mark};
ghost use Rattle.dcc_io.specs.SpelledWords.{Spells};
ghost use Rattle.dcc_io.specs.KeptAnswers.{AnswersKept};
ghost use Rattle.dcc_capture.specs.FirstRead.{AnswersFirst};
ghost use Rattle.dcc_capture.specs.Inner.FirstSteps.{CountsWord, EndsMark};

use dcc_io::inputs::{
    count_run, ends_line, line_of_next_byte, next_word, refuse_line, refuse_number,
    take_buffered_run,
};
use dcc_io::{Input, KeptFault, Run, RunWord, Source};
use dcc_packet::PacketFault;

/// Returns the next run of the first of two captures and its line. Returns `None` after the line
/// `---`, which ends the first capture. The function then has read this line to its end. The
/// parameter `before` is the line of the previous word, or 0. If the function returns an error,
/// `input` stores this error.
pub fn next_of_first<R: Source>(
    input: &mut Input<R>,
    before: u64,
) -> Result<Option<(u64, Run)>, KeptFault>
    ensures kept { AnswersKept input.old result input.new }
    ensures reads { input.old.fault ≡ None → AnswersFirst before input.old result input.new }
{
    match input.fault() {
        Some(fault) => Err(fault),
        None => buffered_or_next_of_first(input, before),
    }
}

/// Returns the next run of the first capture and its line, for an input without a stored error.
/// Most runs are words that the buffer contains completely.
fn buffered_or_next_of_first<R: Source>(
    input: &mut Input<R>,
    before: u64,
) -> Result<Option<(u64, Run)>, KeptFault>
    requires { input.old.fault ≡ None }
    ensures { AnswersFirst before input.old result input.new }
{
    let line = line_of_next_byte(input);
    match take_buffered_run(input) {
        Some(run) => Ok(Some((line, run))),
        None => run_or_mark(input, before),
    }
}

/// Returns the next run of the first capture and its line. Returns `None` after the line `---`,
/// which ends the first capture.
fn run_or_mark<R: Source>(
    input: &mut Input<R>,
    before: u64,
) -> Result<Option<(u64, Run)>, KeptFault>
    requires { input.old.fault ≡ None }
    ensures { AnswersFirst before input.old result input.new }
{
    match next_word(input)? {
        Some((line, word)) => {
            if begins_with_mark(&word, line, before) {
                end_mark(input, line)
            } else {
                count_word(input, line, &word)
            }
        }
        None => {
            let line = u64::from(input.lines()) + 1;
            Err(refuse_line(input, line, PacketFault::Word))
        }
    }
}

/// Returns true if `word` is `---` and is the first word of its line.
fn begins_with_mark(word: &RunWord, line: u64, before: u64) -> bool
    ensures { (bytes : List ℕ) → Spells word.now bytes → result ≡ (is_mark bytes && not (line == before)) }
{
    word.is_mark() && line != before
}

/// Returns the run that a word means, together with its line `line`.
fn count_word<R: Source>(
    input: &mut Input<R>,
    line: u64,
    word: &RunWord,
) -> Result<Option<(u64, Run)>, KeptFault>
    requires { input.old.fault ≡ None }
    ensures { (bytes : List ℕ) → Spells word.now bytes → CountsWord input.old line bytes result input.new }
{
    match word.run() {
        Some(run) => {
            count_run(input, run)?;
            Ok(Some((line, run)))
        }
        None => Err(refuse_number(input, line)),
    }
}

/// Reads to the end of the line that begins with `---`. If a further word is on this line, the
/// error is U2.
fn end_mark<R: Source>(input: &mut Input<R>, line: u64) -> Result<Option<(u64, Run)>, KeptFault>
    requires { input.old.fault ≡ None }
    ensures { EndsMark input.old line result input.new }
{
    if line_of_next_byte(input) != line {
        return Ok(None);
    }
    if ends_line(input)? {
        Ok(None)
    } else {
        Err(refuse_number(input, line))
    }
}
