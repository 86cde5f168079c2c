//! A function that reads the decoders of a decoder text.

ghost use Rattle.std.specs.Prelude.{◌≡◌, ◌≤◌, [], None, Ok, IfSome, IfOk, MatchResult, All, vec_capacity, true};
ghost use Rattle.dcc_io.specs.Faults.{as_tool_fault};
ghost use Rattle.dcc_io.specs.InputState.{ReadHasFailure};
ghost use Rattle.dcc_saved.specs.DecoderText.{decoder_text, decoders_from};
ghost use Rattle.dcc_saved.specs.PossibleLines.{IsPossibleHead, is_possible};
ghost use Rattle.dcc_saved.specs.TextRead.{ReadsValue, UsedWholeLines};
ghost use Rattle.dcc_saved.specs.TextReadOrNoMemory.{ReadFails};

use crate::decoder_line::Head;
use crate::decoder_text::{read_decoder, read_line};
use crate::saved::Saved;
use crate::saved_line::{HeadLine, VERSION};
use dcc_io::inputs::refuse_too_much;
use dcc_io::{Input, KeptFault, Source, ToolFault};
use std::alloc::Global;

/// The greatest number of decoders in a text. A further decoder has the error U7 at the end of its
/// first line.
const MOST: usize = 64;

/// Returns the decoders of the decoder text at the beginning of the input, which has version 1 or
/// 2. The function reads no input after the line `end`. The function `restore` accepts the state of
/// each decoder. `read_decoders` allocates once, before it reads.
///
/// Errors: U3 with the number of a line and the first error of this line. The error of the line is
/// P10 if a line or a word is missing or not allowed. The error of the line is P11 if a number is
/// malformed, and P1 to P9 or P14 if a number is out of the range of its value. The error of the
/// line is P12 if hex digits form no frame, and P13 if no decoder can have the state. U7 if the
/// text has a 65th decoder or exceeds a limit. U4 if a read fails. U6 if the allocation fails.
#[tactic(auto, using(crate::proofs::DecoderTextLemmas::fault_is_told))]
pub fn read_decoders<R: Source>(
    alloc: Global,
    input: &mut Input<R>,
) -> Result<Vec<Saved>, ToolFault>
    // If an error is stored, the function returns this error and reads nothing.
    ensures kept { IfSome input.old.fault (λ fault. (result ≡ Err (as_tool_fault fault)) × (input.new ≡ input.old)) }
    ensures cause { ReadHasFailure input.old.fault input.old.failures }

    // If no error is stored, the text is read to its end or to its first error.
    ensures reads { input.old.fault ≡ None → MatchResult result
        (λ decoders. ReadsValue decoder_text input.old (Ok decoders.items) input.new)
        (λ fault. ReadFails input.old fault input.new) }

    // After Ok, the lines up to the line `end` were used. The clause `reads` says how many lines
    // were used after an error.
    ensures lines { IfOk result (λ decoders. UsedWholeLines input.old input.new) }

    // `restore` accepts each of the decoders.
    ensures possible { IfOk result (λ decoders. All (λ decoder. is_possible decoder ≡ true) decoders.items) }
{
    if let Some(fault) = input.fault() {
        return Err(ToolFault::from(fault));
    }
    let decoders = Vec::with_capacity(alloc, MOST)?;
    Ok(fill(decoders, input)?)
}

/// Reads the text into an empty vector, which must have capacity for 64 decoders.
fn fill<R: Source>(mut decoders: Vec<Saved>, input: &mut Input<R>) -> Result<Vec<Saved>, KeptFault>
    requires fault { input.old.fault ≡ None }
    requires empty { decoders.items ≡ [] }
    requires room { 64 ≤ vec_capacity decoders }
    ensures reads { MatchResult result
        (λ decoders. ReadsValue decoder_text input.old (Ok decoders.items) input.new)
        (λ fault. ReadsValue decoder_text input.old (Err fault) input.new) }
    ensures lines { IfOk result (λ decoders. UsedWholeLines input.old input.new) }
    ensures possible { IfOk result (λ decoders. All (λ decoder. is_possible decoder ≡ true) decoders.items) }
{
    let version = read_line(input, VERSION)?;
    let mut head = read_line(input, HeadLine)?;
    'decoders: loop {
        match head {
            Head::Decoder(who) => {
                if decoders.len() == MOST {
                    return Err(refuse_too_much(input));
                }
                let (decoder, behind) = read_decoder(input, version, who)?;
                let _ = decoders.push(decoder);
                head = behind;
            }
            Head::End => return Ok(decoders),
        }
    }
}
