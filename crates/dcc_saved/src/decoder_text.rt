//! Functions that read a decoder text.

ghost use Rattle.std.specs.Prelude.{◌≡◌, ◌%◌, None, true, nat_le, IfOk};
ghost use Rattle.dcc_regs.specs.Addresses.{is_active};
ghost use Rattle.dcc_regs.specs.Possible.{is_decoder};
ghost use Rattle.dcc_saved.specs.Inner.RequiredLine.{TakesLine};
ghost use Rattle.dcc_saved.specs.TextReader.{line_by};
ghost use Rattle.dcc_saved.specs.TextRead.{ReadsValue};
ghost use Rattle.dcc_saved.specs.DecoderText.{board_lines, cvs_lines, decoder_lines, loco_lines, states_by};
ghost use Rattle.dcc_saved.specs.PossibleLines.{IsPossibleHead, is_possible};

use crate::decoder_line::{Head, LocoLine, Numbered, Version};
use crate::saved::Saved;
use crate::saved_line::{ASPECTS, CvLine, HeadLine, POSITIONS, PendingLine, SPEED, SavedLine};
use dcc_io::inputs::{line_of_next_byte, next_line, refuse_line};
use dcc_io::{Input, KeptFault, Source, TextLine};
use dcc_packet::{Address, Board, PacketFault};
use dcc_regs::{BoardState, LocoState, Who};

/// Returns the next line.
///
/// Errors: U3 with P10 and the number of the line after the last, if no line is left.
fn line_in_place<R: Source>(input: &mut Input<R>) -> Result<TextLine, KeptFault>
    requires { input.old.fault ≡ None }
    ensures { TakesLine input.old result input.new }
{
    match next_line(input)? {
        Some(line) => Ok(line),
        None => {
            let line = line_of_next_byte(input);
            Err(refuse_line(input, line, PacketFault::Word))
        }
    }
}

/// Returns the value of the next line. If the function returns an error, `input` stores this error.
pub(crate) fn read_line<R: Source, L: SavedLine>(
    input: &mut Input<R>,
    line: L,
) -> Result<L::Value, KeptFault>
    requires { input.old.fault ≡ None }
    ensures reads { ReadsValue (line_by (L.line line)) input.old result input.new }
    ensures fits { IfOk result (L.line line).Fits }
{
    let taken = line_in_place(input)?;
    match line.read(taken.text.as_bytes()) {
        Ok(value) => Ok(value),
        Err(fault) => Err(refuse_line(input, taken.number, fault)),
    }
}

/// Returns the binary states that are on, as bits. A text of version 1 has no line with binary
/// states.
#[tactic(auto, using(crate::proofs::ReadLemmas::begins))]
fn states_of<R: Source>(input: &mut Input<R>, version: Version) -> Result<u128, KeptFault>
    requires { input.old.fault ≡ None }
    ensures reads { ReadsValue (states_by version) input.old result input.new }
    ensures even { IfOk result (λ states. states % 2 ≡ 0) }
{
    match version {
        Version::One => Ok(0),
        Version::Two => read_line(input, Numbered::State),
    }
}

/// Reads the lines of the CVs and the line after them. Returns the CVs and the value of the line
/// after them.
fn read_cvs<R: Source>(input: &mut Input<R>) -> Result<([u8; 1024], Head), KeptFault>
    requires { input.old.fault ≡ None }
    ensures reads { ReadsValue cvs_lines input.old result input.new }
    ensures possible { IfOk result (λ read. IsPossibleHead read.1) }
{
    let mut cvs = [0; 1024];
    let mut least = 1;
    'cvs: loop {
        match read_line(input, CvLine { least })? {
            LocoLine::Cv { cv, value } => {
                cvs[cv.number() as usize - 1] = value;
                least = cv.number() + 1;
            }
            LocoLine::Head(head) => return Ok((cvs, head)),
        }
    }
}

/// Reads the lines of the locomotive decoder with the address `address` and the line after them.
/// Returns the decoder and the value of the line after it.
fn read_loco<R: Source>(
    input: &mut Input<R>,
    version: Version,
    address: Option<Address>,
) -> Result<(Saved, Head), KeptFault>
    requires fault { input.old.fault ≡ None }
    requires active { is_active address ≡ true }
    ensures reads { ReadsValue (loco_lines version address) input.old result input.new }
    ensures possible { IfOk result (λ read. (is_possible read.0 ≡ true) × IsPossibleHead read.1) }
{
    let (saved, direction) = read_line(input, SPEED)?;
    let functions = read_line(input, Numbered::Function)?;
    let states = states_of(input, version)?;
    let pending = read_line(input, PendingLine { address })?;
    let (cvs, head) = read_cvs(input)?;
    let state = LocoState {
        address,
        speed: saved.speed,
        forward: direction.forward,
        functions,
        states,
        pending,
        cvs,
    };
    Ok((Saved::Loco(state), head))
}

/// Reads the lines of the accessory decoder with the address `board` and the line after them.
/// Returns the decoder and the value of the line after it.
fn read_board<R: Source>(input: &mut Input<R>, board: Board) -> Result<(Saved, Head), KeptFault>
    requires fault { input.old.fault ≡ None }
    requires own { nat_le board.number 510 ≡ true }
    ensures reads { ReadsValue (board_lines board) input.old result input.new }
    ensures possible { IfOk result (λ read. (is_possible read.0 ≡ true) × IsPossibleHead read.1) }
{
    let outs = read_line(input, Numbered::Out)?;
    let positions = read_line(input, POSITIONS)?;
    let aspects = read_line(input, ASPECTS)?;
    let head = read_line(input, HeadLine)?;
    let (side0, (side1, (side2, side3))) = positions;
    let (aspect0, (aspect1, (aspect2, aspect3))) = aspects;
    let state = BoardState {
        board,
        outs: outs as u8,
        positions: [side0.one, side1.one, side2.one, side3.one],
        aspects: [aspect0, aspect1, aspect2, aspect3],
    };
    Ok((Saved::Board(state), head))
}

/// Reads the lines of the decoder `who` and the line after them. Returns the decoder and the value
/// of the line after it.
pub(crate) fn read_decoder<R: Source>(
    input: &mut Input<R>,
    version: Version,
    who: Who,
) -> Result<(Saved, Head), KeptFault>
    requires fault { input.old.fault ≡ None }
    requires possible { is_decoder who ≡ true }
    ensures reads { ReadsValue (decoder_lines version who) input.old result input.new }
    ensures possible { IfOk result (λ read. (is_possible read.0 ≡ true) × IsPossibleHead read.1) }
{
    match who {
        Who::Loco(address) => read_loco(input, version, address),
        Who::Board(board) => read_board(input, board),
    }
}
