//! Functions that execute requests.
ghost use Rattle.std.specs.Prelude.{◌≡◌, nat_le, true};
ghost use Rattle.dcc_regs.specs.LocoState.{is_state, loco_map, loco_who};
ghost use Rattle.dcc_regs.specs.BoardState.{board_map, board_who};
ghost use Rattle.dcc_tool.specs.Performs.{Performs, ReadsTrack, RunsText};

use crate::ending::Ending;
use dcc_capture::show;
use dcc_io::{Input, Sink, Source, ToolFault};
use dcc_listen::{lost, lost_with_spikes, run, same_input, show_plain, timing};
use dcc_packet::CvNumber;
use dcc_regs::{BoardState, Decoder, LocoState, PackedBoard, PackedLoco, Who};
use dcc_saved::{Saved, read_decoders};
use dcc_send::{Encode, encode, programming_track, readcv};
use dcc_what::what;
use std::alloc::Global;

/// A request to the program, which names an operation and its options.
#[derive(Clone, Copy, Debug, PartialEq, Eq)]
pub enum Request {
    /// The operation `show`: lists a capture, with packets as packet lines if `words` is true.
    Show { words: bool },

    /// The operation `show_plain`: lists a capture in plain words.
    ShowPlain,

    /// The operation `lost`: lists the packets of a capture that a decoder does not hear, as packet
    /// lines if `words` is true.
    Lost { words: bool },

    /// The operation `lost_with_spikes`: lists the packets that a decoder does not hear, also those with
    /// half-bits shorter than `limit` microseconds in them.
    LostWithSpikes { words: bool, limit: u8 },

    /// The operation `encode`: writes the half-bits or the bytes of packet lines.
    Encode(Encode),

    /// The operation `run`: lets the decoders of a decoder text hear a capture.
    Run,

    /// The operation `same_input`: compares two captures for the decoder in this variant.
    Same(Who),

    /// The operation `readcv`: reads a CV on a programming track. The track is empty, or has the
    /// first locomotive of a decoder text.
    ReadCv { cv: CvNumber, empty: bool },

    /// The operation `timing`: writes the statistics of a capture.
    Timing,

    /// The operation `what`: writes a sentence that says what the input is.
    What,
}

/// Executes the request with the given input and writer.
pub fn perform<R: Source, W: Sink>(
    alloc: Global,
    request: Request,
    input: &mut Input<R>,
    writer: &mut W,
) -> Result<Ending, ToolFault>
    ensures { Performs request
        (record { input = input.old; writer = W.state writer.old }) result
        (record { input = input.new; writer = W.state writer.new }) }
{
    match request {
        Request::Show { words } => {
            show(input, writer, words)?;
            Ok(Ending::Done)
        }
        Request::ShowPlain => {
            show_plain(input, writer)?;
            Ok(Ending::Done)
        }
        Request::Lost { words } => {
            lost(input, writer, words)?;
            Ok(Ending::Done)
        }
        Request::LostWithSpikes { words, limit } => {
            lost_with_spikes(input, writer, words, limit)?;
            Ok(Ending::Done)
        }
        Request::Encode(how) => {
            encode(alloc, input, writer, how)?;
            Ok(Ending::Done)
        }
        Request::Run => {
            run_saved(alloc, input, writer)?;
            Ok(Ending::Done)
        }
        Request::Same(who) => Ok(Ending::Verdict(same_input(alloc, input, writer, who)?)),
        Request::ReadCv { cv, empty } => {
            let value = read_on_track(alloc, input, writer, cv, empty)?;
            Ok(Ending::Value(value))
        }
        Request::Timing => {
            timing(input, writer)?;
            Ok(Ending::Done)
        }
        Request::What => {
            what(alloc, input, writer)?;
            Ok(Ending::Done)
        }
    }
}

/// Executes `readcv` on an empty track, or for the first locomotive of a decoder text.
fn read_on_track<R: Source, W: Sink>(
    alloc: Global,
    input: &mut Input<R>,
    writer: &mut W,
    cv: CvNumber,
    empty: bool,
) -> Result<Option<u8>, ToolFault>
    ensures { ReadsTrack empty cv
        (record { input = input.old; writer = W.state writer.old }) result
        (record { input = input.new; writer = W.state writer.new }) }
{
    if empty {
        return readcv(None, cv, writer);
    }
    let decoders = read_decoders(alloc, input)?;
    let mut decoder = programming_track(decoders.as_slice(), input.lines())?;
    readcv(Some(&mut decoder), cv, writer)
}

/// Creates the locomotive decoder with the state `state`. A decoder must be able to have this
/// state.
fn loco_of(state: &LocoState) -> PackedLoco
    requires { is_state state.now ≡ true }
    ensures who { ⟦<PackedLoco as Decoder>⟧.who result ≡ loco_who state.now }
    ensures registers { ⟦<PackedLoco as Decoder>⟧.registers result ≡ loco_map state.now }
{
    match PackedLoco::restore(state) {
        Ok(decoder) => decoder,
        Err(_) => unreachable!(),
    }
}

/// Creates the accessory decoder with the state `state`, whose address must not be 511.
fn board_of(state: &BoardState) -> PackedBoard
    requires { nat_le state.now.board.number 510 ≡ true }
    ensures who { ⟦<PackedBoard as Decoder>⟧.who result ≡ board_who state.now }
    ensures registers { ⟦<PackedBoard as Decoder>⟧.registers result ≡ board_map state.now }
{
    match PackedBoard::restore(state) {
        Ok(decoder) => decoder,
        Err(_) => unreachable!(),
    }
}

/// Executes `run` for the decoders of a decoder text and the capture after it.
fn run_saved<R: Source, W: Sink>(
    alloc: Global,
    input: &mut Input<R>,
    writer: &mut W,
) -> Result<(), ToolFault>
    ensures { RunsText (record { input = input.old; writer = W.state writer.old })
        result
        (record { input = input.new; writer = W.state writer.new }) }
{
    let saved = read_decoders(alloc, input)?;
    let mut fleet: Vec<Box<dyn Decoder>> = Vec::new(alloc);
    // by `match`, since a failed push returns its value with the error, and `?` has no `From` for
    // this pair
    'decoders: for decoder in &saved {
        match decoder {
            Saved::Loco(state) => {
                let boxed = match Box::new(alloc, loco_of(state)) {
                    Ok(boxed) => boxed,
                    Err(_) => return Err(ToolFault::NoMemory),
                };
                match fleet.push(boxed) {
                    Ok(()) => (),
                    Err(_) => return Err(ToolFault::NoMemory),
                }
            }
            Saved::Board(state) => {
                let boxed = match Box::new(alloc, board_of(state)) {
                    Ok(boxed) => boxed,
                    Err(_) => return Err(ToolFault::NoMemory),
                };
                match fleet.push(boxed) {
                    Ok(()) => (),
                    Err(_) => return Err(ToolFault::NoMemory),
                }
            }
        }
    }
    run(fleet.as_mut_slice(), input, writer)
}
