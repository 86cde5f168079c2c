//! The operations of the program with one input, and the words in the tables that name these
//! operations.

use crate::fakes::{Giving, Taking};
use crate::rows::number;
use dcc_regs::{BoardDecoder, Decoder, LocoDecoder, Who};
use dcc_tool::{
    Counted, Encode, Input, Limits, Saved, ToolFault, encode, read_decoders, read_who, run, same,
    same_input, show, show_plain, timing,
};
use std::alloc::{AllocError, Global};
use std::process::Abort;

/// A capture of the packet `03 62 61`, an idle packet, and `03 62 60`, whose error byte is wrong.
pub const CAPTURE: &str = "58*28 100*14 58*4 100*4 58*4 100*6 58*2 100*6 58*4 100*8 58*4\n\
    # an idle packet\n58*28 100*2 58*16 100*20 58*18\n\
    58*28 100*14 58*4 100*4 58*4 100*6 58*2 100*6 58*4 100*10 58*2\n";

/// An operation with one input.
#[derive(Clone, Copy)]
pub enum Call {
    Show { words: bool },
    ShowPlain,
    Timing,
    Encode(Encode),
    Run,
    /// The operation `same` for locomotive 3. The input is the second capture, and `CAPTURE` is the
    /// first capture.
    Same,
    SameInput,
}

/// Returns the operation `encode --hex`. If `station` has sizes, the operation uses a station with
/// these sizes.
pub fn hex(station: Option<(usize, usize, u8)>) -> Call {
    Call::Encode(Encode {
        hex: true,
        service: false,
        station,
    })
}

/// Returns the operation that a word names. The words are `show`, `plain` (which is `show_plain`),
/// `timing`, `hex`, `run`, `station` (with 4 commands, 4 entries and one copy), and `both`, which is
/// `same_input` for locomotive 3.
pub fn call_of(word: &str) -> Call {
    match word {
        "show" => Call::Show { words: false },
        "plain" => Call::ShowPlain,
        "timing" => Call::Timing,
        "hex" => hex(None),
        "station" => hex(Some((4, 4, 1))),
        "run" => Call::Run,
        _ => Call::SameInput,
    }
}

/// Creates the fleet of the saved decoders.
pub fn fleet_of(rt: &impl Abort, alloc: Global, saved: &[Saved]) -> Vec<Box<dyn Decoder>> {
    let mut fleet: Vec<Box<dyn Decoder>> = Vec::new(alloc);
    for decoder in saved {
        fleet
            .push(restored(rt, alloc, decoder))
            .expect(rt, "memory");
    }
    fleet
}

/// Creates the decoder that is in this state.
fn restored(rt: &impl Abort, alloc: Global, decoder: &Saved) -> Box<dyn Decoder> {
    match decoder {
        Saved::Loco(state) => {
            let loco = LocoDecoder::restore(state).expect(rt, "a state");
            Box::new(alloc, loco).expect(rt, "memory")
        }
        Saved::Board(state) => {
            let board = BoardDecoder::restore(state).expect(rt, "a state");
            Box::new(alloc, board).expect(rt, "memory")
        }
    }
}

/// Reads a decoder text, and lets its decoders hear the capture after the text.
fn play_fleet(
    rt: &impl Abort,
    alloc: Global,
    input: &mut Input<Giving>,
    writer: &mut Taking,
) -> Result<(), ToolFault> {
    match read_decoders(alloc, input) {
        Ok(saved) => {
            let mut fleet = fleet_of(rt, alloc, saved.as_slice());
            run(fleet.as_mut_slice(), input, writer)
        }
        Err(fault) => Err(fault),
    }
}

/// Compares `CAPTURE` with the input.
fn play_same(
    alloc: Global,
    input: &mut Input<Giving>,
    writer: &mut Taking,
    who: Who,
) -> Result<(), ToolFault> {
    let mut first = Input::new(Counted::new(CAPTURE.as_bytes()), Limits::full());
    match same(alloc, &mut first, input, writer, who) {
        Ok(_) => Ok(()),
        Err(fault) => Err(fault),
    }
}

/// Compares the two captures of the input.
fn play_same_input(
    alloc: Global,
    input: &mut Input<Giving>,
    writer: &mut Taking,
    who: Who,
) -> Result<(), ToolFault> {
    match same_input(alloc, input, writer, who) {
        Ok(_) => Ok(()),
        Err(fault) => Err(fault),
    }
}

impl Call {
    /// Performs the operation.
    pub fn play(
        &self,
        rt: &impl Abort,
        alloc: Global,
        input: &mut Input<Giving>,
        writer: &mut Taking,
    ) -> Result<(), ToolFault> {
        let s3 = read_who("s3").expect(rt, "s3");
        match self {
            Call::Show { words } => show(input, writer, *words),
            Call::ShowPlain => show_plain(input, writer),
            Call::Timing => timing(input, writer),
            Call::Encode(how) => encode(alloc, input, writer, *how),
            Call::Run => play_fleet(rt, alloc, input, writer),
            Call::Same => play_same(alloc, input, writer, s3),
            Call::SameInput => play_same_input(alloc, input, writer, s3),
        }
    }
}

/// Returns the text of an error without `dcc: `. Returns an empty text if there is no error.
pub fn told(rt: &impl Abort, alloc: Global, answer: &Result<(), ToolFault>) -> String {
    match answer {
        Ok(()) => String::new(alloc),
        Err(fault) => {
            let text = format!(in alloc; "{fault}").expect(rt, "memory");
            let text = text.as_str().strip_prefix("dcc: ").unwrap_or("");
            String::from_str(alloc, text).expect(rt, "memory")
        }
    }
}

/// Returns the first two numbers of a column. Returns `or` if the column is empty.
pub fn pair(column: &str, or: (u32, u32)) -> (u32, u32) {
    let mut words = column.split_whitespace();
    match (words.next(), words.next()) {
        (Some(first), Some(second)) => (number(first), number(second)),
        _ => or,
    }
}

/// Returns the bytes for which a text in a table stands. `/` is a line feed, `^` a carriage return,
/// `~` a tab, `%` a vertical tab and `_` a space.
///
/// Capital letters are packets in runs: `S` and `F` are speeds, `T` is a CV write, `I` is idle, and
/// `B` has a wrong error byte. `D` is the decoder text of a locomotive and a board, and `A` is the
/// decoder text of these decoders after `S`.
pub fn text_of(rt: &impl Abort, alloc: Global, column: &str) -> Vec<u8> {
    let mut text = Vec::new(alloc);
    for byte in column.as_bytes() {
        push_letter(&mut text, *byte).expect(rt, "memory");
    }
    text
}

/// Appends the bytes for which a byte of a table stands.
fn push_letter(text: &mut Vec<u8>, byte: u8) -> Result<(), AllocError> {
    for (letter, bytes) in LETTERS {
        if letter == byte {
            return text.extend_from_slice(bytes);
        }
    }
    text.extend_from_slice(&[byte])
}

/// Bytes of a table, and the bytes for which each of them stands.
const LETTERS: [(u8, &[u8]); 12] = [
    (b'/', b"\n"),
    (b'^', b"\r"),
    (b'~', b"\t"),
    (b'%', b"\x0B"),
    (b'_', b" "),
    (
        b'S',
        b"58*28 100*14 58*4 100*4 58*4 100*6 58*2 100*6 58*4 100*8 58*4",
    ),
    (
        b'F',
        b"58*28 100*14 58*4 100*4 58*14 100*4 58*10 100*4 58*2",
    ),
    (
        b'T',
        b"58*28 100*14 58*4 100*2 58*6 100*2 58*2 100*14 58*6 100*6 58*8 100*6 58*2 100*12 58*4 100*2 58*2",
    ),
    (
        b'B',
        b"58*28 100*14 58*4 100*4 58*4 100*6 58*2 100*6 58*4 100*10 58*2",
    ),
    (b'I', b"58*28 100*2 58*16 100*20 58*18"),
    (b'D', TEXT),
    (b'A', AFTER),
];

/// The decoder text of a locomotive decoder at short address 3 and of board 12.
pub const TEXT: &[u8] =
    b"dcc-decoders 2\nloco s3\nspeed stop f\non\nstates\npending none\ncv 1 3\ncv 29 2\n\
    board 12\nout\nposition 0 0 0 0\naspect 0 0 0 0\nend\n";

/// The decoder text of these decoders after a packet with step 1 of 28 speed steps.
const AFTER: &[u8] =
    b"dcc-decoders 2\nloco s3\nspeed 28 1 f\non\nstates\npending none\ncv 1 3\ncv 29 2\n\
    board 12\nout\nposition 0 0 0 0\naspect 0 0 0 0\nend\n";
