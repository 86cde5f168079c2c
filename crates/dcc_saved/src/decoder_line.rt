//! The types of the values of lines of a decoder text.

ghost use Rattle.std.specs.Prelude.{◌≡◌, ◌≤◌, length};
ghost use Rattle.dcc_saved.specs.Numbered.{name_of, end_of, register_of};

use dcc_packet::CvNumber;
use dcc_regs::{Register, Who};

/// The version of a decoder text.
#[derive(Clone, Copy)]
pub enum Version {
    /// Version 1: the text has no line with binary states, and all binary states are off.
    One,
    /// Version 2: the text has a line with the binary states of each locomotive decoder.
    Two,
}

/// A list of four fields of one type.
pub type Four<F> = (F, (F, (F, F)));

/// The value of the first line of a decoder, or of the last line of the text.
#[derive(Clone, Copy)]
pub enum Head {
    /// The first line of a decoder, with its kind and address.
    Decoder(Who),
    /// The last line of the text, `end`.
    End,
}

/// The value of a line after the `pending` line of a locomotive decoder.
#[derive(Clone, Copy)]
pub enum LocoLine {
    /// A line with the value of a CV.
    Cv { cv: CvNumber, value: u8 },
    /// The first line of the next decoder, or the last line of the text.
    Head(Head),
}

/// The kinds of lines that list registers. Such a line has the numbers of the registers that are
/// on.
#[derive(Clone, Copy)]
pub enum Numbered {
    Function,
    State,
    Out,
}

impl Numbered {
    /// Returns the word at the beginning of the line.
    pub(crate) fn name(self) -> &'static [u8]
        ensures is { result.now ≡ name_of self }
        ensures short { length result.now ≤ 6 }
    {
        match self {
            Numbered::Function => b"on",
            Numbered::State => b"states",
            Numbered::Out => b"out",
        }
    }

    /// Returns the greatest number of a register of this kind, plus 1.
    pub(crate) fn end(self) -> u8
        ensures is { result ≡ end_of self }
        ensures most { result ≤ 128 }
    {
        match self {
            Numbered::Function => 69,
            Numbered::State => 128,
            Numbered::Out => 8,
        }
    }

    /// Returns the register of this kind with the number `n`.
    pub(crate) fn register(self, n: u8) -> Register
        ensures { result ≡ register_of self n }
    {
        match self {
            Numbered::Function => Register::Function(n),
            Numbered::State => Register::State(n),
            Numbered::Out => Register::Out(n),
        }
    }
}
