//! The kinds of inputs.

use dcc_packet::PacketFault;

/// The kind of an input.
#[derive(Clone, Copy, Debug, PartialEq, Eq)]
pub enum Kind {
    /// The input has no word: it is empty, or has only blank lines and comments.
    Empty,
    /// The input is a zip archive.
    Zip,
    /// The input is a file that gzip has compressed.
    Gzip,
    /// The input is a text that begins with a byte order mark of UTF-8.
    ByteOrderMark,
    /// The input is a text in UTF-16.
    Utf16,
    /// The input is a value change dump, which logic analysers write.
    Vcd,
    /// The first line of the input has a comma.
    Commas,
    /// The input is a capture with this number of half-bits. `long` is true if more than half of the
    /// half-bits are longer than 10,000 microseconds.
    Capture { halves: u32, long: bool },
    /// The input is two captures, and the line `line` between them has the word `---`.
    TwoCaptures { line: u64 },
    /// The input begins as a capture, and the line `line` has a wrong word: a word that is no run, or
    /// a word `---` that does not separate two captures.
    BadCapture { line: u64 },
    /// The input has more half-bits, bytes or decoders than the limits allow.
    TooLong,
    /// The input begins with a decoder text.
    Decoders,
    /// The input begins as a decoder text, whose line `line` has the error `fault`.
    BadDecoders { line: u64, fault: PacketFault },
    /// The lines of the input are packet lines.
    Packets,
    /// The lines of the input are packet lines or `send` lines for a station.
    StationLines,
    /// The lines of the input are no packet lines: the line `line` has the error `fault`.
    BadLines { line: u64, fault: PacketFault },
}

/// The form that the first line of a text with a word suggests.
#[derive(Clone, Copy, Debug, PartialEq, Eq)]
pub(crate) enum Front {
    /// No line has a word.
    Empty,
    /// The line has a comma.
    Commas,
    /// The first word begins with `$`.
    Vcd,
    /// The first word is a run of half-bits, or the word `---`.
    Halves,
    /// The first word is the first word of a decoder text.
    Decoders,
    /// The first word is another word.
    Lines,
}
