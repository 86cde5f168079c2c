//! The sentence about an input.
ghost use Rattle.std.specs.Prelude.{◌≡◌, ◌<◌, ◌≤◌, ◌+◌, ◌*◌, ◌++◌, ◌∷◌, [], length, decimal, Some};
ghost use Rattle.std.specs.List.{flat_map};
ghost use Rattle.arrayvec.specs.ArrayVec.{array_vec_len};
ghost use Rattle.hex.specs.Hex.{encode_lower};
ghost use Rattle.dcc_packet.specs.Words.{words};
ghost use Rattle.dcc_what.specs.Lines.{first_bad, line_numbered, lines_of};
ghost use Rattle.dcc_what.specs.Sentences.{bad_word_sentence, capture_sentence, fault_text, sentence, shown_byte};
ghost use Rattle.dcc_what.specs.Sentences.{shown_word, two_captures_sentence};

use crate::kind::Kind;
use crate::lines::{bad_word, line_numbered};
use arrayvec::ArrayVec;
use dcc_io::append;
use dcc_packet::PacketFault;

/// A text with capacity for the longest sentence.
pub(crate) type Sentence = ArrayVec<u8, 512>;

/// The greatest number of bytes of a word that a sentence shows.
const SHOWN: usize = 32;

/// Returns the sentence about the input `bytes` of the kind `kind`, and a line feed.
pub(crate) fn sentence(bytes: &[u8], kind: Kind) -> Sentence
    ensures { result.items ≡ sentence bytes.now kind ++ 10 ∷ [] }
{
    let mut text = Sentence::new();
    append_sentence(&mut text, bytes, kind);
    text.push(b'\n');
    text
}

/// Appends the sentence about the input `bytes` of the kind `kind` to the empty text.
fn append_sentence(text: &mut Sentence, bytes: &[u8], kind: Kind)
    requires { array_vec_len text.old ≡ 0 }
    ensures items { text.new.items ≡ sentence bytes.now kind }
    ensures len { array_vec_len text.new < 512 }
{
    match kind {
        Kind::Empty => append(
            text,
            b"no words: the input is empty, or has only blank lines and comments",
        ),
        Kind::Zip => append(
            text,
            b"a zip archive, as sigrok writes: tools/to-capture makes a capture of it",
        ),
        Kind::Gzip => append(
            text,
            b"a file that gzip has compressed: gzip -d restores it",
        ),
        Kind::ByteOrderMark => append(
            text,
            b"a text with a byte order mark: save it as UTF-8 without this mark",
        ),
        Kind::Utf16 => append(
            text,
            b"a text in UTF-16: save it as UTF-8 without a byte order mark",
        ),
        Kind::Vcd => append(text, b"a VCD file: tools/to-capture makes a capture of it"),
        Kind::Commas => append(
            text,
            b"a text with commas, such as a CSV file: tools/to-capture makes a capture of it",
        ),
        Kind::Capture { halves, long } => append_capture(text, halves, long),
        Kind::TwoCaptures { line } => append_two_captures(text, line),
        Kind::BadCapture { line } => append_bad_capture(text, bytes, line),
        Kind::TooLong => append(
            text,
            b"an input that exceeds a limit: 16777216 half-bits, 67108864 bytes, 64 decoders",
        ),
        Kind::Decoders => append(
            text,
            b"a decoder text, which `dcc run` reads before a capture",
        ),
        Kind::BadDecoders { line, fault } => {
            append(text, b"a decoder text");
            append_fault(text, line, fault);
        }
        Kind::Packets => append(text, b"packet lines, which `dcc encode` reads"),
        Kind::StationLines => append(
            text,
            b"packet lines for a station, which `dcc encode --station` reads",
        ),
        Kind::BadLines { line, fault } => {
            append(text, b"no capture, and no packet lines: packet lines");
            append_fault(text, line, fault);
        }
    }
}

/// Appends the sentence about a capture with `halves` half-bits to the empty text.
#[tactic(auto, using(crate::proofs::LinesLemmas::decimal_is_short))]
fn append_capture(text: &mut Sentence, halves: u32, long: bool)
    requires { array_vec_len text.old ≡ 0 }
    ensures items { text.new.items ≡ capture_sentence halves long }
    ensures len { array_vec_len text.new ≤ 200 }
{
    append(text, b"a capture of ");
    append_number(text, u64::from(halves));
    append(text, b" half-bits");
    if long {
        append(
            text,
            b", most of them above 10000 microseconds: are these nanoseconds?",
        );
    }
}

/// Appends the sentence about two captures with the word `---` on the line `line`, to the empty text.
#[tactic(auto, using(crate::proofs::LinesLemmas::decimal_is_short))]
fn append_two_captures(text: &mut Sentence, line: u64)
    requires { array_vec_len text.old ≡ 0 }
    ensures items { text.new.items ≡ two_captures_sentence line }
    ensures len { array_vec_len text.new ≤ 200 }
{
    append(
        text,
        b"two captures, which `dcc same` compares, with --- on line ",
    );
    append_number(text, line);
}

/// Appends the sentence about a capture that has a wrong word on the line `line`, to the empty text.
#[tactic(auto, using(crate::proofs::LinesLemmas::decimal_is_short))]
fn append_bad_capture(text: &mut Sentence, bytes: &[u8], line: u64)
    requires { array_vec_len text.old ≡ 0 }
    ensures items { text.new.items ≡ bad_word_sentence line
        (first_bad 1 (words (line_numbered line (lines_of bytes.now)))) }
    ensures len { array_vec_len text.new ≤ 400 }
{
    match bad_word(line_numbered(bytes, line)) {
        Some((place, word)) => append_bad_word(text, line, place as u64, word),
        None => {
            append(text, b"a capture with a wrong word on line ");
            append_number(text, line);
        }
    }
}

/// Appends the sentence about a capture whose line `line` has the wrong word `word` at the place
/// `place`, to the empty text.
#[tactic(auto, using(crate::proofs::LinesLemmas::decimal_is_short))]
fn append_bad_word(text: &mut Sentence, line: u64, place: u64, word: &[u8])
    requires { array_vec_len text.old ≡ 0 }
    ensures items { text.new.items ≡ bad_word_sentence line (Some (place, word.now)) }
    ensures len { array_vec_len text.new ≤ 400 }
{
    append(text, b"a capture with a wrong word: line ");
    append_number(text, line);
    append(text, b", word ");
    append_number(text, place);
    append(text, b": ");
    append_word(text, word);
}

/// Appends the error `fault` of the line `line`.
#[tactic(auto, using(crate::proofs::LinesLemmas::decimal_is_short))]
fn append_fault(text: &mut Sentence, line: u64, fault: PacketFault)
    requires { array_vec_len text.old ≤ 100 }
    ensures items { text.new.items ≡ text.old.items ++ fault_text line fault }
    ensures len { array_vec_len text.new ≤ 200 }
{
    append(text, b" with error P");
    append_number(text, u64::from(fault.number()));
    append(text, b" on line ");
    append_number(text, line);
}

/// Appends the first 32 bytes of a word, and `..` if the word has more bytes.
fn append_word(text: &mut Sentence, word: &[u8])
    requires { array_vec_len text.old ≤ 200 }
    ensures items { text.new.items ≡ text.old.items ++ shown_word word.now }
    ensures len { array_vec_len text.new ≤ array_vec_len text.old + 130 }
{
    let shown = word.len().min(SHOWN);
    append_bytes(text, &word[..shown]);
    if shown < word.len() {
        append(text, b"..");
    }
}

/// Appends bytes: printable characters as they are, any other byte as `\x` and two hex digits.
fn append_bytes(text: &mut Sentence, bytes: &[u8])
    requires old { array_vec_len text.old ≤ 200 }
    requires few { length bytes.now ≤ 32 }
    ensures items { text.new.items ≡ text.old.items ++ flat_map shown_byte bytes.now }
    ensures len { array_vec_len text.new ≤ array_vec_len text.old + 4 * length bytes.now }
{
    for (at, byte) in bytes.iter().enumerate() {
        append_byte(text, *byte);
    }
}

/// Appends a byte: a printable character as it is, any other byte as `\x` and two hex digits.
fn append_byte(text: &mut Sentence, byte: u8)
    requires { array_vec_len text.old ≤ 400 }
    ensures items { text.new.items ≡ text.old.items ++ shown_byte byte }
    ensures len { array_vec_len text.new ≤ array_vec_len text.old + 4 }
{
    if 32 <= byte && byte <= 126 && byte != b'\\' {
        text.push(byte);
    } else {
        append(text, b"\\x");
        append(text, &hex_digits(byte));
    }
}

/// Returns the two hex digits of a byte.
fn hex_digits(byte: u8) -> [u8; 2]
    ensures { result ≡ encode_lower (byte ∷ []) }
{
    let mut digits = [0; 2];
    let _ = hex::encode_to_slice(&[byte], &mut digits);
    digits
}

/// Appends the decimal digits of a number, of which there are at most 20.
fn append_number(text: &mut Sentence, number: u64)
    requires { array_vec_len text.old + length (decimal number) ≤ 512 }
    ensures items { text.new.items ≡ text.old.items ++ decimal number }
    ensures len { array_vec_len text.new ≡ array_vec_len text.old + length (decimal number) }
{
    if number < 10 {
        text.push(b'0' + number as u8);
        return;
    }
    append_number(text, number / 10);
    text.push(b'0' + (number % 10) as u8);
}
