//! Functions that write the lines of packets that are sent.
ghost use Rattle.std.specs.Prelude.{◌≡◌, ◌≤◌, ◌+◌, ◌*◌, ◌++◌, ◌∷◌, [], length, take, replicate, true, false};
ghost use Rattle.std.specs.List.{flat_map};
ghost use Rattle.dcc_wire.specs.Bodies.{bits_of};
ghost use Rattle.dcc_wire.specs.Sending.{durations_of, sent};
ghost use Rattle.hex.specs.Hex.{encode_lower};
ghost use Rattle.dcc_io.specs.Held.{HoldsOrFails};
ghost use Rattle.dcc_io.specs.Spaced.{behind_space};
ghost use Rattle.dcc_send.specs.Encoded.{frame_line, timing_of, spaced_numbers};

use crate::encoding::Encode;
use arrayvec::ArrayVec;
use dcc_io::{Failed, HeldLines, Sink, append_decimal};
use dcc_wire::{Frame, Timing};

/// A line with capacity for the 150 half-bits of six bytes in service mode, each with up to five
/// digits and a space. The line also has capacity for the unused bytes that the function `put`
/// writes after the last text.
type EncodedLine = [u8; 1024];

/// The number of bytes that the function `put` writes for one bit. The text of the bit is a prefix
/// of these bytes.
const WRITTEN: usize = 16;

/// The encoding of frames, with the texts of bits, which are computed once for all lines.
#[derive(Drop)]
pub(crate) struct FrameLines {
    how: Encode,
    texts: BitTexts,
    /// The line that is being written, and the length of the text of the preamble at its beginning.
    line: EncodedLine,
    preamble_len: usize,
    ghost timing: { texts.timing ≡ timing_of how },
    ghost preamble: { take preamble_len line
        ≡ flat_map behind_space (durations_of texts.timing (replicate texts.timing.preamble true)) },
    ghost short: { preamble_len ≤ 240 },
}

impl FrameLines {
    /// Creates the texts for the encoding `how`.
    pub(crate) fn new(how: Encode) -> FrameLines
        ensures { result.how ≡ how }
    {
        let texts = BitTexts::new(timing_of(how));
        let mut line = [0; 1024];
        let preamble_len = put_ones(&mut line, &texts.one, texts.timing);
        FrameLines {
            how,
            texts,
            line,
            preamble_len,
        }
    }

    /// Appends the line of a frame to the buffered lines.
    pub(crate) fn hold<W: Sink>(
        &mut self,
        held: &mut HeldLines,
        frame: &Frame,
        writer: &mut W,
    ) -> Result<(), Failed>
        ensures line { HoldsOrFails (W.state writer.old) (held.old ++ frame_line self.old.how frame.now) result
            held.new
            (W.state writer.new) }
        ensures how { self.new.how ≡ self.old.how }
    {
        let bytes = frame.bytes();
        if self.how.hex {
            hold_hex(held, bytes, writer)
        } else {
            hold_halves(
                held,
                bytes,
                &self.texts,
                &mut self.line,
                self.preamble_len,
                writer,
            )
        }
    }
}

/// Appends a line with the bytes of a frame in hex to the buffered lines.
fn hold_hex<W: Sink>(held: &mut HeldLines, bytes: &[u8], writer: &mut W) -> Result<(), Failed>
    requires { length bytes.now ≤ 6 }
    ensures { HoldsOrFails (W.state writer.old)
        (held.old ++ (encode_lower bytes.now ++ 10 ∷ [])) result held.new
        (W.state writer.new) }
{
    let mut line = [0; 13];
    let len = 2 * bytes.len();
    let _ = hex::encode_to_slice(bytes, &mut line[..len]);
    line[len] = b'\n';
    held.hold(&line[..len + 1], writer)
}

/// Appends a line with the half-bits of a frame to the buffered lines.
///
/// The function is not inlined, so that the line takes no space on the stack of the caller.
fn hold_halves<W: Sink>(
    held: &mut HeldLines,
    frame: &[u8],
    texts: &BitTexts,
    line: &mut EncodedLine,
    preamble_len: usize,
    writer: &mut W,
) -> Result<(), Failed>
    requires few { length frame.now ≤ 6 }
    requires preamble { take preamble_len line.old
        ≡ flat_map behind_space (durations_of texts.now.timing (replicate texts.now.timing.preamble true)) }
    requires short { preamble_len ≤ 240 }
    ensures halves { HoldsOrFails (W.state writer.old)
        (held.old ++ (spaced_numbers (sent frame.now texts.now.timing) ++ 10 ∷ [])) result held.new
        (W.state writer.new) }
    ensures preamble { take preamble_len line.new ≡ take preamble_len line.old }
{
    let len = put_halves(line, frame, texts, preamble_len);
    line[len] = b'\n';
    held.hold(&line[1..len + 1], writer)
}

/// Returns the timing of the encoding `how`: the timing of service mode if `how.service` is true,
/// otherwise the timing of the main track.
fn timing_of(how: Encode) -> Timing
    ensures timing { result ≡ timing_of how }
    ensures short { result.preamble ≤ 20 }
{
    if how.service {
        Timing::service()
    } else {
        Timing::main()
    }
}

/// The texts of the half-bits of a one and of a zero.
#[derive(Drop)]
struct BitTexts {
    timing: Timing,
    one: BitText,
    zero: BitText,
    ghost ones: { take one.len one.bytes ≡ flat_map behind_space (durations_of timing (true ∷ [])) },
    ghost zeros: { take zero.len zero.bytes ≡ flat_map behind_space (durations_of timing (false ∷ [])) },
}

impl BitTexts {
    #[tactic(auto, using(crate::proofs::BitLemmas::one_text, crate::proofs::BitLemmas::zero_text))]
    fn new(timing: Timing) -> BitTexts
        ensures { result.timing ≡ timing }
    {
        BitTexts {
            timing,
            one: BitText::new(timing.one, timing.one),
            zero: BitText::new(timing.zero_first, timing.zero_second),
        }
    }
}

/// The text of two half-bits in decimal digits, with a space before each half-bit. The text is the
/// first `len` bytes of `bytes`.
#[derive(Clone, Copy, Drop)]
struct BitText {
    bytes: [u8; WRITTEN],
    len: usize,
    ghost short: { len ≤ 12 },
}

impl BitText {
    #[tactic(auto, using(dcc_io::proofs::DecimalLemmas::half_is_short))]
    fn new(first: u16, second: u16) -> BitText
        ensures { take result.len result.bytes ≡ behind_space first ++ behind_space second }
    {
        let mut text = ArrayVec::<u8, WRITTEN>::new();
        text.push(b' ');
        append_decimal(&mut text, u32::from(first));
        text.push(b' ');
        append_decimal(&mut text, u32::from(second));
        let len = text.len();
        let mut bytes = [0; WRITTEN];
        bytes[..len].copy_from_slice(text.as_slice());
        BitText { bytes, len }
    }
}

/// Writes the half-bits of a preamble, as copies of the text of a one, and returns the number of
/// bytes.
fn put_ones(line: &mut EncodedLine, one: &BitText, timing: Timing) -> usize
    requires text { take one.now.len one.now.bytes ≡ flat_map behind_space (durations_of timing (true ∷ [])) }
    requires short { timing.preamble ≤ 20 }
    ensures items { take result line.new ≡ flat_map behind_space (durations_of timing
        (replicate timing.preamble true)) }
    ensures few { result ≤ 240 }
{
    let mut at = 0;
    for _ in 0..timing.preamble {
        at = put(line, at, one);
    }
    at
}

/// Writes the half-bits of the frame `frame`, with a space before each half-bit, after the preamble
/// in the line. Returns the number of bytes of the preamble and the frame.
fn put_halves(line: &mut EncodedLine, frame: &[u8], texts: &BitTexts, preamble_len: usize) -> usize
    requires few { length frame.now ≤ 6 }
    requires preamble { take preamble_len line.old
        ≡ flat_map behind_space (durations_of texts.now.timing (replicate texts.now.timing.preamble true)) }
    requires short { preamble_len ≤ 240 }
    ensures items { take result line.new ≡ flat_map behind_space (sent frame.now texts.now.timing) }
    ensures few { result ≤ 900 }
{
    let mut at = preamble_len;
    for byte in frame {
        at = put_bit(line, at, texts, false);
        at = put_byte(line, at, texts, *byte);
    }
    put_bit(line, at, texts, true)
}

/// Writes the half-bits of the eight bits of `byte` at the place `at`, and returns the place after
/// the written text.
#[inline(always)]
fn put_byte(line: &mut EncodedLine, at: usize, texts: &BitTexts, byte: u8) -> usize
    requires { at ≤ 900 }
    ensures items { take result line.new
        ≡ take at line.old ++ flat_map behind_space (durations_of texts.now.timing (bits_of 8 byte)) }
    ensures few { result ≤ at + 96 }
{
    let mut end = at;
    for place in 0..8u8 {
        end = put_bit(line, end, texts, (byte >> (7 - place)) & 1 == 1);
    }
    end
}

/// Writes the half-bits of the bit `bit` at the place `at`, and returns the place after the written
/// text.
#[inline(always)]
fn put_bit(line: &mut EncodedLine, at: usize, texts: &BitTexts, bit: bool) -> usize
    requires { at ≤ 1000 }
    ensures items { take result line.new
        ≡ take at line.old ++ flat_map behind_space (durations_of texts.now.timing (bit ∷ [])) }
    ensures few { result ≤ at + 12 }
{
    let text = if bit { &texts.one } else { &texts.zero };
    put(line, at, text)
}

/// Writes a text at the place `at`, and returns the place after the text. A later text overwrites
/// the bytes that are written after this place.
#[inline(always)]
#[tactic(auto, using(crate::proofs::BitLemmas::front_written))]
fn put(line: &mut EncodedLine, at: usize, text: &BitText) -> usize
    requires { at ≤ 1000 }
    ensures items { take result line.new ≡ take at line.old ++ take text.now.len text.now.bytes }
    ensures few { result ≤ at + 12 }
{
    line[at..at + WRITTEN].copy_from_slice(&text.bytes);
    at + text.len
}
