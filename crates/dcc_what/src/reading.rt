//! Functions that find the kind of an input.
ghost use Rattle.std.specs.Prelude.{◌≡◌, Some, MatchResult};
ghost use Rattle.dcc_packet.specs.Words.{words};
ghost use Rattle.dcc_io.specs.Items.{in_text};
ghost use Rattle.dcc_io.specs.PacketLines.{lines_by};
ghost use Rattle.dcc_io.specs.declared.fault.ToolFault.TheVariants.{NoMemory};
ghost use Rattle.dcc_io.specs.Words.{is_mark};
ghost use Rattle.dcc_listen.specs.GatheredBoth.{both_in};
ghost use Rattle.dcc_what.specs.Kinds.{begins_capture, begins_with, closed, file_kind, front_kind, input_of_bytes};
ghost use Rattle.dcc_what.specs.Kinds.{kind_of, marked_kind, text_kind};

use crate::kind::{Front, Kind};
use crate::lines::first_with_word;
use crate::source::InMemory;
use dcc_io::inputs::{ParsedLine, next_item, run_of};
use dcc_io::{Input, KeptFault, Limits, StationLine, ToolFault};
use dcc_listen::{compare_both, measure};
use dcc_packet::Packet;
use dcc_packet::words::Words;
use dcc_regs::Who;
use dcc_saved::read_decoders;
use std::alloc::Global;

/// Returns the kind of an input with the bytes `bytes`.
///
/// Errors: U6 if the allocation for a decoder text fails.
pub(crate) fn kind_of(alloc: Global, bytes: &[u8]) -> Result<Kind, ToolFault>
    ensures { MatchResult result (λ kind. kind ≡ kind_of bytes.now) (λ fault. fault ≡ NoMemory) }
{
    match file_kind(bytes) {
        Some(kind) => Ok(kind),
        None => text_kind(alloc, bytes, front_kind(first_with_word(bytes))),
    }
}

/// Returns the kind of a file that is no text of this program. Returns `None` for other bytes.
fn file_kind(bytes: &[u8]) -> Option<Kind>
    ensures { result ≡ file_kind bytes.now }
{
    if begins_with(bytes, b"PK\x03\x04") {
        Some(Kind::Zip)
    } else if begins_with(bytes, b"\x1f\x8b") {
        Some(Kind::Gzip)
    } else if begins_with(bytes, b"\xef\xbb\xbf") {
        Some(Kind::ByteOrderMark)
    } else if begins_with(bytes, b"\xff\xfe") || begins_with(bytes, b"\xfe\xff") {
        Some(Kind::Utf16)
    } else {
        None
    }
}

/// Returns true if `bytes` begin with `front`.
fn begins_with(bytes: &[u8], front: &[u8]) -> bool
    ensures { result ≡ begins_with bytes.now front.now }
{
    bytes.len() >= front.len() && &bytes[..front.len()] == front
}

/// Returns the form that the first line with a word, `line`, suggests.
fn front_kind(line: &[u8]) -> Front
    ensures { result ≡ front_kind line.now (words line.now) }
{
    match Words::new(line).next() {
        None => Front::Empty,
        Some(_) if line.contains(&b',') => Front::Commas,
        Some(word) if begins_with(word, b"$") => Front::Vcd,
        Some(word) if begins_capture(word) => Front::Halves,
        Some(word) if word == b"dcc-decoders".as_slice() => Front::Decoders,
        Some(_) => Front::Lines,
    }
}

/// Returns true if a word is the beginning of a capture: a run, or `---` after an empty capture.
fn begins_capture(word: &[u8]) -> bool
    ensures { result ≡ begins_capture word.now }
{
    run_of(word).is_some() || is_mark(word)
}

/// Returns true if a word is `---`.
fn is_mark(word: &[u8]) -> bool
    ensures { result ≡ is_mark word.now }
{
    word.len() == 3 && word.iter().all(|byte| *byte == b'-')
}

/// Returns the kind of the text `bytes`, whose first line with a word suggests `front`.
fn text_kind(alloc: Global, bytes: &[u8], front: Front) -> Result<Kind, ToolFault>
    ensures { MatchResult result (λ kind. kind ≡ text_kind bytes.now front) (λ fault. fault ≡ NoMemory) }
{
    match front {
        Front::Empty => Ok(Kind::Empty),
        Front::Commas => Ok(Kind::Commas),
        Front::Vcd => Ok(Kind::Vcd),
        Front::Halves => capture_kind(alloc, bytes),
        Front::Decoders => decoders_kind(alloc, bytes),
        Front::Lines => Ok(lines_kind(bytes)),
    }
}

/// Returns an input with the bytes `bytes` and the full limits.
fn input_of(bytes: &[u8]) -> Input<InMemory<'_>>
    ensures { result ≡ input_of_bytes bytes.now }
{
    Input::new(InMemory { rest: bytes }, Limits::full())
}

/// Returns the kind of a text that begins as a capture.
fn capture_kind(alloc: Global, bytes: &[u8]) -> Result<Kind, ToolFault>
    ensures { MatchResult result (λ kind. kind ≡ text_kind bytes.now Front.Halves) (λ fault. fault ≡ NoMemory) }
{
    let mut input = input_of(bytes);
    match measure(&mut input) {
        Ok(figures) => {
            let timings = figures.timings();
            let halves = timings.halves();
            let above = timings.classes().above.count();
            Ok(Kind::Capture {
                halves,
                long: u64::from(halves) < 2 * above,
            })
        }
        Err(KeptFault::Number { line }) => marked_kind(alloc, bytes, line),
        Err(KeptFault::TooMuch) => Ok(Kind::TooLong),
        Err(KeptFault::Line { .. }) => unreachable!(),
        Err(KeptFault::Read) => no_failure(&input),
    }
}

/// Returns the kind of a text that begins as a capture, and has a wrong word on the line `line`. The
/// word may separate two captures.
fn marked_kind(alloc: Global, bytes: &[u8], line: u64) -> Result<Kind, ToolFault>
    ensures { MatchResult result
        (λ kind. kind ≡ marked_kind line (both_in (input_of_bytes bytes.now) (closed bytes.now)).fault)
        (λ fault. fault ≡ NoMemory) }
{
    let mut input = input_of(bytes);
    match compare_both(alloc, &mut input, Who::Loco(None)) {
        Ok(_) => Ok(Kind::TwoCaptures { line }),
        Err(ToolFault::Number { line }) => Ok(Kind::BadCapture { line }),
        Err(ToolFault::Line { .. }) => Ok(Kind::TooLong),
        Err(ToolFault::TooMuch) => Ok(Kind::TooLong), // too many half-bits
        Err(ToolFault::NoMemory) => Err(ToolFault::NoMemory), // for packets
        Err(ToolFault::Read) => no_failure(&input),
        Err(_) => unreachable!(),
    }
}

/// Returns the kind of a text that begins with the first word of a decoder text.
fn decoders_kind(alloc: Global, bytes: &[u8]) -> Result<Kind, ToolFault>
    ensures { MatchResult result (λ kind. kind ≡ text_kind bytes.now Front.Decoders) (λ fault. fault ≡ NoMemory) }
{
    let mut input = input_of(bytes);
    match read_decoders(alloc, &mut input) {
        Ok(_) => Ok(Kind::Decoders),
        Err(ToolFault::Line { line, fault }) => Ok(Kind::BadDecoders { line, fault }),
        Err(ToolFault::TooMuch) => Ok(Kind::TooLong), // too many decoders
        Err(ToolFault::NoMemory) => Err(ToolFault::NoMemory), // for decoders
        Err(ToolFault::Read) => no_failure(&input),
        Err(_) => unreachable!(),
    }
}

/// Returns the kind of a text that begins with another word.
fn lines_kind(bytes: &[u8]) -> Kind
    ensures { result ≡ text_kind bytes.now Front.Lines }
{
    match fault_of_lines::<Packet>(bytes) {
        None => Kind::Packets,
        Some(fault) => match (fault_of_lines::<StationLine>(bytes), fault) {
            (None, _) => Kind::StationLines,
            (Some(_), KeptFault::Line { line, fault }) => Kind::BadLines { line, fault },
            (Some(_), _) => Kind::TooLong,
        },
    }
}

/// Returns the first error of the lines of `bytes`. Returns `None` if no line has an error.
fn fault_of_lines<L: ParsedLine>(bytes: &[u8]) -> Option<KeptFault>
    ensures { result ≡ (in_text (lines_by L.saying) (input_of_bytes bytes.now) (closed bytes.now)).fault }
{
    let mut input = input_of(bytes);
    'lines: loop {
        match next_item::<InMemory<'_>, L>(&mut input) {
            Ok(Some(_)) => (),
            Ok(None) => return None,
            Err(KeptFault::Line { line, fault }) => return Some(KeptFault::Line { line, fault }),
            Err(KeptFault::TooMuch) => return Some(KeptFault::TooMuch),
            Err(KeptFault::Read) => no_failure(&input),
            Err(KeptFault::Number { .. }) => unreachable!(),
        }
    }
}

/// Never returns, since no read of a slice fails.
fn no_failure(input: &Input<InMemory<'_>>) -> !
    requires { input.now.fault ≡ Some KeptFault.Read }
{
    let _ = input.fault();
    let _ = input.reader();
    unreachable!()
}
