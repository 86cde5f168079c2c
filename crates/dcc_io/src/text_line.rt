//! The type of a line of a text, and functions that find lines in bytes.
ghost use Rattle.std.specs.Prelude.{◌≡◌, ◌<◌, ◌&&◌, ◌∷◌, ◌++◌, [], nat_lt, true, IfSome};
ghost use Rattle.std.specs.Char.{is_ascii};
ghost use Rattle.std.specs.List.{list_all};
ghost use Rattle.dcc_packet.specs.Words.{is_separator};
ghost use Rattle.arrayvec.specs.ArrayString.{array_string_len};
ghost use Rattle.dcc_io.specs.PacketLines.{is_comment_line, is_skipped};
ghost use Rattle.dcc_io.specs.Inner.FrontLine.{IsFrontLine, IsEndedLine, IsSkippedLine};

use arrayvec::ArrayString;
use memchr::memchr;

/// A line of a text with its number, without the line feed at its end.
#[derive(Drop)]
pub struct TextLine {
    /// The number of the line. Lines count from 1.
    pub number: u64,
    /// The bytes of the line, all of which are ASCII.
    pub text: ArrayString<512>,
}

impl TextLine {
    /// Creates an empty line with the number `number`.
    pub(crate) fn new(number: u64) -> TextLine
        ensures number { result.number ≡ number }
        ensures text { result.text.bytes ≡ [] }
    {
        TextLine {
            number,
            text: ArrayString::new(),
        }
    }

    /// Returns true if the line is still valid after `byte` is appended. A valid line has at most
    /// 512 bytes, all of which are ASCII.
    pub(crate) fn has_room_for(&self, byte: u8) -> bool
        ensures { result ≡ (nat_lt (array_string_len self.now.text) 512 && is_ascii byte) }
    {
        self.text.len() < 512 && byte.is_ascii()
    }

    /// Appends a byte that leaves the line valid.
    pub(crate) fn push(&mut self, byte: u8)
        requires { (nat_lt (array_string_len self.old.text) 512 && is_ascii byte) ≡ true }
        ensures number { self.new.number ≡ self.old.number }
        ensures text { self.new.text.bytes ≡ self.old.text.bytes ++ byte ∷ [] }
    {
        self.text.push(char::from(byte));
    }

    /// Returns true if the line is blank, or if it is a comment, which begins with `#`.
    pub(crate) fn is_skipped(&self) -> bool
        ensures { result ≡ is_skipped self.now.text.bytes }
    {
        is_skipped(self.text.as_bytes())
    }
}

/// Returns the line at the beginning of `bytes`, if a line feed ends the line and the line is
/// valid. Returns `None` for a line that is blank or a comment.
pub fn front_line(bytes: &[u8]) -> Option<&[u8]>
    ensures { IfSome result (λ line. IsFrontLine bytes.now line.now) }
{
    let len = ended_line_len(bytes)?;
    let line = &bytes[..len];
    if is_skipped(line) {
        return None;
    }
    Some(line)
}

/// Returns the number of bytes of the line at the beginning of `bytes`, if a line feed ends the
/// line and the line is valid. Returns `None` for a line that is neither blank nor a comment.
pub fn skipped_line_len(bytes: &[u8]) -> Option<usize>
    ensures { IfSome result (λ len. IsSkippedLine bytes.now len) }
{
    let len = ended_line_len(bytes)?;
    if is_skipped(&bytes[..len]) {
        Some(len)
    } else {
        None
    }
}

/// Returns the number of bytes of the line at the beginning of `bytes`, if a line feed ends the
/// line and the line is valid. Returns `None` for other bytes.
fn ended_line_len(bytes: &[u8]) -> Option<usize>
    ensures { IfSome result (λ len. IsEndedLine bytes.now len) }
{
    let len = memchr(b'\n', bytes)?;
    if len <= 512 && bytes[..len].is_ascii() {
        Some(len)
    } else {
        None
    }
}

fn is_skipped(bytes: &[u8]) -> bool
    ensures { result ≡ is_skipped bytes.now }
{
    is_comment_line(bytes) || is_blank(bytes)
}

fn is_comment_line(bytes: &[u8]) -> bool
    ensures { result ≡ is_comment_line bytes.now }
{
    matches!(bytes, [b'#', ..])
}

fn is_blank(bytes: &[u8]) -> bool
    ensures { result ≡ list_all is_separator bytes.now }
{
    bytes
        .iter()
        .all(|byte| *byte == b' ' || *byte == b'\t' || *byte == b'\r')
}
