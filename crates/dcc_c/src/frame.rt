//! A frame as a C struct.

ghost use Rattle.std.specs.Prelude.{◌≡◌, ◌≤◌, length, get_or, MatchResult};
ghost use Rattle.dcc_wire.specs.Frames.{IsFrame};
ghost use Rattle.dcc_c.specs.Frames.{frame_answer, frame_numbers};

use dcc_wire::Frame;

/// The bytes of a frame, or no bytes, as a C struct.
#[repr(C)]
#[derive(Clone, Copy, Drop)]
pub struct DccFrame {
    /// The number of bytes of the frame, or 0.
    pub len: u8,
    /// The bytes of the frame, with the error byte last, followed by zeros.
    pub bytes: [u8; 6],
}

impl DccFrame {
    ghost use Rattle.std.specs.Prelude.{◌≡◌, ◌≤◌, ◌↔◌, IsTrue, [], length};
    ghost use Rattle.dcc_wire.specs.Frames.{IsFrame, with_error_byte};
    ghost use Rattle.dcc_c.specs.Frames.{bytes_of, frame_numbers};

    /// Creates the struct of the bytes `bytes`. There must be at most six bytes.
    // reads byte by byte, since a copy of variable length would be a function call
    #[inline(always)]
    pub fn of(bytes: &[u8]) -> DccFrame
        requires { length bytes.now ≤ 6 }
        ensures { result ≡ frame_numbers bytes.now }
    {
        DccFrame {
            len: bytes.len() as u8,
            bytes: [
                byte_or_zero(bytes, 0),
                byte_or_zero(bytes, 1),
                byte_or_zero(bytes, 2),
                byte_or_zero(bytes, 3),
                byte_or_zero(bytes, 4),
                byte_or_zero(bytes, 5),
            ],
        }
    }

    /// Creates the struct of the frame `frame`.
    #[inline(always)]
    pub(crate) fn of_frame(frame: &Frame) -> DccFrame
        ensures { result ≡ frame_numbers frame.now }
    {
        DccFrame {
            len: frame.bytes().len() as u8,
            bytes: frame.padded(),
        }
    }

    /// Creates the struct of the frame that consists of three bytes and their error byte.
    #[inline(always)]
    pub(crate) fn of_three(bytes: [u8; 3]) -> DccFrame
        ensures { result ≡ frame_numbers (with_error_byte bytes) }
    {
        let [first, second, third] = bytes;
        DccFrame {
            len: 4,
            bytes: [first, second, third, first ^ second ^ third, 0, 0],
        }
    }

    /// Creates the struct without bytes.
    #[inline(always)]
    pub(crate) fn none() -> DccFrame
        ensures { result ≡ frame_numbers [] }
    {
        DccFrame {
            len: 0,
            bytes: [0; 6],
        }
    }

    /// Returns true if all fields of both structs are equal.
    // compares byte by byte, since Rust compares arrays by functions for lists of any length, which
    // take three times as long
    pub fn is(&self, other: &DccFrame) -> bool
        ensures { IsTrue result ↔ (self.now ≡ other.now) }
    {
        let (a, b) = (&self.bytes, &other.bytes);
        (self.len == other.len)
            & (a[0] == b[0])
            & (a[1] == b[1])
            & (a[2] == b[2])
            & (a[3] == b[3])
            & (a[4] == b[4])
            & (a[5] == b[5])
    }

    /// Returns true if the struct has no bytes, so that all its fields are 0.
    // adds the bytes up to two numbers, each of which the compiler reads at once
    #[inline(always)]
    pub(crate) fn is_none(&self) -> bool
        ensures { IsTrue result ↔ (self.now ≡ frame_numbers []) }
    {
        let bytes = &self.bytes;
        let low = u32::from(bytes[0])
            + (u32::from(bytes[1]) << 8)
            + (u32::from(bytes[2]) << 16)
            + (u32::from(bytes[3]) << 24);
        let high = u32::from(bytes[4]) + (u32::from(bytes[5]) << 8);
        (self.len == 0) & (low == 0) & (high == 0)
    }

    /// Returns true if the struct has the bytes of the frame `frame`.
    #[inline(always)]
    pub(crate) fn is_of(&self, frame: &[u8]) -> bool
        requires { IsFrame frame.now }
        ensures { IsTrue result ↔ (self.now ≡ frame_numbers frame.now) }
    {
        if self.len == 0 {
            return false;
        }
        self.is(&DccFrame::of(frame))
    }

    /// Returns the bytes of the frame, without the zeros after it.
    pub fn as_slice(&self) -> &[u8]
        ensures { result.now ≡ bytes_of self.now }
    {
        &self.bytes[..usize::from(self.len).min(6)]
    }
}

/// Returns the byte at `place`, or zero if the list is shorter.
#[inline(always)]
fn byte_or_zero(bytes: &[u8], place: usize) -> u8
    ensures { result ≡ get_or bytes.now place 0 }
{
    if place < bytes.len() { bytes[place] } else { 0 }
}

/// Returns the frame that consists of `bytes`, or the number of the error: 1 for L1, 2 for L2.
// not inlined, so that the archive contains the code once for all functions
#[inline(never)]
pub(crate) fn frame_of(bytes: &[u8]) -> Result<Frame, u8>
    ensures { MatchResult result
        (λ frame. (frame ≡ bytes.now) × IsFrame bytes.now × (frame_answer bytes.now ≡ 0))
        (λ number. (number ≡ frame_answer bytes.now) × (1 ≤ number)) }
{
    Frame::of(bytes).map_err(|fault| fault.number())
}

/// Returns Ok if `bytes` form a frame. The function does not copy the bytes, and has the errors of
/// `frame_of`.
pub(crate) fn check_frame(bytes: &[u8]) -> Result<(), u8>
    ensures { MatchResult result
        (λ _. IsFrame bytes.now × (frame_answer bytes.now ≡ 0))
        (λ number. (number ≡ frame_answer bytes.now) × (1 ≤ number)) }
{
    Frame::check(bytes).map_err(|fault| fault.number())
}
