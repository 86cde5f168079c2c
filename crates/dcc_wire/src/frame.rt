//! The type of frames, which are the bytes of valid packets.

ghost use Rattle.std.specs.Prelude.{◌≡◌};

use crate::bytes::PacketBytes;
use std::marker::Model;
use thiserror::Error;

/// The 3 to 6 bytes of a valid packet. The last byte is the error byte: the exclusive or of the
/// bytes before it (NMRA S-9.2; RCN-211).
#[derive(Clone, Copy, Debug, PartialEq, Eq)]
pub struct Frame {
    bytes: PacketBytes,
}

impl Model for Frame {
    ghost use Rattle.std.specs.Prelude.{List, ℕ};
    ghost use Rattle.dcc_wire.specs.Frames.{IsFrame};

    ghost Value = { List ℕ };

    ghost view = { λ f. f.bytes };

    ghost invariant = { λ f. IsFrame f.bytes };

    ghost inverse = { λ xs. record { bytes = xs } };
}

/// The errors of bytes that do not form a frame.
#[derive(Clone, Copy, Debug, PartialEq, Eq, Error)]
pub enum FrameFault {
    /// L1: there are fewer than 3 or more than 6 bytes.
    #[error("L1: a packet has 3 to 6 bytes")]
    Length,
    /// L2: the exclusive or of the bytes is not zero.
    #[error("L2: the error byte is not the exclusive or of the bytes before it")]
    XorNotZero,
}

impl FrameFault {
    ghost use Rattle.dcc_wire.specs.FaultNumbers.{frame_fault_number};

    /// Returns the number of the error: 1 for L1, 2 for L2.
    pub fn number(&self) -> u8
        ensures { result ≡ frame_fault_number self.now }
    {
        match self {
            FrameFault::Length => 1,
            FrameFault::XorNotZero => 2,
        }
    }
}

impl Frame {
    ghost use Rattle.std.specs.Prelude.{◌≡◌, ◌↔◌, ◌-◌, ◌++◌, IsTrue, MatchResult, Ok, Err, length, replicate};
    ghost use Rattle.dcc_wire.specs.Frames.{IsFrame, frame_fault};
    ghost use Rattle.dcc_wire.specs.FrameOf.{frame_of, frame_with_error_byte};

    /// Returns the frame that consists of `bytes`. The last byte is the error byte (NMRA S-9.2).
    ///
    /// Errors: L1 if there are fewer than 3 or more than 6 bytes. L2 if there are 3 to 6 bytes, but
    /// their exclusive or is not zero.
    pub fn of(bytes: &[u8]) -> Result<Frame, FrameFault>
        ensures exact { result ≡ frame_of bytes.now }
        ensures valid { MatchResult result (λ frame. (IsFrame bytes.now) × (frame ≡ bytes.now))
            (λ fault. frame_fault bytes.now fault) }
    {
        Frame::check(bytes)?;
        Ok(Frame::of_valid(bytes))
    }

    /// Returns Ok if `bytes` form a frame. The function does not copy the bytes, and has the errors
    /// of [`Frame::of`].
    #[inline(always)]
    pub fn check(bytes: &[u8]) -> Result<(), FrameFault>
        ensures exact { MatchResult result (λ _. frame_of bytes.now ≡ Ok bytes.now) (λ fault. frame_of bytes.now
            ≡ Err fault) }
        ensures valid { MatchResult result (λ _. IsFrame bytes.now) (λ fault. frame_fault bytes.now fault) }
    {
        if bytes.len() > 6 || bytes.len() < 3 {
            return Err(FrameFault::Length);
        }
        if xor(bytes) != 0 {
            return Err(FrameFault::XorNotZero);
        }
        Ok(())
    }

    /// Returns the frame that consists of `bytes` and their error byte (NMRA S-9.2).
    ///
    /// Errors: L1 if there are fewer than 2 or more than 5 bytes.
    pub fn with_error_byte(bytes: &[u8]) -> Result<Frame, FrameFault>
        ensures { result ≡ frame_with_error_byte bytes.now }
    {
        if bytes.len() < 2 || bytes.len() > 5 {
            return Err(FrameFault::Length);
        }
        let mut all = PacketBytes::of(bytes);
        all.push(xor(bytes));
        Ok(Frame { bytes: all })
    }

    /// Returns the frame that consists of `bytes`, which must form a frame.
    pub(crate) fn of_valid(bytes: &[u8]) -> Frame
        requires { IsFrame bytes.now }
        ensures { result ≡ bytes.now }
    {
        Frame {
            bytes: PacketBytes::of(bytes),
        }
    }

    /// Returns the frame that consists of `bytes`, which must form a frame. The function does not
    /// copy the bytes.
    #[inline(always)]
    pub(crate) fn of_bytes(bytes: PacketBytes) -> Frame
        requires { IsFrame bytes }
        ensures { result ≡ bytes }
    {
        Frame { bytes }
    }

    /// Returns the bytes of the frame, in the order in which they are sent.
    pub fn bytes(&self) -> &[u8]
        ensures value { result.now ≡ self.now }
        ensures valid { IsFrame self.now }
    {
        let _ = &self.bytes;
        self.bytes.as_slice()
    }

    /// Returns the bytes of the frame, followed by zeros up to six bytes.
    #[inline(always)]
    pub fn padded(&self) -> [u8; 6]
        ensures { result ≡ self.now ++ replicate (6 - length self.now) 0 }
    {
        self.bytes.padded()
    }

    /// Returns true if both frames have equal bytes.
    pub fn is(&self, other: &Frame) -> bool
        ensures { IsTrue result ↔ (self.now ≡ other.now) }
    {
        self.bytes() == other.bytes()
    }
}

ghost use Rattle.dcc_wire.specs.Frames.{xor_of};

/// Returns the exclusive or of all bytes.
pub(crate) fn xor(bytes: &[u8]) -> u8
    ensures { result ≡ xor_of bytes.now }
{
    bytes.iter().fold(0, |sum, byte| sum ^ byte)
}
