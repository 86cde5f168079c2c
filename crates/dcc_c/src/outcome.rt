//! An outcome as a C struct.

ghost use Rattle.std.specs.Prelude.{◌≡◌, ◌≢◌, ◌≤◌, [], length};
ghost use Rattle.dcc_c.specs.Frames.{bytes_of, frame_numbers, zeros_behind};
ghost use Rattle.dcc_c.specs.Outcomes.{outcome_numbers, outcome_seen};

use crate::frame::DccFrame;
use dcc_wire::{Fault, Seen};

/// An outcome as a C struct: a packet, or the number of a refusal.
#[repr(C)]
#[derive(Clone, Copy, Drop)]
pub struct DccOutcome {
    /// The number of the last half-bit of the outcome in the run that `dcc_push_run` takes, counted
    /// from 1. All other functions write 1.
    pub at: u32,
    /// The number of a refusal, 1 to 5 for H1 to H5, or 0 for a packet.
    pub refusal: u8,
    /// The bytes of a packet or of a refusal H5. Other refusals have no bytes.
    pub frame: DccFrame,
}

/// Returns the C struct of an outcome whose last half-bit is half-bit `at` of the run.
#[inline(always)]
pub(crate) fn outcome_of(at: u32, answer: &Seen) -> DccOutcome
    ensures at { result.at ≡ at }
    ensures says { answer.now ≢ Seen.Nothing → outcome_seen result ≡ answer.now }
    ensures numbers { result ≡ outcome_numbers at answer.now }
{
    match answer {
        Seen::Nothing => refused(at, 0),
        Seen::Packet(frame) => numbers(at, 0, frame.bytes(), frame.padded()),
        Seen::Refused(Fault::ErrorByte(body)) => numbers(at, 5, body.bytes(), body.padded()),
        Seen::Refused(Fault::BadHalf) => refused(at, 1),
        Seen::Refused(Fault::SplitBit) => refused(at, 2),
        Seen::Refused(Fault::TooShort) => refused(at, 3),
        Seen::Refused(Fault::TooLong) => refused(at, 4),
    }
}

/// Returns the C struct of a refusal without bytes.
#[inline(always)]
fn refused(at: u32, refusal: u8) -> DccOutcome
    ensures at { result.at ≡ at }
    ensures refusal { result.refusal ≡ refusal }
    ensures bytes { bytes_of result.frame ≡ [] }
    ensures frame { result.frame ≡ frame_numbers [] }
{
    DccOutcome {
        at,
        refusal,
        frame: DccFrame {
            len: 0,
            bytes: [0; 6],
        },
    }
}

/// Returns the C struct of an outcome with the bytes `bytes`. The parameter `padded` has these
/// bytes, followed by zeros.
#[inline(always)]
fn numbers(at: u32, refusal: u8, bytes: &[u8], padded: [u8; 6]) -> DccOutcome
    requires few { length bytes.now ≤ 6 }
    requires padded { padded ≡ zeros_behind 6 bytes.now }
    ensures at { result.at ≡ at }
    ensures refusal { result.refusal ≡ refusal }
    ensures bytes { bytes_of result.frame ≡ bytes.now }
    ensures frame { result.frame ≡ frame_numbers bytes.now }
{
    DccOutcome {
        at,
        refusal,
        frame: DccFrame {
            len: bytes.len() as u8,
            bytes: padded,
        },
    }
}
