//! A function that writes the half-bits of a packet that is sent.

ghost use Rattle.std.specs.Prelude.{◌≡◌, ◌≤◌, ◌+◌, ◌∷◌, ◌++◌, [], take, drop, true, false, IfSome, IfNone};
ghost use Rattle.dcc_wire.specs.declared.timing.Timing.{Timing};
ghost use Rattle.dcc_wire.specs.Frames.{IsFrame};
ghost use Rattle.dcc_wire.specs.Bodies.{bits_of};
ghost use Rattle.dcc_wire.specs.Sending.{durations_of, sent};
ghost use Rattle.dcc_wire.specs.Timings.{is_preamble};
ghost use Rattle.dcc_c.specs.Halves.{IsNominal, is_sendable_by_numbers};

use crate::frame::check_frame;
use dcc_wire::Timing;

/// Writes the half-bits of the frame `frame` after `preamble` ones, 14 to 40, to `halves`. Each
/// half-bit of a one takes 58 microseconds, and each half-bit of a zero takes 100 microseconds.
/// Returns the number of half-bits, at most 190. The elements of `halves` after the last half-bit
/// do not change. Returns 0, and writes nothing, if `frame` is no frame or `preamble` is not 14 to
/// 40.
#[unsafe(no_mangle)]
pub extern "C" fn dcc_halves(frame: &[u8], preamble: u8, halves: &mut [u16; 190]) -> u8
    ensures sent { is_sendable_by_numbers frame.now preamble ≡ true →
        (timing : Timing) × IsNominal preamble timing × (take result halves.new ≡ sent frame.now timing) }
    ensures few { result ≤ 190 }
    ensures behind { drop result halves.new ≡ drop result halves.old }
    ensures refused { is_sendable_by_numbers frame.now preamble ≡ false → result ≡ 0 }
    ensures kept { is_sendable_by_numbers frame.now preamble ≡ false → halves.new ≡ halves.old }
{
    match (check_frame(frame), nominal(preamble)) {
        (Ok(()), Some(timing)) => put_halves(frame, &timing, halves),
        _ => 0,
    }
}

/// Returns the nominal timing with `preamble` ones in the preamble. Returns `None` if `preamble` is
/// not 14 to 40.
#[tactic(auto, using(crate::proofs::HalvesLemmas::sent_with))]
fn nominal(preamble: u8) -> Option<Timing>
    ensures timing { IfSome result (IsNominal preamble) }
    ensures short { IfSome result (λ timing. timing.preamble ≤ 40) }
    ensures some { IfSome result (λ timing. is_preamble preamble ≡ true) }
    ensures none { IfNone result (is_preamble preamble ≡ false) }
{
    match Timing::new(58, 100, 100, preamble) {
        Ok(timing) => Some(timing),
        Err(_) => None,
    }
}

/// Writes the half-bits of the preamble, of each byte of a frame, and of the end bit. Returns the
/// number of half-bits.
fn put_halves(frame: &[u8], timing: &Timing, halves: &mut [u16; 190]) -> u8
    requires frame { IsFrame frame.now }
    requires short { timing.now.preamble ≤ 40 }
    ensures halves { take result halves.new ≡ sent frame.now timing.now }
    ensures few { result ≤ 190 }
    ensures behind { drop result halves.new ≡ drop result halves.old }
{
    let mut count = 0;
    for _ in 0..timing.preamble {
        count = put_bit(true, timing, halves, count);
    }
    for &byte in frame {
        count = put_byte(byte, timing, halves, count);
    }
    let len = put_bit(true, timing, halves, count);
    len as u8
}

/// Writes the half-bits of a zero and of the eight bits of `byte` after the first `count`
/// half-bits. Returns the place after the last written half-bit.
#[inline(always)]
fn put_byte(byte: u8, timing: &Timing, halves: &mut [u16; 190], count: usize) -> usize
    requires room { count + 18 ≤ 190 }
    ensures written { take result halves.new
        ≡ take count halves.old ++ durations_of timing.now (false ∷ bits_of 8 byte) }
    ensures count { result ≡ count + 18 }
    ensures behind { drop result halves.new ≡ drop result halves.old }
{
    let mut written = put_bit(false, timing, halves, count);
    let mut place = 8u8;
    'bits: while place > 0 {
        place -= 1;
        written = put_bit((byte >> place) & 1 == 1, timing, halves, written);
    }
    written
}

/// Writes the two half-bits of a one, or of a zero if `one` is false, after the first `count`
/// half-bits. Returns the place after the last written half-bit.
#[inline(always)]
fn put_bit(one: bool, timing: &Timing, halves: &mut [u16; 190], count: usize) -> usize
    requires room { count + 2 ≤ 190 }
    ensures written { take result halves.new ≡ take count halves.old ++ durations_of timing.now (one ∷ []) }
    ensures count { result ≡ count + 2 }
    ensures behind { drop result halves.new ≡ drop result halves.old }
{
    let (first, second) = if one {
        (timing.one, timing.one)
    } else {
        (timing.zero_first, timing.zero_second)
    };
    halves[count] = first;
    halves[count + 1] = second;
    count + 2
}
