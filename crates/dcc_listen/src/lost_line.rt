//! The line of a packet that a decoder does not hear.
ghost use Rattle.std.specs.Prelude.{◌≡◌, ◌≤◌, ◌+◌, ◌++◌, Bool, Option, length};
ghost use Rattle.arrayvec.specs.ArrayVec.{array_vec_len};
ghost use Rattle.dcc_listen.specs.LostListing.{IsLostLine, causes_text, preamble_text, refusal_place_text};
ghost use Rattle.dcc_listen.specs.LostListing.{off_limits_text};
ghost use Rattle.dcc_listen.specs.Inner.LostTexts.{cause_behind, preamble_cause};

use arrayvec::ArrayVec;
use dcc_capture::append_frame;
use dcc_io::{append, append_decimal};
use dcc_lost::{LostPacket, OffLimits, ShortPreamble};

/// A line with capacity for a number, a packet line, and three causes.
pub(crate) type LostLine = ArrayVec<u8, 256>;

/// Returns the line of a lost packet. The parameter `half` is the number of the last half-bit of the
/// packet, counted from 1. The packet is written as a packet line if `words` is true, otherwise in
/// hex.
#[tactic(auto, using(dcc_io::proofs::DecimalLemmas::decimal_is_short))]
pub(crate) fn lost_line(half: u32, packet: &LostPacket, words: bool) -> LostLine
    ensures { IsLostLine words half packet.now result.items }
{
    let mut line = LostLine::new();
    append_decimal(&mut line, half);
    append(&mut line, b" lost ");
    append_frame(&mut line, &packet.frame, words);
    append(&mut line, b": ");
    append_causes(&mut line, half, packet);
    append(&mut line, b"\n");
    line
}

/// Appends the causes of a packet, with a comma and a space between every two causes.
pub(crate) fn append_causes(line: &mut LostLine, half: u32, packet: &LostPacket)
    requires { array_vec_len line.old + 150 ≤ 256 }
    ensures items { line.new.items ≡ line.old.items ++ causes_text half packet.now }
    ensures len { array_vec_len line.new ≤ array_vec_len line.old + 150 }
{
    append_preamble(line, half, &packet.preamble);
    let has_cause = packet.preamble.is_some();
    append_off_limits(line, has_cause, b"ones", &packet.ones);
    let has_cause = has_cause || packet.ones.is_some();
    append_off_limits(line, has_cause, b"zeros", &packet.zeros);
}

/// Appends the cause of a preamble that is too short. If the preamble is no cause, nothing is
/// appended.
#[tactic(auto, using(dcc_io::proofs::DecimalLemmas::decimal_is_short))]
fn append_preamble(line: &mut LostLine, half: u32, preamble: &Option<ShortPreamble>)
    requires { array_vec_len line.old + 40 ≤ 256 }
    ensures items { line.new.items ≡ line.old.items ++ preamble_cause half preamble.now }
    ensures len { array_vec_len line.new ≤ array_vec_len line.old + 40 }
{
    if let Some(preamble) = preamble {
        append(line, b"preamble ");
        append_decimal(line, u32::from(preamble.ones));
        append_refusal_place(line, half, preamble.since_refusal);
    }
}

/// Appends the number of the last half-bit of a refusal, which is `since` half-bits before the
/// half-bit with the number `half`. If `since` is `None`, nothing is appended.
#[tactic(auto, using(dcc_io::proofs::DecimalLemmas::decimal_is_short))]
fn append_refusal_place(line: &mut LostLine, half: u32, since: Option<u8>)
    requires { array_vec_len line.old + 17 ≤ 256 }
    ensures items { line.new.items ≡ line.old.items ++ refusal_place_text half since }
    ensures len { array_vec_len line.new ≤ array_vec_len line.old + 17 }
{
    if let Some(since) = since {
        append(line, b" after ");
        append_decimal(line, half.saturating_sub(u32::from(since)));
    }
}

/// Appends the cause of half-bits outside the limits. If `has_cause` is true, a comma and a space
/// come before this cause. If there are no such half-bits, nothing is appended.
#[tactic(auto, using(dcc_io::proofs::DecimalLemmas::decimal_is_short))]
fn append_off_limits(line: &mut LostLine, has_cause: bool, name: &[u8], off: &Option<OffLimits>)
    requires room { array_vec_len line.old + 55 ≤ 256 }
    requires short { length name.now ≤ 5 }
    ensures items { line.new.items ≡ line.old.items ++ cause_behind has_cause name.now off.now }
    ensures len { array_vec_len line.new ≤ array_vec_len line.old + 55 }
{
    if let Some(off) = off {
        if has_cause {
            append(line, b", ");
        }
        append(line, name);
        append(line, b" ");
        append_decimal(line, off.count);
        append(line, b" from ");
        append_decimal(line, u32::from(off.least));
        append(line, b" to ");
        append_decimal(line, u32::from(off.most));
    }
}
