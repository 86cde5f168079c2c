//! The line of a packet that is found in joined half-bits.
ghost use Rattle.std.specs.Prelude.{◌≡◌, ◌≤◌, ◌+◌, ◌++◌, ◌||◌};
ghost use Rattle.std.specs.Option.{is_some};
ghost use Rattle.arrayvec.specs.ArrayVec.{array_vec_len};
ghost use Rattle.dcc_listen.specs.SpikedListing.{IsSpikedLine, spiked_causes_text};
ghost use Rattle.dcc_listen.specs.Inner.SpikedRuns.{spikes_behind};

use crate::lost_line::{LostLine, append_causes};
use dcc_capture::append_frame;
use dcc_io::{append, append_decimal};
use dcc_lost::{LostPacket, SpikedPacket};

/// Returns the line of a found packet. The parameter `half` is the number of the last half-bit of the
/// packet, counted from 1. The packet is written as a packet line if `words` is true, otherwise in
/// hex.
#[tactic(auto, using(dcc_io::proofs::DecimalLemmas::decimal_is_short))]
pub(crate) fn spiked_line(half: u32, packet: &SpikedPacket, words: bool) -> LostLine
    ensures { IsSpikedLine words half packet.now result.items }
{
    let mut line = LostLine::new();
    append_decimal(&mut line, half);
    append(&mut line, b" lost ");
    append_frame(&mut line, &packet.lost.frame, words);
    append(&mut line, b": ");
    append_spiked_causes(&mut line, half, packet);
    append(&mut line, b"\n");
    line
}

/// Appends the causes of a found packet, with a comma and a space between every two causes.
fn append_spiked_causes(line: &mut LostLine, half: u32, packet: &SpikedPacket)
    requires { array_vec_len line.old + 170 ≤ 256 }
    ensures items { line.new.items ≡ line.old.items ++ spiked_causes_text half packet.now }
    ensures len { array_vec_len line.new ≤ array_vec_len line.old + 170 }
{
    append_causes(line, half, &packet.lost);
    append_spikes(line, has_cause(&packet.lost), packet.spikes);
}

/// Returns true if a lost packet has one of its three causes.
fn has_cause(lost: &LostPacket) -> bool
    ensures { result ≡ (is_some lost.now.preamble || is_some lost.now.ones || is_some lost.now.zeros) }
{
    lost.preamble.is_some() || lost.ones.is_some() || lost.zeros.is_some()
}

/// Appends the cause of spikes. If `has_cause` is true, a comma and a space come before this cause.
/// If there are no spikes, nothing is appended.
#[tactic(auto, using(dcc_io::proofs::DecimalLemmas::decimal_is_short))]
fn append_spikes(line: &mut LostLine, has_cause: bool, spikes: u32)
    requires { array_vec_len line.old + 20 ≤ 256 }
    ensures items { line.new.items ≡ line.old.items ++ spikes_behind has_cause spikes }
    ensures len { array_vec_len line.new ≤ array_vec_len line.old + 20 }
{
    if spikes == 0 {
        return;
    }
    if has_cause {
        append(line, b", ");
    }
    append(line, b"spikes ");
    append_decimal(line, spikes);
}
