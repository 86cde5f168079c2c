//! Functions that write the lines of a listing.
ghost use Rattle.std.specs.Prelude.{◌≡◌, ◌+◌, ◌≤◌, ◌++◌, ℕ, List};
ghost use Rattle.arrayvec.specs.ArrayVec.{array_vec_len};
ghost use Rattle.dcc_capture.specs.FrameText.{IsFrameText};
ghost use Rattle.dcc_capture.specs.Listing.{IsLine, refusal_text};

use arrayvec::ArrayVec;
use dcc_io::{Line, append, append_decimal, append_hex};
use dcc_packet::Packet;
use dcc_wire::{Fault, Frame, Seen};

/// Returns the line of an outcome. The parameter `half` is the number of the last half-bit of the
/// outcome, counted from 1. A packet is written as a packet line if `words` is true, otherwise in
/// hex.
#[tactic(auto, using(dcc_io::proofs::DecimalLemmas::decimal_is_short))]
pub fn outcome_line(half: u32, outcome: &Seen, words: bool) -> Line
    ensures { IsLine words half outcome.now result.items }
{
    let mut line = Line::new();
    append_decimal(&mut line, half);
    append(&mut line, b" ");
    match outcome {
        Seen::Nothing => (),
        Seen::Packet(frame) => append_frame(&mut line, frame, words),
        Seen::Refused(fault) => append_refusal(&mut line, fault),
    }
    append(&mut line, b"\n");
    line
}

/// Appends the packet line of a frame if `words` is true, otherwise the bytes of the frame in hex.
pub fn append_frame<const N: usize>(line: &mut ArrayVec<u8, N>, frame: &Frame, words: bool)
    requires { array_vec_len line.old + 40 ≤ N }
    ensures items { (text : List ℕ) × IsFrameText words frame.now text × (line.new.items ≡ line.old.items ++ text) }
    ensures len { array_vec_len line.new ≤ array_vec_len line.old + 40 }
{
    if words {
        let packet_line = Packet::read(frame).to_line();
        append(line, packet_line.as_bytes());
    } else {
        append_hex(line, frame.bytes());
    }
}

/// Appends the text of a refusal.
fn append_refusal(line: &mut Line, fault: &Fault)
    requires { array_vec_len line.old + 23 ≤ 64 }
    ensures items { line.new.items ≡ line.old.items ++ refusal_text fault.now }
    ensures len { array_vec_len line.new ≤ array_vec_len line.old + 23 }
{
    match fault {
        Fault::BadHalf => append(line, b"refused H1"),
        Fault::SplitBit => append(line, b"refused H2"),
        Fault::TooShort => append(line, b"refused H3"),
        Fault::TooLong => append(line, b"refused H4"),
        Fault::ErrorByte(body) => {
            append(line, b"refused H5 ");
            append_hex(line, body.bytes());
        }
    }
}
