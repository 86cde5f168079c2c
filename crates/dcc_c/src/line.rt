//! Functions that convert between frames and packet lines.

ghost use Rattle.std.specs.Prelude.{◌≡◌, ◌≢◌, IfOk, Result};
ghost use Rattle.dcc_packet.specs.declared.fault.PacketFault.{PacketFault};
ghost use Rattle.dcc_packet.specs.declared.packet.Packet.{Packet};
ghost use Rattle.dcc_packet.specs.Line.{Says};
ghost use Rattle.dcc_packet.specs.Spelling.{spelling};
ghost use Rattle.dcc_packet.specs.Words.{words};
ghost use Rattle.dcc_packet.specs.Written.{written_line};
ghost use Rattle.dcc_c.specs.Frames.{frame_answer, frame_numbers, zeros_behind};
ghost use Rattle.dcc_c.specs.Lines.{line_answer};

use crate::frame::DccFrame;
use dcc_packet::Packet;
use dcc_packet::field::Line;
use dcc_wire::Frame;

/// Writes the packet line of the frame `frame` to `line`, followed by zeros. The line has at most
/// 40 bytes, so a zero ends the line. Returns 0 on success, and 1 (L1) or 2 (L2) if `frame` is no
/// frame. If the result is not 0, nothing is written.
#[unsafe(no_mangle)]
pub extern "C" fn dcc_line(frame: &[u8], line: &mut [u8; 41]) -> u8
    ensures answer { result ≡ frame_answer frame.now }
    ensures line { result ≡ 0
        → (packet : Packet) × (spelling packet ≡ frame.now) × (line.new ≡ zeros_behind 41 (written_line packet)) }
    ensures kept { result ≢ 0 → line.new ≡ line.old }
{
    // takes less code than with `frame_of`
    match Frame::of(frame) {
        Ok(frame) => {
            put_line(&Packet::read(&frame), line);
            0
        }
        Err(refusal) => refusal.number(),
    }
}

/// Writes the packet line of a packet to `line`, followed by zeros.
fn put_line(packet: &Packet, line: &mut [u8; 41])
    ensures { line.new ≡ zeros_behind 41 (written_line packet.now) }
{
    let mut text = Line::new();
    packet.put_line(&mut text);
    let bytes = text.as_str().as_bytes();
    *line = [0; 41];
    line[..bytes.len()].copy_from_slice(bytes);
}

/// Writes the frame of the packet line `line`. Returns 0 on success, otherwise the number of the
/// first error of the line, 1 to 14 for P1 to P14. If the result is not 0, nothing is written.
#[unsafe(no_mangle)]
pub extern "C" fn dcc_frame_of_line(line: &[u8], frame: &mut DccFrame) -> u8
    ensures answer { (read : Result Packet PacketFault) × Says (words line.now) read × (result ≡ line_answer read)
        × IfOk read (λ packet. frame.new ≡ frame_numbers (spelling packet)) }
    ensures kept { result ≢ 0 → frame.new ≡ frame.old }
{
    match Packet::from_line_bytes(line) {
        Ok(packet) => {
            *frame = DccFrame::of_frame(&packet.frame());
            0
        }
        Err(fault) => fault.number(),
    }
}
