//! The theorem that each frame is the encoding of a packet.

ghost use Rattle.std.specs.Prelude.{◌≡◌};
ghost use Rattle.dcc_wire.specs.Frames.{IsFrame};
ghost use Rattle.dcc_packet.specs.declared.packet.Packet.{Packet};
ghost use Rattle.dcc_packet.specs.Spelling.{spelling};

use crate::from_frame::row;

/// Theorem: each frame is the encoding of a packet.
// (the function calls `row` so that the proof knows the row, and ignores the result, so that the
// compiler removes the call)
#[inline(always)]
pub fn each_frame_is_a_packet(frame: &[u8])
    requires { IsFrame frame.now }
    ensures { (packet : Packet) × (spelling packet ≡ frame.now) }
{
    let _ = row(&frame[..frame.len() - 1]);
}
