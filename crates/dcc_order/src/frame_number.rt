//! Functions that encode a frame as one number, which is a key of an index.

ghost use Rattle.std.specs.Prelude.{◌≡◌, ◌<◌, ◌≤◌, ◌+◌, ◌*◌, ◌^◌, length};
ghost use Rattle.dcc_order.specs.FrameNumbers as index;
ghost use Rattle.dcc_packet.specs.Spelling.{spelling};
ghost use Rattle.dcc_wire.specs.Frames.{IsFrame};

use dcc_packet::Packet;
use dcc_wire::Frame;

/// Returns the frame of a packet as one number, as `frame_number` does.
pub fn number_of_frame(packet: &Packet) -> u64
    ensures number { result ≡ index.frame_number (spelling packet.now) }
    ensures valid { IsFrame (spelling packet.now) }
{
    frame_number(&packet.frame())
}

/// Returns the bytes of a frame as one number, whose digits in base 256 are the bytes and a 1.
/// Different frames have different numbers.
pub fn frame_number(frame: &Frame) -> u64
    ensures number { result ≡ index.frame_number frame.now }
    ensures valid { IsFrame frame.now }
{
    let bytes = frame.bytes();
    number_of_bytes(bytes)
}

/// Returns `bytes` as one number in base 256. The first byte is the lowest digit, and a digit 1
/// comes above the last byte.
fn number_of_bytes(bytes: &[u8]) -> u64
    requires { length bytes.now ≤ 6 }
    ensures { result ≡ index.frame_number bytes.now }
{
    match bytes {
        [] => 1,
        [a] => below(a, 1),
        [a, b] => below(a, below(b, 1)),
        [a, b, c] => below(a, below(b, below(c, 1))),
        [a, b, c, d] => below(a, below(b, below(c, below(d, 1)))),
        [a, b, c, d, e] => below(a, below(b, below(c, below(d, below(e, 1))))),
        [a, b, c, d, e, f, ..] => below(a, below(b, below(c, below(d, below(e, below(f, 1)))))),
    }
}

/// Returns the number that encodes a list of bytes, as `number_of_bytes` does. The list begins with
/// `byte`, and `later` is the number that encodes the other bytes of the list.
fn below(byte: &u8, later: u64) -> u64
    requires { later < 2 ^ 56 }
    ensures { result ≡ byte.now + 256 * later }
{
    *byte as u64 + 256 * later
}
