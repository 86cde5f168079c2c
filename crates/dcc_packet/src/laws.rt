//! Theorems about packets, their frames and their lines.

ghost use Rattle.std.specs.Prelude.{◌≡◌, List, Result, Ok};
ghost use Rattle.dcc_packet.specs.declared.packet.Packet.{Packet};
ghost use Rattle.dcc_packet.specs.declared.fault.PacketFault.{PacketFault};
ghost use Rattle.dcc_packet.specs.Spelling.{spelling, BytesFit};
ghost use Rattle.dcc_packet.specs.SpellingLaws.{SpellingsAreFrames};
ghost use Rattle.dcc_packet.specs.Words.{Word, words};
ghost use Rattle.dcc_packet.specs.Line.{Says};
ghost use Rattle.dcc_packet.specs.LineLaws.{LinesSayFrames};
ghost use Rattle.dcc_packet.specs.Written.{written_line};

use crate::{Packet, PacketFault};
use dcc_wire::Frame;

/// Theorem: if `read` gets the frame of a packet, it returns this packet.
pub fn read_after_frame(packet: &Packet) -> Packet
    ensures { result ≡ packet.now }
{
    Packet::read(&packet.frame())
}

/// Theorem: if `read` returns a packet for a frame, this frame is the frame of the packet.
pub fn frame_after_read(frame: &Frame) -> Frame
    ensures { result ≡ frame.now }
{
    Packet::read(frame).frame()
}

/// Theorem: `from_line` returns the packet for the packet line of a packet.
pub fn from_line_after_to_line(packet: &Packet) -> Result<Packet, PacketFault>
    ensures { result ≡ Ok packet.now }
{
    Packet::from_line(&packet.to_line())
}

/// Theorem: two packets with equal encodings are equal, so each frame encodes only one packet.
#[tactic(auto, using(crate::proofs::OneSpelling::one_packet))]
pub fn one_reading()
    ensures { (one other : Packet) → spelling one ≡ spelling other → one ≡ other }
{}

/// Theorem: the encoding of a packet is a frame, which has 3 to 6 bytes whose exclusive or is zero.
#[tactic(auto, using(crate::proofs::FrameSpellings::spellings_are_frames))]
pub fn spellings_are_frames()
    ensures { SpellingsAreFrames }
{}

/// Theorem: the words of a line mean at most one packet or one error.
pub fn one_answer()
    ensures { (line : List Word) (one other : Result Packet PacketFault)
        → Says line one → Says line other → one ≡ other }
{}

/// Theorem: if the words of a line mean a packet, the bytes of this packet are a frame, which has 3
/// to 6 bytes whose exclusive or is zero.
pub fn lines_say_frames()
    ensures { LinesSayFrames }
{}

/// Theorem: the packet line that is written for a packet means this packet.
#[tactic(auto, using(crate::proofs::RoundTrip::says_back))]
pub fn written_line_says()
    ensures { (packet : Packet) → BytesFit packet → Says (words (written_line packet)) (Ok packet) }
{}
