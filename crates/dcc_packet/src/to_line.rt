//! Functions that return the packet line of a packet.
ghost use Rattle.std.specs.Prelude.{◌≡◌, ◌++◌, Result, Ok};
ghost use Rattle.dcc_packet.specs.declared.packet.Packet.{Packet};
ghost use Rattle.dcc_packet.specs.declared.fault.PacketFault.{PacketFault};
ghost use Rattle.dcc_packet.specs.Words.{words};
ghost use Rattle.dcc_packet.specs.Line.{Says};
ghost use Rattle.dcc_packet.specs.Spelling.{BytesFit};
ghost use Rattle.dcc_packet.specs.Written.{written_line};

use crate::Packet;
use crate::field::Line;
use crate::fields::Switch;
use crate::form::put_first_form;
use crate::to_line_word::put_hex;
use arrayvec::ArrayString;

impl Packet {
    /// Returns the packet line of the packet, without a line feed. One space separates two words.
    /// Numbers have no leading zeros, and hex digits are in lower case. If the packet is `Other`,
    /// the line has the form `frame HEX`. `from_line` returns the packet for this line.
    #[tactic(auto, using(crate::proofs::RoundTrip::says_back))]
    pub fn to_line(&self) -> ArrayString<40>
        ensures bytes { result.bytes ≡ written_line self.now }
        ensures fits { BytesFit self.now }
        ensures says { Says (words result.bytes) (Ok self.now) }
        ensures read_back { (answer : Result Packet PacketFault)
            → Says (words result.bytes) answer → answer ≡ Ok self.now }
    {
        self.written()
    }

    /// Replaces the text of `line` by the packet line, without a line feed: `to_line` for a caller that
    /// has a line of its own, which saves the 48 bytes of a second line on the stack.
    pub fn put_line(&self, line: &mut ArrayString<40>)
        ensures { line.new.bytes ≡ written_line self.now }
    {
        self.has_bytes();
        line.clear();
        match self {
            Packet::Idle => put_first_form(line, "idle", &()),
            Packet::Loco { to, what } => put_first_form(line, "loco", &(*to, *what)),
            Packet::Accessory { board, output, on } => {
                put_first_form(line, "accessory", &(*board, (*output, Switch { on: *on })))
            }
            Packet::Signal { address, aspect } => put_first_form(
                line,
                "signal",
                &(*address, *aspect),
            ),
            Packet::Other(other) => {
                line.push_str("frame ");
                put_hex(line, other.bytes());
            }
        }
    }

    /// Returns the packet line. The contract also says that the bytes of the packet are below 256.
    fn written(&self) -> ArrayString<40>
        ensures bytes { result.bytes ≡ written_line self.now }
        ensures fits { BytesFit self.now }
    {
        self.has_bytes();
        let mut line = Line::new();
        self.put_line(&mut line);
        line
    }
}
