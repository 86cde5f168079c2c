//! Functions that parse packet lines.
ghost use Rattle.std.specs.Prelude.{◌≡◌, IfOk};
ghost use Rattle.dcc_packet.specs.Words.{words};
ghost use Rattle.dcc_packet.specs.Spelling.{BytesFit};
ghost use Rattle.dcc_packet.specs.Line.{frame, Says, spelling_or_fault};

use crate::line_word::hex_frame;
use crate::words::{Words, is_word};
use crate::{Packet, PacketFault, packet_forms};

impl Packet {
    /// Returns the packet of a packet line. A packet line has one of these forms:
    ///
    /// ```text
    /// idle
    /// loco TO reset
    /// loco TO speed28 f|r BITS
    /// loco TO speed128 f|r BITS
    /// loco TO functions GROUP BITS
    /// loco TO state NUMBER on|off
    /// loco TO cv write CV VALUE
    /// loco TO cv verify CV VALUE
    /// loco TO cv bitwrite CV PLACE 0|1
    /// loco TO cv bitverify CV PLACE 0|1
    /// accessory BOARD OUTPUT on|off
    /// signal ADDRESS ASPECT
    /// frame HEX
    /// ```
    ///
    /// Spaces, tabs and carriage returns separate words. TO is `all`, or `s` or `l` followed by a
    /// number. `f` is forward and `r` is reverse. GROUP is 0, 5, 9, 13, 21, 29, 37, 45, 53 or 61. A
    /// number has 1 to 5 decimal digits. The greatest number is 255 for BITS, NUMBER, VALUE, PLACE,
    /// OUTPUT, ASPECT and after `s`, otherwise 65535. HEX is the bytes of a frame in hex digits,
    /// and the last byte is the error byte.
    ///
    /// Errors: the function checks the words from left to right, and returns the first error. P10
    /// if a word is missing or not allowed. P11 if a number is malformed or too large. P1 to P9 or
    /// P14 if a number is out of the range of its value. P12 if the hex digits form no frame. P10
    /// if a word is left at the end.
    pub fn from_line(line: &str) -> Result<Packet, PacketFault>
        ensures says { Says (words line.now) result }
        ensures fits { IfOk result BytesFit }
    {
        Packet::from_line_bytes(line.as_bytes())
    }

    /// Returns the packet of a line of bytes, which need not be UTF-8. The line has the forms and
    /// the errors of [`from_line`](Self::from_line).
    pub fn from_line_bytes(line: &[u8]) -> Result<Packet, PacketFault>
        ensures says { Says (words line.now) result }
        ensures fits { IfOk result BytesFit }
    {
        let packet = Words::new(line).packet();
        if let Ok(packet) = &packet {
            packet.has_bytes();
        }
        packet
    }
}

impl<'a> Words<'a> {
    #[tactic(auto, unfolding(crate::specs::Line::frame_of_words))]
    fn packet(&mut self) -> Result<Packet, PacketFault>
        ensures { Says self.old result }
    {
        let keyword = self.word()?;
        if is_word(keyword, b"frame") {
            self.frame()
        } else {
            let packet = packet_forms::packet(keyword, self)?;
            self.end()?;
            Ok(packet)
        }
    }

    #[tactic(auto, unfolding(crate::specs::Line::frame))]
    fn frame(&mut self) -> Result<Packet, PacketFault>
        ensures { spelling_or_fault result ≡ frame self.old }
    {
        let frame = self.word().and_then(hex_frame)?;
        self.end()?;
        Ok(Packet::read(&frame))
    }
}
