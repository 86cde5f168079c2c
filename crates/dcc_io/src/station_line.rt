//! The type of a line with a request to a station.
ghost use Rattle.std.specs.Prelude.{List};
ghost use Rattle.dcc_io.specs.StationLines.{Asked, asked_by, send_field, station_words};

use crate::said_line::ParsedLine;
use dcc_packet::field::{Field, Line};
use dcc_packet::words::Words;
use dcc_packet::{Packet, PacketFault};

/// A request to a station.
#[derive(Clone, Copy)]
pub enum StationLine {
    /// The station gets this packet as a command.
    Command(Packet),
    /// The station must send this number of packets.
    Send(u16),
}

impl ParsedLine for StationLine {
    ghost Item = { Asked };

    ghost Said = { List Asked };

    ghost saying = { station_words };

    ghost as_said = { asked_by };

    /// Returns the request of the line `send N`, with N from 1 to 1000, or of a packet line.
    ///
    /// Errors: the first error of the words from left to right. P11 if N is wrong, P10 if a word is
    /// left, or the error of the packet line.
    #[tactic(auto, unfolding(crate::specs::StationLines::station_requests))]
    fn from_line(line: &[u8]) -> Result<StationLine, PacketFault> {
        let mut words = Words::new(line);
        match words.next() {
            Some(word) => {
                if word == b"send".as_slice() {
                    let send: SendCount = words.fields()?;
                    return Ok(StationLine::Send(send.count));
                }
            }
            None => (),
        }
        Ok(StationLine::Command(Packet::from_line_bytes(line)?))
    }
}

/// The number of packets that a `send` line requests.
#[derive(Clone, Copy)]
pub struct SendCount {
    /// The number of packets, 1 to 1000.
    pub count: u16,
}

impl Field for SendCount {
    ghost field = { send_field };

    ghost most = { 6 };

    fn take(words: &mut Words) -> Result<SendCount, PacketFault> {
        let count = u16::take(words)?;
        if 1 <= count && count <= 1000 {
            Ok(SendCount { count })
        } else {
            Err(PacketFault::Number)
        }
    }

    fn put(&self, line: &mut Line) {
        self.count.put(line);
    }

    #[tactic(auto, using(crate::proofs::SendBack::send_is_back))]
    fn lemma_read_back() {}
}
