//! The values in the lines of a decoder text, and how they are written as words.
ghost use Rattle.dcc_saved.specs.DecoderLines.{version_field, own_address_field, own_board_field, speed_field};

use crate::decoder_line::Version;
use crate::decoder_words::{own_address, take_speed, version_number};
use dcc_packet::field::{Field, Line};
use dcc_packet::words::Words;
use dcc_packet::{Address, Board, PacketFault};
use dcc_regs::Speed;

/// The active address of a locomotive decoder, or `none`.
#[derive(Clone, Copy)]
pub struct OwnAddress {
    /// The active address, or `None` if the decoder has no address.
    pub address: Option<Address>,
}

/// The address of an accessory decoder, which is no broadcast.
#[derive(Clone, Copy)]
pub struct OwnBoard {
    /// The address of the decoder, 0 to 510.
    pub board: Board,
}

/// The speed of a locomotive decoder, as words of a decoder text.
#[derive(Clone, Copy)]
pub struct SavedSpeed {
    /// The speed of the decoder.
    pub speed: Speed,
}

impl Field for Version {
    ghost field = { version_field };

    ghost most = { 2 };

    fn take(words: &mut Words) -> Result<Version, PacketFault> {
        words.word().and_then(version_number)
    }

    fn put(&self, line: &mut Line) {
        match self {
            Version::One => line.push_str(" 1"),
            Version::Two => line.push_str(" 2"),
        }
    }

    #[tactic(auto, using(crate::proofs::RulesBack::version_is_back))]
    fn lemma_read_back() {}
}

impl Field for OwnAddress {
    ghost field = { own_address_field };

    ghost most = { 7 };

    fn take(words: &mut Words) -> Result<OwnAddress, PacketFault> {
        let address = words.word().and_then(own_address)?;
        Ok(OwnAddress { address })
    }

    fn put(&self, line: &mut Line) {
        match &self.address {
            None => line.push_str(" none"),
            Some(address) => address.put(line),
        }
    }

    #[tactic(auto, using(crate::proofs::RulesBack::own_address_is_back))]
    fn lemma_read_back() {}
}

impl Field for OwnBoard {
    ghost field = { own_board_field };

    ghost most = { 6 };

    fn take(words: &mut Words) -> Result<OwnBoard, PacketFault> {
        let board = Board::take(words)?;
        if board.number() == 511 {
            return Err(PacketFault::Board);
        }
        Ok(OwnBoard { board })
    }

    fn put(&self, line: &mut Line) {
        self.board.put(line);
    }

    #[tactic(auto, using(crate::proofs::RulesBack::own_board_is_back))]
    fn lemma_read_back() {}
}

impl Field for SavedSpeed {
    ghost field = { speed_field };

    ghost most = { 10 };

    fn take(words: &mut Words) -> Result<SavedSpeed, PacketFault> {
        let speed = take_speed(words)?;
        Ok(SavedSpeed { speed })
    }

    fn put(&self, line: &mut Line) {
        match self.speed {
            Speed::Stop => line.push_str(" stop"),
            Speed::Emergency => line.push_str(" emergency"),
            Speed::Step14(step) => {
                line.push_str(" 14");
                step.put(line);
            }
            Speed::Step28(step) => {
                line.push_str(" 28");
                step.put(line);
            }
            Speed::Step126(step) => {
                line.push_str(" 126");
                step.put(line);
            }
        }
    }

    #[tactic(auto, using(crate::proofs::RulesBack::speed_is_back))]
    fn lemma_read_back() {}
}
