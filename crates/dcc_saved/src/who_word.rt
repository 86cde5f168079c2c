//! Functions that parse the word that names a decoder.
ghost use Rattle.std.specs.Prelude.{◌≡◌};
ghost use Rattle.dcc_saved.specs.WhoWord.{loco_named, board_named, who_named};

use crate::decoder_words::own_address;
use dcc_io::{ToolFault, Usage};
use dcc_packet::numeral::number;
use dcc_packet::{Address, Board, PacketFault};
use dcc_regs::Who;

/// Returns the decoder that a word names. The name of a locomotive decoder is `s` followed by a
/// short address, 1 to 127, or `l` followed by a long address, 0 to 10239. The name of a locomotive
/// decoder without an active address is `none`. The name of an accessory decoder is `b` followed by
/// its address, 0 to 511. A number has 1 to 5 decimal digits.
///
/// Errors: U1 for any other word.
pub fn read_who(word: &str) -> Result<Who, ToolFault>
    ensures { result ≡ who_named word.now }
{
    who_of(word.as_bytes())
}

#[tactic(auto, unfolding(crate::specs::WhoWord::who_named))]
fn who_of(word: &[u8]) -> Result<Who, ToolFault>
    ensures { result ≡ who_named word.now }
{
    match word {
        [b'b', digits @ ..] => board_named(number(digits).and_then(Board::new)),
        _ => loco_named(own_address(word)),
    }
}

/// Returns the accessory decoder with the address `board`.
fn board_named(board: Result<Board, PacketFault>) -> Result<Who, ToolFault>
    ensures { result ≡ board_named board }
{
    match board {
        Ok(board) => Ok(Who::Board(board)),
        Err(_) => Err(ToolFault::Usage(Usage::BadWho)),
    }
}

/// Returns the locomotive decoder with the active address `active`.
fn loco_named(active: Result<Option<Address>, PacketFault>) -> Result<Who, ToolFault>
    ensures { result ≡ loco_named active }
{
    match active {
        Ok(active) => Ok(Who::Loco(active)),
        Err(_) => Err(ToolFault::Usage(Usage::BadWho)),
    }
}
