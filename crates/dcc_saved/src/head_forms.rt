//! Functions for the first line of a decoder and the last line of a decoder text.
ghost use Rattle.std.specs.Prelude.{◌≡◌};
ghost use Rattle.dcc_packet.specs.Fields.{ParsesAs};
ghost use Rattle.dcc_packet.specs.Forms.{read_by, written_by};
ghost use Rattle.dcc_packet.specs.Written.{words_in_line};
ghost use Rattle.dcc_saved.specs.DecoderLines.{head_forms};

use crate::decoder_fields::{OwnAddress, OwnBoard};
use crate::decoder_line::Head;
use dcc_packet::PacketFault;
use dcc_packet::field::{Field, Line};
use dcc_packet::form::form_line;
use dcc_packet::words::Words;
use dcc_regs::Who;

/// Parses the words after `keyword` as the first line of a decoder or the last line of the text.
pub(crate) fn read_head(keyword: &[u8], words: &mut Words) -> Result<Head, PacketFault>
    ensures { ParsesAs (read_by head_forms keyword.now words.old) result words.new }
{
    if keyword == b"loco".as_slice() {
        Ok(Head::Decoder(Who::Loco(OwnAddress::take(words)?.address)))
    } else if keyword == b"board".as_slice() {
        Ok(Head::Decoder(Who::Board(OwnBoard::take(words)?.board)))
    } else if keyword == b"end".as_slice() {
        Ok(Head::End)
    } else {
        Err(PacketFault::Word)
    }
}

/// Returns the line for the value `head`, without a line feed.
pub(crate) fn line_of_head(head: &Head) -> Line
    ensures { result.bytes ≡ words_in_line (written_by head_forms head.now) }
{
    match head {
        Head::Decoder(Who::Loco(address)) => form_line("loco", &OwnAddress { address: *address }),
        Head::Decoder(Who::Board(board)) => form_line("board", &OwnBoard { board: *board }),
        Head::End => form_line("end", &()),
    }
}
