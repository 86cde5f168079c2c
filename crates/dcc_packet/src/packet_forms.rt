//! A function that parses all forms of packet lines except `frame HEX`.
ghost use Rattle.dcc_packet.specs.Fields.{ParsesAs};
ghost use Rattle.dcc_packet.specs.Forms.{read_by};
ghost use Rattle.dcc_packet.specs.PacketForms.{packet_forms};

use crate::field::Field;
use crate::fields::Switch;
use crate::words::{Words, is_word};
use crate::{Address, Board, Output, Packet, PacketFault, SignalAddress, What};

/// Parses the words after `keyword` as a packet, and removes these words.
pub(crate) fn packet(keyword: &[u8], words: &mut Words) -> Result<Packet, PacketFault>
    ensures { ParsesAs (read_by packet_forms keyword.now words.old) result words.new }
{
    if is_word(keyword, b"idle") {
        Ok(Packet::Idle)
    } else if is_word(keyword, b"loco") {
        let (to, what) = <(Address, What)>::take(words)?;
        Ok(Packet::Loco { to, what })
    } else if is_word(keyword, b"accessory") {
        let (board, (output, switch)) = <(Board, (Output, Switch))>::take(words)?;
        Ok(Packet::Accessory {
            board,
            output,
            on: switch.on,
        })
    } else if is_word(keyword, b"signal") {
        let (address, aspect) = <(SignalAddress, u8)>::take(words)?;
        Ok(Packet::Signal { address, aspect })
    } else {
        Err(PacketFault::Word)
    }
}
