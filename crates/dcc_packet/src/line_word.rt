//! Functions that parse single words of packet lines.
ghost use Rattle.std.specs.Prelude.{◌≡◌};
ghost use Rattle.dcc_wire.specs.FrameOf.{frame_of};
ghost use Rattle.dcc_packet.specs.LineWords.{address, direction, group, bit_state, switch};
ghost use Rattle.dcc_packet.specs.LineWords.{frame_or_fault, hex_frame};

use crate::numeral::{number, small_number};
use crate::{Address, Group, PacketFault};
use dcc_wire::Frame;

/// Returns the address that a word means. The word is `all`, or `s` or `l` followed by a number.
///
/// Errors: P10 if the word has another form, P11 if the number is malformed or too large, P1 or P2
/// if the address is out of range.
pub fn address(word: &[u8]) -> Result<Address, PacketFault>
    ensures { result ≡ address word.now }
{
    match word {
        b"all" => Ok(Address::Broadcast),
        [b's', digits @ ..] => Address::short(small_number(digits)?),
        [b'l', digits @ ..] => Address::long(number(digits)?),
        _ => Err(PacketFault::Word),
    }
}

/// Returns true for `f` (forward) and false for `r` (reverse).
///
/// Errors: P10 for any other word.
pub fn direction(word: &[u8]) -> Result<bool, PacketFault>
    ensures { result ≡ direction word.now }
{
    match word {
        b"f" => Ok(true),
        b"r" => Ok(false),
        _ => Err(PacketFault::Word),
    }
}

/// Returns the function group that a word means: `0` for F1 to F4 and F0, otherwise the number of
/// the first function of the group. A word with a leading zero is not accepted.
///
/// Errors: P10 for any other word.
pub fn group(word: &[u8]) -> Result<Group, PacketFault>
    ensures { result ≡ group word.now }
{
    match word {
        b"0" => Ok(Group::F0),
        b"5" => Ok(Group::F5),
        b"9" => Ok(Group::F9),
        b"13" => Ok(Group::F13),
        b"21" => Ok(Group::F21),
        b"29" => Ok(Group::F29),
        b"37" => Ok(Group::F37),
        b"45" => Ok(Group::F45),
        b"53" => Ok(Group::F53),
        b"61" => Ok(Group::F61),
        _ => Err(PacketFault::Word),
    }
}

/// Returns true for `1` and false for `0`.
///
/// Errors: P10 for any other word.
pub fn bit_state(word: &[u8]) -> Result<bool, PacketFault>
    ensures { result ≡ bit_state word.now }
{
    match word {
        b"1" => Ok(true),
        b"0" => Ok(false),
        _ => Err(PacketFault::Word),
    }
}

/// Returns true for `on` and false for `off`.
///
/// Errors: P10 for any other word.
pub fn switch(word: &[u8]) -> Result<bool, PacketFault>
    ensures { result ≡ switch word.now }
{
    match word {
        b"on" => Ok(true),
        b"off" => Ok(false),
        _ => Err(PacketFault::Word),
    }
}

/// Returns the frame whose bytes `word` has as hex digits, in upper or lower case.
///
/// Errors: P12 if the digits form no frame.
pub fn hex_frame(word: &[u8]) -> Result<Frame, PacketFault>
    ensures { result ≡ hex_frame word.now }
{
    let len = word.len() / 2;
    if len > 6 {
        return Err(PacketFault::Frame);
    }
    let mut bytes = [0; 6];
    match hex::decode_to_slice(word, &mut bytes[..len]) {
        Ok(()) => framed(&bytes[..len]),
        Err(_) => Err(PacketFault::Frame),
    }
}

fn framed(bytes: &[u8]) -> Result<Frame, PacketFault>
    ensures { result ≡ frame_or_fault (frame_of bytes.now) }
{
    match Frame::of(bytes) {
        Ok(frame) => Ok(frame),
        Err(_) => Err(PacketFault::Frame),
    }
}
