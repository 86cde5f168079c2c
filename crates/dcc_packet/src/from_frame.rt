//! Functions that return the packet that a frame encodes.
ghost use Rattle.std.specs.Prelude.{◌≡◌, ◌≢◌, ◌≤◌, ◌<◌, ◌++◌, ◌∷◌, [], List, IfSome, IfNone, Bool, ℕ};
ghost use Rattle.dcc_packet.specs.Rows.{instruction_bytes, address_bytes, accessory_bytes, signal_bytes};
ghost use Rattle.dcc_packet.specs.Rows.{IsPacketRow, HasRow};
ghost use Rattle.dcc_wire.specs.Frames.{IsFrame, with_error_byte};
ghost use Rattle.dcc_packet.specs.Spelling.{spelling, BytesFit};
ghost use Rattle.dcc_packet.specs.declared.accessory.Board.{Board};
ghost use Rattle.dcc_packet.specs.declared.accessory.Output.{Output};
ghost use Rattle.dcc_packet.specs.declared.accessory.SignalAddress.{SignalAddress};
ghost use Rattle.dcc_packet.specs.declared.address.Address.{Address};
ghost use Rattle.dcc_packet.specs.declared.packet.Packet.{Packet};
ghost use Rattle.dcc_packet.specs.declared.instruction.What.{What};

use crate::bits::is_set;
use crate::instruction_from_frame::instruction;
use crate::{
    Address, Board, LongAddress, OtherFrame, Output, Packet, ShortAddress, SignalAddress, What,
};
use dcc_wire::Frame;

impl Packet {
    /// Returns the packet that the frame encodes. In the table of packets, this packet is in the
    /// row that has the bytes of the frame. Returns `Other` if no row has these bytes. No frame is
    /// in two rows (NMRA S-9.2.1; RCN-211 to RCN-214).
    pub fn read(frame: &Frame) -> Packet
        ensures spelled { spelling result ≡ frame.now }
        ensures only { (packet : Packet) → spelling packet ≡ frame.now → packet ≡ result }
        ensures fits { BytesFit result }
    {
        let bytes = frame.bytes();
        let (body, _error_byte) = bytes.split_at(bytes.len() - 1);
        match row(body) {
            Some(packet) => {
                packet.has_bytes();
                packet
            }
            None => Packet::Other(OtherFrame { frame: *frame }),
        }
    }

    /// Returns the packet of the row that has the bytes of this frame. Returns `None` if no row has
    /// these bytes. `Packet::read` returns [`Packet::Other`] for a frame that is in no row.
    #[inline(always)]
    pub fn of_row(frame: &[u8]) -> Option<Packet>
        requires { IsFrame frame.now }
        ensures found { IfSome result (λ packet. spelling packet ≡ frame.now) }
        ensures none { IfNone result (¬ (HasRow frame.now)) }
    {
        row(&frame[..frame.len() - 1])
    }
}

/// Returns the packet whose row has `bytes` before the error byte. Returns `None` if no row has
/// these bytes.
// (inlined, so that the compiler removes the search if the caller ignores the result, as
// `each_frame_is_a_packet` does)
#[inline(always)]
pub(crate) fn row(bytes: &[u8]) -> Option<Packet>
    ensures found { IfSome result (λ packet. spelling packet ≡ with_error_byte bytes.now) }
    ensures none { IfNone result (¬ (IsPacketRow bytes.now)) }
{
    match *bytes {
        [0xFF, 0x00] => Some(Packet::Idle),
        [first @ 0x80..=0xBF, second] => accessory_row(first, second),
        [first @ 0x80..=0xBF, second, aspect] => signal_row(first, second, aspect),
        _ => loco_row(bytes),
    }
}

/// Returns the long address that is encoded as the bytes 11AAAAAA AAAAAAAA.
fn long_address(high: u8, low: u8) -> Address
    requires least { 0xC0 ≤ high }
    requires most { high ≤ 0xE7 }
    ensures { address_bytes result ≡ high ∷ low ∷ [] }
{
    let number = u16::from(high - 0xC0) << 8 | u16::from(low);
    Address::Long(LongAddress { number })
}

/// Returns the packet to multifunction decoders that `bytes` encode. Returns `None` if `bytes`
/// encode no packet to multifunction decoders.
#[inline(always)]
fn loco_row(bytes: &[u8]) -> Option<Packet>
    ensures found { IfSome result (λ packet. spelling packet ≡ with_error_byte bytes.now) }
    ensures none { IfNone result ((to : Address) (what : What)
        → address_bytes to ++ instruction_bytes what ≢ bytes.now) }
{
    match read_loco(bytes) {
        Some((to, what)) => Some(Packet::Loco { to, what }),
        None => None,
    }
}

/// Returns the address and the instruction of a packet to multifunction decoders, from the bytes
/// before the error byte. Returns `None` if `bytes` encode no instruction (NMRA S-9.2.1; RCN-211,
/// RCN-212, RCN-214).
#[inline]
pub fn read_loco(bytes: &[u8]) -> Option<(Address, What)>
    ensures found { IfSome result (λ told. address_bytes told.0 ++ instruction_bytes told.1 ≡ bytes.now) }
    ensures none { IfNone result ((to : Address) (what : What)
        → address_bytes to ++ instruction_bytes what ≢ bytes.now) }
{
    let (to, rest) = address(bytes)?;
    let what = instruction(rest)?;
    Some((to, what))
}

/// Returns the address at the beginning of `bytes`, and the bytes after this address. Returns
/// `None` if `bytes` do not begin with an address.
#[inline(always)]
fn address(bytes: &[u8]) -> Option<(Address, &[u8])>
    ensures found { IfSome result (λ told. address_bytes told.0 ++ told.1.now ≡ bytes.now) }
    ensures none { IfNone result ((to : Address) (rest : List ℕ) → address_bytes to ++ rest ≢ bytes.now) }
{
    match bytes {
        [0x00, rest @ ..] => Some((Address::Broadcast, rest)),
        [number @ 0x01..=0x7F, rest @ ..] => {
            Some((Address::Short(ShortAddress { number: *number }), rest))
        }
        [high @ 0xC0..=0xE7, low, rest @ ..] => Some((long_address(*high, *low), rest)),
        _ => None,
    }
}

/// Returns the packet of the bytes 10AAAAAA 1NNNCDDD, which switches an output. Returns `None` if
/// the highest bit of `second` is 0.
fn accessory_row(first: u8, second: u8) -> Option<Packet>
    requires low { 0x80 ≤ first }
    requires high { first < 0xC0 }
    ensures found { IfSome result (λ packet. spelling packet ≡ with_error_byte (first ∷ second ∷ [])) }
    ensures none { IfNone result ((board : Board) (output : Output) (on : Bool)
        → accessory_bytes board output on ≢ first ∷ second ∷ []) }
{
    if !is_set(second, 7) {
        return None;
    }
    let high = 7 - (second >> 4 & 7);
    let board = Board {
        number: u16::from(high) << 6 | u16::from(first & 0x3F),
    };
    Some(Packet::Accessory {
        board,
        output: Output { number: second & 7 },
        on: is_set(second, 3),
    })
}

/// Returns the packet of the bytes 10AAAAAA 0NNN0PP1 and an aspect, which sets a signal. Returns
/// `None` if the second byte has another form.
fn signal_row(first: u8, second: u8, aspect: u8) -> Option<Packet>
    requires low { 0x80 ≤ first }
    requires high { first < 0xC0 }
    ensures found { IfSome result (λ packet. spelling packet ≡ with_error_byte (first ∷ second ∷ aspect ∷ [])) }
    ensures none { IfNone result ((signal : SignalAddress) (byte : ℕ)
        → signal_bytes signal byte ≢ first ∷ second ∷ aspect ∷ []) }
{
    if is_set(second, 7) || is_set(second, 3) || !is_set(second, 0) {
        return None;
    }
    let high = 7 - (second >> 4 & 7);
    let board = u16::from(high) << 6 | u16::from(first & 0x3F);
    let number = board << 2 | u16::from(second >> 1 & 3);
    Some(Packet::Signal {
        address: SignalAddress { number },
        aspect,
    })
}
