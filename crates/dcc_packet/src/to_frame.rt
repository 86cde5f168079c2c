//! Functions that return the frame of a packet.
ghost use Rattle.std.specs.Prelude.{◌≡◌, ◌≤◌, ◌+◌, ◌-◌, ◌*◌, ◌/◌, ◌%◌, ◌++◌, ◌∷◌, [], length};
ghost use Rattle.arrayvec.specs.ArrayVec.{array_vec_len};
ghost use Rattle.dcc_wire.specs.Frames.{with_error_byte, xor_of};
ghost use Rattle.dcc_packet.specs.Rows.{bit, address_bytes, instruction_bytes, function_bytes, cv_bytes};
ghost use Rattle.dcc_packet.specs.Rows.{accessory_bytes, signal_bytes};
ghost use Rattle.dcc_packet.specs.Spelling.{spelling, BytesFit};

use crate::bits::bit;
use crate::{
    Address, Board, CvNumber, Group, GroupBits, Output, Packet, SignalAddress, SpeedBits28,
    SpeedBits128, What,
};
use arrayvec::ArrayVec;
use dcc_wire::Frame;

/// The bytes of a packet before the error byte, in the order in which they are sent.
type Bytes = ArrayVec<u8, 6>;

impl Packet {
    /// Returns the frame that encodes the packet. The frame has the bytes of the row of the packet
    /// in the table of packets, and the error byte (NMRA S-9.2.1; RCN-211 to RCN-214).
    /// `Packet::read` returns the packet for this frame.
    // (not inlined, since a caller with the inlined code would load each field of the packet before
    // it knows the kind of the packet)
    #[inline(never)]
    pub fn frame(&self) -> Frame
        ensures spelled { result ≡ spelling self.now }
        ensures fits { BytesFit self.now }
    {
        self.has_bytes();
        match self {
            Packet::Idle => with_error_byte(&[0xFF, 0x00]),
            Packet::Loco { to, what } => {
                let mut bytes = Bytes::new();
                put_address(&mut bytes, to);
                put_instruction(&mut bytes, what);
                with_error_byte(&bytes)
            }
            Packet::Accessory { board, output, on } => {
                with_error_byte(&accessory_bytes(board, output, *on))
            }
            Packet::Signal { address, aspect } => with_error_byte(&signal_bytes(address, *aspect)),
            Packet::Other(other) => other.frame,
        }
    }
}

/// Returns the frame that consists of `bytes` and their error byte.
fn with_error_byte(bytes: &[u8]) -> Frame
    requires long_enough { 2 ≤ length bytes.now }
    requires fits { length bytes.now ≤ 5 }
    ensures { result ≡ with_error_byte bytes.now }
{
    match Frame::with_error_byte(bytes) {
        Ok(frame) => frame,
        Err(_) => unreachable!(),
    }
}

/// Appends the bytes `more` to `bytes`.
fn put(bytes: &mut Bytes, more: &[u8])
    requires { array_vec_len bytes.old + length more.now ≤ 6 }
    ensures { bytes.new.items ≡ bytes.old.items ++ more.now }
{
    bytes.try_extend_from_slice(more).unwrap()
}

/// Appends the bytes of the address `to`.
fn put_address(bytes: &mut Bytes, to: &Address)
    requires { array_vec_len bytes.old ≤ 4 }
    ensures { bytes.new.items ≡ bytes.old.items ++ address_bytes to.now }
{
    match to {
        Address::Broadcast => put(bytes, &[0]),
        Address::Short(address) => put(bytes, &[address.number]),
        Address::Long(address) => {
            let high = (address.number >> 8) as u8;
            let low = (address.number & 0xFF) as u8;
            put(bytes, &[0xC0 + high, low])
        }
    }
}

/// Appends the bytes of the instruction `what`.
fn put_instruction(bytes: &mut Bytes, what: &What)
    requires { array_vec_len bytes.old ≤ 3 }
    ensures { bytes.new.items ≡ bytes.old.items ++ instruction_bytes what.now }
{
    match what {
        What::Reset => put(bytes, &[0]),
        What::Speed28 { forward, bits } => put(bytes, &[speed28_byte(*forward, bits)]),
        What::Speed128 { forward, bits } => put(bytes, &[0x3F, bits.bits | bit(*forward) << 7]),
        What::Functions(functions) => put_functions(bytes, functions),
        What::BinaryState { number, on } => put(bytes, &[0xDD, number.number | bit(*on) << 7]),
        What::CvWrite { cv, value } => put(bytes, &cv_bytes(0xEC, cv, *value)),
        What::CvVerify { cv, value } => put(bytes, &cv_bytes(0xE4, cv, *value)),
        What::CvBitWrite { cv, place, one } => {
            put(bytes, &cv_bytes(0xE8, cv, place.access_bits(*one) | 0xF0))
        }
        What::CvBitVerify { cv, place, one } => {
            put(bytes, &cv_bytes(0xE8, cv, place.access_bits(*one) | 0xE0))
        }
    }
}

/// Returns the byte 01DCSSSS of an instruction that sets the speed in 28 or 14 steps.
fn speed28_byte(forward: bool, speed: &SpeedBits28) -> u8
    ensures { result ∷ [] ≡ instruction_bytes (What.Speed28 forward speed.now) }
{
    speed.bits >> 1 | (speed.bits & 1) << 4 | bit(forward) << 5 | 0x40
}

/// Returns the three bytes of an access to a CV. The parameter `kind` has the upper six bits of the
/// first byte.
fn cv_bytes(kind: u8, cv: &CvNumber, last: u8) -> [u8; 3]
    requires { kind ≤ 0xEC }
    ensures { result ≡ cv_bytes kind cv.now.number last }
{
    let from_zero = cv.number - 1;
    [
        kind + (from_zero >> 8) as u8,
        (from_zero & 0xFF) as u8,
        last,
    ]
}

/// Appends the bytes of an instruction that switches a function group.
fn put_functions(bytes: &mut Bytes, functions: &GroupBits)
    requires { array_vec_len bytes.old ≤ 3 }
    ensures { bytes.new.items
        ≡ bytes.old.items ++ function_bytes functions.now.group functions.now.bits }
{
    let bits = functions.bits;
    match functions.group {
        Group::F0 => put(bytes, &[bits | 0x80]),
        Group::F5 => put(bytes, &[bits | 0xB0]),
        Group::F9 => put(bytes, &[bits | 0xA0]),
        Group::F13 => put(bytes, &[0xDE, bits]),
        Group::F21 => put(bytes, &[0xDF, bits]),
        Group::F29 => put(bytes, &[0xD8, bits]),
        Group::F37 => put(bytes, &[0xD9, bits]),
        Group::F45 => put(bytes, &[0xDA, bits]),
        Group::F53 => put(bytes, &[0xDB, bits]),
        Group::F61 => put(bytes, &[0xDC, bits]),
    }
}

/// Returns the bytes 10AAAAAA 1NNNCDDD of a packet that switches an output. The high bits of the
/// address are complemented.
fn accessory_bytes(board: &Board, output: &Output, on: bool) -> [u8; 2]
    ensures { result ≡ accessory_bytes board.now output.now on }
{
    let low = (board.number & 0x3F) as u8;
    let high = (board.number >> 6) as u8;
    [
        0x80 | low,
        output.number | bit(on) << 3 | (7 - high) << 4 | 0x80,
    ]
}

/// Returns the bytes 10AAAAAA 0NNN0PP1 and the aspect of a packet that sets a signal.
fn signal_bytes(signal: &SignalAddress, aspect: u8) -> [u8; 3]
    ensures { result ≡ signal_bytes signal.now aspect }
{
    let board = signal.number >> 2;
    let pair = (signal.number & 3) as u8;
    let low = (board & 0x3F) as u8;
    let high = (board >> 6) as u8;
    [0x80 | low, pair << 1 | 1 | (7 - high) << 4, aspect]
}
