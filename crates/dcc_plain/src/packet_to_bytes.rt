//! Functions that return the bytes of a standard packet.
ghost use Rattle.std.specs.Prelude.{◌≡◌, ◌≤◌, ◌<◌, ◌+◌, ◌-◌, ◌*◌, ◌/◌, ◌%◌, ◌++◌, ◌∷◌, ◌↔◌, [], length, IsTrue};
ghost use Rattle.std.specs.Prelude.{IfSome, IfNone};
ghost use Rattle.arrayvec.specs.ArrayVec.{array_vec_len};
ghost use Rattle.dcc_packet.specs.Instruction.{is_cv_access};
ghost use Rattle.dcc_packet.specs.Rows.{address_bytes, bit, instruction_bytes};
ghost use Rattle.dcc_wire.specs.Frames.{with_error_byte, xor_of};
ghost use Rattle.dcc_plain.specs.Standard.{IsExtended, StandardFits, WhatFits, board_high, board_low, extended_bytes};
ghost use Rattle.dcc_plain.specs.Standard.{few_bytes, output_bits, standard_bytes, what_bytes};

use crate::any_bytes::xor;
use crate::bits::bit;
use crate::{FewBytes, StandardPacket, StandardWhat};
use arrayvec::ArrayVec;
use dcc_packet::{Address, Output, Packet, What};

/// The bytes of a standard packet, with the error byte last.
pub type StandardFrame = ArrayVec<u8, 11>;

/// Returns the bytes of a standard packet, with the error byte last. Returns `None` if a number of the
/// packet is out of its range, or if an access to a CV is another instruction. `standard_read` returns
/// the packet for the bytes before the error byte.
pub fn standard_frame(packet: &StandardPacket) -> Option<StandardFrame>
    ensures found { IfSome result (λ frame. StandardFits packet.now
        × (frame.items ≡ with_error_byte (standard_bytes packet.now))) }
    ensures none { IfNone result (¬ (StandardFits packet.now)) }
{
    if !fits(packet) {
        return None;
    }
    let mut bytes = StandardFrame::new();
    put_packet(&mut bytes, packet);
    let error_byte = xor(bytes.as_slice());
    bytes.push(error_byte);
    Some(bytes)
}

/// Returns true if the numbers of the packet are in their ranges, and an access to a CV is one.
fn fits(packet: &StandardPacket) -> bool
    ensures { IsTrue result ↔ StandardFits packet.now }
{
    match packet {
        StandardPacket::Loco { what, .. } => what_fits(what),
        StandardPacket::ModelTime {
            minute,
            weekday,
            hour,
            factor,
            ..
        } => *minute <= 59 && *weekday <= 7 && *hour <= 23 && *factor <= 63,
        StandardPacket::ModelDate { day, month, year } => {
            1 <= *day && *day <= 31 && 1 <= *month && *month <= 12 && *year <= 4095
        }
        StandardPacket::SystemTime { milliseconds } => *milliseconds <= 65535,
        StandardPacket::BoardNothing { pair, .. } => *pair <= 3,
        StandardPacket::SignalNothing { .. } => true,
        StandardPacket::BoardCv { access, .. } | StandardPacket::SignalCv { access, .. } => {
            is_cv_access(access)
        }
    }
}

/// Returns true if the numbers of the instruction are in their ranges.
fn what_fits(what: &StandardWhat) -> bool
    ensures { IsTrue result ↔ WhatFits what.now }
{
    match what {
        StandardWhat::Consist { number, .. } => *number <= 127,
        StandardWhat::LongState { number, .. } => *number <= 32767,
        StandardWhat::ExtendedRead { sequence, cv }
        | StandardWhat::ExtendedWrite { sequence, cv, .. }
        | StandardWhat::ExtendedBitWrite { sequence, cv, .. } => {
            *sequence <= 3 && 1 <= *cv && *cv <= 16777216
        }
        _ => true,
    }
}

/// Returns true if the instruction is an access to a CV.
fn is_cv_access(what: &What) -> bool
    ensures { result ≡ is_cv_access what.now }
{
    match what {
        What::CvWrite { .. }
        | What::CvVerify { .. }
        | What::CvBitWrite { .. }
        | What::CvBitVerify { .. } => true,
        _ => false,
    }
}

/// Appends the bytes `more`.
fn put(bytes: &mut StandardFrame, more: &[u8])
    requires { array_vec_len bytes.old + length more.now ≤ 11 }
    ensures items { bytes.new.items ≡ bytes.old.items ++ more.now }
    ensures len { array_vec_len bytes.new ≡ array_vec_len bytes.old + length more.now }
{
    let _ = bytes.try_extend_from_slice(more);
}

/// Appends the bytes of a packet.
fn put_packet(bytes: &mut StandardFrame, packet: &StandardPacket)
    requires room { array_vec_len bytes.old ≡ 0 }
    requires fits { StandardFits packet.now }
    ensures items { bytes.new.items ≡ bytes.old.items ++ standard_bytes packet.now }
    ensures len { array_vec_len bytes.new ≤ 10 }
{
    match packet {
        StandardPacket::Loco { to, what } => {
            put_address(bytes, to);
            put_what(bytes, what);
        }
        StandardPacket::ModelTime {
            minute,
            weekday,
            hour,
            is_set,
            factor,
        } => put(
            bytes,
            &[
                0,
                0xC1,
                *minute,
                32 * *weekday + *hour,
                128 * bit(*is_set) + *factor,
            ],
        ),
        StandardPacket::ModelDate { day, month, year } => put(
            bytes,
            &[
                0,
                0xC1,
                64 + *day,
                16 * *month + (*year / 256) as u8,
                (*year % 256) as u8,
            ],
        ),
        StandardPacket::SystemTime { milliseconds } => put(
            bytes,
            &[
                0,
                0xC2,
                (*milliseconds / 256) as u8,
                (*milliseconds % 256) as u8,
            ],
        ),
        StandardPacket::BoardNothing { board, pair } => put(
            bytes,
            &[
                board_low(board.number()),
                board_high(board.number()) + 8 + 2 * *pair,
            ],
        ),
        StandardPacket::SignalNothing { address } => {
            let board = address.number() / 4;
            put(
                bytes,
                &[
                    board_low(board),
                    board_high(board) + 9 + 2 * (address.number() % 4) as u8,
                ],
            );
        }
        StandardPacket::BoardCv {
            board,
            output,
            access,
        } => {
            let second = 128 + board_high(board.number()) + output_bits(output);
            put(bytes, &[board_low(board.number()), second]);
            put_access(bytes, access);
        }
        StandardPacket::SignalCv { address, access } => {
            let board = address.number() / 4;
            put(
                bytes,
                &[
                    board_low(board),
                    board_high(board) + 1 + 2 * (address.number() % 4) as u8,
                ],
            );
            put_access(bytes, access);
        }
    }
}

/// Returns the byte 10AAAAAA of a board.
fn board_low(board: u16) -> u8
    requires { board ≤ 511 }
    ensures { result ≡ board_low board }
{
    128 + (board % 64) as u8
}

/// Returns the bits 0NNN0000 of a board.
fn board_high(board: u16) -> u8
    requires { board ≤ 511 }
    ensures value { result ≡ board_high board }
    ensures most { result ≤ 112 }
{
    16 * (7 - (board / 64) as u8)
}

/// Returns the bits CDDD of an access to a CV of a board or of its output.
fn output_bits(output: &Option<Output>) -> u8
    ensures value { result ≡ output_bits output.now }
    ensures most { result ≤ 15 }
{
    match output {
        Some(output) => 8 + output.number(),
        None => 0,
    }
}

/// Appends the three bytes of an access to a CV.
fn put_access(bytes: &mut StandardFrame, access: &What)
    requires room { array_vec_len bytes.old ≤ 8 }
    requires access { IsTrue (is_cv_access access.now) }
    ensures items { bytes.new.items ≡ bytes.old.items ++ instruction_bytes access.now }
    ensures len { array_vec_len bytes.new ≤ array_vec_len bytes.old + 3 }
{
    let packet = Packet::Loco {
        to: Address::Broadcast,
        what: *access,
    };
    let frame = packet.frame();
    put(bytes, &frame.bytes()[1..4]);
}

/// Appends the bytes of an address.
fn put_address(bytes: &mut StandardFrame, to: &Address)
    requires { array_vec_len bytes.old ≡ 0 }
    ensures items { bytes.new.items ≡ bytes.old.items ++ address_bytes to.now }
    ensures len { array_vec_len bytes.new ≤ 2 }
{
    match to {
        Address::Broadcast => put(bytes, &[0]),
        Address::Short(address) => put(bytes, &[address.number()]),
        Address::Long(address) => {
            let number = address.number();
            put(bytes, &[192 + (number / 256) as u8, (number % 256) as u8]);
        }
    }
}

/// Appends the bytes of an instruction.
fn put_what(bytes: &mut StandardFrame, what: &StandardWhat)
    requires room { array_vec_len bytes.old ≤ 2 }
    requires fits { WhatFits what.now }
    ensures items { bytes.new.items ≡ bytes.old.items ++ what_bytes what.now }
    ensures len { array_vec_len bytes.new ≤ array_vec_len bytes.old + 8 }
{
    match what {
        StandardWhat::HardReset => put(bytes, &[1]),
        StandardWhat::FactoryTest {
            upper,
            first,
            second,
        } => match second {
            Some(second) => put(bytes, &[2 + bit(*upper), *first, *second]),
            None => put(bytes, &[2 + bit(*upper), *first]),
        },
        StandardWhat::DecoderFlags { upper, flags } => put(bytes, &[6 + bit(*upper), *flags]),
        StandardWhat::LongAddressUse { on } => put(bytes, &[10 + bit(*on)]),
        StandardWhat::Acknowledge => put(bytes, &[15]),
        StandardWhat::Consist { number, reversed } => put(bytes, &[18 + bit(*reversed), *number]),
        StandardWhat::Combined {
            forward,
            speed,
            functions,
        } => {
            put(bytes, &[0x3C, 128 * bit(*forward) + speed.bits()]);
            put_few(bytes, functions);
        }
        StandardWhat::Analog { output, value } => put(bytes, &[0x3D, *output, *value]),
        StandardWhat::OperatingModes { modes } => put(bytes, &[0x3E, *modes]),
        StandardWhat::LongState { number, on } => {
            let low = 128 * bit(*on) + (*number % 128) as u8;
            put(bytes, &[0xC0, low, (*number / 128) as u8]);
        }
        StandardWhat::ShortCv { is_24, value } => put(bytes, &[0xF2 + bit(*is_24), *value]),
        StandardWhat::ExtendedRead { sequence, cv } => put_extended(bytes, 0xE4, *sequence, *cv),
        StandardWhat::ExtendedWrite {
            sequence,
            cv,
            values,
        } => {
            put_extended(bytes, 0xEC, *sequence, *cv);
            put_few(bytes, values);
        }
        StandardWhat::ExtendedBitWrite {
            sequence,
            cv,
            place,
            one,
        } => {
            put_extended(bytes, 0xE8, *sequence, *cv);
            put(bytes, &[0xF0 + 8 * bit(*one) + place.place()]);
        }
    }
}

/// Appends the byte `kind` with a sequence number, and the number of a CV less 1 in three bytes.
fn put_extended(bytes: &mut StandardFrame, kind: u8, sequence: u8, cv: u32)
    requires room { array_vec_len bytes.old ≤ 2 }
    requires kind { kind ≤ 0xEC }
    requires fits { IsExtended sequence cv }
    ensures items { bytes.new.items ≡ bytes.old.items ++ extended_bytes kind sequence cv }
    ensures len { array_vec_len bytes.new ≡ array_vec_len bytes.old + 4 }
{
    let from_zero = cv - 1;
    let middle = (from_zero / 256 % 256) as u8;
    put(
        bytes,
        &[
            kind + sequence,
            (from_zero / 65536) as u8,
            middle,
            (from_zero % 256) as u8,
        ],
    );
}

/// Appends one to four bytes.
fn put_few(bytes: &mut StandardFrame, few: &FewBytes)
    requires { array_vec_len bytes.old ≤ 6 }
    ensures items { bytes.new.items ≡ bytes.old.items ++ few_bytes few.now }
    ensures len { array_vec_len bytes.new ≤ array_vec_len bytes.old + 4 }
{
    match *few {
        FewBytes::One(a) => put(bytes, &[a]),
        FewBytes::Two(a, b) => put(bytes, &[a, b]),
        FewBytes::Three(a, b, c) => put(bytes, &[a, b, c]),
        FewBytes::Four(a, b, c, d) => put(bytes, &[a, b, c, d]),
    }
}
