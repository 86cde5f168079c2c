//! Tests of the public functions on packets. `examples/rows/packets.txt` has packet lines with
//! their bytes, and lines with an error.

use crate::checks::{check, check_at};
use dcc_packet::*;
use dcc_wire::Frame;
use std::alloc::Global;
use std::process::Abort;

#[test]
fn every_frame_of_three_bytes_is_written_again(rt: HostRuntime) {
    let mut others = 0u32;
    for first in 0..=255u8 {
        for second in 0..=255u8 {
            if is_other(&rt, [first, second, first ^ second]) {
                others = others.wrapping_add(1);
            }
        }
    }
    // Packets of three bytes: idle, a reset, 64 speeds and 64 instructions for functions at each of
    // 128 addresses, and 64 times 128 accessory packets.
    check_at(&rt, others == 65536 - 1 - 128 * 129 - 64 * 128, others);
}

/// Asserts that the packet with these bytes is written with these bytes. Returns true if the packet
/// is a `Packet::Other`.
fn is_other(rt: &impl Abort, bytes: [u8; 3]) -> bool {
    let packet = Packet::read(&Frame::of(&bytes).expect(rt, "a frame"));
    check(
        rt,
        packet.frame().bytes() == bytes.as_slice(),
        "other bytes",
    );
    matches!(packet, Packet::Other(_))
}

/// Packet lines, each with the packet line that is written for its packet. One line has capitals,
/// and the longest line has 33 bytes.
const WRITTEN: [(&str, &str); 2] = [
    ("frame 7C000A76", "frame 7c000a76"),
    (
        "loco l10239 cv bitverify 1024 7 1",
        "loco l10239 cv bitverify 1024 7 1",
    ),
];

#[test]
fn lines_are_read_and_written(rt: HostRuntime) {
    for (line, written) in WRITTEN {
        check(&rt, is_written_as(&rt, line, written), line);
        check(&rt, line.len() == 14 || line.len() == 33, line);
    }
    check(&rt, fault_of(b"idle") == 0, "idle");
    // bytes that are no text are a wrong word or a wrong number
    for (line, fault) in [
        (b"".as_slice(), 10),
        (b" \t\r".as_slice(), 10),
        (b"idl\xFF".as_slice(), 10),
        (b"loco s\xFF reset".as_slice(), 11),
    ] {
        check_at(&rt, fault_of(line) == fault, u32::from(fault));
    }
}

/// Returns true if the packet of `line` is the packet of its frame, and its line is `written`.
fn is_written_as(rt: &impl Abort, line: &str, written: &str) -> bool {
    let packet = Packet::from_line(line).expect(rt, line);
    packet.is(&Packet::read(&packet.frame())) && packet.to_line().as_str() == written
}

/// Returns the number of the error of a packet line, 0 for an idle packet, and 255 for any other
/// packet.
fn fault_of(line: &[u8]) -> u8 {
    match Packet::from_line_bytes(line) {
        Ok(Packet::Idle) => 0,
        Ok(_) => 255,
        Err(told) => told.number(),
    }
}

#[test]
fn same_numbers_of_two_kinds_are_two_addresses(rt: HostRuntime) {
    let addresses = addresses(&rt);
    for (at, one) in addresses.iter().enumerate() {
        for (other_at, other) in addresses.iter().enumerate() {
            check(&rt, is_same(one, other) == (at == other_at), "an address");
        }
    }
}

/// Returns short address 3, long addresses 3 and 4, and the broadcast address.
fn addresses(rt: &impl Abort) -> [Address; 4] {
    [
        Address::short(3).expect(rt, "short address 3"),
        Address::long(3).expect(rt, "long address 3"),
        Address::long(4).expect(rt, "long address 4"),
        Address::Broadcast,
    ]
}

fn is_same(one: &Address, other: &Address) -> bool {
    one.is(other)
}

/// Packet lines, with true if the packet accesses a CV.
const CV_ACCESS: [(&str, bool); 9] = [
    ("loco s3 reset", false),
    ("loco s3 speed28 f 4", false),
    ("loco s3 speed128 f 4", false),
    ("loco s3 functions 0 1", false),
    ("loco s3 state 127 on", false),
    ("loco s3 cv write 1 3", true),
    ("loco s3 cv verify 1 3", true),
    ("loco s3 cv bitwrite 1 0 1", true),
    ("loco s3 cv bitverify 1 0 1", true),
];

#[test]
fn cv_access_is_told_from_the_rest(rt: HostRuntime) {
    for (line, access) in CV_ACCESS {
        check(&rt, is_cv_access(line) == Some(access), line);
    }
    check(&rt, state_number(127) == Ok(127), "state 127");
    let refused = Err(PacketFault::StateNumber);
    check(&rt, state_number(128) == refused, "state 128");
}

/// Returns true if the packet of `line` accesses a CV. Returns `None` if `line` is not the line of a
/// packet to a locomotive decoder.
fn is_cv_access(line: &str) -> Option<bool> {
    match Packet::from_line(line) {
        Ok(Packet::Loco { to: _, what }) => Some(what.is_cv_access()),
        _ => None,
    }
}

/// Returns the number of the binary state `number`, or its error.
fn state_number(number: u8) -> Result<u8, PacketFault> {
    match StateNumber::new(number) {
        Ok(state) => Ok(state.number()),
        Err(fault) => Err(fault),
    }
}

/// A byte, the place of a bit, and true if this bit is one. Then come the byte with this bit set to
/// one, and the byte with this bit set to zero.
type BitRow = (u8, u8, bool, u8, u8);

const BITS: [BitRow; 5] = [
    (0b0000_0001, 0, true, 0b0000_0001, 0b0000_0000),
    (0b0000_0001, 7, false, 0b1000_0001, 0b0000_0001),
    (0b1111_1111, 7, true, 0b1111_1111, 0b0111_1111),
    (0b1101_1111, 5, false, 0b1111_1111, 0b1101_1111),
    (0b0000_1010, 3, true, 0b0000_1010, 0b0000_0010),
];

/// Checks the functions of bit places, which count from the lowest bit. The last four bits of an
/// access to bit 5 are the value of the bit and the number 5.
#[test]
fn bits_of_a_byte(rt: HostRuntime) {
    for row in BITS {
        check_at(&rt, has_bits(&rt, row), u32::from(row.1));
    }
    check(&rt, access_bits(&rt) == (0b1101, 0b0101), "bit 5");
}

/// Checks a row of `BITS`.
fn has_bits(rt: &impl Abort, row: BitRow) -> bool {
    let (byte, number, is_one, with_one, with_zero) = row;
    let place = BitPlace::new(number).expect(rt, "a place");
    let one = place.with_bit(byte, true);
    let zero = place.with_bit(byte, false);
    (place.is_set(byte), one, zero) == (is_one, with_one, with_zero)
}

/// Returns the bits of an access to bit 5, for a one and for a zero.
fn access_bits(rt: &impl Abort) -> (u8, u8) {
    let place = BitPlace::new(5).expect(rt, "a place");
    (place.access_bits(true), place.access_bits(false))
}

/// Errors of packets, with the text of each error.
const TEXTS: [(PacketFault, &str); 4] = [
    (PacketFault::Short, "P1: a short address is 1 to 127"),
    (PacketFault::Word, "P10: wrong word"),
    (PacketFault::State, "P13: no state of a decoder"),
    (
        PacketFault::StateNumber,
        "P14: a binary state is 0 to 127, and a single one 1 to 127",
    ),
];

#[test]
fn texts_of_refusals(rt: HostRuntime) {
    for (fault, text) in TEXTS {
        check(&rt, has_text(&rt, rt.alloc(), fault, text), text);
    }
}

fn has_text(rt: &impl Abort, alloc: Global, fault: PacketFault, text: &str) -> bool {
    let told = format!(in alloc; "{fault}").expect(rt, "memory");
    told.as_str() == text
}
