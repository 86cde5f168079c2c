//! Tests of the definitions with worked examples: which decoders hear a packet, which callback is
//! called for a packet, and which packets conflict.

use crate::checks::check;
use crate::rows::column;
use dcc_packet::Packet;
use dcc_regs::*;
use dcc_saved::read_who;
use std::process::Abort;

/// The columns of a row are a packet, and the names of the decoders that hear this packet, out of
/// five decoders.
const HEARD_BY: &str = "\
    idle |
    loco all reset | s3 s124 l1000 none b12
    loco all speed28 f 0 | s3 s124 l1000 none
    loco s3 reset | s3
    loco l1000 reset | l1000
    frame 7c000a76 | s124
    frame c3e82b | l1000
    accessory 12 0 on | b12
    accessory 13 0 on |
    accessory 511 0 on | b12
    signal 2047 1 | b12
    signal 2046 1 |";

#[test]
fn heard_by(rt: HostRuntime) {
    for row in HEARD_BY.lines() {
        let packet = packet_of(&rt, column(row, 0));
        for name in ["s3", "s124", "l1000", "none", "b12"] {
            let heard = column(row, 1).find(name).is_some();
            check(&rt, is_heard(&rt, name, &packet) == heard, row);
        }
    }
}

fn packet_of(rt: &impl Abort, line: &str) -> Packet {
    Packet::from_line(line).expect(rt, line)
}

/// Returns true if the decoder with this name hears the packet.
fn is_heard(rt: &impl Abort, name: &str, packet: &Packet) -> bool {
    hears(read_who(name).expect(rt, name), packet)
}

const LINES: &str = "\
    idle
    loco all reset
    loco s3 speed28 f 4
    loco l1000 speed128 r 127
    loco s3 functions 5 1
    loco s3 cv write 29 6
    loco s3 cv verify 29 6
    loco s3 cv bitwrite 29 5 1
    loco s3 cv bitverify 29 5 0
    loco s3 state 5 on
    loco s3 state 5 off
    loco s3 state 0 on
    loco all state 5 on
    accessory 12 5 off
    signal 1022 3
    frame 7c000a76";

#[test]
fn notes(rt: HostRuntime) {
    let mut note = LastNote::new();
    check(&rt, note.last().is_none(), "a new note");
    for line in LINES.lines() {
        check(&rt, is_noted(&mut note, &packet_of(&rt, line)), line);
    }
}

/// Announces a packet to the listener. Returns true if the listener noted this packet.
fn is_noted(note: &mut LastNote, packet: &Packet) -> bool {
    announce(packet, note);
    match note.last() {
        Some(told) => told.is(packet),
        None => false,
    }
}

/// The first column of a row is `yes` if two packets conflict, otherwise `no`. The other columns
/// are the packet lines of the two packets. A broadcast speed above stop sets no register.
/// `functions 0 16` sets F0 only in 28 speed steps, and `speed28 f 4` only in 14 speed steps. So
/// `functions 0 16` and `speed28 f 4` do not conflict.
const CONFLICTS: &str = "\
    yes | loco s3 speed28 f 4 | loco s3 speed28 f 31
    no | loco s3 speed28 f 4 | loco s3 speed28 f 4
    no | loco s3 speed28 f 4 | loco l3 speed28 f 31
    yes | loco s3 speed28 f 4 | loco all speed28 f 0
    no | loco s3 speed28 f 4 | loco all speed28 r 9
    no | loco s3 speed28 f 4 | loco s3 cv write 29 6
    no | loco all reset | loco s3 speed28 f 0
    yes | loco all reset | loco s3 speed28 f 1
    no | loco s3 functions 0 16 | loco s3 speed28 f 4
    yes | loco s3 functions 0 1 | loco s3 functions 0 3
    no | loco s3 functions 0 1 | loco s3 functions 5 3
    yes | loco s3 functions 61 128 | loco s3 reset
    yes | loco all reset | accessory 12 5 on
    no | loco s3 reset | accessory 12 5 on
    no | loco all reset | accessory 12 5 off
    yes | accessory 12 5 on | accessory 511 5 off
    yes | accessory 12 5 on | accessory 12 4 on
    no | accessory 12 5 on | accessory 12 4 off
    no | accessory 12 5 on | accessory 13 5 off
    yes | signal 2047 5 | signal 1022 3
    no | signal 2047 5 | signal 2045 3
    no | signal 2047 5 | signal 1022 5
    no | accessory 12 5 on | signal 48 3
    no | signal 48 1 | signal 49 2
    yes | loco s3 reset | loco s3 state 5 on
    no | loco s3 reset | loco s3 state 5 off
    yes | loco s3 reset | loco s3 state 0 on
    yes | loco all reset | loco s3 state 5 on
    yes | loco s3 state 5 on | loco s3 state 5 off
    no | loco s3 state 5 on | loco s3 state 5 on
    no | loco s3 state 5 on | loco s3 state 6 off
    no | loco s3 state 0 on | loco s3 state 5 on
    yes | loco s3 state 0 on | loco s3 state 5 off
    yes | loco s3 state 0 on | loco s3 state 0 off
    no | loco s3 state 0 on | loco s4 state 0 off
    yes | loco all state 5 on | loco s3 state 5 off
    yes | loco all state 5 on | loco l1000 state 5 off
    no | loco s3 state 5 on | loco s3 functions 5 0
    no | loco s3 state 5 on | loco s3 speed28 f 0
    no | loco s3 state 5 on | frame 03ec1c06f5
    no | loco all state 5 on | accessory 12 5 on";

#[test]
fn conflicts(rt: HostRuntime) {
    for row in CONFLICTS.lines() {
        let one = packet_of(&rt, column(row, 1));
        let other = packet_of(&rt, column(row, 2));
        let wanted = column(row, 0) == "yes";
        check(&rt, is_conflict(&one, &other) == wanted, row);
        check(&rt, is_conflict(&other, &one) == wanted, row);
    }
}

fn is_conflict(one: &Packet, other: &Packet) -> bool {
    conflict(one, other)
}
