//! Tests of the functions of a locomotive that a station remembers, with worked examples.

use crate::checks::{check, check_at};
use crate::rows::{column, is_hex};
use dcc_packet::{Address, Packet};
use dcc_station::Functions;
use std::process::Abort;

/// The columns of a row are the function, `on` or `off`, and the bytes of the packet to locomotive
/// 3. The rows turn functions of one locomotive, one after the other.
const TURNS: &str = "\
    0 | on | 039093
    1 | on | 039192
    4 | on | 03999a
    0 | off | 03898a
    5 | on | 03b1b2
    8 | on | 03b9ba
    9 | on | 03a1a2
    12 | on | 03a9aa
    13 | on | 03de01dc
    20 | on | 03de815c
    13 | off | 03de805d
    21 | on | 03df01dd
    29 | on | 03d801da
    37 | on | 03d901db
    45 | on | 03da01d8
    53 | on | 03db01d9
    61 | on | 03dc01de
    68 | on | 03dc815e
    63 | off | 03dc815e";

#[test]
fn turns(rt: HostRuntime) {
    let mut functions = Functions::new();
    for row in TURNS.lines() {
        turn_as_told(&rt, &mut functions, row);
    }
}

/// Turns the function of a row, and checks the packet and the function.
fn turn_as_told(rt: &impl Abort, functions: &mut Functions, row: &str) {
    let function = column(row, 0).parse::<u8>().expect(rt, row);
    let on = column(row, 1) == "on";
    let packet = turn(rt, functions, function, on).expect(rt, row);
    check(rt, has_bytes(&packet, column(row, 2)), row);
    check(rt, is_on(functions, function) == on, row);
}

/// Turns a function of locomotive 3.
fn turn(rt: &impl Abort, functions: &mut Functions, function: u8, on: bool) -> Option<Packet> {
    let to = Address::short(3).expect(rt, "an address");
    functions.turn(to, function, on)
}

fn has_bytes(packet: &Packet, hex: &str) -> bool {
    is_hex(packet.frame().bytes(), hex)
}

fn is_on(functions: &Functions, function: u8) -> bool {
    functions.is_on(function)
}

#[test]
fn functions_above_68(rt: HostRuntime) {
    let mut functions = Functions::new();
    check(&rt, turn(&rt, &mut functions, 68, true).is_some(), "68");
    for function in [69, 127, 128, 255] {
        let packet = turn(&rt, &mut functions, function, true);
        check_at(&rt, packet.is_none(), u32::from(function));
        check_at(&rt, !is_on(&functions, function), u32::from(function));
    }
    check(&rt, is_on(&functions, 68), "68");
}
