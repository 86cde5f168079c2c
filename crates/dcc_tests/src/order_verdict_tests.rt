//! Tests that compare lists of packets, as whole lists and packet by packet.
//! `examples/rows/same.txt` has these lists as captures.

use crate::checks::check;
use crate::rows::{column, number};
use dcc_order::*;
use dcc_packet::Packet;
use dcc_regs::Who;
use dcc_saved::read_who;
use dcc_wire::Frame;
use std::alloc::Global;
use std::process::Abort;

/// Letters, and the packet line for which each letter stands.
const LETTERS: [(u8, &str); 12] = [
    // a speed for locomotive 3, which turns F0 on in 14 speed steps
    (b'X', "frame 037477"),
    // sets bit 1 of CV29 of locomotive 3 to 0, which selects 14 speed steps
    (b'C', "frame 03e81cf106"),
    // sets bit 1 of CV29 of locomotive 3 to 1, which selects 28 speed steps
    (b'D', "frame 03e81cf90e"),
    // two more speeds for locomotive 3
    (b'P', "frame 036261"),
    (b'Q', "frame 037f7c"),
    // functions of locomotive 3, a speed for locomotive 4, and a reset of all decoders
    (b'F', "frame 038182"),
    (b'O', "frame 046266"),
    (b'R', "frame 000000"),
    // turns on output 5 of board 12, and then output 4, which is in the same pair
    (b'1', "frame 8cfd71"),
    (b'2', "frame 8cf579"),
    // turns binary state 5 of locomotive 3 on, and then off
    (b'U', "frame 03dd855b"),
    (b'V', "frame 03dd05db"),
];

/// Returns the packet line for which a letter stands.
fn line_of(letter: u8) -> &'static str {
    let mut found = "idle";
    for (name, line) in LETTERS {
        if name == letter {
            found = line;
        }
    }
    found
}

/// Returns the packet for which a letter stands.
fn packet_of(rt: &impl Abort, letter: u8) -> Packet {
    let line = line_of(letter);
    Packet::from_line(line).expect(rt, line)
}

/// Returns the list of the packets for which the letters in `letters` stand.
fn packets_of(rt: &impl Abort, alloc: Global, letters: &str) -> Vec<Packet> {
    let mut packets = Vec::new(alloc);
    for letter in letters.as_bytes() {
        packets.push(packet_of(rt, *letter)).expect(rt, "memory");
    }
    packets
}

fn who_of(rt: &impl Abort, word: &str) -> Who {
    read_who(word).expect(rt, word)
}

/// Returns true if the text `words` is the text of the verdict.
fn is_told(verdict: Verdict, words: &str) -> bool {
    let (kind, block) = match verdict {
        Verdict::Alike => ("alike", 0),
        Verdict::Writes => ("writes", 0),
        Verdict::Members(block) => ("members", block),
        Verdict::Order(block) => ("order", block),
    };
    match words.split_once(' ') {
        None => words == kind,
        Some((told, at)) => told == kind && number(at) == block,
    }
}

/// Compares two lists as a whole and packet by packet, and checks that both verdicts are equal.
/// Returns the verdict and the greatest number of packets that the comparer stored.
fn compared(
    rt: &impl Abort,
    alloc: Global,
    who: Who,
    left: &[Packet],
    right: &[Packet],
) -> (Verdict, u64) {
    let whole = compared_as_whole(rt, alloc, who, left, right);
    let mut comparer = Comparer::new(alloc, who);
    let mut most = 0;
    for _ in 0..4003u32 {
        if wanted(&comparer).is_some() {
            break;
        }
        most = most.max(give_next(rt, &mut comparer, left, right));
    }
    check(rt, wanted(&comparer) == Some(whole), "another verdict");
    (whole, most)
}

/// Compares two lists of at most 2,000 packets as a whole.
fn compared_as_whole(
    rt: &impl Abort,
    alloc: Global,
    who: Who,
    left: &[Packet],
    right: &[Packet],
) -> Verdict {
    assert!(rt; left.len() <= 2000 && right.len() <= 2000);
    compare(alloc, who, left, right).expect(rt, "memory")
}

/// Returns the verdict of the comparer, or `None` if it wants a packet.
fn wanted(comparer: &Comparer) -> Option<Verdict> {
    match comparer.wants() {
        Wants::Left | Wants::Right => None,
        Wants::Done(verdict) => Some(verdict),
    }
}

/// Gives the comparer the next packet of the list that it wants. Returns the number of packets that
/// the comparer then stores.
fn give_next(rt: &impl Abort, comparer: &mut Comparer, left: &[Packet], right: &[Packet]) -> u64 {
    let item = next_item(comparer, left, right);
    give(rt, comparer, item);
    comparer.held()
}

fn give(rt: &impl Abort, comparer: &mut Comparer, item: Option<Packet>) {
    let given = comparer.given();
    assert!(rt; given.0 <= 2000 && given.1 <= 2000);
    comparer.give(item).expect(rt, "memory");
}

/// Returns the next packet of the list that the comparer wants, or `None` at the end of this list.
fn next_item(comparer: &Comparer, left: &[Packet], right: &[Packet]) -> Option<Packet> {
    let given = comparer.given();
    match comparer.wants() {
        Wants::Left => left.get(given.0 as usize).copied(),
        _ => right.get(given.1 as usize).copied(),
    }
}

/// The columns of a row are the name, the decoder, two lists, the verdict, and the greatest number
/// of stored packets. If the last column is empty, this number is not checked.
const ROWS: &str = "\
    two_empty_lists | s3 | | | alike | 0
    speed_and_functions_in_either_order | s3 | XF | FX | alike
    a_speed_behind_a_change_of_mode | s3 | XCCXDDX | XCCDDX | members 2
    repeats_count_for_nothing | s3 | PQ | PPQQ | alike
    the_other_way_round | s3 | PQ | QP | order 0
    one_more_turn | s3 | PQP | PQ | order 0
    as_many_turns_and_another_last | s3 | PQPQ | QPQP | order 0
    one_write_or_two | s3 | C | CC | writes
    two_writes_or_three | s3 | CC | CCC | alike
    two_writes_or_seven | s3 | CC | CCCCCCC | alike
    capped_before_all_else | s3 | CPCQC | CPCCQC | members 2
    another_write | s3 | CC | DD | writes
    a_write_in_the_first_alone | s3 | PC | P | writes
    a_write_in_the_second_alone | s3 | P | PC | writes
    empty_blocks | s3 | CDC | CDC | alike
    before_or_behind_a_write | s3 | PC | CP | members 0
    idle_and_others_count_for_nothing | s3 | PCC | IPOCIC | alike
    a_packet_the_first_lacks | s3 | PPP | PQP | members 0
    a_packet_between_copies | s3 | CC | CPC | members 1
    one_block_of_each_side_is_held | s3 | CPCQC | CPCQC | alike | 2
    packets_to_boards | s3 | 12 | 21 | alike | 0
    both_sides_of_its_pair | b12 | 12 | 21 | order 0
    the_pair_of_another_board_is_not_held | b13 | 12 | 21 | alike | 0
    broadcasts_alone | none | PR | RQ | alike
    a_broadcast_in_the_second_alone | none | P | R | members 0
    states_turned | s3 | UV | VU | order 0
    a_state_repeated | s3 | UU | U | alike
    states_of_another | l1000 | UV | VU | alike";

#[test]
fn verdicts(rt: HostRuntime) {
    for row in ROWS.lines() {
        check_row(&rt, rt.alloc(), row);
    }
}

/// Checks a row of `ROWS`.
fn check_row(rt: &impl Abort, alloc: Global, row: &str) {
    let who = who_of(rt, column(row, 1));
    let left = packets_of(rt, alloc, column(row, 2));
    let right = packets_of(rt, alloc, column(row, 3));
    let (verdict, held) = compared(rt, alloc, who, left.as_slice(), right.as_slice());
    check(rt, is_told(verdict, column(row, 4)), row);
    let most = column(row, 5);
    check(rt, most.is_empty() || held == u64::from(number(most)), row);
}

#[test]
fn nothing_changes_once_it_is_done(rt: HostRuntime) {
    let mut comparer = Comparer::new(rt.alloc(), who_of(&rt, "s3"));
    give(&rt, &mut comparer, None);
    check(&rt, wants(&comparer) == Wants::Right, "the second list");
    give(&rt, &mut comparer, None);
    check(
        &rt,
        wants(&comparer) == Wants::Done(Verdict::Alike),
        "alike",
    );
    give(&rt, &mut comparer, Some(packet_of(&rt, b'P')));
    check(
        &rt,
        wants(&comparer) == Wants::Done(Verdict::Alike),
        "alike",
    );
    check(&rt, comparer.given() == (0, 0), "nothing given");
}

fn wants(comparer: &Comparer) -> Wants {
    comparer.wants()
}

/// Returns a block of 1,000 packets with 256 different speeds for locomotive 3, and two more speeds
/// at its end. Every two different speeds for one locomotive conflict.
fn block(rt: &impl Abort, alloc: Global, first: u8, second: u8) -> Vec<Packet> {
    let mut packets = Vec::new(alloc);
    let mut number = 7u8;
    for at in 0..1002u32 {
        number = number.wrapping_mul(77).wrapping_add(31);
        let bits = match at {
            1000 => first,
            1001 => second,
            _ => number,
        };
        packets.push(speed(rt, bits)).expect(rt, "memory");
    }
    packets
}

/// Returns the packet that sets a speed in 128 steps for locomotive 3.
fn speed(rt: &impl Abort, bits: u8) -> Packet {
    Packet::read(&Frame::with_error_byte(&[0x03, 0x3F, bits]).expect(rt, "a frame"))
}

#[test]
fn long_blocks(rt: HostRuntime) {
    let s3 = who_of(&rt, "s3");
    let one = block(&rt, rt.alloc(), 0x84, 0x85);
    let turned = block(&rt, rt.alloc(), 0x85, 0x84);
    let same = compared(&rt, rt.alloc(), s3, one.as_slice(), one.as_slice());
    check(&rt, same.0 == Verdict::Alike, "alike");
    let other = compared(&rt, rt.alloc(), s3, one.as_slice(), turned.as_slice());
    check(&rt, other.0 == Verdict::Order(0), "another order");
}
