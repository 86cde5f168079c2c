//! Two blocks as numbers: which different packets they have, and how these packets alternate. The
//! number of a packet is its place among the different packets of the first block.

ghost use Rattle.std.specs.Prelude.{◌≡◌, ◌↔◌, ◌<◌, ◌≤◌, ℕ, IsTrue, length, slice_index_or};
ghost use Rattle.std.specs.Prelude.{vec_capacity, Contains};
ghost use Rattle.std.specs.BTreeMap.{get};
ghost use Rattle.std.specs.List.{AllByRecursion};
ghost use Rattle.std.specs.Option.{unwrap_or};
ghost use Rattle.std.specs.Ordering.{nat_cmp};
ghost use Rattle.dcc_packet.specs.declared.packet.Packet.{Packet as PacketOf};
ghost use Rattle.dcc_order.specs.NumberedBlocks.{NumberedAlike};
ghost use Rattle.dcc_order.specs.declared.turns.Turns.{Turns as TurnsOf};
ghost use Rattle.dcc_order.specs.Turns.{Counted, Started};
ghost use Rattle.dcc_regs.specs.Conflict.{Conflict};

use crate::turns::{Turns, take_turn};
use dcc_packet::Packet;
use dcc_regs::{conflict, sets_nothing};
use std::collections::BTreeMap;

/// Returns the number of the packet whose frame has the number `frame`, or `count` if the index
/// does not contain the frame.
pub fn number_at(index: &BTreeMap<u64, usize>, frame: u64, count: usize) -> usize
    ensures { result ≡ unwrap_or (get nat_cmp index.now frame) count }
{
    match index.get(&frame) {
        Some(number) => *number,
        None => count,
    }
}

/// Returns true if `numbers` contains each number below `count`. The list `turns` must have
/// capacity for `count` elements.
pub fn contains_all_below(numbers: &[usize], count: usize, turns: &mut Vec<Turns>) -> bool
    requires below { AllByRecursion (λ n. n < count) numbers.now }
    requires room { count ≤ vec_capacity turns.old }
    ensures each { IsTrue result ↔ ((k : ℕ) → k < count → Contains numbers.now k) }
    ensures room { vec_capacity turns.old ≤ vec_capacity turns.new }
{
    // `numbers` does not contain `count`, so each number in it is a rival of packet `count`.
    count_turns(turns, count, count, numbers);
    all_rivals_occur(turns.as_slice())
}

/// Returns true if a block contains each rival. The parameter `turns` must have the turns of each
/// rival with a packet that the block does not contain.
fn all_rivals_occur(turns: &[Turns]) -> bool
    ensures { IsTrue result ↔
        ((k : ℕ) (t : TurnsOf) → k < length turns.now → IsTrue (slice_index_or turns.now k t).rival_last) }
{
    for taken in turns {
        if !taken.rival_came_last() {
            return false;
        }
    }
    true
}

/// Returns true if every two different packets that conflict alternate in the same way in both
/// blocks. The lists of turns must have capacity for one element for each different packet.
pub fn same_turns_of_all(
    members: &[Packet],
    numbers: &[usize],
    others: &[usize],
    turns: &mut Vec<Turns>,
    other_turns: &mut Vec<Turns>,
) -> bool
    requires room { length members.now ≤ vec_capacity turns.old }
    requires other_room { length members.now ≤ vec_capacity other_turns.old }
    ensures same { IsTrue result ↔ ((own : ℕ) → own < length members.now
        → NumberedAlike members.now numbers.now others.now own) }
    ensures room { vec_capacity turns.old ≤ vec_capacity turns.new }
    ensures other_room { vec_capacity other_turns.old ≤ vec_capacity other_turns.new }
{
    for own in 0..members.len() {
        if !same_turns_of(members, numbers, others, own, turns, other_turns) {
            return false;
        }
    }
    true
}

/// Returns true if packet `own` and each conflicting packet with a lower number alternate in the
/// same way in both blocks. Conflict is symmetric, so the calls for packets with higher numbers
/// compare all other pairs.
fn same_turns_of(
    members: &[Packet],
    numbers: &[usize],
    others: &[usize],
    own: usize,
    turns: &mut Vec<Turns>,
    other_turns: &mut Vec<Turns>,
) -> bool
    requires within { own < length members.now }
    requires room { own ≤ vec_capacity turns.old }
    requires other_room { own ≤ vec_capacity other_turns.old }
    ensures same { IsTrue result ↔ NumberedAlike members.now numbers.now others.now own }
    ensures room { vec_capacity turns.old ≤ vec_capacity turns.new }
    ensures other_room { vec_capacity other_turns.old ≤ vec_capacity other_turns.new }
{
    // a packet that sets no register conflicts with no packet
    if sets_nothing(&members[own]) {
        return true;
    }
    count_turns(turns, own, own, numbers);
    count_turns(other_turns, own, own, others);
    same_turns_at(members, own, turns.as_slice(), other_turns.as_slice())
}

/// Returns true if packet `own` has equal turns in both lists with each rival that conflicts with
/// packet `own`.
fn same_turns_at(members: &[Packet], own: usize, left: &[Turns], right: &[Turns]) -> bool
    requires own_in { own < length members.now }
    requires within { length left.now ≤ length members.now }
    requires each { length right.now ≡ length left.now }
    ensures { IsTrue result ↔ ((rival : ℕ) (d e : PacketOf) (t : TurnsOf) → rival < length left.now →
        Conflict (slice_index_or members.now own d) (slice_index_or members.now rival e)
        → slice_index_or left.now rival t ≡ slice_index_or right.now rival t) }
{
    for (rival, taken) in left.iter().enumerate() {
        // most turns are equal, and the comparison of turns is faster than the search for a
        // conflict
        if !taken.is(&right[rival]) && conflict(&members[own], &members[rival]) {
            return false;
        }
    }
    true
}

/// Counts the turns that packet `own` and each of the first `count` different packets take in a
/// block. The packets of the block have the numbers `numbers`.
fn count_turns(turns: &mut Vec<Turns>, own: usize, count: usize, numbers: &[usize])
    requires { count ≤ vec_capacity turns.old }
    ensures counted { Counted turns.new.items own count numbers.now }
    ensures room { vec_capacity turns.old ≤ vec_capacity turns.new }
{
    begin_turns(turns, count);
    for number in numbers {
        take_turn(turns.as_mut_slice(), own, *number);
    }
}

/// Sets `turns` to `count` elements, one for each rival. In each element no turn was taken.
fn begin_turns(turns: &mut Vec<Turns>, count: usize)
    requires { count ≤ vec_capacity turns.old }
    ensures begun { Started turns.new.items count }
    ensures room { vec_capacity turns.old ≤ vec_capacity turns.new }
{
    turns.clear();
    for rival in 0..count {
        let _ = turns.push(Turns::none());
    }
}
