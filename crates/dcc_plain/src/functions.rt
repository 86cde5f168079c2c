//! Functions that write which functions of a locomotive are on.
ghost use Rattle.std.specs.Prelude.{◌≡◌, ◌≤◌, ◌<◌, ◌+◌, ◌*◌, ◌++◌, [], codes, if◌then◌else◌};
ghost use Rattle.arrayvec.specs.ArrayVec.{array_vec_len};
ghost use Rattle.dcc_packet.specs.Bits.{is_one};
ghost use Rattle.dcc_plain.specs.PlainWords.{bits_in_order, function_name, function_words, functions_on, group_numbers};
ghost use Rattle.dcc_plain.specs.PlainWords.{group_words, on_words, range_words};

use crate::text::{PlainText, append, append_byte};
use dcc_packet::{Group, GroupBits};

/// Appends the words of a function group.
pub(crate) fn append_group(text: &mut PlainText, functions: &GroupBits)
    requires { array_vec_len text.old + 71 ≤ 255 }
    ensures items { text.new.items ≡ text.old.items ++ group_words functions.now }
    ensures len { array_vec_len text.new ≤ array_vec_len text.old + 71 }
{
    let (first, count) = group_numbers(functions.group());
    let bits = bits_in_order(functions);
    append_functions(text, first, count, u32::from(bits));
}

/// Appends which of the `count` functions from number `first` on are on. The lowest bit of `bits` is
/// function `first`.
pub(crate) fn append_functions(text: &mut PlainText, first: u8, count: u8, bits: u32)
    requires room { array_vec_len text.old + (31 + 5 * count) ≤ 255 }
    requires some { 1 ≤ count }
    requires most { count ≤ 32 }
    requires last { first + count ≤ 69 }
    ensures items { text.new.items ≡ text.old.items ++ function_words first count bits }
    ensures len { array_vec_len text.new ≤ array_vec_len text.old + (31 + 5 * count) }
{
    if u64::from(bits) + 1 == 1 << count {
        append_range(text, first, count);
        append(text, b" on");
    } else {
        append_functions_on(text, first, count, bits);
        append_range(text, first, count);
        append(text, b" off");
    }
}

/// Appends the names of the first and the last of the `count` functions from number `first` on.
fn append_range(text: &mut PlainText, first: u8, count: u8)
    requires room { array_vec_len text.old + 11 ≤ 255 }
    requires some { 1 ≤ count }
    requires last { first + count ≤ 69 }
    ensures items { text.new.items ≡ text.old.items ++ range_words first count }
    ensures len { array_vec_len text.new ≤ array_vec_len text.old + 10 }
{
    append_name(text, first);
    append(text, b" to ");
    append_name(text, first + count - 1);
}

/// Appends the names of those of the `count` functions from number `first` on that are on, and the
/// words before the functions that are off. If no function is on, nothing is appended.
fn append_functions_on(text: &mut PlainText, first: u8, count: u8, bits: u32)
    requires room { array_vec_len text.old + (17 + 5 * count) ≤ 255 }
    requires most { count ≤ 32 }
    requires last { first + count ≤ 69 }
    ensures items { text.new.items ≡ text.old.items ++ on_words (functions_on first count bits) }
    ensures len { array_vec_len text.new ≤ array_vec_len text.old + (17 + 5 * count) }
{
    let mut has_name = false;
    let mut passed = 0;
    'functions: while passed < count {
        if is_on(bits, passed) {
            append_next_name(text, has_name, first + passed);
            has_name = true;
        }
        passed += 1;
    }
    if has_name {
        append(text, b" on, the rest of ");
    }
}

/// Appends the name of the function `number`. If `has_name` is true, a comma and a space come before
/// this name.
fn append_next_name(text: &mut PlainText, has_name: bool, number: u8)
    requires room { array_vec_len text.old + 6 ≤ 255 }
    requires two { number < 100 }
    ensures items { text.new.items
        ≡ text.old.items ++ ((if has_name then codes ", " else []) ++ function_name number) }
    ensures len { array_vec_len text.new ≤ array_vec_len text.old + 5 }
{
    if has_name {
        append(text, b", ");
    }
    append_name(text, number);
}

/// Appends the name of the function `number`.
fn append_name(text: &mut PlainText, number: u8)
    requires room { array_vec_len text.old + 4 ≤ 255 }
    requires two { number < 100 }
    ensures items { text.new.items ≡ text.old.items ++ function_name number }
    ensures len { array_vec_len text.new ≤ array_vec_len text.old + 3 }
{
    append(text, b"F");
    append_byte(text, number);
}

/// Returns true if the bit at `place` is one. Place 0 is the lowest bit.
fn is_on(bits: u32, place: u8) -> bool
    requires { place < 32 }
    ensures { result ≡ is_one bits place }
{
    bits >> place & 1 == 1
}

/// Returns the bits of a function group with the first function in the lowest bit.
fn bits_in_order(functions: &GroupBits) -> u8
    ensures { result ≡ bits_in_order functions.now.group functions.now.bits }
{
    let bits = functions.bits();
    match functions.group() {
        Group::F0 => 2 * (bits % 16) + bits / 16,
        _ => bits,
    }
}

/// Returns the number of the first function in a group, and the number of its functions.
fn group_numbers(group: Group) -> (u8, u8)
    ensures value { result ≡ group_numbers group }
    ensures first { result.0 + result.1 ≤ 69 }
    ensures least { 1 ≤ result.1 }
    ensures most { result.1 ≤ 8 }
{
    match group {
        Group::F0 => (0, 5),
        Group::F5 => (5, 4),
        Group::F9 => (9, 4),
        Group::F13 => (13, 8),
        Group::F21 => (21, 8),
        Group::F29 => (29, 8),
        Group::F37 => (37, 8),
        Group::F45 => (45, 8),
        Group::F53 => (53, 8),
        Group::F61 => (61, 8),
    }
}
