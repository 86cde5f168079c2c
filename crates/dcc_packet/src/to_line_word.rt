//! Functions that write the words of packet lines.
ghost use Rattle.std.specs.Prelude.{◌≡◌, ◌+◌, ◌≤◌, ◌<◌, ◌++◌, ◌∷◌, [], length};
ghost use Rattle.std.specs.Fmt.{decimal};
ghost use Rattle.hex.specs.Hex.{encode_lower};
ghost use Rattle.arrayvec.specs.ArrayString.{array_string_len};
ghost use Rattle.dcc_packet.specs.Written.{address_word, direction_word, state_word, group_word, switch_word};
ghost use Rattle.dcc_packet.specs.Written.{with_word};

use crate::field::Line;
use crate::{Address, Group};
use std::str;

/// Appends a space and the word `word`.
pub(crate) fn put_word(line: &mut Line, word: &str)
    requires { array_string_len line.old + 1 + length word.now ≤ 40 }
    ensures { line.new.bytes ≡ with_word line.old.bytes word.now }
{
    line.push_str(" ");
    line.push_str(word);
}

/// Appends a space and the decimal digits of `number`.
#[tactic(auto, using(crate::proofs::Decimal::short))]
pub(crate) fn put_number(line: &mut Line, number: u16)
    requires { array_string_len line.old + 6 ≤ 40 }
    ensures bytes { line.new.bytes ≡ with_word line.old.bytes (decimal number) }
    ensures len { array_string_len line.new ≤ array_string_len line.old + 6 }
{
    line.push_str(" ");
    put_digits(line, number);
}

/// Appends the decimal digits of `number`. The contract says that there are at most five digits.
#[tactic(auto, using(crate::proofs::Decimal::short))]
fn put_bound_digits(line: &mut Line, number: u16)
    requires { array_string_len line.old + 5 ≤ 40 }
    ensures bytes { line.new.bytes ≡ line.old.bytes ++ decimal number }
    ensures len { array_string_len line.new ≤ array_string_len line.old + 5 }
{
    put_digits(line, number);
}

/// Appends the decimal digits of `number`.
fn put_digits(line: &mut Line, number: u16)
    requires { array_string_len line.old + length (decimal number) ≤ 40 }
    ensures { line.new.bytes ≡ line.old.bytes ++ decimal number }
{
    if number < 10 {
        put_digit(line, number);
    } else {
        put_digits(line, number / 10);
        put_digit(line, number % 10);
    }
}

/// Appends the character of one decimal digit.
fn put_digit(line: &mut Line, digit: u16)
    requires digit { digit < 10 }
    requires room { array_string_len line.old + 1 ≤ 40 }
    ensures { line.new.bytes ≡ line.old.bytes ++ (48 + digit) ∷ [] }
{
    line.push(char::from(b'0' + digit as u8));
}

/// Appends a space and the word of the address `to`.
pub(crate) fn put_address(line: &mut Line, to: &Address)
    requires { array_string_len line.old + 7 ≤ 40 }
    ensures bytes { line.new.bytes ≡ with_word line.old.bytes (address_word to.now) }
    ensures len { array_string_len line.new ≤ array_string_len line.old + 7 }
{
    match to {
        Address::Broadcast => put_word(line, "all"),
        Address::Short(address) => {
            put_word(line, "s");
            put_bound_digits(line, u16::from(address.number));
        }
        Address::Long(address) => {
            put_word(line, "l");
            put_bound_digits(line, address.number);
        }
    }
}

/// Appends the bytes as hex digits in lower case.
pub(crate) fn put_hex(line: &mut Line, bytes: &[u8])
    requires room { array_string_len line.old ≤ 28 }
    requires few { length bytes.now ≤ 6 }
    ensures { line.new.bytes ≡ line.old.bytes ++ encode_lower bytes.now }
{
    let mut digits = [0; 12];
    let digits = &mut digits[..2 * bytes.len()];
    hex::encode_to_slice(bytes, digits).unwrap();
    match str::from_utf8(digits) {
        Ok(text) => line.push_str(text),
        Err(_) => unreachable!(),
    }
}

/// Returns the word `f` if `forward` is true, otherwise `r`.
pub(crate) fn direction_word(forward: bool) -> &'static str
    ensures value { result.now ≡ direction_word forward }
    ensures len { length result.now ≡ 1 }
{
    if forward { "f" } else { "r" }
}

/// Returns the word `1` if `one` is true, otherwise `0`.
pub(crate) fn state_word(one: bool) -> &'static str
    ensures value { result.now ≡ state_word one }
    ensures len { length result.now ≡ 1 }
{
    if one { "1" } else { "0" }
}

/// Returns the word `on` if `on` is true, otherwise `off`.
pub(crate) fn switch_word(on: bool) -> &'static str
    ensures value { result.now ≡ switch_word on }
    ensures len { length result.now ≤ 3 }
{
    if on { "on" } else { "off" }
}

/// Returns the word of a function group: `0` for F1 to F4 and F0, otherwise the number of the first
/// function of the group.
pub(crate) fn group_word(group: Group) -> &'static str
    ensures value { result.now ≡ group_word group }
    ensures len { length result.now ≤ 2 }
{
    match group {
        Group::F0 => "0",
        Group::F5 => "5",
        Group::F9 => "9",
        Group::F13 => "13",
        Group::F21 => "21",
        Group::F29 => "29",
        Group::F37 => "37",
        Group::F45 => "45",
        Group::F53 => "53",
        Group::F61 => "61",
    }
}
