//! Functions that write the plain words of standard packets.
ghost use Rattle.std.specs.Prelude.{◌≡◌, ◌≤◌, ◌<◌, ◌+◌, ◌*◌, ◌++◌, ◌∷◌, [], length, codes, decimal, if◌then◌else◌};
ghost use Rattle.arrayvec.specs.ArrayVec.{array_vec_len};
ghost use Rattle.dcc_packet.specs.LineWords.{state_word};
ghost use Rattle.dcc_packet.specs.Rows.{bit};
ghost use Rattle.dcc_plain.specs.Standard.{StandardFits, WhatFits, what_bytes};
ghost use Rattle.dcc_plain.specs.StandardWords.{board_words, clock_words, consist_words, dashed_words, factor_words};
ghost use Rattle.dcc_plain.specs.StandardWords.{function_bits, function_count, hex_words, join_words, output_words};
ghost use Rattle.dcc_plain.specs.StandardWords.{standard_words, time_words, two_digits, value_words, weekday_words};
ghost use Rattle.dcc_plain.specs.StandardWords.{what_words};

use crate::bits::bit;
use crate::functions::append_functions;
use crate::text::{PlainText, append, append_byte, append_hex_words, append_long, append_number};
use crate::words::{
    append_address, append_direction, append_instruction, append_signal_name, append_state,
    append_step128, append_switch, bit_digit,
};
use crate::{FewBytes, StandardPacket, StandardWhat};
use dcc_packet::{Address, BitPlace, Output, SpeedBits128};

/// Appends the plain words of a standard packet.
pub(crate) fn append_standard(text: &mut PlainText, packet: &StandardPacket)
    requires room { array_vec_len text.old + 242 ≤ 255 }
    requires fits { StandardFits packet.now }
    ensures items { text.new.items ≡ text.old.items ++ standard_words packet.now }
    ensures len { array_vec_len text.new ≤ array_vec_len text.old + 242 }
{
    match packet {
        StandardPacket::Loco { to, what } => {
            append_address(text, to);
            append(text, b": ");
            append_what(text, what);
        }
        StandardPacket::ModelTime {
            minute,
            weekday,
            hour,
            is_set,
            factor,
        } => append_time(text, *minute, *weekday, *hour, *is_set, *factor),
        StandardPacket::ModelDate { day, month, year } => append_date(text, *day, *month, *year),
        StandardPacket::SystemTime { milliseconds } => {
            append(text, b"system time: ");
            append_number(text, *milliseconds);
            append(text, b" ms");
        }
        StandardPacket::BoardNothing { board, pair } => {
            append_pair(text, board.number(), *pair);
            append(text, b": nothing to do");
        }
        StandardPacket::SignalNothing { address } => {
            append_signal_name(text, address);
            append(text, b": nothing to do");
        }
        StandardPacket::BoardCv {
            board,
            output,
            access,
        } => {
            append_output(text, board.number(), output);
            append(text, b": ");
            append_instruction(text, &Address::Broadcast, access);
        }
        StandardPacket::SignalCv { address, access } => {
            append_signal_name(text, address);
            append(text, b": ");
            append_instruction(text, &Address::Broadcast, access);
        }
    }
}

/// Appends the words of an instruction to locomotive decoders.
fn append_what(text: &mut PlainText, what: &StandardWhat)
    requires room { array_vec_len text.old + 217 ≤ 255 }
    requires fits { WhatFits what.now }
    ensures items { text.new.items ≡ text.old.items ++ what_words what.now }
    ensures len { array_vec_len text.new ≤ array_vec_len text.old + 217 }
{
    match what {
        StandardWhat::HardReset => append(text, b"hard reset"),
        StandardWhat::FactoryTest {
            upper,
            first,
            second,
        } => append_factory_test(text, *upper, *first, second),
        StandardWhat::DecoderFlags { upper, flags } => append_flags(text, *upper, *flags),
        StandardWhat::LongAddressUse { on } => append_address_use(text, *on),
        StandardWhat::Acknowledge => append(text, b"acknowledge"),
        StandardWhat::Consist { number, reversed } => append_consist(text, *number, *reversed),
        StandardWhat::Combined {
            forward,
            speed,
            functions,
        } => append_combined(text, *forward, speed, functions),
        StandardWhat::Analog { output, value } => append_analog(text, *output, *value),
        StandardWhat::OperatingModes { modes } => append_modes(text, *modes),
        StandardWhat::LongState { number, on } => append_state(text, *number, *on),
        StandardWhat::ShortCv { is_24, value } => append_short_cv(text, *is_24, *value),
        StandardWhat::ExtendedRead { cv, .. } => {
            append(text, b"extended read of CV");
            append_long(text, *cv);
        }
        StandardWhat::ExtendedWrite { cv, values, .. } => append_extended_write(text, *cv, values),
        StandardWhat::ExtendedBitWrite { cv, place, one, .. } => {
            append_extended_bit(text, *cv, place, *one)
        }
    }
}

/// Appends the words of decoder flags, with their bytes.
fn append_flags(text: &mut PlainText, upper: bool, flags: u8)
    requires { array_vec_len text.old + 19 ≤ 255 }
    ensures items { text.new.items
        ≡ text.old.items ++ codes "decoder flags" ++ hex_words ((6 + bit upper) ∷ flags ∷ []) }
    ensures len { array_vec_len text.new ≤ array_vec_len text.old + 19 }
{
    append(text, b"decoder flags");
    append_hex_words(text, &[6 + bit(upper), flags]);
}

/// Appends the words of an instruction that sets bit 5 of CV29.
fn append_address_use(text: &mut PlainText, on: bool)
    requires { array_vec_len text.old + 34 ≤ 255 }
    ensures items { text.new.items ≡ text.old.items ++ what_words (StandardWhat.LongAddressUse on) }
    ensures len { array_vec_len text.new ≤ array_vec_len text.old + 34 }
{
    if on {
        append(text, b"bit 5 of CV29 := 1 (long address)");
    } else {
        append(text, b"bit 5 of CV29 := 0 (short address)");
    }
}

/// Appends the words of an analog output.
fn append_analog(text: &mut PlainText, output: u8, value: u8)
    requires { array_vec_len text.old + 24 ≤ 255 }
    ensures items { text.new.items
        ≡ text.old.items ++ codes "analog output " ++ decimal output ++ codes " at " ++ decimal value }
    ensures len { array_vec_len text.new ≤ array_vec_len text.old + 24 }
{
    append(text, b"analog output ");
    append_byte(text, output);
    append(text, b" at ");
    append_byte(text, value);
}

/// Appends the words of special operating modes, with their byte.
fn append_modes(text: &mut PlainText, modes: u8)
    requires { array_vec_len text.old + 18 ≤ 255 }
    ensures items { text.new.items ≡ text.old.items ++ codes "operating modes" ++ hex_words (modes ∷ []) }
    ensures len { array_vec_len text.new ≤ array_vec_len text.old + 18 }
{
    append(text, b"operating modes");
    append_hex_words(text, &[modes]);
}

/// Appends the words of an extended write of one to four CVs.
fn append_extended_write(text: &mut PlainText, cv: u32, values: &FewBytes)
    requires room { array_vec_len text.old + 48 ≤ 255 }
    requires cv { cv < 100000000 }
    ensures items { text.new.items
        ≡ text.old.items ++ codes "extended write of CV" ++ decimal cv ++ codes ": " ++ value_words values.now }
    ensures len { array_vec_len text.new ≤ array_vec_len text.old + 48 }
{
    append(text, b"extended write of CV");
    append_long(text, cv);
    append(text, b": ");
    append_values(text, values);
}

/// Appends the words of an extended write of a bit.
fn append_extended_bit(text: &mut PlainText, cv: u32, place: &BitPlace, one: bool)
    requires room { array_vec_len text.old + 46 ≤ 255 }
    requires cv { cv < 100000000 }
    ensures items { text.new.items
        ≡ text.old.items ++ codes "extended bit write: bit " ++ decimal place.now.place ++ codes " of CV" ++ decimal cv
        ++ codes " := " ++ state_word one }
    ensures len { array_vec_len text.new ≤ array_vec_len text.old + 46 }
{
    append(text, b"extended bit write: bit ");
    append_byte(text, place.place());
    append(text, b" of CV");
    append_long(text, cv);
    append(text, b" := ");
    append(text, bit_digit(one));
}

/// Appends the words of a factory test, with its bytes.
fn append_factory_test(text: &mut PlainText, upper: bool, first: u8, second: &Option<u8>)
    requires { array_vec_len text.old + 21 ≤ 255 }
    ensures items { text.new.items ≡ text.old.items ++ codes "factory test"
        ++ hex_words (what_bytes (StandardWhat.FactoryTest upper first second.now)) }
    ensures len { array_vec_len text.new ≤ array_vec_len text.old + 21 }
{
    append(text, b"factory test");
    match second {
        Some(second) => append_hex_words(text, &[2 + bit(upper), first, *second]),
        None => append_hex_words(text, &[2 + bit(upper), first]),
    }
}

/// Appends the words of a consist control.
fn append_consist(text: &mut PlainText, number: u8, reversed: bool)
    requires { array_vec_len text.old + 26 ≤ 255 }
    ensures items { text.new.items ≡ text.old.items ++ consist_words number reversed }
    ensures len { array_vec_len text.new ≤ array_vec_len text.old + 26 }
{
    if number == 0 {
        append(text, b"leave the consist");
    } else {
        append_join(text, number, reversed);
    }
}

/// Appends the words of an instruction to join a consist.
fn append_join(text: &mut PlainText, number: u8, reversed: bool)
    requires { array_vec_len text.old + 26 ≤ 255 }
    ensures items { text.new.items ≡ text.old.items ++ join_words number reversed }
    ensures len { array_vec_len text.new ≤ array_vec_len text.old + 26 }
{
    append(text, b"join consist ");
    append_byte(text, number);
    append_if(text, reversed, b", reversed");
}

/// Appends `words` if `is` is true.
fn append_if(text: &mut PlainText, is: bool, words: &[u8])
    requires { array_vec_len text.old + length words.now ≤ 255 }
    ensures items { text.new.items ≡ text.old.items ++ (if is then words.now else []) }
    ensures len { array_vec_len text.new ≤ array_vec_len text.old + length words.now }
{
    if is {
        append(text, words);
    }
}

/// Appends the words of a speed, a direction and functions.
fn append_combined(text: &mut PlainText, forward: bool, speed: &SpeedBits128, functions: &FewBytes)
    requires { array_vec_len text.old + 217 ≤ 255 }
    ensures items { text.new.items
        ≡ text.old.items ++ what_words (StandardWhat.Combined forward speed.now functions.now) }
    ensures len { array_vec_len text.new ≤ array_vec_len text.old + 217 }
{
    append_step128(text, speed.bits());
    append_direction(text, forward);
    append(text, b"; ");
    append_functions(text, 0, function_count(functions), function_bits(functions));
}

/// Returns the number of functions in `functions`.
fn function_count(functions: &FewBytes) -> u8
    ensures value { result ≡ function_count functions.now }
    ensures least { 1 ≤ result }
    ensures most { result ≤ 32 }
{
    match functions {
        FewBytes::One(..) => 8,
        FewBytes::Two(..) => 16,
        FewBytes::Three(..) => 24,
        FewBytes::Four(..) => 32,
    }
}

/// Returns the bits of `functions`, with the first function in the lowest bit.
fn function_bits(functions: &FewBytes) -> u32
    ensures { result ≡ function_bits functions.now }
{
    match functions {
        FewBytes::One(a) => u32::from(*a),
        FewBytes::Two(a, b) => u32::from(*a) + 256 * u32::from(*b),
        FewBytes::Three(a, b, c) => u32::from(*a) + 256 * u32::from(*b) + 65536 * u32::from(*c),
        FewBytes::Four(a, b, c, d) => {
            u32::from(*a) + 256 * u32::from(*b) + 65536 * u32::from(*c) + 16777216 * u32::from(*d)
        }
    }
}

/// Appends the words of a write to CV23 or CV24.
fn append_short_cv(text: &mut PlainText, is_24: bool, value: u8)
    requires { array_vec_len text.old + 11 ≤ 255 }
    ensures items { text.new.items ≡ text.old.items ++ what_words (StandardWhat.ShortCv is_24 value) }
    ensures len { array_vec_len text.new ≤ array_vec_len text.old + 11 }
{
    if is_24 {
        append(text, b"CV24 := ");
    } else {
        append(text, b"CV23 := ");
    }
    append_byte(text, value);
}

/// Appends one to four numbers, with a comma and a space between every two.
fn append_values(text: &mut PlainText, values: &FewBytes)
    requires { array_vec_len text.old + 18 ≤ 255 }
    ensures items { text.new.items ≡ text.old.items ++ value_words values.now }
    ensures len { array_vec_len text.new ≤ array_vec_len text.old + 18 }
{
    match values {
        FewBytes::One(a) => append_byte(text, *a),
        FewBytes::Two(a, b) => {
            append_byte(text, *a);
            append_next(text, *b);
        }
        FewBytes::Three(a, b, c) => {
            append_byte(text, *a);
            append_next(text, *b);
            append_next(text, *c);
        }
        FewBytes::Four(a, b, c, d) => {
            append_byte(text, *a);
            append_next(text, *b);
            append_next(text, *c);
            append_next(text, *d);
        }
    }
}

/// Appends a comma, a space and a number.
fn append_next(text: &mut PlainText, number: u8)
    requires { array_vec_len text.old + 5 ≤ 255 }
    ensures items { text.new.items ≡ text.old.items ++ codes ", " ++ decimal number }
    ensures len { array_vec_len text.new ≤ array_vec_len text.old + 5 }
{
    append(text, b", ");
    append_byte(text, number);
}

/// Appends the words of a model time.
fn append_time(text: &mut PlainText, minute: u8, weekday: u8, hour: u8, is_set: bool, factor: u8)
    requires { array_vec_len text.old + 60 ≤ 255 }
    ensures items { text.new.items ≡ text.old.items ++ time_words minute weekday hour is_set factor }
    ensures len { array_vec_len text.new ≤ array_vec_len text.old + 60 }
{
    append(text, b"model time: ");
    append(text, weekday_words(weekday));
    append_clock(text, hour, minute);
    append_factor(text, factor, is_set);
}

/// Appends an hour and a minute, with a colon between them.
fn append_clock(text: &mut PlainText, hour: u8, minute: u8)
    requires { array_vec_len text.old + 13 ≤ 255 }
    ensures items { text.new.items ≡ text.old.items ++ clock_words hour minute }
    ensures len { array_vec_len text.new ≤ array_vec_len text.old + 13 }
{
    append_two_digits(text, hour);
    append(text, b":");
    append_two_digits(text, minute);
}

/// Appends the factor of a model time, and whether the time was set.
fn append_factor(text: &mut PlainText, factor: u8, is_set: bool)
    requires { array_vec_len text.old + 17 ≤ 255 }
    ensures items { text.new.items ≡ text.old.items ++ factor_words factor is_set }
    ensures len { array_vec_len text.new ≤ array_vec_len text.old + 17 }
{
    append(text, b", factor ");
    append_byte(text, factor);
    append_if(text, is_set, b", set");
}

/// Returns the name of a weekday and a space, or nothing if `day` is no weekday.
fn weekday_words(day: u8) -> &'static [u8]
    ensures value { result.now ≡ weekday_words day }
    ensures len { length result.now ≤ 10 }
{
    match day {
        0 => b"Monday ",
        1 => b"Tuesday ",
        2 => b"Wednesday ",
        3 => b"Thursday ",
        4 => b"Friday ",
        5 => b"Saturday ",
        6 => b"Sunday ",
        _ => b"",
    }
}

/// Appends the words of a model date.
fn append_date(text: &mut PlainText, day: u8, month: u8, year: u16)
    requires { array_vec_len text.old + 60 ≤ 255 }
    ensures items { text.new.items
        ≡ text.old.items ++ codes "model date: " ++ decimal year ++ dashed_words month ++ dashed_words day }
    ensures len { array_vec_len text.new ≤ array_vec_len text.old + 60 }
{
    append(text, b"model date: ");
    append_number(text, year);
    append_dashed(text, month);
    append_dashed(text, day);
}

/// Appends a dash and the two decimal digits of a number below 100.
fn append_dashed(text: &mut PlainText, number: u8)
    requires { array_vec_len text.old + 7 ≤ 255 }
    ensures items { text.new.items ≡ text.old.items ++ dashed_words number }
    ensures len { array_vec_len text.new ≤ array_vec_len text.old + 7 }
{
    append(text, b"-");
    append_two_digits(text, number);
}

/// Appends the two decimal digits of a number below 100.
fn append_two_digits(text: &mut PlainText, number: u8)
    requires { array_vec_len text.old + 6 ≤ 255 }
    ensures items { text.new.items ≡ text.old.items ++ two_digits number }
    ensures len { array_vec_len text.new ≤ array_vec_len text.old + 6 }
{
    append_byte(text, number / 10);
    append_byte(text, number % 10);
}

/// Appends the words of a pair of outputs of a board.
fn append_pair(text: &mut PlainText, board: u16, pair: u8)
    requires { array_vec_len text.old + 40 ≤ 255 }
    ensures items { text.new.items ≡ text.old.items ++ board_words board (codes ", pair " ++ decimal pair) }
    ensures len { array_vec_len text.new ≤ array_vec_len text.old + 40 }
{
    append(text, b"board ");
    append_number(text, board);
    append(text, b", pair ");
    append_byte(text, pair);
    append_if(text, board == 511, b", all boards");
}

/// Appends the words of a board or of an output of a board.
fn append_output(text: &mut PlainText, board: u16, output: &Option<Output>)
    requires { array_vec_len text.old + 40 ≤ 255 }
    ensures items { text.new.items ≡ text.old.items ++ board_words board (output_words output.now) }
    ensures len { array_vec_len text.new ≤ array_vec_len text.old + 40 }
{
    append(text, b"board ");
    append_number(text, board);
    if let Some(output) = output {
        append(text, b", output ");
        append_byte(text, output.number());
    }
    append_if(text, board == 511, b", all boards");
}
