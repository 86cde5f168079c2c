//! Functions that write the plain words of a packet.
ghost use Rattle.std.specs.Prelude.{◌≡◌, ◌≤◌, ◌+◌, ◌++◌, ℕ, List, IfSome, length, codes, decimal};
ghost use Rattle.arrayvec.specs.ArrayVec.{array_vec_len};
ghost use Rattle.dcc_packet.specs.LineWords.{state_word, switch_word};
ghost use Rattle.dcc_plain.specs.PlainText.{IsPlainText, byte_words, may_be_register_mode, other_words, plain_words};
ghost use Rattle.dcc_plain.specs.Standard.{StandardFits};
ghost use Rattle.dcc_plain.specs.PlainWords.{address_words, accessory_words, broadcast28_words};
ghost use Rattle.dcc_plain.specs.PlainWords.{cv_bit_name};
ghost use Rattle.dcc_plain.specs.PlainWords.{cv_bit_verify_words, cv_bit_write_words, cv_name, cv_verify_words};
ghost use Rattle.dcc_plain.specs.PlainWords.{cv_write_words, direction_words, instruction_words};
ghost use Rattle.dcc_plain.specs.PlainWords.{service_words, signal_name, speed28_for, speed28_words};
ghost use Rattle.dcc_plain.specs.PlainWords.{speed128_words, state_words, turnout_words};

use crate::StandardPacket;
use crate::functions::append_group;
use crate::packet_from_bytes::standard_read;
use crate::standard_words::append_standard;
use crate::text::{PlainText, append, append_byte, append_hex, append_hex_words, append_number};
use dcc_packet::{Address, BitPlace, Board, CvNumber, Output, Packet, SignalAddress, What};
use dcc_service::ServicePacket;
use dcc_wire::Frame;

/// Returns the plain words of the packet that `frame` encodes. They have the speed steps, functions,
/// turnouts or CVs of the packet, for example `locomotive 3: step 1 of 28, forward`. A frame in no
/// row of the table of packets can be a service packet, and has the words of this packet, for example
/// `on a programming track: CV1 := 10`. It can also be a standard packet, for example `locomotive 3:
/// join consist 10`. Any other frame has its bytes, for example `frame 010203040501`.
pub fn plain_text(frame: &Frame) -> PlainText
    ensures text { IsPlainText frame.now result.items }
    ensures only { (text : List ℕ) → IsPlainText frame.now text → text ≡ result.items }
{
    let mut text = PlainText::new();
    put_plain_text(&mut text, frame);
    text
}

/// Replaces `text` by the plain words of the packet that `frame` encodes: `plain_text` for a caller
/// that has a text of its own, which saves the bytes of a second text on the stack.
pub fn put_plain_text(text: &mut PlainText, frame: &Frame)
    ensures text { IsPlainText frame.now text.new.items }
    ensures only { (words : List ℕ) → IsPlainText frame.now words → words ≡ text.new.items }
{
    put_words(text, frame);
}

/// Replaces `text` by the plain words of the packet that `frame` encodes.
fn put_words(text: &mut PlainText, frame: &Frame)
    ensures { IsPlainText frame.now text.new.items }
{
    let packet = Packet::read(frame);
    let service = ServicePacket::read(frame);
    let bytes = frame.bytes();
    let standard = standard_read(&bytes[..bytes.len() - 1]);
    text.clear();
    append_packet(text, &packet, &service, &standard);
}

/// Appends the plain words of the frame of `packet`. The parameters `service` and `standard` are the
/// service packet and the standard packet with the same frame, if there are such packets.
fn append_packet(
    text: &mut PlainText,
    packet: &Packet,
    service: &Option<ServicePacket>,
    standard: &Option<StandardPacket>,
)
    requires room { array_vec_len text.old + 242 ≤ 255 }
    requires fits { IfSome standard.now StandardFits }
    ensures items { text.new.items ≡ text.old.items ++ plain_words packet.now service.now standard.now }
{
    match packet {
        Packet::Idle => append(text, b"idle"),
        Packet::Loco { to, what } => {
            append_address(text, to);
            append(text, b": ");
            append_instruction(text, to, what);
        }
        Packet::Accessory { board, output, on } => append_accessory(text, board, output, *on),
        Packet::Signal { address, aspect } => append_signal(text, address, *aspect),
        Packet::Other(other) => match service {
            Some(access) => append_access(text, access),
            None => append_other(text, other.bytes(), standard),
        },
    }
}

/// Appends the words of a frame that is neither a packet of the table of packets nor a service packet.
/// The parameter `standard` is the standard packet with its bytes, if there is one.
pub(crate) fn append_other(text: &mut PlainText, frame: &[u8], standard: &Option<StandardPacket>)
    requires room { array_vec_len text.old + 242 ≤ 255 }
    requires some { 3 ≤ length frame.now }
    requires few { length frame.now ≤ 15 }
    requires fits { IfSome standard.now StandardFits }
    ensures items { text.new.items ≡ text.old.items ++ other_words frame.now standard.now }
{
    match standard {
        Some(packet) if !may_be_register_mode(frame) => append_standard(text, packet),
        _ => append_bytes(text, frame),
    }
}

/// Returns true if a decoder on a programming track may take `frame` for an instruction of register
/// mode.
fn may_be_register_mode(frame: &[u8]) -> bool
    ensures { result ≡ may_be_register_mode frame.now }
{
    frame.len() == 3 && frame[0] >= 112 && frame[0] <= 127
}

/// Appends the bytes of a frame that no row names.
fn append_bytes(text: &mut PlainText, frame: &[u8])
    requires room { array_vec_len text.old + 60 ≤ 255 }
    requires some { 3 ≤ length frame.now }
    requires few { length frame.now ≤ 15 }
    ensures items { text.new.items ≡ text.old.items ++ byte_words frame.now }
{
    match frame[0] {
        254 => {
            append(text, b"DCC-A:");
            append_hex_words(text, &frame[..frame.len() - 1][1..]);
        }
        253 => {
            append(text, b"extended:");
            append_hex_words(text, &frame[..frame.len() - 1][1..]);
        }
        _ => {
            append(text, b"frame ");
            append_hex(text, frame);
        }
    }
}

/// Appends the words of an address.
pub(crate) fn append_address(text: &mut PlainText, to: &Address)
    requires { array_vec_len text.old + 23 ≤ 255 }
    ensures items { text.new.items ≡ text.old.items ++ address_words to.now }
    ensures len { array_vec_len text.new ≤ array_vec_len text.old + 23 }
{
    match to {
        Address::Broadcast => append(text, b"all locomotives"),
        Address::Short(address) => {
            append(text, b"locomotive ");
            append_byte(text, address.number());
        }
        Address::Long(address) => {
            append(text, b"locomotive ");
            append_number(text, address.number());
            append(text, b" (long)");
        }
    }
}

/// Appends the words of an instruction to the address `to`.
pub(crate) fn append_instruction(text: &mut PlainText, to: &Address, what: &What)
    requires { array_vec_len text.old + 71 ≤ 255 }
    ensures items { text.new.items ≡ text.old.items ++ instruction_words to.now what.now }
    ensures len { array_vec_len text.new ≤ array_vec_len text.old + 71 }
{
    match what {
        What::Reset => append(text, b"stop, everything off"),
        What::Speed28 { forward, bits } => append_speed28(text, to, *forward, bits.bits()),
        What::Speed128 { forward, bits } => append_speed128(text, *forward, bits.bits()),
        What::Functions(functions) => append_group(text, functions),
        What::BinaryState { number, on } => append_state(text, u16::from(number.number()), *on),
        What::CvWrite { cv, value } => append_cv_write(text, cv, *value),
        What::CvVerify { cv, value } => append_cv_verify(text, cv, *value),
        What::CvBitWrite { cv, place, one } => append_cv_bit_write(text, cv, place, *one),
        What::CvBitVerify { cv, place, one } => append_cv_bit_verify(text, cv, place, *one),
    }
}

/// Appends the words of a speed in 28 steps.
fn append_speed28(text: &mut PlainText, to: &Address, forward: bool, bits: u8)
    requires { array_vec_len text.old + 30 ≤ 255 }
    ensures items { text.new.items ≡ text.old.items ++ speed28_for to.now forward bits }
    ensures len { array_vec_len text.new ≤ array_vec_len text.old + 30 }
{
    match to {
        Address::Broadcast => append_broadcast28(text, forward, bits),
        _ => {
            append_step28(text, bits);
            append_direction(text, forward);
        }
    }
}

/// Appends the words of a speed in 28 steps to all locomotives.
fn append_broadcast28(text: &mut PlainText, forward: bool, bits: u8)
    requires { array_vec_len text.old + 30 ≤ 255 }
    ensures items { text.new.items ≡ text.old.items ++ broadcast28_words forward bits }
    ensures len { array_vec_len text.new ≤ array_vec_len text.old + 30 }
{
    match bits {
        1 | 3 => append_step28(text, bits),
        0 | 2 => {
            append_step28(text, bits);
            append_direction(text, forward);
        }
        _ => append(text, b"nothing to do"),
    }
}

/// Appends the words of the five speed bits of 28 steps.
fn append_step28(text: &mut PlainText, bits: u8)
    requires { array_vec_len text.old + 21 ≤ 255 }
    ensures items { text.new.items ≡ text.old.items ++ speed28_words bits }
    ensures len { array_vec_len text.new ≤ array_vec_len text.old + 21 }
{
    match bits {
        0 | 1 => append(text, b"stop"),
        2 | 3 => append(text, b"emergency stop"),
        _ => {
            append(text, b"step ");
            append_byte(text, bits - 3);
            append(text, b" of 28");
        }
    }
}

/// Appends the words of a speed in 128 steps.
fn append_speed128(text: &mut PlainText, forward: bool, bits: u8)
    requires { array_vec_len text.old + 31 ≤ 255 }
    ensures items { text.new.items ≡ text.old.items ++ speed128_words bits ++ codes ", " ++ direction_words forward }
    ensures len { array_vec_len text.new ≤ array_vec_len text.old + 31 }
{
    append_step128(text, bits);
    append_direction(text, forward);
}

/// Appends the words of the seven speed bits of 128 steps.
pub(crate) fn append_step128(text: &mut PlainText, bits: u8)
    requires { array_vec_len text.old + 15 ≤ 255 }
    ensures items { text.new.items ≡ text.old.items ++ speed128_words bits }
    ensures len { array_vec_len text.new ≤ array_vec_len text.old + 15 }
{
    match bits {
        0 => append(text, b"stop"),
        1 => append(text, b"emergency stop"),
        _ => {
            append(text, b"step ");
            append_byte(text, bits - 1);
            append(text, b" of 126");
        }
    }
}

/// Appends a comma, a space and the word of a direction.
pub(crate) fn append_direction(text: &mut PlainText, forward: bool)
    requires { array_vec_len text.old + 9 ≤ 255 }
    ensures items { text.new.items ≡ text.old.items ++ codes ", " ++ direction_words forward }
    ensures len { array_vec_len text.new ≡ array_vec_len text.old + 9 }
{
    if forward {
        append(text, b", forward");
    } else {
        append(text, b", reverse");
    }
}

/// Appends the words of a binary state, with a space and `on` or `off`.
pub(crate) fn append_state(text: &mut PlainText, number: u16, on: bool)
    requires { array_vec_len text.old + 27 ≤ 255 }
    ensures items { text.new.items ≡ text.old.items ++ state_words number ++ codes " " ++ switch_word on }
    ensures len { array_vec_len text.new ≤ array_vec_len text.old + 27 }
{
    if number == 0 {
        append(text, b"all binary states");
    } else {
        append(text, b"binary state ");
        append_number(text, number);
    }
    append_switch(text, on);
}

/// Appends a space and the word `on` or `off`.
pub(crate) fn append_switch(text: &mut PlainText, on: bool)
    requires { array_vec_len text.old + 4 ≤ 255 }
    ensures items { text.new.items ≡ text.old.items ++ codes " " ++ switch_word on }
    ensures len { array_vec_len text.new ≤ array_vec_len text.old + 4 }
{
    if on {
        append(text, b" on");
    } else {
        append(text, b" off");
    }
}

/// Appends the words of a packet that switches an output.
fn append_accessory(text: &mut PlainText, board: &Board, output: &Output, on: bool)
    requires { array_vec_len text.old + 60 ≤ 255 }
    ensures items { text.new.items ≡ text.old.items ++ accessory_words board.now output.now on }
    ensures len { array_vec_len text.new ≤ array_vec_len text.old + 60 }
{
    append(text, b"board ");
    append_number(text, board.number());
    append(text, b", output ");
    append_byte(text, output.number());
    append_switch(text, on);
    append_turnout(text, board.number(), output.number());
}

/// Appends the words of the turnout of an output. Board 0 has no turnout.
fn append_turnout(text: &mut PlainText, board: u16, output: u8)
    requires room { array_vec_len text.old + 20 ≤ 255 }
    requires board { board ≤ 511 }
    requires output { output ≤ 7 }
    ensures items { text.new.items ≡ text.old.items ++ turnout_words board output }
    ensures len { array_vec_len text.new ≤ array_vec_len text.old + 20 }
{
    match board {
        0 => (),
        511 => append(text, b", all boards"),
        _ => {
            append(text, b", turnout ");
            append_number(text, 4 * (board - 1) + u16::from(output / 2) + 1);
        }
    }
}

/// Appends the words of a packet that sets a signal.
fn append_signal(text: &mut PlainText, address: &SignalAddress, aspect: u8)
    requires { array_vec_len text.old + 36 ≤ 255 }
    ensures items { text.new.items
        ≡ text.old.items ++ signal_name address.now.number ++ codes ": aspect " ++ decimal aspect }
    ensures len { array_vec_len text.new ≤ array_vec_len text.old + 36 }
{
    append_signal_name(text, address);
    append(text, b": aspect ");
    append_byte(text, aspect);
}

/// Appends the name of a signal.
pub(crate) fn append_signal_name(text: &mut PlainText, address: &SignalAddress)
    requires { array_vec_len text.old + 12 ≤ 255 }
    ensures items { text.new.items ≡ text.old.items ++ signal_name address.now.number }
    ensures len { array_vec_len text.new ≤ array_vec_len text.old + 12 }
{
    if address.number() == 2047 {
        append(text, b"all signals");
    } else {
        append(text, b"signal ");
        append_number(text, address.number());
    }
}

/// Appends the words of a service packet.
fn append_access(text: &mut PlainText, access: &ServicePacket)
    requires { array_vec_len text.old + 60 ≤ 255 }
    ensures items { text.new.items
        ≡ text.old.items ++ codes "on a programming track: " ++ service_words access.now }
    ensures len { array_vec_len text.new ≤ array_vec_len text.old + 60 }
{
    append(text, b"on a programming track: ");
    match access {
        ServicePacket::Write { cv, value } => append_cv_write(text, cv, *value),
        ServicePacket::Verify { cv, value } => append_cv_verify(text, cv, *value),
        ServicePacket::BitWrite { cv, place, one } => append_cv_bit_write(text, cv, place, *one),
        ServicePacket::BitVerify { cv, place, one } => append_cv_bit_verify(text, cv, place, *one),
    }
}

/// Appends the name of a CV.
fn append_cv(text: &mut PlainText, cv: &CvNumber)
    requires { array_vec_len text.old + 12 ≤ 255 }
    ensures items { text.new.items ≡ text.old.items ++ cv_name cv.now }
    ensures len { array_vec_len text.new ≤ array_vec_len text.old + 12 }
{
    append(text, b"CV");
    append_number(text, cv.number());
}

/// Appends the name of a bit of a CV.
fn append_cv_bit(text: &mut PlainText, cv: &CvNumber, place: &BitPlace)
    requires { array_vec_len text.old + 30 ≤ 255 }
    ensures items { text.new.items ≡ text.old.items ++ cv_bit_name cv.now place.now }
    ensures len { array_vec_len text.new ≤ array_vec_len text.old + 30 }
{
    append(text, b"bit ");
    append_byte(text, place.place());
    append(text, b" of ");
    append_cv(text, cv);
}

/// Appends the words of a write of a byte to a CV.
fn append_cv_write(text: &mut PlainText, cv: &CvNumber, value: u8)
    requires { array_vec_len text.old + 36 ≤ 255 }
    ensures items { text.new.items ≡ text.old.items ++ cv_write_words cv.now value }
    ensures len { array_vec_len text.new ≤ array_vec_len text.old + 36 }
{
    append_cv(text, cv);
    append(text, b" := ");
    append_byte(text, value);
}

/// Appends the words of a comparison of a CV with a byte.
fn append_cv_verify(text: &mut PlainText, cv: &CvNumber, value: u8)
    requires { array_vec_len text.old + 36 ≤ 255 }
    ensures items { text.new.items ≡ text.old.items ++ cv_verify_words cv.now value }
    ensures len { array_vec_len text.new ≤ array_vec_len text.old + 36 }
{
    append(text, b"is ");
    append_cv(text, cv);
    append(text, b" ");
    append_byte(text, value);
    append(text, b"?");
}

/// Appends the words of a write of a bit to a CV.
fn append_cv_bit_write(text: &mut PlainText, cv: &CvNumber, place: &BitPlace, one: bool)
    requires { array_vec_len text.old + 36 ≤ 255 }
    ensures items { text.new.items ≡ text.old.items ++ cv_bit_write_words cv.now place.now one }
    ensures len { array_vec_len text.new ≤ array_vec_len text.old + 36 }
{
    append_cv_bit(text, cv, place);
    append(text, b" := ");
    append(text, bit_digit(one));
}

/// Appends the words of a comparison of a bit of a CV with a value.
fn append_cv_bit_verify(text: &mut PlainText, cv: &CvNumber, place: &BitPlace, one: bool)
    requires { array_vec_len text.old + 36 ≤ 255 }
    ensures items { text.new.items ≡ text.old.items ++ cv_bit_verify_words cv.now place.now one }
    ensures len { array_vec_len text.new ≤ array_vec_len text.old + 36 }
{
    append(text, b"is ");
    append_cv_bit(text, cv, place);
    append(text, b" ");
    append(text, bit_digit(one));
    append(text, b"?");
}

/// Returns the digit `1` if `one` is true, otherwise `0`.
pub(crate) fn bit_digit(one: bool) -> &'static [u8]
    ensures value { result.now ≡ state_word one }
    ensures len { length result.now ≡ 1 }
{
    if one { b"1" } else { b"0" }
}
