//! Functions that parse the words of the lines of a decoder text.
ghost use Rattle.std.specs.Prelude.{◌≡◌, ◌+◌, ◌^◌, ◌%◌, ◌≤◌, ◌<◌, ◌&&◌, Some, true, IfOk, OnOk};
ghost use Rattle.dcc_regs.specs.declared.register.Who.TheVariants.{Loco as LocoWho};
ghost use Rattle.dcc_regs.specs.Addresses.{is_active};
ghost use Rattle.dcc_regs.specs.Heard.{hears as hears_packet};
ghost use Rattle.dcc_regs.specs.Loco.{is_speed, is_byte_write, is_pending_for};
ghost use Rattle.dcc_regs.specs.Writes.{is_own_write};
ghost use Rattle.dcc_saved.specs.DecoderLines.{in_order, version_number, own_address};
ghost use Rattle.dcc_saved.specs.DecoderLines.{parse_step};
ghost use Rattle.dcc_saved.specs.DecoderLines.{speed_of, speed_after, function_number, binary_state};
ghost use Rattle.dcc_saved.specs.DecoderLines.{number_word_of, numbers_from, pending_word};
ghost use Rattle.dcc_saved.specs.DecoderLines.{cv_words};
ghost use Rattle.dcc_saved.specs.Numbered.{end_of};
ghost use Rattle.dcc_saved.specs.Inner.DecoderWords.{TakesKeyword, TakesSpeed};
ghost use Rattle.dcc_packet.specs.Fields.{word_and_rest, ParsesAs};
ghost use Rattle.dcc_saved.specs.PendingWrite.{pending_write};
ghost use Rattle.dcc_saved.specs.PossibleLines.{IsSoundLine};

use crate::decoder_line::{LocoLine, Numbered, Version};
use dcc_packet::field::Field;
use dcc_packet::line_word::{address, hex_frame};
use dcc_packet::numeral::small_number;
use dcc_packet::words::Words;
use dcc_packet::{Address, CvNumber, Output, Packet, PacketFault};
use dcc_regs::{Speed, Who, hears, is_own_write};
use dcc_wire::Frame;

/// Removes the first word of a line.
///
/// Errors: P10 if the word is not the keyword `name`, or if no word is left.
pub(crate) fn take_keyword(words: &mut Words, name: &[u8]) -> Result<(), PacketFault>
    ensures { TakesKeyword name.now words.old result words.new }
{
    let word = words.word()?;
    if word == name {
        Ok(())
    } else {
        Err(PacketFault::Word)
    }
}

/// Returns Ok if `n` is at least `least`. The numbers in a line must be in ascending order.
///
/// Errors: P10 if `n` is below `least`.
fn in_order(least: u16, n: u16) -> Result<(), PacketFault>
    ensures is { result ≡ in_order least n }
    ensures ascends { OnOk result (least ≤ n) }
{
    if n < least {
        Err(PacketFault::Word)
    } else {
        Ok(())
    }
}

/// Returns the version that the word `1` or `2` names.
///
/// Errors: P10 for any other word.
pub(crate) fn version_number(word: &[u8]) -> Result<Version, PacketFault>
    ensures { result ≡ version_number word.now }
{
    match word {
        b"1" => Ok(Version::One),
        b"2" => Ok(Version::Two),
        _ => Err(PacketFault::Word),
    }
}

/// Returns the active address of a locomotive decoder. Returns `None` for the word `none`.
///
/// Errors: P10 if the word is `all` or no address, P11 if the number is malformed or too large, P1
/// or P2 if the address is out of range.
pub fn own_address(word: &[u8]) -> Result<Option<Address>, PacketFault>
    ensures is { result ≡ own_address word.now }
    ensures active { IfOk result (λ active. is_active active ≡ true) }
{
    if word == b"none".as_slice() {
        Ok(None)
    } else if word == b"all".as_slice() {
        Err(PacketFault::Word)
    } else {
        Ok(Some(address(word)?))
    }
}

/// Returns the speed step that a word means, from 1 to `last`.
///
/// Errors: P11 if the word is no number or a number above 255, P13 if the step is not 1 to `last`.
fn parse_step(last: u8, word: &[u8]) -> Result<u8, PacketFault>
    ensures is { result ≡ parse_step last word.now }
    ensures step { IfOk result (λ step. (1 ≤ step) × (step ≤ last)) }
{
    let step = small_number(word)?;
    if step < 1 || last < step {
        Err(PacketFault::State)
    } else {
        Ok(step)
    }
}

/// Removes the next word and returns the speed step that the word means, from 1 to `last`.
fn take_step(words: &mut Words, last: u8) -> Result<u8, PacketFault>
    ensures is { ParsesAs (word_and_rest (parse_step last) words.old) result words.new }
    ensures step { IfOk result (λ step. (1 ≤ step) × (step ≤ last)) }
{
    parse_step(last, words.word()?)
}

fn speed_after(word: &[u8], rest: &mut Words) -> Result<Speed, PacketFault>
    ensures is { TakesSpeed (speed_after word.now rest.old) result rest.new }
    ensures possible { IfOk result (λ speed. is_speed speed ≡ true) }
{
    if word == b"stop".as_slice() {
        Ok(Speed::Stop)
    } else if word == b"emergency".as_slice() {
        Ok(Speed::Emergency)
    } else if word == b"14".as_slice() {
        Ok(Speed::Step14(take_step(rest, 14)?))
    } else if word == b"28".as_slice() {
        Ok(Speed::Step28(take_step(rest, 28)?))
    } else if word == b"126".as_slice() {
        Ok(Speed::Step126(take_step(rest, 126)?))
    } else {
        Err(PacketFault::Word)
    }
}

/// Removes the words of a speed and returns this speed.
pub(crate) fn take_speed(words: &mut Words) -> Result<Speed, PacketFault>
    ensures is { TakesSpeed (speed_of words.old) result words.new }
    ensures possible { IfOk result (λ speed. is_speed speed ≡ true) }
{
    let word = words.word()?;
    speed_after(word, words)
}

/// Returns the number of a function of a locomotive decoder, 0 to 68.
///
/// Errors: P11 if the word is no number or a number above 255, P13 if the number is above 68.
fn function_number(word: &[u8]) -> Result<u8, PacketFault>
    ensures is { result ≡ function_number word.now }
    ensures range { IfOk result (λ n. n ≤ 68) }
{
    let n = small_number(word)?;
    if 68 < n {
        Err(PacketFault::State)
    } else {
        Ok(n)
    }
}

/// Returns the number of a binary state of a locomotive decoder, 1 to 127.
///
/// Errors: P11 if the word is no number or a number above 255, P14 if the number is not 1 to 127.
fn binary_state(word: &[u8]) -> Result<u8, PacketFault>
    ensures is { result ≡ binary_state word.now }
    ensures state { IfOk result (λ n. (1 ≤ n) × (n ≤ 127)) }
{
    let n = small_number(word)?;
    if n < 1 || 127 < n {
        Err(PacketFault::StateNumber)
    } else {
        Ok(n)
    }
}

fn number(numbered: Numbered, word: &[u8]) -> Result<u8, PacketFault>
    ensures is { result ≡ number_word_of numbered word.now }
    ensures range { IfOk result (λ n. n < end_of numbered) }
    ensures some { numbered ≡ Numbered.State → IfOk result (λ n. 1 ≤ n) }
{
    match numbered {
        Numbered::Function => function_number(word),
        Numbered::State => binary_state(word),
        Numbered::Out => Ok(small_number(word).and_then(Output::new)?.number()),
    }
}

pub(crate) fn numbers_from(
    words: &mut Words,
    numbered: Numbered,
    least: u8,
) -> Result<u128, PacketFault>
    requires { least ≤ end_of numbered }
    ensures is { result ≡ numbers_from numbered least words.old }
    ensures fits { IfOk result (λ bits. bits + 2 ^ least ≤ 2 ^ end_of numbered) }
    ensures even { numbered ≡ Numbered.State → IfOk result (λ bits. bits % 2 ≡ 0) }
{
    match words.next() {
        Some(word) => {
            let n = number(numbered, word)?;
            in_order(u16::from(least), u16::from(n))?;
            let others = numbers_from(words, numbered, n + 1)?;
            Ok((1 << n) + others)
        }
        None => Ok(0),
    }
}

/// Returns true if the packet is a CV write to the active address of the decoder.
fn is_write_for(active: &Option<Address>, packet: &Packet) -> bool
    ensures is { result ≡ (is_own_write packet.now && hears_packet (LocoWho active.now) packet.now) }
    ensures byte { is_byte_write packet.now ≡ true }
{
    is_own_write(packet) && hears(Who::Loco(*active), packet)
}

/// Returns the CV write with the frame `frame`.
///
/// Errors: P13 if no CV write with this frame can be pending in a decoder with the address
/// `active`.
#[tactic(auto, using(crate::proofs::PendingBack::pending_write_is))]
fn pending_write(active: &Option<Address>, frame: &Frame) -> Result<Packet, PacketFault>
    ensures is { result ≡ pending_write active.now frame.now }
    ensures possible { IfOk result (λ packet. is_pending_for active.now (Some packet) ≡ true) }
{
    let packet = Packet::read(frame);
    if is_write_for(active, &packet) {
        Ok(packet)
    } else {
        Err(PacketFault::State)
    }
}

/// Returns the pending write that a word means. The word is `none`, or the frame of a CV write to
/// the address of the decoder.
///
/// Errors: P12 if the word is no frame, P13 if the packet cannot be pending in the decoder.
pub(crate) fn pending_word(
    active: &Option<Address>,
    word: &[u8],
) -> Result<Option<Packet>, PacketFault>
    ensures is { result ≡ pending_word active.now word.now }
    ensures possible { IfOk result (λ pending. is_pending_for active.now pending ≡ true) }
{
    if word == b"none".as_slice() {
        return Ok(None);
    }
    let frame = hex_frame(word)?;
    Ok(Some(pending_write(active, &frame)?))
}

/// Returns the value of a line with the words `CV VALUE` after its keyword. The number of the CV
/// must be at least `least`.
pub(crate) fn cv_words(words: &mut Words, least: u16) -> Result<LocoLine, PacketFault>
    ensures is { result ≡ cv_words least words.old }
    ensures sound { IfOk result (IsSoundLine least) }
{
    let cv = CvNumber::take(words)?;
    in_order(least, cv.number())?;
    let value = words.word().and_then(small_number)?;
    words.end()?;
    Ok(LocoLine::Cv { cv, value })
}
