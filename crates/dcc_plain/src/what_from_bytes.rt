//! Functions that return the standard instruction that bytes encode.
ghost use Rattle.std.specs.Prelude.{◌≡◌, ◌≢◌, ◌≤◌, ◌<◌, ◌+◌, ◌-◌, ◌/◌, ◌%◌, ◌++◌, ◌∷◌, [], IfSome, IfNone};
ghost use Rattle.dcc_plain.specs.Standard.{WhatFits, extended_bytes, few_bytes, what_bytes};
ghost use Rattle.dcc_plain.specs.declared.standard.FewBytes.{FewBytes};
ghost use Rattle.dcc_plain.specs.declared.standard.StandardWhat.{StandardWhat};

use crate::{FewBytes, StandardWhat};
use dcc_packet::{BitPlace, SpeedBits128};

/// Returns the standard instruction that `bytes` encode. Returns `None` if there is no such
/// instruction.
pub(crate) fn standard_what(bytes: &[u8]) -> Option<StandardWhat>
    ensures found { IfSome result (λ what. WhatFits what × (what_bytes what ≡ bytes.now)) }
    ensures none { IfNone result ((what : StandardWhat) → WhatFits what → what_bytes what ≢ bytes.now) }
{
    match bytes {
        [0x3C, motion, functions @ ..] => combined(*motion, functions),
        [first @ 0xE4..=0xEF, high, middle, low, rest @ ..] => {
            extended(*first, cv_of(*high, *middle, *low), rest)
        }
        [byte] => one_byte(*byte),
        [first, second] => two_bytes(*first, *second),
        [first, second, third] => three_bytes(*first, *second, *third),
        _ => None,
    }
}

/// Returns the instruction of one byte.
fn one_byte(byte: u8) -> Option<StandardWhat>
    ensures found { IfSome result (λ what. WhatFits what × (what_bytes what ≡ byte ∷ [])) }
    ensures none { IfNone result ((what : StandardWhat) → WhatFits what → what_bytes what ≢ byte ∷ []) }
{
    match byte {
        0x01 => Some(StandardWhat::HardReset),
        0x0A => Some(StandardWhat::LongAddressUse { on: false }),
        0x0B => Some(StandardWhat::LongAddressUse { on: true }),
        0x0F => Some(StandardWhat::Acknowledge),
        _ => None,
    }
}

/// Returns the instruction of two bytes.
fn two_bytes(first: u8, second: u8) -> Option<StandardWhat>
    ensures found { IfSome result (λ what. WhatFits what × (what_bytes what ≡ first ∷ second ∷ [])) }
    ensures none { IfNone result ((what : StandardWhat) → WhatFits what → what_bytes what ≢ first ∷ second ∷ []) }
{
    match first {
        0x02 | 0x03 => Some(StandardWhat::FactoryTest {
            upper: first == 0x03,
            first: second,
            second: None,
        }),
        0x06 | 0x07 => Some(StandardWhat::DecoderFlags {
            upper: first == 0x07,
            flags: second,
        }),
        0x12 | 0x13 if second <= 127 => Some(StandardWhat::Consist {
            number: second,
            reversed: first == 0x13,
        }),
        0x3E => Some(StandardWhat::OperatingModes { modes: second }),
        0xF2 | 0xF3 => Some(StandardWhat::ShortCv {
            is_24: first == 0xF3,
            value: second,
        }),
        _ => None,
    }
}

/// Returns the instruction of three bytes.
fn three_bytes(first: u8, second: u8, third: u8) -> Option<StandardWhat>
    requires { first ≢ 0x3C }
    ensures found { IfSome result (λ what. WhatFits what × (what_bytes what ≡ first ∷ second ∷ third ∷ [])) }
    ensures none { IfNone result ((what : StandardWhat) → WhatFits what
        → what_bytes what ≢ first ∷ second ∷ third ∷ []) }
{
    match first {
        0x02 | 0x03 => Some(StandardWhat::FactoryTest {
            upper: first == 0x03,
            first: second,
            second: Some(third),
        }),
        0x3D => Some(StandardWhat::Analog {
            output: second,
            value: third,
        }),
        0xC0 => Some(StandardWhat::LongState {
            number: u16::from(third) * 128 + u16::from(second % 128),
            on: second >= 128,
        }),
        _ => None,
    }
}

/// Returns the instruction that sets speed, direction and functions, from the bytes after the first.
fn combined(motion: u8, functions: &[u8]) -> Option<StandardWhat>
    ensures found { IfSome result (λ what. WhatFits what × (what_bytes what ≡ 0x3C ∷ motion ∷ functions.now)) }
    ensures none { IfNone result ((what : StandardWhat) → WhatFits what
        → what_bytes what ≢ 0x3C ∷ motion ∷ functions.now) }
{
    match few_bytes(functions) {
        Some(functions) => Some(StandardWhat::Combined {
            forward: motion >= 128,
            speed: speed_bits(motion % 128),
            functions,
        }),
        None => None,
    }
}

/// Returns the speed bits `bits`.
fn speed_bits(bits: u8) -> SpeedBits128
    requires { bits ≤ 127 }
    ensures { result.bits ≡ bits }
{
    match SpeedBits128::new(bits) {
        Ok(bits) => bits,
        Err(_) => unreachable!(),
    }
}

/// Returns one to four bytes. Returns `None` if there are no bytes or more than four.
fn few_bytes(bytes: &[u8]) -> Option<FewBytes>
    ensures found { IfSome result (λ few. few_bytes few ≡ bytes.now) }
    ensures none { IfNone result ((few : FewBytes) → few_bytes few ≢ bytes.now) }
{
    match *bytes {
        [a] => Some(FewBytes::One(a)),
        [a, b] => Some(FewBytes::Two(a, b)),
        [a, b, c] => Some(FewBytes::Three(a, b, c)),
        [a, b, c, d] => Some(FewBytes::Four(a, b, c, d)),
        _ => None,
    }
}

/// Returns the instruction that reads or writes CVs, from its first byte, the number `cv` of a CV in
/// the three bytes after it, and the bytes after these.
fn extended(first: u8, cv: u32, rest: &[u8]) -> Option<StandardWhat>
    requires low { 0xE4 ≤ first }
    requires high { first ≤ 0xEF }
    requires least { 1 ≤ cv }
    requires most { cv ≤ 16777216 }
    ensures found { IfSome result (λ what. WhatFits what
        × (what_bytes what ≡ extended_bytes (first - first % 4) (first % 4) cv ++ rest.now)) }
    ensures none { IfNone result ((what : StandardWhat) → WhatFits what
        → what_bytes what ≢ extended_bytes (first - first % 4) (first % 4) cv ++ rest.now) }
{
    let sequence = first % 4;
    match (first, rest) {
        (0xE4..=0xE7, []) => Some(StandardWhat::ExtendedRead { sequence, cv }),
        (0xE8..=0xEB, [last @ 0xF0..=0xFF]) => Some(StandardWhat::ExtendedBitWrite {
            sequence,
            cv,
            place: bit_place(last % 8),
            one: last / 8 % 2 == 1,
        }),
        (0xEC..=0xEF, _) => extended_write(sequence, cv, rest),
        _ => None,
    }
}

/// Returns the instruction that writes one to four bytes to CVs.
fn extended_write(sequence: u8, cv: u32, values: &[u8]) -> Option<StandardWhat>
    requires sequence { sequence ≤ 3 }
    requires least { 1 ≤ cv }
    requires most { cv ≤ 16777216 }
    ensures found { IfSome result (λ what. WhatFits what
        × (what_bytes what ≡ extended_bytes 0xEC sequence cv ++ values.now)) }
    ensures none { IfNone result ((what : StandardWhat) → WhatFits what
        → what_bytes what ≢ extended_bytes 0xEC sequence cv ++ values.now) }
{
    match few_bytes(values) {
        Some(values) => Some(StandardWhat::ExtendedWrite {
            sequence,
            cv,
            values,
        }),
        None => None,
    }
}

/// Returns the number of the CV whose number less 1 has three bytes.
fn cv_of(high: u8, middle: u8, low: u8) -> u32
    ensures least { 1 ≤ result }
    ensures most { result ≤ 16777216 }
    ensures high { (result - 1) / 65536 ≡ high }
    ensures middle { (result - 1) / 256 % 256 ≡ middle }
    ensures low { (result - 1) % 256 ≡ low }
{
    u32::from(high) * 65536 + u32::from(middle) * 256 + u32::from(low) + 1
}

/// Returns the bit place with the number `place`.
fn bit_place(place: u8) -> BitPlace
    requires { place ≤ 7 }
    ensures { result.place ≡ place }
{
    match BitPlace::new(place) {
        Ok(place) => place,
        Err(_) => unreachable!(),
    }
}
