//! Functions that return the instruction of the bytes of a frame (NMRA S-9.2.1, RCN-212, RCN-214).
ghost use Rattle.std.specs.Prelude.{◌≡◌, ◌≢◌, ◌≤◌, ◌<◌, ◌-◌, ◌/◌, ◌%◌, ◌∷◌, [], IfSome, IfNone};
ghost use Rattle.dcc_packet.specs.Rows.{instruction_bytes, cv_bytes};
ghost use Rattle.dcc_packet.specs.declared.instruction.What.{What};

use crate::bits::is_set;
use crate::{BitPlace, CvNumber, Group, GroupBits, SpeedBits28, SpeedBits128, StateNumber, What};

/// Returns the instruction that `bytes` encode. Returns `None` if `bytes` encode no instruction.
pub(crate) fn instruction(bytes: &[u8]) -> Option<What>
    ensures found { IfSome result (λ what. instruction_bytes what ≡ bytes.now) }
    ensures none { IfNone result ((what : What) → instruction_bytes what ≢ bytes.now) }
{
    match *bytes {
        [byte] => one_byte(byte),
        [first, second] => two_bytes(first, second),
        [first, second, last] => three_bytes(first, second, last),
        _ => None,
    }
}

/// Returns the instruction that `byte` encodes. Returns `None` if `byte` encodes no instruction.
fn one_byte(byte: u8) -> Option<What>
    ensures found { IfSome result (λ what. instruction_bytes what ≡ byte ∷ []) }
    ensures none { IfNone result ((what : What) → instruction_bytes what ≢ byte ∷ []) }
{
    match byte {
        0x00 => Some(What::Reset),
        0x40..=0x7F => Some(speed28(byte)),
        0x80..=0xBF => Some(narrow_group(byte)),
        _ => None,
    }
}

/// Returns the instruction that the bytes `first` and `second` encode. Returns `None` if they
/// encode no instruction.
fn two_bytes(first: u8, second: u8) -> Option<What>
    ensures found { IfSome result (λ what. instruction_bytes what ≡ first ∷ second ∷ []) }
    ensures none { IfNone result ((what : What) → instruction_bytes what ≢ first ∷ second ∷ []) }
{
    match first {
        0x3F => Some(speed128(second)),
        0xD8..=0xDF => Some(two_byte_functions(first, second)),
        _ => None,
    }
}

/// Returns the instruction that the bytes `first`, `second` and `last` encode. Returns `None` if
/// they encode no instruction.
fn three_bytes(first: u8, second: u8, last: u8) -> Option<What>
    ensures found { IfSome result (λ what. instruction_bytes what ≡ first ∷ second ∷ last ∷ []) }
    ensures none { IfNone result ((what : What) → instruction_bytes what ≢ first ∷ second ∷ last ∷ []) }
{
    match first {
        0xE4..=0xEF => cv_access(first, second, last),
        _ => None,
    }
}

/// Returns the instruction of a byte 01DCSSSS, which sets the speed in 28 or 14 steps.
fn speed28(byte: u8) -> What
    requires low { 0x40 ≤ byte }
    requires high { byte < 0x80 }
    ensures { instruction_bytes result ≡ byte ∷ [] }
{
    let bits = (byte & 0x0F) << 1 | byte >> 4 & 1;
    What::Speed28 {
        forward: is_set(byte, 5),
        bits: SpeedBits28 { bits },
    }
}

/// Returns the instruction of a byte 100DDDDD, 1011DDDD or 1010DDDD, which switches F0 to F12.
fn narrow_group(byte: u8) -> What
    requires low { 0x80 ≤ byte }
    requires high { byte < 0xC0 }
    ensures { instruction_bytes result ≡ byte ∷ [] }
{
    let functions = match byte {
        0x80..=0x9F => GroupBits {
            group: Group::F0,
            bits: byte & 0x1F,
        },
        0xA0..=0xAF => GroupBits {
            group: Group::F9,
            bits: byte & 0x0F,
        },
        _ => GroupBits {
            group: Group::F5,
            bits: byte & 0x0F,
        },
    };
    What::Functions(functions)
}

/// Returns the instruction that sets the speed in 128 steps, from the second byte DSSSSSSS.
fn speed128(byte: u8) -> What
    ensures { instruction_bytes result ≡ 0x3F ∷ byte ∷ [] }
{
    What::Speed128 {
        forward: is_set(byte, 7),
        bits: SpeedBits128 { bits: byte & 0x7F },
    }
}

/// Returns the instruction that two bytes encode. The instruction switches a group of functions
/// from F13 on, or a binary state.
fn two_byte_functions(first: u8, bits: u8) -> What
    requires low { 0xD8 ≤ first }
    requires high { first < 0xE0 }
    ensures { instruction_bytes result ≡ first ∷ bits ∷ [] }
{
    let group = match first {
        0xDE => Group::F13,
        0xDF => Group::F21,
        0xD8 => Group::F29,
        0xD9 => Group::F37,
        0xDA => Group::F45,
        0xDB => Group::F53,
        0xDC => Group::F61,
        _ => return binary_state(bits),
    };
    What::Functions(GroupBits { group, bits })
}

/// Returns the instruction that switches a binary state, from the second byte DLLLLLLL.
fn binary_state(byte: u8) -> What
    ensures { instruction_bytes result ≡ 0xDD ∷ byte ∷ [] }
{
    What::BinaryState {
        number: StateNumber {
            number: byte & 0x7F,
        },
        on: is_set(byte, 7),
    }
}

/// Returns the instruction of the bytes 1110KKVV VVVVVVVV and a last byte, which is an access to a
/// CV. Returns `None` if the last byte of a bit access encodes no instruction.
fn cv_access(first: u8, second: u8, last: u8) -> Option<What>
    requires low { 0xE4 ≤ first }
    requires high { first < 0xF0 }
    ensures found { IfSome result (λ what. instruction_bytes what ≡ first ∷ second ∷ last ∷ []) }
    ensures none { IfNone result ((what : What) → instruction_bytes what ≢ first ∷ second ∷ last ∷ []) }
{
    let cv = cv_in_bytes(first, second);
    match first {
        0xEC..=0xEF => Some(What::CvWrite { cv, value: last }),
        0xE4..=0xE7 => Some(What::CvVerify { cv, value: last }),
        _ => bit_access(cv, last),
    }
}

/// Returns the instruction of a bit access, whose last byte is 1111DBBB (write) or 1110DBBB
/// (compare). Returns `None` if the last byte is below 0xE0.
fn bit_access(cv: CvNumber, last: u8) -> Option<What>
    ensures found { IfSome result (λ what. instruction_bytes what ≡ cv_bytes 0xE8 cv.number last) }
    ensures none { IfNone result (last < 0xE0) }
{
    let place = BitPlace { place: last & 7 };
    let one = is_set(last, 3);
    match last {
        0xF0..=0xFF => Some(What::CvBitWrite { cv, place, one }),
        0xE0..=0xEF => Some(What::CvBitVerify { cv, place, one }),
        _ => None,
    }
}

/// Returns the CV of an access. The lowest two bits of `first` and the byte `second` are the number
/// of the CV minus 1.
fn cv_in_bytes(first: u8, second: u8) -> CvNumber
    ensures high { (result.number - 1) / 256 ≡ first % 4 }
    ensures low { (result.number - 1) % 256 ≡ second }
{
    let from_zero = u16::from(first & 3) << 8 | u16::from(second);
    CvNumber {
        number: from_zero + 1,
    }
}
