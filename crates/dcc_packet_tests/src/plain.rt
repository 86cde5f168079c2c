//! A simple and slow search for the outcomes in a list of half-bits. Tests compare the framer with
//! this search.

use crate::rows::{is_hex, number};
use dcc_wire::{Fault, Framer, Half, Seen};
use std::alloc::{AllocError, Global};

/// An outcome, which has the number of the refusal (0 for a packet) and its bytes.
#[derive(Clone, Copy, PartialEq)]
pub struct Outcome {
    refusal: u8,
    bytes: [u8; 6],
    len: usize,
}

impl Outcome {
    /// Returns the outcome that a framer returned. Returns `None` for `Seen::Nothing`.
    pub fn of(seen: &Seen) -> Option<Outcome> {
        match seen {
            Seen::Nothing => None,
            Seen::Packet(frame) => Some(Outcome::with_bytes(0, frame.bytes())),
            Seen::Refused(Fault::ErrorByte(body)) => Some(Outcome::with_bytes(5, body.bytes())),
            Seen::Refused(fault) => Some(Outcome::refused(fault.number())),
        }
    }

    /// Returns true if `word` stands for this outcome. The word for a packet is its bytes in hex.
    /// The word for a refusal is `H` and the number of the refusal. If the refusal has bytes, a
    /// colon and the bytes follow.
    fn is_told(&self, word: &str) -> bool {
        let (refusal, bytes) = match word.strip_prefix('H') {
            None => ("0", word),
            Some(told) => match told.split_once(':') {
                None => (told, ""),
                Some((refusal, bytes)) => (refusal, bytes),
            },
        };
        number(refusal) == u32::from(self.refusal) && self.has_bytes(bytes)
    }

    fn has_bytes(&self, hex: &str) -> bool {
        match self.bytes.get(..self.len) {
            None => false,
            Some(bytes) => is_hex(bytes, hex),
        }
    }

    fn refused(refusal: u8) -> Outcome {
        Outcome {
            refusal,
            bytes: [0; 6],
            len: 0,
        }
    }

    fn with_bytes(refusal: u8, told: &[u8]) -> Outcome {
        let mut bytes = [0; 6];
        for (byte, from) in bytes.iter_mut().zip(told) {
            *byte = *from;
        }
        Outcome {
            refusal,
            bytes,
            len: told.len(),
        }
    }

    /// Returns the outcome of a body with these bytes and an end bit.
    fn closed(bytes: [u8; 6], len: usize) -> Outcome {
        if len < 3 {
            return Outcome::refused(3);
        }
        let mut xor = 0;
        for byte in bytes {
            xor ^= byte;
        }
        Outcome {
            refusal: if xor == 0 { 0 } else { 5 },
            bytes,
            len,
        }
    }

    /// Returns the number of half-bits of the outcome that count for the next preamble: 2 after an
    /// end bit, otherwise 0.
    fn end_halves(&self) -> usize {
        match self.refusal {
            0 | 3 | 5 => 2,
            _ => 0,
        }
    }
}

/// Returns true if `outcomes` are the outcomes in `text`, which has words such as `84:036261` and
/// `66:H3`.
pub fn are_told(outcomes: &[(usize, Outcome)], text: &str) -> bool {
    let mut told = 0;
    for word in text.split_whitespace() {
        match outcomes.get(told) {
            None => return false,
            Some((half, outcome)) => {
                if !is_told_at(*half, outcome, word) {
                    return false;
                }
            }
        }
        told = told.saturating_add(1);
    }
    told == outcomes.len()
}

/// Returns true if `word` stands for this outcome and the number `half` of its last half-bit.
fn is_told_at(half: usize, outcome: &Outcome, word: &str) -> bool {
    match word.split_once(':') {
        None => false,
        Some((at, told)) => number(at) as usize == half && outcome.is_told(told),
    }
}

/// Returns the outcomes that a new framer returns for `durations`, each with the number of its last
/// half-bit, counted from 1.
pub fn answers(alloc: Global, durations: &[u16]) -> Result<Vec<(usize, Outcome)>, AllocError> {
    let mut framer = Framer::new();
    let mut answers = Vec::new(alloc);
    for (place, us) in durations.iter().enumerate() {
        if let Some(outcome) = Outcome::of(&framer.push(*us)) {
            answers.push((place.saturating_add(1), outcome))?;
        }
    }
    Ok(answers)
}

/// Returns the outcomes that the simple search finds in `durations`, each with the number of its
/// last half-bit, counted from 1.
pub fn outcomes(alloc: Global, durations: &[u16]) -> Result<Vec<(usize, Outcome)>, AllocError> {
    let mut outcomes = Vec::new(alloc);
    let mut unused = 0;
    for place in 0..durations.len() {
        if place >= unused && begins_body(&durations[unused..place], durations[place]) {
            match body(&durations[place..]) {
                None => unused = durations.len(),
                Some((n, outcome)) => {
                    let number = place.saturating_add(n);
                    unused = number.saturating_sub(outcome.end_halves());
                    outcomes.push((number, outcome))?;
                }
            }
        }
    }
    Ok(outcomes)
}

/// Returns true if `us` is a half-bit of a zero, and at least twenty half-bits of ones come
/// directly before it.
fn begins_body(before: &[u16], us: u16) -> bool {
    let ones = before
        .iter()
        .rev()
        .take_while(|us| Half::of(**us) == Half::One)
        .count();
    Half::of(us) == Half::Zero && ones >= 20
}

/// The two half-bits at the place of a bit in a body.
enum Pair {
    Bit(bool),
    /// The first (1) or the second (2) half-bit of the pair is bad.
    Bad(usize),
    Split,
    Cut,
}

fn pair_at(halves: &[u16], at: usize) -> Pair {
    let first = match halves.get(at) {
        None => return Pair::Cut,
        Some(us) => Half::of(*us),
    };
    if first == Half::Bad {
        return Pair::Bad(1);
    }
    let second = match halves.get(at.saturating_add(1)) {
        None => return Pair::Cut,
        Some(us) => Half::of(*us),
    };
    if second == Half::Bad {
        return Pair::Bad(2);
    }
    if first == second {
        Pair::Bit(first == Half::One)
    } else {
        Pair::Split
    }
}

/// Returns the number of half-bits in the body at the beginning of `halves`, and its outcome.
/// Returns `None` if the body is unfinished.
fn body(halves: &[u16]) -> Option<(usize, Outcome)> {
    let mut bytes = [0u8; 6];
    for number in 0..55usize {
        let at = 2 * number;
        let bit = match pair_at(halves, at) {
            Pair::Bit(bit) => bit,
            Pair::Bad(n) => return Some((at.saturating_add(n), Outcome::refused(1))),
            Pair::Split => return Some((at + 2, Outcome::refused(2))),
            Pair::Cut => return None,
        };
        let len = number / 9;
        if number % 9 == 0 {
            if bit {
                return Some((at + 2, Outcome::closed(bytes, len)));
            }
        } else if let Some(byte) = bytes.get_mut(len) {
            *byte = byte.wrapping_mul(2) | u8::from(bit);
        }
    }
    Some((110, Outcome::refused(4)))
}
