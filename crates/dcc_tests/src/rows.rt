//! Functions that read tables of worked examples. Each line of a table is a row, and bars separate
//! the columns.
//!
//! The other crates of tests have copies of these functions. Tests export no items to another
//! crate, and a crate for all of them would be one more crate to prove.

use dcc_wire::{Frame, Halves, Timing};
use std::alloc::{AllocError, Global};
use std::process::Abort;

/// Returns the column with the number `number`, counted from 0, without spaces around it. The
/// result is empty if the row has fewer columns.
pub fn column(row: &str, number: usize) -> &str {
    let mut rest = row;
    for _ in 0..number {
        rest = split(rest).1;
    }
    split(rest).0.trim()
}

/// Returns the text before the first bar of a row and the text after it.
fn split(row: &str) -> (&str, &str) {
    match row.split_once('|') {
        Some(parts) => parts,
        None => (row, ""),
    }
}

/// Returns the number that `word` means, or the greatest number if `word` is no number.
pub fn number(word: &str) -> u32 {
    match word.parse() {
        Ok(number) => number,
        Err(_) => u32::MAX,
    }
}

/// Returns the frame whose bytes `hex` has as hex digits. Returns `None` if these bytes form no
/// frame.
pub fn frame_of(hex: &str) -> Option<Frame> {
    let mut bytes = [0; 6];
    let bytes = bytes.get_mut(..hex.len() / 2)?;
    match hex::decode_to_slice(hex, bytes) {
        Ok(()) => Frame::of(bytes).ok(),
        Err(_) => None,
    }
}

/// Returns the half-bits of a text. A word of the text is a duration in microseconds, a run such as
/// `58*28`, or a packet such as `=036261`. Packets have the timing of the main track.
pub fn halves_of(rt: &impl Abort, alloc: Global, text: &str) -> Vec<u16> {
    let mut halves = Vec::new(alloc);
    for word in text.split_whitespace() {
        push_word(&mut halves, word).expect(rt, "memory");
    }
    halves
}

fn push_word(halves: &mut Vec<u16>, word: &str) -> Result<(), AllocError> {
    match word.strip_prefix('=') {
        Some(hex) => push_packet(halves, hex),
        None => push_run(halves, word),
    }
}

fn push_packet(halves: &mut Vec<u16>, hex: &str) -> Result<(), AllocError> {
    match frame_of(hex) {
        Some(frame) => push_frame(halves, frame, Timing::main()),
        None => Ok(()),
    }
}

fn push_frame(halves: &mut Vec<u16>, frame: Frame, timing: Timing) -> Result<(), AllocError> {
    for us in Halves::new(frame, timing) {
        halves.push(us)?;
    }
    Ok(())
}

fn push_run(halves: &mut Vec<u16>, word: &str) -> Result<(), AllocError> {
    let (us, count) = match word.split_once('*') {
        None => (word, "1"),
        Some(run) => run,
    };
    push_times(halves, us.parse::<u16>().unwrap_or(0), number(count))
}

fn push_times(halves: &mut Vec<u16>, us: u16, count: u32) -> Result<(), AllocError> {
    for _ in 0..count {
        halves.push(us)?;
    }
    Ok(())
}
