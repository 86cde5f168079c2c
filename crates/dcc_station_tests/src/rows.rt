//! Functions that read tables of worked examples. Each line of a table is a row, and bars separate
//! the columns.
//!
//! The other crates of tests have copies of these functions. Tests export no items to another
//! crate, and a crate for all of them would be one more crate to prove.

use dcc_wire::Frame;

/// Returns the column with the number `number`, counted from 0, without spaces around it. The
/// result is empty if the row has fewer columns.
pub fn column(row: &str, number: usize) -> &str {
    let mut rest = row;
    for _ in 0..number {
        rest = split(rest).1;
    }
    split(rest).0.trim()
}

/// Returns the text before the first bar of a row and the text after it.
fn split(row: &str) -> (&str, &str) {
    match row.split_once('|') {
        Some(parts) => parts,
        None => (row, ""),
    }
}

/// Returns the number that `word` means, or the greatest number if `word` is no number.
pub fn number(word: &str) -> u32 {
    match word.parse() {
        Ok(number) => number,
        Err(_) => u32::MAX,
    }
}

/// Returns true if `hex` is the text of `bytes`, at most six, in hex digits of lower case.
pub fn is_hex(bytes: &[u8], hex: &str) -> bool {
    let mut digits = [0; 12];
    match digits.get_mut(..bytes.len().saturating_mul(2)) {
        None => false,
        Some(digits) => {
            hex::encode_to_slice(bytes, digits).is_ok() && &*digits == hex.as_bytes()
        }
    }
}

/// Returns the frame whose bytes `hex` has as hex digits. Returns `None` if these bytes form no
/// frame.
pub fn frame_of(hex: &str) -> Option<Frame> {
    let mut bytes = [0; 6];
    let bytes = bytes.get_mut(..hex.len() / 2)?;
    match hex::decode_to_slice(hex, bytes) {
        Ok(()) => Frame::of(bytes).ok(),
        Err(_) => None,
    }
}
