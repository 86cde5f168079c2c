//! Functions that read tables of worked examples. Each line of a table is a row, and bars separate
//! the columns.
//!
//! The other crates of tests have copies of these functions. Tests export no items to another
//! crate, and a crate for all of them would be one more crate to prove.

/// Returns the column with the number `number`, counted from 0, without spaces around it. The
/// result is empty if the row has fewer columns.
pub fn column(row: &str, number: usize) -> &str {
    let mut rest = row;
    for _ in 0..number {
        rest = split(rest).1;
    }
    split(rest).0.trim()
}

/// Returns the text before the first bar of a row and the text after it.
fn split(row: &str) -> (&str, &str) {
    match row.split_once('|') {
        Some(parts) => parts,
        None => (row, ""),
    }
}

/// Returns the number that `word` means, or the greatest number if `word` is no number.
pub fn number(word: &str) -> u32 {
    match word.parse() {
        Ok(number) => number,
        Err(_) => u32::MAX,
    }
}
