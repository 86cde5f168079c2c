//! Functions that read a run, such as `58*28`, at the beginning of buffered bytes.
ghost use Rattle.std.specs.Prelude.{◌≡◌, ◌<◌, ◌≤◌, IfSome, IsTrue, length, take};
ghost use Rattle.dcc_io.specs.Inner.FrontRuns.{IsFrontRun, SpellsNumber};

use crate::word::{Run, is_digit, is_gap};

/// A word that is a run, at the beginning of a list of bytes, with a gap after the word.
#[derive(Clone, Copy, Debug)]
pub struct FrontRun {
    /// The run that the word means.
    pub run: Run,

    /// The number of bytes of the word.
    pub len: usize,

    /// True if the byte after the word is a line feed.
    pub ends_line: bool,
}

/// Returns the run at the beginning of `bytes`, if the run has a `*` and a count below 100000, and
/// a gap follows the run. Most runs have this form. Returns `None` for other bytes.
#[inline(always)]
pub fn front_run(bytes: &[u8]) -> Option<FrontRun>
    ensures { IfSome result (λ front. IsFrontRun bytes.now front) }
{
    let (us, star) = front_number(bytes)?;
    if star == 0 || star > 10 || bytes[star] != b'*' {
        return None;
    }
    let behind = &bytes[star + 1..];
    let (n, count) = front_number(behind)?;
    if count == 0 || count > 8 || n == 0 || !is_gap(behind[count]) {
        return None;
    }
    Some(FrontRun {
        run: Run {
            us: us.min(65535) as u16,
            n,
        },
        len: star + 1 + count,
        ends_line: behind[count] == b'\n',
    })
}

/// Returns the number at the beginning of `bytes` and its count of digits, at most five. Returns
/// `None` if no byte follows the digits.
#[inline(always)]
fn front_number(bytes: &[u8]) -> Option<(u32, usize)>
    ensures { IfSome result (λ front. (front.1 < length bytes.now) × SpellsNumber front.0 (take front.1 bytes.now)) }
{
    match short_number(bytes) {
        Some(number) => Some(number),
        None => long_number(bytes),
    }
}

/// Returns the number at the beginning of `bytes` and its count of digits, if the number has one to
/// three digits. Most numbers have one to three digits. Returns `None` for other bytes.
#[inline(always)]
fn short_number(bytes: &[u8]) -> Option<(u32, usize)>
    ensures { IfSome result (λ front. (front.1 < length bytes.now) × SpellsNumber front.0 (take front.1 bytes.now)) }
{
    if bytes.len() < 4 || !is_digit(bytes[0]) {
        return None;
    }
    let one = u32::from(bytes[0] - b'0');
    if !is_digit(bytes[1]) {
        return Some((one, 1));
    }
    let two = one * 10 + u32::from(bytes[1] - b'0');
    if !is_digit(bytes[2]) {
        return Some((two, 2));
    }
    let three = two * 10 + u32::from(bytes[2] - b'0');
    if is_digit(bytes[3]) {
        return None;
    }
    Some((three, 3))
}

/// Returns the number at the beginning of `bytes` and its count of digits. The function reads digit
/// by digit. Returns `None` if no byte follows the digits.
#[inline(never)]
fn long_number(bytes: &[u8]) -> Option<(u32, usize)>
    ensures { IfSome result (λ front. (front.1 < length bytes.now) × SpellsNumber front.0 (take front.1 bytes.now)) }
{
    let mut number = 0u32;
    for (len, byte) in bytes.iter().enumerate() {
        if b'0' <= *byte && *byte <= b'9' && number < 10_000 {
            number = number * 10 + u32::from(*byte - b'0');
        } else {
            return Some((number, len));
        }
    }
    None
}
