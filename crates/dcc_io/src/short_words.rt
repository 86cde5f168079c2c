//! A function that reads the short words at the beginning of buffered bytes.
ghost use Rattle.std.specs.Prelude.{◌≡◌, ◌<◌, ◌≤◌, ◌+◌, ◌-◌, ◌^◌, ℕ, length, take, drop};
ghost use Rattle.dcc_io.specs.Counted.{TakesHalves};
ghost use Rattle.dcc_io.specs.Inner.AheadInput.{Behind, ahead_of};

use crate::word::{first_two_digits, word_before_line_end, word_before_space};

/// The short words at the beginning of some bytes.
#[derive(Clone, Copy, Debug)]
pub struct ShortWords {
    /// The number of words.
    pub count: usize,

    /// The number of bytes of the words and of their gaps.
    pub len: usize,

    /// The number of the line of the byte after the words.
    pub line: u64,

    /// The number of the line of the last word, or the parameter `last` if there is no word.
    pub last: u64,
}

/// Writes the durations of the short words at the beginning of `bytes` to `halves`, until `halves`
/// is full or another word follows. The first byte is on line `line`, and the last line that was
/// used is `last`. All counters are local, so that the compiler keeps them in registers.
#[inline(never)]
pub fn short_words(bytes: &[u8], line: u64, last: u64, halves: &mut [u16]) -> ShortWords
    requires line { line + length bytes.now < 2 ^ 32 }
    requires last { last < 2 ^ 32 }
    ensures words { (behind : Behind) (left : ℕ) → 0 < behind.spare → length halves.old ≤ left
        → TakesHalves (ahead_of behind left bytes.now line last) (take result.count halves.new)
        (ahead_of behind (left - result.count) (drop result.len bytes.now) result.line result.last) }
    ensures count { result.count ≤ length halves.new }
    ensures same_len { length halves.new ≡ length halves.old }
    ensures len { result.len ≤ length bytes.now }
    ensures line { result.line ≤ line + result.len }
    ensures last { result.last < 2 ^ 32 }
{
    let mut words = ShortWords {
        count: 0,
        len: 0,
        line,
        last,
    };
    'words: while words.count < halves.len() {
        let rest = &bytes[words.len..];
        let Some(us) = first_two_digits(rest) else {
            return words;
        };
        // a way of its own for most words, so that the compiler makes shorter code for them
        if let Some(word) = word_before_space(rest, us) {
            halves[words.count] = word.us;
            words.count += 1;
            words.len += word.len;
            words.last = words.line;
            continue;
        }
        let Some(word) = word_before_line_end(rest, us) else {
            return words;
        };
        halves[words.count] = word.us;
        words.count += 1;
        words.len += word.len;
        words.last = words.line;
        words.line += 1;
    }
    words
}
