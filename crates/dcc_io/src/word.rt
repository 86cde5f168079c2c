//! The types of words of a capture, and functions that find words in bytes.
ghost use Rattle.std.specs.Prelude.{◌≡◌, ◌↔◌, ◌<◌, ◌≤◌, min, ℕ, List, [], ◌∷◌, ◌++◌, not, true, ◌==◌, ◌&&◌, IfSome};
ghost use Rattle.std.specs.Prelude.{IsTrue, false, ◌+◌, ◌||◌, length, nat_lt, slice_index, take, Some};
ghost use Rattle.dcc_io.specs.Words.{duration_of, is_gap, is_mark, is_some_byte, run_of};
ghost use Rattle.dcc_io.specs.Inner.FrontWords.{BeginsWithTwoDigits, EndNoLine, HasLineFeedAt, IsFrontWord};
ghost use Rattle.dcc_io.specs.Inner.FrontWords.{IsShortWord, IsWholeWord, EndedWord};

use crate::digits::Digits;
use memchr::memchr;

/// A run, which is a number of equal half-bits in a row.
#[derive(Clone, Copy, Debug, PartialEq, Eq)]
pub struct Run {
    /// The duration of each half-bit, in microseconds.
    pub us: u16,

    /// The number of half-bits.
    pub n: u32,
}

/// The bytes of a word that were read so far.
#[derive(Clone, Copy, Debug)]
pub struct RunWord {
    /// The bytes before the first `*`.
    duration: Digits,

    /// The bytes after the first `*`, or `None` if the word has no `*`.
    count: Option<Digits>,

    all_dashes: bool,
}

impl RunWord {
    ghost use Rattle.dcc_io.specs.SpelledWords.{Spells};

    /// Creates an empty word.
    pub(crate) fn new() -> RunWord
        ensures { Spells result [] }
    {
        RunWord {
            duration: Digits::new(),
            count: None,
            all_dashes: true,
        }
    }

    /// Appends a byte to the word.
    #[inline(always)]
    pub(crate) fn push(&mut self, byte: u8)
        ensures { (word : List ℕ) → Spells self.old word → Spells self.new (word ++ byte ∷ []) }
    {
        self.all_dashes = still_dashes(self.all_dashes, byte);
        match self.count {
            Some(mut count) => {
                count.push(byte);
                self.count = Some(count);
            }
            None => {
                if byte == b'*' {
                    self.count = Some(Digits::new());
                } else {
                    self.duration.push(byte);
                }
            }
        }
    }

    /// Returns true if the word is empty.
    #[inline(always)]
    pub(crate) fn is_empty(&self) -> bool
        ensures { (word : List ℕ) → Spells self.now word → result ≡ not (is_some_byte word) }
    {
        self.duration.len() == 0 && self.count.is_none()
    }

    /// Returns true if the word is `---`, which separates two captures.
    pub fn is_mark(&self) -> bool
        ensures { (word : List ℕ) → Spells self.now word → result ≡ is_mark word }
    {
        self.all_dashes && self.duration.len() == 3
    }

    /// Returns the run that the word means. Returns `None` if the word is no run.
    pub fn run(&self) -> Option<Run>
        ensures { (word : List ℕ) → Spells self.now word → result ≡ run_of word }
    {
        let us = self.duration.duration()?;
        let n = match self.count {
            Some(count) => count.count()?,
            None => 1,
        };
        Some(Run { us, n })
    }
}

/// Returns the run that the word `word` gives. Returns `None` if the word is no run.
pub fn run_of(word: &[u8]) -> Option<Run>
    ensures { result ≡ run_of word.now }
{
    let mut so_far = RunWord::new();
    for (len, byte) in word.iter().enumerate() {
        so_far.push(*byte);
    }
    so_far.run()
}

/// A word that is a duration, at the beginning of a list of bytes, with a gap after the word.
#[derive(Clone, Copy, Debug)]
pub struct FrontWord {
    /// The duration that the word means, in microseconds.
    pub us: u16,

    /// The number of bytes of the word.
    pub len: usize,

    /// True if the byte after the word is a line feed.
    pub ends_line: bool,
}

/// A word of two or three digits at the beginning of a list of bytes, with the gap after the word.
#[derive(Clone, Copy, Debug)]
pub struct ShortWord {
    /// The duration that the word means, in microseconds.
    pub us: u16,

    /// The number of bytes of the word and of the gap: a space, a line feed or CR LF.
    pub len: usize,

    /// True if the gap has a line feed.
    pub ends_line: bool,
}

/// Returns the number in the first two bytes, if `bytes` has at least five bytes and these two are
/// digits.
#[inline(always)]
pub fn first_two_digits(bytes: &[u8]) -> Option<u32>
    ensures { IfSome result (λ us. BeginsWithTwoDigits bytes.now us) }
{
    if bytes.len() < 5 {
        return None;
    }
    let tens = digit(bytes[0])?;
    let ones = digit(bytes[1])?;
    Some(tens * 10 + ones)
}

/// Returns the word of two or three digits at the beginning of `bytes`, if a space follows it. The
/// parameter `us` is the number in the first two digits.
#[inline(always)]
pub fn word_before_space(bytes: &[u8], us: u32) -> Option<ShortWord>
    requires { BeginsWithTwoDigits bytes.now us }
    ensures word { IfSome result (λ word. IsShortWord bytes.now word) }
    ensures ends_line { IfSome result (λ word. word.ends_line ≡ false) }
{
    let third = bytes[2];
    if third == b' ' {
        return with_space(bytes, us, 2);
    }
    let ones = digit(third)?;
    with_space(bytes, us * 10 + ones, 3)
}

/// Returns the word of two or three digits at the beginning of `bytes`, if a line feed or CR LF
/// follows it. The parameter `us` is the number in the first two digits.
#[inline(always)]
pub fn word_before_line_end(bytes: &[u8], us: u32) -> Option<ShortWord>
    requires { BeginsWithTwoDigits bytes.now us }
    ensures word { IfSome result (λ word. IsShortWord bytes.now word) }
    ensures ends_line { IfSome result (λ word. word.ends_line ≡ true) }
{
    let behind = bytes[2];
    if behind == b'\n' || behind == b'\r' {
        return with_line_end(bytes, us, 2);
    }
    let ones = digit(behind)?;
    with_line_end(bytes, us * 10 + ones, 3)
}

/// Returns the word of `len` digits at the beginning of `bytes`, which means the duration `us`, if a
/// space follows it.
#[inline(always)]
#[tactic(auto, unfolding(crate::specs::Words::is_gap))]
fn with_space(bytes: &[u8], us: u32, len: usize) -> Option<ShortWord>
    requires inside { len + 1 < length bytes.now }
    requires small { us < 1000 }
    requires spells { duration_of (take len bytes.now) ≡ Some us }
    ensures word { IfSome result (λ word. IsShortWord bytes.now word) }
    ensures ends_line { IfSome result (λ word. word.ends_line ≡ false) }
{
    if bytes[len] != b' ' {
        return None;
    }
    Some(ShortWord {
        us: us as u16,
        len: len + 1,
        ends_line: false,
    })
}

/// Returns the word of `len` digits at the beginning of `bytes`, which means the duration `us`, if a
/// line feed or CR LF follows it.
#[inline(always)]
#[tactic(auto, unfolding(crate::specs::Words::is_gap))]
fn with_line_end(bytes: &[u8], us: u32, len: usize) -> Option<ShortWord>
    requires inside { len + 1 < length bytes.now }
    requires small { us < 1000 }
    requires spells { duration_of (take len bytes.now) ≡ Some us }
    ensures word { IfSome result (λ word. IsShortWord bytes.now word) }
    ensures ends_line { IfSome result (λ word. word.ends_line ≡ true) }
{
    if bytes[len] == b'\n' {
        return Some(ShortWord {
            us: us as u16,
            len: len + 1,
            ends_line: true,
        });
    }
    if !is_cr(bytes[len]) || bytes[len + 1] != b'\n' {
        return None;
    }
    Some(ShortWord {
        us: us as u16,
        len: len + 2,
        ends_line: true,
    })
}

/// Returns the value of a decimal digit. Returns `None` for any other byte. The range is tested on the
/// wide number, so that the compiler subtracts 48 once.
#[inline(always)]
fn digit(byte: u8) -> Option<u32>
    ensures { IfSome result (λ digit. (byte ≡ digit + 48) × (digit ≤ 9)) }
{
    let code = u32::from(byte);
    if code < 48 || 57 < code {
        return None;
    }
    Some(code - 48)
}

/// Returns true if a byte is a decimal digit.
#[inline(always)]
pub fn is_digit(byte: u8) -> bool
    ensures { IsTrue result ↔ ((48 ≤ byte) × (byte ≤ 57)) }
{
    b'0' <= byte && byte <= b'9'
}

/// Returns true if a byte is CR.
#[inline(always)]
#[tactic(auto, unfolding(crate::specs::Words::is_gap))]
fn is_cr(byte: u8) -> bool
    ensures gap { IsTrue result → is_gap byte ≡ true }
    ensures no_line_feed { IsTrue result → (byte == 10) ≡ false }
{
    byte == b'\r'
}

/// Returns the word at the beginning of `bytes`, if the word is a duration and a gap ends it.
/// Returns `None` for other bytes.
pub fn front_word(bytes: &[u8]) -> Option<FrontWord>
    ensures { IfSome result (λ front. IsFrontWord bytes.now front) }
{
    let mut us = 0u32;
    for (len, byte) in bytes.iter().enumerate() {
        if b'0' <= *byte && *byte <= b'9' && us < 10_000 {
            us = us * 10 + u32::from(*byte - b'0');
        } else {
            return ended_word(us, len, *byte);
        }
    }
    None
}

/// Returns the word of `len` digits with the value `number`, if the byte `behind` after these
/// digits is a gap. Returns `None` if `behind` is no gap or if the word is no duration.
fn ended_word(number: u32, len: usize, behind: u8) -> Option<FrontWord>
    ensures { IfSome result (λ front. EndedWord number len behind front) }
{
    if len == 0 || len > 10 || !is_gap(behind) {
        return None;
    }
    Some(FrontWord {
        us: number.min(65535) as u16,
        len,
        ends_line: behind == b'\n',
    })
}

/// A word of any kind at the beginning of a list of bytes, with a gap after the word.
#[derive(Clone, Copy, Debug)]
pub struct WholeWord {
    pub word: RunWord,

    /// The number of bytes of the word.
    pub len: usize,

    /// True if the byte after the word is a line feed.
    pub ends_line: bool,
}

/// Returns the word at the beginning of `bytes`, if a gap ends the word. Returns `None` for other
/// bytes.
pub fn whole_word(bytes: &[u8]) -> Option<WholeWord>
    ensures { IfSome result (λ front. IsWholeWord bytes.now front) }
{
    let mut word = RunWord::new();
    for (len, byte) in bytes.iter().enumerate() {
        if is_gap(*byte) {
            if len == 0 {
                return None;
            }
            let ends_line = *byte == b'\n';
            return Some(WholeWord {
                word,
                len,
                ends_line,
            });
        }
        if *byte == b'#' {
            return None;
        }
        word.push(*byte);
    }
    None
}

/// Returns the number of bytes before the first line feed, or of all bytes if there is no line
/// feed.
pub fn len_of_line(bytes: &[u8]) -> usize
    ensures { EndNoLine bytes.now result }
{
    match memchr(b'\n', bytes) {
        Some(len) => len,
        None => bytes.len(),
    }
}

/// Returns true if the third or fourth byte of `bytes` is `*`, as in most runs.
#[inline(always)]
pub fn begins_with_run(bytes: &[u8]) -> bool
    ensures { result ≡ (nat_lt 3 (length bytes.now)
        && (slice_index bytes.now 2 == 42 || slice_index bytes.now 3 == 42)) }
{
    bytes.len() > 3 && (bytes[2] == b'*' || bytes[3] == b'*')
}

/// Returns true if `bytes` begin with a line feed.
#[inline(always)]
pub fn begins_with_line_feed(bytes: &[u8]) -> bool
    ensures { IsTrue result → HasLineFeedAt bytes.now 0 }
{
    !bytes.is_empty() && bytes[0] == b'\n'
}

/// Returns true if a byte separates words: a space, a tab, CR or LF.
#[tactic(auto, unfolding(crate::specs::Words::is_gap))]
#[inline(always)]
pub fn is_gap(byte: u8) -> bool
    ensures { result ≡ is_gap byte }
{
    byte == b' ' || byte == b'\t' || byte == b'\r' || byte == b'\n'
}

/// Returns true if `all_dashes` is true and the byte is a dash.
#[inline(always)]
fn still_dashes(all_dashes: bool, byte: u8) -> bool
    ensures { result ≡ (all_dashes && byte == 45) }
{
    all_dashes && byte == b'-'
}
