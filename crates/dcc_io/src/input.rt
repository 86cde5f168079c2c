//! The type of the input of an operation, and the functions that read it.
ghost use Rattle.std.specs.Prelude.{◌≡◌, ◌≢◌, ◌+◌, ◌<◌, ◌≤◌, ◌^◌, ◌∷◌, ℕ, List, [], length, take, drop, None, Some};
ghost use Rattle.std.specs.Prelude.{true, false, IsTrue, IfSome, IfNone, MatchResult, if◌then◌else◌, ◌||◌};
ghost use Rattle.dcc_io.specs.AllBytes.{GivesAllBytes, LacksBytes};
ghost use Rattle.dcc_io.specs.ReaderState.{StartsWithBytes};
ghost use Rattle.dcc_io.specs.Words.{comments, is_gap, ended_words};
ghost use Rattle.dcc_io.specs.Inner.FrontWords.{BeginsWithWord, HasLineFeedAt, IsFrontWord};
ghost use Rattle.dcc_io.specs.PassedWords.{AnswersWord, EndsWord, Passed};
ghost use Rattle.dcc_io.specs.KeptAnswers.{AnswersKept};
ghost use Rattle.dcc_io.specs.NextLine.{AnswersLine, ReadsLine};
ghost use Rattle.dcc_io.specs.Inner.FrontLine.{BeginsWithLine, IsFrontLine, SkipsLine};
ghost use Rattle.dcc_io.specs.Counted.{CountsRun, TakesHalf, TakesHalves, TakesRun};
ghost use Rattle.dcc_io.specs.InputState.{InputState, closed_text, closing, AnswersByte, ReadHasFailure, fresh};

use crate::buffered::Buffered;
use crate::fault::{KeptFault, ToolFault};
use crate::front_run::front_run;
use crate::short_words::short_words;
use crate::stream::Source;
use crate::text_line::{TextLine, front_line, skipped_line_len};
use crate::word::{
    FrontWord, Run, RunWord, begins_with_line_feed, begins_with_run, front_word, is_gap,
    len_of_line, whole_word,
};
use dcc_packet::PacketFault;
use std::alloc::Global;
use std::marker::Model;

/// The limits of one input. An input that exceeds a limit has the error U7.
#[derive(Clone, Copy, Debug, PartialEq, Eq)]
pub struct Limits {
    /// The greatest number of half-bits.
    pub halves: u32,

    /// The greatest number of bytes, which includes gaps and comments.
    pub bytes: u32,
}

impl Limits {
    /// Creates the full limits: 2^24 half-bits and 2^26 bytes.
    pub fn full() -> Limits
        ensures { result ≡ record { halves = 16777216; bytes = 67108864 } }
    {
        Limits {
            halves: 16_777_216,
            bytes: 67_108_864,
        }
    }
}

/// A reader with its position in the text and with the limits that are left.
///
/// An input stores its first error U2, U3, U4 or U7. Each later call that would read returns this
/// error. After the end of the reader was reached, the input does not read from the reader again.
#[derive(Drop)]
pub struct Input<R: Source> {
    source: Buffered<R>,
    line: u64,
    lines: u32,
    in_comment: bool,
    closed: bool,
    halves_left: u32,
    bytes_left: u32,
    fault: Option<KeptFault>,
}

impl<R: Source> Model for Input<R> {
    ghost Value = { InputState };

    ghost view = { λ i. record {
      text = closed_text i.closed i.source.text;
      ahead = i.source.ahead;
      place = record { line = i.line; in_comment = i.in_comment };
      lines = i.lines;
      halves = i.halves_left;
      bytes = i.bytes_left + closing i.closed;
      fault = i.fault;
      failures = i.source.failures;
    } };

    // Invariant: the number of lines fits its type. A stored error U4 implies that a read failed.
    // An input at the end of its reader has no buffered byte.
    ghost invariant = { λ i. (i.line + (i.bytes_left + closing i.closed) ≤ 2 ^ 32 + 1)
        × ReadHasFailure i.fault i.source.failures
        × (i.closed ≡ true → i.source.ahead ≡ []) };
}

impl<R: Source> Input<R> {
    /// Creates an input from which nothing was read.
    pub fn new(reader: R, limits: Limits) -> Input<R>
        ensures { result ≡ fresh (R.remaining reader) (R.failures reader) limits.halves limits.bytes }
    {
        Input {
            source: Buffered::new(reader),
            line: 1,
            lines: 0,
            in_comment: false,
            closed: false,
            halves_left: limits.halves,
            bytes_left: limits.bytes,
            fault: None,
        }
    }

    #[tactic(auto, using(crate::proofs::InputLemmas::more_behind, crate::proofs::InputLemmas::line_of_byte, crate::proofs::InputLemmas::more_to_come))]
    /// Returns the next byte. The input appends a line feed to its text. Returns `None` after this
    /// line feed.
    #[inline(always)]
    pub(crate) fn next_byte(&mut self) -> Result<Option<u8>, KeptFault>
        requires { self.old.fault ≡ None }
        ensures { AnswersByte self.old result self.new }
    {
        if self.closed {
            return Ok(None);
        }
        match self.source.next() {
            Ok(Some(byte)) => {
                if self.bytes_left == 0 {
                    self.fault = Some(KeptFault::TooMuch);
                    return Err(KeptFault::TooMuch);
                }
                self.bytes_left -= 1;
                self.lines = self.line as u32;
                if byte == b'\n' {
                    self.line += 1;
                }
                Ok(Some(byte))
            }
            Ok(None) => {
                self.closed = true;
                self.line += 1;
                Ok(Some(b'\n'))
            }
            Err(_) => {
                self.fault = Some(KeptFault::Read);
                Err(KeptFault::Read)
            }
        }
    }

    /// Returns the number of lines that were used, including a line of which only a part was used.
    ///
    /// After U2 or U3 the result is the line of the error. If the error is on the line after the
    /// last line, the result is the last line. After U4, or U7 for bytes, the result is the line of
    /// the last byte that was used. After U7 for half-bits, the result is the line of the word with
    /// too many half-bits.
    pub fn lines(&self) -> u32
        ensures { result ≡ self.now.lines }
    {
        self.lines
    }

    /// Returns the stored error. Returns `None` if no error is stored.
    pub fn fault(&self) -> Option<KeptFault>
        ensures fault { result ≡ self.now.fault }
        ensures cause { ReadHasFailure self.now.fault self.now.failures }
    {
        self.fault
    }

    /// Returns the reader. The buffered bytes were already read from it.
    pub fn reader(&self) -> &R
        ensures { self.now.failures ≡ R.failures result.now }
    {
        self.source.reader()
    }

    /// Returns the number of half-bits that the limit still allows.
    pub fn halves_left(&self) -> u32
        ensures { result ≡ self.now.halves }
    {
        self.halves_left
    }

    /// Returns true if the buffer contains a complete word. The next half-bit then needs no read of
    /// the reader.
    pub fn has_buffered_word(&self) -> bool
        ensures word { IsTrue result → ended_words self.now.place self.now.ahead ≢ [] }
        ensures front { StartsWithBytes self.now.ahead self.now.text }
    {
        let ahead = self.source.ahead();
        has_ended_word(self.in_comment, ahead)
    }

    /// Returns true if `byte` separates words, because it is a gap or is in a comment. The position
    /// of the input moves past the byte.
    #[inline(always)]
    pub(crate) fn passes_gap(&mut self, byte: u8) -> bool
        ensures gap { result ≡ (comments self.old.place.in_comment byte || is_gap byte) }
        ensures place { self.new ≡ record self.old {
          place = record {
            line = self.old.place.line;
            in_comment = comments self.old.place.in_comment byte;
          };
        } }
    {
        let comment = is_comment(self.in_comment, byte);
        self.in_comment = comment;
        comment || is_gap(byte)
    }

    /// Removes and returns the next word with its line. Returns `None` if the buffer does not begin
    /// with a complete word. The line feed of a CR LF is removed only if `with_line_feed` is true.
    #[inline(always)]
    fn take_buffered_word(&mut self, with_line_feed: bool) -> Option<(u64, RunWord)>
        requires { self.old.fault ≡ None }
        ensures some { IfSome result (λ word. EndsWord self.old word.0 word.1 self.new) }
        ensures none { IfNone result (self.new ≡ self.old) }
    {
        if self.in_comment {
            return None;
        }
        let front = whole_word(self.source.ahead())?;
        // the word, its gap, and perhaps a line feed after the gap
        if self.bytes_left as usize <= front.len + 2 {
            return None;
        }
        let line = self.line;
        self.pass_word_and_gap(front.len, front.ends_line, with_line_feed);
        Some((line, front.word))
    }

    /// Removes the word of `word_len` bytes at the beginning of the buffer, and the gap after this
    /// word.
    #[inline(always)]
    fn pass_word(&mut self, word_len: usize, ends_line: bool)
        requires fault { self.old.fault ≡ None }
        requires no_comment { self.old.place.in_comment ≡ false }
        requires room { word_len + 1 < self.old.bytes }
        requires begins { BeginsWithWord self.old.ahead word_len ends_line }
        ensures passed { Passed self.old
            (record { line = self.old.place.line; bytes = take word_len self.old.ahead } ∷ []) self.new }
        ensures fewer { self.new.bytes < self.old.bytes }
        ensures behind { self.old.place.line ≤ self.new.place.line }
        ensures no_comment { self.new.place.in_comment ≡ false }
        ensures bytes { self.new.bytes + (word_len + 1) ≡ self.old.bytes }
        ensures lines { self.new.lines ≡ self.old.place.line }
        ensures line { ends_line ≡ false → self.new.place.line ≡ self.old.place.line }
    {
        self.source.skip(word_len + 1);
        self.bytes_left -= word_len as u32 + 1;
        self.lines = self.line as u32;
        if ends_line {
            self.line += 1;
        }
    }

    /// Removes the word of `word_len` bytes at the beginning of the buffer, and the gap after this
    /// word. If `with_line_feed` is true, the function also removes the line feed of a CR LF. If
    /// `with_line_feed` is false, the line feed stays. The line of the word is then the last line
    /// that was used.
    #[inline(always)]
    fn pass_word_and_gap(&mut self, word_len: usize, ends_line: bool, with_line_feed: bool)
        requires fault { self.old.fault ≡ None }
        requires no_comment { self.old.place.in_comment ≡ false }
        requires room { word_len + 2 < self.old.bytes }
        requires begins { BeginsWithWord self.old.ahead word_len ends_line }
        ensures passed { Passed self.old
            (record { line = self.old.place.line; bytes = take word_len self.old.ahead } ∷ []) self.new }
        ensures fewer { self.new.bytes < self.old.bytes }
        ensures behind { self.old.place.line ≤ self.new.place.line }
        ensures lines { self.new.lines ≡ self.old.place.line }
    {
        self.pass_word(word_len, ends_line);
        if with_line_feed && !ends_line && begins_with_line_feed(self.source.ahead()) {
            self.pass_line_feed();
        }
    }

    /// Removes the line feed at the beginning of the buffer.
    #[inline(always)]
    fn pass_line_feed(&mut self)
        requires fault { self.old.fault ≡ None }
        requires no_comment { self.old.place.in_comment ≡ false }
        requires room { 1 < self.old.bytes }
        requires begins { HasLineFeedAt self.old.ahead 0 }
        ensures passed { Passed self.old [] self.new }
        ensures fewer { self.new.bytes < self.old.bytes }
        ensures behind { self.old.place.line ≤ self.new.place.line }
        ensures lines { self.new.lines ≡ self.old.place.line }
    {
        let ended = self.line;
        self.lines = ended as u32;
        self.line = ended + 1;
        self.bytes_left -= 1;
        self.source.skip(1);
    }

    /// Skips the buffered bytes of a comment, up to the line feed at the end of the comment.
    fn pass_comment(&mut self)
        requires { self.old.fault ≡ None }
        ensures { Passed self.old [] self.new }
    {
        if !self.in_comment {
            return;
        }
        let len = len_of_line(self.source.ahead());
        if len == 0 || self.bytes_left as usize <= len {
            return;
        }
        self.source.skip(len);
        self.bytes_left -= len as u32;
        let at = self.line;
        self.lines = at as u32;
    }

    /// Returns the next word and its line. The function reads byte by byte until the buffer
    /// contains a complete word.
    fn read_word(&mut self) -> Result<Option<(u64, RunWord)>, KeptFault>
        requires { self.old.fault ≡ None }
        ensures { AnswersWord self.old result self.new }
    {
        let mut word = RunWord::new();
        'bytes: loop {
            let line = self.line;
            match self.next_byte()? {
                Some(byte) => {
                    if !self.passes_gap(byte) {
                        word.push(byte);
                    } else if !word.is_empty() {
                        return Ok(Some((line, word)));
                    } else {
                        self.pass_comment();
                        if let Some(found) = self.take_buffered_word(true) {
                            return Ok(Some(found));
                        }
                    }
                }
                None => return Ok(None),
            }
        }
    }

    /// Removes the next word and returns its duration, for words of any length and any gap. Returns
    /// `None` if the buffer does not begin with a complete word that is a duration.
    #[inline(never)]
    fn take_any_buffered_half(&mut self) -> Option<u16>
        requires fault { self.old.fault ≡ None }
        requires no_comment { self.old.place.in_comment ≡ false }
        requires left { 0 < self.old.halves }
        ensures some { IfSome result (λ us. TakesHalf self.old us self.new) }
        ensures none { IfNone result (self.new ≡ self.old) }
    {
        let front = front_word(self.source.ahead())?;
        self.take_front(front)
    }

    /// Removes the short words at the beginning of the buffer, writes their durations to `halves`, and
    /// returns their number. The function removes words until `halves` is full or another word
    /// follows. Returns 0 near the limits of half-bits and bytes.
    #[inline(always)]
    fn take_short_halves(&mut self, halves: &mut [u16]) -> usize
        requires fault { self.old.fault ≡ None }
        requires no_comment { self.old.place.in_comment ≡ false }
        ensures taken { TakesHalves self.old (take result halves.new) self.new }
        ensures count { result ≤ length halves.new }
        ensures same_len { length halves.new ≡ length halves.old }
    {
        let ahead = self.source.ahead();
        if ahead.is_empty() || self.bytes_left as usize <= ahead.len() {
            return 0;
        }
        if (self.halves_left as usize) < halves.len() {
            return 0;
        }
        let words = short_words(ahead, self.line, u64::from(self.lines), halves);
        if words.count == 0 {
            return 0;
        }
        self.source.skip(words.len);
        self.bytes_left -= words.len as u32;
        self.halves_left -= words.count as u32;
        self.line = words.line;
        self.lines = words.last as u32;
        words.count
    }

    /// Removes the word at the beginning of the buffer and returns its duration. Returns `None` if
    /// the limit of bytes is exceeded.
    #[inline(always)]
    fn take_front(&mut self, front: FrontWord) -> Option<u16>
        requires fault { self.old.fault ≡ None }
        requires no_comment { self.old.place.in_comment ≡ false }
        requires left { 0 < self.old.halves }
        requires front { IsFrontWord self.old.ahead front }
        ensures some { IfSome result (λ us. TakesHalf self.old us self.new) }
        ensures none { IfNone result (self.new ≡ self.old) }
    {
        // the word, its gap, and perhaps a line feed after the gap
        if self.bytes_left as usize <= front.len + 2 {
            return None;
        }
        self.pass_word_and_gap(front.len, front.ends_line, true);
        self.halves_left -= 1;
        Some(front.us)
    }

    /// Returns all bytes that are left, without the line feed that the input appends.
    pub(crate) fn read_all(&mut self, alloc: Global) -> Result<Vec<u8>, ToolFault>
        requires { self.old.fault ≡ None }
        ensures { MatchResult result
            (λ bytes. GivesAllBytes self.old bytes.items self.new)
            (λ fault. LacksBytes self.old fault self.new) }
    {
        let mut bytes = Vec::new(alloc);
        'bytes: loop {
            match self.next_byte()? {
                Some(byte) => {
                    if bytes.push(byte).is_err() {
                        return Err(ToolFault::NoMemory);
                    }
                }
                None => {
                    let len = bytes.len().saturating_sub(1);
                    bytes.truncate(len);
                    return Ok(bytes);
                }
            }
        }
    }

    /// Returns the next line and its number. Returns `None` at the end of the input. If the
    /// function returns an error, the input stores this error.
    pub(crate) fn next_line(&mut self) -> Result<Option<TextLine>, KeptFault>
        requires { self.old.fault ≡ None }
        ensures { AnswersLine self.old result self.new }
    {
        let mut line = TextLine::new(self.line);
        'bytes: loop {
            match self.next_byte()? {
                Some(byte) => {
                    if byte == b'\n' {
                        return Ok(Some(line));
                    }
                    if !line.has_room_for(byte) {
                        return Err(self.refuse(KeptFault::Line {
                            line: line.number,
                            fault: PacketFault::Word,
                        }));
                    }
                    line.push(byte);
                }
                None => return Ok(None),
            }
        }
    }

    /// Returns the next line, if the buffer contains the complete line and the line is valid.
    /// Returns `None` for a line that is blank or a comment.
    pub(crate) fn whole_line(&self) -> Option<&[u8]>
        ensures { IfSome result (λ line. IsFrontLine self.now.ahead line.now) }
    {
        front_line(self.source.ahead())
    }

    /// Removes the next line and returns true, if the buffer contains the complete line, and the
    /// line is a valid line that is blank or a comment. Returns false, and removes nothing, for any
    /// other line.
    pub(crate) fn take_skipped_line(&mut self) -> bool
        requires { self.old.fault ≡ None }
        ensures taken { IsTrue result → SkipsLine self.old self.new }
        ensures left { result ≡ false → self.new ≡ self.old }
    {
        match skipped_line_len(self.source.ahead()) {
            Some(len) => self.take_line(len),
            None => false,
        }
    }

    /// Removes the line of `len` bytes at the beginning of the buffer and returns true. Returns
    /// false, and removes nothing, if the limit of bytes is exceeded.
    pub(crate) fn take_line(&mut self, len: usize) -> bool
        requires fault { self.old.fault ≡ None }
        requires begins { (line : List ℕ) × BeginsWithLine self.old.ahead line × (length line ≡ len) }
        ensures taken { IsTrue result → (line : List ℕ) → BeginsWithLine self.old.ahead line → length line ≡ len
            → ReadsLine self.old self.old.place.line line self.new }
        ensures left { result ≡ false → self.new ≡ self.old }
    {
        if self.bytes_left as usize <= len {
            return false;
        }
        self.source.skip(len + 1);
        self.bytes_left -= len as u32 + 1;
        let used = self.line as u32;
        self.lines = used;
        self.line += 1;
        true
    }

    /// Stores and returns the error `fault`. Each later call returns this error too.
    pub(crate) fn refuse(&mut self, fault: KeptFault) -> KeptFault
        requires { fault ≢ KeptFault.Read }
        ensures answer { result ≡ fault }
        ensures kept { self.new ≡ record self.old { fault = Some fault } }
    {
        self.fault = Some(fault);
        fault
    }
}

/// Returns the next word and its line. Returns `None` at the end of the input. If the function
/// returns an error, the input stores this error.
#[inline(always)]
pub fn next_word<R: Source>(input: &mut Input<R>) -> Result<Option<(u64, RunWord)>, KeptFault>
    ensures kept { AnswersKept input.old result input.new }
    ensures reads { input.old.fault ≡ None → AnswersWord input.old result input.new }
{
    if let Some(fault) = input.fault() {
        return Err(fault);
    }
    match input.take_buffered_word(false) {
        Some(word) => Ok(Some(word)),
        None => input.read_word(),
    }
}

/// Removes the next words while they are durations, writes these durations to the beginning of
/// `halves`, and returns their number. The buffer contains these words completely, so the function
/// reads nothing. Returns 0 if the buffer does not begin with a complete word that is a duration.
/// The half-bits count against the limit. Most half-bits of a capture are read by this function.
#[inline(always)]
pub fn take_buffered_halves<R: Source>(input: &mut Input<R>, halves: &mut [u16]) -> usize
    requires { input.old.fault ≡ None }
    ensures taken { TakesHalves input.old (take result halves.new) input.new }
    ensures count { result ≤ length halves.new }
    ensures same_len { length halves.new ≡ length halves.old }
{
    if input.in_comment || input.halves_left == 0 || begins_with_run(input.source.ahead()) {
        return 0;
    }
    let count = input.take_short_halves(halves);
    if count > 0 || halves.is_empty() {
        return count;
    }
    match input.take_any_buffered_half() {
        Some(us) => {
            halves[0] = us;
            1
        }
        None => 0,
    }
}

/// Removes the next word and returns its run. Returns `None` if the buffer does not begin with a
/// complete word that has a `*`. Returns `None` if the limit does not allow all half-bits of the
/// run. The half-bits count against the limit.
pub fn take_buffered_run<R: Source>(input: &mut Input<R>) -> Option<Run>
    requires { input.old.fault ≡ None }
    ensures some { IfSome result (λ run. TakesRun input.old run input.new) }
    ensures none { IfNone result (input.new ≡ input.old) }
{
    if input.in_comment {
        return None;
    }
    let front = front_run(input.source.ahead())?;
    // the word, its gap, and perhaps a line feed after the gap
    if input.bytes_left as usize <= front.len + 2 || input.halves_left < front.run.n {
        return None;
    }
    input.pass_word_and_gap(front.len, front.ends_line, true);
    input.halves_left -= front.run.n;
    Some(front.run)
}

/// Subtracts the half-bits of a run from the limit, and returns the run.
///
/// Errors: U7 if the limit does not allow all half-bits of the run. After U7 the limit is
/// unchanged, and the input stores the error.
#[inline(always)]
pub fn count_run<R: Source>(input: &mut Input<R>, run: Run) -> Result<Option<Run>, KeptFault>
    requires { input.old.fault ≡ None }
    ensures { CountsRun input.old run result input.new }
{
    if input.halves_left < run.n {
        return Err(input.refuse(KeptFault::TooMuch));
    }
    input.halves_left -= run.n;
    Ok(Some(run))
}

/// Returns the number of the line of the next byte. Lines count from 1.
pub fn line_of_next_byte<R: Source>(input: &Input<R>) -> u64
    ensures { result ≡ input.now.place.line }
{
    input.line
}

/// Returns true if `bytes` contain the end of a word. The parameter `in_comment` is true if the
/// bytes begin in a comment.
fn has_ended_word(in_comment: bool, bytes: &[u8]) -> bool
    ensures { (line : ℕ) → IsTrue result
        → ended_words (record { line = line; in_comment = in_comment }) bytes.now ≢ [] }
{
    let mut in_comment = in_comment;
    let mut in_word = false;
    for byte in bytes {
        let comment = is_comment(in_comment, *byte);
        in_comment = comment;
        if !ends_word(comment, *byte) {
            in_word = true;
        } else if in_word {
            return true;
        }
    }
    false
}

/// Returns true if `byte` ends the word before it. The parameter `comment` is true if `byte` is in
/// a comment.
#[inline(always)]
fn ends_word(comment: bool, byte: u8) -> bool
    ensures { result ≡ (comment || is_gap byte) }
{
    comment || is_gap(byte)
}

#[tactic(auto, unfolding(crate::specs::Words::comments))]
#[inline(always)]
fn is_comment(in_comment: bool, byte: u8) -> bool
    ensures { result ≡ comments in_comment byte }
{
    byte != b'\n' && (in_comment || byte == b'#')
}
