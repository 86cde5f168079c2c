//! Functions that find lines of a text and words of a line.
ghost use Rattle.std.specs.Prelude.{◌≡◌, ◌≤◌, MatchOption, None, Some, length, position};
ghost use Rattle.dcc_packet.specs.Words.{words};
ghost use Rattle.dcc_what.specs.Lines.{first_bad, first_with_word, is_hash, is_line_feed, line_numbered, lines_of};
ghost use Rattle.dcc_what.specs.Lines.{without_comment};
ghost use Rattle.std.specs.List.{position_or_len};

use dcc_io::inputs::run_of;
use dcc_packet::words::Words;

/// Returns the first line of `text` that has a word, without its comment. Returns an empty slice if
/// no line has a word.
pub(crate) fn first_with_word(text: &[u8]) -> &[u8]
    ensures { result.now ≡ first_with_word (lines_of text.now) }
{
    let mut rest = text;
    'lines: loop {
        let len = line_len(rest);
        let line = without_comment(&rest[..len]);
        match Words::new(line).next() {
            Some(_) => return line,
            None if len == len_of(rest) => return &rest[..0],
            None => rest = rest.split_at(len + 1).1,
        }
    }
}

/// Returns line `number` of `text`, without its comment. Lines count from 1. Returns an empty slice if
/// there is no such line.
pub(crate) fn line_numbered(text: &[u8], number: u64) -> &[u8]
    ensures { result.now ≡ line_numbered number (lines_of text.now) }
{
    let mut rest = text;
    let mut left = number;
    'lines: loop {
        let len = line_len(rest);
        if left == 1 {
            return without_comment(&rest[..len]);
        }
        if len == len_of(rest) {
            return &rest[..0];
        }
        left = left.saturating_sub(1);
        rest = rest.split_at(len + 1).1;
    }
}

/// Returns the first word of `line` that is no run, and its place, which counts from 1. Returns `None`
/// if all words are runs.
pub(crate) fn bad_word(line: &[u8]) -> Option<(usize, &[u8])>
    ensures { MatchOption result (first_bad 1 (words line.now) ≡ None)
        (λ found. first_bad 1 (words line.now) ≡ Some (found.0, found.1.now)) }
{
    let most = len_of(line);
    let mut words = Words::new(line);
    let mut place = 0;
    'words: while place < most {
        match words.next() {
            Some(word) => {
                place += 1;
                if run_of(word).is_none() {
                    return Some((place, word));
                }
            }
            None => return None,
        }
    }
    None
}

/// Returns the part of `line` before its first `#`.
fn without_comment(line: &[u8]) -> &[u8]
    ensures { result.now ≡ without_comment line.now }
{
    &line[..comment_place(line)]
}

/// Returns the number of bytes before the first `#`, or of all bytes if there is no `#`.
#[tactic(auto, using(dcc_packet::proofs::FirstWord::first_place))]
fn comment_place(line: &[u8]) -> usize
    ensures { result ≡ position_or_len is_hash line.now }
{
    first_hash(line).unwrap_or(line.len())
}

fn first_hash(line: &[u8]) -> Option<usize>
    ensures { result ≡ position is_hash line.now }
{
    line.iter().position(|byte| *byte == b'#')
}

/// Returns the number of bytes before the first line feed, or of all bytes if there is no line feed.
#[tactic(auto, using(dcc_packet::proofs::FirstWord::first_place, crate::proofs::LinesLemmas::place_bound))]
fn line_len(text: &[u8]) -> usize
    ensures place { result ≡ position_or_len is_line_feed text.now }
    ensures bound { result ≤ length text.now }
{
    first_line_feed(text).unwrap_or(text.len())
}

fn first_line_feed(text: &[u8]) -> Option<usize>
    ensures { result ≡ position is_line_feed text.now }
{
    text.iter().position(|byte| *byte == b'\n')
}

/// Returns the number of bytes.
fn len_of(bytes: &[u8]) -> usize
    ensures { result ≡ length bytes.now }
{
    bytes.len()
}
