//! Readers and writers for the tests, which fail, count calls, or take few bytes.
ghost use Rattle.std.specs.Prelude.{None};

use dcc_tool::{Failed, Sink, Source};
use std::alloc::Global;
use std::cell::Cell;

/// A reader that gives at most `each` bytes in a call. The call after `calls_left` calls fails. If
/// `endless` is true, the reader gives its bytes again after the last byte.
#[derive(Drop)]
pub struct Giving<'a> {
    pub bytes: &'a [u8],
    pub each: usize,
    pub at: usize,
    pub calls_left: u32,
    pub endless: bool,
    pub failures: u64,
}

impl<'a> Giving<'a> {
    pub fn new(bytes: &'a [u8], each: usize, calls_left: u32, endless: bool) -> Giving<'a> {
        Giving {
            bytes,
            each,
            at: 0,
            calls_left,
            endless,
            failures: 0,
        }
    }
}

impl<'a> Source for Giving<'a> {
    ghost remaining = { λ _. None };

    ghost failures = { λ reader. reader.failures };

    fn read(&mut self, buffer: &mut [u8]) -> Result<usize, Failed> {
        if self.calls_left == 0 {
            self.failures = self.failures.saturating_add(1);
            return Err(Failed);
        }
        self.calls_left -= 1;
        if self.at >= self.bytes.len() {
            if !self.endless {
                return Ok(0);
            }
            self.at = 0;
        }
        let left = &self.bytes[self.at..];
        let count = self.each.min(left.len()).min(buffer.len());
        buffer[..count].copy_from_slice(&left[..count]);
        self.at += count;
        Ok(count)
    }
}

/// A writer that takes at most `each` bytes in a call. The call after `calls_left` calls fails.
#[derive(Drop)]
pub struct Taking {
    pub taken: Vec<u8>,
    pub each: usize,
    pub calls_left: u32,
    pub failures: u64,
}

impl Taking {
    pub fn new(alloc: Global, each: usize, calls_left: u32) -> Taking {
        Taking {
            taken: Vec::new(alloc),
            each,
            calls_left,
            failures: 0,
        }
    }
}

impl Sink for Taking {
    ghost state = { λ writer. record { contents = None; failures = writer.failures } };

    fn write(&mut self, bytes: &[u8]) -> Result<usize, Failed> {
        let count = self.each.min(bytes.len());
        if self.calls_left > 0 && self.taken.extend_from_slice(&bytes[..count]).is_ok() {
            self.calls_left -= 1;
            if count == 0 && !bytes.is_empty() {
                self.failures = self.failures.saturating_add(1);
            }
            return Ok(count);
        }
        self.failures = self.failures.saturating_add(1);
        Err(Failed)
    }
}

/// Counters that the reader and the writer of one test share.
#[derive(Drop)]
pub struct Track {
    pub reads: Cell<usize>,
    pub writes: Cell<usize>,
    pub written: Cell<usize>,
    pub late: Cell<bool>,
}

impl Track {
    pub fn new() -> Track {
        Track {
            reads: Cell::new(0),
            writes: Cell::new(0),
            written: Cell::new(0),
            late: Cell::new(false),
        }
    }
}

/// A reader that gives one word in a call. The reader sets `late` if 31 more words were given and
/// no further line of 14 bytes was written.
#[derive(Drop)]
pub struct Watching<'a> {
    pub words: &'a [u8],
    pub track: &'a Track,
}

impl<'a> Source for Watching<'a> {
    ghost remaining = { λ _. None };

    ghost failures = { λ _. 0 };

    fn read(&mut self, buffer: &mut [u8]) -> Result<usize, Failed> {
        let given = self.track.reads.get();
        if given % 31 == 0 && self.track.written.get() / 14 != given / 31 {
            self.track.late.set(true);
        }
        self.track.reads.set(given.saturating_add(1));
        let end = self.words.iter().position(|byte| *byte == b' ');
        let len = end.map_or(0, |at| at + 1).min(buffer.len());
        buffer[..len].copy_from_slice(&self.words[..len]);
        self.words = &self.words[len..];
        Ok(len)
    }
}

/// A reader of lines with equal lengths that gives at most `each` bytes in a call. The reader sets
/// `late` if the number of written lines, of 7 bytes each, differs from the number of lines that
/// were given completely.
#[derive(Drop)]
pub struct WatchingLines<'a> {
    pub lines: &'a [u8],
    pub line_len: usize,
    pub each: usize,
    pub at: usize,
    pub track: &'a Track,
}

impl<'a> Source for WatchingLines<'a> {
    ghost remaining = { λ _. None };

    ghost failures = { λ _. 0 };

    fn read(&mut self, buffer: &mut [u8]) -> Result<usize, Failed> {
        if self.line_len > 0 && self.track.written.get() / 7 != self.at / self.line_len {
            self.track.late.set(true);
        }
        self.track
            .reads
            .set(self.track.reads.get().saturating_add(1));
        let left = if self.at < self.lines.len() {
            &self.lines[self.at..]
        } else {
            b"".as_slice()
        };
        let count = self.each.min(left.len()).min(buffer.len());
        buffer[..count].copy_from_slice(&left[..count]);
        self.at += count;
        Ok(count)
    }
}

/// A writer that takes all bytes, and counts the calls and the bytes.
#[derive(Drop)]
pub struct Counting<'a> {
    pub track: &'a Track,
}

impl<'a> Sink for Counting<'a> {
    // Each call takes all bytes that the caller passes to it.
    ghost state = { λ _. record { contents = None; failures = 0 } };

    fn write(&mut self, bytes: &[u8]) -> Result<usize, Failed> {
        self.track
            .writes
            .set(self.track.writes.get().saturating_add(1));
        self.track
            .written
            .set(self.track.written.get().saturating_add(bytes.len()));
        Ok(bytes.len())
    }
}
