//! A reader with a buffer, which returns single bytes.
ghost use Rattle.std.specs.Prelude.{◌≡◌, ◌≤◌, ◌↔◌, ℕ, IsTrue, None, List, [], length, take, drop, slice_range};
ghost use Rattle.std.specs.Io.KnownBytes.{prepend_known, Consumes};
ghost use Rattle.dcc_io.specs.ReaderState.{ReaderState, StartsWithBytes, AnswersNext, Fills, TakesFirst};

use crate::stream::{Failed, Source};
use std::marker::Model;

const SIZE: usize = 4096;

/// A reader with a buffer of 4096 bytes. The reader fills the buffer only when it is empty.
#[derive(Drop)]
pub struct Buffered<R: Source> {
    reader: R,
    buffer: [u8; SIZE],
    start: usize,
    end: usize,
}

impl<R: Source> Model for Buffered<R> {
    ghost Value = { ReaderState };

    ghost view = { λ b. record {
      ahead = slice_range b.buffer b.start b.end;
      text = prepend_known (slice_range b.buffer b.start b.end) (R.remaining b.reader);
      failures = R.failures b.reader;
      reads = R.reads b.reader;
    } };

    ghost invariant = { λ b. (b.start ≤ b.end) × (b.end ≤ 4096) };
}

impl<R: Source> Buffered<R> {
    pub fn new(reader: R) -> Buffered<R>
        ensures { result ≡ record {
          ahead = [];
          text = R.remaining reader;
          failures = R.failures reader;
          reads = R.reads reader;
        } }
    {
        Buffered {
            reader,
            buffer: [0; SIZE],
            start: 0,
            end: 0,
        }
    }

    /// Returns the reader. The buffered bytes were already read from it.
    pub fn reader(&self) -> &R
        ensures { self.now.failures ≡ R.failures result.now }
    {
        &self.reader
    }

    /// Returns the buffered bytes, which were read and are not used yet.
    #[inline(always)]
    pub fn ahead(&self) -> &[u8]
        ensures bytes { result.now ≡ self.now.ahead }
        ensures front { StartsWithBytes self.now.ahead self.now.text }
    {
        &self.buffer[self.start..self.end]
    }

    /// Removes the first `count` buffered bytes.
    #[inline(always)]
    pub fn skip(&mut self, count: usize)
        requires { count ≤ length self.old.ahead }
        ensures ahead { self.new.ahead ≡ drop count self.old.ahead }
        ensures text { Consumes self.old.text self.new.text (take count self.old.ahead) }
        ensures unknown { self.old.text ≡ None → self.new.text ≡ None }
        ensures failures { self.new.failures ≡ self.old.failures }
        ensures reads { self.new.reads ≡ self.old.reads }
    {
        self.start += count;
    }

    /// Returns the next byte. Returns `None` at the end of the bytes of the reader. The function
    /// reads from the reader only if the buffer is empty, and then reads once.
    #[inline(always)]
    pub fn next(&mut self) -> Result<Option<u8>, Failed>
        ensures { AnswersNext self.old result self.new }
    {
        if self.is_used_up() {
            self.fill()?;
        }
        Ok(self.take_first())
    }

    /// Returns true if the buffer is empty.
    #[inline(always)]
    fn is_used_up(&self) -> bool
        ensures { IsTrue result ↔ (self.now.ahead ≡ []) }
    {
        self.ahead().is_empty()
    }

    /// Reads once from the reader into the empty buffer.
    #[inline(never)]
    fn fill(&mut self) -> Result<(), Failed>
        requires { self.old.ahead ≡ [] }
        ensures { Fills self.old result self.new }
    {
        let count = self.reader.read(&mut self.buffer)?;
        self.start = 0;
        self.end = count;
        Ok(())
    }

    /// Removes and returns the first buffered byte. Returns `None` if the buffer is empty.
    #[inline(always)]
    fn take_first(&mut self) -> Option<u8>
        ensures { TakesFirst self.old result self.new }
    {
        if self.start == self.end {
            return None;
        }
        let byte = self.buffer[self.start];
        self.start += 1;
        Some(byte)
    }
}
