//! Readers and writers that count how often they failed.
ghost use Rattle.std.specs.Prelude.{◌≡◌, ◌≤◌, ◌+◌, ℕ, List, Option, IfOk, length};
ghost use Rattle.std.specs.Io.KnownBytes.{ReadConsumes, WriteAppends};
ghost use Rattle.dcc_io.specs.Failures.{one_more, after_read, after_write};
ghost use Rattle.dcc_io.specs.WriterState.{WriterState};

use std::io;

/// The error of a failed read or a failed write.
#[derive(Clone, Copy, Debug, PartialEq, Eq)]
pub struct Failed;

/// A source of bytes.
pub trait Source {
    // the bytes that later reads will return, or `None` if the source does not define them
    ghost remaining: { Self → Option (List ℕ) };

    // the number of reads that have failed
    ghost failures: { Self → ℕ };

    // the number of reads, if the source counts them; a source without a count uses the default
    ghost reads: { Self → ℕ } = { λ _. 0 };

    /// Writes bytes to the beginning of `buffer` and returns their number. Returns 0 at the end of
    /// the source.
    fn read(&mut self, buffer: &mut [u8]) -> Result<usize, Failed>
        ensures bound { IfOk result (λ n. n ≤ length buffer.new) }
        ensures bytes { ReadConsumes (remaining self.old) (remaining self.new) result buffer.new }
        ensures failures { failures self.new ≡ after_read (failures self.old) result }
        ensures reads { reads self.new ≤ reads self.old + 1 };
}

/// A destination of bytes.
///
/// No operation flushes a destination, so `write` must pass on each byte that it accepts.
pub trait Sink {
    // the bytes that were written, and the number of writes that failed or wrote no byte
    ghost state: { Self → WriterState };

    /// Writes a prefix of `bytes` and returns the length of this prefix.
    fn write(&mut self, bytes: &[u8]) -> Result<usize, Failed>
        ensures bound { IfOk result (λ n. n ≤ length bytes.now) }
        ensures bytes { WriteAppends (state self.old).contents (state self.new).contents result bytes.now }
        ensures failures { (state self.new).failures ≡ after_write (state self.old).failures result bytes.now };
}

/// A reader or writer of the standard library that counts how often it failed.
///
/// An interrupted read or write counts as failed. A writer with a buffer of its own, such as
/// `BufWriter`, must not be used, since an error after the last write would be lost.
#[derive(Debug, Drop)]
pub struct Counted<T> {
    /// The reader or writer that is wrapped.
    pub inner: T,

    /// The number of failed calls. A write that writes none of the given bytes counts as failed
    /// too. The number stops at its greatest value.
    pub failures: u64,
}

impl<T> Counted<T> {
    /// Wraps a reader or writer, and sets the number of failures to 0.
    pub fn new(inner: T) -> Counted<T>
        ensures inner { result.inner ≡ inner }
        ensures none_failed { result.failures ≡ 0 }
    {
        Counted { inner, failures: 0 }
    }

    fn count_failure(&mut self)
        ensures inner { self.new.inner ≡ self.old.inner }
        ensures failures { self.new.failures ≡ one_more self.old.failures }
    {
        self.failures = self.failures.saturating_add(1);
    }
}

impl<R: io::Read> Source for Counted<R> {
    ghost remaining = { λ counted. R.remaining counted.inner };

    ghost failures = { λ counted. counted.failures };

    fn read(&mut self, buffer: &mut [u8]) -> Result<usize, Failed> {
        match self.inner.read(buffer) {
            Ok(n) => Ok(n),
            Err(_) => {
                self.count_failure();
                Err(Failed)
            }
        }
    }
}

// Standard output has no buffer here, since each write is a system call. So a flush is not needed,
// and no error can occur after the last write.
impl<W: io::Write> Sink for Counted<W> {
    ghost state = { λ counted. record { contents = W.contents counted.inner; failures = counted.failures } };

    fn write(&mut self, bytes: &[u8]) -> Result<usize, Failed> {
        match self.inner.write(bytes) {
            Ok(0) if !bytes.is_empty() => {
                self.count_failure();
                Ok(0)
            }
            Ok(n) => Ok(n),
            Err(_) => {
                self.count_failure();
                Err(Failed)
            }
        }
    }
}
