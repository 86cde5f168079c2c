//! A custom reader and a custom writer for tests. The reader and the writer fail after a number of
//! calls.

ghost use Rattle.std.specs.Prelude.{Some};
ghost use Rattle.dcc_tool.specs.WriterState.{WriterState};

use dcc_tool::{Failed, Sink, Source};

/// A reader of bytes in memory, which fails after `calls_left` calls.
#[derive(Drop)]
pub struct FailingReader<'a> {
    pub bytes: &'a [u8],
    pub calls_left: u64,
    pub failures: u64,
}

impl<'a> Source for FailingReader<'a> {
    ghost remaining = { λ s. Some s.bytes.now };

    ghost failures = { λ s. s.failures };

    fn read(&mut self, buffer: &mut [u8]) -> Result<usize, Failed> {
        if self.calls_left == 0 {
            self.failures = self.failures.saturating_add(1);
            return Err(Failed);
        }
        self.calls_left -= 1;
        let n = self.bytes.len().min(buffer.len());
        buffer[..n].copy_from_slice(&self.bytes[..n]);
        self.bytes = &self.bytes[n..];
        Ok(n)
    }
}

/// A writer into memory, which fails after `calls_left` calls, or if an allocation fails.
#[derive(Drop)]
pub struct FailingWriter {
    pub bytes: Vec<u8>,
    pub calls_left: u64,
    pub failures: u64,
}

impl Sink for FailingWriter {
    ghost state = { λ s. record { contents = Some s.bytes.items; failures = s.failures } };

    fn write(&mut self, bytes: &[u8]) -> Result<usize, Failed> {
        if self.calls_left == 0 || self.bytes.extend_from_slice(bytes).is_err() {
            self.failures = self.failures.saturating_add(1);
            return Err(Failed);
        }
        self.calls_left -= 1;
        Ok(bytes.len())
    }
}
