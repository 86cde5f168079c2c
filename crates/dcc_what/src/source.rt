//! A source of the bytes of a slice.
ghost use Rattle.std.specs.Prelude.{Some};

use dcc_io::{Failed, Source};

/// A source of the bytes of a slice. No read fails.
#[derive(Drop)]
pub(crate) struct InMemory<'a> {
    pub(crate) rest: &'a [u8],
}

impl<'a> Source for InMemory<'a> {
    ghost remaining = { λ source. Some source.rest.now };

    ghost failures = { λ _. 0 };

    fn read(&mut self, buffer: &mut [u8]) -> Result<usize, Failed> {
        let n = self.rest.len().min(buffer.len());
        buffer[..n].copy_from_slice(&self.rest[..n]);
        self.rest = &self.rest[n..];
        Ok(n)
    }
}
