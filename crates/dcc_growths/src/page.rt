//! A writer that does not allocate.
ghost use Rattle.std.specs.Prelude.{None};

use dcc_io::{Failed, Sink};

/// A writer that writes to an array. A write returns 0 if the array is full.
#[derive(Drop)]
pub struct Page {
    bytes: [u8; 2048],
    len: usize,
    failures: u64,
}

impl Page {
    pub fn new() -> Page {
        Page {
            bytes: [0; 2048],
            len: 0,
            failures: 0,
        }
    }

    /// Returns true if exactly the bytes `text` were written.
    pub fn is(&self, text: &[u8]) -> bool {
        match self.bytes.get(..self.len) {
            Some(written) => written == text,
            None => false,
        }
    }

    /// Returns the bytes that were written.
    pub fn text(&self) -> &[u8] {
        self.bytes.get(..self.len).unwrap_or(&[])
    }
}

impl Sink for Page {
    ghost state = { λ page. record { contents = None; failures = page.failures } };

    fn write(&mut self, bytes: &[u8]) -> Result<usize, Failed> {
        let len = self.len.min(2048);
        let room = &mut self.bytes[len..];
        let count = bytes.len().min(room.len());
        room[..count].copy_from_slice(&bytes[..count]);
        self.len = len + count;
        if count == 0 && !bytes.is_empty() {
            self.failures = self.failures.saturating_add(1);
        }
        Ok(count)
    }
}
