//! A custom reader that reads two texts one after the other, such as a decoder text and a capture.

ghost use Rattle.std.specs.Prelude.{◌≡◌, ◌≤◌, ◌<◌, ◌++◌, [], Some, length, take};

use dcc_tool::{Failed, Source};

/// A reader of two texts in memory. It reads one text after the other.
#[derive(Drop)]
pub struct ChainedReader<'a> {
    pub first: &'a [u8],
    pub second: &'a [u8],
}

impl<'a> Source for ChainedReader<'a> {
    ghost remaining = { λ s. Some (s.first.now ++ s.second.now) };

    ghost failures = { λ s. 0 };

    fn read(&mut self, buffer: &mut [u8]) -> Result<usize, Failed> {
        self.go_on();
        let n = fill(buffer, self.first);
        self.first = &self.first[n..];
        Ok(n)
    }
}

impl<'a> ChainedReader<'a> {
    /// Continues with the second text if no byte of the first text is left.
    fn go_on(&mut self)
        ensures same { self.new.first.now ++ self.new.second.now ≡ self.old.first.now ++ self.old.second.now }
        ensures ended { length self.new.first.now ≡ 0 → self.new.second.now ≡ [] }
    {
        if self.first.is_empty() {
            self.first = self.second;
            self.second = &[];
        }
    }
}

/// Copies a prefix of `text` to the beginning of `buffer`, and returns the number of bytes. The
/// prefix fills the buffer if the text is long enough.
fn fill(buffer: &mut [u8], text: &[u8]) -> usize
    ensures of_text { result ≤ length text.now }
    ensures in_buffer { result ≤ length buffer.new }
    ensures bytes { take result buffer.new ≡ take result text.now }
    ensures some { result ≡ 0 → 0 < length buffer.new → length text.now ≡ 0 }
{
    let n = text.len().min(buffer.len());
    buffer[..n].copy_from_slice(&text[..n]);
    n
}
