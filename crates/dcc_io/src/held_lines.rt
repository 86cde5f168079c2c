//! A buffer that stores output lines until they are written.
ghost use Rattle.std.specs.Prelude.{◌≡◌, ◌≤◌, ◌++◌, [], ◌↔◌, IsTrue, OnOk, length};
ghost use Rattle.dcc_io.specs.WrittenBytes.{Writes};
ghost use Rattle.dcc_io.specs.Held.{HoldsOrFails};

use crate::stream::{Failed, Sink};
use crate::writing::write_all;
use std::marker::Model;

/// A buffer of complete lines, with at most 4096 bytes, which the writer writes together.
///
/// The owner writes all buffered lines before it reads more input. So a complete line never waits
/// for input.
// (an `ArrayVec` would overwrite the written bytes with zeros)
#[derive(Drop)]
pub struct HeldLines {
    bytes: [u8; 4096],
    len: usize,
}

impl Model for HeldLines {
    ghost use Rattle.std.specs.Prelude.{ℕ, List, take, ◌≤◌};

    ghost Value = { List ℕ };

    ghost view = { λ h. take h.len h.bytes };

    ghost invariant = { λ h. h.len ≤ 4096 };
}

impl HeldLines {
    /// Creates an empty buffer.
    pub fn new() -> HeldLines
        ensures { result ≡ [] }
    {
        HeldLines {
            bytes: [0; 4096],
            len: 0,
        }
    }

    /// Returns true if the buffer is empty.
    pub fn is_empty(&self) -> bool
        ensures { IsTrue result ↔ (self.now ≡ []) }
    {
        self.len == 0
    }

    /// Appends a line of at most 4096 bytes. If the buffer has no capacity for the line, the
    /// function first writes the buffered lines.
    ///
    /// Errors: Failed if a write fails. After a failed write the line is not appended.
    pub fn hold<W: Sink>(&mut self, line: &[u8], writer: &mut W) -> Result<(), Failed>
        requires { length line.now ≤ 4096 }
        ensures { HoldsOrFails (W.state writer.old) (self.old ++ line.now) result self.new
            (W.state writer.new) }
    {
        if 4096 - self.len < line.len() {
            self.write_out(writer)?;
        }
        let end = self.len + line.len();
        self.bytes[self.len..end].copy_from_slice(line);
        self.len = end;
        Ok(())
    }

    /// Writes all buffered lines, and clears the buffer.
    ///
    /// Errors: Failed if a write fails. After a failed write, a prefix of the buffered bytes was
    /// written.
    pub fn write_out<W: Sink>(&mut self, writer: &mut W) -> Result<(), Failed>
        ensures writes { Writes (W.state writer.old) self.old result (W.state writer.new) }
        ensures empty { OnOk result (self.new ≡ []) }
    {
        write_all(writer, &self.bytes[..self.len])?;
        self.len = 0;
        Ok(())
    }
}
