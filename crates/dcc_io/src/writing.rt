//! A function that writes all bytes of a list.
ghost use Rattle.dcc_io.specs.WrittenBytes.{Writes};

use crate::stream::{Failed, Sink};

/// Writes all bytes of `bytes`, with as many calls of the writer as needed.
///
/// Errors: Failed if a write fails or writes no byte. After a failed write, a prefix of `bytes` was
/// written.
pub fn write_all<W: Sink>(writer: &mut W, bytes: &[u8]) -> Result<(), Failed>
    ensures { Writes (W.state writer.old) bytes.now result (W.state writer.new) }
{
    let mut done = 0;
    'calls: while done < bytes.len() {
        match writer.write(&bytes[done..])? {
            0 => return Err(Failed),
            count => done += count,
        }
    }
    Ok(())
}
