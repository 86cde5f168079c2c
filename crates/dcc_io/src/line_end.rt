//! A function that skips the rest of a line.
ghost use Rattle.std.specs.Prelude.{◌≡◌, None};
ghost use Rattle.dcc_io.specs.LineEnd.{SkipsToLineEnd};

use crate::fault::KeptFault;
use crate::input::Input;
use crate::stream::Source;
use crate::word::RunWord;

impl<R: Source> Input<R> {
    /// Skips to the end of the line, or to the end of the next word. Returns true if no word
    /// follows on the line.
    pub(crate) fn ends_line(&mut self) -> Result<bool, KeptFault>
        requires { self.old.fault ≡ None }
        ensures { SkipsToLineEnd self.old result self.new }
    {
        let mut word = RunWord::new();
        'bytes: loop {
            match self.next_byte()? {
                Some(byte) => {
                    if !self.passes_gap(byte) {
                        word.push(byte);
                    } else if !word.is_empty() {
                        return Ok(false);
                    } else if byte == b'\n' {
                        return Ok(true);
                    }
                }
                None => return Ok(true),
            }
        }
    }
}
