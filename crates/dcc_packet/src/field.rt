//! The trait of values that are written as words of a line.
ghost use Rattle.std.specs.Prelude.{◌≡◌, ◌+◌, ◌≤◌, ◌++◌, ℕ, IfOk};
ghost use Rattle.arrayvec.specs.ArrayString.{array_string_len};
ghost use Rattle.dcc_packet.specs.Fields.{FieldOf, IsReadBack, ParsesAs, both, whole};
ghost use Rattle.dcc_packet.specs.Written.{spaced_words};

use crate::PacketFault;
use crate::words::Words;
use arrayvec::ArrayString;

/// A line of at most 40 bytes that is being written.
pub type Line = ArrayString<40>;

/// A value that is written as zero or more words of a line.
pub trait Field: Drop {
    // The definition of how words are parsed as a value, and how a value is written as words.
    ghost field: { FieldOf Self };

    // The greatest number of bytes of the words of a value, with a space before each word.
    ghost most: { ℕ };

    /// Parses the next words as a value, and removes these words from `words`.
    fn take(words: &mut Words) -> Result<Self, PacketFault>
        ensures is { ParsesAs (field.read words.old) result words.new }
        ensures fits { IfOk result field.Fits };

    /// Appends the words of the value to `line`, with a space before each word.
    fn put(&self, line: &mut Line)
        requires { array_string_len line.old + most ≤ 40 }
        ensures bytes { line.new.bytes ≡ line.old.bytes ++ spaced_words (field.written self.now) }
        ensures len { array_string_len line.new ≤ array_string_len line.old + most };

    /// Lemma: parsing the words of a written value returns the value. The function does nothing at
    /// run time.
    fn lemma_read_back()
        ensures { IsReadBack field };
}

impl<A: Field, B: Field> Field for (A, B) {
    ghost field = { both A.field B.field };

    ghost most = { A.most + B.most };

    fn take(words: &mut Words) -> Result<(A, B), PacketFault> {
        let first = A::take(words)?;
        let second = B::take(words)?;
        Ok((first, second))
    }

    fn put(&self, line: &mut Line) {
        self.0.put(line);
        self.1.put(line);
    }

    #[tactic(auto, using(crate::proofs::FieldsBack::both_back))]
    fn lemma_read_back() {
        A::lemma_read_back();
        B::lemma_read_back();
    }
}

impl<'a> Words<'a> {
    /// Parses all remaining words as a value.
    ///
    /// Errors: the error of [`Field::take`], or P10 if a word is left after the value.
    pub fn fields<F: Field>(&mut self) -> Result<F, PacketFault>
        ensures is { result ≡ whole F.field self.old }
        ensures fits { IfOk result F.field.Fits }
    {
        let fields = F::take(self)?;
        self.end()?;
        Ok(fields)
    }
}
