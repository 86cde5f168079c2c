//! The lines of a decoder text. Each kind of line has a type with two functions, which read and
//! write the line.

ghost use Rattle.std.specs.Prelude.{◌≡◌, ◌+◌, ◌<◌, ◌≤◌, ◌++◌, ◌∷◌, [], ℕ, Result, Err, IfOk, length, if◌then◌else◌};
ghost use Rattle.std.specs.Fmt.{decimal};
ghost use Rattle.arrayvec.specs.ArrayVec.{array_vec_len};
ghost use Rattle.dcc_packet.specs.Bits.{is_one};
ghost use Rattle.dcc_packet.specs.Words.{words};
ghost use Rattle.dcc_packet.specs.Written.{spaced_words};
ghost use Rattle.dcc_saved.specs.DecoderLines.{head_line, numbers_line, pending_line, loco_line, keyed, pending_text};
ghost use Rattle.dcc_saved.specs.Lines.{LineOf, line_text};

use crate::decoder_fields::SavedSpeed;
use crate::decoder_line::{Four, Head, LocoLine, Numbered, Version};
use crate::decoder_words::{cv_words, numbers_from, pending_word, take_keyword};
use crate::head_forms::{line_of_head, read_head};
use arrayvec::ArrayVec;
use dcc_io::{append, append_decimal, append_hex};
use dcc_packet::field::Field;
use dcc_packet::form::form_line;
use dcc_packet::words::Words;
use dcc_packet::{Address, Bit, Direction, Packet, PacketFault};
use std::marker::PhantomData;

/// The lines of a decoder, with capacity for all lines before the lines of its CVs.
pub(crate) type Rows = ArrayVec<u8, 4096>;

/// A kind of line of a decoder text.
pub(crate) trait SavedLine: Drop {
    /// The type of the value of a line.
    type Value: Copy;

    // the definition of how a line is parsed and written
    ghost line: { Self → LineOf Self.Value };

    // the greatest number of bytes of a line
    ghost most: { Self → ℕ };

    /// Returns the value of the line `text`, or the first error of this line.
    fn read(self, text: &[u8]) -> Result<Self::Value, PacketFault>
        ensures is { result ≡ (line self).read (words text.now) }
        ensures fits { IfOk result (line self).Fits }
        // a line without words has the error P10
        ensures blank { (line self).read [] ≡ Err PacketFault.Word };

    /// Appends the line with the value `value` to `rows`.
    fn put(self, value: Self::Value, rows: &mut Rows)
        requires { array_vec_len rows.old + most self ≤ 4096 }
        ensures items { rows.new.items ≡ rows.old.items ++ line_text (line self) value }
        ensures len { array_vec_len rows.new ≤ array_vec_len rows.old + most self };
}

/// Returns the line with the value `value`.
pub(crate) fn row<L: SavedLine>(line: L, value: L::Value) -> Rows
    requires { L.most line ≤ 4096 }
    ensures items { result.items ≡ line_text (L.line line) value }
    ensures len { array_vec_len result ≤ L.most line }
{
    let mut rows = Rows::new();
    line.put(value, &mut rows);
    rows
}

/// The kind of the lines `loco ADDRESS`, `board BOARD` and `end`, which are the first line of a
/// decoder and the last line of the text.
#[derive(Clone, Copy)]
pub(crate) struct HeadLine;

impl SavedLine for HeadLine {
    type Value = Head;

    ghost line = { λ _. head_line };

    ghost most = { λ _. 41 };

    #[tactic(auto, unfolding(crate::specs::DecoderLines::head_of))]
    fn read(self, text: &[u8]) -> Result<Head, PacketFault> {
        let mut words = Words::new(text);
        let word = words.word()?;
        let head = read_head(word, &mut words)?;
        words.end()?;
        Ok(head)
    }

    fn put(self, head: Head, rows: &mut Rows) {
        append(rows, line_of_head(&head).as_bytes());
        append(rows, b"\n");
    }
}

/// the kind of the lines `on FUNCTION ..`, `states STATE ..` and `out OUTPUT ..`, whose value is a
/// number with a bit for each register
impl SavedLine for Numbered {
    type Value = u128;

    ghost line = { numbers_line };

    ghost most = { λ _. 1415 };

    #[tactic(auto, unfolding(crate::specs::DecoderLines::numbers_of))]
    fn read(self, text: &[u8]) -> Result<u128, PacketFault> {
        let mut words = Words::new(text);
        take_keyword(&mut words, self.name())?;
        numbers_from(&mut words, self, 0)
    }

    #[tactic(auto, using(crate::proofs::RowsLemmas::numbers_none, crate::proofs::RowsLemmas::numbers_next))]
    fn put(self, bits: u128, rows: &mut Rows) {
        append(rows, self.name());
        for n in 0..self.end() {
            append_where_on(bits, n, rows);
        }
        append(rows, b"\n");
    }
}

/// Appends a space and the number `n`, if bit `n` of `bits` is one.
#[tactic(auto, using(dcc_io::proofs::DecimalLemmas::decimal_is_short))]
fn append_where_on(bits: u128, n: u8, rows: &mut Rows)
    requires few { n < 128 }
    requires rows { array_vec_len rows.old + 11 ≤ 4096 }
    ensures items { rows.new.items ≡ rows.old.items ++ spaced_words (if is_one bits n then decimal n ∷ [] else []) }
    ensures len { array_vec_len rows.new ≤ array_vec_len rows.old + 11 }
{
    if bits >> n & 1 == 1 {
        append(rows, b" ");
        append_decimal(rows, u32::from(n));
    }
}

/// The kind of line `pending PACKET`. The word PACKET is the frame of the pending CV write of a
/// decoder with the address `address`, or `none`.
#[derive(Clone, Copy)]
pub(crate) struct PendingLine {
    pub address: Option<Address>,
}

impl SavedLine for PendingLine {
    type Value = Option<Packet>;

    ghost line = { λ self. pending_line self.address };

    ghost most = { λ _. 21 };

    fn read(self, text: &[u8]) -> Result<Option<Packet>, PacketFault> {
        let mut words = Words::new(text);
        take_keyword(&mut words, b"pending")?;
        let pending = pending_word(&self.address, words.word()?)?;
        words.end()?;
        Ok(pending)
    }

    fn put(self, pending: Option<Packet>, rows: &mut Rows) {
        append(rows, b"pending ");
        append_pending(&pending, rows);
        append(rows, b"\n");
    }
}

fn append_pending(pending: &Option<Packet>, rows: &mut Rows)
    requires { array_vec_len rows.old + 12 ≤ 4096 }
    ensures items { rows.new.items ≡ rows.old.items ++ pending_text pending.now }
    ensures len { array_vec_len rows.new ≤ array_vec_len rows.old + 12 }
{
    match pending {
        None => append(rows, b"none"),
        Some(packet) => append_hex(rows, packet.frame().bytes()),
    }
}

/// The kind of a line that is `cv CV VALUE`, with a CV of at least `least`, or the line after the
/// lines of the CVs.
#[derive(Clone, Copy)]
pub(crate) struct CvLine {
    pub least: u16,
}

impl SavedLine for CvLine {
    type Value = LocoLine;

    ghost line = { λ self. loco_line self.least };

    ghost most = { λ _. 41 };

    #[tactic(auto, unfolding(crate::specs::DecoderLines::loco_line_of, crate::specs::DecoderLines::head_of))]
    fn read(self, text: &[u8]) -> Result<LocoLine, PacketFault> {
        let mut words = Words::new(text);
        match words.next() {
            Some(b"cv") => cv_words(&mut words, self.least),
            _ => Ok(LocoLine::Head(HeadLine.read(text)?)),
        }
    }

    fn put(self, line: LocoLine, rows: &mut Rows) {
        match line {
            LocoLine::Cv { cv, value } => CV.put((cv.number(), value), rows),
            LocoLine::Head(head) => HeadLine.put(head, rows),
        }
    }
}

/// The kind of a line that consists of a keyword and fields.
#[derive(Drop)]
pub(crate) struct Keyed<F: Field> {
    keyword: &'static str,
    fields: PhantomData<F>,
    ghost short: { length keyword.now + F.most ≤ 40 },
}

/// The kind of the line `dcc-decoders VERSION`.
pub(crate) const VERSION: Keyed<Version> = Keyed {
    keyword: "dcc-decoders",
    fields: PhantomData,
};

/// The kind of the line `speed SPEED f|r`.
pub(crate) const SPEED: Keyed<(SavedSpeed, Direction)> = Keyed {
    keyword: "speed",
    fields: PhantomData,
};

/// The kind of the line `cv CV VALUE`.
const CV: Keyed<(u16, u8)> = Keyed {
    keyword: "cv",
    fields: PhantomData,
};

/// The kind of the line `position SIDE SIDE SIDE SIDE`.
pub(crate) const POSITIONS: Keyed<Four<Bit>> = Keyed {
    keyword: "position",
    fields: PhantomData,
};

/// The kind of the line `aspect ASPECT ASPECT ASPECT ASPECT`.
pub(crate) const ASPECTS: Keyed<Four<u8>> = Keyed {
    keyword: "aspect",
    fields: PhantomData,
};

impl<F: Field + Copy> SavedLine for Keyed<F> {
    type Value = F;

    ghost line = { λ self. keyed self.keyword.now F.field };

    ghost most = { λ _. 41 };

    fn read(self, text: &[u8]) -> Result<F, PacketFault> {
        let mut words = Words::new(text);
        take_keyword(&mut words, self.keyword.as_bytes())?;
        words.fields()
    }

    fn put(self, fields: F, rows: &mut Rows) {
        append(rows, form_line(self.keyword, &fields).as_bytes());
        append(rows, b"\n");
    }
}
