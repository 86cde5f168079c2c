//! Functions that append bytes and numbers to a text.
ghost use Rattle.std.specs.Prelude.{◌≡◌, ◌+◌, ◌*◌, ◌≤◌, ◌<◌, ◌++◌, length, decimal};
ghost use Rattle.arrayvec.specs.ArrayVec.{array_vec_len};
ghost use Rattle.hex.specs.Hex.{encode_lower};
ghost use Rattle.dcc_plain.specs.StandardWords.{hex_words};

use arrayvec::ArrayVec;

/// A text with capacity for the plain words of any packet.
pub type PlainText = ArrayVec<u8, 255>;

/// Appends the bytes `bytes`.
#[inline(never)]
pub(crate) fn append(text: &mut PlainText, bytes: &[u8])
    requires { array_vec_len text.old + length bytes.now ≤ 255 }
    ensures items { text.new.items ≡ text.old.items ++ bytes.now }
    ensures len { array_vec_len text.new ≡ array_vec_len text.old + length bytes.now }
{
    let _ = text.try_extend_from_slice(bytes);
}

/// Appends the decimal digits of a byte: at most three, and at most two if it is below 100.
#[tactic(auto, using(crate::proofs::TextLemmas::of_byte, crate::proofs::TextLemmas::of_two))]
pub(crate) fn append_byte(text: &mut PlainText, number: u8)
    requires { array_vec_len text.old + 3 ≤ 255 }
    ensures items { text.new.items ≡ text.old.items ++ decimal number }
    ensures len { array_vec_len text.new ≤ array_vec_len text.old + 3 }
    ensures two { number < 100 → array_vec_len text.new ≤ array_vec_len text.old + 2 }
{
    append_digits(text, u32::from(number));
}

/// Appends the decimal digits of `number`, which are at most five.
#[tactic(auto, using(crate::proofs::TextLemmas::of_number))]
pub(crate) fn append_number(text: &mut PlainText, number: u16)
    requires { array_vec_len text.old + 5 ≤ 255 }
    ensures items { text.new.items ≡ text.old.items ++ decimal number }
    ensures len { array_vec_len text.new ≤ array_vec_len text.old + 5 }
{
    append_digits(text, u32::from(number));
}

/// Appends the decimal digits of a number of at most eight digits.
#[tactic(auto, using(crate::proofs::TextLemmas::of_eight))]
pub(crate) fn append_long(text: &mut PlainText, number: u32)
    requires room { array_vec_len text.old + 8 ≤ 255 }
    requires eight { number < 100000000 }
    ensures items { text.new.items ≡ text.old.items ++ decimal number }
    ensures len { array_vec_len text.new ≤ array_vec_len text.old + 8 }
{
    append_digits(text, number);
}

/// Appends each byte as a space and two hex digits.
pub(crate) fn append_hex_words(text: &mut PlainText, bytes: &[u8])
    requires { array_vec_len text.old + 3 * length bytes.now ≤ 255 }
    ensures items { text.new.items ≡ text.old.items ++ hex_words bytes.now }
    ensures len { array_vec_len text.new ≤ array_vec_len text.old + 3 * length bytes.now }
{
    'bytes: for byte in bytes {
        append(text, b" ");
        append_hex(text, &[*byte]);
    }
}

/// Appends up to 15 bytes, as hex digits.
#[inline(never)]
pub(crate) fn append_hex(text: &mut PlainText, bytes: &[u8])
    requires room { array_vec_len text.old + 2 * length bytes.now ≤ 255 }
    requires few { length bytes.now ≤ 15 }
    ensures items { text.new.items ≡ text.old.items ++ encode_lower bytes.now }
    ensures len { array_vec_len text.new ≤ array_vec_len text.old + 2 * length bytes.now }
{
    let mut digits = [0; 30];
    let len = 2 * bytes.len();
    let _ = hex::encode_to_slice(bytes, &mut digits[..len]);
    append(text, &digits[..len]);
}

/// Appends the decimal digits of `number`.
#[inline(never)]
fn append_digits(text: &mut PlainText, number: u32)
    requires { array_vec_len text.old + length (decimal number) ≤ 255 }
    ensures items { text.new.items ≡ text.old.items ++ decimal number }
    ensures len { array_vec_len text.new ≡ array_vec_len text.old + length (decimal number) }
{
    if number < 10 {
        text.push(b'0' + number as u8);
        return;
    }
    append_digits(text, number / 10);
    text.push(b'0' + (number % 10) as u8);
}
