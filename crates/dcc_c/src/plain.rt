//! The function that writes the plain words of a packet.

ghost use Rattle.std.specs.Prelude.{◌≡◌, ◌≢◌, ℕ, List};
ghost use Rattle.dcc_plain.specs.PlainText.{IsPlainText};
ghost use Rattle.dcc_c.specs.Frames.{zeros_behind};
ghost use Rattle.dcc_c.specs.Plains.{plain_answer};

use dcc_plain::{PlainText, put_plain_text_of_bytes};

/// Writes the plain words of a packet of 3 to 15 bytes to `text`, followed by zeros. The words have at
/// most 255 bytes, so a zero ends the text. Returns 0 on success, 1 (L1) if there are not 3 to 15
/// bytes, and 2 (L2) if the error byte is wrong. If the result is not 0, nothing is written.
#[unsafe(no_mangle)]
pub extern "C" fn dcc_plain(frame: &[u8], text: &mut [u8; 256]) -> u8
    ensures answer { result ≡ plain_answer frame.now }
    ensures text { result ≡ 0
        → (words : List ℕ) × IsPlainText frame.now words × (text.new ≡ zeros_behind 256 words) }
    ensures kept { result ≢ 0 → text.new ≡ text.old }
{
    let mut words = PlainText::new();
    match put_plain_text_of_bytes(&mut words, frame) {
        Ok(()) => {
            put_plain(&words, text);
            0
        }
        Err(fault) => fault.number(),
    }
}

/// Writes `words` to `text`, followed by zeros.
fn put_plain(words: &PlainText, text: &mut [u8; 256])
    ensures { text.new ≡ zeros_behind 256 words.now.items }
{
    let bytes = words.as_slice();
    *text = [0; 256];
    text[..bytes.len()].copy_from_slice(bytes);
}
