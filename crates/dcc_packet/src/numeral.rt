//! Functions that parse the numbers in packet lines.
ghost use Rattle.std.specs.Prelude.{◌≡◌, false, IsTrue, IfSome, IfNone};
ghost use Rattle.std.specs.Str.Parse.{digits_value};
ghost use Rattle.dcc_packet.specs.LineWords.{is_numeral, number, small_number};

use crate::PacketFault;

/// Returns the number that `word` means, at most 65535.
///
/// Errors: P11 if the word is not 1 to 5 decimal digits, or if the number is above 65535.
pub fn number(word: &[u8]) -> Result<u16, PacketFault>
    ensures { result ≡ number word.now }
{
    let Some(value) = numeral_value(word) else {
        return Err(PacketFault::Number);
    };
    if value > 65535 {
        return Err(PacketFault::Number);
    }
    Ok(value as u16)
}

/// Returns the number that `word` means, at most 255.
///
/// Errors: P11 if the word is not 1 to 5 decimal digits, or if the number is above 255.
pub fn small_number(word: &[u8]) -> Result<u8, PacketFault>
    ensures { result ≡ small_number word.now }
{
    let value = number(word)?;
    if value > 255 {
        return Err(PacketFault::Number);
    }
    Ok(value as u8)
}

/// Returns the value of a word of 1 to 5 decimal digits. Returns `None` for any other word.
fn numeral_value(word: &[u8]) -> Option<u32>
    ensures some { IfSome result (λ value. IsTrue (is_numeral word.now) × (value ≡ digits_value 10 word.now)) }
    ensures none { IfNone result (is_numeral word.now ≡ false) }
{
    if word.is_empty() || word.len() > 5 {
        return None;
    }
    let mut value = 0;
    for byte in word {
        if !byte.is_ascii_digit() {
            return None;
        }
        value = value * 10 + u32::from(*byte - b'0');
    }
    Some(value)
}
