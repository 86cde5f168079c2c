//! Functions that write text to arrays of fixed capacity.
ghost use Rattle.std.specs.Prelude.{◌≡◌, ◌+◌, ◌*◌, ◌≤◌, ◌++◌, length, decimal};
ghost use Rattle.arrayvec.specs.ArrayVec.{array_vec_len};
ghost use Rattle.hex.specs.Hex.{encode_lower};

use arrayvec::ArrayVec;

/// A line with capacity for a number, a space, a packet line of 40 bytes, and a line feed.
pub type Line = ArrayVec<u8, 64>;

/// Appends the bytes `bytes` to `line`.
pub fn append<const N: usize>(line: &mut ArrayVec<u8, N>, bytes: &[u8])
    requires { array_vec_len line.old + length bytes.now ≤ N }
    ensures items { line.new.items ≡ line.old.items ++ bytes.now }
    ensures len { array_vec_len line.new ≡ array_vec_len line.old + length bytes.now }
{
    let _ = line.try_extend_from_slice(bytes);
}

#[tactic(auto, using(crate::proofs::DecimalLemmas::decimal_is_short))]
/// Appends the decimal digits of `number` to `line`.
pub fn append_decimal<const N: usize>(line: &mut ArrayVec<u8, N>, number: u32)
    requires { array_vec_len line.old + length (decimal number) ≤ N }
    ensures items { line.new.items ≡ line.old.items ++ decimal number }
    ensures len { array_vec_len line.new ≡ array_vec_len line.old + length (decimal number) }
{
    let mut digits = DecimalDigits::new();
    put_digits(&mut digits, number);
    append(line, digits.as_slice());
}

type DecimalDigits = ArrayVec<u8, 10>;

fn put_digits(digits: &mut DecimalDigits, number: u32)
    requires { array_vec_len digits.old + length (decimal number) ≤ 10 }
    ensures items { digits.new.items ≡ digits.old.items ++ decimal number }
    ensures len { array_vec_len digits.new ≡ array_vec_len digits.old + length (decimal number) }
{
    if number < 10 {
        digits.push(b'0' + number as u8);
        return;
    }
    put_digits(digits, number / 10);
    digits.push(b'0' + (number % 10) as u8);
}

/// Appends up to six bytes to `line`, as hex digits.
pub fn append_hex<const N: usize>(line: &mut ArrayVec<u8, N>, bytes: &[u8])
    requires room { array_vec_len line.old + 12 ≤ N }
    requires few { length bytes.now ≤ 6 }
    ensures items { line.new.items ≡ line.old.items ++ encode_lower bytes.now }
    ensures len { array_vec_len line.new ≤ array_vec_len line.old + 12 }
{
    let mut digits = [0; 12];
    let len = 2 * bytes.len();
    let _ = hex::encode_to_slice(bytes, &mut digits[..len]);
    append(line, &digits[..len]);
}
