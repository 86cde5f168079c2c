//! The type of a number in a capture, which is read byte by byte.
ghost use Rattle.std.specs.Prelude.{◌≡◌, ◌<◌, ◌≤◌, ◌+◌, ◌*◌, min, ℕ, List, [], ◌∷◌, ◌++◌, length};
ghost use Rattle.dcc_io.specs.Words.{count_in_word, duration_of};
ghost use Rattle.dcc_io.specs.SpelledWords.{AreDigits};

const LONGEST_DURATION: u8 = 10;

const LONGEST_COUNT: u8 = 8;

/// The greatest count of a run, which is the limit of half-bits for one input.
const MOST_HALVES: u32 = 16_777_216;

/// The greatest value that is stored. The limits of a duration and of a count are smaller.
const CAP: u64 = 100_000_000;

/// A number of which some bytes were read: the value of these bytes, and how many they are.
#[derive(Clone, Copy, Debug)]
pub struct Digits {
    len: u8,
    all_digits: bool,
    capped: u32,
}

impl Digits {
    pub fn new() -> Digits
        ensures { AreDigits result [] }
    {
        Digits {
            len: 0,
            all_digits: true,
            capped: 0,
        }
    }

    /// Appends the byte `byte` to the number.
    #[inline(always)]
    pub fn push(&mut self, byte: u8)
        ensures { (bytes : List ℕ) → AreDigits self.old bytes → AreDigits self.new (bytes ++ byte ∷ []) }
    {
        self.len = self.len.saturating_add(1).min(LONGEST_DURATION + 1);
        match byte {
            b'0'..=b'9' => self.capped = capped_with(self.capped, byte - b'0'),
            _ => self.all_digits = false,
        }
    }

    /// Returns the number of bytes. Returns 11 if there are more than 11 bytes.
    #[inline(always)]
    pub fn len(&self) -> u8
        ensures { (bytes : List ℕ) → AreDigits self.now bytes → result ≡ min (length bytes) 11 }
    {
        self.len
    }

    /// Returns the duration that the read bytes mean, at most 65535. Returns `None` if these bytes
    /// are no duration.
    pub fn duration(&self) -> Option<u16>
        ensures { (bytes : List ℕ) → AreDigits self.now bytes → result ≡ duration_of bytes }
    {
        if 0 < self.len && self.len <= LONGEST_DURATION && self.all_digits {
            Some(self.capped.min(65535) as u16)
        } else {
            None
        }
    }

    /// Returns the count of half-bits that the read bytes mean. Returns `None` if these bytes are
    /// no count.
    pub fn count(&self) -> Option<u32>
        ensures { (bytes : List ℕ) → AreDigits self.now bytes → result ≡ count_in_word bytes }
    {
        if 0 < self.len
            && self.len <= LONGEST_COUNT
            && self.all_digits
            && 0 < self.capped
            && self.capped <= MOST_HALVES
        {
            Some(self.capped)
        } else {
            None
        }
    }
}

/// Returns `number` with the digit `digit` at its end. Returns the greatest stored value if the new
/// number is greater.
#[inline(always)]
fn capped_with(number: u32, digit: u8) -> u32
    requires { digit < 10 }
    ensures { result ≡ min (number * 10 + digit) 100000000 }
{
    let more = u64::from(number) * 10 + u64::from(digit);
    more.min(CAP) as u32
}
