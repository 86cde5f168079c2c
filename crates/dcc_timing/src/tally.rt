//! The statistics of a list of numbers.

ghost use Rattle.std.specs.Prelude.{◌<◌, ◌≤◌, ◌*◌, ◌^◌};

use crate::covered::Span;

/// The count, the sum, the least number and the greatest number of a list of numbers. If the list is
/// empty, all fields are 0.
#[repr(C)]
#[derive(Clone, Copy, Debug, PartialEq, Eq)]
pub struct Tally {
    count: u64,
    sum: u64,
    least: u64,
    most: u64,
    ghost few: { count < 2 ^ 40 },
    ghost fits: { sum ≤ 131072 * count },
}

/// The mean of numbers, rounded down to hundredths.
#[derive(Clone, Copy, Debug, PartialEq, Eq)]
pub struct Mean {
    /// The whole number of the mean.
    pub whole: u64,
    /// The hundredths after the whole number, 0 to 99.
    pub hundredths: u64,
}

impl Tally {
    ghost use Rattle.std.specs.Prelude.{◌≡◌, ◌≢◌, ◌<◌, ◌≤◌, ◌+◌, ◌*◌, ◌^◌, ℕ, List, [], ◌++◌, length, replicate, min};
    ghost use Rattle.std.specs.Prelude.{max, sum, IfSome};
    ghost use Rattle.dcc_timing.specs.Numbers.{least, most};
    ghost use Rattle.dcc_timing.specs.Tallies.{IsTally, mean};
    ghost use Rattle.dcc_timing.specs.Inner.Ranges.{AllBetween};

    /// Creates the statistics of the empty list.
    pub(crate) fn new() -> Tally
        ensures tally { IsTally result [] }
        ensures count { result.count ≡ 0 }
    {
        Tally {
            count: 0,
            sum: 0,
            least: 0,
            most: 0,
        }
    }

    /// Appends the number `number` `n` times to the list.
    #[inline(always)]
    pub(crate) fn add(&mut self, number: u64, n: u32)
        requires some { 0 < n }
        requires room { self.old.count + n < 2 ^ 40 }
        requires small { number ≤ 131072 }
        ensures tally { (numbers : List ℕ) → IsTally self.old numbers
            → IsTally self.new (numbers ++ replicate n number) }
        ensures count { self.new.count ≡ self.old.count + n }
    {
        self.cover(number);
        self.count += u64::from(n);
        self.sum += u64::from(n) * number;
    }

    /// Appends numbers that are in the range from the least to the greatest number of the list. There
    /// are `count` such numbers with the sum `total`. The list must not be empty.
    #[inline(always)]
    pub(crate) fn add_covered(&mut self, count: u32, total: u32)
        requires some { 0 < self.old.count }
        requires room { self.old.count + count < 2 ^ 40 }
        requires small { total ≤ 131072 * count }
        ensures tally { (numbers more : List ℕ) → IsTally self.old numbers
            → AllBetween self.old.least self.old.most more → count ≡ length more → total ≡ sum more
            → IsTally self.new (numbers ++ more) }
        ensures count { self.new.count ≡ self.old.count + count }
    {
        self.count += u64::from(count);
        self.sum += u64::from(total);
    }

    /// Returns the range from the least to the greatest number of the list, with limits of at most
    /// 65535. Returns `None` if the list is empty.
    #[inline(always)]
    pub(crate) fn span(&self) -> Option<Span>
        ensures { IfSome result (λ span. (0 < self.now.count) × (span.least ≡ min self.now.least 65535)
            × (span.most ≡ min self.now.most 65535)) }
    {
        if self.count == 0 {
            return None;
        }
        Some(Span {
            least: self.least.min(65535) as u16,
            most: self.most.min(65535) as u16,
        })
    }

    /// Extends the range from the least to the greatest number by `number`. Most numbers are in the
    /// range already.
    #[inline(always)]
    fn cover(&mut self, number: u64)
        ensures first { (numbers : List ℕ) → IsTally self.old numbers → self.old.count ≡ 0
            → self.new.least ≡ number }
        ensures next { self.old.count ≢ 0 → self.new.least ≡ min self.old.least number }
        ensures most { self.new.most ≡ max self.old.most number }
        ensures count { self.new.count ≡ self.old.count }
        ensures sum { self.new.sum ≡ self.old.sum }
    {
        if self.least <= number && number <= self.most {
            return;
        }
        self.extend(number);
    }

    /// Extends the range from the least to the greatest number by `number`.
    #[inline(never)]
    fn extend(&mut self, number: u64)
        ensures first { self.old.count ≡ 0 → self.new.least ≡ number }
        ensures next { self.old.count ≢ 0 → self.new.least ≡ min self.old.least number }
        ensures most { self.new.most ≡ max self.old.most number }
        ensures count { self.new.count ≡ self.old.count }
        ensures sum { self.new.sum ≡ self.old.sum }
    {
        self.least = lesser(self.count, self.least, number);
        self.most = self.most.max(number);
    }

    /// Returns how many numbers the list has.
    pub fn count(&self) -> u64
        ensures { (numbers : List ℕ) → IsTally self.now numbers → result ≡ length numbers }
    {
        self.count
    }

    /// Returns the least number of the list. Returns `None` if the list is empty.
    pub fn least(&self) -> Option<u64>
        ensures { (numbers : List ℕ) → IsTally self.now numbers → result ≡ least numbers }
    {
        if self.count == 0 {
            return None;
        }
        Some(self.least)
    }

    /// Returns the greatest number of the list. Returns `None` if the list is empty.
    pub fn most(&self) -> Option<u64>
        ensures { (numbers : List ℕ) → IsTally self.now numbers → result ≡ most numbers }
    {
        if self.count == 0 {
            return None;
        }
        Some(self.most)
    }

    /// Returns the mean of the numbers. Returns `None` if the list is empty.
    pub fn mean(&self) -> Option<Mean>
        ensures mean { (numbers : List ℕ) → IsTally self.now numbers → result ≡ mean numbers }
        ensures below { IfSome result (λ mean. mean.hundredths < 100) }
    {
        if self.count == 0 {
            return None;
        }
        Some(Mean {
            whole: self.sum / self.count,
            hundredths: 100 * (self.sum % self.count) / self.count,
        })
    }
}

ghost use Rattle.std.specs.Prelude.{◌≡◌, ◌≢◌, min};

/// Returns the least number of a list, to which `number` was appended. Before, the list had `count`
/// numbers, and `least` was the least number. If the list was empty, `least` does not matter.
#[inline(always)]
fn lesser(count: u64, least: u64, number: u64) -> u64
    ensures first { count ≡ 0 → result ≡ number }
    ensures next { count ≢ 0 → result ≡ min least number }
{
    if count == 0 || number < least {
        number
    } else {
        least
    }
}
