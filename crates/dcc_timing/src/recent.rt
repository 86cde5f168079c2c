//! The last 130 numbers of a list.

ghost use Rattle.std.specs.Prelude.{◌≡◌, ◌≤◌, length};

/// The last 130 numbers of a list, or all numbers of a shorter list. The longest packet and the
/// last ten ones of its preamble have 130 half-bits together.
#[repr(C)]
#[derive(Drop)]
pub struct LastNumbers {
    /// At the first `len` places: the last 130 numbers of the list, and sometimes numbers before
    /// them.
    numbers: [u16; 192],
    len: u16,
    ghost fits: { (len ≤ 192) × (length numbers ≡ 192) },
}

impl LastNumbers {
    ghost use Rattle.std.specs.Prelude.{◌≡◌, ◌≤◌, ◌<◌, ◌+◌, ℕ, List, [], ◌∷◌, ◌++◌, length, replicate};
    ghost use Rattle.dcc_timing.specs.Numbers.{keep_last};
    ghost use Rattle.dcc_timing.specs.Recent.{recent_numbers};

    /// Creates an empty list.
    pub fn new() -> LastNumbers
        ensures { recent_numbers result ≡ [] }
    {
        LastNumbers {
            numbers: [0; 192],
            len: 0,
        }
    }

    /// Removes all numbers.
    pub fn clear(&mut self)
        ensures { recent_numbers self.new ≡ [] }
    {
        self.len = 0;
    }

    /// Appends a number to the list.
    #[inline(always)]
    pub fn push(&mut self, number: u16)
        ensures { recent_numbers self.new ≡ keep_last 130 (recent_numbers self.old ++ number ∷ []) }
    {
        self.make_room();
        self.add(number);
    }

    /// Moves the last 130 numbers to the front of the array if the array is full.
    #[inline(always)]
    fn make_room(&mut self)
        ensures numbers { recent_numbers self.new ≡ recent_numbers self.old }
        ensures room { self.new.len < 192 }
    {
        if self.len == 192 {
            self.move_to_front();
        }
    }

    /// Moves the last 130 numbers to the front of the array, which is full.
    #[inline(never)]
    fn move_to_front(&mut self)
        requires { self.old.len ≡ 192 }
        ensures numbers { recent_numbers self.new ≡ recent_numbers self.old }
        ensures room { self.new.len < 192 }
    {
        self.numbers.copy_within(62..192, 0);
        self.len = 130;
    }

    /// Appends a number to the list. The array must not be full.
    #[inline(always)]
    fn add(&mut self, number: u16)
        requires { self.old.len < 192 }
        ensures { recent_numbers self.new ≡ keep_last 130 (recent_numbers self.old ++ number ∷ []) }
    {
        self.numbers[usize::from(self.len)] = number;
        self.len += 1;
    }

    /// Appends the numbers `numbers` to the list.
    pub fn append(&mut self, numbers: &[u16])
        // If these are the last 130 numbers of a list, they are then the last 130 of the longer list.
        ensures { (list : List ℕ) → recent_numbers self.old ≡ keep_last 130 list
            → recent_numbers self.new ≡ keep_last 130 (list ++ numbers.now) }
    {
        let mut at = 0;
        'numbers: while at < numbers.len() {
            self.make_room();
            let count = (numbers.len() - at).min(192 - usize::from(self.len));
            self.add_all(&numbers[at..at + count]);
            at += count;
        }
    }

    /// Appends the numbers `numbers` to the list. The array must have room for them.
    #[inline(always)]
    fn add_all(&mut self, numbers: &[u16])
        requires { self.old.len + length numbers.now ≤ 192 }
        ensures { recent_numbers self.new ≡ keep_last 130 (recent_numbers self.old ++ numbers.now) }
    {
        let len = usize::from(self.len);
        let end = len + numbers.len();
        self.numbers[len..end].copy_from_slice(numbers);
        self.len = end as u16;
    }

    /// Appends a number to the list `n` times.
    pub fn take(&mut self, number: u16, n: u32)
        // If these are the last 130 numbers of a list, they are then the last 130 of the longer list.
        ensures { (numbers : List ℕ) → recent_numbers self.old ≡ keep_last 130 numbers
            → recent_numbers self.new ≡ keep_last 130 (numbers ++ replicate n number) }
    {
        let count = n.min(130) as usize;
        let mut taken = 0;
        'numbers: while taken < count {
            self.make_room();
            let more = (count - taken).min(192 - usize::from(self.len));
            self.add_copies(number, more);
            taken += more;
        }
    }

    /// Appends a number to the list `count` times. The array must have room for the numbers.
    #[inline(always)]
    fn add_copies(&mut self, number: u16, count: usize)
        requires { self.old.len + count ≤ 192 }
        ensures { recent_numbers self.new ≡ keep_last 130 (recent_numbers self.old ++ replicate count number) }
    {
        let len = usize::from(self.len);
        let end = len + count;
        self.numbers[len..end].fill(number);
        self.len = end as u16;
    }

    /// Returns the last `n` numbers of the list, or all numbers if the list has fewer.
    pub fn last(&self, n: usize) -> &[u16]
        requires { n ≤ 130 }
        ensures { result.now ≡ keep_last n (recent_numbers self.now) }
    {
        let len = usize::from(self.len);
        &self.numbers[len.saturating_sub(n)..len]
    }
}
