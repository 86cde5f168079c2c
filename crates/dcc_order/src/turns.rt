//! The turns that a packet and each of its rivals take in a block. A rival is the other packet of
//! an alternation.

ghost use Rattle.std.specs.Prelude.{◌≡◌, ◌↔◌, ◌<◌, ◌-◌, ◌^◌, ℕ, IsTrue, length, slice_index_or, map};
ghost use Rattle.dcc_order.specs.declared.turns.Turns.{Turns};
ghost use Rattle.dcc_order.specs.Turns.{no_turns, own_turn, rival_turn, with_turn};

/// The number of turns that a packet and a rival take in a block, and true if the rival takes the
/// last turn. The turns alternate, so these two values also determine which packet comes first.
#[derive(Clone, Copy, Debug)]
pub struct Turns {
    count: usize,
    rival_last: bool,
}

impl Turns {
    /// Creates the state in which no turn was taken.
    pub fn none() -> Turns
        ensures { result ≡ no_turns }
    {
        Turns {
            count: 0,
            rival_last: false,
        }
    }

    /// Returns the turns after one more occurrence of the packet.
    fn with_own(self) -> Turns
        requires { self.count < 2 ^ 64 - 1 }
        ensures { result ≡ own_turn self }
    {
        if self.rival_last || self.count == 0 {
            Turns {
                count: self.count + 1,
                rival_last: false,
            }
        } else {
            self
        }
    }

    /// Returns the turns after one more occurrence of the rival.
    fn with_rival(self) -> Turns
        requires { self.count < 2 ^ 64 - 1 }
        ensures { result ≡ rival_turn self }
    {
        if self.rival_last {
            self
        } else {
            Turns {
                count: self.count + 1,
                rival_last: true,
            }
        }
    }

    /// Returns true if the rival took the last turn.
    pub fn rival_came_last(&self) -> bool
        ensures { result ≡ self.now.rival_last }
    {
        self.rival_last
    }

    pub fn is(&self, other: &Turns) -> bool
        ensures { IsTrue result ↔ (self.now ≡ other.now) }
    {
        self.count == other.count && self.rival_last == other.rival_last
    }
}

/// Updates the turns of a packet with each rival after one more occurrence of the packet.
fn take_own_turn(turns: &mut [Turns])
    requires { (rival : ℕ) (d : Turns) → rival < length turns.old
        → (slice_index_or turns.old rival d).count < 2 ^ 64 - 1 }
    ensures { turns.new ≡ map own_turn turns.old }
{
    for taken in turns.iter_mut() {
        *taken = taken.with_own();
    }
}

/// Updates the turns of packet `own` with each rival after the next packet of the block. `own` and
/// `number` are numbers of different packets of a block, and the next packet is packet `number`.
pub fn take_turn(turns: &mut [Turns], own: usize, number: usize)
    requires { (rival : ℕ) (d : Turns) → rival < length turns.old
        → (slice_index_or turns.old rival d).count < 2 ^ 64 - 1 }
    ensures { (rival : ℕ) (d : Turns) → rival < length turns.old
        → slice_index_or turns.new rival d ≡ with_turn own rival (slice_index_or turns.old rival d) number }
{
    if number == own {
        take_own_turn(turns);
    } else if number < turns.len() {
        turns[number] = turns[number].with_rival();
    }
}
