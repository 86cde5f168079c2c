//! A loop that counts the packets that a decoder does not hear.

ghost use Rattle.std.specs.Prelude.{◌≡◌};
ghost use Rattle.dcc_lost.specs.Preambles.{lost_count};

use dcc_lost::LostFinder;

/// Returns the number of packets that are lost in the half-bits `halves`.
pub fn count_lost(halves: &[u16]) -> usize
    ensures { result ≡ lost_count halves.now }
{
    let mut finder = LostFinder::new();
    let mut count = 0;
    for us in halves {
        if finder.push(*us).is_some() {
            count += 1;
        }
    }
    count
}
