//! The type of the verdict on two lists of packets.

/// The verdict on two lists of packets for a decoder: `Alike`, or the first difference.
///
/// The compared lists contain only the packets that the decoder hears. Of equal own writes in a
/// row, they contain at most two. The own writes cut each list into blocks, which are numbered from
/// 0.
#[derive(Clone, Copy, Debug, PartialEq, Eq)]
pub enum Verdict {
    /// The lists are alike: the decoder has equal registers after both lists.
    Alike,
    /// The writes after alike blocks differ, or only one of the lists has a write.
    Writes,
    /// The blocks with this number have different sets of packets.
    Members(u32),
    /// The blocks with this number have the same set of packets, and two conflicting packets
    /// alternate differently.
    Order(u32),
}
