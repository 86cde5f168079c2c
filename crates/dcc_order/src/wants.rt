//! The next request of a comparison of two lists.

use crate::verdict::Verdict;

/// The next request of a comparer: an item of the first list, an item of the second list, or nothing,
/// since it has the verdict. An item is the next packet of a list or the end of the list.
#[derive(Clone, Copy, Debug, PartialEq, Eq)]
pub enum Wants {
    /// The first list must give its next packet or its end.
    Left,
    /// The second list must give its next packet or its end.
    Right,
    /// The verdict is decided, and no further packet can change it.
    Done(Verdict),
}
