//! The number of a node in a tree.

ghost use Rattle.std.specs.Prelude.{◌≡◌, ◌+◌, ◌-◌, ◌^◌, ◌<◌, ◌↔◌, IfSome, IsSome};

/// The number of a node in a `Tree`, from 1 on.
///
/// Only a tree makes one; `checked_add` and `checked_sub` give the numbers of nodes that were made later or earlier.
#[derive(Clone, Copy, PartialEq, Eq, PartialOrd, Ord)]
pub struct TreeIndex {
    pub(crate) ix: usize,
}

impl TreeIndex {
    /// The number itself.
    pub fn get(self) -> usize
        ensures { result ≡ self.ix }
    {
        self.ix
    }

    /// The number `n` higher, or `None` beyond the largest `usize`.
    pub fn checked_add(self, n: usize) -> Option<TreeIndex>
        ensures fits { IsSome result ↔ (self.ix + n < 2 ^ 64) }
        ensures value { IfSome result (λ i. i.ix ≡ self.ix + n) }
    {
        let ix = self.ix.checked_add(n)?;
        Some(TreeIndex { ix })
    }

    /// The number `n` lower, or `None` if that is below 1.
    pub fn checked_sub(self, n: usize) -> Option<TreeIndex>
        ensures fits { IsSome result ↔ (n < self.ix) }
        ensures value { IfSome result (λ i. i.ix ≡ self.ix - n) }
    {
        if n < self.ix {
            Some(TreeIndex { ix: self.ix - n })
        } else {
            None
        }
    }
}
