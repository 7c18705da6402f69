ghost use Rattle.std.specs.Prelude.{◌≡◌, ◌++◌, ◌∷◌, [], IfOk};

use std::alloc::{AllocError, Global};

/// Pairs of leaves, of which the first is to stand before the second: one way in which leaves meet a
/// rule.
#[derive(Drop)]
pub struct OrderSet {
    pairs: Vec<(u32, u32)>,
}

impl OrderSet {
    pub(crate) fn new(pairs: Vec<(u32, u32)>) -> OrderSet
        ensures { result.pairs ≡ pairs }
    {
        OrderSet { pairs }
    }

    /// The pairs in order.
    pub fn pairs(&self) -> &[(u32, u32)]
        ensures { result.now ≡ self.now.pairs.items }
    {
        &self.pairs
    }

    /// The same pairs in memory of their own.
    pub(crate) fn copy(&self, alloc: Global) -> Result<OrderSet, AllocError>
        ensures { IfOk result (λ set. set.pairs.items ≡ self.now.pairs.items) }
    {
        let pairs = Vec::from_slice(alloc, &self.pairs)?;
        Ok(OrderSet { pairs })
    }

    /// One pair more.
    pub(crate) fn with(mut self, first: u32, second: u32) -> Result<OrderSet, AllocError>
        ensures { IfOk result (λ set. set.pairs.items ≡ self.pairs.items ++ (first, second) ∷ []) }
    {
        self.pairs.push((first, second))?;
        Ok(self)
    }
}
