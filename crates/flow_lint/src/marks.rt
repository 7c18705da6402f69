ghost use Rattle.std.specs.Prelude.{◌≡◌, true, Some, length, slice_get};

use crate::question::Question;
use std::alloc::{AllocError, Global};

/// Which places of a list are marked.
#[derive(Clone, Copy)]
pub(crate) struct Marks<'a> {
    pub(crate) marks: &'a [bool],
}

impl Question for Marks<'_> {
    ghost size = { λ question. length question.marks.now };

    ghost is_so = { λ question place. slice_get question.marks.now place ≡ Some true };

    fn count(&self) -> usize {
        self.marks.len()
    }

    fn ask(&self, _alloc: Global, number: u32) -> Result<bool, AllocError> {
        Ok(self.marks[number as usize])
    }
}
