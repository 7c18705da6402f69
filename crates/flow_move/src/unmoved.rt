ghost use Rattle.std.specs.Prelude.{◌≡◌};
ghost use Rattle.flow_move.specs.declared.unmoved.Unmoved.TheVariants as unmoved;

use std::alloc::AllocError;

/// Why an entry of the old history has no place in the new case.
#[derive(Clone, Copy)]
pub enum Cause {
    /// The new case does not know the user.
    NoUser,
    /// No leaf of the new text has the label.
    NoName,
    /// The run cannot make it now.
    NotNow,
    /// The run could make it now, but duties or rules forbid it to the user.
    Forbidden,
}

/// Why a history is not made again.
#[derive(Clone, Copy)]
pub enum Unmoved {
    NoMemory,
    /// The entry at the place, from 0, is the first that is not made.
    Entry { place: usize, cause: Cause },
}

impl From<AllocError> for Unmoved {
    ghost from_gives = { λ _ refusal. refusal ≡ unmoved.NoMemory };

    fn from(_error: AllocError) -> Unmoved {
        Unmoved::NoMemory
    }
}
