ghost use Rattle.flow_turn.specs.Numbers.{NumbersAreNew};

use crate::kept::Kept;

/// A pass that is split has a number that no other pass of its lock has or had.
pub fn law_numbers_are_new<T: Kept>()
    ensures { NumbersAreNew T.Entry T.Fixed }
{}
