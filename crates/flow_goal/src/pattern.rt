ghost use Rattle.std.specs.Prelude.{◌≡◌, ◌<◌, ◌-◌, ◌^◌, ◌∷◌, [], length, IfOk, IsTrue, OnOk};
ghost use Rattle.flow_goal.specs.Capped.{capped};
ghost use Rattle.flow_goal.specs.Pattern.{IsCounted, Writes, lines_of, nothing};

use crate::text::Text;
use std::alloc::{AllocError, Global};

/// The resolutions of a goal as texts. What stands in each of them is written once.
#[derive(Drop)]
pub(crate) enum Pattern {
    /// It stands in each resolution.
    Fixed(Text),
    /// So many resolutions, or the greatest `u64` where they are more: each of the first pattern before each of the
    /// second.
    Both(u64, Box<Pattern>, Box<Pattern>),
    /// So many, or the greatest `u64`: those of the first pattern, and then those of the second.
    Either(u64, Box<Pattern>, Box<Pattern>),
}

impl Pattern {
    /// How many resolutions there are, or the greatest `u64` where they are more.
    pub(crate) fn count(&self) -> u64
        requires { IsCounted self.now }
        ensures { result ≡ capped (length (lines_of self.now)) }
    {
        match self {
            Pattern::Fixed(_) => 1,
            Pattern::Both(count, _, _) | Pattern::Either(count, _, _) => *count,
        }
    }

    /// Whether there is one resolution, of which nothing is written.
    pub(crate) fn is_nothing(&self) -> bool
        ensures { IsTrue result → lines_of self.now ≡ nothing ∷ [] }
    {
        match self {
            Pattern::Fixed(text) => text.is_empty(),
            Pattern::Both(..) | Pattern::Either(..) => false,
        }
    }
}

/// Puts the resolution of that number behind what is written.
pub(crate) fn write(pattern: &Pattern, number: u64, out: &mut Text) -> Result<(), AllocError>
    requires counted { IsCounted pattern.now }
    requires numbered { number < length (lines_of pattern.now) }
    requires exact { length (lines_of pattern.now) < 2 ^ 64 - 1 }
    ensures { OnOk result (Writes (lines_of pattern.now) number out.old out.new) }
{
    match pattern {
        Pattern::Fixed(text) => out.put_all(text),
        Pattern::Both(_, first, second) => {
            let count = second.count();
            write(first, number / count, out)?;
            write(second, number % count, out)
        }
        Pattern::Either(_, left, right) => {
            let count = left.count();
            if number < count {
                write(left, number, out)
            } else {
                write(right, number - count, out)
            }
        }
    }
}
