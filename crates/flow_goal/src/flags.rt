ghost use Rattle.std.specs.Prelude.{◌≡◌, ◌∷◌, ◌++◌, ℕ, Bool, List};
ghost use Rattle.flow_goal.specs.Folds.{flags_in};
ghost use Rattle.flow_goal.specs.Goal.{process_of};

use crate::goal::Goal;

/// The first flag.
pub(crate) fn first_flag(flags: &[bool]) -> bool
    ensures { (flag : Bool) (more : List Bool) → flags.now ≡ flag ∷ more → result ≡ flag }
{
    match flags.first() {
        Some(flag) => *flag,
        None => false,
    }
}

/// The others.
pub(crate) fn after_flag(flags: &[bool]) -> &[bool]
    ensures { (flag : Bool) (more : List Bool) → flags.now ≡ flag ∷ more → result.now ≡ more }
{
    match flags.split_first() {
        Some((_, more)) => more,
        None => flags,
    }
}

/// Those after the flags of a goal.
pub(crate) fn after_choices<'a>(goal: &Goal, flags: &'a [bool]) -> &'a [bool]
    ensures { (apart : ℕ → Bool) (isolated : Bool) (more : List Bool) →
        flags.now ≡ flags_in apart isolated (process_of goal.now) ++ more → result.now ≡ more }
{
    match goal {
        Goal::Nop | Goal::Leaf(_) => flags,
        Goal::Serial(left, right) | Goal::Beside(left, right) => {
            after_choices(right, after_choices(left, flags))
        }
        Goal::Either(left, right) => {
            after_choices(right, after_choices(left, after_flag(flags)))
        }
        Goal::Iso(part) => after_choices(part, flags),
    }
}
