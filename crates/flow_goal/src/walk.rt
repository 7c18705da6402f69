ghost use Rattle.std.specs.Prelude.{◌≡◌, ◌<◌, ◌+◌, ◌++◌, ◌∷◌, ◌^◌, [], if◌then◌else◌, length, slice_set, IfOk, OnOk};
ghost use Rattle.flow_model.specs.Process.{leaves};
ghost use Rattle.flow_goal.specs.Goal.{process_of};
ghost use Rattle.flow_goal.specs.Measure.{Walks, by_flags, measure_of};

use crate::fold::Fold;
use crate::goal::Goal;
use crate::measure::Measure;
use std::alloc::{AllocError, Global};

/// Where a walk of a goal has come, from left to right, and what it has found of the choices.
#[derive(Drop)]
pub(crate) struct Walk {
    /// The number of the next leaf.
    next: u32,
    /// Of each choice, before those inside it, whether it stays.
    pub(crate) flags: Vec<bool>,
    /// The choices that stay, after those inside them.
    pub(crate) spans: Vec<Fold>,
}

impl Walk {
    /// At the first leaf.
    pub(crate) fn new(alloc: Global) -> Walk
        ensures next { result.next ≡ 0 }
        ensures flags { result.flags.items ≡ [] }
        ensures spans { result.spans.items ≡ [] }
    {
        Walk {
            next: 0,
            flags: Vec::new(alloc),
            spans: Vec::new(alloc),
        }
    }

    /// Ends a choice, whose flag has that place.
    fn end_choice(&mut self, place: usize, fold: Fold, stays: bool) -> Result<(), AllocError>
        requires { place < length self.old.flags.items }
        ensures next { self.new.next ≡ self.old.next }
        ensures flags { self.new.flags.items ≡ slice_set self.old.flags.items place stays }
        ensures spans { OnOk result (self.new.spans.items ≡ self.old.spans.items ++ (if stays then fold ∷ [] else [])) }
    {
        self.flags[place] = stays;
        if stays {
            self.spans.push(fold)?;
        }
        Ok(())
    }
}

/// Whether the leaf keeps the choices apart that it stands in.
fn is_apart(named: &[bool], leaf: u32) -> bool
    ensures { result ≡ by_flags named.now leaf }
{
    match named.get(leaf as usize) {
        Some(flag) => *flag,
        None => false,
    }
}

/// Walks the goal, which may stand in an isolated part.
pub(crate) fn walk_goal(
    goal: &Goal,
    isolated: bool,
    named: &[bool],
    walk: &mut Walk,
) -> Result<Measure, AllocError>
    requires { walk.old.next + length (leaves (process_of goal.now)) < 2 ^ 32 }
    ensures measure { IfOk result (λ measure. measure ≡ measure_of (by_flags named.now) (process_of goal.now)) }
    ensures walked { OnOk result (Walks (by_flags named.now) isolated (process_of goal.now) walk.old walk.new) }
{
    match goal {
        Goal::Nop => Ok(Measure::of_nop()),
        Goal::Leaf(leaf) => {
            walk.next += 1;
            Ok(Measure::of_leaf(is_apart(named, *leaf)))
        }
        Goal::Serial(left, right) | Goal::Beside(left, right) => {
            let first = walk_goal(left, isolated, named, walk)?;
            let second = walk_goal(right, isolated, named, walk)?;
            Ok(first.both(second))
        }
        Goal::Either(left, right) => {
            let place = walk.flags.len();
            walk.flags.push(false)?;
            let first = walk.next;
            let one = walk_goal(left, isolated, named, walk)?;
            let middle = walk.next;
            let other = walk_goal(right, isolated, named, walk)?;
            let choice = one.choice(other);
            let fold = Fold {
                first,
                middle,
                end: walk.next,
            };
            walk.end_choice(place, fold, choice.stays(isolated))?;
            Ok(choice)
        }
        Goal::Iso(part) => Ok(walk_goal(part, true, named, walk)?.isolated()),
    }
}
