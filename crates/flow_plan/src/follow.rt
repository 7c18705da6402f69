ghost use Rattle.std.specs.Prelude.{◌≡◌, ◌≤◌, ◌↔◌, IsTrue, length};
ghost use Rattle.flow_model.specs.Lists.{◌∈◌};
ghost use Rattle.flow_model.specs.FoldedReady.{IsFinished};
ghost use Rattle.flow_plan.specs.Courses.{AreFollowed, IsCourse};
ghost use Rattle.flow_plan.specs.Fields.{Fills, IsTableOf};
ghost use Rattle.flow_plan.specs.Planned.{Planned};

use crate::course::Course;
use crate::plan::Plan;
use crate::table::{Rows, Table, by_width};

impl<const W: usize> Table<W> {
    /// How long a front of the list may be done leaf by leaf, and whether the goal is finished after all of it.
    fn follow(&self, leaves: &[u32], course: &Course, list: &[u32]) -> (usize, bool)
        requires wide { W ≤ 64 }
        requires filled { Fills leaves.now self.now.before.items }
        requires table { (p : Planned) × IsTableOf p self.now × (p.leaves ≡ leaves.now) × IsCourse p list.now course.now }
        ensures followed { (p : Planned) → IsTableOf p self.now → p.leaves ≡ leaves.now → IsCourse p list.now course.now →
            AreFollowed p list.now result.0 }
        ensures whole { (p : Planned) → IsTableOf p self.now → p.leaves ≡ leaves.now → IsCourse p list.now course.now →
            IsTrue result.1 ↔ ((result.0 ≡ length list.now) × IsFinished p.process (λ n. n ∈ list.now)) }
    {
        let mut sides = course.begin();
        for (place, leaf) in list.iter().enumerate() {
            if !self.ready(leaves, &sides, *leaf) {
                return (place, false);
            }
            course.pass(place, *leaf, &mut sides);
        }
        (list.len(), self.complete(&sides))
    }
}

impl Plan {
    /// How long a front of the list may be done leaf by leaf, and whether the goal is finished after all of it. It takes no
    /// memory.
    pub fn follow(&self, course: &Course, list: &[u32]) -> (usize, bool)
        requires { IsCourse self.now list.now course.now }
        ensures followed { AreFollowed self.now list.now result.0 }
        ensures whole { IsTrue result.1 ↔ ((result.0 ≡ length list.now) × IsFinished self.now.process (λ n. n ∈ list.now)) }
    {
        by_width!(&self.rows, table => table.follow(self.leaves(), course, list))
    }
}
