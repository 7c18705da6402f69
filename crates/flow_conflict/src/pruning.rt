ghost use Rattle.std.specs.Prelude.{IfOk};
ghost use Rattle.flow_conflict.specs.Conflict.{IsConflict, IsLeast};

use crate::judge::{Judge, Judged};
use crate::lists::joined;
use std::alloc::{AllocError, Global};

/// Demands that cannot be met together, by their numbers, which rise.
#[derive(Debug, Drop)]
pub struct Conflict {
    pub members: Vec<u32>,
    /// The members of which it is not known whether the others alone are a conflict.
    pub undecided: Vec<u32>,
}

/// Leaves each member out in turn. It goes where the others are a conflict without it, and stays where they are met,
/// or that is not known.
pub fn pruned<J: Judge>(
    alloc: Global,
    judge: &J,
    candidates: &[u32],
) -> Result<Conflict, AllocError>
    requires { IsConflict (J.is_met judge.now) (J.size judge.now) candidates.now }
    ensures conflict { IfOk result (λ found. IsConflict (J.is_met judge.now) (J.size judge.now) found.members.items) }
    ensures least { IfOk result (λ found. IsLeast (J.is_met judge.now) (J.is_within judge.now) found.members.items found.undecided.items) }
{
    let mut members = Vec::new(alloc);
    let mut undecided = Vec::new(alloc);
    for (index, candidate) in candidates.iter().enumerate() {
        let others = joined(alloc, &members, &candidates[index + 1..])?;
        match judge.judge(alloc, &others)? {
            Judged::Unmet => {}
            Judged::Met => members.push(*candidate)?,
            Judged::Unknown => {
                members.push(*candidate)?;
                undecided.push(*candidate)?;
            }
        }
    }
    Ok(Conflict { members, undecided })
}
