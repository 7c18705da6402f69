ghost use Rattle.std.specs.Prelude.{◌++◌, IfOk};
ghost use Rattle.flow_conflict.specs.Conflict.{IsConflict};

use crate::judge::{Judge, Judged};
use crate::lists::joined;
use std::alloc::{AllocError, Global};

/// Those of the candidates that are enough for a conflict with what stands before them and behind them. What stands
/// there is asked about first where something was added to it; a set that is not judged counts as met.
pub fn enough<J: Judge>(
    alloc: Global,
    judge: &J,
    before: &[u32],
    candidates: &[u32],
    behind: &[u32],
    added: bool,
) -> Result<Vec<u32>, AllocError>
    requires { IsConflict (J.is_met judge.now) (J.size judge.now) (before.now ++ candidates.now ++ behind.now) }
    ensures { IfOk result (λ found. IsConflict (J.is_met judge.now) (J.size judge.now) (before.now ++ found.items ++ behind.now)) }
{
    if added {
        let others = joined(alloc, before, behind)?;
        if let Judged::Unmet = judge.judge(alloc, &others)? {
            return Ok(Vec::new(alloc));
        }
    }
    if candidates.len() < 2 {
        return candidates.to_vec(alloc);
    }
    let half = candidates.len() / 2;
    let (left, right) = candidates.split_at(half);
    let with_left = joined(alloc, before, left)?;
    let late = enough(alloc, judge, &with_left, right, behind, true)?;
    let with_late = joined(alloc, &late, behind)?;
    let early = enough(alloc, judge, before, left, &with_late, !late.is_empty())?;
    joined(alloc, &early, &late)
}
