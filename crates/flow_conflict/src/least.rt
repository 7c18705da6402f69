ghost use Rattle.std.specs.Prelude.{◌≡◌, IfOk, IfNone, IfSome};
ghost use Rattle.std.specs.List.{range_with_len};
ghost use Rattle.flow_conflict.specs.Conflict.{IsConflict, IsLeast};

use crate::judge::{Judge, Judged};
use crate::lists::numbers;
use crate::pruning::{Conflict, pruned};
use crate::search::enough;
use std::alloc::{AllocError, Global};

/// A least conflict among all demands, where they are judged within the limits and cannot be met together.
pub fn least_conflict<J: Judge>(
    alloc: Global,
    judge: &J,
    count: u32,
) -> Result<Option<Conflict>, AllocError>
    requires { count ≡ J.size judge.now }

    // It is found just where all demands are within the limits, and not met.
    ensures none { IfOk result (λ found. IfNone found (J.is_within judge.now (range_with_len 0 count) → J.is_met judge.now (range_with_len 0 count))) }
    ensures some { IfOk result (λ found. IfSome found (λ _. J.is_within judge.now (range_with_len 0 count) × ¬ (J.is_met judge.now (range_with_len 0 count)))) }

    ensures conflict { IfOk result (λ found. IfSome found (λ conflict. IsConflict (J.is_met judge.now) count conflict.members.items)) }
    ensures least { IfOk result (λ found. IfSome found (λ conflict.
        IsLeast (J.is_met judge.now) (J.is_within judge.now) conflict.members.items conflict.undecided.items)) }
{
    let all = numbers(alloc, count)?;
    match judge.judge(alloc, &all)? {
        Judged::Met | Judged::Unknown => Ok(None),
        Judged::Unmet => {
            let found = enough(alloc, judge, &[], &all, &[], false)?;
            Ok(Some(pruned(alloc, judge, &found)?))
        }
    }
}
