ghost use Rattle.std.specs.Prelude.{◌≡◌, IfOk};
ghost use Rattle.flow_goal.specs.Goal.{process_of, together};

use flow_model::Operator;
use std::alloc::{AllocError, Global};

/// A goal of Concurrent Transaction Logic (Bonner and Kifer 1996).
#[derive(Drop)]
pub enum Goal {
    Nop,
    Leaf(u32),
    /// The left goal, and then the right one.
    Serial(Box<Goal>, Box<Goal>),
    /// Both, beside one another.
    Beside(Box<Goal>, Box<Goal>),
    /// One of the two.
    Either(Box<Goal>, Box<Goal>),
    /// With nothing from outside in between.
    Iso(Box<Goal>),
}

/// The two goals as one.
pub fn together(
    alloc: Global,
    operator: Operator,
    left: Goal,
    right: Goal,
) -> Result<Goal, AllocError>
    ensures { IfOk result (λ goal. process_of goal ≡ together operator (process_of left) (process_of right)) }
{
    let left = match Box::new(alloc, left) {
        Ok(left) => left,
        Err(refused) => {
            drop(right);
            return Err(refused.into());
        }
    };
    let right = match Box::new(alloc, right) {
        Ok(right) => right,
        Err(refused) => {
            drop(left);
            return Err(refused.into());
        }
    };
    match operator {
        Operator::Serial => Ok(Goal::Serial(left, right)),
        Operator::Beside => Ok(Goal::Beside(left, right)),
        Operator::Either => Ok(Goal::Either(left, right)),
    }
}
