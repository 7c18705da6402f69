ghost use Rattle.std.specs.Prelude.{◌≡◌};
ghost use Rattle.flow_workflow.specs.declared.refusal.ExpandRefusal.TheVariants.{NoMemory};

use flow_facts::Name;
use flow_goal::Twice;
use std::alloc::{AllocError, AllocFailed};
use std::fmt::{self, Display, Formatter};
use thiserror::Error;

/// A part of a workflow.
#[derive(Clone, Copy, Debug)]
pub enum Part {
    Flows,
    Goal,
    Rules,
}

impl Display for Part {
    fn fmt<W: fmt::Write>(&self, f: &mut Formatter<W>) -> fmt::Result {
        f.write_str(match self {
            Part::Flows => "sub-workflows",
            Part::Goal => "leaves, nops or isolations of the goal",
            Part::Rules => "names in constraints",
        })
    }
}

/// Why a workflow is not expanded.
#[derive(Debug, Drop, Error)]
pub enum ExpandRefusal {
    /// There are so many sub-workflows, leaves and `nop`s of the expanded goal, or its isolations where these are more,
    /// or names in constraints. What would pass the greatest number is capped at it.
    #[error("there are {count} {part}, which is too many")]
    TooLarge { part: Part, count: u64 },
    /// The first sub-workflow names the second, and so on, and the last is the first again.
    #[error("the sub-workflows {chain:?} name one another in a ring")]
    Recursive { chain: Vec<Name> },
    /// Two leaves of one event stand in one execution, the first such.
    #[error("leaves {first} and {second} of one event stand in one execution", first = .0.first, second = .0.second)]
    Twice(Twice),
    /// There is no memory. Nothing is said of the workflow.
    #[error("out of memory")]
    NoMemory,
}

impl From<AllocError> for ExpandRefusal {
    ghost from_gives = { λ _ e. e ≡ NoMemory };

    fn from(_error: AllocError) -> ExpandRefusal {
        ExpandRefusal::NoMemory
    }
}

impl<T: Drop> From<AllocFailed<T>> for ExpandRefusal {
    ghost from_gives = { λ _ e. e ≡ NoMemory };

    fn from(_error: AllocFailed<T>) -> ExpandRefusal {
        ExpandRefusal::NoMemory
    }
}
