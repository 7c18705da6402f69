ghost use Rattle.std.specs.Prelude.{◌≡◌};
ghost use Rattle.flow_case_begin.specs.declared.stop.CaseStop.TheVariants.{Workflow, Policy, NoMemory};

use flow_case::CasePolicyRefusal;
use flow_front::Stop;
use flow_keep::KeepRefusal;
use flow_trail::OpenRefusal;
use std::alloc::AllocError;

/// Why a case is not opened.
#[derive(Drop)]
pub enum CaseStop {
    /// The workflow is refused.
    Workflow(Stop),
    /// The policy is refused.
    Policy(CasePolicyRefusal),
    /// The policy has more bytes than a text may have.
    LongPolicy,
    /// The entry of that number, from 0, is of no run of the workflow, or duties or rules forbid it.
    Foreign(usize),
    /// The trail is refused.
    Trail(OpenRefusal),
    /// A call of the disk failed.
    Disk,
    NoMemory,
}

impl From<AllocError> for CaseStop {
    ghost from_gives = { λ _ stop. stop ≡ NoMemory };

    fn from(_error: AllocError) -> CaseStop {
        CaseStop::NoMemory
    }
}

impl From<Stop> for CaseStop {
    ghost from_gives = { λ why stop. stop ≡ Workflow why };

    fn from(stop: Stop) -> CaseStop {
        CaseStop::Workflow(stop)
    }
}

impl From<CasePolicyRefusal> for CaseStop {
    ghost from_gives = { λ why stop. stop ≡ Policy why };

    fn from(refusal: CasePolicyRefusal) -> CaseStop {
        CaseStop::Policy(refusal)
    }
}

impl From<KeepRefusal> for CaseStop {
    ghost use Rattle.flow_case_begin.specs.Stops.{of_keep};

    ghost from_gives = { λ why stop. stop ≡ of_keep why };

    fn from(refusal: KeepRefusal) -> CaseStop {
        match refusal {
            KeepRefusal::DiskFault => CaseStop::Disk,
            KeepRefusal::Foreign { index } => CaseStop::Foreign(index as usize),
            KeepRefusal::NoMemory => CaseStop::NoMemory,
        }
    }
}

impl From<OpenRefusal> for CaseStop {
    ghost use Rattle.flow_case_begin.specs.Stops.{of_trail};

    ghost from_gives = { λ why stop. stop ≡ of_trail why };

    fn from(refusal: OpenRefusal) -> CaseStop {
        match refusal {
            OpenRefusal::DiskFault => CaseStop::Disk,
            OpenRefusal::NoMemory => CaseStop::NoMemory,
            _ => CaseStop::Trail(refusal),
        }
    }
}
