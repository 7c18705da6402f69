ghost use Rattle.std.specs.Prelude.{◌≡◌};
ghost use Rattle.flow_questions_cli.specs.declared.stop.QuestionStop.TheVariants.{Workflow, Policy, NoMemory};

use flow_case::CasePolicyRefusal;
use flow_facts::Name;
use flow_front::Stop;
use std::alloc::AllocError;

/// Why nothing is told of a workflow and its policy.
#[derive(Drop)]
pub enum QuestionStop {
    /// The workflow is refused, or no execution meets its constraints.
    Workflow(Stop),
    /// The policy is refused.
    Policy(CasePolicyRefusal),
    /// The policy has more bytes than a text may have.
    LongPolicy,
    /// The first of the names, or else the second, is that of no event. The event whose name differs from it at one place was
    /// perhaps meant.
    NoEvent { second: bool, near: Option<Name> },
    /// Both names are that of one event.
    OneEvent,
    NoMemory,
}

impl From<AllocError> for QuestionStop {
    ghost from_gives = { λ _ stop. stop ≡ NoMemory };

    fn from(_error: AllocError) -> QuestionStop {
        QuestionStop::NoMemory
    }
}

impl From<Stop> for QuestionStop {
    ghost from_gives = { λ why stop. stop ≡ Workflow why };

    fn from(stop: Stop) -> QuestionStop {
        QuestionStop::Workflow(stop)
    }
}

impl From<CasePolicyRefusal> for QuestionStop {
    ghost from_gives = { λ why stop. stop ≡ Policy why };

    fn from(refusal: CasePolicyRefusal) -> QuestionStop {
        QuestionStop::Policy(refusal)
    }
}
