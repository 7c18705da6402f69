ghost use Rattle.std.specs.Prelude.{◌≡◌};
ghost use Rattle.flow_model.specs.Verdict as model;
ghost use Rattle.flow_core.specs.Run.{Run, schema};
ghost use Rattle.flow_core.specs.Lawful.{IsLawful};
ghost use Rattle.flow_reply.specs.Conclusion.{Means};
ghost use Rattle.flow_reply.specs.Verdict.{ended};

use crate::verdict::Verdict;
use flow_core::{Core, End};
use flow_front::Status;

/// What a driven run came to.
pub fn verdict_of(core: &Core) -> Verdict
    ensures verdict { Means core.now result (model.drive_verdict (schema core.now) core.now.limit core.now.history) }
    ensures lawful { IsLawful (schema core.now) core.now.limit core.now.history }
{
    let entries = core.history().len();
    if core.committed() {
        Verdict::Ended(End::Committed)
    } else if entries == core.limit() as usize {
        Verdict::Ended(End::Spent)
    } else {
        Verdict::Unfinished
    }
}

/// The status of a verdict.
pub fn status_of(verdict: &Verdict) -> Status
    ensures { (r : Run) (meant : model.Verdict) → Means r verdict.now meant → result ≡ ended meant }
{
    match verdict {
        Verdict::Ended(End::Committed) => Status::Fine,
        Verdict::Ended(End::Spent) => Status::Spent,
        Verdict::Ended(End::NoOther(_) | End::Stuck) | Verdict::Unfinished => Status::No,
    }
}
