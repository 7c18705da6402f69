//! Where a run stands: what it does next, and what it came to.
ghost use Rattle.std.specs.Prelude.{◌≡◌, ℕ, IfSome, MatchOption};
ghost use Rattle.flow_model.specs.Run.{IsLegal, IsOpenIndex};
ghost use Rattle.flow_model.specs.Verdict.{EndsKept, HasNoOpenIndex};
ghost use Rattle.flow_core.specs.Run.{schema, now};
ghost use Rattle.flow_core.specs.Next.{IsNext};
ghost use Rattle.flow_crew.specs.Ends.{IsEnd, HasNoEnd};

use flow_core::{Core, End, Next};

/// What the run came to, where `failed` is the leaf of the kept failure with which it ends, if it ends so, and what it does
/// next, where that had to be known. The leaves are looked at only where no claim is out.
pub(crate) fn stand(core: &Core, failed: Option<u32>) -> (Option<Next>, Option<End>)
    requires { MatchOption failed ((leaf : ℕ) → ¬ (EndsKept (schema core.now) core.now.history leaf)) (EndsKept (schema core.now) core.now.history) }
    ensures next { IfSome result.0 (IsNext core.now) }
    ensures end { MatchOption result.1 (HasNoEnd core.now) (IsEnd core.now) }
    ensures legal { IsLegal (schema core.now) core.now.limit core.now.history }
{
    let length = core.history().len();
    if core.committed() {
        return (None, Some(End::Committed));
    }
    if length == core.limit() as usize {
        return (None, Some(End::Spent));
    }
    if let Some(leaf) = failed {
        return (None, unless_open(core, End::NoOther(leaf)));
    }
    if core.least_claim().is_some() {
        return (None, None);
    }
    let next = core.next();
    match next {
        Next::Stuck(_) => (Some(next), unless_open(core, End::Stuck)),
        _ => (Some(next), None),
    }
}

/// What the run does next, which may be known. It is asked of all leaves at once: while claims are out, few of them may go on.
pub(crate) fn look(core: &mut Core, known: Option<Next>) -> Next
    requires { IfSome known (IsNext core.old) }
    ensures same { core.new ≡ core.old }
    ensures next { IsNext core.old result }
{
    if let Some(next) = known {
        return next;
    }
    core.look_ahead();
    core.next()
}

/// The end, where no choice is open.
fn unless_open(core: &Core, end: End) -> Option<End>
    ensures { MatchOption result ((i : ℕ) × IsOpenIndex (schema core.now) (now core.now) i) (λ found. (found ≡ end) × HasNoOpenIndex (schema core.now) core.now.history) }
{
    match core.open_index() {
        Some(_) => None,
        None => Some(end),
    }
}
