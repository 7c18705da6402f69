//! What is told of an ask that is refused.
ghost use Rattle.std.specs.Prelude.{◌≡◌};
ghost use Rattle.flow_run_why_words.specs.Refused.{has_reason, leaf_asked};

use flow_ask::{Ask, Refusal};

/// The leaf that an ask is about, if it is about one itself.
pub(crate) fn leaf_asked(ask: Ask) -> Option<u32>
    ensures { result ≡ leaf_asked ask }
{
    match ask {
        Ask::Take(leaf) | Ask::Do(leaf) => Some(leaf),
        Ask::Done(_) | Ask::Fail(_) | Ask::Rewind | Ask::Commit => None,
    }
}

/// Whether the reason of the leaf is why that is refused.
pub(crate) fn has_reason(refusal: Refusal) -> bool
    ensures { result ≡ has_reason refusal }
{
    matches!(refusal, Refusal::NotEnabled | Refusal::TestFalse)
}

/// What a refusal means that the reason of no leaf tells.
pub(crate) fn meaning_of(refusal: Refusal) -> &'static str {
    match refusal {
        Refusal::Closed => "the run is committed: nothing comes behind that",
        Refusal::NoLeaf =>
            "the goal has no such leaf: flow check lists the leaves with their numbers",
        Refusal::WrongKind => "an event is taken; a test, an absence or an update is done by do",
        Refusal::NoClaim =>
            "no claim of that number was given: each take that is not refused gives one, from 1 on",
        Refusal::Answered => "the claim is answered: done or fail is said once",
        Refusal::Late { .. } =>
            "the claim lapsed: a failure or a step back began a new epoch, and a new claim is taken",
        Refusal::NoChoice => "at no place of the journal is another choice free",
        Refusal::Unfinished => "the journal is no whole execution yet",
        Refusal::ClaimsOut { .. } => "what is out is answered first, by done or fail",
        Refusal::Spent { .. } => "the history has as many entries as it may have",
        _ => duty_meaning(refusal),
    }
}

/// What a refusal by a duty means.
fn duty_meaning(refusal: Refusal) -> &'static str {
    match refusal {
        Refusal::Role =>
            "no role of whoever calls is allowed the event: a line as NAME says who calls, a line allow of the policy what a role may take",
        Refusal::Separate(_) =>
            "by that line separate of the policy, counted from 0, one user may not have both events",
        Refusal::Bind(_) =>
            "by that line bind of the policy, counted from 0, one user has both events",
        Refusal::Holder => "another user took the claim, and answers it",
        _ => "",
    }
}
