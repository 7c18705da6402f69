ghost use Rattle.flow_core.specs.Callers.{CallersMadeAll};
ghost use Rattle.flow_core.specs.Single.{TakesAreSingle, PerformsAreSingle, PostsAreSingle, RewindsAreSingle, CommitsAreSingle, AnswersAreSingle, NextsAreSingle};

/// Each ask has one answer, and leaves one run. So a refusal comes exactly where its cause is the first in the order. What a run
/// does next is one thing too.
pub fn law_answers_are_single()
    ensures takes { TakesAreSingle }
    ensures performs { PerformsAreSingle }
    ensures posts { PostsAreSingle }
    ensures rewinds { RewindsAreSingle }
    ensures commits { CommitsAreSingle }
    ensures answers { AnswersAreSingle }
    ensures nexts { NextsAreSingle }
{}

/// What different callers made, taken together, is the whole history, where each entry is one of theirs.
pub fn law_callers_made_all()
    ensures { CallersMadeAll }
{}
