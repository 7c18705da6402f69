ghost use Rattle.flow_case.specs.Single.{CaseAnswersAreSingle};

/// Each ask of a case has one answer, and leaves one case. So a refusal comes exactly where its cause is the first in the order.
pub fn law_case_answers_are_single()
    ensures { CaseAnswersAreSingle }
{}
