ghost use Rattle.flow_roles.specs.Single.{DeskTakesAreSingle, DeskPostsAreSingle, DeskOthersAreSingle, DeskAnswersAreSingle};

/// Each ask at a desk has one answer, and leaves one run under one policy. So a refusal comes exactly where its cause is the first in
/// the order.
pub fn law_desk_answers_are_single()
    ensures takes { DeskTakesAreSingle }
    ensures posts { DeskPostsAreSingle }
    ensures others { DeskOthersAreSingle }
    ensures answers { DeskAnswersAreSingle }
{}
