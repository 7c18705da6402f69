ghost use Rattle.flow_policy.specs.Laws.{PoliciesAreSingle};

/// A text is one policy of a script, or it is refused for one cause at one place.
pub fn law_policies_are_single()
    ensures { PoliciesAreSingle }
{}
