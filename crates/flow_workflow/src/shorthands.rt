ghost use Rattle.std.specs.Prelude.{◌≡◌, ◌↔◌, ◌∷◌, [], ℕ, List, IfOk};
ghost use Rattle.flow_model.specs.Constraint as constraint;
ghost use Rattle.flow_workflow.specs.Rule.{any_of, rule_of};

use crate::rule::Rule;
use std::alloc::{AllocError, Global};

/// If both events happen, then `a` before `b`.
pub fn precedes(alloc: Global, a: u32, b: u32) -> Result<Rule, AllocError>
    ensures tree { IfOk result (λ rule. rule_of rule ≡
        any_of (constraint.Never a ∷ constraint.Never b ∷ constraint.Order (a ∷ b ∷ []) ∷ [])) }
    ensures meaning { IfOk result (λ rule. (events : List ℕ) →
        constraint.Meets (rule_of rule) events ↔ constraint.Meets (constraint.precedes a b) events) }
{
    let order = vec![in alloc; a, b]?;
    let parts = vec![in alloc; Rule::Never(a), Rule::Never(b), Rule::Order(order)]?;
    Ok(Rule::Or(parts))
}

/// If `a` happens, then `b` happens.
pub fn needs(alloc: Global, a: u32, b: u32) -> Result<Rule, AllocError>
    ensures tree { IfOk result (λ rule. rule_of rule ≡ any_of (constraint.Never a ∷ constraint.Must b ∷ [])) }
    ensures meaning { IfOk result (λ rule. (events : List ℕ) →
        constraint.Meets (rule_of rule) events ↔ constraint.Meets (constraint.needs a b) events) }
{
    let parts = vec![in alloc; Rule::Never(a), Rule::Must(b)]?;
    Ok(Rule::Or(parts))
}
