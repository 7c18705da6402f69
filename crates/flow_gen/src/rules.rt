ghost use Rattle.std.specs.Prelude.{◌≡◌, ◌+◌, ◌*◌, ◌≤◌, IfOk, map, length};
ghost use Rattle.flow_model.specs.declared.limits.TheConstants.{GREATEST_SIZE};
ghost use Rattle.flow_form.specs.RuleForm.{rule_shape_of, precedes};
ghost use Rattle.flow_gen.specs.Generated.{event_name, constraints};

use crate::names::name_of;
use flow_form::RuleForm;
use std::alloc::{AllocError, Global};

/// The first event happens before the second, where both happen.
fn rule_of(alloc: Global, before: u32, after: u32) -> Result<RuleForm, AllocError>
    ensures { IfOk result (λ rule. rule_shape_of rule ≡ precedes (event_name before) (event_name after)) }
{
    let before = name_of(alloc, before)?;
    let after = name_of(alloc, after)?;
    Ok(RuleForm::Precedes(before, after))
}

/// A constraint for each two blocks that follow each other, by two draws each.
pub(crate) fn rules_of(alloc: Global, draws: &[u32]) -> Result<Vec<RuleForm>, AllocError>
    requires { length draws.now ≤ 2 * GREATEST_SIZE }
    ensures { IfOk result (λ rules. map rule_shape_of rules.items ≡ constraints 0 draws.now) }
{
    let mut rules = Vec::new(alloc);
    let mut first = 0;
    let mut rest = draws;
    while let [before, after, more @ ..] = rest {
        rules.push(rule_of(alloc, first + *before % 8, first + 8 + *after % 8)?)?;
        rest = more;
        first += 8;
    }
    Ok(rules)
}
