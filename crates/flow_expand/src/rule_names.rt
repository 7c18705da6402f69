ghost use Rattle.std.specs.Prelude.{◌≡◌, length, map};
ghost use Rattle.flow_form.specs.RuleForm.{rule_shape_of, rule_shapes};
ghost use Rattle.flow_form.specs.Names.{names_in_rule, names_in_rules};
ghost use Rattle.flow_expand.specs.Expansion.{capped};

use flow_form::RuleForm;

/// How many names of events are written in constraints.
#[cycle(counting)]
pub(crate) fn count_names(rules: &[RuleForm]) -> u64
    ensures { result ≡ capped (length (names_in_rules (rule_shapes (map rule_shape_of rules.now)))) }
{
    let mut count: u64 = 0;
    for rule in rules {
        count = count.saturating_add(count_names_in(rule));
    }
    count
}

#[cycle(counting)]
fn count_names_in(rule: &RuleForm) -> u64
    ensures { result ≡ capped (length (names_in_rule (rule_shape_of rule.now))) }
{
    match rule {
        RuleForm::Must(_) | RuleForm::Never(_) => 1,
        RuleForm::Order(names) => names.len() as u64,
        RuleForm::Precedes(_, _) | RuleForm::Needs(_, _) => 2,
        RuleForm::Not(part) => count_names_in(part),
        RuleForm::And(parts) | RuleForm::Or(parts) => count_names(parts),
    }
}
