ghost use Rattle.std.specs.Prelude.{◌≡◌, ◌++◌, OnOk, map, codes};
ghost use Rattle.flow_form.specs.RuleForm.{rule_shape_of, rule_shapes};
ghost use Rattle.flow_text.specs.Joins.{word_of, parted_rule};
ghost use Rattle.flow_text.specs.Printed.{bracketed, names_text, rule_text, rules_text};

use flow_form::{Name, RuleForm};
use flow_model::Connective;
use std::alloc::AllocError;

/// What stands between two members.
fn word(connective: Connective) -> &'static [u8]
    ensures { result.now ≡ word_of connective }
{
    match connective {
        Connective::And => b" and ",
        Connective::Or => b" or ",
    }
}

/// Whether a member stands in parentheses.
fn parts(connective: Connective, member: &RuleForm) -> bool
    ensures { result ≡ parted_rule connective (rule_shape_of member.now) }
{
    match member {
        RuleForm::And(_) => connective == Connective::And,
        RuleForm::Or(_) => true,
        _ => false,
    }
}

/// Each of them after a blank.
fn push_names(text: &mut Vec<u8>, names: &[Name]) -> Result<(), AllocError>
    ensures { OnOk result (text.new.items ≡ text.old.items ++ names_text names.now) }
{
    for name in names {
        push_with_name(text, b" ", name)?;
    }
    Ok(())
}

/// The name behind a word.
pub(crate) fn push_with_name(text: &mut Vec<u8>, word: &[u8], name: &Name) -> Result<(), AllocError>
    ensures { OnOk result (text.new.items ≡ text.old.items ++ (word.now ++ name.now)) }
{
    text.extend_from_slice(word)?;
    text.extend_from_slice(name.bytes())
}

/// The two names behind a word.
fn push_with_two(
    text: &mut Vec<u8>,
    word: &[u8],
    first: &Name,
    second: &Name,
) -> Result<(), AllocError>
    ensures { OnOk result (text.new.items ≡ text.old.items ++ (word.now ++ first.now ++ codes " " ++ second.now)) }
{
    push_with_name(text, word, first)?;
    push_with_name(text, b" ", second)
}

/// A member of a list of that kind.
#[cycle(rules)]
fn push_member(
    text: &mut Vec<u8>,
    connective: Connective,
    member: &RuleForm,
) -> Result<(), AllocError>
    ensures { OnOk result (text.new.items ≡ text.old.items ++ bracketed (parted_rule connective (rule_shape_of member.now)) (rule_text (rule_shape_of member.now))) }
{
    if parts(connective, member) {
        text.extend_from_slice(b"(")?;
        push_rule(text, member)?;
        text.extend_from_slice(b")")
    } else {
        push_rule(text, member)
    }
}

#[cycle(rules)]
fn push_list(
    text: &mut Vec<u8>,
    connective: Connective,
    members: &[RuleForm],
) -> Result<(), AllocError>
    ensures { OnOk result (text.new.items ≡ text.old.items ++ rules_text (word_of connective) (parted_rule connective) (rule_shapes (map rule_shape_of members.now))) }
{
    let [first, rest @ ..] = members else {
        return Ok(());
    };
    push_member(text, connective, first)?;
    for member in rest {
        text.extend_from_slice(word(connective))?;
        push_member(text, connective, member)?;
    }
    Ok(())
}

#[cycle(rules)]
pub(crate) fn push_rule(text: &mut Vec<u8>, rule: &RuleForm) -> Result<(), AllocError>
    ensures { OnOk result (text.new.items ≡ text.old.items ++ rule_text (rule_shape_of rule.now)) }
{
    match rule {
        RuleForm::Must(name) => push_with_name(text, b"must ", name),
        RuleForm::Never(name) => push_with_name(text, b"never ", name),
        RuleForm::Order(names) => {
            text.extend_from_slice(b"order")?;
            push_names(text, names)
        }
        RuleForm::Precedes(first, second) => push_with_two(text, b"precedes ", first, second),
        RuleForm::Needs(first, second) => push_with_two(text, b"needs ", first, second),
        RuleForm::Not(part) => {
            text.extend_from_slice(b"not ")?;
            push_member(text, Connective::And, part)
        }
        RuleForm::And(members) => push_list(text, Connective::And, members),
        RuleForm::Or(members) => push_list(text, Connective::Or, members),
    }
}
