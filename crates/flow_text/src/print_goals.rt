ghost use Rattle.std.specs.Prelude.{◌≡◌, ◌++◌, OnOk, map};
ghost use Rattle.flow_facts.specs.Text.{fact_text};
ghost use Rattle.flow_form.specs.Form.{shape_of, shapes};
ghost use Rattle.flow_text.specs.Joins.{mark_of, parted};
ghost use Rattle.flow_text.specs.Printed.{bracketed, goal_text, list_text};

use flow_facts::{Fact, push_fact};
use flow_form::Form;
use flow_model::Operator;
use std::alloc::AllocError;

/// What stands between two members.
fn mark(operator: Operator) -> &'static [u8]
    ensures { result.now ≡ mark_of operator }
{
    match operator {
        Operator::Serial => b" * ",
        Operator::Beside => b" | ",
        Operator::Either => b" + ",
    }
}

/// Whether a member stands in parentheses.
fn parts(operator: Operator, member: &Form) -> bool
    ensures { result ≡ parted operator (shape_of member.now) }
{
    match member {
        Form::Serial(_) => operator == Operator::Serial,
        Form::Beside(_) => operator != Operator::Either,
        Form::Either(_) => true,
        _ => false,
    }
}

/// The fact behind a word or a mark.
pub(crate) fn push_with_fact(text: &mut Vec<u8>, word: &[u8], fact: &Fact) -> Result<(), AllocError>
    ensures { OnOk result (text.new.items ≡ text.old.items ++ (word.now ++ fact_text fact.now)) }
{
    text.extend_from_slice(word)?;
    push_fact(text, fact)
}

#[cycle(goals)]
fn push_member(text: &mut Vec<u8>, operator: Operator, member: &Form) -> Result<(), AllocError>
    ensures { OnOk result (text.new.items ≡ text.old.items ++ bracketed (parted operator (shape_of member.now)) (goal_text (shape_of member.now))) }
{
    if parts(operator, member) {
        text.extend_from_slice(b"(")?;
        push_goal(text, member)?;
        text.extend_from_slice(b")")
    } else {
        push_goal(text, member)
    }
}

#[cycle(goals)]
fn push_list(text: &mut Vec<u8>, operator: Operator, members: &[Form]) -> Result<(), AllocError>
    ensures { OnOk result (text.new.items ≡ text.old.items ++ list_text (mark_of operator) (parted operator) (shapes (map shape_of members.now))) }
{
    let [first, rest @ ..] = members else {
        return Ok(());
    };
    push_member(text, operator, first)?;
    for member in rest {
        text.extend_from_slice(mark(operator))?;
        push_member(text, operator, member)?;
    }
    Ok(())
}

#[cycle(goals)]
pub(crate) fn push_goal(text: &mut Vec<u8>, goal: &Form) -> Result<(), AllocError>
    ensures { OnOk result (text.new.items ≡ text.old.items ++ goal_text (shape_of goal.now)) }
{
    match goal {
        Form::Nop => text.extend_from_slice(b"nop"),
        Form::Name(name) => text.extend_from_slice(name.bytes()),
        Form::Test(fact) => push_with_fact(text, b"?", fact),
        Form::Absent(fact) => push_with_fact(text, b"!", fact),
        Form::Ins(fact) => push_with_fact(text, b"ins ", fact),
        Form::Del(fact) => push_with_fact(text, b"del ", fact),
        Form::Iso(part) => {
            text.extend_from_slice(b"iso(")?;
            push_goal(text, part)?;
            text.extend_from_slice(b")")
        }
        Form::Serial(members) => push_list(text, Operator::Serial, members),
        Form::Beside(members) => push_list(text, Operator::Beside, members),
        Form::Either(members) => push_list(text, Operator::Either, members),
    }
}
