ghost use Rattle.std.specs.Prelude.{◌≡◌, ◌++◌, OnOk, IfOk, map};
ghost use Rattle.std.specs.Fmt.{decimal};
ghost use Rattle.flow_form.specs.Form.{shape_of};
ghost use Rattle.flow_form.specs.RuleForm.{rule_shape_of};
ghost use Rattle.flow_form.specs.Script.{declared, said};
ghost use Rattle.flow_text.specs.Printed.{note_text, declaration_line, declaration_lines, goal_line, constraint_line, constraint_lines, printed};

use crate::print_goals::{push_goal, push_with_fact};
use crate::print_rules::{push_rule, push_with_name};
use flow_form::{Decl, Form, Note, RuleForm, Script};
use itoa::Buffer;
use std::alloc::{AllocError, Global};

fn push_number(text: &mut Vec<u8>, number: u32) -> Result<(), AllocError>
    ensures { OnOk result (text.new.items ≡ text.old.items ++ decimal number) }
{
    let mut digits = Buffer::new();
    text.extend_from_slice(digits.format(number).as_bytes())
}

fn push_note(text: &mut Vec<u8>, note: Note) -> Result<(), AllocError>
    ensures { OnOk result (text.new.items ≡ text.old.items ++ note_text note) }
{
    match note {
        Note::Done => Ok(()),
        Note::Fail => text.extend_from_slice(b" fail"),
        Note::FailFirst(count) => {
            text.extend_from_slice(b" fail ")?;
            push_number(text, count)
        }
    }
}

fn push_declaration(text: &mut Vec<u8>, decl: &Decl) -> Result<(), AllocError>
    ensures { OnOk result (text.new.items ≡ text.old.items ++ declaration_line (declared decl.now)) }
{
    match decl {
        Decl::Fact(fact) => {
            push_with_fact(text, b"fact ", fact)?;
            text.extend_from_slice(b";\n")
        }
        Decl::Event(name, note) => {
            push_with_name(text, b"event ", name)?;
            push_note(text, *note)?;
            text.extend_from_slice(b";\n")
        }
        Decl::Flow(name, goal) => {
            push_with_name(text, b"flow ", name)?;
            text.extend_from_slice(b" = ")?;
            push_goal(text, goal)?;
            text.extend_from_slice(b";\n")
        }
    }
}

fn push_declarations(text: &mut Vec<u8>, decls: &[Decl]) -> Result<(), AllocError>
    ensures { OnOk result (text.new.items ≡ text.old.items ++ declaration_lines (map declared decls.now)) }
{
    for decl in decls {
        push_declaration(text, decl)?;
    }
    Ok(())
}

fn push_goal_line(text: &mut Vec<u8>, goal: &Form) -> Result<(), AllocError>
    ensures { OnOk result (text.new.items ≡ text.old.items ++ goal_line (shape_of goal.now)) }
{
    text.extend_from_slice(b"goal ")?;
    push_goal(text, goal)?;
    text.extend_from_slice(b";\n")
}

#[tactic(auto, unfolding(crate::specs::Printed::constraint_line))]
fn push_constraint(text: &mut Vec<u8>, rule: &RuleForm) -> Result<(), AllocError>
    ensures { OnOk result (text.new.items ≡ text.old.items ++ constraint_line (rule_shape_of rule.now)) }
{
    text.extend_from_slice(b"constraint ")?;
    push_rule(text, rule)?;
    text.extend_from_slice(b";\n")
}

fn push_constraints(text: &mut Vec<u8>, rules: &[RuleForm]) -> Result<(), AllocError>
    ensures { OnOk result (text.new.items ≡ text.old.items ++ constraint_lines (map rule_shape_of rules.now)) }
{
    for rule in rules {
        push_constraint(text, rule)?;
    }
    Ok(())
}

/// Writes a workflow as text: a line for each declaration, one for the goal, one for each constraint. No parentheses
/// stand there that the text means the same without.
pub fn print(alloc: Global, script: &Script) -> Result<Vec<u8>, AllocError>
    ensures { IfOk result (λ text. text.items ≡ printed (said script.now)) }
{
    let mut text = Vec::new(alloc);
    push_declarations(&mut text, &script.decls)?;
    push_goal_line(&mut text, &script.goal)?;
    push_constraints(&mut text, &script.rules)?;
    Ok(text)
}
