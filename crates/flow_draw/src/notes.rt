ghost use Rattle.std.specs.Prelude.{◌≡◌, ◌++◌, codes, map, IfOk};
ghost use Rattle.flow_form.specs.RuleForm.{rule_shape_of};
ghost use Rattle.flow_draw.specs.Notes.{note_of};

use flow_facts::Name;
use flow_form::{Form, RuleForm, Script};
use flow_text::print;
use std::alloc::{AllocError, Global};

/// The length of what stands before the constraint where it is printed alone.
const FRONT: usize = 10;

/// The constraints of a script as text: each as the canonical print of the script has it.
pub fn notes_of(alloc: Global, rules: Vec<RuleForm>) -> Result<Vec<Name>, AllocError>
    ensures { IfOk result (λ notes. notes.items ≡ map (λ rule. note_of (rule_shape_of rule)) rules.items) }
{
    let mut notes = Vec::new(alloc);
    for rule in rules {
        notes.push(note(alloc, rule)?)?;
    }
    Ok(notes)
}

/// A constraint as text.
fn note(alloc: Global, rule: RuleForm) -> Result<Name, AllocError>
    ensures { IfOk result (λ note. note ≡ note_of (rule_shape_of rule)) }
{
    let text = print_alone(alloc, rule)?;
    let (_, line) = text.split_at(FRONT);
    let (note, _) = line.split_at(line.len() - 1);
    Name::new(alloc, note)
}

/// Prints a script that says nothing but the constraint.
fn print_alone(alloc: Global, rule: RuleForm) -> Result<Vec<u8>, AllocError>
    ensures { IfOk result (λ text. text.items ≡ codes "goal nop;\n" ++ (note_of (rule_shape_of rule) ++ codes "\n")) }
{
    let mut rules = Vec::new(alloc);
    rules.push(rule)?;
    let script = Script {
        decls: Vec::new(alloc),
        goal: Form::Nop,
        rules,
    };
    let text = print(alloc, &script);
    drop(script);
    text
}
