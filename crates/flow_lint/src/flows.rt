ghost use Rattle.std.specs.Prelude.{◌≡◌, IfOk, map};
ghost use Rattle.std.specs.List.{flat_map, list_any};
ghost use Rattle.std.specs.Str.{bytes_eq};
ghost use Rattle.flow_form.specs.Form.{shape_of};
ghost use Rattle.flow_form.specs.Form as form;
ghost use Rattle.flow_form.specs.Names.{names_in, names_in_each};
ghost use Rattle.flow_form.specs.Script.{declared};
ghost use Rattle.flow_lint.specs.Goals.{is_unused, shapes_of};

use flow_facts::Name;
use flow_form::{Decl, Form};
use std::alloc::{AllocError, Global};

/// Whether they are written in the same bytes.
fn is_same(one: &Name, other: &Name) -> bool
    ensures { result ≡ bytes_eq one.now other.now }
{
    one.bytes() == other.bytes()
}

/// Whether one of the goals has the name.
#[cycle(naming)]
fn some_has(forms: &[Form], name: &Name) -> bool
    ensures { result ≡ list_any (bytes_eq name.now) (names_in_each (form.shapes (map shape_of forms.now))) }
{
    for form in forms {
        if has(form, name) {
            return true;
        }
    }
    false
}

/// Whether the goal has the name.
#[cycle(naming)]
fn has(form: &Form, name: &Name) -> bool
    ensures { result ≡ list_any (bytes_eq name.now) (names_in (shape_of form.now)) }
{
    match form {
        Form::Nop | Form::Test(_) | Form::Absent(_) | Form::Ins(_) | Form::Del(_) => false,
        Form::Name(other) => is_same(name, other),
        Form::Iso(body) => has(body, name),
        Form::Serial(forms) | Form::Beside(forms) | Form::Either(forms) => some_has(forms, name),
    }
}

/// Whether one of the goals has the name.
fn is_named(goals: &[&Form], name: &Name) -> bool
    ensures { result ≡ list_any (bytes_eq name.now) (flat_map names_in (shapes_of goals.now)) }
{
    for goal in goals {
        if has(goal, name) {
            return true;
        }
    }
    false
}

/// Whether it declares a sub-workflow that none of the goals names.
fn is_unused(goals: &[&Form], decl: &Decl) -> bool
    ensures { result ≡ is_unused (shapes_of goals.now) (declared decl.now) }
{
    match decl {
        Decl::Flow(name, _) => !is_named(goals, name),
        Decl::Fact(_) | Decl::Event(..) => false,
    }
}

/// Of each declaration, whether it is of a sub-workflow that none of the goals names.
pub(crate) fn unused_flows(
    alloc: Global,
    decls: &[Decl],
    goals: &[&Form],
) -> Result<Vec<bool>, AllocError>
    ensures { IfOk result (λ marks. marks.items ≡ map (is_unused (shapes_of goals.now)) (map declared decls.now)) }
{
    let mut marks = Vec::new(alloc);
    for decl in decls {
        marks.push(is_unused(goals, decl))?;
    }
    Ok(marks)
}
