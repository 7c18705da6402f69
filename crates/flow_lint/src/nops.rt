ghost use Rattle.std.specs.Prelude.{◌≡◌, ◌++◌, false, IfOk, OnOk, map};
ghost use Rattle.std.specs.List.{flat_map};
ghost use Rattle.flow_form.specs.Form.{shape_of};
ghost use Rattle.flow_form.specs.Form as form;
ghost use Rattle.flow_lint.specs.Goals.{idle_nops, idle_nops_in, shapes_of};

use flow_form::Form;
use std::alloc::{AllocError, Global};

/// Adds a mark for each `nop` of the goals.
#[cycle(nops)]
fn mark_nops_in(marks: &mut Vec<bool>, forms: &[Form], part: bool) -> Result<(), AllocError>
    ensures { OnOk result (marks.new.items ≡ marks.old.items ++ idle_nops_in part (form.shapes (map shape_of forms.now))) }
{
    for form in forms {
        mark_nops(marks, form, part)?;
    }
    Ok(())
}

/// Adds a mark for each `nop` of the goal, which is a part of goals that are done one after another or beside one another, or not.
#[cycle(nops)]
fn mark_nops(marks: &mut Vec<bool>, form: &Form, part: bool) -> Result<(), AllocError>
    ensures { OnOk result (marks.new.items ≡ marks.old.items ++ idle_nops part (shape_of form.now)) }
{
    match form {
        Form::Nop => Ok(marks.push(part)?),
        Form::Name(_) | Form::Test(_) | Form::Absent(_) | Form::Ins(_) | Form::Del(_) => Ok(()),
        Form::Iso(body) => mark_nops(marks, body, false),
        Form::Serial(forms) | Form::Beside(forms) => mark_nops_in(marks, forms, true),
        Form::Either(forms) => mark_nops_in(marks, forms, false),
    }
}

/// Of each `nop` of the goals, whether it is a part of goals that are done one after another or beside one another.
pub(crate) fn idle_nops(alloc: Global, goals: &[&Form]) -> Result<Vec<bool>, AllocError>
    ensures { IfOk result (λ marks. marks.items ≡ flat_map (idle_nops false) (shapes_of goals.now)) }
{
    let mut marks = Vec::new(alloc);
    for goal in goals {
        mark_nops(&mut marks, goal, false)?;
    }
    Ok(marks)
}
