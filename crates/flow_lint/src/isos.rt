ghost use Rattle.std.specs.Prelude.{◌≡◌, ◌++◌, IfOk, OnOk, map};
ghost use Rattle.std.specs.List.{flat_map};
ghost use Rattle.flow_form.specs.Form.{shape_of};
ghost use Rattle.flow_form.specs.Form as form;
ghost use Rattle.flow_lint.specs.Goals.{is_one, lone_isos, lone_isos_in, shapes_of};

use flow_form::Form;
use flow_workflow::Workflow;
use std::alloc::{AllocError, Global};

/// Whether the goal is an event, a test or a change of a fact, nothing, or isolated itself.
fn is_one(workflow: &Workflow, form: &Form) -> bool
    ensures { result ≡ is_one workflow.now.events (shape_of form.now) }
{
    match form {
        Form::Name(name) => workflow.event_number(name).is_some(),
        Form::Serial(_) | Form::Beside(_) | Form::Either(_) => false,
        Form::Nop | Form::Test(_) | Form::Absent(_) | Form::Ins(_) | Form::Del(_) | Form::Iso(_) =>
            true,
    }
}

/// Adds a mark for each isolation in the goals.
#[cycle(isos)]
fn mark_isos_in(
    marks: &mut Vec<bool>,
    workflow: &Workflow,
    forms: &[Form],
) -> Result<(), AllocError>
    ensures { OnOk result (marks.new.items ≡ marks.old.items ++ lone_isos_in workflow.now.events (form.shapes (map shape_of forms.now))) }
{
    for form in forms {
        mark_isos(marks, workflow, form)?;
    }
    Ok(())
}

/// Adds a mark for each isolation in the goal.
#[cycle(isos)]
fn mark_isos(marks: &mut Vec<bool>, workflow: &Workflow, form: &Form) -> Result<(), AllocError>
    ensures { OnOk result (marks.new.items ≡ marks.old.items ++ lone_isos workflow.now.events (shape_of form.now)) }
{
    match form {
        Form::Nop | Form::Name(_) | Form::Test(_) | Form::Absent(_) | Form::Ins(_) | Form::Del(_) =>
            Ok(()),
        Form::Iso(body) => {
            marks.push(is_one(workflow, body))?;
            mark_isos(marks, workflow, body)
        }
        Form::Serial(forms) | Form::Beside(forms) | Form::Either(forms) => {
            mark_isos_in(marks, workflow, forms)
        }
    }
}

/// Of each isolation in the goals, whether it isolates one thing alone.
pub(crate) fn lone_isos(
    alloc: Global,
    workflow: &Workflow,
    goals: &[&Form],
) -> Result<Vec<bool>, AllocError>
    ensures { IfOk result (λ marks. marks.items ≡ flat_map (lone_isos workflow.now.events) (shapes_of goals.now)) }
{
    let mut marks = Vec::new(alloc);
    for goal in goals {
        mark_isos(&mut marks, workflow, goal)?;
    }
    Ok(marks)
}
