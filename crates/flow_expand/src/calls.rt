ghost use Rattle.std.specs.Prelude.{◌≡◌, ◌++◌, IfOk, OnOk, map, option_to_list};
ghost use Rattle.flow_form.specs.Form.{shape_of};
ghost use Rattle.flow_form.specs.Form as form;
ghost use Rattle.flow_form.specs.Names.{names_in, names_in_each};
ghost use Rattle.flow_expand.specs.Calls.{calls_in, AreCalls};
ghost use Rattle.flow_expand.specs.Directory.{found_in};

use crate::directory::Directory;
use flow_facts::Name;
use flow_form::Form;
use std::alloc::{AllocError, Global};

/// Adds what a name stands for, if that is a sub-workflow.
fn push_call(
    directory: &Directory<'_>,
    name: &Name,
    calls: &mut Vec<usize>,
) -> Result<(), AllocError>
    ensures { OnOk result (calls.new.items ≡ calls.old.items ++ option_to_list (found_in directory.now.flows name.now)) }
{
    if let Some(flow) = directory.flow(name) {
        calls.push(flow)?;
    }
    Ok(())
}

/// Adds the sub-workflows that goals name.
#[cycle(calling)]
fn push_all_calls(
    directory: &Directory<'_>,
    forms: &[Form],
    calls: &mut Vec<usize>,
) -> Result<(), AllocError>
    ensures { OnOk result (calls.new.items ≡ calls.old.items ++ calls_in directory.now.flows (names_in_each (form.shapes (map shape_of forms.now)))) }
{
    for form in forms {
        push_calls(directory, form, calls)?;
    }
    Ok(())
}

/// Adds the sub-workflows that a goal names, from the left.
#[cycle(calling)]
fn push_calls(
    directory: &Directory<'_>,
    form: &Form,
    calls: &mut Vec<usize>,
) -> Result<(), AllocError>
    ensures { OnOk result (calls.new.items ≡ calls.old.items ++ calls_in directory.now.flows (names_in (shape_of form.now))) }
{
    match form {
        Form::Nop | Form::Test(_) | Form::Absent(_) | Form::Ins(_) | Form::Del(_) => Ok(()),
        Form::Name(name) => push_call(directory, name, calls),
        Form::Iso(part) => push_calls(directory, part, calls),
        Form::Serial(forms) | Form::Beside(forms) | Form::Either(forms) => {
            push_all_calls(directory, forms, calls)
        }
    }
}

/// For each sub-workflow those that its goal names, from the left.
pub(crate) fn calls_of(
    alloc: Global,
    directory: &Directory<'_>,
) -> Result<Vec<Vec<usize>>, AllocError>
    ensures { IfOk result (λ calls. AreCalls directory.now calls.items) }
{
    let mut calls = Vec::new(alloc);
    for goal in &directory.goals {
        let mut named = Vec::new(alloc);
        push_calls(directory, goal, &mut named)?;
        calls.push(named)?;
    }
    Ok(calls)
}
