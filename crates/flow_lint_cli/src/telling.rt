ghost use Rattle.std.specs.Prelude.{IfOk};
ghost use Rattle.flow_form.specs.Script.{said};
ghost use Rattle.flow_form.specs.Names.{IsClosed};
ghost use Rattle.flow_workflow.specs.Definition.{schema_of};
ghost use Rattle.flow_plan.specs.Compilation.{IsCompiled};
ghost use Rattle.flow_front.specs.Prepared.{OfWorkflow};
ghost use Rattle.flow_lint_cli.specs.Linted.{AreTold, IsLinted, IsLintedText, IsLintedWorkflow};

use crate::json::finding_objects;
use crate::places::Places;
use crate::things::Subject;
use crate::words::finding_lines;
use flow_form::Script;
use flow_front::{Output, Status, Stop, compile_workflow, expand_script};
use flow_lint::{Finding, lint};
use flow_plan::Compiled;
use flow_record::cut;
use flow_why_cli::{Form, explain, script_of};
use flow_workflow::Workflow;
use std::alloc::{AllocError, Global};

/// What stops a text of which nothing is refused.
fn memory(stop: Stop) -> AllocError {
    drop(stop);
    AllocError
}

/// What is told of findings: one line each, or nothing where there is none; or an object.
fn tell_findings(
    alloc: Global,
    subject: &Subject<'_>,
    findings: &[Finding],
    form: Form,
) -> Result<Output, AllocError>
    ensures { IfOk result (λ output. AreTold findings.now form output.status output.text.items) }
{
    let status = if findings.is_empty() {
        Status::Fine
    } else {
        Status::No
    };
    let text = match form {
        Form::Json => finding_objects(alloc, subject, findings)?,
        Form::Words | Form::WithCircles if findings.is_empty() => Vec::new(alloc),
        Form::Words | Form::WithCircles => finding_lines(alloc, subject, findings)?,
    };
    Ok(Output { status, text })
}

/// What is told of a workflow that is compiled.
fn lint_compiled(
    alloc: Global,
    text: &[u8],
    script: &Script,
    workflow: &Workflow,
    compiled: &Compiled,
    form: Form,
) -> Result<Output, AllocError>
    requires { IsCompiled (schema_of workflow.now) compiled.now }
    ensures { IfOk result (λ output. IsLintedWorkflow (said script.now) workflow.now form output.status output.text.items) }
{
    let findings = lint(alloc, script, workflow, compiled)?;
    let places = Places::in_text(alloc, text)?;
    let subject = Subject {
        text,
        script,
        workflow,
        places: &places,
    };
    tell_findings(alloc, &subject, &findings, form)
}

/// What is told of a workflow that is not refused.
fn lint_workflow(
    alloc: Global,
    text: &[u8],
    script: &Script,
    workflow: &Workflow,
    form: Form,
) -> Result<Output, AllocError>
    ensures { IfOk result (λ output. IsLintedWorkflow (said script.now) workflow.now form output.status output.text.items) }
{
    match compile_workflow(alloc, workflow) {
        Ok(compiled) => {
            let output = lint_compiled(alloc, text, script, workflow, &compiled, form);
            drop(compiled);
            output
        }
        Err(stop) => Err(memory(stop)),
    }
}

/// What is told of a script that is not refused.
fn lint_script(
    alloc: Global,
    text: &[u8],
    script: &Script,
    form: Form,
) -> Result<Output, AllocError>
    requires { IsClosed (said script.now) }
    ensures { IfOk result (λ output. OfWorkflow (said script.now) (λ w. IsLintedWorkflow (said script.now) w form output.status output.text.items)) }
{
    match expand_script(alloc, script) {
        Ok(workflow) => {
            let output = lint_workflow(alloc, text, script, &workflow, form);
            drop(workflow);
            output
        }
        Err(stop) => Err(memory(stop)),
    }
}

/// What to look at in a text of which nothing is refused.
fn lint_fine(alloc: Global, text: &[u8], form: Form) -> Result<Output, AllocError>
    ensures { IfOk result (λ output. IsLintedText text.now form output.status output.text.items) }
{
    let (end, _) = cut(text);
    match script_of(alloc, text) {
        Ok(script) => {
            let output = lint_script(alloc, &text[..end], &script, form);
            drop(script);
            output
        }
        Err(stop) => Err(memory(stop)),
    }
}

/// What to look at in a workflow's text: a line for each finding, and status 1; nothing, and status 0, where there is none. Where the
/// text is refused, or no execution meets its constraints, it is what `explain` tells, with that status.
pub fn lint_text(alloc: Global, text: &[u8], form: Form) -> Result<Output, AllocError>
    ensures { IfOk result (λ output. IsLinted text.now form output.status output.text.items) }
{
    let explained = explain(alloc, text, form)?;
    if !matches!(explained.status, Status::Fine) {
        return Ok(explained);
    }
    drop(explained);
    lint_fine(alloc, text, form)
}
