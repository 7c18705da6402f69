//! The generated workflow of a request, which is never refused.
ghost use Rattle.std.specs.Prelude.{◌≡◌, IfOk};
ghost use Rattle.flow_form.specs.Script.{said};
ghost use Rattle.flow_words.specs.Words.{IsWithin};
ghost use Rattle.flow_workflow.specs.Definition.{schema_of};
ghost use Rattle.flow_expand.specs.Workflows.{IsExpanded};
ghost use Rattle.flow_plan.specs.Compilation.{IsCompiled};
ghost use Rattle.flow_gen.specs.Generated.{generated};

use flow_form::{Script, TextRefusal};
use flow_front::{Stop, compile_workflow, expand_script};
use flow_gen::{
    generate, law_generated_texts_are_read, law_generated_workflows_are_compiled,
    law_generated_workflows_are_expanded,
};
use flow_plan::Compiled;
use flow_text::{law_texts_say_one_thing, parse};
use flow_words::Request;
use flow_workflow::Workflow;
use std::alloc::{AllocError, Global};

/// The script that the generated text says.
fn generated_script(alloc: Global, request: Request) -> Result<Script, AllocError>
    requires { IsWithin request }
    ensures { IfOk result (λ script. said script ≡ generated request.seed request.size) }
{
    law_generated_texts_are_read();
    law_texts_say_one_thing();
    let text = generate(alloc, request.seed, request.size)?;
    match parse(alloc, &text) {
        Ok(script) => Ok(script),
        Err(refusal) => match refusal {
            TextRefusal::NoMemory => Err(AllocError),
            _ => unreachable!(),
        },
    }
}

/// The workflow that the generated text says.
pub(crate) fn generated_workflow(alloc: Global, request: Request) -> Result<Workflow, AllocError>
    requires { IsWithin request }
    ensures { IfOk result (IsExpanded (generated request.seed request.size)) }
{
    let script = generated_script(alloc, request)?;
    let workflow = expand_generated(alloc, &script, request);
    drop(script);
    workflow
}

/// The workflow that the script says.
fn expand_generated(
    alloc: Global,
    script: &Script,
    request: Request,
) -> Result<Workflow, AllocError>
    requires within { IsWithin request }
    requires script { said script.now ≡ generated request.seed request.size }
    ensures { IfOk result (IsExpanded (generated request.seed request.size)) }
{
    law_generated_texts_are_read();
    law_generated_workflows_are_expanded();
    match expand_script(alloc, script) {
        Ok(workflow) => Ok(workflow),
        Err(stop) => match stop {
            Stop::NoMemory => Err(AllocError),
            Stop::Refused(_) => unreachable!(),
        },
    }
}

/// That workflow compiled.
pub(crate) fn compile_generated(
    alloc: Global,
    workflow: &Workflow,
    request: Request,
) -> Result<Compiled, AllocError>
    requires within { IsWithin request }
    requires expanded { IsExpanded (generated request.seed request.size) workflow.now }
    ensures { IfOk result (IsCompiled (schema_of workflow.now)) }
{
    law_generated_workflows_are_compiled();
    match compile_workflow(alloc, workflow) {
        Ok(compiled) => Ok(compiled),
        Err(stop) => match stop {
            Stop::NoMemory => Err(AllocError),
            Stop::Refused(_) => unreachable!(),
        },
    }
}
